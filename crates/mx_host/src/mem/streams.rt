//! The standard streams of a host in memory.

ghost use Rattle.std.specs.Prelude.{◌≡◌, ◌≤◌, ◌<◌, ◌+◌, ◌^◌, ◌++◌, OnOk, IfErr, length, take, drop};

use super::MemHost;
use crate::faults::HostFault;

impl MemHost {
    /// Takes bytes from the input left.
    pub(super) fn take_input(&mut self, into: &mut [u8]) -> usize
        ensures count { result ≡ length (take (length into.old) self.old.input) }
        ensures bytes { into.new ≡ take (length into.old) self.old.input ++ drop result into.old }
        ensures left { self.new ≡ record self.old { input = drop (length into.old) self.old.input } }
    {
        let count = copy_front(self.input.as_slice(), self.input_place, into);
        self.input_place += count;
        count
    }

    /// Adds bytes to standard output.
    pub(super) fn add_output(&mut self, from: &[u8]) -> Result<(), HostFault>
        ensures ok { OnOk result (self.new ≡ record self.old { output = self.old.output ++ from.now }) }
        ensures err { IfErr result (λ e. (e ≡ HostFault.OutOfMemory) × (self.new ≡ self.old)) }
    {
        self.output.extend(from)?;
        Ok(())
    }

    /// Adds bytes to standard error.
    pub(super) fn add_errors(&mut self, from: &[u8]) -> Result<(), HostFault>
        ensures ok { OnOk result (self.new ≡ record self.old { errors = self.old.errors ++ from.now }) }
        ensures err { IfErr result (λ e. (e ≡ HostFault.OutOfMemory) × (self.new ≡ self.old)) }
    {
        self.errors.extend(from)?;
        Ok(())
    }
}

/// Copies what fits of `bytes` from a place on.
pub(super) fn copy_front(bytes: &[u8], place: usize, into: &mut [u8]) -> usize
    ensures within { result ≤ length into.old }
    ensures fits { place < 2 ^ 63 → place + result < 2 ^ 63 }
    ensures count { result ≡ length (take (length into.old) (drop place bytes.now)) }
    ensures bytes { into.new ≡ take (length into.old) (drop place bytes.now) ++ drop result into.old }
{
    if place >= bytes.len() {
        return 0;
    }
    let left = bytes.len() - place;
    let count = if left < into.len() { left } else { into.len() };
    into[..count].copy_from_slice(&bytes[place..place + count]);
    count
}
