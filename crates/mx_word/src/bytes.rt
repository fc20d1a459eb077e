//! Lists of bytes.

ghost use Rattle.std.specs.Prelude.{◌≡◌, ◌++◌, IfOk, OnOk, OnErr, ◌+◌, ◌<◌, ◌≤◌, ◌^◌, length};
ghost use Rattle.mx_word.specs.Lists.{with_written, with_zeros, with_part};

use crate::{NoMemory, Sequence};
use std::alloc::Global;

/// A list of bytes.
pub type Bytes = Sequence<u8>;

impl Sequence<u8> {
    /// A list with these bytes of its own. `NoMemory` where there is no memory for them.
    pub fn copy(alloc: Global, from: &[u8]) -> Result<Bytes, NoMemory>
        ensures { IfOk result (λ b. b ≡ from.now) }
    {
        Ok(Sequence {
            elements: Vec::from_slice(alloc, from)?,
        })
    }

    /// Adds bytes at the end. `NoMemory` where there is no memory for them; then nothing changed.
    pub fn extend(&mut self, from: &[u8]) -> Result<(), NoMemory>
        ensures ok { OnOk result (self.new ≡ self.old ++ from.now) }
        ensures err { OnErr result (self.new ≡ self.old) }
    {
        self.elements.extend_from_slice(from)?;
        Ok(())
    }

    /// Writes bytes at a place, counted from 0, and fills a gap before the place with zeros. It needs a last
    /// place below 2^63 - 1: the place and the number of bytes together are below 2^63. No bytes change nothing,
    /// and fill no gap. `NoMemory` where there is no memory for the longer list; then nothing changed.
    pub fn overwrite(&mut self, place: usize, from: &[u8]) -> Result<(), NoMemory>
        requires { place + length from.now < 2 ^ 63 }
        ensures ok { OnOk result (self.new ≡ with_written self.old place from.now) }
        ensures err { OnErr result (self.new ≡ self.old) }
    {
        if from.is_empty() {
            return Ok(());
        }
        self.pad(place + from.len())?;
        replace(self.elements.as_mut_slice(), place, from);
        Ok(())
    }

    /// Adds zeros until the list has this length.
    fn pad(&mut self, to: usize) -> Result<(), NoMemory>
        ensures ok { OnOk result (self.new ≡ with_zeros self.old to) }
        ensures err { OnErr result (self.new ≡ self.old) }
    {
        if to > self.elements.len() {
            self.elements.resize(to, 0)?;
        }
        Ok(())
    }
}

/// Puts bytes in place of as many.
fn replace(bytes: &mut [u8], place: usize, from: &[u8])
    requires { place + length from.now ≤ length bytes.old }
    ensures { bytes.new ≡ with_part bytes.old place from.now }
{
    bytes[place..place + from.len()].copy_from_slice(from);
}
