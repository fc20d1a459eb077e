//! The machine as a space of bytes, with the stack area from its register stack.

ghost use Rattle.std.specs.Prelude.{◌≡◌};
ghost use Rattle.mx_mem.specs.Space as spec;

use crate::Machine;
use mx_mem::{MemFault, Part, Space, SpaceFault, with_part};

impl Space for Machine {
    ghost use Rattle.mx_core.specs.State.{State};
    ghost use Rattle.mx_core.specs.MachineSpace.{kept_contents};

    ghost Rest = { State };

    ghost contents = { kept_contents };

    fn octa_at(&self, a: u64) -> Result<u64, SpaceFault> {
        if is_negative(a) {
            return Err(SpaceFault::Negative);
        }
        Ok(self.octa(a))
    }

    fn byte_at(&self, a: u64) -> Result<u8, SpaceFault> {
        if is_negative(a) {
            return Err(SpaceFault::Negative);
        }
        Ok((self.octa(a) >> (8 * (7 - a % 8)) & 0xff) as u8)
    }

    fn put_byte(&mut self, a: u64, b: u8) -> Result<(), SpaceFault> {
        if is_negative(a) {
            return Err(SpaceFault::Negative);
        }
        let octa = with_part(Part::Byte, self.octa(a), a, u64::from(b));
        match self.store_octa(a, octa) {
            Ok(()) => Ok(()),
            Err(MemFault::PagesFull) => Err(SpaceFault::PagesFull),
            Err(MemFault::OutOfMemory) => Err(SpaceFault::OutOfMemory),
        }
    }
}

/// Whether an address is 2^63 or more.
#[inline(always)]
fn is_negative(a: u64) -> bool
    ensures { result ≡ spec.is_negative a }
{
    a >= 1 << 63
}
