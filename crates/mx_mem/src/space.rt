//! A space of bytes, as file traps see it.

ghost use Rattle.std.specs.Prelude.{◌≡◌, ◌≢◌, ◌<◌, Err, IsTrue, not};
ghost use Rattle.mx_mem.specs.Space as spec;
ghost use Rattle.mx_mem.specs.Space.{Contents, octa_answer, byte_answer, put_answer, makes_page, memory_contents};

use crate::{MemFault, Memory, Part};

/// Why a space refuses a call: the address is 2^63 or more; the byte would begin one page too many;
/// or it is out of memory.
#[derive(Clone, Copy, Debug, PartialEq, Eq)]
pub enum SpaceFault {
    Negative,
    PagesFull,
    OutOfMemory,
}

/// Bytes at the addresses below 2^63, with pages. Where the stack area lies outside its pages, a
/// byte there makes no page and is never refused for one.
pub trait Space {
    // The type of all that a space has besides its bytes and its pages.
    ghost Rest: { Type 0 };

    ghost contents: { Self → Contents Self.Rest };

    /// The octa that holds an address. It takes no memory.
    ///
    /// Errors: `Negative`, exactly where the address is 2^63 or more.
    fn octa_at(&self, a: u64) -> Result<u64, SpaceFault>
        ensures { result ≡ octa_answer (Self.contents self.now) a };

    /// The byte at an address. It takes no memory.
    ///
    /// Errors: `Negative`, exactly where the address is 2^63 or more.
    fn byte_at(&self, a: u64) -> Result<u8, SpaceFault>
        ensures { result ≡ byte_answer (Self.contents self.now) a };

    /// Puts a byte at an address, whose page is there afterwards; nothing else changes.
    ///
    /// Errors: `Negative`, `PagesFull` exactly where the page would be one too many, and out of
    /// memory; then nothing changed. It takes no memory where it makes no page.
    fn put_byte(&mut self, a: u64, b: u8) -> Result<(), SpaceFault>
        ensures answer { result ≢ Err SpaceFault.OutOfMemory →
            (result, Self.contents self.new) ≡ put_answer (Self.contents self.old) a b }
        ensures memory { result ≡ Err SpaceFault.OutOfMemory →
            Self.contents self.new ≡ Self.contents self.old }
        ensures lacks_memory { IsTrue (not (makes_page (Self.contents self.old) a)) →
            result ≢ Err SpaceFault.OutOfMemory };
}

impl Space for Memory {
    ghost Rest = { Unit {0} };

    ghost contents = { memory_contents };

    fn octa_at(&self, a: u64) -> Result<u64, SpaceFault> {
        if is_negative(a) {
            return Err(SpaceFault::Negative);
        }
        Ok(self.load(a))
    }

    fn byte_at(&self, a: u64) -> Result<u8, SpaceFault> {
        if is_negative(a) {
            return Err(SpaceFault::Negative);
        }
        Ok(self.byte(a))
    }

    fn put_byte(&mut self, a: u64, b: u8) -> Result<(), SpaceFault> {
        if is_negative(a) {
            return Err(SpaceFault::Negative);
        }
        match self.store_part(a, Part::Byte, u64::from(b)) {
            Ok(()) => Ok(()),
            Err(MemFault::PagesFull) => Err(SpaceFault::PagesFull),
            Err(MemFault::OutOfMemory) => Err(SpaceFault::OutOfMemory),
        }
    }
}

/// Whether an address is 2^63 or more.
#[inline(always)]
fn is_negative(a: u64) -> bool
    ensures { result ≡ spec.is_negative a }
{
    a >= 1 << 63
}
