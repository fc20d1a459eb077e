//! Future references: to names, and to local labels, that are defined later.

ghost use Rattle.std.specs.Prelude.{◌≡◌};
ghost use Rattle.mx_word.specs.Waits.{same_awaited};

use crate::{Bytes, Sequence};

/// What a reference waits for: a complete name, or the next definition `dH` of the local label with this digit d, 0
/// to 9.
#[derive(Drop)]
pub enum Awaited {
    Name(Bytes),
    Local(u8),
}

impl Awaited {
    /// Whether both are the same name, or the same local label. Only rows of tests call it.
    pub fn is_same(&self, other: &Awaited) -> bool
        ensures { result ≡ same_awaited self.now other.now }
    {
        match (self, other) {
            (Awaited::Name(name), Awaited::Name(wanted)) => name.as_slice() == wanted.as_slice(),
            (Awaited::Local(label), Awaited::Local(wanted)) => label == wanted,
            _ => false,
        }
    }
}

/// Where the value of a reference goes: into an octa; or into a relative address, counted in tetras, of 16 bits, as
/// in a branch, GETA or PUSHJ (`Near`), or of 24 bits, as in JMP (`Far`).
#[derive(Clone, Copy, Debug, PartialEq, Eq)]
pub enum WaitKind {
    Octa,
    Near,
    Far,
}

/// A reference that waits for a label: what it waits for, the address of the octa or the instruction that it is
/// in, the line of the source, from 1, and the kind, which says where its value goes.
#[derive(Drop)]
pub struct Wait {
    pub who: Awaited,
    pub at: u64,
    pub line: u32,
    pub kind: WaitKind,
}

/// A list of waiting references, in the order in which they were made.
pub type Waits = Sequence<Wait>;
