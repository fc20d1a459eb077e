//! Why a symbol trie is refused.

ghost use Rattle.std.specs.Prelude.{◌≡◌};
ghost use Rattle.mx_stab.specs.Faults.{number_of, place_of};

use mx_word::NoMemory;

/// Why a symbol trie is refused, each with a byte place in the trie.
#[derive(Clone, Copy, Debug, PartialEq, Eq)]
pub enum StabFault {
    /// The bytes end within the trie; the place is their length.
    Truncated(u64),
    /// Four or more bytes follow the trie, or one that is not zero; the place is that of the
    /// first byte after the trie.
    Padding(u64),
    /// A node with the bit #80 that has no character, or whose character is below #80 or from #d800
    /// to #dfff; the place is that of the node's byte m.
    Wide(u64),
    /// A name that came before; the place is its node's.
    Twice(u64),
    /// A path of more than 1,024 bytes; the place is its node's.
    TooLong(u64),
    /// A serial number of 2^32 or more; the place is its node's.
    BadSerial(u64),
    /// There was no memory.
    OutOfMemory,
}

impl From<NoMemory> for StabFault {
    ghost use Rattle.std.specs.Prelude.{◌≡◌};
    ghost use Rattle.mx_stab.specs.declared.faults.StabFault.TheVariants.{OutOfMemory};

    ghost from_gives = { λ _ fault. fault ≡ OutOfMemory };

    fn from(_none: NoMemory) -> StabFault {
        StabFault::OutOfMemory
    }
}

impl StabFault {
    /// The number of the fault; 0 for out of memory.
    pub fn number(&self) -> u16
        ensures { result ≡ number_of self.now }
    {
        match self {
            StabFault::Truncated(_) => 70,
            StabFault::Padding(_) => 71,
            StabFault::Wide(_) => 72,
            StabFault::Twice(_) => 73,
            StabFault::TooLong(_) => 74,
            StabFault::BadSerial(_) => 76,
            StabFault::OutOfMemory => 0,
        }
    }

    /// The byte place in the trie that the fault carries; out of memory has none.
    pub fn place(&self) -> Option<u64>
        ensures { result ≡ place_of self.now }
    {
        match self {
            StabFault::Truncated(place)
            | StabFault::Padding(place)
            | StabFault::Wide(place)
            | StabFault::Twice(place)
            | StabFault::TooLong(place)
            | StabFault::BadSerial(place) => Some(*place),
            StabFault::OutOfMemory => None,
        }
    }
}
