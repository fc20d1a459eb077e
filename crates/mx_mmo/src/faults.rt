//! Why an object is refused.

ghost use Rattle.std.specs.Prelude.{◌≡◌};
ghost use Rattle.mx_mmo.specs.Faults.{number_of, place_of};

use mx_word::NoMemory;

/// Why an object is refused, each with a byte place in the object.
#[derive(Clone, Copy, Debug, PartialEq, Eq)]
pub enum MmoFault {
    /// At the end one to three bytes are left over; the place is theirs.
    NotTetras(u64),
    /// The first tetra is not `pre` with Y = 1.
    NoPre(u64),
    /// A lopcode that does not exist, or one that may not be here.
    BadLop(u64),
    /// A lopcode with wrong fields, or the count in `end` is wrong.
    BadFields(u64),
    /// The input ends within an item or before `stab`, or its last tetra is not `end`; the place
    /// is its length.
    Truncated(u64),
    /// More than 2^26 bytes came.
    TooLong(u64),
    /// There was no memory.
    OutOfMemory,
}

impl MmoFault {
    /// The number of the fault; 0 for out of memory.
    pub fn number(&self) -> u16
        ensures { result ≡ number_of self.now }
    {
        match self {
            MmoFault::NotTetras(_) => 60,
            MmoFault::NoPre(_) => 61,
            MmoFault::BadLop(_) => 62,
            MmoFault::BadFields(_) => 63,
            MmoFault::Truncated(_) => 64,
            MmoFault::TooLong(_) => 65,
            MmoFault::OutOfMemory => 0,
        }
    }

    /// The byte place in the object that the fault carries; out of memory has none.
    pub fn place(&self) -> Option<u64>
        ensures { result ≡ place_of self.now }
    {
        match self {
            MmoFault::NotTetras(place)
            | MmoFault::NoPre(place)
            | MmoFault::BadLop(place)
            | MmoFault::BadFields(place)
            | MmoFault::Truncated(place)
            | MmoFault::TooLong(place) => Some(*place),
            MmoFault::OutOfMemory => None,
        }
    }
}

impl From<NoMemory> for MmoFault {
    ghost use Rattle.mx_mmo.specs.declared.faults.MmoFault.TheVariants.{OutOfMemory};

    ghost from_gives = { λ _ fault. fault ≡ OutOfMemory };

    fn from(_error: NoMemory) -> MmoFault {
        MmoFault::OutOfMemory
    }
}
