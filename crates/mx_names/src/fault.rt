//! What is wrong with a name.

ghost use Rattle.std.specs.Prelude.{◌≡◌};
ghost use Rattle.mx_names.specs.Numbers.{number_of};

use mx_word::NoMemory;

/// Why a symbol or a definition is refused.
#[derive(Clone, Copy, Debug, PartialEq, Eq)]
pub enum NameFault {
    /// The name is defined already.
    Twice,
    /// The name is predefined.
    Predefined,
    /// The complete name has more than 1,024 bytes.
    NameTooLong,
    /// There was no memory.
    OutOfMemory,
}

impl NameFault {
    /// The number of the fault; 0 where there was no memory, which has none.
    pub fn number(&self) -> u16
        ensures { result ≡ number_of self.now }
    {
        match self {
            NameFault::Twice => 30,
            NameFault::Predefined => 31,
            NameFault::NameTooLong => 33,
            NameFault::OutOfMemory => 0,
        }
    }
}

impl From<NoMemory> for NameFault {
    ghost use Rattle.mx_names.specs.declared.fault.NameFault.TheVariants.{OutOfMemory};

    ghost from_gives = { λ _ fault. fault ≡ OutOfMemory };

    fn from(_error: NoMemory) -> NameFault {
        NameFault::OutOfMemory
    }
}
