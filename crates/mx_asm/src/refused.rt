//! The refusal of a source.

ghost use Rattle.std.specs.Prelude.{◌≡◌};
ghost use Rattle.mx_asm.specs.Faults as spec;

use crate::AsmFault;
use mx_word::NoMemory;

/// A refusal: the line, the fault, and the line of the reference for FutureRegister, FutureTooFar
/// and FutureNotMultiple, otherwise 0. Lines are counted from 1. Out of memory has the lines 0.
#[derive(Clone, Copy)]
pub struct Refused {
    pub line: u32,
    pub fault: AsmFault,
    pub from_line: u32,
}

impl Refused {
    /// The refusal of a line.
    pub(crate) fn at(line: u32, fault: AsmFault) -> Refused
        ensures { result ≡ spec.refused line fault }
    {
        Refused {
            line,
            fault,
            from_line: 0,
        }
    }

    /// Out of memory.
    pub(crate) fn no_memory() -> Refused
        ensures { result ≡ spec.no_memory }
    {
        Refused::at(0, AsmFault::OutOfMemory)
    }
}

impl From<NoMemory> for Refused {
    ghost use Rattle.mx_asm.specs.Faults.{no_memory};

    ghost from_gives = { λ _ refused. refused ≡ no_memory };

    fn from(_error: NoMemory) -> Refused {
        Refused::no_memory()
    }
}
