//! Why a source is refused.

ghost use Rattle.std.specs.Prelude.{◌≡◌};
ghost use Rattle.mx_files.specs.Loading as spec;
ghost use Rattle.mx_files.specs.Assembling.{refused_with};

use mx_asm::{AsmFault, Refused};
use mx_outcome::Outcome;
use mx_word::NoMemory;

/// The refusal of a source: the line from 1, the number of the fault, and the line of the reference that
/// waited for the label of that line, or 0 where the fault is not about one.
#[derive(Clone, Copy)]
pub struct Refusal {
    pub line: u32,
    pub fault: u16,
    pub from_line: u32,
}

impl Refusal {
    /// The outcome of a source that is refused so.
    pub fn outcome(&self) -> Outcome
        ensures { result ≡ refused_with self.now }
    {
        Outcome::Refused {
            line: self.line,
            fault: self.fault,
            from_line: self.from_line,
        }
    }
}

/// Why a source comes to nothing: it is refused, or out of memory.
#[derive(Clone, Copy)]
pub enum SourceFault {
    Refused(Refusal),
    OutOfMemory,
}

impl From<NoMemory> for SourceFault {
    ghost use Rattle.mx_files.specs.declared.refusal.SourceFault.TheVariants.{OutOfMemory};

    ghost from_gives = { λ _ fault. fault ≡ OutOfMemory };

    fn from(_error: NoMemory) -> SourceFault {
        SourceFault::OutOfMemory
    }
}

/// The refusal of a line with the number of a fault.
pub fn refusal_at(line: u32, fault: u16) -> Refusal
    ensures { result ≡ spec.refused_at line fault }
{
    Refusal {
        line,
        fault,
        from_line: 0,
    }
}

/// What the assembler refuses a source with.
pub fn refusal_of(refused: Refused) -> Refusal
    ensures { result ≡ spec.refusal_of refused }
{
    Refusal {
        line: refused.line,
        fault: refused.fault.number(),
        from_line: refused.from_line,
    }
}

/// Whether the assembler is out of memory.
pub fn is_out_of_memory(refused: &Refused) -> bool
    ensures { result ≡ spec.is_no_memory refused.now.fault }
{
    matches!(refused.fault, AsmFault::OutOfMemory)
}
