//! Why a source is refused.

ghost use Rattle.std.specs.Prelude.{◌≡◌};
ghost use Rattle.mx_asm.specs.Faults.{fault_number, is_early};

use mx_line::LineFault;
use mx_names::NameFault;
use mx_stmt::StmtFault;
use mx_word::NoMemory;

/// A fault of a source.
#[derive(Clone, Copy)]
pub enum AsmFault {
    /// A fault of a line.
    Line(LineFault),
    /// A fault of a statement, other than out of memory.
    Stmt(StmtFault),
    /// A fault of a label, other than out of memory.
    Name(NameFault),
    /// A reference names a symbol that is never defined.
    UndefinedSymbol,
    /// A reference `dF` has no later `dH`.
    UndefinedLocal,
    /// `:Main` is not defined.
    MainUndefined,
    /// `:Main` is a register.
    MainRegister,
    /// The label that a reference waits for is a register.
    FutureRegister,
    /// The label is out of reach of a relative address that waits for it.
    FutureTooFar,
    /// The symbol trie has more than 65,535 tetras.
    SymbolsTooMany,
    /// LOCAL named a register at or above the lowest global one.
    LocalAboveGlobals,
    /// The lines so far, with the newlines between them, have more than 2^22 bytes.
    SourceTooLong,
    /// The distance of a relative address that waits for a label is no multiple of 4.
    FutureNotMultiple,
    /// There was no memory.
    OutOfMemory,
}

impl AsmFault {
    /// The fault's number; 0 for out of memory, which has none.
    pub fn number(&self) -> u16
        ensures { result ≡ fault_number self.now }
    {
        match self {
            AsmFault::Line(fault) => fault.number(),
            AsmFault::Stmt(fault) => fault.number(),
            AsmFault::Name(fault) => fault.number(),
            AsmFault::UndefinedSymbol => 80,
            AsmFault::UndefinedLocal => 81,
            AsmFault::MainUndefined => 82,
            AsmFault::MainRegister => 83,
            AsmFault::FutureRegister => 84,
            AsmFault::FutureTooFar => 85,
            AsmFault::SymbolsTooMany => 86,
            AsmFault::LocalAboveGlobals => 87,
            AsmFault::SourceTooLong => 88,
            AsmFault::FutureNotMultiple => 89,
            AsmFault::OutOfMemory => 0,
        }
    }

    /// Whether it is found before a statement has changed anything.
    pub(crate) fn is_early(&self) -> bool
        ensures { result ≡ is_early self.now }
    {
        !matches!(
            self,
            AsmFault::FutureRegister
                | AsmFault::FutureTooFar
                | AsmFault::FutureNotMultiple
                | AsmFault::OutOfMemory
        )
    }
}

impl From<NoMemory> for AsmFault {
    ghost use Rattle.mx_asm.specs.declared.faults.AsmFault.TheVariants.{OutOfMemory};

    ghost from_gives = { λ _ fault. fault ≡ OutOfMemory };

    fn from(_error: NoMemory) -> AsmFault {
        AsmFault::OutOfMemory
    }
}
