//! Why a statement is refused.

ghost use Rattle.std.specs.Prelude.{◌≡◌};
ghost use Rattle.mx_stmt.specs.Faults.{fault_number, fault_of};

use mx_expr::ExprFault;
use mx_word::NoMemory;

/// A fault of a statement.
#[derive(Clone, Copy)]
pub enum StmtFault {
    /// A fault of an operand, other than out of memory.
    Expr(ExprFault),
    /// No operation has the name in the opcode field.
    UnknownOpcode,
    /// The number or the form of the operands is none that the operation takes.
    Operands,
    /// An operand is pure where a register is wanted.
    NotRegister,
    /// An operand is a register where a pure number is wanted.
    NotPure,
    /// A pure number does not fit its field, or the size of the data.
    Fit,
    /// No base register lies within 255 below an address.
    NoBase,
    /// A relative address is out of reach.
    TooFar,
    /// The distance of a relative address is no multiple of 4.
    NotMultiple,
    /// One more global register is wanted after `$32`.
    TooManyGregs,
    /// A label is at PREFIX or LOCAL.
    LabelNotAllowed,
    /// A byte would lie at `#6000000000000000` or above.
    BadPlace,
    /// There was no memory.
    OutOfMemory,
}

impl StmtFault {
    /// The fault's number; 0 for out of memory, which has none.
    pub fn number(&self) -> u16
        ensures { result ≡ fault_number self.now }
    {
        match self {
            StmtFault::Expr(fault) => fault.number(),
            StmtFault::UnknownOpcode => 39,
            StmtFault::Operands => 40,
            StmtFault::NotRegister => 41,
            StmtFault::NotPure => 42,
            StmtFault::Fit => 43,
            StmtFault::NoBase => 44,
            StmtFault::TooFar => 45,
            StmtFault::NotMultiple => 46,
            StmtFault::TooManyGregs => 47,
            StmtFault::LabelNotAllowed => 48,
            StmtFault::BadPlace => 49,
            StmtFault::OutOfMemory => 0,
        }
    }

    /// A fault of an expression as one of its statement.
    pub(crate) fn of(fault: ExprFault) -> StmtFault
        ensures { result ≡ fault_of fault }
    {
        match fault {
            ExprFault::OutOfMemory => StmtFault::OutOfMemory,
            _ => StmtFault::Expr(fault),
        }
    }
}

impl From<NoMemory> for StmtFault {
    ghost use Rattle.mx_stmt.specs.declared.faults.StmtFault.{StmtFault};

    ghost from_gives = { λ error fault. fault ≡ StmtFault.OutOfMemory };

    fn from(_error: NoMemory) -> StmtFault {
        StmtFault::OutOfMemory
    }
}
