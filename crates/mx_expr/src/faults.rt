//! Why a field has no list of expressions, or an expression no value.

ghost use Rattle.std.specs.Prelude.{◌≡◌};
ghost use Rattle.mx_expr.specs.Faults.{fault_number};

use mx_word::NoMemory;
use std::alloc::{AllocError, AllocFailed};

/// A fault of a field or of an expression.
#[derive(Clone, Copy, Debug, PartialEq, Eq)]
pub enum ExprFault {
    /// The field is not spelled as a list of expressions.
    Syntax,
    /// A constant is 2^64 or more.
    TooWide,
    /// `/` or `%` by 0.
    DivZero,
    /// `x//y` where x is not below y.
    FractionTooBig,
    /// There is a register where only a pure value is taken.
    PureOnly,
    /// A register plus a register.
    TwoRegisters,
    /// A pure value minus a register.
    RegisterFromPure,
    /// A symbol that is not known, or a local label that comes later.
    Future,
    /// More than 255 parentheses are open.
    TooDeep,
    /// A string has no byte.
    EmptyString,
    /// A register is outside 0 to 255.
    RegisterNumber,
    /// The complete form of a symbol is too long.
    NameTooLong,
    /// There was no memory.
    OutOfMemory,
}

impl ExprFault {
    /// The fault's number: 10 to 19, 21 or 33, and 0 where there was no memory.
    pub fn number(&self) -> u16
        ensures { result ≡ fault_number self.now }
    {
        match self {
            ExprFault::Syntax => 10,
            ExprFault::TooWide => 11,
            ExprFault::DivZero => 12,
            ExprFault::FractionTooBig => 13,
            ExprFault::PureOnly => 14,
            ExprFault::TwoRegisters => 15,
            ExprFault::RegisterFromPure => 16,
            ExprFault::Future => 17,
            ExprFault::TooDeep => 18,
            ExprFault::EmptyString => 19,
            ExprFault::RegisterNumber => 21,
            ExprFault::NameTooLong => 33,
            ExprFault::OutOfMemory => 0,
        }
    }
}

impl From<NoMemory> for ExprFault {
    ghost use Rattle.mx_expr.specs.declared.faults.ExprFault.TheVariants.{OutOfMemory};

    ghost from_gives = { λ _ fault. fault ≡ OutOfMemory };

    fn from(_error: NoMemory) -> ExprFault {
        ExprFault::OutOfMemory
    }
}

impl From<AllocError> for ExprFault {
    ghost use Rattle.mx_expr.specs.declared.faults.ExprFault.TheVariants.{OutOfMemory};

    ghost from_gives = { λ _ fault. fault ≡ OutOfMemory };

    fn from(_error: AllocError) -> ExprFault {
        ExprFault::OutOfMemory
    }
}

impl<T: Drop> From<AllocFailed<T>> for ExprFault {
    ghost use Rattle.mx_expr.specs.declared.faults.ExprFault.TheVariants.{OutOfMemory};

    ghost from_gives = { λ _ fault. fault ≡ OutOfMemory };

    fn from(_failed: AllocFailed<T>) -> ExprFault {
        ExprFault::OutOfMemory
    }
}
