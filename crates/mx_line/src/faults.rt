//! Why a line has no statements, or no further ones.

ghost use Rattle.std.specs.Prelude.{◌≡◌};
ghost use Rattle.mx_line.specs.Faults.{fault_number};

/// What is wrong with a line as a whole, or with a statement on it before its operands are read.
#[derive(Clone, Copy, Debug, PartialEq, Eq)]
pub enum LineFault {
    /// The line has more than 4,096 bytes.
    TooLong,
    /// A label is followed by a byte that is not blank.
    BadLabel,
    /// A label begins with a digit and is not a digit and `H`.
    BadLocal,
    /// An opcode is followed by a byte that is not blank and not `;`.
    BadOpcode,
    /// A string is not closed on the line.
    OpenString,
    /// An apostrophe is not followed by one byte and an apostrophe.
    OpenChar,
    /// A label has no opcode.
    NoOpcode,
}

impl LineFault {
    /// The fault's number, 1 to 7.
    pub fn number(&self) -> u16
        ensures { result ≡ fault_number self.now }
    {
        match self {
            LineFault::TooLong => 1,
            LineFault::BadLabel => 2,
            LineFault::BadLocal => 3,
            LineFault::BadOpcode => 4,
            LineFault::OpenString => 5,
            LineFault::OpenChar => 6,
            LineFault::NoOpcode => 7,
        }
    }
}
