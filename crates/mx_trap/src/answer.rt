//! What a file trap answers.

ghost use Rattle.std.specs.Prelude.{◌≡◌};
ghost use Rattle.mx_trap.specs.Answers as spec;

/// What a file trap comes to.
#[derive(Clone, Copy, Debug, PartialEq, Eq)]
pub enum TrapAnswer {
    /// The trap is done, and this is its result.
    Value(u64),
    /// The program ends.
    Halt,
    /// The trap cannot be carried out, and the run stops at it.
    Stopped(TrapStop),
    /// The host or the space found no memory.
    OutOfMemory,
}

/// Why a file trap stops the run.
#[derive(Clone, Copy, Debug, PartialEq, Eq)]
pub enum TrapStop {
    /// An argument, a byte of the text or a byte of the buffer has an address of 2^63 or more.
    Negative,
    /// The service is one on wide characters, Fgetws or Fputws.
    WideTrap,
    /// The size, or the text before its zero byte, is above 2^24 bytes.
    TransferTooLarge,
    /// A byte was to be stored on one page too many. The bytes stored before it stay.
    TrapPagesFull,
    /// X is not 0, Y is above 10, or it is Halt with Z not 0.
    UnknownTrap,
}

impl TrapStop {
    /// The number of the stop.
    pub fn number(&self) -> u16
        ensures { result ≡ spec.stop_number self.now }
    {
        match self {
            TrapStop::Negative => 113,
            TrapStop::WideTrap => 121,
            TrapStop::TransferTooLarge => 122,
            TrapStop::TrapPagesFull => 123,
            TrapStop::UnknownTrap => 124,
        }
    }
}
