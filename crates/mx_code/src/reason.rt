//! Why the machine stops.

ghost use Rattle.std.specs.Prelude.{◌≡◌};
ghost use Rattle.mx_code.specs.Reasons as spec;

/// Why the machine stops at an instruction, with the state that it had before it.
#[derive(Clone, Copy, Debug, PartialEq, Eq)]
pub enum Reason {
    /// An instruction on floating-point numbers.
    Float,
    /// Fields that the instruction does not take.
    Illegal,
    /// What only an operating system may do.
    Privileged,
    /// An address of 2^63 or more.
    Negative,
    /// Hidden and local registers would pass 2^20.
    StackFull,
    /// POP with too little hidden.
    Underflow,
    /// UNSAVE where no frame is.
    BadFrame,
    /// A trip whose handler begins with a tetra of 0.
    UnhandledTrip,
    /// A store that needs page 65,537.
    PagesFull,
    /// RESUME that inserts what is left out.
    ResumeInsert,
}

impl Reason {
    /// The number of the reason in messages.
    pub fn number(&self) -> u16
        ensures { result ≡ spec.number_of self.now }
    {
        match self {
            Reason::Float => 110,
            Reason::Illegal => 111,
            Reason::Privileged => 112,
            Reason::Negative => 113,
            Reason::StackFull => 114,
            Reason::Underflow => 115,
            Reason::BadFrame => 116,
            Reason::UnhandledTrip => 117,
            Reason::PagesFull => 118,
            Reason::ResumeInsert => 120,
        }
    }
}
