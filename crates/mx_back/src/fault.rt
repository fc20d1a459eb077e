//! Why no step is taken back.

ghost use Rattle.std.specs.Prelude.{◌≡◌};
ghost use Rattle.mx_back.specs.History.{fault_number};

/// Why no step is taken back: none is kept.
#[derive(Clone, Copy, PartialEq, Eq)]
pub enum BackFault {
    NothingKept,
}

impl BackFault {
    /// The number of the fault, 140.
    pub fn number(&self) -> u16
        ensures { result ≡ fault_number self.now }
    {
        match self {
            BackFault::NothingKept => 140,
        }
    }
}
