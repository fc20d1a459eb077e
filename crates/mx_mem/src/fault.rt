//! Why a store is refused.

ghost use Rattle.std.specs.Prelude.{◌≡◌};
ghost use Rattle.mx_mem.specs.Fault.{fault_number};

/// Why a store is refused: it would begin one page too many, or it is out of memory.
#[derive(Clone, Copy, Debug, PartialEq, Eq)]
pub enum MemFault {
    PagesFull,
    OutOfMemory,
}

impl MemFault {
    /// The number of the fault: 90 for `PagesFull`; out of memory has none, and gives 0.
    pub fn number(&self) -> u16
        ensures { result ≡ fault_number self.now }
    {
        match self {
            MemFault::PagesFull => 90,
            MemFault::OutOfMemory => 0,
        }
    }
}
