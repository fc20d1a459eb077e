//! Why a program can't start.

ghost use Rattle.std.specs.Prelude.{◌≡◌};
ghost use Rattle.mx_start.specs.Started.{start_number};

use mx_word::NoMemory;

/// Why a program can't start: its arguments need page 65,537, or out of memory.
#[derive(Clone, Copy, Debug)]
pub enum StartFault {
    PagesFull,
    OutOfMemory,
}

impl StartFault {
    /// The number of the fault: 118 for `PagesFull`; out of memory has none, and gives 0.
    pub fn number(&self) -> u16
        ensures { result ≡ start_number self.now }
    {
        match self {
            StartFault::PagesFull => 118,
            StartFault::OutOfMemory => 0,
        }
    }
}

impl From<NoMemory> for StartFault {
    ghost use Rattle.mx_start.specs.declared.fault.StartFault.TheVariants.{OutOfMemory};

    ghost from_gives = { λ _ fault. fault ≡ OutOfMemory };

    fn from(_error: NoMemory) -> StartFault {
        StartFault::OutOfMemory
    }
}
