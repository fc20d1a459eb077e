//! Why a call of the register stack is refused.

ghost use Rattle.std.specs.Prelude.{◌≡◌};
ghost use Rattle.mx_registers.specs.RingFaults.{fault_number};

use std::alloc::{AllocError, AllocFailed};

/// Why a call is refused: hidden and local registers would pass 2^20 octas; too little is hidden to
/// come back; what is to be restored is no frame; or the machine is out of memory.
#[derive(Clone, Copy, Debug, PartialEq, Eq)]
pub enum RingFault {
    StackFull,
    Underflow,
    BadFrame,
    OutOfMemory,
}

impl RingFault {
    /// The number of the fault: 100 for `StackFull`, 101 for `Underflow`, 102 for `BadFrame`;
    /// `OutOfMemory` has none, and gives 0.
    pub fn number(&self) -> u16
        ensures { result ≡ fault_number self.now }
    {
        match self {
            RingFault::StackFull => 100,
            RingFault::Underflow => 101,
            RingFault::BadFrame => 102,
            RingFault::OutOfMemory => 0,
        }
    }
}

impl From<AllocError> for RingFault {
    ghost use Rattle.mx_registers.specs.declared.fault.RingFault.TheVariants.{OutOfMemory};
    ghost use Rattle.std.specs.Prelude.{◌≡◌};

    ghost from_gives = { λ _ fault. fault ≡ OutOfMemory };

    fn from(_error: AllocError) -> RingFault {
        RingFault::OutOfMemory
    }
}

impl<T: Drop> From<AllocFailed<T>> for RingFault {
    ghost use Rattle.mx_registers.specs.declared.fault.RingFault.TheVariants.{OutOfMemory};

    ghost from_gives = { λ _ fault. fault ≡ OutOfMemory };

    fn from(_failed: AllocFailed<T>) -> RingFault {
        RingFault::OutOfMemory
    }
}
