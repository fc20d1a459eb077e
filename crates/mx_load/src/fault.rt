//! Why items are refused.

ghost use Rattle.std.specs.Prelude.{◌≡◌};
ghost use Rattle.mx_load.specs.Faults.{number_of};

use std::alloc::{AllocError, AllocFailed};

/// Why an item of an object cannot be loaded.
#[derive(Clone, Copy, Debug, PartialEq, Eq)]
pub enum LoadFault {
    /// Memory would have more than 65,536 pages.
    PagesFull,
    /// A tetra would lie at #6000000000000000 or above.
    BadPlace,
    /// A line before any file, or a file without a name whose number was never named.
    NoFile,
    /// There was no memory.
    OutOfMemory,
}

impl LoadFault {
    /// The number of the fault; 0 for out of memory.
    pub fn number(&self) -> u16
        ensures { result ≡ number_of self.now }
    {
        match self {
            LoadFault::PagesFull => 90,
            LoadFault::BadPlace => 95,
            LoadFault::NoFile => 96,
            LoadFault::OutOfMemory => 0,
        }
    }
}

impl From<AllocError> for LoadFault {
    ghost use Rattle.mx_load.specs.declared.fault.LoadFault.TheVariants.{OutOfMemory};

    ghost from_gives = { λ _ fault. fault ≡ OutOfMemory };

    fn from(_error: AllocError) -> LoadFault {
        LoadFault::OutOfMemory
    }
}

impl<T: Drop> From<AllocFailed<T>> for LoadFault {
    ghost use Rattle.mx_load.specs.declared.fault.LoadFault.TheVariants.{OutOfMemory};

    ghost from_gives = { λ _ fault. fault ≡ OutOfMemory };

    fn from(_failed: AllocFailed<T>) -> LoadFault {
        LoadFault::OutOfMemory
    }
}
