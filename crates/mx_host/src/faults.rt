//! How a call of a host can fail.

ghost use Rattle.std.specs.Prelude.{◌≡◌};

use mx_word::NoMemory;
use thiserror::Error;

/// Why a file was not opened.
#[derive(Clone, Copy, Debug, PartialEq, Eq, Error)]
pub enum OpenFault {
    /// The file was to be read and there is none of this name.
    #[error("no such file")]
    Absent,
    /// The host failed; its count of faults rose.
    #[error("the host failed")]
    Failed,
    /// There was no memory; only the number of calls changed.
    #[error("out of memory")]
    OutOfMemory,
}

impl From<NoMemory> for OpenFault {
    ghost use Rattle.mx_host.specs.declared.faults.OpenFault.TheVariants.{OutOfMemory};

    ghost from_gives = { λ _ e. e ≡ OutOfMemory };

    fn from(_error: NoMemory) -> OpenFault {
        OpenFault::OutOfMemory
    }
}

/// Why a call on a slot did nothing.
#[derive(Clone, Copy, Debug, PartialEq, Eq, Error)]
pub enum HostFault {
    /// The host failed; its count of faults rose.
    #[error("the host failed")]
    Failed,
    /// The slot is not open, or what it leads to does not serve this call.
    #[error("the slot does not serve this call")]
    Misused,
    /// There was no memory; only the number of calls changed.
    #[error("out of memory")]
    OutOfMemory,
}

impl From<NoMemory> for HostFault {
    ghost use Rattle.mx_host.specs.declared.faults.HostFault.TheVariants.{OutOfMemory};

    ghost from_gives = { λ _ e. e ≡ OutOfMemory };

    fn from(_error: NoMemory) -> HostFault {
        HostFault::OutOfMemory
    }
}
