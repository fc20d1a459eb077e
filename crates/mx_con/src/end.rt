//! How a session ends.

ghost use Rattle.std.specs.Prelude.{◌≡◌};

use mx_word::NoMemory;

/// How a session ends: the program halted, with its status; the machine stopped; all steps are made; the
/// user ended it, or the input ended at the start of a line; more than 2^32 bytes of input were wanted; a
/// call of the host on the console's input or output was not done; or out of memory.
#[derive(Clone, Copy)]
pub enum SessionEnd {
    Halted(u8),
    Stopped { pc: u64, reason: u16 },
    Spent,
    Quit,
    Limit,
    HostFault,
    OutOfMemory,
}

impl From<NoMemory> for SessionEnd {
    ghost use Rattle.mx_con.specs.declared.end.SessionEnd.TheVariants.{OutOfMemory};

    ghost from_gives = { λ _ e. e ≡ OutOfMemory };

    fn from(_error: NoMemory) -> SessionEnd {
        SessionEnd::OutOfMemory
    }
}
