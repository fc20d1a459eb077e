//! What a turn of a processor comes to.

/// What a turn of a processor comes to: it made a step; it halted, with its status; it had halted before, and nothing was
/// done; it stops at an address for the reason of a number; or out of memory.
#[derive(Clone, Copy, Debug, PartialEq, Eq)]
pub enum Turn {
    Went,
    Halted(u8),
    Idle,
    Stopped { pc: u64, reason: u16 },
    OutOfMemory,
}
