//! What a turn comes to.

use mx_core::Trace;

/// What a turn comes to: the machine went on, with the trace of its step; the program halted, with its
/// status; the machine stops for the reason of a number; or out of memory.
#[derive(Clone, Copy)]
pub enum TurnAnswer {
    Went(Trace),
    Halted(u8),
    Stopped(u16),
    OutOfMemory,
}
