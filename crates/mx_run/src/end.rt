//! How a run ends.

use mx_core::Trace;

/// What a break means: memory that is read or written, or an instruction that is next.
#[derive(Clone, Copy, Debug, PartialEq, Eq)]
pub enum BreakKind {
    Read,
    Write,
    Execute,
}

/// How a run ends: the program halted, with its status; the machine stops at an address for a reason;
/// a break, at the address of a tetra, with the trace of the step that came to it where the step was to
/// be traced; a step that was to be traced; all steps are made; or out of memory.
#[derive(Clone, Copy, Debug, PartialEq, Eq)]
pub enum End {
    Halted(u8),
    Stopped {
        pc: u64,
        reason: u16,
    },
    Broke {
        kind: BreakKind,
        at: u64,
        traced: Option<Trace>,
    },
    Traced(Trace),
    Spent,
    OutOfMemory,
}
