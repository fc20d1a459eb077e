//! What a step overwrites.

use mx_ring::CallNote;

/// An octa outside the stack area: an address in it, what it was, and whether its page was not there.
#[derive(Clone, Copy)]
pub(crate) struct OctaWas {
    pub at: u64,
    pub octa: u64,
    pub began: bool,
}

/// What a usual step overwrites besides the next address and the steps: nothing; a register, with what it had; L, with
/// the number of locals that were; rJ, with what it had; an octa of memory, with an address in it and what it was; or a
/// register, with what it had and what rH and rR had. A register and L are octas, below 256, so that there are no gaps that
/// are copied with a note.
#[derive(Clone, Copy)]
pub(crate) enum Overwritten {
    Nothing,
    Register(u64, u64),
    Locals(u64),
    Link(u64),
    Octa(u64, u64),
    Results(u64, u64, u64, u64),
}

/// What a usual step overwrites: the next address, the steps, and little beside them.
#[derive(Clone, Copy)]
pub(crate) struct UsualWas {
    pub pc: u64,
    pub steps: u64,
    pub overwritten: Overwritten,
}

/// What PUSHJ, PUSHGO or POP overwrites where few registers take part in it: the next address, the steps, the mark, rJ, and a
/// part of the register stack.
#[derive(Drop)]
pub(crate) struct CallWas {
    pub pc: u64,
    pub steps: u64,
    pub mark: u32,
    pub link: u64,
    pub ring: CallNote,
}
