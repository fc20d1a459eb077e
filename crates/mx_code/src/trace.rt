//! What a step did, for those who follow it.

/// A part of memory that an instruction reads or writes: its address, which is a multiple of its size,
/// and its size in bytes.
#[derive(Clone, Copy, Debug, PartialEq, Eq)]
pub struct Touch {
    pub at: u64,
    pub size: u8,
}

/// A step that was made: the address and the tetra of the instruction that was fetched, the register
/// that is its destination, what it read and wrote in memory, and the address that follows.
#[derive(Clone, Copy, Debug, PartialEq, Eq)]
pub struct Trace {
    pub pc: u64,
    pub word: u32,
    pub dest: Option<u8>,
    pub reads: Option<Touch>,
    pub writes: Option<Touch>,
    pub next: u64,
}
