//! The call of a file trap.

/// A call of a file trap: the address of the TRAP, its tetra, and its argument, which is the value of $255.
#[derive(Clone, Copy, Debug, PartialEq, Eq)]
pub struct TrapCall {
    pub pc: u64,
    pub word: u32,
    pub arg: u64,
}
