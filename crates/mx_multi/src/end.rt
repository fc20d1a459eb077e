//! How turns by a schedule end.

/// How turns by a schedule end: each processor that it names has halted; one of them stops at an address for the reason of
/// a number; all steps are made; or out of memory.
#[derive(Clone, Copy, Debug, PartialEq, Eq)]
pub enum MultiEnd {
    AllHalted,
    Stopped { processor: u8, pc: u64, reason: u16 },
    Spent,
    OutOfMemory,
}
