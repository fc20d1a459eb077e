//! The special registers that SAVE puts into its frame.

/// The special registers of a frame, each by the second letter of its name: rB is `b`. Of rA only
/// the low 18 bits are kept.
#[derive(Clone, Copy, Debug, PartialEq, Eq)]
pub struct Saved {
    pub b: u64,
    pub d: u64,
    pub e: u64,
    pub h: u64,
    pub j: u64,
    pub m: u64,
    pub r: u64,
    pub p: u64,
    pub w: u64,
    pub x: u64,
    pub y: u64,
    pub z: u64,
    pub a: u64,
}
