//! What the options set.

use mx_registers::RingSize;

/// What the options set.
#[derive(Clone, Copy)]
pub(crate) struct Settings {
    /// The registers of the ring.
    pub(crate) ring: RingSize,
    /// How many steps are made at most.
    pub(crate) steps: u64,
    /// Whether the console is wanted.
    pub(crate) interactive: bool,
    /// Whether the state is written at the end.
    pub(crate) dump: bool,
    /// Whether the reports of watchers are written at the end.
    pub(crate) report: bool,
    /// How many steps are taken back at the end at most, or 0.
    pub(crate) last: u64,
}
