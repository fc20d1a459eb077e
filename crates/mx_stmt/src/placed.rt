//! What a statement comes to.

use mx_word::{Bytes, Value, Waits};

/// What a statement changes beside its label, its bytes and the place.
#[derive(Drop)]
pub enum Effect {
    /// Nothing.
    Plain,
    /// The prefix becomes this complete name.
    Prefix(Bytes),
    /// A global register has this value; it is the next one downwards, or has it already.
    Greg { reg: u8, value: u64 },
    /// The register has to stay below the lowest global one.
    Local(u8),
}

/// What a statement places, from which address on, with zero for each future reference; these
/// references; the value of its label, if it has one; its effect; and the `@` after it.
#[derive(Drop)]
pub struct Placed {
    pub start: u64,
    pub bytes: Bytes,
    pub waits: Waits,
    pub label: Option<Value>,
    pub effect: Effect,
    pub after: u64,
}
