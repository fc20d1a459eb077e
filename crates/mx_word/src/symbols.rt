//! Symbols and lists of them.

use crate::{Bytes, Sequence};

/// What a symbol or an expression means: a pure number, or a register by its number.
#[derive(Clone, Copy, Debug, PartialEq, Eq)]
pub enum Value {
    Pure(u64),
    Reg(u8),
}

/// A complete name with its value and its serial number, which says in which order they were defined.
#[derive(Drop)]
pub struct Symbol {
    pub name: Bytes,
    pub value: Value,
    pub serial: u32,
}

/// A list of symbols.
pub type Symbols = Sequence<Symbol>;
