//! Statements, as they are read.

use mx_expr::Exprs;
use mx_ops::Op;
use mx_word::Bytes;

/// A label: a symbol as it is written, or `dH`; d is at most 9.
#[derive(Drop)]
pub enum Label {
    Name(Bytes),
    Local(u8),
}

/// A statement: the number of its line, its label, its operation and its operands. An instruction
/// is given by the lowest code of its name.
#[derive(Drop)]
pub struct Statement {
    pub line: u32,
    pub label: Option<Label>,
    pub op: Op,
    pub operands: Exprs,
}
