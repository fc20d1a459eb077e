//! Expressions of MMIXAL: operand fields are read into trees, and trees are valued.
#![tactic(auto)]

mod faults;
mod joining;
mod kinds;
mod known;
mod laws;
mod operators;
mod parsing;
mod reader;
mod tree;
mod valuing;
mod waiting;

pub use faults::ExprFault;
pub use known::Known;
pub use laws::{fields_are_lists_or_faulty, fields_are_read_as_spelled, one_fault, one_list};
pub use parsing::parse_list;
pub use tree::{BinOp, Expr, Exprs, UnOp};
pub use valuing::value;
