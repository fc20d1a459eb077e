//! The tables of the assembly language: operations, operand shapes, predefined symbols.
#![tactic(auto)]

pub mod codes;
mod kinds;
mod laws;
mod lookup;
mod op;
mod specials;
mod symbols;
mod table;

pub use kinds::{is_backward, is_immediate};
pub use laws::{each_name_has_its_codes, special_registers_have_their_codes};
pub use lookup::{find, name, predefined, shape_of};
pub use op::{Op, Pseudo, Shape};
pub use specials::{special_code, special_name};
