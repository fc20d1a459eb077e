//! The texts of octas and of instructions, as the console, a trace and a dump show them.
#![tactic(auto)]

mod fields;
mod instructions;
mod laws;
mod numbers;
mod operands;

pub use instructions::{add_instruction, instruction};
pub use laws::{
    hex_digits_count_the_octa, names_are_found, texts_of_octas_differ, texts_tell_their_instruction,
};
pub use numbers::{Form, add_decimal, byte_hex, octa_hex, shown, tetra_hex};
