//! Pieces of the texts that a debugger shows: numbers, characters, columns, and the ring of registers.
#![tactic(auto)]

mod characters;
mod columns;
mod numbers;
mod ring;
mod written;

pub use characters::{Style, add_characters, add_output};
pub use columns::{add_right, fill};
pub use numbers::{add_octa_text, add_short_hex, add_signed, is_short};
pub use ring::add_ring;
pub use written::{Written, add_meanwhile};
