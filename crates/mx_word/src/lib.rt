//! Octas, tetras and the small lists that every other crate rests on.
//!
//! An octa is a whole number below 2^64 and a tetra one below 2^32; in memory and in objects both
//! are in order from the high end (MMIXware, section 1; TAOCP 1, Fascicle 1, section 1.3.1').
#![tactic(auto)]

mod bytes;
mod kinds;
mod no_memory;
mod segments;
mod sequence;
mod symbols;
mod waits;
mod words;

pub use bytes::Bytes;
pub use kinds::{is_digit, is_hexadecimal, is_letter, is_name_byte};
pub use no_memory::NoMemory;
pub use segments::{STACK_SEGMENT, is_in_stack_segment};
pub use sequence::Sequence;
pub use symbols::{Symbol, Symbols, Value};
pub use waits::{Awaited, Wait, WaitKind, Waits};
pub use words::{octa_bytes, octa_of, product, quotient, signed, tetra_bytes, tetra_of};
