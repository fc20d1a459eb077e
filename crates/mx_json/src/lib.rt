//! Values of JSON, written as bytes: each function adds what is in front of a value, as its name in an object, and the value.
#![tactic(auto)]

mod strings;
mod values;

pub use strings::{add_object, add_string, add_string_if};
pub use values::{add_between, add_flag, add_number, add_number_if, add_quoted};
