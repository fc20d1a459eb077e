//! A walk over the lines of a source: each is taken in its turn, or another text in its place.
#![tactic(auto)]

mod label;
mod lines;
mod walk;

pub use label::strip_to_label;
pub use lines::{finish_source, separate_no_memory, take_line};
pub use walk::{Stop, Walk};
