//! What is known of a program by name: its lines, what they load, its symbols and its labels; of a source or of an object.
#![tactic(auto)]

mod book;
mod labels;
mod laws;
mod loads;
mod lookups;
mod things;

pub use book::Book;
pub use laws::{no_label_is_nearer, no_line_is_earlier};
pub use loads::{Load, Loads};
pub use things::{Thing, thing_of_subject};
