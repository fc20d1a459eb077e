//! What a view that runs a program is given: the words after its name, and the files that they name, read.
#![tactic(auto)]

mod reading;
mod words;

pub use reading::{Gathered, file_at, gather};
pub use words::{Named, Ordered, OwnOption, Unread, read_order};
