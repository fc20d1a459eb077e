//! Changes of a text that leave the program as it is: names that are changed, and the columns of its lines.
#![tactic(auto)]

mod formatting;
mod images;
mod names;
mod renaming;

pub use formatting::formatting_of;
pub use renaming::{Change, rename};
