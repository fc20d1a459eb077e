//! The words of the command line of `mmixview`: its commands, their options and their texts of help in one table, which is
//! handed to `clap` row by row.
#![tactic(auto)]

mod choice;
mod parser;
mod table;

pub use choice::{Choice, choose, count_words, debug_words, page_words};
pub use table::{Face, VERSION};
