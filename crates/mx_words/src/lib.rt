//! The words of the command line: which command they give, on which file, with which options.
#![tactic(auto)]

mod laws;
mod options;
mod order;
mod settings;
mod values;
mod words;

pub use laws::orders_are_those_of_the_grammar;
pub use order::{Command, Order, WordsFault};
pub use words::read;
