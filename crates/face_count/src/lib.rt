//! A source or an object that is run and counted: the order by the words, the run, and its sheet as a table or as JSON.
#![tactic(auto)]

mod counting;
mod json;
mod object_json;
mod pages;
mod words;

pub use counting::count;
pub use json::add_tally;
