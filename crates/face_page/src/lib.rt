//! A program and its run on one page: its lines with their counts, its records, and the page around them.
#![tactic(auto)]

mod data;
mod meaning;
mod rows;
mod showing;

pub use showing::page;
