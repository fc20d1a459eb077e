//! Whole runs of the program over a host in memory: how a row is written, and one of a dump, for the crates of rows above;
//! sources that are refused, objects and their listings, rings, dumps, and steps that are taken back. Each row says what it
//! shows.
#![tactic(auto)]

#[cfg(test)]
mod dumps;
#[cfg(test)]
mod listings;
#[cfg(test)]
mod objects;
#[cfg(test)]
mod rings;
mod rows;
mod shown;
#[cfg(test)]
mod sources;
#[cfg(test)]
mod taken_back;

pub use rows::{
    Due, FIRST, Given, HELLO, comes_from, comes_to, due_done, due_refused, due_stopped, file, host,
    outcome_over, words,
};
pub use shown::{
    End, Row, SIZES, find_mismatch, has_all_lines, has_part, is_run_to, shows, shows_on,
};
