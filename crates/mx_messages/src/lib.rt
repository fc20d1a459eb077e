//! What the programs print, each number explained in a row: faults, warnings, reasons of a stop, command-line errors, and exit
//! statuses.
#![tactic(auto)]

mod inside;
mod kinds;
mod objects;
mod parts;
mod sources;
mod statuses;
mod stops;
mod warnings;

pub use parts::{
    expression_rows, inside_rows, kind_rows, line_rows, loading_rows, object_rows, place_rows,
    source_rows, statement_rows, status_rows, stop_rows, trap_rows, trie_rows, warning_rows,
};
