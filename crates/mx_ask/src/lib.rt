//! What a line of the debugger asks for: its word, what follows it, and the table of all words.
#![tactic(auto)]

mod cutting;
mod help;
mod numbers;
mod table;
mod units;
mod unnamed;
mod words;

pub use cutting::{cut_form, cut_word, trim_end};
pub use help::{Asked, add_help, add_unasked, add_written, find_word};
pub use numbers::{parse_address, parse_count, parse_number, parse_octa, parse_subject};
pub use table::ROWS;
pub use units::{Unit, parse_units};
pub use unnamed::add_unnamed;
pub use words::{Row, Word, find_row};
