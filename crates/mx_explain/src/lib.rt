//! What a number or a name means that the programs print or that MMIXAL has: what a row of sentences is, its text, and which rows a
//! word is about; and the rows on pseudo-operations and predefined symbols.
#![tactic(auto)]

mod facts;
mod matching;
mod operands;
mod parts;
mod pseudo;
mod registers;
mod row;
mod symbols;
mod text;

pub use matching::is_number_or_name_of;
pub use parts::{
    event_rows, file_rows, more_register_rows, other_rows, pseudo_rows, register_rows, service_rows,
};
pub use row::{Entry, Row, Topic, name_of, row_of};
pub use text::{add_label, add_row};
