//! Object files in the mmo format: what is in them, how it is written and how it is read.
//!
//! An object is a sequence of tetras. One whose first byte is #98 is a lopcode, which says what the
//! tetras after it are; any other tetra is loaded (MMIXware, the part on MMIXAL, "Binary MMO output").
#![tactic(auto)]

mod due;
mod faults;
mod input;
mod items;
mod laws;
mod lists;
mod lops;
mod parts;
mod reader;
mod skipping;
mod spell;
mod tail;
mod whole;
mod writer;

pub use due::Phase;
pub use faults::MmoFault;
pub use items::{Item, Object, Tail};
pub use laws::{
    faults_are_the_table, items_are_at_their_places, items_come_in_turn, reading_is_the_grammar,
    written_is_read,
};
pub use lists::{Items, Octas, Words};
pub use reader::Reader;
pub use whole::read;
pub use writer::Writer;
