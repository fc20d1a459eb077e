//! The source that `gen` makes, its statements, and that it means their image; before it, that a text of an instruction is assembled
//! to the tetra that it shows.
#![tactic(auto)]

mod laws;
mod shown;

pub use laws::{generated_sources_are_accepted, generated_sources_are_read};
pub use shown::{shown_lines_are_one_statement, texts_assemble_to_their_tetras};
