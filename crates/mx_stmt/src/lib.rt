//! Statements of MMIXAL: each becomes bytes, a label's value and an effect.
#![tactic(auto)]

mod data;
mod encoder;
mod env;
mod faults;
mod forms;
mod laws;
mod operands;
mod placed;
mod pseudo;
mod reader;
mod relative;
mod shapes;
mod statement;

pub use encoder::encode;
pub use env::Env;
pub use faults::StmtFault;
pub use laws::{
    awaited_names_are_unknown, faults_have_numbers, knowledge_stays_sound, operations_have_names,
    references_are_in_their_bytes, registers_are_bytes, targets_join_their_bytes,
};
pub use placed::{Effect, Placed};
pub use reader::read_statement;
pub use statement::{Label, Statement};
