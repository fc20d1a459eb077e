//! What is shown of a machine: a step that was made, its state, and its registers and octas; and what is changed of
//! those.
#![tactic(auto)]

mod subjects;
mod texts;

pub use subjects::{format_subject, set_subject};
pub use texts::{state_line, trace_line};
