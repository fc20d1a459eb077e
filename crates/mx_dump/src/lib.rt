//! The dump of a machine: its special registers, its registers and its memory, line by line.
#![tactic(auto)]

mod lines;

pub use lines::{dump, put_octa};
