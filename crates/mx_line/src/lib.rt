//! Lines of a source, and what they are made of.
#![tactic(auto)]

mod cutter;
mod faults;
mod fields;
mod kinds;
mod lines;
mod pieces;
mod spans;

pub use cutter::{Cut, next_statement, one_list};
pub use faults::LineFault;
pub use lines::cut_line;
pub use spans::{Span, slice_span};
