//! The faults and the warnings of a source as an editor is told of them.
#![tactic(auto)]

mod diagnostic;
mod notices;
mod telling;

pub use diagnostic::{Diagnostic, Diagnostics, Severity};
pub use notices::{publish_faults, withdrawn};
pub use telling::tell;
