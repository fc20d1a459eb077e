//! The faults and the warnings of a source, as a text, as JSON, and as lines for editors.
#![tactic(auto)]

mod columns;
mod faults;
mod gnu;
mod json;
mod showing;
mod warning_json;
mod warning_lines;

pub use faults::Form;
pub use json::add_faults;
pub use showing::check;
