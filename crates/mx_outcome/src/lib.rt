//! What a run of the program comes to: outcomes, their statuses, and the line that prints each.
#![tactic(auto)]

mod messages;
mod names;
mod outcome;

pub use messages::{add_fault, message};
pub use names::{fault_name, usage_name};
pub use outcome::Outcome;
