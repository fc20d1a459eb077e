//! The program: what it does with the words of its command line.
#![tactic(auto)]

mod console;
mod ending;
mod generation;
mod generator;
mod last;
mod laws;
mod processors;
mod reports;
mod run;
mod schedules;
mod top;

pub use laws::plans_stop_on_their_way;
pub use mx_outcome::{Outcome, fault_name, usage_name};
pub use top::{mmixware, mmixware_watched};
