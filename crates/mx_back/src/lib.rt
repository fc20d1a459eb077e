//! The last steps of a machine, kept so that they can be taken back.
#![tactic(auto)]

mod back;
mod fault;
mod laws;
mod notes;
mod running;
mod trapping;

pub use back::Back;
pub use fault::BackFault;
pub use laws::states_come_back;
pub use running::run_kept;
