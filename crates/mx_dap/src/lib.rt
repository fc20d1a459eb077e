//! The debug adapter's answers to the messages of the Debug Adapter Protocol: a run that is gone through forward and back, as an editor asks.
#![tactic(auto)]

mod breaks;
mod driving;
mod evaluating;
mod frames;
mod loaded;
mod outputs;
mod running;
mod session;
mod stops;
mod variables;

pub use session::{Flow, Session};
