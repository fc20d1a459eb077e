//! A run over a host in memory, each step of which can be visited, back and forth. Going back is running again from the
//! start.
#![tactic(auto)]

mod frames;
mod kept;
mod laws;
mod marks;
mod program;
mod replay;
mod searches;
mod turns;
mod visit;

pub use frames::Frame;
pub use laws::steps_follow_each_other;
pub use program::Program;
pub use replay::Replay;
