//! A session of the debugger: the run of a program that is gone through step by step, back and forth, as lines ask.
#![tactic(auto)]

mod arriving;
mod backtrace;
mod conditions;
mod going;
mod known;
mod listing;
mod obeying;
mod printing;
mod session;
mod setting;
mod showing;
mod telling;

pub use known::{Known, Stops};
pub use obeying::Flow;
pub use session::Session;
