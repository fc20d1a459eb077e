//! The real host: the files and streams of the system, by numbered slots.
#![tactic(auto)]

mod opening;
mod real;
mod standard;
mod start;
mod streams;
mod transfers;

pub use real::RealHost;
pub use standard::{StandIns, stand_in};
pub use streams::{Stream, read, write};
