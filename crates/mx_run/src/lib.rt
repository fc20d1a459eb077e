//! Runs of the machine over a host: steps one after another, file traps among them, with breaks and
//! traced steps.
#![tactic(auto)]

mod breaks;
mod end;
mod flag_map;
mod flags;
mod go;
pub mod laws;
mod runner;
mod steady_laws;
mod steps;
mod turn_answer;
mod turning;
mod windows;

pub use end::{BreakKind, End};
pub use flag_map::FlagMap;
pub use flags::Flags;
pub use go::run_freely;
pub use runner::Runner;
pub use steady_laws::runs_go_by_no_count;
pub use turn_answer::TurnAnswer;
pub use turning::{trap_turn, turn};
