//! The machine at the start of a program: the memory and the globals of an image, and the arguments in the pool segment.
//!
//! The rules are those of MMIXware (LNCS 1750; the part on MMIX-SIM, "Loading the object").
#![tactic(auto)]

mod fault;
mod globals;
mod laws;
mod pool;
mod starts;

pub use fault::StartFault;
pub use globals::collect_globals;
pub use laws::{
    arguments_are_in_the_pool, bare_machines_start_as_others, starts_are_machines,
    starts_go_as_lists,
};
pub use starts::start;
