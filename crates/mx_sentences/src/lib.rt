//! What is said of a fault: what is wrong, which name is meant perhaps, and how to fix it.
#![tactic(auto)]

mod additions;
mod choices;
mod places;
mod sentences;

pub use sentences::{Remark, remark_on, remark_on_whole};
