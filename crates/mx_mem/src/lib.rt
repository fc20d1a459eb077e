//! The memory of the machine: pages of 512 octas by their numbers, and what a space of bytes is.
//!
//! Memory is 0 where nothing was stored. Bytes lie in wydes, tetras and octas from the high end
//! (MMIXware, LNCS 1750; TAOCP 1, Fascicle 1, section 1.3.1').
#![tactic(auto)]

mod dropping;
mod fault;
mod memory;
mod page;
mod part;
mod places;
mod space;

pub use dropping::{absent_pages_hold_zeros, stores_are_taken_back};
pub use fault::MemFault;
pub use memory::Memory;
pub use part::{Part, with_part};
pub use space::{Space, SpaceFault};
