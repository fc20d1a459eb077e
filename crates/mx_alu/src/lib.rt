//! The whole-number instructions of MMIX, the conditions of its branches, and its trips: what an event comes to.
//!
//! Each meaning is a row of whole numbers, floors and single bits (MMIXware, LNCS 1750; TAOCP 1,
//! Fascicle 1, section 1.3.1'). The code computes in words of 64 and 128 bits, and takes no memory.
#![tactic(auto)]

mod answer;
mod arithmetic;
mod bitwise;
mod call;
mod codes;
mod decision;
mod insertion;
mod laws;
mod names;
mod wydes;

pub use answer::{Answer, Event, Extra};
pub use call::TrapCall;
pub use codes::{alu, lone_result, truth, wyde};
pub use decision::{Trip, decide};
pub use insertion::{Insert, Kind, inserted};
pub use laws::{
    codes_have_their_names, events_have_their_symbols, insertions_are_at_tetras, insertions_end,
    noted_events_stay_in_18_bits, trips_are_resumed,
};
