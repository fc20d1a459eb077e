//! Records of a run: what each turn changed of what is shown of the machine, so that a run is told back and forth.
#![tactic(auto)]

mod changes;
mod copying;
mod laws;
mod octas;
mod reach;
mod recorder;
mod registers;
mod stacked;
mod start;
mod turns;

pub use changes::{Change, Record};
pub use laws::{records_are_counted, records_are_their_own_inverse, states_follow_from_records};
pub use recorder::Recorder;
