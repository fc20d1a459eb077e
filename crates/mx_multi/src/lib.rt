//! Several processors on one memory, which take turns by a schedule.
#![tactic(auto)]

mod alone;
mod end;
mod laws;
mod multi;
mod queue;
mod rows;
mod runs;
mod seats;
mod turn;
mod turning;

pub use end::MultiEnd;
pub use laws::{processors_start_as_lists, turns_fold_the_schedule};
pub use multi::Multi;
pub use runs::run_turns;
pub use turn::Turn;
