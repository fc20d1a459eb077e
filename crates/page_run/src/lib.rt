//! The run that a page shows: what the words order, and the run turn by turn as text.
#![tactic(auto)]

mod made;
mod program;
mod records;
mod words;

pub use made::{Ending, Made, make_refused, of_memory, record_run};
pub use program::{host_of, program_of};
pub use words::read_order;
