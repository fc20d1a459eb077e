//! What is done over a host and a space of bytes, as plans: the calls that a function makes, one after another.
//!
//! Over a host that tells its contents a function answers and leaves what its plan comes to; where it finds
//! no memory, the calls that it completed stay, and nothing else changed (MMIXware, MMIX-SIM).
#![tactic(auto)]

mod calls;
mod laws;

pub use calls::{close, open, put, read, seek, tell, write};
pub use laws::{plans_go_by_no_count, plans_keep_streams, plans_stop_in_calls_alone};
