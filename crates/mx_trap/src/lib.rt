//! File traps: the calls of the operating system that read and write files and streams.
//!
//! The rules are those of MMIX-SIM (MMIXware, LNCS 1750, "Simulating a simple operating
//! system").
#![tactic(auto)]

mod answer;
mod apart_laws;
mod calls;
mod files;
mod laws;
mod lines;
mod reads;
mod requests;
mod segment;
mod service;
mod space;
mod steady_laws;
mod writes;

pub use answer::{TrapAnswer, TrapStop};
pub use apart_laws::{calls_go_apart, calls_keep_contents};
pub use calls::trap;
pub use laws::{
    buffers_are_good_below, intervals_meet_the_segment, lines_come_with_their_newline,
    pieces_come_to_one_read, pieces_come_to_one_write, stored_bytes_are_there,
    texts_end_at_the_first_zero, texts_touch_where_they_are_read, traps_end_by_themselves,
    traps_only_add_to_output,
};
pub use segment::touches;
pub use steady_laws::traps_go_by_no_count;
