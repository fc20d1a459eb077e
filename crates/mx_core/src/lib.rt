//! The machine: its state, and one step of it.
//!
//! The rules are those of MMIXware (LNCS 1750; the part on MMIX) and of TAOCP 1, Fascicle 1, section
//! 1.3.1'.
#![tactic(auto)]

mod along;
mod apart;
mod bare;
mod bounds;
mod changes;
mod compute;
mod copy;
mod jumps;
mod laws;
mod load;
mod machine;
mod noting;
mod operands;
mod overwritten;
mod perform;
mod plain;
mod puts;
mod rare_noting;
mod resume;
mod search;
mod sight;
mod space;
mod specials;
mod step;
mod store;
mod swap;
mod traps;
mod trips;
mod undoing;
mod usual;
mod usual_codes;
mod usual_noting;
mod usual_tracing;
mod values;
mod works;

pub use bare::bare_machines_start_as_lists;
pub use bounds::{
    contents_tell_the_state, machines_are_whole, machines_hold_octas, machines_keep_the_invariant,
};
pub use changes::SetFault;
pub use laws::{
    changes_go_as_lists, changes_keep_machines, frames_come_back, lists_read_the_same,
    marks_move_with_frames, steps_go_as_lists, steps_keep_machines, traps_go_as_lists,
    traps_keep_machines,
};
pub use machine::{Machine, is_in_stack_area};
pub use mx_code::{Reason, Touch, Trace};
pub use noting::{Note, Noted};
pub use step::{Advance, Advanced, Step};
pub use undoing::{machines_are_paged, steps_are_taken_back};
