//! The register stack of MMIX: local, global and hidden registers, and the operations on them.
//!
//! The rules are those of MMIXware (LNCS 1750; the part on MMIX, "The register stack") and of
//! TAOCP 1, Fascicle 1, section 1.4.1'.
#![tactic(auto)]

mod call_note;
mod frame;
mod hiding;
mod laws;
mod notes;
mod ring;
mod saved;

pub use call_note::CallNote;
pub use laws::{
    calls_go_as_lists, calls_keep_rings, frames_come_back, frames_go_as_lists, frames_keep_rings,
    lists_show_the_same, pushes_go_by_place, refusals_are_those_of_lists,
    spilled_octas_are_counted, spilled_octas_are_hidden, writes_go_as_lists, writes_keep_rings,
};
pub use mx_registers::{RingFault, RingSize};
pub use notes::{
    RingNote, RingWork, notes_take_back, notes_take_steps_back, notes_take_stores_back,
    notes_take_trips_back,
};
pub use ring::{AREA_END, Ring};
pub use saved::Saved;
