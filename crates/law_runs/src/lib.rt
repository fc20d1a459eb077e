//! Laws of whole runs of the program, over its definitions alone: what has to hold for it to be done, what goes
//! by no ring and by no count of calls, and an object in place of its source.
#![tactic(auto)]

mod called;
mod complete;
mod counts;
mod detour;
mod dumps;
mod files;
mod images;
mod listings;
mod rings;

pub use called::{calls_answer_what_is_due, statuses_are_low_bytes};
pub use complete::{
    consoles_answer_as_sessions, consoles_of_what_is_there_answer_as_sessions,
    generated_sources_are_done, programs_that_are_there_are_run, programs_that_halt_are_done,
    sources_that_are_there_are_assembled, sources_that_mean_are_assembled,
};
pub use counts::{
    counts_go_by_the_traces_of_their_runs, counts_run_as_the_program, sources_are_read_alike,
};
pub use detour::{
    objects_are_refused_as_their_sources, objects_load_as_their_sources,
    objects_run_as_their_sources, programs_go_by_no_count,
};
pub use dumps::dumps_show_what_programs_see;
pub use files::{files_are_read_whole, pieces_come_to_one_write};
pub use images::sources_are_loaded_as_they_mean;
pub use listings::{
    objects_are_listed_beside_what_they_mean, objects_that_are_there_are_listed,
    what_is_written_for_an_object_is_its_listing, whole_items_before_a_fault_are_listed,
};
pub use rings::{
    programs_end_by_themselves, reports_change_nothing_else, runs_end_by_themselves,
    two_rings_agree,
};
