//! Watchers of a run: each is told the traces of its steps, one after another, and gives a report.
#![tactic(auto)]

mod cover;
mod laws;
mod numbers;
mod profile;
mod reporting;
mod running;
mod telling;
mod watcher;
mod watching;
mod writes;

pub use cover::Cover;
pub use laws::{
    addresses_come_once, all_are_reported_in_order, codes_are_counted, each_hears_its_front,
    reports_are_on_what_was_heard, writes_come_in_turn,
};
pub use profile::Profile;
pub use reporting::{Texts, collect_reports};
pub use running::{run_with_watchers, trace_step};
pub use telling::{Report, Reports};
pub use watcher::{Watcher, Wish};
pub use watching::watch;
pub use writes::{Write, Writes};
