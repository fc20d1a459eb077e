//! The console: a session of commands on a machine.
//!
//! The commands are like those of MMIX-SIM (MMIXware, LNCS 1750, "Interaction"); their exact forms and
//! texts are this project's own.
#![tactic(auto)]

mod changes;
mod dialog;
mod end;
mod host_lines;
mod judgement;
mod laws;
mod listings;
mod replies;
mod sessions;
mod steps;
mod texts;
mod windows;

pub use end::SessionEnd;
pub use judgement::Bad;
pub use laws::{sessions_are_their_plans, sessions_end_by_themselves, sessions_take_at_most};
pub use sessions::session;
