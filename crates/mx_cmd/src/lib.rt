//! The commands of the console: what its lines ask for.
//!
//! They are like those of MMIX-SIM (MMIXware, LNCS 1750, "Interaction"); their exact forms are this
//! project's own.
#![tactic(auto)]

mod command;
mod numerals;
mod parsing;

pub use command::{Breaks, Command, Subject};
pub use mx_ops::special_name;
pub use parsing::parse_command;
