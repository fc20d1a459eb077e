//! Operations of other machines and assemblers, and what MMIX has for them.
#![tactic(auto)]

mod foreign;
mod laws;
mod table;

pub use foreign::advice_on;
pub use laws::foreign_names_are_no_operations;
