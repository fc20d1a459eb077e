//! The listing of a source or an object, and the lines or the tetra of an address, as texts; those of a source as JSON, too.
#![tactic(auto)]

mod address;
mod holding;
mod json;
mod listing;
mod object;
mod reading;

pub use address::{read_address, refuse_address};
pub use holding::find_lines;
pub use json::{add_cells, add_symbols};
pub use listing::list;
