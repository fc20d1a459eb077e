//! Places that have values, and what a run is stopped by: breaks with their conditions, and places that are watched.
#![tactic(auto)]

mod places;
mod stops;

pub use places::{Place, Seen, depth, followed, see, value_at};
pub use stops::{Break, Condition, Relation, Watch, is_at_any_break};
