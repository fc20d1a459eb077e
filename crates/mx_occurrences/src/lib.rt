//! The names of a source in their places: where each is, and which symbol or local label it names.
#![tactic(auto)]

mod course;
mod finding;
mod gathering;
mod laws;
mod occurrence;

pub use course::full_name;
pub use finding::{definition_of, occurrence_at, same_named};
pub use gathering::{occurrences, occurrences_in};
pub use laws::{
    names_are_in_their_places, names_of_a_field_are_those_of_its_trees, places_of_names_ascend,
};
pub use occurrence::{Named, Occurrence, Occurrences};
