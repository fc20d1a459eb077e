//! Views of an object file, as data and as texts: the tetras that it loads, each with its address, its instruction, its
//! labels and its line; the tetra that holds an address; and how often each tetra is carried out in a run.
#![tactic(auto)]

mod addresses;
mod counted;
mod counting;
mod joining;
mod labels;
mod laws;
mod reading;
mod rows;
mod sheet;
mod tetras;
mod view;

pub use counted::{CountedObject, count_object};
pub use counting::{ObjectSheet, TetraCount};
pub use labels::{Label, Labels, Place};
pub use laws::{
    counted_objects_are_those_of_the_steps, every_loaded_tetra_is_listed_once,
    the_listing_is_the_image, the_nearest_symbol_is_told,
};
pub use rows::{format_found, format_listing};
pub use sheet::{format_sheet, next_count};
pub use tetras::{FoundTetra, ListedTetra, ListedTetras};
pub use view::{ListedObject, find_tetra, is_object, list_object};
