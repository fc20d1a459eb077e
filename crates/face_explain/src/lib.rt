//! What `mmixview explain` answers: the rows of the whole table that a word is about, names that are near, and a list of all.
#![tactic(auto)]

mod answer;
mod columns;
mod laws;
mod near;
mod nearest;
mod notations;
mod sections;
mod showing;

pub use answer::{Answer, explain};
pub use columns::list;
pub use laws::{what_is_explained_is_in_the_tables, what_the_tables_have_is_explained};
pub use showing::{show_list, show_word};
