//! The listing of an object: a line for each item, for its symbol trie and for each of its symbols.
//!
//! What is in an object is told in MMIXware, "MMIX Object Format" and "The symbol table" in
//! MMIXAL; the form of the lines is this project's own.
#![tactic(auto)]

mod fields;
mod laws;
mod lines;
mod lister;
mod symbols;

pub use laws::{
    a_listing_is_what_is_joined, a_listing_loses_nothing, lambda_is_that_of_the_meaning,
};
pub use lister::{Lister, listing};
