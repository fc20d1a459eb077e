//! What instructions cost, in the υ and μ of the book.
#![tactic(auto)]

mod costs;

pub use costs::{mems, oops};
