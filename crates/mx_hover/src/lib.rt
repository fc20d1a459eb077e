//! What an editor is told of a place of a text: what a name or a statement there is, which words may be meant, and how an operation is
//! written.
#![tactic(auto)]

mod cells;
mod completions;
mod hovers;
mod meaning;
mod signatures;
mod statement;
mod words;

pub use completions::completion;
pub use hovers::hover;
pub use signatures::signature;
