//! `lsp`: the Language Server Protocol over standard input and output.
#![tactic(auto)]

mod serving;

pub use serving::serve;
