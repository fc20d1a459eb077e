//! The debugger over a host: what its words order, the program with its files, and a session over standard input and output.
#![tactic(auto)]

mod debugging;
mod lines;
mod talking;

pub use debugging::{begin_session, debug};
