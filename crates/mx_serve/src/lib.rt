//! A server for editors over a host: frames are read from standard input, and the bodies of answers are written in frames to standard
//! output. The session that answers them is a parameter.
#![tactic(auto)]

mod serving;
mod session;
mod writing;

pub use serving::serve;
pub use session::{Bodies, Flow, Reply, Session};
