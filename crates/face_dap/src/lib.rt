//! `dap`: the Debug Adapter Protocol over standard input and output.
#![tactic(auto)]

mod launching;
mod serving;

pub use serving::serve;
