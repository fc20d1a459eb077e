//! The names of a source: symbols, the prefix, and local labels; and the global registers that GREG allocates.
#![tactic(auto)]

mod fault;
mod full;
mod gregs;
mod laws;
mod names;
mod waiting;

pub use fault::NameFault;
pub use gregs::{Base, Gregs};
pub use laws::nearest_base_is_least;
pub use mx_word::{Awaited, Symbols, Wait, WaitKind, Waits};
pub use names::Names;
