//! What an editor is shown of a step of a run: why it is a stop, frames, registers, symbols, memory, instructions, and the value of a
//! name.
#![tactic(auto)]

mod asking;
mod breaks;
mod disassembly;
mod frames;
mod memory;
mod scene;
mod sources;
mod stops;
mod values;
mod variables;

pub use asking::result_body;
pub use breaks::{find_watched_place, line_wanted, offset_wanted};
pub use frames::{depth_around, locals_reference};
pub use scene::Scene;
pub use stops::stop_body;
pub use values::{add_reference, parse_reference};
pub use variables::list_variables;
