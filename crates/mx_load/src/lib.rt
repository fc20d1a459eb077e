//! The image that the items of an object set up: memory, the lines of its tetras, and the global
//! registers.
//!
//! Tetras are joined to memory by exclusive or, so that what fixes them may come later (MMIXware,
//! "Binary MMO output" in MMIXAL and "Loading an object file" in MMIX-SIM).
#![tactic(auto)]

mod fault;
mod image;
mod laws;
mod loader;
mod objects;
mod progress;
mod whole;

pub use fault::LoadFault;
pub use image::Image;
pub use laws::{items_are_loaded_in_turn, objects_are_loaded_as_they_mean};
pub use loader::Loader;
pub use objects::{ObjectFault, load_object};
pub use whole::load;
