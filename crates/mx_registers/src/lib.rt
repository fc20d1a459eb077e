//! The registers of MMIX: those that an instruction sees, and the hidden ones with the memory that they are spilled to.
//!
//! The rules are those of MMIXware (LNCS 1750; the part on MMIX, "The register stack") and of
//! TAOCP 1, Fascicle 1, section 1.4.1'.
#![tactic(auto)]

mod area;
mod fault;
mod hidden;
mod knowing;
mod list;
mod results;
mod size;
mod slices;
mod visible;

pub use fault::RingFault;
pub use hidden::{Hidden, ROOM};
pub use size::RingSize;
pub use visible::{FEW, MORE, Visible};
