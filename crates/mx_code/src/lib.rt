//! Instructions as the machine reads them: what each code does, the fields of a tetra, and how a load or a store takes its
//! part of an octa; and the special registers: their codes, and what PUT gives them.
//!
//! The rules are those of MMIXware (LNCS 1750; the part on MMIX) and of TAOCP 1, Fascicle 1, section
//! 1.3.1'.
#![tactic(auto)]

mod codes;
mod condition;
mod destinations;
mod immediate;
mod instruction;
mod laws;
mod operation;
mod part;
mod put;
mod reason;
mod stop;
mod trace;

pub use codes::operation_of;
pub use condition::is_condition_met;
pub use destinations::destination;
pub use immediate::wyde_value;
pub use instruction::Instruction;
pub use laws::{special_registers_are_those_of_their_names, stored_values_are_in_bounds};
pub use operation::{Loading, Operation, Storing};
pub use part::{
    convert_stored, extract_loaded, extract_loaded_tetra, is_store_overflow, part_of_load,
    part_of_store, touch_of,
};
pub use put::{Put, may_put};
pub use reason::Reason;
pub use stop::{Stop, Told};
pub use trace::{Touch, Trace};
