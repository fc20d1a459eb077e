//! The instructions of MMIXAL, each explained in a row.
#![tactic(auto)]

mod bits;
mod choices;
mod control;
mod floats;
mod memory;
mod numbers;
mod parts;

pub use parts::{
    arithmetic_rows, bit_rows, branch_rows, byte_rows, comparison_rows, float_rows, hint_rows,
    jump_rows, load_rows, more_float_rows, set_rows, store_rows, system_rows, wyde_rows,
};
