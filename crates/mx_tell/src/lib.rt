//! What a debugger shows of a program and of its machine, as texts: each function adds one, which ends with its newline where it is
//! no part of a line.
#![tactic(auto)]

mod calls;
mod changes;
mod code;
mod ends;
mod lines;
mod memory;
mod names;
mod registers;
mod stops;
mod tables;
mod things;
mod values;

pub use calls::{Call, add_backtrace};
pub use changes::{Before, add_changes};
pub use ends::add_end;
pub use lines::{add_instructions, add_lines, first_line_around};
pub use memory::{MOST_UNITS, add_memory, add_part};
pub use mx_pieces::add_output;
pub use names::{add_label, add_place};
pub use registers::add_registers;
pub use stops::add_stop;
pub use tables::{add_break_row, add_symbols, add_watch_row};
pub use things::{add_shown, add_thing, add_value, add_was, add_watched};
pub use values::value_of;
