//! What a line of the debugger names in a program: values, places in memory, instructions, and conditions.
#![tactic(auto)]

mod conditions;
mod examined;
mod followed;
mod moments;
mod orders;
mod overwritten;
mod places;
mod sums;

pub use conditions::{parse_condition, signs_of};
pub use examined::{
    MEMORY_END, parse_examined, parse_examined_units, parse_form, parse_small_part,
};
pub use followed::{find_known_value, note_of};
pub use moments::{resolve_for_display_now, resolve_name_now};
pub use orders::{Unwanted, Wanted, parse_break};
pub use overwritten::add_overwritten;
pub use places::{
    PLACE_WANTED, Target, parse_part, parse_place, parse_target, resolve_for_display, resolve_name,
    thing_of_place,
};
