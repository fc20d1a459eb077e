//! Messages to an editor as JSON: places and ranges of a text, and the forms of answers.
#![tactic(auto)]

mod lists;
mod ranges;
mod replies;

pub use lists::{Values, add_array};
pub use ranges::{add_line_range, add_location, add_position, add_range, end_of};
pub use replies::{Refused, add_notice, refusal_of, result_of};
