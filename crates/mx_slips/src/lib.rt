//! Slips that the text of a source shows: its lines with their statements and tokens, and a rule for each kind of slip.
#![tactic(auto)]

mod afters;
mod backslashes;
mod bases;
mod cases;
mod marks;
mod operations;
mod pieces;
mod returns;
mod sources;
mod surveys;
mod tetras;
mod tokens;

pub use afters::{find_operator_after_blank, starts_with_byte};
pub use backslashes::find_backslash;
pub use bases::{find_zero_greg, is_greg};
pub use cases::find_other_case;
pub use marks::{Mark, mark_of};
pub use operations::is_data_operation;
pub use pieces::{Piece, take_front};
pub use returns::{Place, find_lost_return, place_after};
pub use sources::{
    SourceLine, SourceLines, Statement, Statements, collect_lines, collect_lines_of, read_lines,
};
pub use surveys::{Survey, Use, Uses, survey_lines};
pub use tetras::is_accepted;
pub use tokens::{Token, Tokens};
