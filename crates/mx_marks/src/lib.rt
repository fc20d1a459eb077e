//! Where a fault is in its line: the statement and the field that it is about, and the text that is marked; and a source of which a faulty
//! line does nothing but define its label.
#![tactic(auto)]

mod fields;
mod labels;
mod laws;
mod marks;
mod mending;
mod rooms;
mod syntax;
mod tokens;
mod under;

pub use fields::{
    Field, cut_leading_word, find_end_of_cuts, find_only_statement, first_operand, from_field,
    line_field, operands_at, skip_past_comma, statement_field, unknown_place,
};
pub use labels::{
    Likeness, find_label_line, find_similar_label, find_similar_name, find_similar_operation,
    is_code_label, is_label,
};
pub use laws::{
    carets_are_under_their_fields, carets_count_characters, marks_begin_within_their_fields,
};
pub use marks::{Mark, field_mark, operation_at, room_at, slice_marked};
pub use mending::{line_text, with_blank, with_label};
pub use rooms::Room;
pub use syntax::is_read_through;
pub use under::add_marks;
