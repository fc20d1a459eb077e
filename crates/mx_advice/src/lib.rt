//! Sentences on faults: what is wrong, with a place for the marked text, and how to fix it.
#![tactic(auto)]

mod chosen;
mod rows;

pub use chosen::{
    address_row, ahead_row, byte_row, colon_row, comma_row, comment_row, data_byte_row,
    data_wyde_row, end_row, far_row, foreign_row, hexadecimal_row, indented_row, later_code_row,
    later_row, match_row, nowhere_row, other_main_row, point_row, quote_row, remark_row, set_row,
    sum_row, tetra_row, wyde_row,
};
pub use rows::{Row, row_of};
