//! How a row is seen to come to what is due.

use std::alloc::Global;
use std::fmt::Debug;
use std::test::Fail;
use test_rows::{Due, Given, comes_from};

/// Checks that words come to what is due over a host that has what is given; a failure tells the row.
pub fn check_outcome<D: Debug + Drop>(
    alloc: Global,
    given: Given,
    words: &[&str],
    due: Due,
    row: D,
) -> Result<(), Fail> {
    see(comes_from(alloc, given, words, due)?, row)
}

/// Fails, and tells the row, where it does not come to what is due.
pub fn see<D: Debug + Drop>(is_due: bool, row: D) -> Result<(), Fail> {
    if is_due {
        return Ok(());
    }
    Err(Fail::new(format_args!("{row:?}")))
}
