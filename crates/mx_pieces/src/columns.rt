//! Columns.

use mx_text::add_decimal;
use mx_word::{Bytes, NoMemory};

static BLANKS: [u8; 40] = *b"                                        ";

/// How many blanks fill a text up to a width, of which this many bytes are there.
fn blanks_for(used: usize, width: usize) -> &'static [u8] {
    let count = width.saturating_sub(used);
    if count < 40 {
        &BLANKS[..count]
    } else {
        &BLANKS
    }
}

/// Adds blanks until what follows the first `from` bytes of a text is this wide, and one at least.
pub fn fill(text: &mut Bytes, from: usize, width: usize) -> Result<(), NoMemory> {
    let used = text.as_slice().len().saturating_sub(from);
    text.extend(blanks_for(used, width.saturating_sub(1)))?;
    text.push(b' ')
}

/// How many decimal digits a number has.
fn digit_count(n: u64) -> usize {
    match n {
        0..=9 => 1,
        10..=99 => 2,
        100..=999 => 3,
        1_000..=9_999 => 4,
        _ => 5,
    }
}

/// Adds a number after blanks that fill it up to a width of 5.
pub fn add_right(text: &mut Bytes, n: u64) -> Result<(), NoMemory> {
    text.extend(blanks_for(digit_count(n), 5))?;
    add_decimal(text, n)
}
