//! Which rows a word is about.

ghost use Rattle.std.specs.Prelude.{◌≡◌, bytes_eq, decimal};
ghost use Rattle.std.specs.Str.{str_eq_ignore_ascii_case};
ghost use Rattle.mx_explain.specs.Matching as spec;
ghost use Rattle.mx_explain.specs.Topics.{seen};

use crate::row::{Row, name_of, number_of};
use itoa::Buffer;

/// Whether a word is a number in decimal digits, without zeros at its front.
fn is_decimal(word: &str, number: u16) -> bool
    ensures { result ≡ bytes_eq word.now (decimal number) }
{
    let mut buffer = Buffer::new();
    word.as_bytes() == buffer.format(number).as_bytes()
}

/// Whether a word is the number of a row, if it has one.
fn is_number(word: &str, number: Option<u16>) -> bool
    ensures { result ≡ spec.is_number word.now number }
{
    match number {
        None => false,
        Some(number) => is_decimal(word, number),
    }
}

/// Whether a word is the number of a row, or its name; upper and lower case do not matter.
#[tactic(auto, unfolding(crate::specs::Matching::fits))]
pub fn is_number_or_name_of(word: &str, row: Row) -> bool
    ensures { result ≡ spec.fits word.now (seen row) }
{
    is_number(word, number_of(row.topic)) || word.eq_ignore_ascii_case(name_of(row))
}
