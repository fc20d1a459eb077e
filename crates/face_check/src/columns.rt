//! Columns in characters.

ghost use Rattle.std.specs.Prelude.{◌≡◌, ◌++◌, OnOk, take};
ghost use Rattle.face_check.specs.CheckPages as spec;

use crate::faults::next;
use mx_json::add_number;
use mx_word::{Bytes, NoMemory};

/// Whether a byte of UTF-8 goes on with a character.
fn is_continuation_byte(b: u8) -> bool
    ensures { result ≡ spec.continues b }
{
    128 <= b && b < 192
}

/// The first bytes of a text, this many or all.
#[tactic(auto, using(crate::proofs::Characters::fronts))]
fn front(text: &[u8], count: usize) -> &[u8]
    ensures { result.now ≡ take count text.now }
{
    if count < text.len() {
        &text[..count]
    } else {
        text
    }
}

/// How many characters a text has.
#[tactic(auto, unfolding(crate::specs::CheckPages::characters))]
fn characters(text: &[u8]) -> usize
    ensures { result ≡ spec.characters text.now }
{
    let mut count = 0usize;
    let mut rest = text;
    while let [b, more @ ..] = rest {
        if !is_continuation_byte(*b) {
            count += 1;
        }
        rest = more;
    }
    count
}

/// Adds the column of a place of a line, counted in characters from 1.
#[tactic(auto, unfolding(crate::specs::CheckPages::place_column))]
pub fn add_place_column(text: &mut Bytes, line: &[u8], place: usize) -> Result<(), NoMemory>
    ensures { OnOk result (text.new ≡ text.old ++ spec.place_column line.now place) }
{
    let count = characters(front(line, place));
    add_number(text, b":", next(count as u64))
}

/// Adds the column of a caret, if there is one.
#[tactic(auto, unfolding(crate::specs::CheckPages::column_text))]
pub fn add_column(
    text: &mut Bytes,
    line: &Option<Bytes>,
    caret: Option<usize>,
) -> Result<(), NoMemory>
    ensures { OnOk result (text.new ≡ text.old ++ spec.column_text line.now caret) }
{
    match (line, caret) {
        (Some(line), Some(place)) => add_place_column(text, line.as_slice(), place),
        _ => Ok(()),
    }
}
