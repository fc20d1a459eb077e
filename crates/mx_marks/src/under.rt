//! What is below a line: blanks, and marks under the text that a fault is about.

ghost use Rattle.std.specs.Prelude.{◌≡◌, ◌≤◌, ◌++◌, OnOk, drop, length, take};
ghost use Rattle.std.specs.Str.{continuation_len};
ghost use Rattle.mx_marks.specs.Under as spec;

use mx_word::{Bytes, NoMemory};

/// What is under a byte in front of the caret.
fn under(b: u8) -> u8
    ensures { result ≡ spec.under b }
{
    if b == b'\t' { b'\t' } else { b' ' }
}

/// The first bytes of a text, this many or all, and the others.
#[tactic(auto, using(crate::proofs::Fronts::fronts))]
pub(crate) fn split_at_most(text: &[u8], count: usize) -> (&[u8], &[u8])
    ensures front { result.0.now ≡ take count text.now }
    ensures others { result.1.now ≡ drop count text.now }
{
    if count < text.len() {
        (&text[..count], &text[count..])
    } else {
        (text, &[])
    }
}

/// How many bytes follow the first byte of a character.
fn continuation_count(b: u8) -> usize
    ensures count { result ≡ continuation_len b }
    ensures few { result ≤ 3 }
{
    if b < 128 {
        0
    } else if b < 224 {
        1
    } else if b < 240 {
        2
    } else {
        3
    }
}

/// How many bytes the first character of a text has.
#[tactic(auto, using(crate::proofs::UnderTurns::tests), unfolding(crate::specs::Under::char_length))]
fn char_length(text: &[u8]) -> usize
    ensures { result ≡ spec.char_length text.now }
{
    let [b, ..] = text else {
        return 0;
    };
    let count = continuation_count(*b) + 1;
    match str::from_utf8(split_at_most(text, count).0) {
        Ok(_) => count,
        Err(_) => 1,
    }
}

/// Adds what is under the characters of a text.
#[tactic(auto, using(crate::proofs::UnderTurns::turns), unfolding(crate::specs::Under::under_after))]
fn add_under(text: &mut Bytes, front: &[u8]) -> Result<(), NoMemory>
    ensures { OnOk result (text.new ≡ text.old ++ spec.under_text front.now) }
{
    let mut rest = front;
    while let [b, more @ ..] = rest {
        text.push(under(*b))?;
        rest = split_at_most(more, char_length(rest).saturating_sub(1)).1;
    }
    Ok(())
}

/// Adds the tildes under what follows the first character of the marked text.
#[tactic(auto, using(crate::proofs::UnderTurns::tildes), unfolding(crate::specs::Under::tildes_after))]
fn add_tildes(text: &mut Bytes, marked: &[u8]) -> Result<(), NoMemory>
    ensures { OnOk result (text.new ≡ text.old ++ spec.tildes marked.now) }
{
    let mut rest = split_at_most(marked, char_length(marked)).1;
    while let [_, more @ ..] = rest {
        text.push(b'~')?;
        rest = split_at_most(more, char_length(rest).saturating_sub(1)).1;
    }
    Ok(())
}

/// Adds the marks below a line, if it has any: a caret after so many of its bytes, and tildes under the other characters of the marked
/// text, which has this many bytes.
pub fn add_marks(
    text: &mut Bytes,
    line: &[u8],
    caret: Option<usize>,
    count: usize,
) -> Result<(), NoMemory>
    ensures { OnOk result (text.new ≡ text.old ++ spec.marks_text line.now caret count) }
{
    let Some(place) = caret else {
        return Ok(());
    };
    let (front, rest) = split_at_most(line, place);
    text.extend(b"    ")?;
    add_under(text, front)?;
    text.extend(b"^")?;
    add_tildes(text, split_at_most(rest, count).0)?;
    text.extend(b"\n")
}
