//! Texts that are changed by ranges.

ghost use Rattle.std.specs.Prelude.{◌≡◌, ◌+◌, IfOk, drop, length, min, take};
ghost use Rattle.mx_line.specs.Bytes.{run};
ghost use Rattle.mx_lsp.specs.Edits as spec;

use mx_frames::place_of;
use mx_word::{Bytes, NoMemory};
use std::alloc::Global;

/// The first bytes of a text, so many or all.
#[tactic(auto, using(crate::proofs::EditTurns::parts))]
fn front(text: &[u8], count: usize) -> &[u8]
    ensures { result.now ≡ take count text.now }
{
    if count < text.len() {
        &text[..count]
    } else {
        text
    }
}

/// A text without its first bytes, so many or all.
#[tactic(auto, using(crate::proofs::EditTurns::parts))]
fn past(text: &[u8], count: usize) -> &[u8]
    ensures { result.now ≡ drop count text.now }
{
    if count < text.len() {
        &text[count..]
    } else {
        &[]
    }
}

/// How many bytes the first line of a text has without its end.
fn line_length(text: &[u8]) -> usize
    ensures { result ≡ length (run spec.is_no_end text.now) }
{
    text.iter()
        .take_while(|b| !(**b == b'\n') && !(**b == b'\r'))
        .count()
}

/// The first line of a text, without its end.
#[tactic(auto, using(crate::proofs::EditTurns::parts))]
fn first_line(text: &[u8]) -> &[u8]
    ensures { result.now ≡ spec.first_line text.now }
{
    front(text, line_length(text))
}

/// A text without the end of a line at its front.
fn past_end(text: &[u8]) -> &[u8]
    ensures { result.now ≡ spec.past_end text.now }
{
    match text {
        [a, b, rest @ ..] => {
            if *a == b'\r' && *b == b'\n' {
                rest
            } else {
                past(text, 1)
            }
        }
        _ => &[],
    }
}

/// A text without its first line.
fn later_lines(text: &[u8]) -> &[u8]
    ensures { result.now ≡ spec.later_lines text.now }
{
    past_end(past(text, line_length(text)))
}

/// A text without its first lines, so many or all.
#[tactic(auto, using(crate::proofs::EditTurns::lines))]
fn lines_after(text: &[u8], count: u64) -> &[u8]
    ensures { result.now ≡ spec.lines_after count text.now }
{
    let mut rest = text;
    let mut left = count;
    while left > 0 {
        if rest.is_empty() {
            return rest;
        }
        rest = later_lines(rest);
        left -= 1;
    }
    rest
}

/// A sum, or this where it is more.
fn sum_up_to(start: usize, place: usize, most: usize) -> usize
    ensures { result ≡ min (start + place) most }
{
    if most <= start {
        return most;
    }
    if place < most - start {
        start + place
    } else {
        most
    }
}

/// How many bytes of a text are before a column of the first line of its rest, and not more than all.
fn offset_in(text: &[u8], rest: &[u8], column: usize) -> usize
    ensures { result ≡ spec.offset_in text.now rest.now column }
{
    let start = text.len().saturating_sub(rest.len());
    sum_up_to(start, place_of(first_line(rest), column), text.len())
}

/// How many bytes of a text are before a column of a line, both counted from 0; where the column is beyond the line, before its end.
pub(crate) fn offset_of(text: &[u8], line: u64, column: u64) -> usize
    ensures { result ≡ spec.offset_of text.now line column }
{
    offset_in(text, lines_after(text, line), column as usize)
}

/// Where a range ends that begins at a place, and not before it.
fn end_after(from: usize, to: usize) -> usize
    ensures { result ≡ spec.end_after from to }
{
    if from < to { to } else { from }
}

/// A text with other bytes in place of those from one place up to another.
pub(crate) fn splice(
    alloc: Global,
    text: &[u8],
    from: usize,
    to: usize,
    new: &[u8],
) -> Result<Bytes, NoMemory>
    ensures { IfOk result (λ whole. whole ≡ spec.spliced text.now from to new.now) }
{
    let mut whole = Bytes::copy(alloc, front(text, from))?;
    whole.extend(new)?;
    whole.extend(past(text, end_after(from, to)))?;
    Ok(whole)
}
