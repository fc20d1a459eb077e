//! Lines of a source by their numbers, and what is left of a line that was refused.

ghost use Rattle.std.specs.Prelude.{◌≡◌, IfOk};
ghost use Rattle.mx_line.specs.Lines.{lines_of};
ghost use Rattle.mx_marks.specs.Mending as spec;

use crate::fields::{Field, cut_leading_word, from_field};
use mx_line::cut_line;
use mx_word::{Bytes, NoMemory};
use std::alloc::Global;

/// The most bytes of a line.
const LINE_LENGTH: usize = 4096;

/// A line, or a text in place of the line that is counted as 1.
fn choose_line<'a>(ahead: u32, text: &'a [u8], line: &'a [u8]) -> &'a [u8]
    ensures { result.now ≡ spec.replaced ahead text.now line.now }
{
    if ahead == 1 { text } else { line }
}

/// The source of which a line, counted from 1, is this text, however long it was.
#[tactic(auto, using(crate::proofs::MendingTurns::lines), unfolding(crate::specs::Mending::with_line))]
fn with_line(alloc: Global, line: u32, text: &[u8], source: &[u8]) -> Result<Bytes, NoMemory>
    ensures { IfOk result (λ mended. mended ≡ spec.with_line line text.now source.now) }
{
    let mut mended = Bytes::new(alloc);
    let mut ahead = line;
    let mut rest = source;
    while !rest.is_empty() {
        let (first, more) = cut_line(rest);
        mended.extend(choose_line(ahead, text, first))?;
        mended.extend(b"\n")?;
        ahead = ahead.saturating_sub(1);
        rest = more;
    }
    Ok(mended)
}

/// The text of a line, counted from 1.
#[tactic(auto, using(crate::proofs::MendingTurns::lines))]
pub fn line_text(line: u32, source: &[u8]) -> &[u8]
    ensures { result.now ≡ spec.line_text line (lines_of source.now) }
{
    let mut ahead = line;
    let mut rest = source;
    while !rest.is_empty() {
        let (text, more) = cut_line(rest);
        if ahead == 1 {
            return text;
        }
        ahead = ahead.saturating_sub(1);
        rest = more;
    }
    &[]
}

/// The label at the front of a line.
fn front_label(line: &[u8]) -> &[u8]
    ensures { result.now ≡ spec.front_label line.now }
{
    if line.len() > LINE_LENGTH {
        &[]
    } else {
        cut_leading_word(line)
    }
}

/// What the label of an IS becomes.
fn is_value(operands: &[u8]) -> &'static [u8]
    ensures { result.now ≡ spec.is_value operands.now }
{
    match operands {
        [b'$', ..] => b" IS $0",
        _ => b" IS 1",
    }
}

/// What a label becomes, by the operation and the operands of its statement.
fn value_text(operation: &[u8], operands: &[u8]) -> &'static [u8]
    ensures { result.now ≡ spec.value_text operation.now operands.now }
{
    if operation == b"GREG".as_slice() {
        b" IS $0"
    } else if operation == b"IS".as_slice() {
        is_value(operands)
    } else {
        b" IS @"
    }
}

/// A line that does nothing but define the label of this line.
#[tactic(auto, unfolding(crate::specs::Mending::label_alone))]
fn label_alone(alloc: Global, line: &[u8]) -> Result<Bytes, NoMemory>
    ensures { IfOk result (λ left. left ≡ spec.label_alone line.now) }
{
    let label = front_label(line);
    if label.is_empty() {
        return Bytes::copy(alloc, b" ");
    }
    let operation = cut_leading_word(from_field(Field::Operation, line));
    let operands = from_field(Field::Operands, line);
    let mut left = Bytes::copy(alloc, label)?;
    left.extend(value_text(operation, operands))?;
    Ok(left)
}

/// The source of which a line, counted from 1, does nothing but define its label.
pub fn with_label(alloc: Global, line: u32, source: &[u8]) -> Result<Bytes, NoMemory>
    ensures { IfOk result (λ mended. mended ≡ spec.with_label line source.now) }
{
    let left = label_alone(alloc, line_text(line, source))?;
    with_line(alloc, line, left.as_slice(), source)
}

/// The source of which a line, counted from 1, is blank.
pub fn with_blank(alloc: Global, line: u32, source: &[u8]) -> Result<Bytes, NoMemory>
    ensures { IfOk result (λ mended. mended ≡ spec.with_blank line source.now) }
{
    with_line(alloc, line, b" ", source)
}
