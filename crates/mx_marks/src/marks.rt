//! Which text of a line is marked under a fault.

ghost use Rattle.std.specs.Prelude.{◌≡◌, ◌<◌, ◌≤◌, ◌^◌, IfOk, length};
ghost use Rattle.mx_marks.specs.Marks as spec;
ghost use Rattle.mx_marks.specs.Syntax as syntax;
ghost use Rattle.mx_marks.specs.declared.tokens.Wanted.TheVariants.{Above, Unknown};

use crate::fields::{Field, cut_leading_word, from_field, operands_at};
use crate::rooms::{Room, limit_of, room_of};
use crate::syntax::scan;
use crate::tokens::{Wanted, from_part, measure_marked, number_part};
use crate::under::split_at_most;
use mx_ops::find;
use mx_word::NoMemory;
use std::alloc::Global;

/// The marked text of a line: how many bytes are in front of it, how many it has, and whether it is what the fault is about, and not all
/// operands among which this is.
#[derive(Clone, Copy)]
pub struct Mark {
    pub from: usize,
    pub length: usize,
    pub is_part: bool,
}

/// The operation of the statement at a place of a line.
pub fn operation_at(line: &[u8], place: usize) -> &[u8]
    ensures { result.now ≡ spec.operation_at line.now place }
{
    cut_leading_word(from_field(Field::Operation, split_at_most(line, place).1))
}

/// The room for a number in the operands of the statement at a place.
pub fn room_at(line: &[u8], place: usize) -> Room
    ensures { result ≡ spec.room_at line.now place }
{
    room_of(find(operation_at(line, place)))
}

/// Where operands are no expressions; their last byte where they end too early.
fn skip_to_fault(operands: &[u8]) -> &[u8]
    ensures { result.now ≡ spec.stopped_at operands.now (syntax.scan operands.now) }
{
    let (wants, rest) = scan(operands);
    if !rest.is_empty() {
        rest
    } else if wants {
        split_at_most(operands, operands.len().saturating_sub(1)).1
    } else {
        &[]
    }
}

/// From the name on that has no value in a line, or else from the local label on.
fn early_part<'a>(
    alloc: Global,
    most: u32,
    source: &[u8],
    operands: &'a [u8],
) -> Result<&'a [u8], NoMemory>
    ensures { IfOk result (λ part. part.now
        ≡ spec.early_part source.now most operands.now (spec.part_of Unknown source.now most operands.now)) }
{
    let unknown = from_part(alloc, Wanted::Unknown, source, most, operands)?;
    if unknown.is_empty() {
        from_part(alloc, Wanted::Ahead, source, most, operands)
    } else {
        Ok(unknown)
    }
}

/// From the number on that does not fit, or else from the label of data on, whose address does not fit into an instruction.
fn fit_part<'a>(
    alloc: Global,
    source: &[u8],
    room: Room,
    operands: &'a [u8],
) -> Result<&'a [u8], NoMemory>
    ensures { IfOk result (λ part. part.now
        ≡ spec.fit_part source.now room operands.now (spec.part_of (Above (spec.limit_of room)) source.now 0 operands.now)) }
{
    let above = from_part(alloc, Wanted::Above(limit_of(room)), source, 0, operands)?;
    if above.is_empty() && (room == Room::Byte || room == Room::Wyde) {
        from_part(alloc, Wanted::Address, source, 0, operands)
    } else {
        Ok(above)
    }
}

/// From the part of operands on that a fault is about; no text where none is found.
fn faulty_part<'a>(
    alloc: Global,
    fault: u16,
    number: u32,
    source: &[u8],
    room: Room,
    operands: &'a [u8],
) -> Result<&'a [u8], NoMemory>
    ensures { IfOk result (λ part. part.now ≡ spec.faulty_part fault number source.now room operands.now) }
{
    match fault {
        10 => Ok(skip_to_fault(operands)),
        15 => from_part(alloc, Wanted::Sum, source, 0, operands),
        17 => early_part(alloc, number.saturating_sub(1), source, operands),
        21 => from_part(alloc, Wanted::Register, source, 0, operands),
        41 => Ok(number_part(operands)),
        43 => fit_part(alloc, source, room, operands),
        80 => from_part(alloc, Wanted::Unknown, source, u32::MAX, operands),
        81 => from_part(alloc, Wanted::Ahead, source, 0, operands),
        _ => Ok(&[]),
    }
}

/// The mark of operands that begin at a place: their faulty part, or all of them.
fn operands_mark(from: usize, operands: &[u8], part: &[u8]) -> Mark
    requires { from < 2 ^ 63 }
    ensures { result ≡ spec.operands_mark from operands.now part.now }
{
    if part.is_empty() {
        return Mark {
            from,
            length: operands.len(),
            is_part: false,
        };
    }
    Mark {
        from: from + operands.len().saturating_sub(part.len()),
        length: measure_marked(part),
        is_part: true,
    }
}

/// The mark of the word at the front of a rest of a line.
fn word_mark(line: &[u8], rest: &[u8]) -> Mark
    ensures { result ≡ spec.word_mark line.now rest.now }
{
    Mark {
        from: line.len().saturating_sub(rest.len()),
        length: cut_leading_word(rest).len(),
        is_part: true,
    }
}

/// The mark of a fault with this number within a field of the statement at a place, in the line of a source with this number.
///
/// Errors: out of memory.
pub fn field_mark(
    alloc: Global,
    fault: u16,
    number: u32,
    source: &[u8],
    line: &[u8],
    field: Field,
    place: usize,
) -> Result<Mark, NoMemory>
    requires { place ≤ length line.now }
    ensures { IfOk result (λ mark. mark ≡ spec.field_mark fault number source.now line.now field place) }
{
    let rest = from_field(field, split_at_most(line, place).1);
    match field {
        Field::Operands => {
            let operands = operands_at(line, place);
            let from = line.len().saturating_sub(rest.len());
            let part = faulty_part(alloc, fault, number, source, room_at(line, place), operands)?;
            Ok(operands_mark(from, operands, part))
        }
        Field::Label | Field::Operation => Ok(word_mark(line, rest)),
    }
}

/// The text that is marked.
pub fn slice_marked(line: &[u8], mark: Mark) -> &[u8]
    ensures { result.now ≡ spec.marked_text line.now mark }
{
    split_at_most(split_at_most(line, mark.from).1, mark.length).0
}
