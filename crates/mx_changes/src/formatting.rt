//! The columns of a text: label, operation, operands, comment.

ghost use Rattle.std.specs.Prelude.{◌≡◌, ◌≤◌, ◌∷◌, ◌++◌, Ok, IfOk, OnOk, length, replicate};
ghost use Rattle.mx_line.specs.Bytes.{past, run};
ghost use Rattle.mx_line.specs.Cutting.{cuts_from};
ghost use Rattle.mx_line.specs.Lines.{lines_of};
ghost use Rattle.mx_changes.specs.Layouts as spec;

use crate::names::{front, rest_after};
use crate::renaming::{Change, check_change, next, part};
use mx_json::add_string;
use mx_line::{Cut, Span, cut_line, next_statement};
use mx_wire::{Values, add_array, add_line_range};
use mx_word::{Bytes, NoMemory};
use std::alloc::Global;

/// The columns of the operation, the operands and the comment.
const OPERATION: usize = 8;

const OPERANDS: usize = 14;

const COMMENT: usize = 30;

/// How many blanks lead from one column to another, at least one.
fn gap(from: usize, to: usize) -> usize
    ensures { result ≡ spec.gap from to }
{
    if from < to { to - from } else { 1 }
}

/// Adds blanks.
fn add_blanks(text: &mut Bytes, count: usize) -> Result<(), NoMemory>
    ensures { OnOk result (text.new ≡ text.old ++ replicate count 32) }
{
    for _at in 0..count {
        text.push(b' ')?;
    }
    Ok(())
}

/// Adds a field at a column, if it is not empty.
fn add_field(text: &mut Bytes, column: usize, field: &[u8]) -> Result<(), NoMemory>
    ensures { OnOk result (text.new ≡ spec.with_field column field.now text.old) }
{
    match field {
        [] => Ok(()),
        [_, ..] => {
            let count = gap(text.as_slice().len(), column);
            add_blanks(text, count)?;
            text.extend(field)
        }
    }
}

/// How many blanks and tabs are at the front of a text.
fn blank_count(text: &[u8]) -> usize
    ensures { result ≡ length (run spec.is_gap text.now) }
{
    text.iter()
        .take_while(|b| **b == b' ' || **b == b'\t')
        .count()
}

/// A text without the blanks at its front.
fn without_blanks(text: &[u8]) -> &[u8]
    ensures { result.now ≡ past spec.is_gap text.now }
{
    rest_after(text, blank_count(text))
}

/// Whether a byte is a blank, a tab or a carriage return.
fn is_end(b: u8) -> bool
    ensures { result ≡ spec.is_end b }
{
    b == b' ' || b == b'\t' || b == b'\r'
}

/// How many bytes a text has up to its last one that is no blank.
#[tactic(auto, unfolding(crate::specs::Layouts::end_from))]
fn end_of_text(text: &[u8]) -> usize
    ensures { result ≡ spec.end_from 0 0 text.now }
{
    let mut end = 0usize;
    let mut place = 0usize;
    let mut rest = text;
    while let [b, more @ ..] = rest {
        place += 1;
        if !is_end(*b) {
            end = place;
        }
        rest = more;
    }
    end
}

/// A text without the blanks at its end.
fn without_end(text: &[u8]) -> &[u8]
    ensures { result.now ≡ spec.without_end text.now }
{
    front(text, end_of_text(text))
}

/// What follows the operands of a statement, without the blanks around it.
fn comment_of<'a>(line: &'a [u8], cut: &Cut) -> &'a [u8]
    ensures { result.now ≡ spec.comment_of line.now cut.now }
{
    without_end(without_blanks(part(line, cut.operands.to, line.len())))
}

/// The label of a statement, or no text.
fn label_of(line: &[u8], label: Option<Span>) -> &[u8]
    ensures { result.now ≡ spec.label_of line.now label }
{
    match label {
        None => &[],
        Some(label) => part(line, label.from, label.to),
    }
}

/// The fields of a statement in their columns.
#[tactic(auto, unfolding(crate::specs::Layouts::fields))]
fn fields(alloc: Global, line: &[u8], cut: &Cut) -> Result<Bytes, NoMemory>
    ensures { IfOk result (λ text. text ≡ spec.fields line.now cut.now) }
{
    let mut text = Bytes::copy(alloc, label_of(line, cut.label))?;
    add_field(&mut text, OPERATION, part(line, cut.op.from, cut.op.to))?;
    add_field(
        &mut text,
        OPERANDS,
        part(line, cut.operands.from, cut.operands.to),
    )?;
    add_field(&mut text, COMMENT, comment_of(line, cut))?;
    Ok(text)
}

/// A line in its columns, of which this is the first statement.
fn lay_with(alloc: Global, line: &[u8], cut: &Cut) -> Result<Bytes, NoMemory>
    requires { cut.now.next ≤ length line.now }
    ensures { IfOk result (λ text. text ≡ spec.laid_by line.now (Ok cut.now ∷ cuts_from line.now cut.now.next)) }
{
    match next_statement(line, cut.next) {
        Ok(None) => fields(alloc, line, cut),
        Ok(Some(_)) => Bytes::copy(alloc, line),
        Err(_) => Bytes::copy(alloc, line),
    }
}

/// A line in its columns; one that has not one statement stays as it is.
fn lay_line(alloc: Global, line: &[u8]) -> Result<Bytes, NoMemory>
    ensures { IfOk result (λ text. text ≡ spec.laid_line line.now) }
{
    match next_statement(line, 0) {
        Ok(None) => Bytes::copy(alloc, line),
        Ok(Some(cut)) => lay_with(alloc, line, &cut),
        Err(_) => Bytes::copy(alloc, line),
    }
}

/// The edit of a line into this text.
#[tactic(auto, unfolding(crate::specs::Layouts::line_edit))]
fn line_edit(alloc: Global, number: u32, line: &[u8], laid: &[u8]) -> Result<Bytes, NoMemory>
    ensures { IfOk result (λ edit. edit ≡ spec.line_edit number line.now laid.now) }
{
    let mut edit = Bytes::new(alloc);
    add_line_range(&mut edit, b"{\"range\":", number, line)?;
    add_string(alloc, &mut edit, b",\"newText\":", laid)?;
    edit.extend(b"}")?;
    Ok(edit)
}

/// Adds the edit of a line, if its layout differs.
fn add_edit(
    alloc: Global,
    edits: &mut Values,
    number: u32,
    line: &[u8],
    laid: &[u8],
) -> Result<(), NoMemory>
    ensures { OnOk result (edits.new ≡ edits.old ++ spec.edit_if number line.now laid.now) }
{
    if laid == line {
        return Ok(());
    }
    edits.push(line_edit(alloc, number, line, laid)?)
}

/// A text whose lines are in their columns, and the edits of those that were not.
#[derive(Drop)]
struct Layout {
    text: Bytes,
    edits: Values,
}

/// The lines of a text in their columns.
#[tactic(auto, using(crate::proofs::LayoutTurns::turns))]
fn lay_out(alloc: Global, source: &[u8]) -> Result<Layout, NoMemory>
    ensures text { IfOk result (λ layout. layout.text ≡ spec.laid_text source.now) }
    ensures edits { IfOk result (λ layout. layout.edits ≡ spec.edits_from 1 (lines_of source.now)) }
{
    let mut text = Bytes::new(alloc);
    let mut edits = Values::new(alloc);
    let mut rest = source;
    let mut number = 1u32;
    while !rest.is_empty() {
        let (line, others) = cut_line(rest);
        let laid = lay_line(alloc, line)?;
        add_edit(alloc, &mut edits, number, line, laid.as_slice())?;
        text.extend(laid.as_slice())?;
        text.extend(b"\n")?;
        number = next(number);
        rest = others;
    }
    Ok(Layout { text, edits })
}

/// The edits of a source, if there are some, where the program stays as it is.
fn change_by(alloc: Global, source: &[u8], layout: &Layout) -> Result<Change, NoMemory>
    requires { layout.now.text ≡ spec.laid_text source.now }
    ensures { IfOk result (λ r. spec.FormatsBy source.now layout.now.edits r) }
{
    match layout.edits.as_slice() {
        [] => Ok(Change::Done(Bytes::copy(alloc, b"[]")?)),
        [_, ..] => {
            let mut edit = Bytes::new(alloc);
            add_array(&mut edit, layout.edits.as_slice())?;
            check_change(alloc, source, layout.text.as_slice(), edit)
        }
    }
}

/// The edits that put the lines of a text into their columns, where the program stays as it is.
pub fn formatting_of(alloc: Global, source: &[u8]) -> Result<Change, NoMemory>
    ensures { IfOk result (λ r. spec.Formats source.now r) }
{
    let layout = lay_out(alloc, source)?;
    change_by(alloc, source, &layout)
}
