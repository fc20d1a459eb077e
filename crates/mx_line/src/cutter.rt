//! Statements are cut from a line, one after another.

ghost use Rattle.std.specs.Prelude.{◌≡◌, ℕ, List, Result, ◌≤◌, ◌<◌, ◌+◌, ◌^◌, length, drop, IfOk, IfSome};
ghost use Rattle.mx_line.specs.Cutting as spec;
ghost use Rattle.mx_line.specs.Fields.{field_length};
ghost use Rattle.mx_line.specs.Statements.{Found, StatementOf, Statements};

use crate::fields::{field_length, is_field_end};
use crate::kinds::{is_blank, split_blanks, split_word};
use crate::{LineFault, Span};
use mx_word::{is_digit, is_name_byte};

/// A statement, as the places of its fields in the line, and the place where the next statement
/// begins, or the line's length.
#[derive(Clone, Copy, Debug, PartialEq, Eq)]
pub struct Cut {
    pub label: Option<Span>,
    pub op: Span,
    pub operands: Span,
    pub next: usize,
}

/// Where the next statement begins, from the end of an operand field.
fn next_after(place: usize, text: &[u8]) -> usize
    requires { place + length text.now < 2 ^ 64 }
    ensures { result ≡ spec.next_after place text.now }
{
    let (gap, rest) = split_blanks(text);
    match rest {
        [b';', ..] => place + gap.len() + 1,
        _ => place + gap.len() + rest.len(),
    }
}

/// A statement by its label, its opcode and the text that its operand field begins.
fn with_field(
    label: Option<Span>,
    op: Span,
    place: usize,
    text: &[u8],
) -> Result<Option<Cut>, LineFault>
    requires { place + length text.now < 2 ^ 64 }
    ensures { result ≡ spec.with_field label op place text.now (field_length text.now) }
{
    let count = field_length(text)?;
    let (_, rest) = text.split_at(count);
    Ok(Some(Cut {
        label,
        op,
        operands: Span {
            from: place,
            to: place + count,
        },
        next: next_after(place + count, rest),
    }))
}

/// A statement by its label, its opcode and the text after that.
fn operands_at(
    label: Option<Span>,
    op: Span,
    place: usize,
    text: &[u8],
) -> Result<Option<Cut>, LineFault>
    requires { place + length text.now < 2 ^ 64 }
    ensures { result ≡ spec.operands_at label op place text.now }
{
    let (gap, rest) = split_blanks(text);
    with_field(label, op, place + gap.len(), rest)
}

/// What there may be in place of an opcode: a comment, but a label needs one.
fn no_opcode(label: Option<Span>) -> Result<Option<Cut>, LineFault>
    ensures { result ≡ spec.no_opcode label }
{
    match label {
        None => Ok(None),
        Some(_) => Err(LineFault::NoOpcode),
    }
}

/// A statement by its label, the letters and digits of its opcode, and the text after them.
fn opcode_at(
    label: Option<Span>,
    place: usize,
    op: &[u8],
    rest: &[u8],
) -> Result<Option<Cut>, LineFault>
    requires { place + length op.now + length rest.now < 2 ^ 64 }
    ensures { result ≡ spec.opcode_at label place op.now rest.now }
{
    if op.is_empty() {
        no_opcode(label)
    } else if is_field_end(rest) {
        let end = place + op.len();
        let op = Span {
            from: place,
            to: end,
        };
        operands_at(label, op, end, rest)
    } else {
        Err(LineFault::BadOpcode)
    }
}

/// A statement by its label and the text after that.
fn operation_at(label: Option<Span>, place: usize, text: &[u8]) -> Result<Option<Cut>, LineFault>
    requires { place + length text.now < 2 ^ 64 }
    ensures { result ≡ spec.operation_at label place text.now }
{
    let (gap, rest) = split_blanks(text);
    let (op, after) = split_word(rest);
    opcode_at(label, place + gap.len(), op, after)
}

/// Whether a label ends before a text.
fn is_label_end(rest: &[u8]) -> bool
    ensures { result ≡ spec.ends_label rest.now }
{
    match rest {
        [] => true,
        [b, ..] => is_blank(*b),
    }
}

/// Whether a label begins with a digit, but is not that digit and `H`.
fn is_bad_local(label: &[u8]) -> bool
    ensures { result ≡ spec.is_bad_local label.now }
{
    match label {
        [] => false,
        [b, rest @ ..] => is_digit(*b) && rest != b"H".as_slice(),
    }
}

/// A statement by the letters and digits at its front and the text after them.
fn cut_labelled(place: usize, label: &[u8], rest: &[u8]) -> Result<Option<Cut>, LineFault>
    requires { place + length label.now + length rest.now < 2 ^ 64 }
    ensures { result ≡ spec.labelled_at place label.now rest.now }
{
    if is_bad_local(label) {
        Err(LineFault::BadLocal)
    } else if is_label_end(rest) {
        let end = place + label.len();
        let label = Span {
            from: place,
            to: end,
        };
        operation_at(Some(label), end, rest)
    } else {
        Err(LineFault::BadLabel)
    }
}

/// The statement at the front of a text that is at a place of the line.
fn statement_at(place: usize, text: &[u8]) -> Result<Option<Cut>, LineFault>
    requires { place + length text.now < 2 ^ 64 }
    ensures { result ≡ spec.statement_at place text.now }
{
    match text {
        [] => Ok(None),
        [b, ..] => {
            if is_name_byte(*b) {
                let (label, rest) = split_word(text);
                cut_labelled(place, label, rest)
            } else if is_blank(*b) {
                operation_at(None, place, text)
            } else {
                Ok(None)
            }
        }
    }
}

/// The statement of a line that begins at a place, or the fault of a line that is too long.
#[tactic(auto, unfolding(crate::specs::Cutting::statement_of))]
fn statement_of(line: &[u8], place: usize) -> Result<Option<Cut>, LineFault>
    requires { place ≤ length line.now }
    ensures { result ≡ spec.statement_of line.now place }
{
    if place == 0 && line.len() > 4096 {
        Err(LineFault::TooLong)
    } else {
        let (_, rest) = line.split_at(place);
        statement_at(place, rest)
    }
}

/// The statement that begins at a place of a line, or nothing where no statement is left there:
/// at the line's end, and where the rest is a comment (MMIXAL, format of lines: MMIXware, LNCS
/// 1750). The text is one line without its newline, and the place is 0 or the `next` of the
/// statement before. It takes no memory.
#[tactic(auto, using(crate::proofs::StatementLemmas::listing, crate::proofs::RuleLaws::answers))]
pub fn next_statement(text: &[u8], at: usize) -> Result<Option<Cut>, LineFault>
    requires { at ≤ length text.now }
    // What is answered is there by the rules, and nothing else is.
    ensures rules { StatementOf text.now at result }
    ensures only { (found : Found) → StatementOf text.now at found → found ≡ result }
    // The same, as a function.
    ensures statement { result ≡ spec.statement_of text.now at }
    ensures order { spec.CutInOrder at (length text.now) result }
    ensures list { spec.cuts_from text.now at ≡ spec.list_with (spec.cuts_from text.now) result }
{
    statement_of(text, at)
}

/// The statements of a line from a place on, by the rules of the language, are one list, and
/// which it is: no two readings of a line differ.
#[tactic(auto, using(crate::proofs::ListLaws::lists))]
pub fn one_list()
    ensures rules { (line : List ℕ) (place : ℕ) → place ≤ length line →
        Statements line place (spec.cuts_from line place) }
    ensures only { (line : List ℕ) (place : ℕ) (cuts : List (Result Cut LineFault)) → Statements line place cuts →
        place ≤ length line → cuts ≡ spec.cuts_from line place }
{}
