//! Which statement of a line and which of its fields a fault is about.

ghost use Rattle.std.specs.Prelude.{◌≡◌, ◌≤◌, IfSome, length};
ghost use Rattle.mx_line.specs.Bytes as bytes;
ghost use Rattle.mx_line.specs.Cutting.{cuts_from};
ghost use Rattle.mx_marks.specs.Fields as spec;

use crate::under::split_at_most;
use mx_line::{LineFault, next_statement};
use mx_ops::find;
use mx_stmt::StmtFault;
use mx_word::is_name_byte;

/// A field of a statement.
#[derive(Clone, Copy)]
pub enum Field {
    Label,
    Operation,
    Operands,
}

/// The field that a fault of a line is about.
pub fn line_field(why: LineFault) -> Option<Field>
    ensures { result ≡ spec.line_field why }
{
    match why {
        LineFault::TooLong => None,
        LineFault::BadLabel | LineFault::BadLocal | LineFault::NoOpcode => Some(Field::Label),
        LineFault::BadOpcode => Some(Field::Operation),
        _ => Some(Field::Operands),
    }
}

/// The field that a fault of a statement is about.
pub fn statement_field(why: StmtFault) -> Field
    ensures { result ≡ spec.statement_field why }
{
    match why {
        StmtFault::LabelNotAllowed => Field::Label,
        StmtFault::UnknownOpcode | StmtFault::TooManyGregs | StmtFault::BadPlace => {
            Field::Operation
        }
        _ => Field::Operands,
    }
}

/// How many bytes of operands come before their first comma.
fn first_length(operands: &[u8]) -> usize
    ensures { result ≡ length (bytes.run spec.is_no_comma operands.now) }
{
    operands.iter().take_while(|b| **b != b',').count()
}

/// The operands in front of their first comma, or all.
#[tactic(auto, using(crate::proofs::Words::fronts))]
pub fn first_operand(operands: &[u8]) -> &[u8]
    ensures { result.now ≡ spec.first_operand operands.now }
{
    operands.split_at(first_length(operands)).0
}

/// What follows the first comma of operands; no text where there is none.
#[tactic(auto, using(crate::proofs::TokenTurns::lengths))]
pub fn skip_past_comma(operands: &[u8]) -> &[u8]
    ensures { result.now ≡ spec.after_comma operands.now }
{
    split_at_most(operands, first_length(operands).saturating_add(1)).1
}

/// The place after the statements that are cut from a line.
pub fn find_end_of_cuts(line: &[u8]) -> usize
    ensures place { result ≡ spec.after_cuts 0 (cuts_from line.now 0) }
    ensures within { result ≤ length line.now }
{
    let mut place = 0;
    while let Ok(Some(cut)) = next_statement(line, place) {
        place = cut.next;
    }
    place
}

/// The front of a line, if it has one statement and no more.
pub fn find_only_statement(line: &[u8]) -> Option<usize>
    ensures { result ≡ spec.only_front (cuts_from line.now 0) }
{
    match next_statement(line, 0) {
        Ok(Some(cut)) => match next_statement(line, cut.next) {
            Ok(None) => Some(0),
            _ => None,
        },
        _ => None,
    }
}

/// Whether a byte is a blank.
fn is_blank(b: u8) -> bool
    ensures { result ≡ bytes.is_blank b }
{
    b == b'\t' || b == 11 || b == 12 || b == b'\r' || b == b' '
}

/// How many letters and digits are at the front of a text.
fn word_length(text: &[u8]) -> usize
    ensures { result ≡ length (bytes.run bytes.is_name_byte text.now) }
{
    text.iter().take_while(|b| is_name_byte(**b)).count()
}

/// How many blanks are at the front of a text.
fn blank_length(text: &[u8]) -> usize
    ensures { result ≡ length (bytes.run bytes.is_blank text.now) }
{
    text.iter().take_while(|b| is_blank(**b)).count()
}

/// The letters and digits at the front of a text.
#[tactic(auto, using(crate::proofs::Words::words))]
pub fn cut_leading_word(text: &[u8]) -> &[u8]
    ensures { result.now ≡ bytes.run bytes.is_name_byte text.now }
{
    text.split_at(word_length(text)).0
}

/// What follows the letters and digits at the front of a text, and the blanks after these.
pub(crate) fn after_word(text: &[u8]) -> &[u8]
    ensures { result.now ≡ spec.after_word text.now }
{
    let rest = &text[word_length(text)..];
    &rest[blank_length(rest)..]
}

/// A statement from one of its fields on.
pub fn from_field(field: Field, text: &[u8]) -> &[u8]
    ensures { result.now ≡ spec.from_field field text.now }
{
    match field {
        Field::Label => text,
        Field::Operation => after_word(text),
        Field::Operands => after_word(after_word(text)),
    }
}

/// The operands of the statement at a place of a line; all that follows its operation, where the statement is not cut.
pub fn operands_at(line: &[u8], place: usize) -> &[u8]
    requires { place ≤ length line.now }
    ensures { result.now ≡ spec.operands_at line.now place }
{
    let rest = from_field(Field::Operands, split_at_most(line, place).1);
    match next_statement(line, place) {
        Ok(Some(cut)) => split_at_most(rest, cut.operands.to.saturating_sub(cut.operands.from)).0,
        _ => rest,
    }
}

/// Where the first statement of a line begins whose operation has no such name.
pub fn unknown_place(line: &[u8]) -> Option<usize>
    ensures place { result ≡ spec.unknown_from line.now 0 (cuts_from line.now 0) }
    ensures within { IfSome result (λ place. place ≤ length line.now) }
{
    let mut place = 0;
    while let Ok(Some(cut)) = next_statement(line, place) {
        let operation = cut_leading_word(from_field(
            Field::Operation,
            split_at_most(line, place).1,
        ));
        if find(operation).is_none() {
            return Some(place);
        }
        place = cut.next;
    }
    None
}
