//! Subroutines that call others and do not save rJ.

ghost use Rattle.std.specs.Prelude.{◌≡◌};
ghost use Rattle.std.specs.List.{list_any};
ghost use Rattle.mx_slips.specs.Returns as spec;

use crate::cases::{ends_with, starts_with_letter};
use crate::marks::{Mark, mark_of};
use crate::pieces::Piece;
use crate::sources::{SourceLine, Statement};
use crate::surveys::{Survey, Use};
use crate::tokens::Token;

/// Where a statement is.
#[derive(Clone, Copy)]
pub enum Place {
    /// In no subroutine of which something can be said.
    Outside,
    /// In a subroutine, before the calls that it makes.
    Inside,
    /// In a subroutine, after a call on this line.
    After(u32),
}

/// A name without the colon before it.
fn without_colon(name: &[u8]) -> &[u8]
    ensures { result.now ≡ spec.without_colon name.now }
{
    match name {
        [b':', rest @ ..] => rest,
        _ => name,
    }
}

/// Whether a token is the name of a label.
fn is_name_of(label: &[u8], token: &Token) -> bool
    ensures { result ≡ spec.is_name_of label.now token.now }
{
    without_colon(token.text.as_slice()) == without_colon(label)
}

/// Whether a name is that of a label, and PUSHJ has it.
fn is_call_of(label: &[u8], it: &Use) -> bool
    ensures { result ≡ spec.is_call_of label.now it.now }
{
    it.is_call && is_name_of(label, &it.token)
}

/// Whether PUSHJ has one of these names, and it is that of a label.
fn has_call(uses: &[Use], label: &[u8]) -> bool
    ensures { result ≡ list_any (spec.is_call_of label.now) uses.now }
{
    uses.iter().any(|it| is_call_of(label, it))
}

/// Whether a label is a name that is called.
fn is_called(uses: &[Use], label: &[u8]) -> bool
    ensures { result ≡ spec.is_called uses.now label.now }
{
    starts_with_letter(label) && has_call(uses, label)
}

/// Whether an operation calls a subroutine.
fn is_call(op: &[u8]) -> bool
    ensures { result ≡ spec.is_call op.now }
{
    op == b"PUSHJ".as_slice() || op == b"PUSHGO".as_slice()
}

/// Whether an operation returns from a subroutine.
fn is_pop(op: &[u8]) -> bool
    ensures { result ≡ spec.is_pop op.now }
{
    op == b"POP".as_slice()
}

/// Whether an operation keeps rJ, or goes on without it.
fn keeps_return(op: &[u8]) -> bool
    ensures { result ≡ spec.keeps_return op.now }
{
    op == b"SAVE".as_slice()
        || op == b"UNSAVE".as_slice()
        || op == b"GO".as_slice()
        || op == b"RESUME".as_slice()
}

/// Whether a token is a name that ends with this.
fn is_ending(end: &[u8], token: &Token) -> bool
    ensures { result ≡ spec.is_ending end.now token.now }
{
    ends_with(token.text.as_slice(), end)
}

/// Whether one of these tokens is a name that ends with this.
fn has_ending(end: &[u8], tokens: &[Token]) -> bool
    ensures { result ≡ spec.has_ending end.now tokens.now }
{
    tokens.iter().any(|token| is_ending(end, token))
}

/// Whether a statement may save rJ, or leads elsewhere without it.
fn may_save(statement: &Statement) -> bool
    ensures { result ≡ spec.may_save statement.now }
{
    keeps_return(statement.op.text.as_slice()) || has_ending(b"rJ", statement.tokens.as_slice())
}

/// Whether a statement is a call of Halt.
fn is_halt(statement: &Statement) -> bool
    ensures { result ≡ spec.is_halt statement.now }
{
    statement.op.text.as_slice() == b"TRAP".as_slice()
        && has_ending(b"Halt", statement.tokens.as_slice())
}

/// Whether a statement leads away for good, or may.
fn may_lead_away(statement: &Statement) -> bool
    ensures { result ≡ spec.leads_away statement.now }
{
    statement.op.text.as_slice() == b"JMP".as_slice() || is_halt(statement)
}

/// The place at a label: where it is called, a subroutine begins.
fn place_at_label(uses: &[Use], label: &Option<Piece>, place: Place) -> Place
    ensures { result ≡ spec.place_at_label uses.now label.now place }
{
    match label {
        Some(label) if is_called(uses, label.text.as_slice()) => Place::Inside,
        _ => place,
    }
}

/// The place after a call on the line with this number.
fn place_after_call(number: u32, place: Place) -> Place
    ensures { result ≡ spec.place_after_call number place }
{
    match place {
        Place::Inside => Place::After(number),
        other => other,
    }
}

/// The place after a jump, or a halt.
fn place_after_jump(place: Place) -> Place
    ensures { result ≡ spec.place_after_jump place }
{
    match place {
        Place::After(_) => Place::Outside,
        other => other,
    }
}

/// The place after a statement of the line with this number, whose label has been passed.
fn place_by(number: u32, statement: &Statement, place: Place) -> Place
    ensures { result ≡ spec.place_by number statement.now place }
{
    let op = statement.op.text.as_slice();
    if may_save(statement) || is_pop(op) {
        Place::Outside
    } else if is_call(op) {
        place_after_call(number, place)
    } else if may_lead_away(statement) {
        place_after_jump(place)
    } else {
        place
    }
}

/// The place after a statement of the line with this number.
#[tactic(auto, unfolding(crate::specs::Returns::place_after))]
pub fn place_after(uses: &[Use], number: u32, statement: &Statement, place: Place) -> Place
    ensures { result ≡ spec.place_after uses.now number statement.now place }
{
    place_by(
        number,
        statement,
        place_at_label(uses, &statement.label, place),
    )
}

/// Whether a statement is UNSAVE.
fn is_unsave(statement: &Statement) -> bool
    ensures { result ≡ spec.is_unsave statement.now }
{
    statement.op.text.as_slice() == b"UNSAVE".as_slice()
}

/// Whether a line has UNSAVE.
fn has_unsave(line: &SourceLine) -> bool
    ensures { result ≡ spec.line_unsaves line.now }
{
    let statements = line.statements.as_slice();
    statements.iter().any(|statement| is_unsave(statement))
}

/// Whether one of these lines has UNSAVE.
fn have_unsave(lines: &[SourceLine]) -> bool
    ensures { result ≡ list_any spec.line_unsaves lines.now }
{
    lines.iter().any(|line| has_unsave(line))
}

/// The operation of a statement that comes after a call, with the line of this.
fn call_mark(statement: &Statement, place: Place) -> Option<Mark>
    ensures { result ≡ spec.call_mark statement.now place }
{
    match place {
        Place::After(number) => {
            let op = &statement.op;
            Some(mark_of(op.from, op.text.as_slice(), number))
        }
        _ => None,
    }
}

/// A POP of a subroutine that calls another one and does not save rJ, with the line of the call.
#[tactic(auto, unfolding(crate::specs::Returns::lost_return))]
pub fn find_lost_return(survey: &Survey, statement: &Statement, place: Place) -> Option<Mark>
    ensures { result ≡ spec.lost_return survey.now statement.now place }
{
    if !is_pop(statement.op.text.as_slice()) {
        return None;
    }
    let place = place_at_label(survey.uses.as_slice(), &statement.label, place);
    match call_mark(statement, place) {
        Some(mark) if !have_unsave(survey.lines.as_slice()) => Some(mark),
        _ => None,
    }
}
