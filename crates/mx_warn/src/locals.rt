//! Local labels with no label before them.

ghost use Rattle.std.specs.Prelude.{◌≡◌};
ghost use Rattle.std.specs.List.{list_any};
ghost use Rattle.mx_warn.specs.Locals as spec;

use mx_slips::{Mark, Piece, SourceLine, Statement, Token, mark_of};
use mx_word::is_digit;

/// The digit d of `dB`.
fn back_digit(text: &[u8]) -> Option<u8>
    ensures { result ≡ spec.back_digit text.now }
{
    match text {
        [d, b'B'] if is_digit(*d) => Some(*d),
        _ => None,
    }
}

/// Whether a text is `dH`.
fn is_local(d: u8, text: &[u8]) -> bool
    ensures { result ≡ spec.is_local d text.now }
{
    match text {
        [e, b] => *e == d && *b == b'H',
        _ => false,
    }
}

/// Whether a label is `dH`.
fn has_local(d: u8, label: &Option<Piece>) -> bool
    ensures { result ≡ spec.has_local d label.now }
{
    match label {
        None => false,
        Some(label) => is_local(d, label.text.as_slice()),
    }
}

/// Whether a statement of a line has the label `dH`.
fn has_local_label(d: u8, line: &SourceLine) -> bool
    ensures { result ≡ spec.line_has d line.now }
{
    let statements = line.statements.as_slice();
    statements.iter().any(|s| has_local(d, &s.label))
}

/// Whether a statement of a line before this place has the label `dH`.
fn has_local_label_before(d: u8, place: usize, line: &SourceLine) -> bool
    ensures { result ≡ spec.line_has_before d place line.now }
{
    let statements = line.statements.as_slice();
    statements
        .iter()
        .any(|s| s.op.from < place && has_local(d, &s.label))
}

/// Whether a line has the label `dH` before a place of the line with this number.
fn is_label_before(d: u8, number: u32, place: usize, line: &SourceLine) -> bool
    ensures { result ≡ spec.comes_before d number place line.now }
{
    if line.number < number {
        has_local_label(d, line)
    } else {
        line.number == number && has_local_label_before(d, place, line)
    }
}

/// Whether lines have the label `dH` before a place of the line with this number.
fn is_placed(d: u8, lines: &[SourceLine], number: u32, place: usize) -> bool
    ensures { result ≡ list_any (spec.comes_before d number place) lines.now }
{
    lines
        .iter()
        .any(|line| is_label_before(d, number, place, line))
}

/// Whether a token is `dB` with no `dH` before it.
fn is_unplaced(lines: &[SourceLine], number: u32, place: usize, token: &Token) -> bool
    ensures { result ≡ spec.is_unplaced lines.now number place token.now }
{
    match back_digit(token.text.as_slice()) {
        None => false,
        Some(d) => !is_placed(d, lines, number, place),
    }
}

/// The first `dB` of a statement on the line with this number, with no `dH` before the statement.
#[tactic(auto, unfolding(crate::specs::Locals::no_label_before))]
pub fn find_missing_label(lines: &[SourceLine], number: u32, statement: &Statement) -> Option<Mark>
    ensures { result ≡ spec.no_label_before lines.now number statement.now }
{
    let tokens = statement.tokens.as_slice();
    let place = statement.op.from;
    match tokens
        .iter()
        .find(|token| is_unplaced(lines, number, place, token))
    {
        Some(token) => Some(mark_of(token.from, token.text.as_slice(), 0)),
        None => None,
    }
}
