//! Labels that are never used, but for the case of their letters.

ghost use Rattle.std.specs.Prelude.{◌≡◌, Some};
ghost use Rattle.std.specs.Str.{str_eq_ignore_ascii_case};
ghost use Rattle.mx_slips.specs.Cases as spec;

use crate::marks::{Mark, mark_of};
use crate::pieces::{Piece, drop_front};
use crate::sources::{SourceLine, Statement};
use crate::surveys::{Survey, Use};
use crate::tokens::Token;
use mx_word::is_letter;

/// Whether a text ends with another one.
pub(crate) fn ends_with(text: &[u8], end: &[u8]) -> bool
    ensures { result ≡ spec.ends_with text.now end.now }
{
    drop_front(text, text.len().saturating_sub(end.len())) == end
}

/// Whether two texts differ in the case of their letters alone, or not at all.
#[tactic(auto, using(crate::proofs::CaseTests::tests))]
fn is_same_letters(one: &[u8], other: &[u8]) -> bool
    ensures { result ≡ str_eq_ignore_ascii_case one.now other.now }
{
    one.eq_ignore_ascii_case(other)
}

/// Whether a name uses a label.
fn is_use(label: &[u8], it: &Use) -> bool
    ensures { result ≡ spec.is_use_of label.now it.now }
{
    ends_with(it.token.text.as_slice(), label)
}

/// Whether a token is a label in another case.
fn is_other_case(label: &[u8], token: &Token) -> bool
    ensures { result ≡ spec.is_other_case label.now token.now }
{
    !token.is_predefined && is_same_letters(token.text.as_slice(), label)
}

/// Whether a token uses a label.
fn is_label_of(token: &Token, label: &Option<Piece>) -> bool
    ensures { result ≡ spec.is_label_of token.now label.now }
{
    match label {
        None => false,
        Some(label) => ends_with(token.text.as_slice(), label.text.as_slice()),
    }
}

/// Whether a line has a label that a token uses.
fn is_defined_in_line(token: &Token, line: &SourceLine) -> bool
    ensures { result ≡ spec.line_defines token.now line.now }
{
    let statements = line.statements.as_slice();
    statements.iter().any(|s| is_label_of(token, &s.label))
}

/// Whether one of these lines has a label that a token uses.
fn is_defined(lines: &[SourceLine], token: &Token) -> bool
    ensures { result ≡ spec.is_defined lines.now token.now }
{
    lines.iter().any(|line| is_defined_in_line(token, line))
}

/// Whether a token is a label in another case, and is not defined.
fn is_misspelled(lines: &[SourceLine], label: &[u8], token: &Token) -> bool
    ensures { result ≡ spec.is_misspelled lines.now label.now token.now }
{
    is_other_case(label, token) && !is_defined(lines, token)
}

/// Whether a name is a label in another case that is not defined.
fn differs_from(lines: &[SourceLine], label: &[u8], it: &Use) -> bool
    ensures { result ≡ spec.differs_from lines.now label.now it.now }
{
    is_misspelled(lines, label, &it.token)
}

/// Whether a text begins with a letter.
pub(crate) fn starts_with_letter(text: &[u8]) -> bool
    ensures { result ≡ spec.begins_letter text.now }
{
    match text {
        [] => false,
        [b, ..] => is_letter(*b),
    }
}

/// Whether a label is a name, and not the beginning of the program.
fn is_named(label: &[u8]) -> bool
    ensures { result ≡ spec.is_named label.now }
{
    starts_with_letter(label) && !ends_with(label, b"Main")
}

/// Whether one of these names uses a label.
fn is_used(uses: &[Use], label: &[u8]) -> bool
    ensures { result ≡ spec.is_used uses.now label.now }
{
    uses.iter().any(|it| is_use(label, it))
}

/// Whether none of these names uses a label.
fn is_unused(uses: &[Use], label: &[u8]) -> bool
    ensures { result ≡ spec.is_unused uses.now label.now }
{
    is_named(label) && !is_used(uses, label)
}

/// The number of the first line that has a label in another case that is not defined.
#[tactic(auto, unfolding(crate::specs::Cases::other_line))]
fn other_line(survey: &Survey, label: &[u8]) -> Option<u32>
    ensures { result ≡ spec.other_line survey.now label.now }
{
    let lines = survey.lines.as_slice();
    let uses = survey.uses.as_slice();
    match uses.iter().find(|it| differs_from(lines, label, it)) {
        Some(it) => Some(it.line),
        None => None,
    }
}

/// A label that is not used, if a name that differs from it in case alone is used and not defined.
fn label_case(survey: &Survey, label: &Piece) -> Option<Mark>
    ensures { result ≡ spec.label_case survey.now (Some label.now) }
{
    let text = label.text.as_slice();
    if !is_unused(survey.uses.as_slice(), text) {
        return None;
    }
    match other_line(survey, text) {
        Some(number) => Some(mark_of(label.from, text, number)),
        None => None,
    }
}

/// The label of a statement, if it is not used, and a name that differs from it in case
/// alone is used and not defined.
#[tactic(auto, unfolding(crate::specs::Cases::other_case))]
pub fn find_other_case(survey: &Survey, statement: &Statement) -> Option<Mark>
    ensures { result ≡ spec.other_case survey.now statement.now }
{
    match &statement.label {
        None => None,
        Some(label) => label_case(survey, label),
    }
}
