//! GREG that makes a register of 0 where a base was meant.

ghost use Rattle.std.specs.Prelude.{◌≡◌, drop};
ghost use Rattle.std.specs.List.{list_any};
ghost use Rattle.std.specs.Option.{option_map};
ghost use Rattle.mx_slips.specs.Bases as spec;

use crate::marks::{Mark, mark_of};
use crate::operations::is_data_operation;
use crate::pieces::Piece;
use crate::sources::{SourceLine, Statement};
use crate::tokens::Token;

/// Whether a statement is GREG.
pub fn is_greg(statement: &Statement) -> bool
    ensures { result ≡ spec.is_greg statement.now }
{
    statement.op.text.as_slice() == b"GREG".as_slice()
}

/// Whether there is no operand, or 0.
fn is_zero(tokens: &[Token]) -> bool
    ensures { result ≡ spec.is_zero tokens.now }
{
    match tokens {
        [] => true,
        [token] => token.text.as_slice() == b"0".as_slice(),
        _ => false,
    }
}

/// Whether a statement is GREG without a label and without an operand but 0.
fn is_bare_greg(statement: &Statement) -> bool
    ensures { result ≡ spec.is_bare_greg statement.now }
{
    is_greg(statement) && statement.label.is_none() && is_zero(statement.tokens.as_slice())
}

/// Whether a line has a statement and comes after the one with this number.
fn is_statement_after(number: u32, line: &SourceLine) -> bool
    ensures { result ≡ spec.is_statement_after number line.now }
{
    match line.statements.as_slice() {
        [] => false,
        _ => number < line.number,
    }
}

/// Whether the first of statements is data with a label.
fn starts_with_data(statements: &[Statement]) -> bool
    ensures { result ≡ spec.begins_data statements.now }
{
    match statements {
        [] => false,
        [first, ..] => is_data_operation(first.op.text.as_slice()) && first.label.is_some(),
    }
}

/// The first line with a statement after the one with this number.
fn next_line(lines: &[SourceLine], number: u32) -> Option<&SourceLine>
    ensures { option_map (λ line. line.now) result ≡ spec.next_line lines.now number }
{
    lines.iter().find(|line| is_statement_after(number, line))
}

/// Whether the statement after the line with this number is data with a label.
fn is_before_data(lines: &[SourceLine], number: u32) -> bool
    ensures { result ≡ spec.is_before_data (spec.next_line lines.now number) }
{
    match next_line(lines, number) {
        Some(line) => starts_with_data(line.statements.as_slice()),
        None => false,
    }
}

/// Whether a statement is a bare GREG before data.
fn precedes_data(lines: &[SourceLine], number: u32, statement: &Statement) -> bool
    ensures { result ≡ spec.precedes_data lines.now number statement.now }
{
    is_bare_greg(statement) && is_before_data(lines, number)
}

/// Whether the first of tokens is this name.
fn is_first_token(name: &[u8], tokens: &[Token]) -> bool
    ensures { result ≡ spec.first_is name.now tokens.now }
{
    match tokens {
        [] => false,
        [first, ..] => first.text.as_slice() == name,
    }
}

/// Whether a line has a statement whose first operand is this name.
fn is_set_in_line(name: &[u8], line: &SourceLine) -> bool
    ensures { result ≡ spec.line_sets name.now line.now }
{
    let statements = line.statements.as_slice();
    statements.iter().any(|statement| is_first_token(name, statement.tokens.as_slice()))
}

/// Whether one of these lines has such a statement.
fn is_set_in_lines(lines: &[SourceLine], name: &[u8]) -> bool
    ensures { result ≡ list_any (spec.line_sets name.now) lines.now }
{
    lines.iter().any(|line| is_set_in_line(name, line))
}

/// Whether tokens begin with a comma and this name.
fn is_second_operand(name: &[u8], tokens: &[Token]) -> bool
    ensures { result ≡ spec.second_is name.now tokens.now }
{
    match tokens {
        [comma, second, ..] => {
            comma.text.as_slice() == b",".as_slice() && second.text.as_slice() == name
        }
        _ => false,
    }
}

/// Tokens without the first one.
fn without_first(tokens: &[Token]) -> &[Token]
    ensures { result.now ≡ drop 1 tokens.now }
{
    match tokens {
        [] => &[],
        [_, more @ ..] => more,
    }
}

/// Whether the second operand is this name, and the first one is one token, or `$` and a number.
fn is_based(name: &[u8], tokens: &[Token]) -> bool
    ensures { result ≡ spec.is_based name.now tokens.now }
{
    match tokens {
        [] => false,
        [_, more @ ..] => is_second_operand(name, more)
            || is_second_operand(name, without_first(more)),
    }
}

/// Whether an operation is a load or a store, by its first letters.
fn is_access(op: &[u8]) -> bool
    ensures { result ≡ spec.is_access op.now }
{
    match op {
        [a, b, ..] => (*a == b'L' && *b == b'D') || (*a == b'S' && *b == b'T'),
        _ => false,
    }
}

/// Whether a statement loads or stores with this base.
fn is_base_of(name: &[u8], statement: &Statement) -> bool
    ensures { result ≡ spec.bases name.now statement.now }
{
    is_access(statement.op.text.as_slice()) && is_based(name, statement.tokens.as_slice())
}

/// Whether a line has such a statement.
fn is_base_in_line(name: &[u8], line: &SourceLine) -> bool
    ensures { result ≡ spec.line_bases name.now line.now }
{
    let statements = line.statements.as_slice();
    statements
        .iter()
        .any(|statement| is_base_of(name, statement))
}

/// Whether one of these lines has such a statement.
fn is_base_in_lines(lines: &[SourceLine], name: &[u8]) -> bool
    ensures { result ≡ list_any (spec.line_bases name.now) lines.now }
{
    lines.iter().any(|line| is_base_in_line(name, line))
}

/// Whether the register of a label is a base and gets no value.
fn is_zero_base(lines: &[SourceLine], label: &Option<Piece>) -> bool
    ensures { result ≡ spec.is_zero_base lines.now label.now }
{
    match label {
        None => false,
        Some(label) => {
            let name = label.text.as_slice();
            is_base_in_lines(lines, name) && !is_set_in_lines(lines, name)
        }
    }
}

/// Whether a GREG without an operand makes a register that is a base and gets no value.
fn makes_zero_base(lines: &[SourceLine], statement: &Statement) -> bool
    ensures { result ≡ spec.makes_zero_base lines.now statement.now }
{
    is_greg(statement)
        && statement.tokens.as_slice().is_empty()
        && is_zero_base(lines, &statement.label)
}

/// A GREG that makes a register of 0 where a base was meant.
#[tactic(auto, unfolding(crate::specs::Bases::greg_of_zero))]
pub fn find_zero_greg(
    lines: &[SourceLine],
    line: &SourceLine,
    statement: &Statement,
) -> Option<Mark>
    ensures { result ≡ spec.greg_of_zero lines.now line.now statement.now }
{
    if precedes_data(lines, line.number, statement) || makes_zero_base(lines, statement) {
        Some(mark_of(statement.op.from, statement.op.text.as_slice(), 0))
    } else {
        None
    }
}
