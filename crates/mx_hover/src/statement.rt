//! The statement at a place of a line.

ghost use Rattle.std.specs.Prelude.{◌≡◌, option_copied};
ghost use Rattle.std.specs.List.{find};
ghost use Rattle.mx_hover.specs.Statements as spec;

use mx_slips::{SourceLine, Statement};

/// Whether a line has this number.
fn is_numbered(number: u32, line: &SourceLine) -> bool
    ensures { result ≡ spec.is_numbered number line.now }
{
    line.number == number
}

/// Whether the operands of a statement do not end before a place.
fn reaches(from: usize, statement: &Statement) -> bool
    ensures { result ≡ spec.reaches from statement.now }
{
    from <= statement.rest.from
}

/// The line of a number.
fn line_numbered(lines: &[SourceLine], number: u32) -> Option<&SourceLine>
    ensures { option_copied result ≡ find (spec.is_numbered number) lines.now }
{
    lines.iter().find(|l| is_numbered(number, l))
}

/// The first statement whose operands do not end before a place.
fn first_reaching(statements: &[Statement], from: usize) -> Option<&Statement>
    ensures { option_copied result ≡ find (spec.reaches from) statements.now }
{
    statements.iter().find(|s| reaches(from, s))
}

/// The first statement of a line whose operands do not end before a place.
fn statement_in(line: Option<&SourceLine>, from: usize) -> Option<&Statement>
    ensures { option_copied result ≡ spec.statement_in from (option_copied line.entry) }
{
    match line {
        None => None,
        Some(line) => first_reaching(line.statements.as_slice(), from),
    }
}

/// The statement of a line at a place, if there is one: the first whose operands do not end before it.
pub(crate) fn statement_at(lines: &[SourceLine], number: u32, from: usize) -> Option<&Statement>
    ensures { option_copied result ≡ spec.statement_at lines.now number from }
{
    statement_in(line_numbered(lines, number), from)
}
