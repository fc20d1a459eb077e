//! The names of statements, lines and sources.

ghost use Rattle.std.specs.Prelude.{◌≡◌, ◌++◌, IfOk, OnOk};
ghost use Rattle.std.specs.List.{flat_map};
ghost use Rattle.mx_occurrences.specs.Occurrences as spec;

use crate::course::{Course, is_prefix, label_named, pass_label, pass_prefix, start, token_named};
use crate::occurrence::{Occurrences, make_occurrence};
use mx_slips::{SourceLine, Statement, Token, read_lines};
use mx_word::{Bytes, NoMemory};
use std::alloc::Global;

/// Adds the label of a statement, if it has one.
fn add_label(
    alloc: Global,
    out: &mut Occurrences,
    course: &Course,
    line: u32,
    statement: &Statement,
) -> Result<(), NoMemory>
    ensures { OnOk result (out.new ≡ out.old ++ spec.in_label course.now line statement.now) }
{
    let Some(label) = &statement.label else {
        return Ok(());
    };
    let text = label.text.as_slice();
    let named = label_named(alloc, course, text)?;
    out.push(make_occurrence(alloc, line, label.from, text, true, named)?)
}

/// Adds a token, if it is a name.
fn add_token(
    alloc: Global,
    out: &mut Occurrences,
    before: &Course,
    course: &Course,
    line: u32,
    token: &Token,
) -> Result<(), NoMemory>
    ensures { OnOk result (out.new ≡ out.old ++ spec.in_token before.now course.now line token.now) }
{
    let text = token.text.as_slice();
    match token_named(alloc, before, course, text)? {
        None => Ok(()),
        Some(named) => out.push(make_occurrence(alloc, line, token.from, text, false, named)?),
    }
}

/// Adds the names of operands.
fn add_tokens(
    alloc: Global,
    out: &mut Occurrences,
    before: &Course,
    course: &Course,
    line: u32,
    tokens: &[Token],
) -> Result<(), NoMemory>
    ensures { OnOk result (out.new
        ≡ out.old ++ flat_map (spec.in_token before.now course.now line) tokens.now) }
{
    for token in tokens {
        add_token(alloc, out, before, course, line, token)?;
    }
    Ok(())
}

/// Adds the names of the operands of a statement; the operand of PREFIX names no symbol.
fn add_operands(
    alloc: Global,
    out: &mut Occurrences,
    before: &Course,
    course: &Course,
    line: u32,
    statement: &Statement,
) -> Result<(), NoMemory>
    ensures { OnOk result (out.new
        ≡ out.old ++ spec.in_operands before.now course.now line statement.now) }
{
    if is_prefix(statement) {
        return Ok(());
    }
    add_tokens(
        alloc,
        out,
        before,
        course,
        line,
        statement.tokens.as_slice(),
    )
}

/// The course with its own copy of the prefix.
fn copy_of(alloc: Global, course: &Course) -> Result<Course, NoMemory>
    ensures { IfOk result (λ copy. copy ≡ course.now) }
{
    Ok(Course {
        prefix: Bytes::copy(alloc, course.prefix.as_slice())?,
        counts: course.counts,
    })
}

/// Adds the names of a statement, and gives what has come after it.
fn add_statement(
    alloc: Global,
    out: &mut Occurrences,
    before: &Course,
    line: u32,
    statement: &Statement,
) -> Result<Course, NoMemory>
    ensures names { IfOk result (λ _. out.new ≡ out.old ++ spec.in_statement before.now line statement.now) }
    ensures course { IfOk result (λ course. course ≡ spec.course_after before.now statement.now) }
{
    let mut course = copy_of(alloc, before)?;
    pass_label(&mut course, statement);
    add_label(alloc, out, &course, line, statement)?;
    add_operands(alloc, out, before, &course, line, statement)?;
    pass_prefix(alloc, &mut course, statement)?;
    Ok(course)
}

/// Adds the names of statements, and gives what has come after them.
#[tactic(auto, using(crate::proofs::NameTurns::turns), unfolding(crate::specs::Occurrences::in_statements, crate::specs::Occurrences::course_through))]
fn add_statements(
    alloc: Global,
    out: &mut Occurrences,
    before: Course,
    line: u32,
    statements: &[Statement],
) -> Result<Course, NoMemory>
    ensures names { IfOk result (λ _. out.new ≡ out.old ++ spec.in_statements before line statements.now) }
    ensures course { IfOk result (λ course. course ≡ spec.course_through before statements.now) }
{
    let mut course = before;
    let mut rest = statements;
    while let [statement, more @ ..] = rest {
        course = add_statement(alloc, out, &course, line, statement)?;
        rest = more;
    }
    Ok(course)
}

/// Adds the names of lines.
#[tactic(auto, using(crate::proofs::NameTurns::turns), unfolding(crate::specs::Occurrences::in_lines))]
fn add_lines(
    alloc: Global,
    out: &mut Occurrences,
    before: Course,
    lines: &[SourceLine],
) -> Result<(), NoMemory>
    ensures { OnOk result (out.new ≡ out.old ++ spec.in_lines before lines.now) }
{
    let mut course = before;
    let mut rest = lines;
    while let [line, more @ ..] = rest {
        course = add_statements(alloc, out, course, line.number, line.statements.as_slice())?;
        rest = more;
    }
    Ok(())
}

/// The names of lines in their places, in order.
pub fn occurrences_in(alloc: Global, lines: &[SourceLine]) -> Result<Occurrences, NoMemory>
    ensures { IfOk result (λ names. names ≡ spec.occurrences_in lines.now) }
{
    let mut names = Occurrences::new(alloc);
    add_lines(alloc, &mut names, start(alloc)?, lines)?;
    Ok(names)
}

/// The names of a source in their places, in order. A line has none from its first faulty statement on.
pub fn occurrences(alloc: Global, source: &[u8]) -> Result<Occurrences, NoMemory>
    ensures { IfOk result (λ names. names ≡ spec.occurrences_of source.now) }
{
    let lines = read_lines(alloc, source)?;
    occurrences_in(alloc, lines.as_slice())
}
