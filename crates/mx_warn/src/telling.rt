//! The warnings of a source.

ghost use Rattle.std.specs.Prelude.{◌≡◌, ◌++◌, IfOk, OnOk};
ghost use Rattle.std.specs.Result.{is_ok};
ghost use Rattle.mx_files.specs.Sources.{source_meaning};
ghost use Rattle.mx_slips.specs.Returns.{place_after};
ghost use Rattle.mx_warn.specs.Warnings as spec;

use crate::ends::data_after_code;
use crate::locals::find_missing_label;
use crate::overlaps::find_placed_twice;
use crate::stops::{find_endless_jump, find_float};
use crate::traps::find_trap_operand;
use crate::unused_bases::find_unused_base;
use crate::warnings::{Kind, Warning, Warnings};
use crate::widths::find_narrow_label;
use mx_slips::{
    Mark, Place, SourceLine, Statement, Survey, collect_lines_of, find_backslash, find_lost_return,
    find_operator_after_blank, find_other_case, find_zero_greg, is_accepted, place_after,
    survey_lines,
};
use mx_word::{Bytes, NoMemory};
use std::alloc::Global;

/// The most bytes of a source that has warnings.
const MOST_BYTES: usize = 16_384;

/// Adds a warning of a line, if there is something to mark.
fn add_marked(
    alloc: Global,
    told: &mut Warnings,
    line: &SourceLine,
    kind: Kind,
    mark: Option<Mark>,
) -> Result<(), NoMemory>
    ensures { OnOk result (told.new ≡ told.old ++ spec.marked line.now kind mark) }
{
    let Some(mark) = mark else {
        return Ok(());
    };
    let text = Bytes::copy(alloc, line.text.as_slice())?;
    told.push(Warning {
        line: line.number,
        kind,
        text,
        place: mark.place,
        length: mark.length,
        other: mark.other,
    })
}

/// Adds the warnings of a statement that a run does not get past, or that loads or stores something else than is meant.
#[tactic(auto, unfolding(crate::specs::Warnings::run_warnings))]
fn add_run(
    alloc: Global,
    told: &mut Warnings,
    lines: &[SourceLine],
    line: &SourceLine,
    statement: &Statement,
) -> Result<(), NoMemory>
    ensures { OnOk result (
        told.new ≡ told.old ++ spec.run_warnings lines.now line.now statement.now) }
{
    let operand = find_trap_operand(statement);
    add_marked(alloc, told, line, Kind::TrapOperands, operand)?;
    let target = find_endless_jump(statement);
    add_marked(alloc, told, line, Kind::EndlessJump, target)?;
    let float = find_float(statement);
    add_marked(alloc, told, line, Kind::FloatInstruction, float)?;
    let label = find_narrow_label(lines, statement);
    add_marked(alloc, told, line, Kind::NarrowLabel, label)
}

/// Adds the warnings of a statement of a line.
#[tactic(auto, unfolding(crate::specs::Warnings::statement_warnings))]
fn add_statement(
    alloc: Global,
    told: &mut Warnings,
    survey: &Survey,
    line: &SourceLine,
    place: Place,
    statement: &Statement,
) -> Result<(), NoMemory>
    ensures { OnOk result (
        told.new ≡ told.old ++ spec.statement_warnings survey.now line.now place statement.now) }
{
    let after = find_operator_after_blank(statement);
    add_marked(alloc, told, line, Kind::OperatorAfterBlank, after)?;
    let string = find_backslash(statement);
    add_marked(alloc, told, line, Kind::BackslashInString, string)?;
    let lines = survey.lines.as_slice();
    let local = find_missing_label(lines, line.number, statement);
    add_marked(alloc, told, line, Kind::NoLabelBefore, local)?;
    let greg = find_zero_greg(lines, line, statement);
    add_marked(alloc, told, line, Kind::GregOfZero, greg)?;
    let case = find_other_case(survey, statement);
    add_marked(alloc, told, line, Kind::OtherCase, case)?;
    let pop = find_lost_return(survey, statement, place);
    add_marked(alloc, told, line, Kind::LostReturn, pop)?;
    add_run(alloc, told, lines, line, statement)
}

/// The place after a statement of the line with this number.
fn next_place(survey: &Survey, number: u32, statement: &Statement, place: Place) -> Place
    ensures { result ≡ place_after survey.now.uses number statement.now place }
{
    place_after(survey.uses.as_slice(), number, statement, place)
}

/// Adds the warnings of the statements of a line, and gives the place after them.
fn add_statements(
    alloc: Global,
    told: &mut Warnings,
    survey: &Survey,
    line: &SourceLine,
    place: Place,
) -> Result<Place, NoMemory>
    ensures told { OnOk result (
        told.new ≡ told.old ++ spec.statements_warnings survey.now line.now place line.now.statements) }
    ensures place { IfOk result (λ after. after ≡
        spec.place_through survey.now line.now.number place line.now.statements) }
{
    let mut current = place;
    let mut rest = line.statements.as_slice();
    while let [statement, more @ ..] = rest {
        add_statement(alloc, told, survey, line, current, statement)?;
        current = next_place(survey, line.number, statement, current);
        rest = more;
    }
    Ok(current)
}

/// Adds the warnings of what a line loads.
#[tactic(auto, unfolding(crate::specs::Warnings::load_warnings))]
fn add_loads(
    alloc: Global,
    told: &mut Warnings,
    survey: &Survey,
    line: &SourceLine,
) -> Result<(), NoMemory>
    ensures { OnOk result (told.new ≡ told.old ++ spec.load_warnings survey.now line.now) }
{
    let lines = survey.lines.as_slice();
    let twice = find_placed_twice(lines, line);
    add_marked(alloc, told, line, Kind::PlacedTwice, twice)?;
    let base = find_unused_base(alloc, lines, line)?;
    add_marked(alloc, told, line, Kind::UnusedBase, base)?;
    let data = data_after_code(lines, line);
    add_marked(alloc, told, line, Kind::DataAfterCode, data)
}

/// Adds the warnings of a line, and gives the place after it.
#[tactic(auto, unfolding(crate::specs::Warnings::line_warnings))]
fn add_line(
    alloc: Global,
    told: &mut Warnings,
    survey: &Survey,
    line: &SourceLine,
    place: Place,
) -> Result<Place, NoMemory>
    ensures told { OnOk result (told.new ≡ told.old ++ spec.line_warnings survey.now place line.now) }
    ensures place { IfOk result (λ after. after ≡
        spec.place_through survey.now line.now.number place line.now.statements) }
{
    let after = add_statements(alloc, told, survey, line, place)?;
    add_loads(alloc, told, survey, line)?;
    Ok(after)
}

/// Adds the warnings of all lines.
fn add_lines(alloc: Global, told: &mut Warnings, survey: &Survey) -> Result<(), NoMemory>
    ensures { OnOk result (told.new ≡ told.old ++ spec.all_warnings survey.now) }
{
    let mut place = Place::Outside;
    let mut rest = survey.lines.as_slice();
    while let [line, later @ ..] = rest {
        place = add_line(alloc, told, survey, line, place)?;
        rest = later;
    }
    Ok(())
}

/// The warnings of a source of which it is known whether it is refused.
///
/// Errors: out of memory.
pub fn tell_warnings_of(
    alloc: Global,
    is_accepted: bool,
    source: &[u8],
) -> Result<Warnings, NoMemory>
    requires { is_accepted ≡ is_ok (source_meaning source.now) }
    ensures { IfOk result (λ told. told ≡ spec.warnings_of source.now) }
{
    let mut told = Warnings::new(alloc);
    if source.len() > MOST_BYTES {
        return Ok(told);
    }
    let lines = collect_lines_of(alloc, is_accepted, source)?;
    let survey = survey_lines(alloc, lines)?;
    add_lines(alloc, &mut told, &survey)?;
    Ok(told)
}

/// The warnings of a source, in the order of lines: what is legal but probably not intended. A source of more than 16,384 bytes has
/// none.
///
/// Errors: out of memory.
pub fn tell_warnings(alloc: Global, source: &[u8]) -> Result<Warnings, NoMemory>
    ensures { IfOk result (λ told. told ≡ spec.warnings_of source.now) }
{
    if source.len() > MOST_BYTES {
        return Ok(Warnings::new(alloc));
    }
    let is_accepted = is_accepted(alloc, source)?;
    tell_warnings_of(alloc, is_accepted, source)
}
