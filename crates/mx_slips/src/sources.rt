//! A source as its warnings see it: its lines and their statements.

ghost use Rattle.std.specs.Prelude.{◌≡◌, ◌+◌, option_map, IfOk};
ghost use Rattle.std.specs.Result.{is_ok};
ghost use Rattle.mx_files.specs.Sources.{source_meaning};
ghost use Rattle.mx_line.specs.Cutting.{cuts_from};
ghost use Rattle.mx_line.specs.Lines.{lines_of};
ghost use Rattle.mx_slips.specs.Sources as spec;
ghost use Rattle.mx_slips.specs.Tokens.{piece_at};

use crate::pieces::{Piece, drop_front, piece_at, take_front};
use crate::tetras::{copy_cells, first_cells, is_accepted, later_cells, loads_if};
use crate::tokens::{Tokens, tokens_of};
use mx_line::{Cut, Span, cut_line, next_statement};
use mx_view::Cell;
use mx_word::{Bytes, NoMemory, Sequence};
use std::alloc::Global;

/// A statement: its label, if it has one, its operation, the tokens of its operand field, and what follows this field on
/// the line.
#[derive(Drop)]
pub struct Statement {
    pub label: Option<Piece>,
    pub op: Piece,
    pub tokens: Tokens,
    pub rest: Piece,
}

/// A list of statements.
pub type Statements = Sequence<Statement>;

/// A line of a source: its number, which is counted from 1, its text without the newline, its statements, and the tetras
/// that it loads, which are none where the source is refused.
#[derive(Drop)]
pub struct SourceLine {
    pub number: u32,
    pub text: Bytes,
    pub statements: Statements,
    pub cells: Sequence<Cell>,
}

/// A list of lines.
pub type SourceLines = Sequence<SourceLine>;

/// The label of a statement, if it has one.
fn label_at(alloc: Global, line: &[u8], span: Option<Span>) -> Result<Option<Piece>, NoMemory>
    ensures { IfOk result (λ label. label ≡ option_map (piece_at line.now) span) }
{
    match span {
        None => Ok(None),
        Some(span) => Ok(Some(piece_at(alloc, line, span)?)),
    }
}

/// The tokens of the operand field of a statement.
fn tokens_at(alloc: Global, line: &[u8], span: Span) -> Result<Tokens, NoMemory>
    ensures { IfOk result (λ tokens. tokens ≡ spec.tokens_at line.now span) }
{
    let field = drop_front(line, span.from);
    tokens_of(
        alloc,
        span.to,
        take_front(field, span.to.saturating_sub(span.from)),
    )
}

/// The statement that is cut from a line.
fn statement_at(alloc: Global, line: &[u8], cut: &Cut) -> Result<Statement, NoMemory>
    ensures { IfOk result (λ statement. statement ≡ spec.statement_at line.now cut.now) }
{
    let label = label_at(alloc, line, cut.label)?;
    let op = piece_at(alloc, line, cut.op)?;
    let tokens = tokens_at(alloc, line, cut.operands)?;
    let rest = Piece {
        from: cut.operands.to,
        text: Bytes::copy(alloc, drop_front(line, cut.operands.to))?,
    };
    Ok(Statement {
        label,
        op,
        tokens,
        rest,
    })
}

/// The statements of a line.
#[tactic(auto, using(crate::proofs::SourceTurns::statements))]
fn statements_in(alloc: Global, line: &[u8]) -> Result<Statements, NoMemory>
    ensures { IfOk result (λ statements. statements ≡ spec.statements_in line.now (cuts_from line.now 0)) }
{
    let mut statements = Statements::new(alloc);
    let mut place = 0;
    'statements: loop {
        match next_statement(line, place) {
            Ok(None) => return Ok(statements),
            Err(_) => return Ok(statements),
            Ok(Some(cut)) => {
                let statement = statement_at(alloc, line, &cut)?;
                statements.push(statement)?;
                place = cut.next;
            }
        }
    }
}

/// A line with its number and the tetras that it loads.
fn line_with(
    alloc: Global,
    number: u32,
    cells: &[Cell],
    line: &[u8],
) -> Result<SourceLine, NoMemory>
    ensures { IfOk result (λ read. read ≡ spec.line_with number cells.now line.now) }
{
    let text = Bytes::copy(alloc, line)?;
    let cells = copy_cells(alloc, cells)?;
    let statements = statements_in(alloc, line)?;
    Ok(SourceLine {
        number,
        text,
        statements,
        cells,
    })
}

/// The number of the next line; out of memory where there is none, which no source is long enough for.
fn next_number(number: u32) -> Result<u32, NoMemory>
    ensures { IfOk result (λ next. next ≡ number + 1) }
{
    match number.checked_add(1) {
        Some(next) => Ok(next),
        None => Err(NoMemory),
    }
}

/// The lines of a source that loads these tetras.
#[tactic(auto, using(crate::proofs::SourceTurns::lines))]
fn find_loaded_lines(
    alloc: Global,
    loads: &[Sequence<Cell>],
    source: &[u8],
) -> Result<SourceLines, NoMemory>
    ensures { IfOk result (λ lines. lines ≡ spec.numbered_from 1 loads.now (lines_of source.now)) }
{
    let mut lines = SourceLines::new(alloc);
    let mut rest = source;
    let mut left = loads;
    let mut number = 1u32;
    while !rest.is_empty() {
        let (text, others) = cut_line(rest);
        let line = line_with(alloc, number, first_cells(left), text)?;
        lines.push(line)?;
        number = next_number(number)?;
        left = later_cells(left);
        rest = others;
    }
    Ok(lines)
}

/// The lines of a source with their statements, as if they loaded nothing: no source is assembled for them.
pub fn read_lines(alloc: Global, source: &[u8]) -> Result<SourceLines, NoMemory>
    ensures { IfOk result (λ lines. lines ≡ spec.unloaded_lines source.now) }
{
    find_loaded_lines(alloc, &[], source)
}

/// The lines of a source of which it is known whether it is refused.
pub fn collect_lines_of(
    alloc: Global,
    is_accepted: bool,
    source: &[u8],
) -> Result<SourceLines, NoMemory>
    requires { is_accepted ≡ is_ok (source_meaning source.now) }
    ensures { IfOk result (λ lines. lines ≡ spec.source_lines source.now) }
{
    let loads = loads_if(alloc, is_accepted, source)?;
    find_loaded_lines(alloc, loads.as_slice(), source)
}

/// The lines of a source.
pub fn collect_lines(alloc: Global, source: &[u8]) -> Result<SourceLines, NoMemory>
    ensures { IfOk result (λ lines. lines ≡ spec.source_lines source.now) }
{
    let is_accepted = is_accepted(alloc, source)?;
    collect_lines_of(alloc, is_accepted, source)
}
