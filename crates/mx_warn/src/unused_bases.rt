//! GREG with an address that nothing uses.

ghost use Rattle.std.specs.Prelude.{◌≡◌, ◌++◌, IfOk, OnOk};
ghost use Rattle.std.specs.List.{flat_map, list_any};
ghost use Rattle.mx_view.specs.Loads.{loads_of};
ghost use Rattle.mx_warn.specs.Idle as spec;

use crate::overlaps::first_operation;
use mx_slips::{Mark, SourceLine, Statement, Token, is_accepted, is_greg, starts_with_byte};
use mx_view::{Cell, cells_by_line};
use mx_word::{Bytes, NoMemory, Sequence, is_letter};
use std::alloc::Global;

/// Whether an operand begins with `@` or a name.
fn starts_with_address(text: &[u8]) -> bool
    ensures { result ≡ spec.begins_address text.now }
{
    match text {
        [] => false,
        [b, ..] => *b == b'@' || is_letter(*b),
    }
}

/// Whether statements are one GREG with an address.
fn is_address_greg(statements: &[Statement]) -> bool
    ensures { result ≡ spec.is_address_greg statements.now }
{
    match statements {
        [only] => match only.tokens.as_slice() {
            [] => false,
            [first, ..] => is_greg(only) && starts_with_address(first.text.as_slice()),
        },
        _ => false,
    }
}

/// Whether a token is 250 to 254.
fn is_global_number(token: &Token) -> bool
    ensures { result ≡ spec.is_global_number token.now }
{
    let text = token.text.as_slice();
    text.len() == 3 && starts_with_byte(b'2', text) && text != b"255".as_slice()
}

/// Whether a statement names a register by such a number.
fn names_global(statement: &Statement) -> bool
    ensures { result ≡ list_any spec.is_global_number statement.now.tokens }
{
    let tokens = statement.tokens.as_slice();
    tokens.iter().any(|token| is_global_number(token))
}

/// Whether a line names a register by such a number.
fn line_names_global(line: &SourceLine) -> bool
    ensures { result ≡ spec.line_names_global line.now }
{
    let statements = line.statements.as_slice();
    statements.iter().any(|statement| names_global(statement))
}

/// Whether a line loads something.
fn is_loading(line: &SourceLine) -> bool
    ensures { result ≡ spec.is_loading line.now }
{
    !line.cells.as_slice().is_empty()
}

/// Whether a line loads something.
fn are_loading(lines: &[SourceLine]) -> bool
    ensures { result ≡ list_any spec.is_loading lines.now }
{
    lines.iter().any(|line| is_loading(line))
}

/// Whether a line names a register by such a number.
fn lines_name_global(lines: &[SourceLine]) -> bool
    ensures { result ≡ list_any spec.line_names_global lines.now }
{
    lines.iter().any(|line| line_names_global(line))
}

/// Whether these statements of a source may be a GREG that nothing uses.
fn may_be_idle(lines: &[SourceLine], statements: &[Statement]) -> bool
    ensures { result ≡ spec.may_be_idle lines.now statements.now }
{
    is_address_greg(statements) && are_loading(lines) && !lines_name_global(lines)
}

/// Adds the text of a line, unless it has this number.
fn add_kept(text: &mut Bytes, number: u32, line: &SourceLine) -> Result<(), NoMemory>
    ensures { OnOk result (text.new ≡ text.old ++ spec.kept_text number line.now) }
{
    if line.number != number {
        text.extend(line.text.as_slice())?;
    }
    text.extend(b"\n")
}

/// The source without the line with this number.
fn without_line(alloc: Global, number: u32, lines: &[SourceLine]) -> Result<Bytes, NoMemory>
    ensures { IfOk result (λ text. text ≡ spec.without_line number lines.now) }
{
    let mut text = Bytes::new(alloc);
    for line in lines {
        add_kept(&mut text, number, line)?;
    }
    Ok(text)
}

/// Whether two tetras are the same, at one address.
fn is_same_cell(cell: Cell, other: Cell) -> bool
    ensures { result ≡ spec.is_same_cell cell other }
{
    cell.address == other.address && cell.tetra == other.tetra
}

/// Whether two lists of tetras are the same.
#[tactic(auto, unfolding(crate::specs::Idle::same_cells))]
fn are_same_cells(cells: &[Cell], others: &[Cell]) -> bool
    ensures { result ≡ spec.same_cells cells.now others.now }
{
    let mut rest = cells;
    let mut left = others;
    while let [cell, more @ ..] = rest {
        let [other, later @ ..] = left else {
            return false;
        };
        if !is_same_cell(*cell, *other) {
            return false;
        }
        rest = more;
        left = later;
    }
    left.is_empty()
}

/// Whether lines load these tetras.
#[tactic(auto, unfolding(crate::specs::Idle::same_loads))]
fn are_same_loads(loads: &[Sequence<Cell>], lines: &[SourceLine]) -> bool
    ensures { result ≡ spec.same_loads loads.now lines.now }
{
    let mut rest = loads;
    let mut left = lines;
    while let [cells, more @ ..] = rest {
        let [line, later @ ..] = left else {
            return false;
        };
        if !are_same_cells(cells.as_slice(), line.cells.as_slice()) {
            return false;
        }
        rest = more;
        left = later;
    }
    left.is_empty()
}

/// Whether each line of a source loads the tetras of one of these lines.
fn has_same_loads(alloc: Global, source: &[u8], lines: &[SourceLine]) -> Result<bool, NoMemory>
    ensures { IfOk result (λ is. is ≡ spec.same_loads (loads_of source.now) lines.now) }
{
    let loads = cells_by_line(alloc, source)?;
    Ok(are_same_loads(loads.as_slice(), lines))
}

/// Whether a source is not refused, and each of its lines loads the tetras of one of these lines.
fn loads_same(alloc: Global, source: &[u8], lines: &[SourceLine]) -> Result<bool, NoMemory>
    ensures { IfOk result (λ is. is ≡ spec.loads_same source.now lines.now) }
{
    if has_same_loads(alloc, source, lines)? {
        is_accepted(alloc, source)
    } else {
        Ok(false)
    }
}

/// Whether a source loads the same without the line with this number.
fn is_idle(alloc: Global, lines: &[SourceLine], number: u32) -> Result<bool, NoMemory>
    ensures { IfOk result (λ is. is ≡ spec.is_idle lines.now number) }
{
    let text = without_line(alloc, number, lines)?;
    loads_same(alloc, text.as_slice(), lines)
}

/// The operation of a GREG with an address that nothing uses.
#[tactic(auto, unfolding(crate::specs::Idle::unused_base))]
pub(crate) fn find_unused_base(
    alloc: Global,
    lines: &[SourceLine],
    line: &SourceLine,
) -> Result<Option<Mark>, NoMemory>
    ensures { IfOk result (λ mark. mark ≡ spec.unused_base lines.now line.now) }
{
    let statements = line.statements.as_slice();
    if !may_be_idle(lines, statements) {
        return Ok(None);
    }
    if is_idle(alloc, lines, line.number)? {
        Ok(first_operation(0, statements))
    } else {
        Ok(None)
    }
}
