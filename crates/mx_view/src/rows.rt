//! The rows of a listing.

ghost use Rattle.std.specs.Prelude.{◌≡◌, ◌++◌, ◌∷◌, [], OnOk, codes, decimal, take, drop, length, ◌-◌};
ghost use Rattle.std.specs.List.{flat_map};
ghost use Rattle.mx_view.specs.Rows as spec;

use crate::cells::Cell;
use crate::lines::ListedLine;
use mx_text::{add_decimal, octa_hex, tetra_hex};
use mx_word::{Bytes, NoMemory};
use std::alloc::Global;

/// As many blanks as a cell has bytes.
static NO_CELL: [u8; 27] = *b"                           ";

/// Adds an address and the tetra there.
fn add_cell(text: &mut Bytes, cell: Cell) -> Result<(), NoMemory>
    ensures { OnOk result (text.new ≡ text.old ++ spec.cell_text cell) }
{
    text.extend(&octa_hex(cell.address))?;
    text.extend(b": ")?;
    text.extend(&tetra_hex(cell.tetra))
}

/// Adds the first tetra of a line, or blanks in its place.
fn add_first(text: &mut Bytes, cells: &[Cell]) -> Result<(), NoMemory>
    ensures { OnOk result (text.new ≡ text.old ++ spec.first_cell cells.now) }
{
    match cells {
        [] => text.extend(&NO_CELL),
        [cell, ..] => add_cell(text, *cell),
    }
}

/// Adds a number, filled up with blanks on the left to five places.
fn add_padded(alloc: Global, text: &mut Bytes, number: u32) -> Result<(), NoMemory>
    ensures { OnOk result (text.new ≡ text.old ++ spec.padded (decimal number)) }
{
    let mut digits = Bytes::new(alloc);
    add_decimal(&mut digits, u64::from(number))?;
    let blanks = 5usize.saturating_sub(digits.as_slice().len());
    text.extend(&b"     "[..blanks])?;
    text.extend(digits.as_slice())
}

/// Adds the number and the text of a line.
pub fn add_numbered(
    alloc: Global,
    text: &mut Bytes,
    number: u32,
    line: &[u8],
) -> Result<(), NoMemory>
    ensures { OnOk result (text.new ≡ text.old ++ spec.numbered number line.now) }
{
    add_padded(alloc, text, number)?;
    text.extend(b": ")?;
    text.extend(line)?;
    text.extend(b"\n")
}

/// Adds the row of a further tetra of a line.
fn add_further(text: &mut Bytes, cell: Cell) -> Result<(), NoMemory>
    ensures { OnOk result (text.new ≡ text.old ++ spec.further_row cell) }
{
    add_cell(text, cell)?;
    text.extend(b"\n")
}

/// Adds the rows of further tetras of a line.
fn add_rest(text: &mut Bytes, cells: &[Cell]) -> Result<(), NoMemory>
    ensures { OnOk result (text.new ≡ text.old ++ flat_map spec.further_row cells.now) }
{
    for cell in cells {
        add_further(text, *cell)?;
    }
    Ok(())
}

/// The tetras after the first one.
fn after_first_cell(cells: &[Cell]) -> &[Cell]
    ensures { result.now ≡ drop 1 cells.now }
{
    match cells {
        [] => &[],
        [_, more @ ..] => more,
    }
}

/// Adds the rows of a line.
fn add_rows(alloc: Global, text: &mut Bytes, line: &ListedLine) -> Result<(), NoMemory>
    ensures { OnOk result (text.new ≡ text.old ++ spec.rows_of line.now) }
{
    add_first(text, line.cells.as_slice())?;
    text.extend(b"  ")?;
    add_numbered(alloc, text, line.number, line.text.as_slice())?;
    add_rest(text, after_first_cell(line.cells.as_slice()))
}

/// Adds the rows of lines.
pub(crate) fn add_all_rows(
    alloc: Global,
    text: &mut Bytes,
    lines: &[ListedLine],
) -> Result<(), NoMemory>
    ensures { OnOk result (text.new ≡ text.old ++ flat_map spec.rows_of lines.now) }
{
    for line in lines {
        add_rows(alloc, text, line)?;
    }
    Ok(())
}
