//! The lines of a listing.

ghost use Rattle.std.specs.Prelude.{◌≡◌, ◌++◌, IfOk, OnOk, map};
ghost use Rattle.mx_view.specs.Rows as spec;

use crate::cells::{Cell, Cells, Wanted};
use mx_files::Refusal;
use mx_load::Image;
use mx_word::{Bytes, NoMemory, Sequence};
use std::alloc::Global;

/// A line of a source that is listed: its number, which is counted from 1, its text without the newline, and the tetras
/// that it loads, as they are shown.
#[derive(Drop)]
pub struct ListedLine {
    pub number: u32,
    pub text: Bytes,
    pub cells: Sequence<Cell>,
}

/// A list of lines.
pub type ListedLines = Sequence<ListedLine>;

/// The image of a source, or its refusal.
pub(crate) type Meaning = Result<Image, Refusal>;

/// The first address that no memory has.
const MEMORY_END: u64 = 1 << 63;

/// The tetra that is shown.
fn choose_tetra(meaning: &Meaning, cell: Cell) -> u32
    ensures { result ≡ spec.shown (spec.meaning_in meaning.now) cell }
{
    match meaning {
        Ok(image) if cell.address < MEMORY_END => image.memory().tetra(cell.address),
        _ => cell.tetra,
    }
}

/// A cell with the tetra that is shown.
fn show_cell(meaning: &Meaning, cell: Cell) -> Cell
    ensures { result ≡ spec.shown_cell (spec.meaning_in meaning.now) cell }
{
    Cell {
        address: cell.address,
        tetra: choose_tetra(meaning, cell),
    }
}

/// Adds cells with the tetras that are shown.
fn add_shown(shown: &mut Cells, meaning: &Meaning, cells: &[Cell]) -> Result<(), NoMemory>
    ensures { OnOk result (
        shown.new ≡ shown.old ++ map (spec.shown_cell (spec.meaning_in meaning.now)) cells.now) }
{
    for cell in cells {
        shown.push(show_cell(meaning, *cell))?;
    }
    Ok(())
}

/// Whether one of these tetras is at an address.
fn is_loaded_at(cells: &[Cell], address: u64) -> bool
    ensures { result ≡ spec.is_loaded_at cells.now address }
{
    cells.iter().any(|cell| cell.address == address)
}

/// A tetra, joined with another one that is loaded at its address.
fn join_cells(cell: Cell, with: Cell) -> Cell
    ensures { result ≡ spec.joined_with with cell }
{
    if cell.address == with.address {
        Cell {
            tetra: cell.tetra ^ with.tetra,
            ..cell
        }
    } else {
        cell
    }
}

/// Tetras, each joined with one that is loaded at its address.
fn join_all_cells(alloc: Global, cells: &[Cell], with: Cell) -> Result<Cells, NoMemory>
    ensures { IfOk result (λ joined. joined ≡ map (spec.joined_with with) cells.now) }
{
    let mut joined = Cells::new(alloc);
    for cell in cells {
        joined.push(join_cells(*cell, with))?;
    }
    Ok(joined)
}

/// Adds a tetra to those of a line, or joins it to the one at its address.
fn join(alloc: Global, cells: &mut Cells, cell: Cell) -> Result<(), NoMemory>
    ensures { OnOk result (cells.new ≡ spec.with_cell cells.old cell) }
{
    if is_loaded_at(cells.as_slice(), cell.address) {
        *cells = join_all_cells(alloc, cells.as_slice(), cell)?;
        return Ok(());
    }
    cells.push(cell)
}

/// The tetras that a line loads, each address once.
#[tactic(auto, unfolding(crate::specs::Rows::once))]
fn once(alloc: Global, cells: &[Cell]) -> Result<Cells, NoMemory>
    ensures { IfOk result (λ joined. joined ≡ spec.once cells.now) }
{
    let mut joined = Cells::new(alloc);
    for cell in cells {
        join(alloc, &mut joined, *cell)?;
    }
    Ok(joined)
}

/// Adds a line that has no tetra, unless only a tetra is wanted.
fn add_bare(
    alloc: Global,
    lines: &mut ListedLines,
    wanted: Wanted,
    number: u32,
    line: &[u8],
) -> Result<(), NoMemory>
    ensures { OnOk result (lines.new ≡ lines.old ++ spec.bare_line wanted number line.now) }
{
    match wanted {
        Wanted::Holding(_) => Ok(()),
        Wanted::All => {
            let text = Bytes::copy(alloc, line)?;
            lines.push(ListedLine {
                number,
                text,
                cells: Cells::new(alloc),
            })
        }
    }
}

/// Adds a line, if it is listed.
pub(crate) fn add_listed(
    alloc: Global,
    lines: &mut ListedLines,
    meaning: &Meaning,
    wanted: Wanted,
    number: u32,
    line: &[u8],
    cells: &[Cell],
) -> Result<(), NoMemory>
    ensures { OnOk result (lines.new
        ≡ lines.old ++ spec.listed (spec.meaning_in meaning.now) wanted number line.now cells.now) }
{
    if cells.is_empty() {
        return add_bare(alloc, lines, wanted, number, line);
    }
    let joined = once(alloc, cells)?;
    let mut shown = Cells::new(alloc);
    add_shown(&mut shown, meaning, joined.as_slice())?;
    let text = Bytes::copy(alloc, line)?;
    lines.push(ListedLine {
        number,
        text,
        cells: shown,
    })
}
