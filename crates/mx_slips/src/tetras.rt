//! The tetras that each line of a source loads.

ghost use Rattle.std.specs.Prelude.{◌≡◌, ◌++◌, IfOk, OnOk, drop};
ghost use Rattle.std.specs.Result.{is_ok};
ghost use Rattle.mx_files.specs.Sources.{source_meaning};
ghost use Rattle.mx_slips.specs.Loads as spec;

use mx_files::{SourceFault, load_source};
use mx_view::{Cell, LineCells, cells_by_line};
use mx_word::{NoMemory, Sequence};
use std::alloc::Global;

/// Whether a source is not refused.
pub fn is_accepted(alloc: Global, source: &[u8]) -> Result<bool, NoMemory>
    ensures { IfOk result (λ is. is ≡ is_ok (source_meaning source.now)) }
{
    match load_source(alloc, source) {
        Ok(_) => Ok(true),
        Err(SourceFault::Refused(_)) => Ok(false),
        Err(SourceFault::OutOfMemory) => Err(NoMemory),
    }
}

/// The tetras of the lines of a source of which it is known whether it is refused; then there are none.
#[tactic(auto, using(crate::proofs::LoadTurns::loads))]
pub(crate) fn loads_if(
    alloc: Global,
    is_accepted: bool,
    source: &[u8],
) -> Result<LineCells, NoMemory>
    requires { is_accepted ≡ is_ok (source_meaning source.now) }
    ensures { IfOk result (λ loads. loads ≡ spec.loads_in source.now) }
{
    if is_accepted {
        cells_by_line(alloc, source)
    } else {
        Ok(LineCells::new(alloc))
    }
}

/// The tetras of the first line.
pub(crate) fn first_cells(loads: &[Sequence<Cell>]) -> &[Cell]
    ensures { result.now ≡ spec.first_cells loads.now }
{
    match loads {
        [] => &[],
        [cells, ..] => cells.as_slice(),
    }
}

/// The tetras of the lines after the first.
pub(crate) fn later_cells(loads: &[Sequence<Cell>]) -> &[Sequence<Cell>]
    ensures { result.now ≡ drop 1 loads.now }
{
    match loads {
        [] => &[],
        [_, more @ ..] => more,
    }
}

/// A list of these tetras.
#[tactic(auto, using(crate::proofs::LoadTurns::copies))]
pub(crate) fn copy_cells(alloc: Global, cells: &[Cell]) -> Result<Sequence<Cell>, NoMemory>
    ensures { IfOk result (λ copy. copy ≡ cells.now) }
{
    let mut copy = Sequence::new(alloc);
    let mut rest = cells;
    while let [cell, more @ ..] = rest {
        copy.push(*cell)?;
        rest = more;
    }
    Ok(copy)
}
