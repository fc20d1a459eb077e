//! The counts of the tetras of an object.

ghost use Rattle.std.specs.Prelude.{◌≡◌, ◌++◌, ◌∷◌, [], IfOk, OnOk};
ghost use Rattle.mx_count.specs.Counting.{counts_in as counts_of_entries};
ghost use Rattle.mx_count.specs.InTurn.{sum_at, tally_by};
ghost use Rattle.mx_object.specs.Counting as spec;

use crate::tetras::{ListedTetra, ListedTetras};
use mx_count::{Entry, Sums, Tally, line_tally, sums_of, total};
use mx_view::Cell;
use mx_word::{NoMemory, Sequence};
use std::alloc::Global;

/// What is counted of the steps at a tetra; and of those at its part, where one begins with it: that goes from a tetra with
/// labels up to the next one.
#[derive(Clone, Copy)]
pub struct TetraCount {
    pub tally: Tally,
    pub part: Option<Tally>,
}

/// The tetras that an object loads, the count of each, in the same order, and what is counted of the steps elsewhere and of
/// all steps.
#[derive(Drop)]
pub struct ObjectSheet {
    pub tetras: ListedTetras,
    pub counts: Sequence<TetraCount>,
    pub elsewhere: Tally,
    pub total: Tally,
}

fn cell_of(tetra: &ListedTetra) -> Cell
    ensures { result ≡ spec.cell_of tetra.now }
{
    Cell {
        address: tetra.address,
        tetra: tetra.tetra,
    }
}

/// Whether a part begins with a tetra.
fn is_part_start(tetra: &ListedTetra) -> bool
    ensures { result ≡ spec.begins_part tetra.now }
{
    !tetra.labels.as_slice().is_empty()
}

/// The cells of tetras.
fn cells_of(alloc: Global, tetras: &[ListedTetra]) -> Result<Sequence<Cell>, NoMemory>
    ensures { IfOk result (λ cells. cells ≡ spec.cells_of tetras.now) }
{
    let mut cells = Sequence::new(alloc);
    for tetra in tetras {
        cells.push(cell_of(tetra))?;
    }
    Ok(cells)
}

/// Adds the cells of the tetras up to the next part.
#[tactic(auto, using(crate::proofs::PartCells::parts))]
fn add_before_part(cells: &mut Sequence<Cell>, tetras: &[ListedTetra]) -> Result<(), NoMemory>
    ensures { OnOk result (cells.new ≡ cells.old ++ spec.cells_of (spec.before_part tetras.now)) }
{
    let mut rest = tetras;
    while let Some((tetra, others)) = rest.split_first() {
        if is_part_start(tetra) {
            return Ok(());
        }
        cells.push(cell_of(tetra))?;
        rest = others;
    }
    Ok(())
}

/// The cells of the part that begins with a tetra which others follow; none where no part does.
fn part_cells(
    alloc: Global,
    tetra: &ListedTetra,
    others: &[ListedTetra],
) -> Result<Sequence<Cell>, NoMemory>
    ensures { IfOk result (λ cells. cells ≡ spec.part_cells tetra.now others.now) }
{
    let mut cells = Sequence::new(alloc);
    if is_part_start(tetra) {
        cells.push(cell_of(tetra))?;
        add_before_part(&mut cells, others)?;
    }
    Ok(cells)
}

/// The tally of a tetra alone.
fn tetra_tally(alloc: Global, sums: &Sums, tetra: &ListedTetra) -> Result<Tally, NoMemory>
    ensures { IfOk result (λ y. y ≡ tally_by (sum_at sums.now) (spec.cell_of tetra.now ∷ [])) }
{
    let mut alone = Sequence::new(alloc);
    alone.push(cell_of(tetra))?;
    line_tally(alloc, sums, alone.as_slice())
}

/// This tally, if a part begins with a tetra.
fn part_if(tetra: &ListedTetra, tally: Tally) -> Option<Tally>
    ensures { result ≡ spec.part_if tetra.now tally }
{
    if is_part_start(tetra) {
        Some(tally)
    } else {
        None
    }
}

/// The tally of the part that begins with a tetra which others follow, if one does.
fn part_tally(
    alloc: Global,
    sums: &Sums,
    tetra: &ListedTetra,
    others: &[ListedTetra],
) -> Result<Option<Tally>, NoMemory>
    ensures { IfOk result (λ part. part ≡
        spec.part_if tetra.now (tally_by (sum_at sums.now) (spec.part_cells tetra.now others.now))) }
{
    let cells = part_cells(alloc, tetra, others)?;
    let tally = line_tally(alloc, sums, cells.as_slice())?;
    Ok(part_if(tetra, tally))
}

/// The count of a tetra that others follow.
fn count_of(
    alloc: Global,
    sums: &Sums,
    tetra: &ListedTetra,
    others: &[ListedTetra],
) -> Result<TetraCount, NoMemory>
    ensures { IfOk result (λ count. count ≡ spec.count_of (tally_by (sum_at sums.now)) tetra.now others.now) }
{
    let tally = tetra_tally(alloc, sums, tetra)?;
    let part = part_tally(alloc, sums, tetra, others)?;
    Ok(TetraCount { tally, part })
}

/// The counts of tetras.
#[tactic(auto, using(crate::proofs::PartCells::counts))]
fn counts_in(
    alloc: Global,
    sums: &Sums,
    tetras: &[ListedTetra],
) -> Result<Sequence<TetraCount>, NoMemory>
    ensures { IfOk result (λ counts. counts ≡ spec.counts_of (tally_by (sum_at sums.now)) tetras.now) }
{
    let mut counts = Sequence::new(alloc);
    let mut rest = tetras;
    while let Some((tetra, others)) = rest.split_first() {
        counts.push(count_of(alloc, sums, tetra, others)?)?;
        rest = others;
    }
    Ok(counts)
}

/// What is left of these steps without those.
fn less(x: Tally, y: Tally) -> Tally
    ensures { result ≡ spec.less x y }
{
    Tally {
        times: x.times.saturating_sub(y.times),
        away: x.away.saturating_sub(y.away),
        oops: x.oops.saturating_sub(y.oops),
        mems: x.mems.saturating_sub(y.mems),
    }
}

/// The tally of all these tetras together.
fn loaded_tally(alloc: Global, sums: &Sums, tetras: &[ListedTetra]) -> Result<Tally, NoMemory>
    ensures { IfOk result (λ y. y ≡ tally_by (sum_at sums.now) (spec.cells_of tetras.now)) }
{
    let cells = cells_of(alloc, tetras)?;
    line_tally(alloc, sums, cells.as_slice())
}

/// The counts of tetras, the tally of the steps elsewhere, and that of all steps.
fn figures_in(
    alloc: Global,
    tetras: &[ListedTetra],
    entries: &[Entry],
) -> Result<(Sequence<TetraCount>, Tally, Tally), NoMemory>
    ensures counts { IfOk result (λ read. read.0 ≡ (spec.sheet_by (counts_of_entries entries.now) tetras.now).counts) }
    ensures elsewhere { IfOk result (λ read. read.1 ≡ (spec.sheet_by (counts_of_entries entries.now) tetras.now).elsewhere) }
    ensures total { IfOk result (λ read. read.2 ≡ (spec.sheet_by (counts_of_entries entries.now) tetras.now).total) }
{
    let sums = sums_of(alloc, entries)?;
    let all = total(entries)?;
    let loaded = loaded_tally(alloc, &sums, tetras)?;
    let counts = counts_in(alloc, &sums, tetras)?;
    Ok((counts, less(all, loaded), all))
}

/// The sheet of tetras, by what is counted of a run.
pub(crate) fn sheet_in(
    alloc: Global,
    tetras: ListedTetras,
    entries: &[Entry],
) -> Result<ObjectSheet, NoMemory>
    ensures { IfOk result (λ sheet. sheet ≡ spec.sheet_by (counts_of_entries entries.now) tetras) }
{
    let (counts, elsewhere, total) = figures_in(alloc, tetras.as_slice(), entries)?;
    Ok(ObjectSheet {
        tetras,
        counts,
        elsewhere,
        total,
    })
}
