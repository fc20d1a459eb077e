//! The sheet of a run of an object as a text.

ghost use Rattle.std.specs.Prelude.{◌≡◌, ◌++◌, IfOk, OnOk, drop};
ghost use Rattle.mx_count.specs.Sheets as sheets;
ghost use Rattle.mx_object.specs.Sheets as spec;

use crate::counting::{ObjectSheet, TetraCount};
use crate::labels::Label;
use crate::rows::{add_label, add_tetra_row};
use crate::tetras::ListedTetra;
use mx_count::{Tally, add_figures};
use mx_word::{Bytes, NoMemory};
use std::alloc::Global;

/// What is in front of the rows.
static HEADING: [u8; 103] =
    *b"\n--------------------------------------------------------\n      times       away       oops       mems\n";

/// The count of no steps.
const NO_COUNT: TetraCount = TetraCount {
    tally: Tally {
        times: 0,
        away: 0,
        oops: 0,
        mems: 0,
    },
    part: None,
};

/// Adds labels, each after a blank.
fn add_labels(text: &mut Bytes, labels: &[Label]) -> Result<(), NoMemory>
    ensures { OnOk result (text.new ≡ text.old ++ spec.labels_text labels.now) }
{
    for label in labels {
        text.push(b' ')?;
        add_label(text, label)?;
    }
    Ok(())
}

/// Adds the row of a part with these labels, if one begins here and there were steps.
fn add_part(
    alloc: Global,
    text: &mut Bytes,
    labels: &[Label],
    part: Option<Tally>,
) -> Result<(), NoMemory>
    ensures { OnOk result (text.new ≡ text.old ++ spec.part_row labels.now part) }
{
    let Some(tally) = part else {
        return Ok(());
    };
    if tally.times == 0 {
        return Ok(());
    }
    add_figures(alloc, text, tally)?;
    add_labels(text, labels)?;
    text.push(b'\n')
}

/// Adds a tetra after its figures.
#[tactic(auto, unfolding(crate::specs::Sheets::tetra_line))]
fn add_line(alloc: Global, text: &mut Bytes, tetra: &ListedTetra) -> Result<(), NoMemory>
    ensures { OnOk result (text.new ≡ text.old ++ spec.tetra_line tetra.now) }
{
    text.extend(b"  ")?;
    add_tetra_row(alloc, text, tetra)
}

/// Adds the row of a tetra, if there were steps.
fn add_tetra_count(
    alloc: Global,
    text: &mut Bytes,
    tetra: &ListedTetra,
    tally: Tally,
) -> Result<(), NoMemory>
    ensures { OnOk result (text.new ≡ text.old ++ spec.figured tally (spec.tetra_line tetra.now)) }
{
    if tally.times == 0 {
        return Ok(());
    }
    add_figures(alloc, text, tally)?;
    add_line(alloc, text, tetra)
}

/// Adds the rows of a tetra with its count.
fn add_count(
    alloc: Global,
    text: &mut Bytes,
    tetra: &ListedTetra,
    count: TetraCount,
) -> Result<(), NoMemory>
    ensures { OnOk result (text.new ≡ text.old ++ spec.count_rows tetra.now count) }
{
    add_part(alloc, text, tetra.labels.as_slice(), count.part)?;
    add_tetra_count(alloc, text, tetra, count.tally)
}

/// The first count, where there is one for each tetra, and the others.
pub fn next_count(counts: &[TetraCount]) -> (TetraCount, &[TetraCount])
    ensures first { result.0 ≡ spec.first_count counts.now }
    ensures others { result.1.now ≡ drop 1 counts.now }
{
    match counts {
        [count, others @ ..] => (*count, others),
        [] => (NO_COUNT, &[]),
    }
}

/// Adds the rows of tetras with their counts.
#[tactic(auto, using(crate::proofs::CountRows::turns))]
fn add_counts(
    alloc: Global,
    text: &mut Bytes,
    tetras: &[ListedTetra],
    counts: &[TetraCount],
) -> Result<(), NoMemory>
    ensures { OnOk result (text.new ≡ text.old ++ spec.counted_rows tetras.now counts.now) }
{
    let mut rest = tetras;
    let mut left = counts;
    while let Some((tetra, others)) = rest.split_first() {
        let (count, more) = next_count(left);
        add_count(alloc, text, tetra, count)?;
        rest = others;
        left = more;
    }
    Ok(())
}

/// Adds a row that ends so.
fn add_row(alloc: Global, text: &mut Bytes, tally: Tally, ending: &[u8]) -> Result<(), NoMemory>
    ensures { OnOk result (text.new ≡ text.old ++ (sheets.figures tally ++ ending.now)) }
{
    add_figures(alloc, text, tally)?;
    text.extend(ending)
}

/// The sheet of a run of an object as a text: the parts, the tetras and the sums that have steps.
pub fn format_sheet(alloc: Global, sheet: &ObjectSheet) -> Result<Bytes, NoMemory>
    ensures { IfOk result (λ text. text ≡ spec.sheet_text sheet.now) }
{
    let mut text = Bytes::copy(alloc, &HEADING)?;
    add_counts(
        alloc,
        &mut text,
        sheet.tetras.as_slice(),
        sheet.counts.as_slice(),
    )?;
    add_row(alloc, &mut text, sheet.elsewhere, b"  elsewhere\n")?;
    add_row(alloc, &mut text, sheet.total, b"  all steps\n")?;
    Ok(text)
}
