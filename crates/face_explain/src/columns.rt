//! A list of all that is explained, in columns.

ghost use Rattle.std.specs.Prelude.{◌≡◌, ◌++◌, ◌-◌, IfOk, OnOk, length, replicate};
ghost use Rattle.std.specs.List.{flat_map};
ghost use Rattle.mx_explain.specs.Topics.{row, seen};
ghost use Rattle.face_explain.specs.Lists as spec;
ghost use Rattle.face_explain.specs.Lists.{cells};
ghost use Rattle.face_explain.specs.Tables as tables;

use crate::sections::{Part, Section, all, part_of};
use mx_explain::{Entry, Row, add_label, row_of};
use mx_word::{Bytes, NoMemory};
use std::alloc::Global;

/// Adds blanks.
fn add_blanks(text: &mut Bytes, count: usize) -> Result<(), NoMemory>
    ensures { OnOk result (text.new ≡ text.old ++ replicate count 32) }
{
    for _at in 0..count {
        text.push(b' ')?;
    }
    Ok(())
}

/// Adds what follows a cell: the end of the list, or of its line, or blanks up to the next column.
fn add_gap(text: &mut Bytes, is_last: bool, left: usize, blanks: usize) -> Result<(), NoMemory>
    ensures { OnOk result (text.new ≡ text.old ++ spec.gap is_last left blanks) }
{
    if is_last {
        return text.push(b'\n');
    }
    if left == 0 {
        return text.extend(b"\n  ");
    }
    add_blanks(text, blanks)
}

/// Adds a cell of a list, and what follows it.
fn add_cell(
    alloc: Global,
    text: &mut Bytes,
    row: Row,
    is_last: bool,
    left: usize,
    width: usize,
) -> Result<(), NoMemory>
    ensures { OnOk result (text.new ≡ text.old ++ spec.cell width is_last left (seen row)) }
{
    let mut label = Bytes::new(alloc);
    add_label(&mut label, row)?;
    text.extend(label.as_slice())?;
    let blanks = width.saturating_sub(label.as_slice().len());
    add_gap(text, is_last, left, blanks)
}

/// How many cells have one to their right after a cell.
fn next_left(left: usize, most: usize) -> usize
    ensures { result ≡ spec.next_left most left }
{
    if left == 0 { most } else { left - 1 }
}

/// Adds the cells of a list in columns of a width, where this many cells of a line have one to their right.
#[tactic(auto, using(crate::proofs::ListTurns::turns))]
fn add_cells(
    alloc: Global,
    text: &mut Bytes,
    entries: &[Entry],
    width: usize,
    most: usize,
) -> Result<(), NoMemory>
    ensures { OnOk result (text.new ≡ text.old ++ cells (λ e. row e.0 e.1.now e.2.now e.3.now e.4.now) width most most entries.now) }
{
    let mut left = most;
    let mut rest = entries;
    while let [entry, more @ ..] = rest {
        add_cell(alloc, text, row_of(entry), more.is_empty(), left, width)?;
        left = next_left(left, most);
        rest = more;
    }
    Ok(())
}

/// Adds the cells of a section.
fn add_rows(alloc: Global, text: &mut Bytes, part: Part) -> Result<(), NoMemory>
    ensures { OnOk result (text.new ≡ text.old ++ spec.part_cells (tables.seen_part part)) }
{
    add_cells(alloc, text, part.entries, part.width, part.most)
}

/// Adds the list of a section.
#[tactic(auto, unfolding(crate::specs::Lists::part_text))]
fn add_part(alloc: Global, text: &mut Bytes, part: Part) -> Result<(), NoMemory>
    ensures { OnOk result (text.new ≡ text.old ++ spec.part_text (tables.seen_part part)) }
{
    text.extend(part.title.as_bytes())?;
    text.extend(b"\n  ")?;
    add_rows(alloc, text, part)
}

/// Adds the list of a section, by its name.
fn add_section(alloc: Global, text: &mut Bytes, section: Section) -> Result<(), NoMemory>
    ensures { OnOk result (text.new ≡ text.old ++ spec.section_text section) }
{
    add_part(alloc, text, part_of(section))
}

/// Adds the lists of sections.
fn add_sections(alloc: Global, text: &mut Bytes, sections: &[Section]) -> Result<(), NoMemory>
    ensures { OnOk result (text.new ≡ text.old ++ flat_map spec.section_text sections.now) }
{
    for section in sections {
        add_section(alloc, text, *section)?;
    }
    Ok(())
}

/// A list of all that is explained: each row of the table by its number and its name, in columns below titles. It refuses only
/// where it is out of memory.
#[tactic(auto, unfolding(crate::specs::Lists::whole_list))]
pub fn list(alloc: Global) -> Result<Bytes, NoMemory>
    ensures { IfOk result (λ text. text ≡ spec.whole_list) }
{
    let mut text = Bytes::new(alloc);
    add_sections(alloc, &mut text, all())?;
    Ok(text)
}
