//! The lines of a program with their counts, as JSON.

use face_source::add_cells;
use mx_count::{CountedLine, Tally};
use mx_json::{add_number, add_number_if, add_string};
use mx_line::cut_line;
use mx_object::{ListedTetra, TetraCount};
use mx_view::{Cell, ListedLine};
use mx_word::{Bytes, NoMemory};
use std::alloc::Global;

/// Of this many tetras all are told, also those that were never carried out.
const MOST_TETRAS: usize = 3000;

/// A line with what is shown of it.
#[derive(Clone, Copy)]
struct Row<'a> {
    tally: Option<Tally>,
    cells: &'a [Cell],
    line: Option<u64>,
    text: &'a [u8],
}

/// Adds a row.
fn add_row(alloc: Global, text: &mut Bytes, row: Row<'_>) -> Result<(), NoMemory> {
    add_number_if(text, b"{\"away\":", row.tally.map(|tally| tally.away))?;
    text.extend(b",\"cells\":")?;
    add_cells(text, row.cells)?;
    add_number_if(text, b",\"line\":", row.line)?;
    add_number_if(text, b",\"mems\":", row.tally.map(|tally| tally.mems))?;
    add_number_if(text, b",\"oops\":", row.tally.map(|tally| tally.oops))?;
    add_string(alloc, text, b",\"text\":", row.text)?;
    add_number_if(text, b",\"times\":", row.tally.map(|tally| tally.times))?;
    text.extend(b"}")
}

/// Adds a comma in front of each row but the first.
fn add_comma(text: &mut Bytes, is_first: bool) -> Result<(), NoMemory> {
    if is_first { Ok(()) } else { text.extend(b",") }
}

/// Adds the lines of a source that was run, with what was counted of them.
pub fn add_counted_rows(
    alloc: Global,
    text: &mut Bytes,
    lines: &[ListedLine],
    counted: &[CountedLine],
) -> Result<(), NoMemory> {
    text.extend(b"[")?;
    for (at, line) in lines.iter().enumerate() {
        add_comma(text, at == 0)?;
        let tally = match counted.get(at) {
            Some(counted) => counted.tally,
            None => None,
        };
        add_row(
            alloc,
            text,
            Row {
                tally,
                cells: line.cells.as_slice(),
                line: Some(u64::from(line.number)),
                text: line.text.as_slice(),
            },
        )?;
    }
    text.extend(b"]")
}

/// Adds the lines of a source that was not run.
pub fn add_plain_rows(alloc: Global, text: &mut Bytes, source: &[u8]) -> Result<(), NoMemory> {
    text.extend(b"[")?;
    let mut rest = source;
    let mut number = 0u64;
    while !rest.is_empty() {
        let (line, others) = cut_line(rest);
        add_comma(text, number == 0)?;
        number = number.saturating_add(1);
        add_row(
            alloc,
            text,
            Row {
                tally: None,
                cells: &[],
                line: Some(number),
                text: line,
            },
        )?;
        rest = others;
    }
    text.extend(b"]")
}

/// Whether a tetra was never carried out.
fn is_idle(tally: Option<Tally>) -> bool {
    match tally {
        Some(tally) => tally.times == 0,
        None => true,
    }
}

/// Adds a tetra of an object that was run.
fn add_tetra_row(
    alloc: Global,
    text: &mut Bytes,
    tetra: &ListedTetra,
    tally: Option<Tally>,
) -> Result<(), NoMemory> {
    let cell = Cell {
        address: tetra.address,
        tetra: tetra.tetra,
    };
    add_row(
        alloc,
        text,
        Row {
            tally,
            cells: &[cell],
            line: tetra.line.map(u64::from),
            text: tetra.text.as_slice(),
        },
    )
}

/// Adds the tetras of an object that was run, with what was counted of them; of many, those that were carried out.
pub fn add_tetra_rows(
    alloc: Global,
    text: &mut Bytes,
    tetras: &[ListedTetra],
    counts: &[TetraCount],
) -> Result<(), NoMemory> {
    text.extend(b"[")?;
    let is_long = tetras.len() > MOST_TETRAS;
    let mut is_first = true;
    for (at, tetra) in tetras.iter().enumerate() {
        let tally = counts.get(at).map(|count| count.tally);
        if !(is_long && is_idle(tally)) {
            add_comma(text, is_first)?;
            add_tetra_row(alloc, text, tetra, tally)?;
            is_first = false;
        }
    }
    text.extend(b"]")
}
