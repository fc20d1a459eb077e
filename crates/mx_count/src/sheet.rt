//! The sheet of a run as a text.

ghost use Rattle.std.specs.Prelude.{◌≡◌, ◌++◌, IfOk, OnOk};
ghost use Rattle.std.specs.List.{flat_map};
ghost use Rattle.mx_count.specs.Sheets as spec;

use crate::lines::{CountedLine, LineSheet};
use crate::tally::Tally;
use mx_text::add_decimal;
use mx_view::add_numbered;
use mx_word::{Bytes, NoMemory};
use std::alloc::Global;

/// As many blanks as a number is filled up to.
static BLANKS: [u8; 10] = *b"          ";

/// What is in front of a line that loads nothing.
static NO_FIGURES: [u8; 44] = *b"                                            ";

/// What is in front of a line that was never carried out.
static NEVER: [u8; 44] = *b"          -                                 ";

/// What is in front of the rows.
static HEADING: [u8; 103] =
    *b"\n--------------------------------------------------------\n      times       away       oops       mems\n";

/// Adds a blank, and a number that is filled up with blanks on the left.
fn add_column(alloc: Global, text: &mut Bytes, n: u64) -> Result<(), NoMemory>
    ensures { OnOk result (text.new ≡ text.old ++ spec.column n) }
{
    let mut digits = Bytes::new(alloc);
    add_decimal(&mut digits, n)?;
    let blanks = 10usize.saturating_sub(digits.as_slice().len());
    text.extend(b" ")?;
    text.extend(&BLANKS[..blanks])?;
    text.extend(digits.as_slice())
}

/// Adds the columns of a tally.
pub fn add_figures(alloc: Global, text: &mut Bytes, tally: Tally) -> Result<(), NoMemory>
    ensures { OnOk result (text.new ≡ text.old ++ spec.figures tally) }
{
    add_column(alloc, text, tally.times)?;
    add_column(alloc, text, tally.away)?;
    add_column(alloc, text, tally.oops)?;
    add_column(alloc, text, tally.mems)
}

/// Adds what is in front of a line with this tally.
fn add_line_figures(alloc: Global, text: &mut Bytes, tally: Option<Tally>) -> Result<(), NoMemory>
    ensures { OnOk result (text.new ≡ text.old ++ spec.line_figures tally) }
{
    let Some(tally) = tally else {
        return text.extend(&NO_FIGURES);
    };
    if tally.times == 0 {
        return text.extend(&NEVER);
    }
    add_figures(alloc, text, tally)
}

/// Adds the row of a line.
fn add_row(alloc: Global, text: &mut Bytes, line: &CountedLine) -> Result<(), NoMemory>
    ensures { OnOk result (text.new ≡ text.old ++ spec.line_row line.now) }
{
    add_line_figures(alloc, text, line.tally)?;
    text.extend(b" ")?;
    add_numbered(alloc, text, line.number, line.text.as_slice())
}

/// Adds the rows of lines.
fn add_rows(alloc: Global, text: &mut Bytes, lines: &[CountedLine]) -> Result<(), NoMemory>
    ensures { OnOk result (text.new ≡ text.old ++ flat_map spec.line_row lines.now) }
{
    for line in lines {
        add_row(alloc, text, line)?;
    }
    Ok(())
}

/// Adds the last row, which has the tally of all steps.
fn add_last(alloc: Global, text: &mut Bytes, tally: Tally) -> Result<(), NoMemory>
    ensures { OnOk result (text.new ≡ text.old ++ spec.last_row tally) }
{
    add_figures(alloc, text, tally)?;
    text.extend(b"  all steps\n")
}

/// A sheet as a text.
pub fn format_sheet(alloc: Global, sheet: &LineSheet) -> Result<Bytes, NoMemory>
    ensures { IfOk result (λ text. text ≡ spec.sheet_text sheet.now) }
{
    let mut text = Bytes::copy(alloc, &HEADING)?;
    add_rows(alloc, &mut text, sheet.lines.as_slice())?;
    add_last(alloc, &mut text, sheet.total)?;
    Ok(text)
}
