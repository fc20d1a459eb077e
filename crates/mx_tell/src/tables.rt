//! Breaks, watches and symbols.

use crate::names::{add_line_name, add_name, add_place};
use crate::things::add_thing;
use mx_book::{Book, Thing};
use mx_pieces::{add_short_hex, fill};
use mx_text::add_decimal;
use mx_word::{Bytes, NoMemory, Symbol, Value};

/// The columns of breaks and watches.
const KINDS: usize = 5;

/// The columns of symbols.
const VALUES: usize = 20;

const LINES: usize = 40;

/// Begins a row with a number.
fn begin_row(text: &mut Bytes, number: u64) -> Result<(), NoMemory> {
    let from = text.as_slice().len();
    add_decimal(text, number)?;
    fill(text, from, KINDS)
}

/// Adds the row of a break with its condition, which may be no text: `1    break  sum.mms:8  Loop  if k == 3`.
pub fn add_break_row(
    text: &mut Bytes,
    book: &Book,
    number: u64,
    address: u64,
    condition: &[u8],
) -> Result<(), NoMemory> {
    begin_row(text, number)?;
    text.extend(b"break  ")?;
    add_place(text, book, address)?;
    if !condition.is_empty() {
        text.extend(b"  if ")?;
        text.extend(condition)?;
    }
    text.push(b'\n')
}

/// Adds the row of a watch, and a note: `2    watch  $1 (k), here $5`.
pub fn add_watch_row(
    text: &mut Bytes,
    book: &Book,
    number: u64,
    thing: Thing,
    note: &[u8],
) -> Result<(), NoMemory> {
    begin_row(text, number)?;
    text.extend(b"watch  ")?;
    add_thing(text, book, thing)?;
    text.extend(note)?;
    text.push(b'\n')
}

/// Whether a symbol with this name and address is a label.
fn is_label(book: &Book, name: &[u8], address: u64) -> bool {
    let mut labels = book.labels.as_slice().iter();
    labels.any(|label| label.address == address && label.name.as_slice() == name)
}

/// Adds the value of a symbol that is a number, and of a label its line, if it is known, to a row that began there.
fn add_number(
    text: &mut Bytes,
    book: &Book,
    from: usize,
    name: &[u8],
    x: u64,
) -> Result<(), NoMemory> {
    add_short_hex(text, x)?;
    match book.line_at(x) {
        Some(line) if is_label(book, name, x) => {
            fill(text, from, LINES)?;
            add_line_name(text, book, line)
        }
        _ => Ok(()),
    }
}

/// Adds the row of a symbol.
fn add_symbol(text: &mut Bytes, book: &Book, symbol: &Symbol) -> Result<(), NoMemory> {
    let from = text.as_slice().len();
    add_name(text, symbol.name.as_slice())?;
    fill(text, from, VALUES)?;
    match symbol.value {
        Value::Pure(x) => add_number(text, book, from, symbol.name.as_slice(), x)?,
        Value::Reg(k) => {
            text.push(b'$')?;
            add_decimal(text, u64::from(k))?;
        }
    }
    text.push(b'\n')
}

/// Adds the symbols of a program in the order of their names, each with its value, and the line there.
pub fn add_symbols(text: &mut Bytes, book: &Book) -> Result<(), NoMemory> {
    for symbol in book.symbols.as_slice() {
        add_symbol(text, book, symbol)?;
    }
    Ok(())
}
