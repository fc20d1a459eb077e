//! The calls that have not returned.

use crate::names::{add_label, add_line_name};
use crate::things::add_usual;
use mx_book::Book;
use mx_text::add_decimal;
use mx_word::{Bytes, NoMemory, Sequence};

/// A call that has not returned: the address of the instruction that called, the one that it went to, and the arguments, where
/// they are known.
#[derive(Drop)]
pub struct Call {
    pub call: u64,
    pub target: u64,
    pub arguments: Option<Sequence<u64>>,
}

/// This many calls are shown, and no more: the innermost ones.
const MOST: usize = 100;

/// Adds a comma, unless it is in front of the first of a list.
fn add_comma(text: &mut Bytes, is_first: bool) -> Result<(), NoMemory> {
    if is_first {
        return Ok(());
    }
    text.extend(b", ")
}

/// Adds arguments, one after the other.
fn add_arguments(text: &mut Bytes, book: &Book, arguments: &[u64]) -> Result<(), NoMemory> {
    let mut is_first = true;
    for argument in arguments {
        add_comma(text, is_first)?;
        add_usual(text, book, *argument)?;
        is_first = false;
    }
    Ok(())
}

/// Adds what was called, with its arguments where they are known.
fn add_called(text: &mut Bytes, book: &Book, call: &Call) -> Result<(), NoMemory> {
    text.extend(b" in ")?;
    add_label(text, book, call.target)?;
    let Some(arguments) = &call.arguments else {
        return Ok(());
    };
    text.extend(b" (")?;
    add_arguments(text, book, arguments.as_slice())?;
    text.push(b')')
}

/// Adds the number of a row, and where it is.
fn begin_row(text: &mut Bytes, book: &Book, number: u64, address: u64) -> Result<(), NoMemory> {
    text.push(b'#')?;
    add_decimal(text, number)?;
    text.extend(b"  ")?;
    add_label(text, book, address)
}

/// Adds the line of an address, and ends a row.
fn end_row(text: &mut Bytes, book: &Book, address: u64) -> Result<(), NoMemory> {
    if let Some(line) = book.line_at(address) {
        text.extend(b" at ")?;
        add_line_name(text, book, line)?;
    }
    text.push(b'\n')
}

/// Adds the row of a call, in which the run is at this address.
fn add_call(
    text: &mut Bytes,
    book: &Book,
    number: u64,
    address: u64,
    call: &Call,
) -> Result<(), NoMemory> {
    begin_row(text, book, number, address)?;
    add_called(text, book, call)?;
    end_row(text, book, address)
}

/// Adds how many calls are not shown, if there are any.
fn add_more(text: &mut Bytes, count: usize) -> Result<(), NoMemory> {
    if count <= MOST {
        return Ok(());
    }
    text.extend(b"(")?;
    add_decimal(text, (count - MOST) as u64)?;
    text.extend(b" more calls)\n")
}

/// Adds the calls that have not returned, the innermost one first: where the run is in it, what was called, and with what. `calls` has
/// the outermost one first, and `pc` is the address of the next instruction.
pub fn add_backtrace(
    text: &mut Bytes,
    book: &Book,
    calls: &[Call],
    pc: u64,
) -> Result<(), NoMemory> {
    let mut number = 0u64;
    let mut address = pc;
    for call in calls.iter().rev().take(MOST) {
        add_call(text, book, number, address, call)?;
        number = number.wrapping_add(1);
        address = call.call;
    }
    if MOST < calls.len() {
        return add_more(text, calls.len());
    }
    begin_row(text, book, number, address)?;
    end_row(text, book, address)
}
