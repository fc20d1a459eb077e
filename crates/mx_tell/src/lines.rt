//! The lines of a program.

use crate::code::add_code;
use crate::names::add_address;
use mx_book::Book;
use mx_core::Machine;
use mx_pieces::{Style, add_characters, add_right, fill};
use mx_word::{Bytes, NoMemory};

/// This many lines are shown.
const COUNT: usize = 10;

/// What a row of an instruction begins with is this wide.
const HEAD: usize = 32;

/// The first of ten lines around one.
pub fn first_line_around(line: u32) -> u32 {
    if line > 5 { line - 5 } else { 1 }
}

/// Adds the mark of what comes next, or blanks in its place.
fn add_mark(text: &mut Bytes, is_next: bool) -> Result<(), NoMemory> {
    if is_next {
        text.extend(b"=> ")
    } else {
        text.extend(b"   ")
    }
}

/// The lines from one on, of which the first has the number 1.
fn lines_from(lines: &[Bytes], from: u32) -> &[Bytes] {
    let before = (from as usize).saturating_sub(1);
    if before < lines.len() {
        &lines[before..]
    } else {
        &[]
    }
}

/// Adds the row of a line.
fn add_row(text: &mut Bytes, number: u32, is_next: bool, line: &Bytes) -> Result<(), NoMemory> {
    add_mark(text, is_next)?;
    add_right(text, u64::from(number))?;
    text.extend(b"  ")?;
    add_characters(text, Style::Line, line.as_slice())?;
    text.push(b'\n')
}

/// Adds ten lines of a source from one on, with a mark at the one of the next instruction. It answers the number of the line after
/// them, which is `from` where there is no such line.
pub fn add_lines(text: &mut Bytes, book: &Book, from: u32, pc: u64) -> Result<u32, NoMemory> {
    let next = book.line_at(pc);
    let mut number = from;
    for line in lines_from(book.lines.as_slice(), from).iter().take(COUNT) {
        add_row(text, number, next == Some(number), line)?;
        number = number.saturating_add(1);
    }
    Ok(number)
}

/// Adds the row of an instruction.
fn add_instruction_row(
    text: &mut Bytes,
    book: &Book,
    machine: &Machine,
    address: u64,
    pc: u64,
) -> Result<(), NoMemory> {
    let from = text.as_slice().len();
    add_mark(text, address == pc)?;
    add_address(text, book, address)?;
    text.push(b':')?;
    fill(text, from, HEAD)?;
    add_code(text, book, machine, address)?;
    text.push(b'\n')
}

/// Adds ten instructions from an address on, with a mark at the next one. It answers the address after them.
pub fn add_instructions(
    text: &mut Bytes,
    book: &Book,
    machine: &Machine,
    from: u64,
    pc: u64,
) -> Result<u64, NoMemory> {
    let mut address = from.wrapping_sub(from % 4);
    for _ in 0..COUNT {
        add_instruction_row(text, book, machine, address, pc)?;
        address = address.wrapping_add(4);
    }
    Ok(address)
}
