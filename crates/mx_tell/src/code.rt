//! The text of an instruction.

use crate::names::add_label_between;
use crate::values::tetra_at;
use mx_book::{Book, Load};
use mx_code::Instruction;
use mx_core::Machine;
use mx_line::{Cut, next_statement};
use mx_pieces::{Style, add_characters};
use mx_text::add_instruction;
use mx_word::{Bytes, NoMemory};

/// The text of a line of a source, if it is there.
pub(crate) fn line_text(book: &Book, line: u32) -> Option<&Bytes> {
    let place = (line as usize).checked_sub(1)?;
    book.lines.as_slice().get(place)
}

/// Whether a tetra is an instruction at an address.
fn is_code_at(load: &Load, address: u64) -> bool {
    load.is_code && load.address == address
}

/// The line of a source that has the instruction at an address.
fn code_line(book: &Book, address: u64) -> Option<&Bytes> {
    let loads = book.loads.as_slice();
    match loads.iter().find(|load| is_code_at(load, address)) {
        Some(load) => line_text(book, load.line),
        None => None,
    }
}

/// Adds the operation and the operands of a statement of a line.
fn add_cut(text: &mut Bytes, line: &[u8], cut: &Cut) -> Result<(), NoMemory> {
    let op = line.get(cut.op.from..cut.op.to).unwrap_or(&[]);
    let operands = line.get(cut.operands.from..cut.operands.to).unwrap_or(&[]);
    add_characters(text, Style::Line, op)?;
    text.push(b' ')?;
    add_characters(text, Style::Line, operands)
}

/// The address that a tetra goes to or makes, where it is a branch, JMP, PUSHJ or GETA.
fn target_of(address: u64, word: u32) -> Option<u64> {
    let instruction = Instruction::new(address, word);
    match instruction.code() {
        0xf0 | 0xf1 => Some(instruction.far_address()),
        0x40..=0x5f | 0xf2..=0xf5 => Some(instruction.near_address()),
        _ => None,
    }
}

/// Adds the instruction that a tetra is, and the label of the address that it goes to.
fn add_tetra(text: &mut Bytes, book: &Book, word: u32, address: u64) -> Result<(), NoMemory> {
    add_instruction(text, word, address)?;
    match target_of(address, word) {
        Some(target) => add_label_between(text, b" <", book, target, b">"),
        None => Ok(()),
    }
}

/// Adds the instruction at an address: as the line of its source has it, or else by its tetra.
pub(crate) fn add_code(
    text: &mut Bytes,
    book: &Book,
    machine: &Machine,
    address: u64,
) -> Result<(), NoMemory> {
    let Some(line) = code_line(book, address) else {
        return add_tetra(text, book, tetra_at(machine, address), address);
    };
    match next_statement(line.as_slice(), 0) {
        Ok(Some(cut)) => add_cut(text, line.as_slice(), &cut),
        _ => add_tetra(text, book, tetra_at(machine, address), address),
    }
}
