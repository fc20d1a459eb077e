//! Memory, as instructions.

use crate::scene::Scene;
use crate::values::{MEMORY_END, add_label_after, add_reference};
use mx_adapter::{Answer, integer_at, number_at};
use mx_book::{Book, Thing};
use mx_code::Instruction;
use mx_core::Machine;
use mx_json::{add_quoted, add_string};
use mx_tell::{add_label, value_of};
use mx_text::{add_instruction, byte_hex};
use mx_wire::{Values, add_array};
use mx_word::{Bytes, NoMemory, tetra_bytes};
use serde_json::Value;

/// How many instructions are shown at most.
const MOST: u64 = 10_000;

/// The tetra that holds an address; 0 where there is none.
fn tetra_at(machine: &Machine, a: u64) -> u32 {
    let octa = value_of(machine, Thing::Octa(a));
    if a % 8 < 4 {
        (octa >> 32) as u32
    } else {
        (octa % (1 << 32)) as u32
    }
}

/// The address that a tetra goes to or makes, where it is a branch, JMP, PUSHJ or GETA.
fn target_of(address: u64, word: u32) -> Option<u64> {
    let instruction = Instruction::new(address, word);
    match instruction.code() {
        0xf0 | 0xf1 => Some(instruction.far_address()),
        0x40..=0x5f | 0xf2..=0xf5 => Some(instruction.near_address()),
        _ => None,
    }
}

/// Adds the instruction that the tetra at an address is, and the label of the address that it goes to.
pub(crate) fn add_code(
    text: &mut Bytes,
    book: &Book,
    machine: &Machine,
    address: u64,
) -> Result<(), NoMemory> {
    let word = tetra_at(machine, address);
    add_instruction(text, word, address)?;
    match target_of(address, word) {
        Some(target) => add_label_after(text, book, target),
        None => Ok(()),
    }
}

/// Whether a label is at an address.
pub(crate) fn has_label_at(book: &Book, address: u64) -> bool {
    match book.nearest_label(address) {
        Some(label) => label.address == address,
        None => false,
    }
}

/// Adds bytes in hexadecimal digits.
fn add_bytes(text: &mut Bytes, word: u32) -> Result<(), NoMemory> {
    let [a, b, c, d] = tetra_bytes(word);
    text.extend(&byte_hex(a))?;
    text.extend(b" ")?;
    text.extend(&byte_hex(b))?;
    text.extend(b" ")?;
    text.extend(&byte_hex(c))?;
    text.extend(b" ")?;
    text.extend(&byte_hex(d))
}

impl Scene<'_> {
    /// Adds what is known of the instruction at an address of memory.
    fn add_instruction_members(&self, text: &mut Bytes, address: u64) -> Result<(), NoMemory> {
        let mut bytes = Bytes::new(self.alloc);
        add_bytes(&mut bytes, tetra_at(self.machine, address))?;
        add_quoted(text, b",\"instructionBytes\":", bytes.as_slice())?;
        let mut code = Bytes::new(self.alloc);
        add_code(&mut code, self.book, self.machine, address)?;
        add_string(self.alloc, text, b",\"instruction\":", code.as_slice())?;
        if has_label_at(self.book, address) {
            let mut label = Bytes::new(self.alloc);
            add_label(&mut label, self.book, address)?;
            add_string(self.alloc, text, b",\"symbol\":", label.as_slice())?;
        }
        self.add_line_members(text, b",\"location\":", address)
    }

    /// The row of the instruction at an address.
    fn instruction_row(&self, address: u64) -> Result<Bytes, NoMemory> {
        let mut text = Bytes::new(self.alloc);
        add_reference(&mut text, b"{\"address\":", address)?;
        if address < MEMORY_END {
            self.add_instruction_members(&mut text, address)?;
        } else {
            text.extend(b",\"instruction\":\"(no memory)\",\"presentationHint\":\"invalid\"")?;
        }
        text.extend(b"}")?;
        Ok(text)
    }

    /// The rows of so many instructions from an address on.
    fn instruction_rows(&self, from: u64, count: u64) -> Result<Bytes, NoMemory> {
        let mut rows = Values::new(self.alloc);
        let mut address = from;
        for _ in 0..count {
            rows.push(self.instruction_row(address)?)?;
            address = address.wrapping_add(4);
        }
        let mut text = Bytes::copy(self.alloc, b"{\"instructions\":")?;
        add_array(&mut text, rows.as_slice())?;
        text.extend(b"}")?;
        Ok(text)
    }

    /// Answers `disassemble`.
    pub fn disassemble(&self, message: &Value) -> Result<Answer, NoMemory> {
        let count = number_at(message, "/arguments/instructionCount")
            .unwrap_or(0)
            .min(MOST);
        let skipped = integer_at(message, "/arguments/instructionOffset").cast_unsigned();
        match self.address_asked(message)? {
            Some(address) => {
                let first = (address / 4 * 4).wrapping_add(skipped.wrapping_mul(4));
                Ok(Answer::Done(self.instruction_rows(first, count)?))
            }
            None => Ok(Answer::Refused(Bytes::copy(
                self.alloc,
                b"there is no such place in memory",
            )?)),
        }
    }
}
