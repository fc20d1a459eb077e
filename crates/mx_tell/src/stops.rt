//! Where a run is.

use crate::code::add_code;
use crate::names::add_place;
use mx_book::Book;
use mx_core::Machine;
use mx_text::add_decimal;
use mx_word::{Bytes, NoMemory};

/// Adds where a run is after this many steps, and the instruction that comes next:
/// `step 57  sum.mms:9  Loop+8  PBP k,Loop`.
pub fn add_stop(
    text: &mut Bytes,
    book: &Book,
    step: u64,
    machine: &Machine,
) -> Result<(), NoMemory> {
    text.extend(b"step ")?;
    add_decimal(text, step)?;
    text.extend(b"  ")?;
    add_place(text, book, machine.pc())?;
    text.extend(b"  ")?;
    add_code(text, book, machine, machine.pc())?;
    text.push(b'\n')
}
