//! All registers.

use crate::names::add_name;
use crate::things::{add_special, register_symbol};
use mx_book::Book;
use mx_core::Machine;
use mx_pieces::{add_signed, fill};
use mx_text::{add_decimal, octa_hex};
use mx_word::{Bytes, NoMemory};

/// The columns in which names, values and their digits begin, by the width of what is in front.
const NAMES: usize = 6;

const VALUES: usize = 20;

const DIGITS: usize = 42;

/// Adds a value and its digits to a row that began there.
fn add_columns(text: &mut Bytes, from: usize, value: u64) -> Result<(), NoMemory> {
    fill(text, from, VALUES)?;
    add_signed(text, value)?;
    fill(text, from, DIGITS)?;
    text.extend(&octa_hex(value))?;
    text.push(b'\n')
}

/// Adds the row of a register.
fn add_register_row(
    text: &mut Bytes,
    book: &Book,
    machine: &Machine,
    k: u8,
) -> Result<(), NoMemory> {
    let from = text.as_slice().len();
    text.push(b'$')?;
    add_decimal(text, u64::from(k))?;
    fill(text, from, NAMES)?;
    if let Some(symbol) = register_symbol(book, k) {
        add_name(text, symbol.name.as_slice())?;
    }
    add_columns(text, from, machine.register(k))
}

/// Adds the row of a special register, unless it is 0.
fn add_special_row(text: &mut Bytes, code: u8, value: u64) -> Result<(), NoMemory> {
    if value == 0 {
        return Ok(());
    }
    let from = text.as_slice().len();
    add_special(text, code)?;
    add_columns(text, from, value)
}

/// Adds the rows of the registers from one up to another.
fn add_rows(
    text: &mut Bytes,
    book: &Book,
    machine: &Machine,
    from: usize,
    to: usize,
) -> Result<(), NoMemory> {
    for k in from..to {
        add_register_row(text, book, machine, (k % 256) as u8)?;
    }
    Ok(())
}

/// Adds the rows of the global registers: all of them, or those that are not 0, and how many others are left out.
fn add_global_rows(
    text: &mut Bytes,
    book: &Book,
    machine: &Machine,
    is_all: bool,
) -> Result<(), NoMemory> {
    let mut left_out = 0u64;
    for k in usize::from(machine.g())..256 {
        let k = (k % 256) as u8;
        if is_all || machine.register(k) != 0 {
            add_register_row(text, book, machine, k)?;
        } else {
            left_out = left_out.wrapping_add(1);
        }
    }
    add_left_out(text, left_out)
}

/// Adds how many registers are left out, if some are.
fn add_left_out(text: &mut Bytes, count: u64) -> Result<(), NoMemory> {
    if count == 0 {
        return Ok(());
    }
    add_decimal(text, count)?;
    text.extend(b" more are 0: info registers all shows them\n")
}

/// Adds the rows of the special registers that are not 0.
fn add_special_rows(text: &mut Bytes, machine: &Machine) -> Result<(), NoMemory> {
    for code in 0..32u8 {
        add_special_row(text, code, machine.special(code))?;
    }
    Ok(())
}

/// Adds the registers: the local ones, the global ones that are not 0, or all of them, and the special ones that are not 0, each with
/// its name, its value and its hexadecimal digits.
pub fn add_registers(
    text: &mut Bytes,
    book: &Book,
    machine: &Machine,
    is_all: bool,
) -> Result<(), NoMemory> {
    text.extend(b"local:\n")?;
    add_rows(text, book, machine, 0, usize::from(machine.l()))?;
    text.extend(b"global:\n")?;
    add_global_rows(text, book, machine, is_all)?;
    text.extend(b"special:\n")?;
    add_special_rows(text, machine)
}
