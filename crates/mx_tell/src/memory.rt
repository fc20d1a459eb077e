//! What memory holds.

ghost use Rattle.std.specs.Prelude.{◌≤◌};

use crate::names::{add_address, add_label_between};
use crate::things::add_value;
use crate::values::byte_at;
use mx_ask::Unit;
use mx_book::Book;
use mx_core::Machine;
use mx_pieces::{Style, add_characters, add_short_hex, add_signed, fill};
use mx_text::{Form, add_decimal, byte_hex};
use mx_word::{Bytes, NoMemory};
use std::alloc::Global;

/// This many units are shown, and no more.
pub const MOST_UNITS: u64 = 1024;

/// This many bytes of a text are shown, and no more.
const LONGEST: u64 = 200;

/// What a row begins with is this wide.
const HEAD: usize = 32;

/// How many bytes a unit has; of a text it is not known.
fn size_of(unit: Unit) -> u64
    ensures { 1 ≤ result }
{
    match unit {
        Unit::Octa | Unit::Decimal => 8,
        Unit::Tetra => 4,
        Unit::Wyde => 2,
        Unit::Byte | Unit::Text => 1,
    }
}

/// How many units a row has.
fn row_length(unit: Unit) -> u64
    ensures { 1 ≤ result }
{
    match unit {
        Unit::Octa | Unit::Decimal => 2,
        Unit::Tetra => 4,
        Unit::Wyde | Unit::Byte => 8,
        Unit::Text => 1,
    }
}

/// Adds the address that a row begins with.
fn add_head(text: &mut Bytes, book: &Book, address: u64) -> Result<(), NoMemory> {
    let from = text.as_slice().len();
    add_address(text, book, address)?;
    text.push(b':')?;
    fill(text, from, HEAD)
}

/// Adds the name of a unit of memory that is no text, and its address: `M4[#2000000000000004`.
fn add_part_name(text: &mut Bytes, book: &Book, size: u64, at: u64) -> Result<(), NoMemory> {
    text.extend(b"M")?;
    add_decimal(text, size)?;
    text.extend(b"[")?;
    add_short_hex(text, at)?;
    text.extend(b"]")?;
    add_label_between(text, b" (", book, at, b")")
}

/// The unit of memory that holds an address, as a signed number; of a text its first byte.
fn part_value(machine: &Machine, unit: Unit, a: u64) -> u64 {
    let size = size_of(unit);
    let at = a.wrapping_sub(a % size);
    let mut value = if byte_at(machine, at) < 128 {
        0
    } else {
        u64::MAX
    };
    for i in 0..size {
        let byte = byte_at(machine, at.wrapping_add(i));
        value = value.wrapping_mul(256).wrapping_add(u64::from(byte));
    }
    value
}

/// Adds the unit of memory that holds an address, and what it has as a signed number, in a form if one is asked for:
/// `M4[#2000000000000004] (Count+4) = -1`.
pub fn add_part(
    text: &mut Bytes,
    book: &Book,
    machine: &Machine,
    unit: Unit,
    a: u64,
    form: Option<Form>,
) -> Result<(), NoMemory> {
    let size = size_of(unit);
    add_part_name(text, book, size, a.wrapping_sub(a % size))?;
    text.extend(b" = ")?;
    add_value(text, book, part_value(machine, unit, a), form)?;
    text.extend(b"\n")
}

/// Begins a row, and ends the one before it.
fn begin_row(text: &mut Bytes, book: &Book, address: u64, is_first: bool) -> Result<(), NoMemory> {
    if !is_first {
        text.push(b'\n')?;
    }
    add_head(text, book, address)
}

/// Adds the unit at an address: as hexadecimal digits, or as a signed decimal number.
fn add_unit(text: &mut Bytes, machine: &Machine, address: u64, unit: Unit) -> Result<(), NoMemory> {
    if unit == Unit::Decimal {
        text.push(b' ')?;
        return add_signed(text, part_value(machine, unit, address));
    }
    text.extend(b" #")?;
    for i in 0..size_of(unit) {
        text.extend(&byte_hex(byte_at(machine, address.wrapping_add(i))))?;
    }
    Ok(())
}

/// Adds this many units from an address on.
fn add_units(
    text: &mut Bytes,
    book: &Book,
    machine: &Machine,
    from: u64,
    count: u64,
    unit: Unit,
) -> Result<(), NoMemory> {
    let size = size_of(unit);
    for i in 0..count {
        let address = from.wrapping_add(i.wrapping_mul(size));
        if i % row_length(unit) == 0 {
            begin_row(text, book, address, i == 0)?;
        }
        add_unit(text, machine, address, unit)?;
    }
    text.push(b'\n')
}

/// How many bytes a text has from an address on, up to its end, or before it is too long.
fn text_length(machine: &Machine, from: u64) -> u64 {
    let mut length = 0;
    for i in 0..LONGEST {
        if byte_at(machine, from.wrapping_add(i)) == 0 {
            return length;
        }
        length = i + 1;
    }
    length
}

/// Puts this many bytes from an address on into a text.
fn copy_bytes(bytes: &mut Bytes, machine: &Machine, from: u64, count: u64) -> Result<(), NoMemory> {
    for i in 0..count {
        bytes.push(byte_at(machine, from.wrapping_add(i)))?;
    }
    Ok(())
}

/// Adds a text from an address on between quotation marks, and answers the address after it.
fn add_text_row(
    alloc: Global,
    text: &mut Bytes,
    book: &Book,
    machine: &Machine,
    from: u64,
) -> Result<u64, NoMemory> {
    let length = text_length(machine, from);
    let mut bytes = Bytes::new(alloc);
    copy_bytes(&mut bytes, machine, from, length)?;
    add_head(text, book, from)?;
    text.extend(b" \"")?;
    add_characters(text, Style::Quoted, bytes.as_slice())?;
    let following = from.wrapping_add(length);
    if length == LONGEST {
        text.extend(b"\"...\n")?;
        return Ok(following);
    }
    text.extend(b"\"\n")?;
    Ok(following.wrapping_add(1))
}

/// Adds this many texts from an address on, one after the other, and answers the address after them.
fn add_texts(
    alloc: Global,
    text: &mut Bytes,
    book: &Book,
    machine: &Machine,
    from: u64,
    count: u64,
) -> Result<u64, NoMemory> {
    let mut address = from;
    for _ in 0..count {
        address = add_text_row(alloc, text, book, machine, address)?;
    }
    Ok(address)
}

/// Adds units of memory from an address on, several in a row, with the address and its label in front; at most 1,024 units. It answers
/// the address after them. Units but texts begin at a multiple of their size, as the machine has them.
pub fn add_memory(
    alloc: Global,
    text: &mut Bytes,
    book: &Book,
    machine: &Machine,
    from: u64,
    count: u64,
    unit: Unit,
) -> Result<u64, NoMemory> {
    let count = if count < MOST_UNITS {
        count
    } else {
        MOST_UNITS
    };
    if count == 0 {
        return Ok(from);
    }
    if unit == Unit::Text {
        return add_texts(alloc, text, book, machine, from, count);
    }
    let size = size_of(unit);
    let first = from.wrapping_sub(from % size);
    add_units(text, book, machine, first, count, unit)?;
    Ok(first.wrapping_add(count.wrapping_mul(size)))
}
