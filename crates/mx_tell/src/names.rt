//! Places by their names.

use mx_book::Book;
use mx_object::Label;
use mx_pieces::add_short_hex;
use mx_text::add_decimal;
use mx_word::{Bytes, NoMemory};

/// A label that is this many bytes away, or more, is not near.
const FAR: u64 = 1 << 16;

/// A name without the colon that it begins with.
fn short_name(name: &[u8]) -> &[u8] {
    match name {
        [b':', others @ ..] => others,
        _ => name,
    }
}

/// A byte of a name as it is shown: itself from 33 to 126, otherwise a dot.
fn name_byte(b: u8) -> u8 {
    if 33 <= b && b <= 126 { b } else { b'.' }
}

/// Adds a name.
pub(crate) fn add_name(text: &mut Bytes, name: &[u8]) -> Result<(), NoMemory> {
    for b in short_name(name) {
        text.push(name_byte(*b))?;
    }
    Ok(())
}

/// The label that is near an address, if one is.
fn near(book: &Book, address: u64) -> Option<&Label> {
    match book.nearest_label(address) {
        Some(label) if address.wrapping_sub(label.address) < FAR => Some(label),
        _ => None,
    }
}

/// Adds a label, and how many bytes an address is after it.
fn add_offset(text: &mut Bytes, label: &Label, address: u64) -> Result<(), NoMemory> {
    add_name(text, label.name.as_slice())?;
    if address == label.address {
        return Ok(());
    }
    text.push(b'+')?;
    add_decimal(text, address.wrapping_sub(label.address))
}

/// Adds an address by its label, as `Loop+8`, or its digits where no label is near.
pub fn add_label(text: &mut Bytes, book: &Book, address: u64) -> Result<(), NoMemory> {
    match near(book, address) {
        Some(label) => add_offset(text, label, address),
        None => add_short_hex(text, address),
    }
}

/// Adds the label of an address after something else, between two texts, where one is near.
pub(crate) fn add_label_between(
    text: &mut Bytes,
    front: &[u8],
    book: &Book,
    address: u64,
    end: &[u8],
) -> Result<(), NoMemory> {
    match near(book, address) {
        None => Ok(()),
        Some(label) => {
            text.extend(front)?;
            add_offset(text, label, address)?;
            text.extend(end)
        }
    }
}

/// Adds an address with its label, as `#108 <Loop+8>`.
pub(crate) fn add_address(text: &mut Bytes, book: &Book, address: u64) -> Result<(), NoMemory> {
    add_short_hex(text, address)?;
    add_label_between(text, b" <", book, address, b">")
}

/// Adds the number of a line after the name of its file.
pub(crate) fn add_line_name(text: &mut Bytes, book: &Book, line: u32) -> Result<(), NoMemory> {
    text.extend(book.name.as_slice())?;
    text.push(b':')?;
    add_decimal(text, u64::from(line))
}

/// Adds an address as a place: `sum.mms:9  Loop+8`, or its label alone where no line is known.
pub fn add_place(text: &mut Bytes, book: &Book, address: u64) -> Result<(), NoMemory> {
    if let Some(line) = book.line_at(address) {
        add_line_name(text, book, line)?;
        text.extend(b"  ")?;
    }
    add_label(text, book, address)
}
