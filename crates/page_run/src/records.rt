//! The texts of records.

use mx_record::{Change, Record};
use mx_text::octa_hex;
use mx_word::{Bytes, NoMemory};

/// The bits of an address within its segment.
const IN_SEGMENT: u64 = (1 << 61) - 1;

/// How many bytes a turn wrote, to standard output and to standard error.
#[derive(Clone, Copy)]
pub struct Written {
    pub output: u64,
    pub errors: u64,
}

/// Adds a number in hexadecimal digits, without zeros in front.
pub fn add_hex(text: &mut Bytes, n: u64) -> Result<(), NoMemory> {
    let digits = octa_hex(n);
    for i in 1..17usize {
        if digits[i] != b'0' {
            return text.extend(&digits[i..]);
        }
    }
    text.extend(b"0")
}

/// Adds a sign and a number.
fn add_part(text: &mut Bytes, sign: u8, n: u64) -> Result<(), NoMemory> {
    text.push(sign)?;
    add_hex(text, n)
}

/// Adds what changed at a place.
fn add_change(text: &mut Bytes, sign: u8, at: u64, by: u64) -> Result<(), NoMemory> {
    add_part(text, sign, at)?;
    add_part(text, b'=', by)
}

/// Adds the changes of places of one kind.
fn add_changes(text: &mut Bytes, sign: u8, changes: &[Change]) -> Result<(), NoMemory> {
    for change in changes {
        add_change(text, sign, change.at, change.by)?;
    }
    Ok(())
}

/// The sign of the segment that has an address.
fn segment_sign(address: u64) -> u8 {
    match address >> 61 {
        0 => b't',
        1 => b'm',
        2 => b'p',
        _ => b'q',
    }
}

/// Adds the changes of octas of memory.
fn add_octas(text: &mut Bytes, changes: &[Change]) -> Result<(), NoMemory> {
    for change in changes {
        let address = change.at.wrapping_mul(8);
        add_change(text, segment_sign(address), address & IN_SEGMENT, change.by)?;
    }
    Ok(())
}

/// Adds the changes of a record, and the end of its text.
fn add_places(text: &mut Bytes, record: &Record, written: Written) -> Result<(), NoMemory> {
    add_changes(text, b's', record.special.as_slice())?;
    add_changes(text, b'g', record.global.as_slice())?;
    add_changes(text, b'l', record.stacked.as_slice())?;
    add_octas(text, record.octas.as_slice())?;
    if written.output > 0 {
        add_part(text, b'>', written.output)?;
    }
    if written.errors > 0 {
        add_part(text, b'!', written.errors)?;
    }
    text.extend(b";")
}

/// Adds the record of a turn from an address. Where the next address is the next tetra, it has no part for it.
pub fn add_turn(
    text: &mut Bytes,
    pc: u64,
    record: &Record,
    written: Written,
) -> Result<(), NoMemory> {
    if record.next != pc ^ pc.wrapping_add(4) {
        add_part(text, b'@', record.next)?;
    }
    add_places(text, record, written)
}

/// Adds the record that leads to the start.
pub fn add_start(text: &mut Bytes, record: &Record) -> Result<(), NoMemory> {
    add_part(text, b'@', record.next)?;
    add_places(
        text,
        record,
        Written {
            output: 0,
            errors: 0,
        },
    )
}
