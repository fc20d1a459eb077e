//! The ring of registers as a picture.

use crate::columns::add_right;
use crate::numbers::add_short_hex;
use mx_core::Machine;
use mx_ops::codes::{RO, RS};
use mx_text::add_decimal;
use mx_word::{Bytes, NoMemory, STACK_SEGMENT};

/// This many registers of a ring are shown, and no more.
const MOST: u64 = 1024;

/// This many registers are in a row.
const ROW: u64 = 64;

/// Which octas a ring has: how many registers it has in all, and how many octas are local, hidden, and hidden in memory.
#[derive(Clone, Copy)]
struct Ring {
    size: u64,
    locals: u64,
    hidden: u64,
    spilled: u64,
}

/// How many octas of the stack are before an address.
fn octas_before(address: u64) -> u64 {
    address.wrapping_sub(STACK_SEGMENT) / 8
}

/// The ring of a machine.
fn ring_of(machine: &Machine, size: u64) -> Ring {
    Ring {
        size,
        locals: u64::from(machine.l()),
        hidden: octas_before(machine.special(RO)),
        spilled: octas_before(machine.special(RS)),
    }
}

/// How far a place of the ring is after the one of an octa.
fn distance(ring: &Ring, place: u64, octa: u64) -> u64 {
    match place.wrapping_sub(octa).checked_rem(ring.size) {
        Some(distance) => distance,
        None => 0,
    }
}

/// What a place of the ring has: a local register, a hidden one, or none.
fn mark(ring: &Ring, place: u64) -> u8 {
    if distance(ring, place, ring.hidden) < ring.locals {
        b'L'
    } else if distance(ring, place, ring.spilled) < ring.hidden.wrapping_sub(ring.spilled) {
        b'h'
    } else {
        b'.'
    }
}

/// Begins a row of the picture, and ends the one before it.
fn begin_row(text: &mut Bytes, place: u64) -> Result<(), NoMemory> {
    if place % ROW != 0 {
        return Ok(());
    }
    if place != 0 {
        text.push(b'\n')?;
    }
    add_right(text, place)?;
    text.extend(b"  ")
}

/// Adds the picture of a ring.
fn add_picture(text: &mut Bytes, ring: &Ring) -> Result<(), NoMemory> {
    let count = if ring.size < MOST { ring.size } else { MOST };
    for place in 0..count {
        begin_row(text, place)?;
        text.push(mark(ring, place))?;
    }
    text.push(b'\n')
}

/// Adds how many octas are local and hidden.
fn add_counts(text: &mut Bytes, ring: &Ring) -> Result<(), NoMemory> {
    text.extend(b"ring of ")?;
    add_decimal(text, ring.size)?;
    text.extend(b": ")?;
    add_decimal(text, ring.locals)?;
    text.extend(b" local (L), ")?;
    add_decimal(text, ring.hidden.wrapping_sub(ring.spilled))?;
    text.extend(b" hidden (h), ")?;
    add_decimal(text, ring.spilled)?;
    text.extend(b" hidden in memory\n")
}

/// Adds where the hidden octas in memory are, if there are any.
fn add_spilled(text: &mut Bytes, ring: &Ring) -> Result<(), NoMemory> {
    if ring.spilled == 0 {
        return Ok(());
    }
    text.extend(b"in memory: ")?;
    add_short_hex(text, STACK_SEGMENT)?;
    text.extend(b" to ")?;
    let last = STACK_SEGMENT.wrapping_add(ring.spilled.wrapping_sub(1).wrapping_mul(8));
    add_short_hex(text, last)?;
    text.push(b'\n')
}

/// Adds how many octas of a ring of this many registers are local and hidden, and a picture of which they are.
pub fn add_ring(text: &mut Bytes, machine: &Machine, size: u32) -> Result<(), NoMemory> {
    let ring = ring_of(machine, u64::from(size));
    add_counts(text, &ring)?;
    add_picture(text, &ring)?;
    add_spilled(text, &ring)
}
