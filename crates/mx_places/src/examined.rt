//! Which memory a line asks for, and in which form.

use crate::moments::resolve_name_now;
use crate::places::parse_part;
use mx_ask::{Unit, parse_units};
use mx_book::{Book, Thing};
use mx_core::Machine;
use mx_text::Form;

/// The first address that no memory has.
pub const MEMORY_END: u64 = 1 << 63;

/// The address that a thing leads to.
fn address_of(machine: &Machine, thing: Thing) -> u64 {
    match thing {
        Thing::Octa(a) | Thing::Number(a) => a,
        Thing::Register(k) => machine.register(k),
        Thing::Special(code) => machine.special(code % 32),
    }
}

/// The address that a text names: where nothing is written, the one after those that were shown.
pub fn parse_examined(book: &Book, machine: &Machine, next: u64, rest: &[u8]) -> Option<u64> {
    let address = if rest.is_empty() {
        next
    } else {
        address_of(machine, resolve_name_now(book, machine, rest)?)
    };
    if address < MEMORY_END {
        Some(address)
    } else {
        None
    }
}

/// The units that are asked for after a stroke: an octa where nothing is written.
pub fn parse_examined_units(letters: &[u8]) -> Option<(u64, Unit)> {
    match letters {
        [b'/', units @ ..] => parse_units(units),
        _ => parse_units(letters),
    }
}

/// The form that letters after a stroke ask for, or none.
pub fn parse_form(letters: &[u8]) -> Option<Option<Form>> {
    match letters {
        b"" | b"/" => Some(None),
        b"/d" => Some(Some(Form::Decimal)),
        b"/x" => Some(Some(Form::Hex)),
        b"/t" => Some(Some(Form::Chars)),
        _ => None,
    }
}

/// The unit of memory that a text writes in brackets, and its address, if it is no octa.
pub fn parse_small_part(book: &Book, text: &[u8]) -> Option<(Unit, u64)> {
    match parse_part(book, text)? {
        (Unit::Octa, _) => None,
        part => Some(part),
    }
}
