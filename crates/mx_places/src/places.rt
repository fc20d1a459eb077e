//! What a text names: values, places in memory, and instructions.

ghost use Rattle.std.specs.Prelude.{◌≡◌, None};
ghost use Rattle.mx_places.specs.Named as spec;

use crate::sums::{add_numbers, cut_sum, parse_brackets, parse_offset};
use mx_ask::{Unit, parse_address, parse_number, parse_octa, parse_subject};
use mx_book::{Book, Thing, thing_of_subject};
use mx_stops::Place;
use mx_word::Value;

/// The first address of the data segment: a name with a value from there on means what is there.
const DATA: u64 = 0x2000_0000_0000_0000;

/// The first address that no memory has.
const MEMORY_END: u64 = 1 << 63;

/// What is said where a text names no place.
pub const PLACE_WANTED: &[u8] = b"? no such place: give NAME[+N], $K, rX or M8[ADDRESS]";

/// The place as a thing: a register has the number that it had where it was asked for.
pub fn thing_of_place(place: Place) -> Thing
    ensures { result ≡ spec.thing_at place }
{
    match place {
        Place::Register(k) | Place::Stacked { at: _, number: k } => Thing::Register(k),
        Place::Octa(a) => Thing::Octa(a),
        Place::Special(code) => Thing::Special(code),
    }
}

/// The value of a symbol that is an address, or a number.
fn symbol_address(book: &Book, name: &[u8]) -> Option<u64>
    ensures { result ≡ spec.symbol_address book.now name.now }
{
    match book.look_up_symbol(name)? {
        Value::Pure(a) => Some(a),
        Value::Reg(_) => None,
    }
}

/// The value of a symbol and what is added to it, as `Loop+8` writes it.
fn symbol_sum(book: &Book, text: &[u8]) -> Option<u64>
    ensures { result ≡ spec.symbol_sum book.now text.now }
{
    let (base, rest) = cut_sum(text);
    add_numbers(symbol_address(book, base), parse_offset(rest))
}

/// The value of a symbol, or a sum of one.
fn find_named_number(book: &Book, text: &[u8]) -> Option<u64>
    ensures { result ≡ spec.named_number book.now text.now }
{
    match symbol_address(book, text) {
        Some(n) => Some(n),
        None => symbol_sum(book, text),
    }
}

/// The address that a text writes, or names.
fn address_named(book: &Book, text: &[u8]) -> Option<u64>
    ensures { result ≡ spec.address_named book.now text.now }
{
    match parse_address(text) {
        Some(a) => Some(a),
        None => find_named_number(book, text),
    }
}

/// The unit of memory that a text writes as `M8[ADDRESS]` does, with 8, 4, 2 or 1 bytes, and its address.
#[tactic(auto, unfolding(crate::specs::Named::part_in))]
pub fn parse_part(book: &Book, text: &[u8]) -> Option<(Unit, u64)>
    ensures { result ≡ spec.part_in book.now text.now }
{
    match parse_brackets(text) {
        Some((unit, text)) => Some((unit, address_named(book, text)?)),
        None => None,
    }
}

/// The octa that a text writes in brackets.
fn octa_in_brackets(book: &Book, text: &[u8]) -> Option<Thing>
    ensures { result ≡ spec.octa_of (spec.part_in book.now text.now) }
{
    match parse_part(book, text) {
        Some((Unit::Octa, a)) => Some(Thing::Octa(a)),
        _ => None,
    }
}

/// What `$K`, `rX`, `M#ADDRESS` or a number writes.
fn thing_written(text: &[u8]) -> Option<Thing>
    ensures { result ≡ spec.thing_written text.now }
{
    match parse_subject(text) {
        Some(subject) => thing_of_subject(subject),
        None => Some(Thing::Number(parse_octa(text)?)),
    }
}

/// What a text writes that is no symbol.
fn thing_beside(book: &Book, text: &[u8]) -> Option<Thing>
    ensures { result ≡ spec.thing_beside book.now text.now }
{
    match octa_in_brackets(book, text) {
        Some(thing) => Some(thing),
        None => thing_written(text),
    }
}

/// What a symbol means, or a sum of one.
fn thing_by_symbol(book: &Book, text: &[u8]) -> Option<Thing>
    ensures { result ≡ spec.thing_by_symbol book.now text.now }
{
    match book.look_up_thing(text) {
        Some(thing) => Some(thing),
        None => Some(Thing::Number(symbol_sum(book, text)?)),
    }
}

/// What a text names: a symbol or a sum of one, `$K`, `rX`, `M8[ADDRESS]`, `M#ADDRESS`, or a number.
#[tactic(auto, unfolding(crate::specs::Named::named_thing))]
pub fn resolve_name(book: &Book, text: &[u8]) -> Option<Thing>
    ensures { result ≡ spec.named_thing book.now text.now }
{
    match thing_by_symbol(book, text) {
        Some(thing) => Some(thing),
        None => thing_beside(book, text),
    }
}

/// The octa at an address of data, where a symbol has that value.
fn as_data(thing: Thing) -> Thing
    ensures { result ≡ spec.as_data thing }
{
    match thing {
        Thing::Number(a) if DATA <= a && a < MEMORY_END => Thing::Octa(a),
        thing => thing,
    }
}

/// The same, but for a name with an address of data: it means the octa there.
#[tactic(auto, unfolding(crate::specs::Named::shown_thing))]
pub fn resolve_for_display(book: &Book, text: &[u8]) -> Option<Thing>
    ensures { result ≡ spec.shown_thing book.now text.now }
{
    match thing_by_symbol(book, text) {
        Some(thing) => Some(as_data(thing)),
        None => thing_beside(book, text),
    }
}

/// The place that a thing has: a number is an address.
pub fn place_of_thing(thing: Thing) -> Option<Place>
    ensures { result ≡ spec.place_of thing }
{
    match thing {
        Thing::Register(k) => Some(Place::Register(k)),
        Thing::Special(code) => Some(Place::Special(code)),
        Thing::Octa(a) | Thing::Number(a) => {
            if a < MEMORY_END {
                Some(Place::Octa(a))
            } else {
                None
            }
        }
    }
}

/// The place that a text names.
#[tactic(auto, unfolding(crate::specs::Named::place_in))]
pub fn parse_place(book: &Book, text: &[u8]) -> Option<Place>
    ensures { result ≡ spec.place_in book.now text.now }
{
    place_of_thing(resolve_name(book, text)?)
}

/// Where an instruction is: its address, and its line, if one was named.
#[derive(Clone, Copy)]
pub struct Target {
    pub address: u64,
    pub line: Option<u32>,
}

/// The instruction at an address.
fn target_at(address: u64) -> Target
    ensures { result ≡ spec.at_address address }
{
    Target {
        address,
        line: None,
    }
}

/// The first instruction from a line on.
fn line_target(book: &Book, line: u64) -> Option<Target>
    ensures { result ≡ spec.at_line book.now line }
{
    if line >= 1 << 32 {
        return None;
    }
    let load = book.address_of_line(line as u32)?;
    Some(Target {
        address: load.address,
        line: Some(load.line),
    })
}

/// The instruction that a text names by an address or a label.
fn find_named_target(book: &Book, text: &[u8]) -> Option<Target>
    ensures { result ≡ spec.by_number None book.now text.now }
{
    Some(target_at(address_named(book, text)?))
}

/// The instruction that a text names by a label, a line or an address.
#[tactic(auto, unfolding(crate::specs::Named::target_in))]
pub fn parse_target(book: &Book, text: &[u8]) -> Option<Target>
    ensures { result ≡ spec.target_in book.now text.now }
{
    match parse_number(text) {
        Some(line) => line_target(book, line),
        None => find_named_target(book, text),
    }
}

/// The number that a text writes, or the value of a symbol or of a sum of one.
#[tactic(auto, unfolding(crate::specs::Named::value_in))]
pub fn parse_value(book: &Book, text: &[u8]) -> Option<u64>
    ensures { result ≡ spec.value_in book.now text.now }
{
    match parse_octa(text) {
        Some(n) => Some(n),
        None => find_named_number(book, text),
    }
}
