//! Things that have values.

use crate::names::{add_address, add_label_between, add_name};
use crate::values::value_of;
use mx_book::{Book, Thing};
use mx_cmd::special_name;
use mx_core::Machine;
use mx_pieces::{add_octa_text, add_short_hex, add_signed, is_short};
use mx_text::{Form, add_decimal, octa_hex};
use mx_word::{Bytes, NoMemory, Symbol, Value};

/// Adds a value as it is shown where no form is asked for.
pub(crate) fn add_usual(text: &mut Bytes, book: &Book, value: u64) -> Result<(), NoMemory> {
    if is_short(value) {
        return add_signed(text, value);
    }
    add_address(text, book, value)
}

/// Adds a value: in a form; or else in decimal digits where these are 12 or fewer, and otherwise in hexadecimal digits, with the
/// label that is near.
pub fn add_value(
    text: &mut Bytes,
    book: &Book,
    value: u64,
    form: Option<Form>,
) -> Result<(), NoMemory> {
    match form {
        None => add_usual(text, book, value),
        Some(Form::Decimal) => add_signed(text, value),
        Some(Form::Hex) => text.extend(&octa_hex(value)),
        Some(Form::Chars) => add_octa_text(text, value),
    }
}

/// Whether a symbol is the register with this number.
fn is_register(symbol: &Symbol, k: u8) -> bool {
    match symbol.value {
        Value::Reg(n) => n == k,
        Value::Pure(_) => false,
    }
}

/// Whether one symbol alone is the register with this number.
fn is_one_register(symbols: &[Symbol], k: u8) -> bool {
    let named = symbols.iter().filter(|symbol| is_register(symbol, k));
    named.count() == 1
}

/// The symbol that is the register with this number, if one alone is.
pub(crate) fn register_symbol(book: &Book, k: u8) -> Option<&Symbol> {
    let symbols = book.symbols.as_slice();
    if !is_one_register(symbols, k) {
        return None;
    }
    symbols.iter().find(|symbol| is_register(symbol, k))
}

/// Adds a register, with its name after it.
fn add_register(text: &mut Bytes, book: &Book, k: u8) -> Result<(), NoMemory> {
    text.push(b'$')?;
    add_decimal(text, u64::from(k))?;
    match register_symbol(book, k) {
        None => Ok(()),
        Some(symbol) => {
            text.extend(b" (")?;
            add_name(text, symbol.name.as_slice())?;
            text.push(b')')
        }
    }
}

/// Adds the name of a special register.
pub(crate) fn add_special(text: &mut Bytes, code: u8) -> Result<(), NoMemory> {
    if code < 32 {
        text.extend(special_name(code).as_bytes())
    } else {
        text.extend(b"r?")
    }
}

/// Adds the octa that holds an address, with the label that is near.
fn add_octa(text: &mut Bytes, book: &Book, a: u64) -> Result<(), NoMemory> {
    let at = a / 8 * 8;
    text.extend(b"M8[")?;
    add_short_hex(text, at)?;
    text.push(b']')?;
    add_label_between(text, b" (", book, at, b")")
}

/// Adds a thing by its name: `$1 (k)`, `rJ`, `M8[#2000000000000000] (Text+8)`, or a number.
pub fn add_thing(text: &mut Bytes, book: &Book, thing: Thing) -> Result<(), NoMemory> {
    match thing {
        Thing::Register(k) => add_register(text, book, k),
        Thing::Special(code) => add_special(text, code),
        Thing::Octa(a) => add_octa(text, book, a),
        Thing::Number(x) => add_usual(text, book, x),
    }
}

/// Whether a special register has the address of an instruction: rJ, rT, rTT, rW and rWW do.
fn is_place(code: u8) -> bool {
    code == 4 || code == 13 || code == 14 || code == 24 || code == 28
}

/// Adds what a thing has, as it is shown where no form is asked for.
pub(crate) fn add_held(
    text: &mut Bytes,
    book: &Book,
    thing: Thing,
    value: u64,
) -> Result<(), NoMemory> {
    match thing {
        Thing::Special(code) if is_place(code) => add_address(text, book, value),
        _ => add_usual(text, book, value),
    }
}

/// Adds what a thing has, in a form if one is asked for.
fn add_formed(
    text: &mut Bytes,
    book: &Book,
    thing: Thing,
    value: u64,
    form: Option<Form>,
) -> Result<(), NoMemory> {
    match form {
        None => add_held(text, book, thing, value),
        Some(_) => add_value(text, book, value, form),
    }
}

/// Adds a thing and what it has: `$1 (k) = 9`; of a number the number alone.
pub fn add_shown(
    text: &mut Bytes,
    book: &Book,
    machine: &Machine,
    thing: Thing,
    form: Option<Form>,
) -> Result<(), NoMemory> {
    match thing {
        Thing::Number(_) => {}
        Thing::Register(_) | Thing::Special(_) | Thing::Octa(_) => {
            add_thing(text, book, thing)?;
            text.extend(b" = ")?;
        }
    }
    add_formed(text, book, thing, value_of(machine, thing), form)?;
    add_inside(text, thing)?;
    text.push(b'\n')
}

/// Adds that an octa is shown since it has an address that is inside it.
fn add_inside(text: &mut Bytes, thing: Thing) -> Result<(), NoMemory> {
    match thing {
        Thing::Octa(a) if a % 8 != 0 => {
            text.extend(b"  (the octa that has ")?;
            add_short_hex(text, a)?;
            text.extend(b")")
        }
        _ => Ok(()),
    }
}

/// Adds what a thing had, if that is known: `  (was 10)`.
pub fn add_was(
    text: &mut Bytes,
    book: &Book,
    thing: Thing,
    old: Option<u64>,
) -> Result<(), NoMemory> {
    let Some(old) = old else {
        return Ok(());
    };
    text.extend(b"  (was ")?;
    add_held(text, book, thing, old)?;
    text.push(b')')
}

/// Adds what a thing has now, and what it had: `$1 (k) = 9  (was 10)`.
pub(crate) fn add_change(
    text: &mut Bytes,
    book: &Book,
    thing: Thing,
    old: u64,
    new: u64,
) -> Result<(), NoMemory> {
    add_thing(text, book, thing)?;
    text.extend(b" = ")?;
    add_held(text, book, thing, new)?;
    add_was(text, book, thing, Some(old))?;
    text.push(b'\n')
}

/// Adds what a watched thing has now, what it had, if that is known, and a note: `watch 2: $1 (k) = 9  (was 10), here $5`.
pub fn add_watched(
    text: &mut Bytes,
    book: &Book,
    number: u64,
    thing: Thing,
    old: Option<u64>,
    new: u64,
    note: &[u8],
) -> Result<(), NoMemory> {
    text.extend(b"watch ")?;
    add_decimal(text, number)?;
    text.extend(b": ")?;
    add_thing(text, book, thing)?;
    text.extend(b" = ")?;
    add_held(text, book, thing, new)?;
    add_was(text, book, thing, old)?;
    text.extend(note)?;
    text.push(b'\n')
}
