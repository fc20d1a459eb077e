//! Values as texts, and references to memory.

ghost use Rattle.std.specs.Prelude.{◌≡◌, ◌++◌, IfOk, OnOk};
ghost use Rattle.mx_panes.specs.Memory.{reference};
ghost use Rattle.mx_panes.specs.Registers as spec;
ghost use Rattle.mx_panes.specs.Registers.{HasDigits};
ghost use Rattle.mx_text.specs.Numbers.{hex_digits};

use mx_ask::parse_address;
use mx_book::{Book, Thing};
use mx_pieces::is_short;
use mx_places::resolve_name;
use mx_tell::{add_label, add_value};
use mx_text::{Form, octa_hex};
use mx_word::{Bytes, NoMemory};
use std::alloc::Global;

/// A label that is this many bytes away, or more, is not near.
const FAR: u64 = 1 << 16;

/// The first address of the data segment.
const DATA: u64 = 1 << 61;

/// The first address that no memory has.
pub(crate) const MEMORY_END: u64 = 1 << 63;

/// Whether a label is near an address, at or before it.
fn has_label(book: &Book, address: u64) -> bool {
    match book.nearest_label(address) {
        Some(label) => address.wrapping_sub(label.address) < FAR,
        None => false,
    }
}

/// Adds the label of an address after something else, where one is near.
pub(crate) fn add_label_after(text: &mut Bytes, book: &Book, address: u64) -> Result<(), NoMemory> {
    if !has_label(book, address) {
        return Ok(());
    }
    text.extend(b"  <")?;
    add_label(text, book, address)?;
    text.extend(b">")
}

/// The label that is near a long value, after something else.
fn label_of(alloc: Global, book: &Book, value: u64) -> Result<Bytes, NoMemory> {
    let mut text = Bytes::new(alloc);
    if !is_short(value) {
        add_label_after(&mut text, book, value)?;
    }
    Ok(text)
}

/// The decimal digits of a value.
fn decimal_of(alloc: Global, book: &Book, value: u64) -> Result<Bytes, NoMemory> {
    let mut text = Bytes::new(alloc);
    add_value(&mut text, book, value, Some(Form::Decimal))?;
    Ok(text)
}

/// The hexadecimal digits of a value, after other digits and before a label.
#[tactic(auto, unfolding(crate::specs::Registers::digits_text))]
fn digits_text(alloc: Global, front: &[u8], value: u64, label: &[u8]) -> Result<Bytes, NoMemory>
    ensures { IfOk result (λ text. text ≡ spec.digits_text front.now value label.now) }
{
    let mut text = Bytes::copy(alloc, front)?;
    text.extend(b"  ")?;
    text.extend(&octa_hex(value))?;
    text.extend(label)?;
    Ok(text)
}

/// A value in decimal and hexadecimal digits, with the label that is near a long one.
#[tactic(auto, using(crate::proofs::Shown::showing))]
pub(crate) fn value_text(alloc: Global, book: &Book, value: u64) -> Result<Bytes, NoMemory>
    ensures { IfOk result (HasDigits value) }
{
    let front = decimal_of(alloc, book, value)?;
    let label = label_of(alloc, book, value)?;
    let text = digits_text(alloc, front.as_slice(), value, label.as_slice())?;
    Ok(text)
}

/// Whether a value may be an address of data.
pub(crate) fn is_data(value: u64) -> bool {
    DATA <= value && value < MEMORY_END
}

/// Adds the hexadecimal digits of an address.
fn add_digits(text: &mut Bytes, address: u64) -> Result<(), NoMemory>
    ensures { OnOk result (text.new ≡ text.old ++ hex_digits 16 address) }
{
    let digits = octa_hex(address);
    text.extend(&digits[1..])
}

/// Adds the reference to an address between quotation marks.
#[tactic(auto, unfolding(crate::specs::Memory::reference))]
pub fn add_reference(text: &mut Bytes, front: &[u8], address: u64) -> Result<(), NoMemory>
    ensures { OnOk result (text.new ≡ text.old ++ front.now ++ reference address) }
{
    text.extend(front)?;
    text.extend(b"\"0x")?;
    add_digits(text, address)?;
    text.extend(b"\"")
}

/// The address that hexadecimal digits write.
fn hexadecimal(alloc: Global, digits: &[u8]) -> Result<Option<u64>, NoMemory> {
    let mut text = Bytes::copy(alloc, b"#")?;
    text.extend(digits)?;
    Ok(parse_address(text.as_slice()))
}

/// The address that a text names as `print` would.
fn find_named_address(book: &Book, text: &[u8]) -> Option<u64> {
    match resolve_name(book, text)? {
        Thing::Octa(a) | Thing::Number(a) => Some(a),
        Thing::Register(_) | Thing::Special(_) => None,
    }
}

/// The address that a reference names.
pub fn parse_reference(alloc: Global, book: &Book, text: &[u8]) -> Result<Option<u64>, NoMemory> {
    match text {
        [b'0', b'x', digits @ ..] => hexadecimal(alloc, digits),
        [b'#', ..] => Ok(parse_address(text)),
        _ => Ok(find_named_address(book, text)),
    }
}
