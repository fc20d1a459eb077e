//! The listing of an object as a text.

ghost use Rattle.std.specs.Prelude.{◌≡◌, ◌++◌, IfOk, OnOk, codes, decimal, map};
ghost use Rattle.std.specs.List.{flat_map};
ghost use Rattle.mx_type.specs.Lines as lines;
ghost use Rattle.mx_object.specs.Rows as spec;

use crate::labels::{Label, Place};
use crate::tetras::{FoundTetra, ListedTetra};
use crate::view::ListedObject;
use mx_text::{add_decimal, octa_hex, tetra_hex};
use mx_type::Lister;
use mx_word::{Bytes, NoMemory, Symbol};
use std::alloc::Global;

/// A byte of a name as it is shown: itself from 33 to 126, otherwise a dot.
fn name_byte(b: u8) -> u8
    ensures { result ≡ lines.name_byte b }
{
    if 33 <= b && b <= 126 { b } else { b'.' }
}

/// A complete name without the colon that it begins with.
fn short_name(name: &[u8]) -> &[u8]
    ensures { result.now ≡ spec.short_name name.now }
{
    match name {
        [first, others @ ..] if *first == b':' => others,
        _ => name,
    }
}

/// Adds bytes of a name as they are shown.
fn add_shown(text: &mut Bytes, name: &[u8]) -> Result<(), NoMemory>
    ensures { OnOk result (text.new ≡ text.old ++ map lines.name_byte name.now) }
{
    for b in name {
        text.push(name_byte(*b))?;
    }
    Ok(())
}

/// Adds a name as it is shown.
fn add_name(text: &mut Bytes, name: &[u8]) -> Result<(), NoMemory>
    ensures { OnOk result (text.new ≡ text.old ++ spec.shown_name name.now) }
{
    add_shown(text, short_name(name))
}

/// Adds the byte of a tetra that a label has, unless it is the first one.
fn add_byte(text: &mut Bytes, byte: u64) -> Result<(), NoMemory>
    ensures { OnOk result (text.new ≡ text.old ++ spec.byte_text byte) }
{
    if byte == 0 {
        return Ok(());
    }
    text.extend(b" byte ")?;
    add_decimal(text, byte)
}

/// Adds a label.
pub(crate) fn add_label(text: &mut Bytes, label: &Label) -> Result<(), NoMemory>
    ensures { OnOk result (text.new ≡ text.old ++ spec.label_text label.now) }
{
    add_name(text, label.name.as_slice())?;
    text.push(b':')?;
    add_byte(text, label.address % 4)
}

/// Adds the row of a label.
fn add_label_row(text: &mut Bytes, label: &Label) -> Result<(), NoMemory>
    ensures { OnOk result (text.new ≡ text.old ++ spec.label_row label.now) }
{
    add_label(text, label)?;
    text.push(b'\n')
}

/// Adds the rows of labels.
fn add_label_rows(text: &mut Bytes, labels: &[Label]) -> Result<(), NoMemory>
    ensures { OnOk result (text.new ≡ text.old ++ flat_map spec.label_row labels.now) }
{
    for label in labels {
        add_label_row(text, label)?;
    }
    Ok(())
}

/// Adds a number, filled up with blanks on the left to five places.
fn add_padded(alloc: Global, text: &mut Bytes, number: u32) -> Result<(), NoMemory>
    ensures { OnOk result (text.new ≡ text.old ++ spec.padded (decimal number)) }
{
    let mut digits = Bytes::new(alloc);
    add_decimal(&mut digits, u64::from(number))?;
    let blanks = 5usize.saturating_sub(digits.as_slice().len());
    text.extend(&b"     "[..blanks])?;
    text.extend(digits.as_slice())
}

/// Adds the number of a line, if it is known.
fn add_line(alloc: Global, text: &mut Bytes, line: Option<u32>) -> Result<(), NoMemory>
    ensures { OnOk result (text.new ≡ text.old ++ spec.line_text line) }
{
    let Some(line) = line else {
        return Ok(());
    };
    add_padded(alloc, text, line)?;
    text.extend(b": ")
}

/// Adds a tetra with its address, its line and its instruction.
fn add_tetra(alloc: Global, text: &mut Bytes, tetra: &ListedTetra) -> Result<(), NoMemory>
    ensures { OnOk result (text.new ≡ text.old ++ spec.tetra_text tetra.now) }
{
    text.extend(&octa_hex(tetra.address))?;
    text.extend(b": ")?;
    text.extend(&tetra_hex(tetra.tetra))?;
    text.extend(b"  ")?;
    add_line(alloc, text, tetra.line)?;
    text.extend(tetra.text.as_slice())
}

/// Adds the row of a tetra.
pub(crate) fn add_tetra_row(
    alloc: Global,
    text: &mut Bytes,
    tetra: &ListedTetra,
) -> Result<(), NoMemory>
    ensures { OnOk result (text.new ≡ text.old ++ spec.tetra_row tetra.now) }
{
    add_tetra(alloc, text, tetra)?;
    text.push(b'\n')
}

/// Adds the rows of the labels of a tetra, and its own.
fn add_rows(alloc: Global, text: &mut Bytes, tetra: &ListedTetra) -> Result<(), NoMemory>
    ensures { OnOk result (text.new ≡ text.old ++ spec.rows_of tetra.now) }
{
    add_label_rows(text, tetra.labels.as_slice())?;
    add_tetra_row(alloc, text, tetra)
}

/// Adds the rows of tetras.
fn add_all_rows(alloc: Global, text: &mut Bytes, tetras: &[ListedTetra]) -> Result<(), NoMemory>
    ensures { OnOk result (text.new ≡ text.old ++ flat_map spec.rows_of tetras.now) }
{
    for tetra in tetras {
        add_rows(alloc, text, tetra)?;
    }
    Ok(())
}

/// Adds the lines of symbols.
fn add_symbols(text: &mut Bytes, lister: &Lister, symbols: &[Symbol]) -> Result<(), NoMemory>
    ensures { OnOk result (
        text.new ≡ text.old ++ flat_map (λ s. lines.ended (lines.symbol_line s)) symbols.now) }
{
    for symbol in symbols {
        let line = lister.symbol_line(symbol)?;
        text.extend(line.as_slice())?;
    }
    Ok(())
}

/// What is listed of an object as a text: the rows of each tetra, and the symbols in the order of their names.
pub fn format_listing(alloc: Global, listed: &ListedObject) -> Result<Bytes, NoMemory>
    ensures { IfOk result (λ text. text ≡ spec.listing_of listed.now) }
{
    let mut text = Bytes::new(alloc);
    add_all_rows(alloc, &mut text, listed.tetras.as_slice())?;
    text.push(b'\n')?;
    add_symbols(&mut text, &Lister::new(alloc), listed.symbols.as_slice())?;
    Ok(text)
}

/// Adds how many bytes after a symbol an address is, unless it is that of the symbol.
fn add_offset(text: &mut Bytes, offset: u64) -> Result<(), NoMemory>
    ensures { OnOk result (text.new ≡ text.old ++ spec.offset_text offset) }
{
    if offset == 0 {
        return Ok(());
    }
    text.push(b'+')?;
    add_decimal(text, offset)
}

/// Adds the row of a place, if there is one.
fn add_place(text: &mut Bytes, place: &Option<Place>) -> Result<(), NoMemory>
    ensures { OnOk result (text.new ≡ text.old ++ spec.place_row place.now) }
{
    let Some(place) = place else {
        return Ok(());
    };
    add_name(text, place.name.as_slice())?;
    add_offset(text, place.offset)?;
    text.extend(b":\n")
}

/// The tetra that holds an address as a text: the place of the address, and the row of the tetra; no text where there is
/// none.
pub fn format_found(alloc: Global, found: &Option<FoundTetra>) -> Result<Bytes, NoMemory>
    ensures { IfOk result (λ text. text ≡ spec.found_row found.now) }
{
    let mut text = Bytes::new(alloc);
    if let Some(found) = found {
        add_place(&mut text, &found.place)?;
        add_tetra_row(alloc, &mut text, &found.tetra)?;
    }
    Ok(text)
}
