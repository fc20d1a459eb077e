//! Lines and symbols of a source as JSON.

ghost use Rattle.std.specs.Prelude.{◌≡◌, ◌++◌, OnOk};
ghost use Rattle.mx_json.specs.Json.{array, further};
ghost use Rattle.face_source.specs.SourceJson as spec;

use mx_json::{add_number, add_object, add_quoted, add_string};
use mx_text::{octa_hex, tetra_hex};
use mx_view::{Cell, ListedLine};
use mx_word::{Bytes, NoMemory, Symbol, Value};
use std::alloc::Global;

/// Adds an address, as `#` and 16 hexadecimal digits.
#[tactic(auto, unfolding(crate::specs::SourceJson::address_json))]
fn add_address(text: &mut Bytes, front: &[u8], address: u64) -> Result<(), NoMemory>
    ensures { OnOk result (text.new ≡ text.old ++ front.now ++ spec.address_json address) }
{
    add_quoted(text, front, &octa_hex(address))
}

/// The name of an address, at the beginning of an object.
#[tactic(auto, unfolding(crate::specs::SourceJson::address_name))]
fn address_name() -> &'static [u8]
    ensures { result.now ≡ spec.address_name }
{
    b"{\"address\":"
}

/// Begins an object that has an address.
#[tactic(auto, unfolding(crate::specs::SourceJson::at_address))]
pub fn add_at(text: &mut Bytes, address: u64) -> Result<(), NoMemory>
    ensures { OnOk result (text.new ≡ text.old ++ spec.at_address address) }
{
    add_address(text, address_name(), address)
}

/// Adds the digits of a tetra.
#[tactic(auto, unfolding(crate::specs::SourceJson::tetra_json))]
fn add_tetra(text: &mut Bytes, front: &[u8], tetra: u32) -> Result<(), NoMemory>
    ensures { OnOk result (text.new ≡ text.old ++ front.now ++ spec.tetra_json tetra) }
{
    add_quoted(text, front, &tetra_hex(tetra))
}

/// Adds a tetra with its address.
#[tactic(auto, unfolding(crate::specs::SourceJson::cell_json))]
fn add_cell(text: &mut Bytes, cell: Cell) -> Result<(), NoMemory>
    ensures { OnOk result (text.new ≡ text.old ++ spec.cell_json cell) }
{
    add_at(text, cell.address)?;
    add_tetra(text, b",\"tetra\":", cell.tetra)?;
    text.extend(b"}")
}

/// Adds further tetras of a line.
fn add_more_cells(text: &mut Bytes, cells: &[Cell]) -> Result<(), NoMemory>
    ensures { OnOk result (text.new ≡ text.old ++ further spec.cell_json cells.now) }
{
    for cell in cells {
        text.extend(b",")?;
        add_cell(text, *cell)?;
    }
    Ok(())
}

/// Adds the tetras of a line.
pub fn add_cells(text: &mut Bytes, cells: &[Cell]) -> Result<(), NoMemory>
    ensures { OnOk result (text.new ≡ text.old ++ array spec.cell_json cells.now) }
{
    match cells {
        [] => text.extend(b"[]"),
        [cell, more @ ..] => {
            text.extend(b"[")?;
            add_cell(text, *cell)?;
            add_more_cells(text, more)?;
            text.extend(b"]")
        }
    }
}

/// Adds a line with its tetras.
#[tactic(auto, unfolding(crate::specs::SourceJson::line_json))]
fn add_line(alloc: Global, text: &mut Bytes, line: &ListedLine) -> Result<(), NoMemory>
    ensures { OnOk result (text.new ≡ text.old ++ spec.line_json line.now) }
{
    add_object(text, line.text.as_slice())?;
    text.extend(b"\"cells\":")?;
    add_cells(text, line.cells.as_slice())?;
    add_number(text, b",\"line\":", u64::from(line.number))?;
    add_string(alloc, text, b",\"text\":", line.text.as_slice())?;
    text.extend(b"}")
}

/// Adds further lines.
fn add_more_lines(alloc: Global, text: &mut Bytes, lines: &[ListedLine]) -> Result<(), NoMemory>
    ensures { OnOk result (text.new ≡ text.old ++ further spec.line_json lines.now) }
{
    for line in lines {
        text.extend(b",")?;
        add_line(alloc, text, line)?;
    }
    Ok(())
}

/// Adds lines.
pub fn add_lines(alloc: Global, text: &mut Bytes, lines: &[ListedLine]) -> Result<(), NoMemory>
    ensures { OnOk result (text.new ≡ text.old ++ array spec.line_json lines.now) }
{
    match lines {
        [] => text.extend(b"[]"),
        [line, more @ ..] => {
            text.extend(b"[")?;
            add_line(alloc, text, line)?;
            add_more_lines(alloc, text, more)?;
            text.extend(b"]")
        }
    }
}

/// Adds what a symbol means.
#[tactic(auto, unfolding(crate::specs::SourceJson::value_json))]
fn add_value(text: &mut Bytes, value: Value) -> Result<(), NoMemory>
    ensures { OnOk result (text.new ≡ text.old ++ spec.value_json value) }
{
    match value {
        Value::Pure(octa) => add_address(text, b"", octa),
        Value::Reg(register) => {
            add_number(text, b"\"$", u64::from(register))?;
            text.extend(b"\"")
        }
    }
}

/// Adds a symbol.
#[tactic(auto, unfolding(crate::specs::SourceJson::symbol_json))]
fn add_symbol(alloc: Global, text: &mut Bytes, symbol: &Symbol) -> Result<(), NoMemory>
    ensures { OnOk result (text.new ≡ text.old ++ spec.symbol_json symbol.now) }
{
    add_object(text, symbol.name.as_slice())?;
    add_string(alloc, text, b"\"name\":", symbol.name.as_slice())?;
    add_number(text, b",\"serial\":", u64::from(symbol.serial))?;
    text.extend(b",\"value\":")?;
    add_value(text, symbol.value)?;
    text.extend(b"}")
}

/// Adds further symbols.
fn add_more_symbols(alloc: Global, text: &mut Bytes, symbols: &[Symbol]) -> Result<(), NoMemory>
    ensures { OnOk result (text.new ≡ text.old ++ further spec.symbol_json symbols.now) }
{
    for symbol in symbols {
        text.extend(b",")?;
        add_symbol(alloc, text, symbol)?;
    }
    Ok(())
}

/// Adds symbols.
pub fn add_symbols(alloc: Global, text: &mut Bytes, symbols: &[Symbol]) -> Result<(), NoMemory>
    ensures { OnOk result (text.new ≡ text.old ++ array spec.symbol_json symbols.now) }
{
    match symbols {
        [] => text.extend(b"[]"),
        [symbol, more @ ..] => {
            text.extend(b"[")?;
            add_symbol(alloc, text, symbol)?;
            add_more_symbols(alloc, text, more)?;
            text.extend(b"]")
        }
    }
}
