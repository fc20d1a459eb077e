//! What is told of a place of a text.

ghost use Rattle.std.specs.Prelude.{◌≡◌, ◌++◌, IfOk, OnOk, option_copied};
ghost use Rattle.std.specs.List.{find};
ghost use Rattle.mx_ops.specs.Predefined.{predefined_value};
ghost use Rattle.mx_occurrences.specs.Occurrences.{occurrences_of};
ghost use Rattle.mx_slips.specs.Sources.{unloaded_lines};
ghost use Rattle.mx_hover.specs.Hovers as spec;

use crate::cells::{add_loads, is_instruction};
use crate::meaning::meaning;
use crate::statement::statement_at;
use mx_json::{add_between, add_number, add_string};
use mx_marks::line_text;
use mx_occurrences::{Named, Occurrence, definition_of, occurrence_at, occurrences_in};
use mx_ops::{find, predefined};
use mx_references::range_text;
use mx_slips::{Piece, SourceLine, Statement, read_lines};
use mx_text::{add_decimal, octa_hex};
use mx_view::{ListedLine, Wanted, list_source};
use mx_wire::{add_range, end_of};
use mx_word::{Bytes, NoMemory, Symbol, Value};
use std::alloc::Global;

/// Adds the value of a symbol.
fn add_value(text: &mut Bytes, value: Value) -> Result<(), NoMemory>
    ensures { OnOk result (text.new ≡ text.old ++ spec.value_text value) }
{
    match value {
        Value::Pure(x) => text.extend(&octa_hex(x)),
        Value::Reg(k) => {
            text.extend(b"$")?;
            add_decimal(text, u64::from(k))
        }
    }
}

/// Whether a symbol has this complete name.
fn has_name(name: &[u8], symbol: &Symbol) -> bool
    ensures { result ≡ spec.has_name name.now symbol.now }
{
    symbol.name.as_slice() == name
}

/// The symbol of a complete name.
fn symbol_named<'a>(symbols: &'a [Symbol], name: &[u8]) -> Option<&'a Symbol>
    ensures { option_copied result ≡ find (spec.has_name name.now) symbols.now }
{
    symbols.iter().find(|s| has_name(name, s))
}

/// A complete name without the colon at its front.
fn without_colon(name: &[u8]) -> &[u8]
    ensures { result.now ≡ spec.without_colon name.now }
{
    match name {
        [] => &[],
        [_, rest @ ..] => rest,
    }
}

/// Adds a symbol by its complete name, with its value.
#[tactic(auto, unfolding(crate::specs::Hovers::symbol_line))]
fn add_symbol_line(text: &mut Bytes, name: &[u8], value: Value) -> Result<(), NoMemory>
    ensures { OnOk result (text.new ≡ text.old ++ spec.symbol_line name.now value) }
{
    text.extend(name)?;
    text.extend(b" = ")?;
    add_value(text, value)?;
    text.extend(b"\n")
}

/// Adds what a name means, if it is that of a predefined symbol.
fn add_predefined(alloc: Global, text: &mut Bytes, name: &[u8]) -> Result<(), NoMemory>
    ensures { OnOk result (text.new ≡ text.old ++ spec.predefined_text name.now (predefined_value name.now)) }
{
    match predefined(name) {
        None => Ok(()),
        Some(_) => {
            let told = meaning(alloc, without_colon(name))?;
            text.extend(told.as_slice())
        }
    }
}

/// Adds what a symbol is.
fn add_symbol(
    alloc: Global,
    text: &mut Bytes,
    symbols: &[Symbol],
    name: &[u8],
) -> Result<(), NoMemory>
    ensures { OnOk result (text.new ≡ text.old ++ spec.symbol_text symbols.now name.now) }
{
    match symbol_named(symbols, name) {
        None => add_predefined(alloc, text, name),
        Some(symbol) => add_symbol_line(text, name, symbol.value),
    }
}

/// Adds the value of a name, if it is one of a symbol.
fn add_named(
    alloc: Global,
    text: &mut Bytes,
    symbols: &[Symbol],
    named: &Named,
) -> Result<(), NoMemory>
    ensures { OnOk result (text.new ≡ text.old ++ spec.value_told symbols.now named.now) }
{
    match named {
        Named::Symbol(name) => add_symbol(alloc, text, symbols, name.as_slice()),
        Named::Local(_, _) => Ok(()),
    }
}

/// Adds a line with its number.
#[tactic(auto, unfolding(crate::specs::Hovers::label_line))]
fn add_label_line(text: &mut Bytes, source: &[u8], number: u32) -> Result<(), NoMemory>
    ensures { OnOk result (text.new ≡ text.old ++ spec.label_line source.now number) }
{
    add_number(text, b"line ", u64::from(number))?;
    add_between(text, b": ", line_text(number, source), b"\n")
}

/// Adds the line of a label and what it loads, if there is a label.
fn add_label(
    alloc: Global,
    text: &mut Bytes,
    source: &[u8],
    lines: &[ListedLine],
    label: Option<&Occurrence>,
) -> Result<(), NoMemory>
    ensures { OnOk result (text.new ≡ text.old ++ spec.label_told source.now lines.now (option_copied label.entry)) }
{
    match label {
        None => Ok(()),
        Some(label) => {
            add_label_line(text, source, label.line)?;
            add_loads(alloc, text, lines, label.line, false)
        }
    }
}

/// What is told of a name: its value, and the line of its label.
fn name_text(
    alloc: Global,
    source: &[u8],
    lines: &[ListedLine],
    symbols: &[Symbol],
    names: &[Occurrence],
    o: &Occurrence,
) -> Result<Bytes, NoMemory>
    ensures { IfOk result (λ text. text ≡ spec.name_text source.now lines.now symbols.now names.now o.now) }
{
    let mut text = Bytes::new(alloc);
    add_named(alloc, &mut text, symbols, &o.named)?;
    add_label(
        alloc,
        &mut text,
        source,
        lines,
        definition_of(names, &o.named),
    )?;
    Ok(text)
}

/// What is told of a statement: what its line loads, and what its operation means.
fn statement_text(
    alloc: Global,
    lines: &[ListedLine],
    number: u32,
    statement: &Statement,
) -> Result<Bytes, NoMemory>
    ensures { IfOk result (λ text. text ≡ spec.statement_text lines.now number statement.now) }
{
    let op = statement.op.text.as_slice();
    let mut text = Bytes::new(alloc);
    add_loads(alloc, &mut text, lines, number, is_instruction(find(op)))?;
    let meant = meaning(alloc, op)?;
    text.extend(meant.as_slice())?;
    Ok(text)
}

/// What is answered: a text with the range that it is about.
#[tactic(auto, unfolding(crate::specs::Hovers::shown))]
fn show_told(alloc: Global, told: &[u8], range: &[u8]) -> Result<Bytes, NoMemory>
    ensures { IfOk result (λ text. text ≡ spec.shown told.now range.now) }
{
    let mut text = Bytes::new(alloc);
    add_string(
        alloc,
        &mut text,
        b"{\"contents\":{\"kind\":\"plaintext\",\"value\":",
        told,
    )?;
    add_between(&mut text, b"},\"range\":", range, b"}")?;
    Ok(text)
}

/// What is answered: a text with the range that it is about, or otherwise this.
fn show_or(alloc: Global, told: &[u8], range: &[u8], otherwise: &[u8]) -> Result<Bytes, NoMemory>
    ensures { IfOk result (λ text. text ≡ spec.shown_or told.now range.now otherwise.now) }
{
    match told {
        [] => Bytes::copy(alloc, otherwise),
        [_, ..] => show_told(alloc, told, range),
    }
}

/// The range of a part of a line.
fn piece_range(alloc: Global, line: &[u8], number: u32, piece: &Piece) -> Result<Bytes, NoMemory>
    ensures { IfOk result (λ text. text ≡ spec.piece_range line.now number piece.now) }
{
    let mut text = Bytes::new(alloc);
    let to = end_of(line, piece.from, piece.text.as_slice().len());
    add_range(&mut text, b"", number, line, piece.from, to)?;
    Ok(text)
}

/// What is answered of a statement of a line.
fn statement_hover(
    alloc: Global,
    source: &[u8],
    lines: &[ListedLine],
    number: u32,
    statement: Option<&Statement>,
) -> Result<Bytes, NoMemory>
    ensures { IfOk result (λ text. text ≡ spec.statement_hover source.now lines.now number (option_copied statement.entry)) }
{
    match statement {
        None => Bytes::copy(alloc, b"null"),
        Some(statement) => {
            let told = statement_text(alloc, lines, number, statement)?;
            let range = piece_range(alloc, line_text(number, source), number, &statement.op)?;
            show_or(alloc, told.as_slice(), range.as_slice(), b"null")
        }
    }
}

/// What is answered of a name, or otherwise this.
fn name_hover(
    alloc: Global,
    source: &[u8],
    lines: &[ListedLine],
    symbols: &[Symbol],
    names: &[Occurrence],
    o: Option<&Occurrence>,
    otherwise: &[u8],
) -> Result<Bytes, NoMemory>
    ensures { IfOk result (λ text. text
        ≡ spec.name_hover source.now lines.now symbols.now names.now (option_copied o.entry) otherwise.now) }
{
    match o {
        None => Bytes::copy(alloc, otherwise),
        Some(o) => {
            let told = name_text(alloc, source, lines, symbols, names, o)?;
            let range = range_text(alloc, source, o)?;
            show_or(alloc, told.as_slice(), range.as_slice(), otherwise)
        }
    }
}

/// What is answered of a place of a source that is listed so.
fn hover_in(
    alloc: Global,
    source: &[u8],
    lines: &[ListedLine],
    symbols: &[Symbol],
    read: &[SourceLine],
    number: u32,
    from: usize,
) -> Result<Bytes, NoMemory>
    requires { read.now ≡ unloaded_lines source.now }
    ensures { IfOk result (λ text. text ≡ spec.hover_in source.now lines.now symbols.now (occurrences_of source.now) number from) }
{
    let names = occurrences_in(alloc, read)?;
    let statement = statement_at(read, number, from);
    let otherwise = statement_hover(alloc, source, lines, number, statement)?;
    let o = occurrence_at(names.as_slice(), number, from);
    name_hover(
        alloc,
        source,
        lines,
        symbols,
        names.as_slice(),
        o,
        otherwise.as_slice(),
    )
}

/// What an editor is told of a place of a text, where the number of the line is counted from 1: of a name its value and the line of its
/// label; of a statement what its line loads and what its operation means; else `null`.
pub fn hover(alloc: Global, number: u32, from: usize, source: &[u8]) -> Result<Bytes, NoMemory>
    ensures { IfOk result (λ text. text ≡ spec.hover number from source.now) }
{
    let listed = list_source(alloc, Wanted::All, source)?;
    let read = read_lines(alloc, source)?;
    hover_in(
        alloc,
        source,
        listed.lines.as_slice(),
        listed.symbols.as_slice(),
        read.as_slice(),
        number,
        from,
    )
}
