//! The labels of a text as its outline.

ghost use Rattle.std.specs.Prelude.{◌≡◌, ◌++◌, IfOk, OnOk};
ghost use Rattle.std.specs.List.{flat_map};
ghost use Rattle.mx_references.specs.Outline as spec;

use crate::uses::range_text;
use mx_json::{add_between, add_string};
use mx_marks::{line_text, operation_at};
use mx_occurrences::{Named, Occurrence, occurrences};
use mx_ops::{Op, Pseudo, find};
use mx_wire::{Values, add_array, add_line_range};
use mx_word::{Bytes, NoMemory};
use std::alloc::Global;

/// The kind of a label by the operation of its statement, as the protocol numbers it: a constant, a variable, or a function.
#[tactic(auto, unfolding(crate::specs::Outline::kind_of))]
fn kind_of(op: Option<Op>) -> &'static [u8]
    ensures { result.now ≡ spec.kind_of op }
{
    match op {
        Some(Op::Pseudo(Pseudo::Is)) => b"14",
        Some(Op::Pseudo(_)) => b"13",
        _ => b"12",
    }
}

/// What is before the range of a name.
#[tactic(auto, unfolding(crate::specs::Outline::selection_name))]
fn selection_name() -> &'static [u8]
    ensures { result.now ≡ spec.selection_name }
{
    b",\"selectionRange\":"
}

/// A label.
#[tactic(auto, unfolding(crate::specs::Outline::label_text))]
fn label_text(alloc: Global, source: &[u8], o: &Occurrence) -> Result<Bytes, NoMemory>
    ensures { IfOk result (λ text. text ≡ spec.label_text source.now o.now) }
{
    let line = line_text(o.line, source);
    let range = range_text(alloc, source, o)?;
    let mut text = Bytes::new(alloc);
    add_string(alloc, &mut text, b"{\"name\":", o.text.as_slice())?;
    text.extend(b",\"kind\":")?;
    text.extend(kind_of(find(operation_at(line, o.from))))?;
    add_line_range(&mut text, b",\"range\":", o.line, line)?;
    add_between(&mut text, selection_name(), range.as_slice(), b"}")?;
    Ok(text)
}

/// Whether a name is the label of a symbol.
pub fn is_symbol_label(o: &Occurrence) -> bool
    ensures { result ≡ spec.is_symbol_label o.now }
{
    match &o.named {
        Named::Symbol(_) => o.is_label,
        Named::Local(_, _) => false,
    }
}

/// Adds a name, if it is the label of a symbol.
fn add_label(
    alloc: Global,
    values: &mut Values,
    source: &[u8],
    o: &Occurrence,
) -> Result<(), NoMemory>
    ensures { OnOk result (values.new ≡ values.old ++ spec.label_if source.now o.now) }
{
    if is_symbol_label(o) {
        return values.push(label_text(alloc, source, o)?);
    }
    Ok(())
}

/// Adds the labels of symbols.
fn add_labels(
    alloc: Global,
    values: &mut Values,
    source: &[u8],
    names: &[Occurrence],
) -> Result<(), NoMemory>
    ensures { OnOk result (values.new ≡ values.old ++ flat_map (spec.label_if source.now) names.now) }
{
    for o in names {
        add_label(alloc, values, source, o)?;
    }
    Ok(())
}

/// The labels of a text, but for local ones.
pub fn outline(alloc: Global, source: &[u8]) -> Result<Bytes, NoMemory>
    ensures { IfOk result (λ text. text ≡ spec.outline source.now) }
{
    let names = occurrences(alloc, source)?;
    let mut values = Values::new(alloc);
    add_labels(alloc, &mut values, source, names.as_slice())?;
    let mut text = Bytes::new(alloc);
    add_array(&mut text, values.as_slice())?;
    Ok(text)
}
