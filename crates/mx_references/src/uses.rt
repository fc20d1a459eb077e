//! Where a name is defined and used.

ghost use Rattle.std.specs.Prelude.{◌≡◌, ◌++◌, IfOk, OnOk, option_copied};
ghost use Rattle.std.specs.List.{flat_map};
ghost use Rattle.mx_references.specs.Uses as spec;

use mx_marks::line_text;
use mx_occurrences::{Named, Occurrence, definition_of, occurrence_at, occurrences, same_named};
use mx_wire::{Values, add_array, add_location, add_range, end_of};
use mx_word::{Bytes, NoMemory};
use std::alloc::Global;

/// The range of a name.
pub fn range_text(alloc: Global, source: &[u8], o: &Occurrence) -> Result<Bytes, NoMemory>
    ensures { IfOk result (λ range. range ≡ spec.range_of source.now o.now) }
{
    let line = line_text(o.line, source);
    let to = end_of(line, o.from, o.text.as_slice().len());
    let mut range = Bytes::new(alloc);
    add_range(&mut range, b"", o.line, line, o.from, to)?;
    Ok(range)
}

/// The range of a name in the text of this name.
fn location_text(
    alloc: Global,
    uri: &[u8],
    source: &[u8],
    o: &Occurrence,
) -> Result<Bytes, NoMemory>
    ensures { IfOk result (λ text. text ≡ spec.location_of uri.now source.now o.now) }
{
    let range = range_text(alloc, source, o)?;
    let mut text = Bytes::new(alloc);
    add_location(alloc, &mut text, uri, range.as_slice())?;
    Ok(text)
}

/// The label that a name names, if there is one.
fn label_of<'a>(names: &'a [Occurrence], o: Option<&Occurrence>) -> Option<&'a Occurrence>
    ensures { option_copied result ≡ spec.label_of names.now (option_copied o.entry) }
{
    match o {
        None => None,
        Some(o) => definition_of(names, &o.named),
    }
}

/// Where a label is, or nothing.
fn location_if(
    alloc: Global,
    uri: &[u8],
    source: &[u8],
    label: Option<&Occurrence>,
) -> Result<Bytes, NoMemory>
    ensures { IfOk result (λ text. text ≡ spec.location_if uri.now source.now (option_copied label.entry)) }
{
    match label {
        None => Bytes::copy(alloc, b"null"),
        Some(label) => location_text(alloc, uri, source, label),
    }
}

/// Where the label is that the name at a place names.
pub fn definition(
    alloc: Global,
    uri: &[u8],
    line: u32,
    place: usize,
    source: &[u8],
) -> Result<Bytes, NoMemory>
    ensures { IfOk result (λ text. text ≡ spec.definition uri.now line place source.now) }
{
    let names = occurrences(alloc, source)?;
    let o = occurrence_at(names.as_slice(), line, place);
    let label = label_of(names.as_slice(), o);
    location_if(alloc, uri, source, label)
}

/// Whether a name is one of those that are asked for: it names this, and labels are asked for or it is none.
fn is_meant(named: &Named, has_labels: bool, o: &Occurrence) -> bool
    ensures { result ≡ spec.is_meant named.now has_labels o.now }
{
    same_named(named, o) && (has_labels || !o.is_label)
}

/// Adds a use, if it is one of those that are asked for.
fn add_use(
    alloc: Global,
    values: &mut Values,
    uri: &[u8],
    source: &[u8],
    named: &Named,
    has_labels: bool,
    o: &Occurrence,
) -> Result<(), NoMemory>
    ensures { OnOk result (values.new
        ≡ values.old ++ spec.use_if uri.now source.now named.now has_labels o.now) }
{
    if is_meant(named, has_labels, o) {
        return values.push(location_text(alloc, uri, source, o)?);
    }
    Ok(())
}

/// Adds the uses that are asked for.
fn add_uses(
    alloc: Global,
    values: &mut Values,
    uri: &[u8],
    source: &[u8],
    named: &Named,
    has_labels: bool,
    names: &[Occurrence],
) -> Result<(), NoMemory>
    ensures { OnOk result (values.new
        ≡ values.old ++ flat_map (spec.use_if uri.now source.now named.now has_labels) names.now) }
{
    for o in names {
        add_use(alloc, values, uri, source, named, has_labels, o)?;
    }
    Ok(())
}

/// The uses of what the name at a place names.
fn uses(
    alloc: Global,
    uri: &[u8],
    source: &[u8],
    has_labels: bool,
    names: &[Occurrence],
    o: Option<&Occurrence>,
) -> Result<Values, NoMemory>
    ensures { IfOk result (λ values.
        values ≡ spec.uses uri.now source.now has_labels names.now (option_copied o.entry)) }
{
    let mut values = Values::new(alloc);
    if let Some(o) = o {
        add_uses(alloc, &mut values, uri, source, &o.named, has_labels, names)?;
    }
    Ok(values)
}

/// Where the name at a place is used, with its label or without.
pub fn references(
    alloc: Global,
    uri: &[u8],
    line: u32,
    place: usize,
    has_labels: bool,
    source: &[u8],
) -> Result<Bytes, NoMemory>
    ensures { IfOk result (λ text. text ≡ spec.references uri.now line place has_labels source.now) }
{
    let names = occurrences(alloc, source)?;
    let o = occurrence_at(names.as_slice(), line, place);
    let values = uses(alloc, uri, source, has_labels, names.as_slice(), o)?;
    let mut text = Bytes::new(alloc);
    add_array(&mut text, values.as_slice())?;
    Ok(text)
}

/// The range of a name, or nothing.
fn range_if(alloc: Global, source: &[u8], o: Option<&Occurrence>) -> Result<Bytes, NoMemory>
    ensures { IfOk result (λ text. text ≡ spec.range_if source.now (option_copied o.entry)) }
{
    match o {
        None => Bytes::copy(alloc, b"null"),
        Some(o) => range_text(alloc, source, o),
    }
}

/// The range of the name at a place, or nothing.
pub fn name_range(alloc: Global, line: u32, place: usize, source: &[u8]) -> Result<Bytes, NoMemory>
    ensures { IfOk result (λ text. text ≡ spec.name_range line place source.now) }
{
    let names = occurrences(alloc, source)?;
    range_if(alloc, source, occurrence_at(names.as_slice(), line, place))
}
