//! Where a name is in a text, as an editor marks it.

ghost use Rattle.std.specs.Prelude.{◌≡◌, ◌++◌, IfOk, OnOk, option_copied};
ghost use Rattle.std.specs.List.{flat_map};
ghost use Rattle.mx_references.specs.Uses as spec;

use crate::uses::range_text;
use mx_occurrences::{Named, Occurrence, occurrence_at, occurrences, same_named};
use mx_wire::{Values, add_array};
use mx_word::{Bytes, NoMemory};
use std::alloc::Global;

/// The kind of a mark, as the protocol numbers it: a label is written, and another name is read.
#[tactic(auto, unfolding(crate::specs::Uses::mark_end))]
fn mark_end(is_label: bool) -> &'static [u8]
    ensures { result.now ≡ spec.mark_end is_label }
{
    if is_label {
        b",\"kind\":3}"
    } else {
        b",\"kind\":2}"
    }
}

/// The mark of a name.
#[tactic(auto, unfolding(crate::specs::Uses::mark_of))]
fn mark_text(alloc: Global, source: &[u8], o: &Occurrence) -> Result<Bytes, NoMemory>
    ensures { IfOk result (λ text. text ≡ spec.mark_of source.now o.now) }
{
    let range = range_text(alloc, source, o)?;
    let mut text = Bytes::copy(alloc, b"{\"range\":")?;
    text.extend(range.as_slice())?;
    text.extend(mark_end(o.is_label))?;
    Ok(text)
}

/// Adds the mark of a name, if it names this.
fn add_mark(
    alloc: Global,
    values: &mut Values,
    source: &[u8],
    named: &Named,
    o: &Occurrence,
) -> Result<(), NoMemory>
    ensures { OnOk result (values.new ≡ values.old ++ spec.mark_if source.now named.now o.now) }
{
    if same_named(named, o) {
        return values.push(mark_text(alloc, source, o)?);
    }
    Ok(())
}

/// Adds the marks of the names that name this.
fn add_marks(
    alloc: Global,
    values: &mut Values,
    source: &[u8],
    named: &Named,
    names: &[Occurrence],
) -> Result<(), NoMemory>
    ensures { OnOk result (values.new
        ≡ values.old ++ flat_map (spec.mark_if source.now named.now) names.now) }
{
    for o in names {
        add_mark(alloc, values, source, named, o)?;
    }
    Ok(())
}

/// The marks of what the name at a place names.
fn marks(
    alloc: Global,
    source: &[u8],
    names: &[Occurrence],
    o: Option<&Occurrence>,
) -> Result<Values, NoMemory>
    ensures { IfOk result (λ values. values ≡ spec.marks source.now names.now (option_copied o.entry)) }
{
    let mut values = Values::new(alloc);
    if let Some(o) = o {
        add_marks(alloc, &mut values, source, &o.named, names)?;
    }
    Ok(values)
}

/// Where the name at a place is in the text, as an editor marks it.
pub fn highlights(alloc: Global, line: u32, place: usize, source: &[u8]) -> Result<Bytes, NoMemory>
    ensures { IfOk result (λ text. text ≡ spec.highlights line place source.now) }
{
    let names = occurrences(alloc, source)?;
    let o = occurrence_at(names.as_slice(), line, place);
    let values = marks(alloc, source, names.as_slice(), o)?;
    let mut text = Bytes::new(alloc);
    add_array(&mut text, values.as_slice())?;
    Ok(text)
}
