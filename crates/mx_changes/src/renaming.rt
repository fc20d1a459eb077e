//! Names that are changed, if the image stays.

ghost use Rattle.std.specs.Prelude.{◌≡◌, ◌++◌, IfOk, OnOk, option_copied};
ghost use Rattle.std.specs.List.{flat_map};
ghost use Rattle.mx_line.specs.Lines.{lines_of};
ghost use Rattle.mx_changes.specs.Changes as spec;

use crate::images::{Compared, compare};
use crate::names::{may_have, new_text};
use mx_json::{add_between, add_string};
use mx_line::cut_line;
use mx_occurrences::{Named, Occurrence, occurrence_at, occurrences, same_named};
use mx_references::range_text;
use mx_wire::{Values, add_array, end_of};
use mx_word::{Bytes, NoMemory};
use std::alloc::Global;

/// What comes of a change: a result, or why it is refused.
#[derive(Drop)]
pub enum Change {
    Done(Bytes),
    Refused(&'static str),
}

/// The bytes of a line from one place up to another.
pub(crate) fn part(line: &[u8], from: usize, to: usize) -> &[u8]
    ensures { result.now ≡ spec.part line.now from to }
{
    if from <= to && to <= line.len() {
        &line[from..to]
    } else {
        &[]
    }
}

/// The next number of a line.
pub(crate) fn next(number: u32) -> u32
    ensures { result ≡ spec.next number }
{
    if number < u32::MAX {
        number + 1
    } else {
        number
    }
}

/// Whether a name in the line with this number names this.
fn is_in_line(named: &Named, number: u32, o: &Occurrence) -> bool
    ensures { result ≡ spec.is_in_line named.now number o.now }
{
    o.line == number && same_named(named, o)
}

/// Adds a line from a place up to a name, and the new name; gives the place after the old one.
fn add_new(
    alloc: Global,
    text: &mut Bytes,
    o: &Occurrence,
    name: &[u8],
    line: &[u8],
    done: usize,
) -> Result<usize, NoMemory>
    ensures text { OnOk result (text.new ≡ text.old ++ spec.part line.now done o.now.from ++ spec.new_text o.now name.now) }
    ensures done { IfOk result (λ n. n ≡ spec.place_after line.now o.now) }
{
    let new = new_text(alloc, o, name)?;
    text.extend(part(line, done, o.from))?;
    text.extend(new.as_slice())?;
    Ok(end_of(line, o.from, o.text.as_slice().len()))
}

/// Adds a line with the names of it that name this changed.
#[tactic(auto, using(crate::proofs::ChangeTurns::texts), unfolding(crate::specs::Changes::changed_line))]
fn add_changed_line(
    alloc: Global,
    text: &mut Bytes,
    names: &[Occurrence],
    named: &Named,
    name: &[u8],
    number: u32,
    line: &[u8],
) -> Result<(), NoMemory>
    ensures { OnOk result (text.new
        ≡ text.old ++ spec.changed_line named.now name.now number line.now 0 names.now) }
{
    let mut done = 0usize;
    let mut rest = names;
    while let [o, more @ ..] = rest {
        if is_in_line(named, number, o) {
            done = add_new(alloc, text, o, name, line, done)?;
        }
        rest = more;
    }
    text.extend(part(line, done, line.len()))
}

/// The text with the names that name this changed.
#[tactic(auto, using(crate::proofs::ChangeTurns::lines))]
fn change_names(
    alloc: Global,
    names: &[Occurrence],
    named: &Named,
    name: &[u8],
    source: &[u8],
) -> Result<Bytes, NoMemory>
    ensures { IfOk result (λ text.
        text ≡ spec.changed_lines names.now named.now name.now 1 (lines_of source.now)) }
{
    let mut text = Bytes::new(alloc);
    let mut rest = source;
    let mut number = 1u32;
    while !rest.is_empty() {
        let (line, others) = cut_line(rest);
        add_changed_line(alloc, &mut text, names, named, name, number, line)?;
        text.extend(b"\n")?;
        number = next(number);
        rest = others;
    }
    Ok(text)
}

/// The change of a name.
#[tactic(auto, unfolding(crate::specs::Changes::edit_text))]
fn edit_text(alloc: Global, source: &[u8], name: &[u8], o: &Occurrence) -> Result<Bytes, NoMemory>
    ensures { IfOk result (λ text. text ≡ spec.edit_text source.now name.now o.now) }
{
    let range = range_text(alloc, source, o)?;
    let new = new_text(alloc, o, name)?;
    let mut text = Bytes::new(alloc);
    add_between(&mut text, b"{\"range\":", range.as_slice(), b"")?;
    add_string(alloc, &mut text, b",\"newText\":", new.as_slice())?;
    text.extend(b"}")?;
    Ok(text)
}

/// Adds the change of a name, if it names this.
fn add_edit(
    alloc: Global,
    values: &mut Values,
    source: &[u8],
    named: &Named,
    name: &[u8],
    o: &Occurrence,
) -> Result<(), NoMemory>
    ensures { OnOk result (values.new ≡ values.old ++ spec.edit_if source.now named.now name.now o.now) }
{
    if same_named(named, o) {
        return values.push(edit_text(alloc, source, name, o)?);
    }
    Ok(())
}

/// Adds the changes of the names that name this.
fn add_edits(
    alloc: Global,
    values: &mut Values,
    source: &[u8],
    named: &Named,
    name: &[u8],
    names: &[Occurrence],
) -> Result<(), NoMemory>
    ensures { OnOk result (values.new
        ≡ values.old ++ flat_map (spec.edit_if source.now named.now name.now) names.now) }
{
    for o in names {
        add_edit(alloc, values, source, named, name, o)?;
    }
    Ok(())
}

/// The changes of the names that name this, as a result.
#[tactic(auto, unfolding(crate::specs::Changes::edits))]
fn edits(
    alloc: Global,
    uri: &[u8],
    names: &[Occurrence],
    named: &Named,
    name: &[u8],
    source: &[u8],
) -> Result<Bytes, NoMemory>
    ensures { IfOk result (λ text. text ≡ spec.edits uri.now names.now named.now name.now source.now) }
{
    let mut values = Values::new(alloc);
    add_edits(alloc, &mut values, source, named, name, names)?;
    let mut result = Bytes::new(alloc);
    add_string(alloc, &mut result, b"{\"changes\":{", uri)?;
    result.extend(b":")?;
    add_array(&mut result, values.as_slice())?;
    result.extend(b"}}")?;
    Ok(result)
}

/// What is answered of a change, by what the source and the changed text come to.
fn change_of(compared: Compared, edit: Bytes) -> Change
    ensures { spec.IsChangeOf edit compared result }
{
    match compared {
        Compared::Same => Change::Done(edit),
        Compared::Different => {
            Change::Refused("the program would be another one: its memory or its registers change")
        }
        Compared::FirstRefused => Change::Refused(
            "the source has faults, so that it cannot be known whether the program stays the same",
        ),
        Compared::SecondRefused => Change::Refused("the source would have a fault then"),
    }
}

/// A change of a source into a text, if the program stays as it is.
pub(crate) fn check_change(
    alloc: Global,
    source: &[u8],
    text: &[u8],
    edit: Bytes,
) -> Result<Change, NoMemory>
    ensures { IfOk result (λ r. spec.IsChecked source.now text.now edit r) }
{
    let compared = compare(alloc, source, text)?;
    Ok(change_of(compared, edit))
}

/// The changes of the names that name this, where the program stays as it is.
fn rename_all(
    alloc: Global,
    uri: &[u8],
    names: &[Occurrence],
    named: &Named,
    name: &[u8],
    source: &[u8],
) -> Result<Change, NoMemory>
    ensures { IfOk result (λ r. spec.IsRenamed uri.now names.now named.now name.now source.now r) }
{
    let text = change_names(alloc, names, named, name, source)?;
    let edit = edits(alloc, uri, names, named, name, source)?;
    check_change(alloc, source, text.as_slice(), edit)
}

/// Changes a name, if there is one and it may become this, where the program stays as it is.
fn rename_at(
    alloc: Global,
    uri: &[u8],
    names: &[Occurrence],
    o: Option<&Occurrence>,
    name: &[u8],
    source: &[u8],
) -> Result<Change, NoMemory>
    ensures { IfOk result (λ r. spec.IsRenamedAt uri.now names.now (option_copied o.entry) name.now source.now r) }
{
    match o {
        None => Ok(Change::Refused("no name is here")),
        Some(o) => {
            if may_have(&o.named, name) {
                rename_all(alloc, uri, names, &o.named, name, source)
            } else {
                Ok(Change::Refused("this is no name"))
            }
        }
    }
}

/// Changes the name at a place of a text, where the image stays as it is.
pub fn rename(
    alloc: Global,
    uri: &[u8],
    line: u32,
    from: usize,
    name: &[u8],
    source: &[u8],
) -> Result<Change, NoMemory>
    ensures { IfOk result (λ r. spec.Renames uri.now line from name.now source.now r) }
{
    let names = occurrences(alloc, source)?;
    let o = occurrence_at(names.as_slice(), line, from);
    rename_at(alloc, uri, names.as_slice(), o, name, source)
}
