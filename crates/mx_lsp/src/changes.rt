//! Changes of a text that a message tells.

ghost use Rattle.std.specs.Prelude.{◌≡◌, option_map, IfOk};
ghost use Rattle.serde_json.specs.View.{items_view, view};
ghost use Rattle.mx_lsp.specs.Messages as spec;

use crate::edits::{offset_of, splice};
use crate::message::{number_at, text_of};
use mx_word::{Bytes, NoMemory};
use serde_json::Value;
use std::alloc::Global;

/// A range, if a value is one.
fn range_if(value: Option<&Value>) -> Option<&Value>
    ensures { option_map (λ v. view v.now) result ≡ spec.range_if (option_map (λ v. view v.now) value.entry) }
{
    match value {
        None => None,
        Some(range) => { if range.is_object() { Some(range) } else { None } }
    }
}

/// The part of a text that a change puts another one in place of; nothing where it is the whole text.
fn range_in(change: &Value) -> Option<&Value>
    ensures { option_map (λ v. view v.now) result ≡ spec.range_in (view change.now) }
{
    range_if(change.get("range"))
}

/// The text that a change puts in place of another one.
fn new_text(change: &Value) -> &[u8]
    ensures { result.now ≡ spec.new_text (view change.now) }
{
    match change.get("text") {
        None => b"",
        Some(text) => text_of(text),
    }
}

/// Where a range of a text begins.
fn start_in(text: &[u8], range: &Value) -> usize
    ensures { result ≡ spec.start_in text.now (view range.now) }
{
    let line = number_at(range, "/start/line");
    offset_of(text, line, number_at(range, "/start/character"))
}

/// Where a range of a text ends.
fn end_in(text: &[u8], range: &Value) -> usize
    ensures { result ≡ spec.end_in text.now (view range.now) }
{
    let line = number_at(range, "/end/line");
    offset_of(text, line, number_at(range, "/end/character"))
}

/// What a change makes of a text.
fn make_change(alloc: Global, text: &[u8], change: &Value) -> Result<Bytes, NoMemory>
    ensures { IfOk result (λ whole. whole ≡ spec.changed text.now (view change.now)) }
{
    let new = new_text(change);
    match range_in(change) {
        None => Bytes::copy(alloc, new),
        Some(range) => splice(alloc, text, start_in(text, range), end_in(text, range), new),
    }
}

/// What changes make of a text, one after another.
#[tactic(auto, unfolding(crate::specs::Messages::changed_by))]
fn make_changes(alloc: Global, text: &[u8], changes: &[Value]) -> Result<Bytes, NoMemory>
    ensures { IfOk result (λ whole. whole ≡ spec.changed_by text.now (items_view changes.now)) }
{
    let mut whole = Bytes::copy(alloc, text)?;
    let mut rest = changes;
    while let [change, more @ ..] = rest {
        whole = make_change(alloc, whole.as_slice(), change)?;
        rest = more;
    }
    Ok(whole)
}

/// What the changes of a value make of a text, if it has some.
#[tactic(auto, unfolding(crate::specs::Messages::changed_by))]
fn make_changes_in(alloc: Global, text: &[u8], changes: &Value) -> Result<Bytes, NoMemory>
    ensures { IfOk result (λ whole. whole ≡ spec.changed_by text.now (spec.items_of (view changes.now))) }
{
    match changes.as_array() {
        None => Bytes::copy(alloc, text),
        Some(changes) => make_changes(alloc, text, changes.as_slice()),
    }
}

/// What the changes of a message make of a text.
#[tactic(auto, unfolding(crate::specs::Messages::changed_by))]
pub(crate) fn text_after(alloc: Global, text: &[u8], message: &Value) -> Result<Bytes, NoMemory>
    ensures { IfOk result (λ whole. whole ≡ spec.text_after text.now (view message.now)) }
{
    match message.pointer("/params/contentChanges") {
        None => Bytes::copy(alloc, text),
        Some(changes) => make_changes_in(alloc, text, changes),
    }
}
