//! Words that may be meant.

ghost use Rattle.std.specs.Prelude.{◌≡◌, ◌++◌, IfOk, OnOk, codes, take};
ghost use Rattle.std.specs.List.{flat_map};
ghost use Rattle.std.specs.Str.{str_eq_ignore_ascii_case};
ghost use Rattle.mx_hover.specs.Completions as spec;

use crate::words::{directives, instructions, list_predefined_words};
use mx_json::{add_between, add_string};
use mx_marks::line_text;
use mx_occurrences::{Occurrence, occurrences};
use mx_references::is_symbol_label;
use mx_wire::{Values, add_array};
use mx_word::{Bytes, NoMemory, is_name_byte};
use std::alloc::Global;

/// The first bytes of a text, so many or all.
#[tactic(auto, using(crate::proofs::Fronts::fronts))]
fn front(text: &[u8], count: usize) -> &[u8]
    ensures { result.now ≡ take count text.now }
{
    if count < text.len() {
        &text[..count]
    } else {
        text
    }
}

/// Whether a byte is a letter or a digit, but for the colon.
fn is_word_byte(b: u8) -> bool
    ensures { result ≡ spec.is_word_byte b }
{
    is_name_byte(b) && !(b == b':')
}

/// The letters and digits that a text ends with.
#[tactic(auto, unfolding(crate::specs::Completions::word_from))]
fn last_word(text: &[u8]) -> &[u8]
    ensures { result.now ≡ spec.last_word text.now }
{
    let mut word = text;
    let mut rest = text;
    while let [b, more @ ..] = rest {
        if !is_word_byte(*b) {
            word = more;
        }
        rest = more;
    }
    word
}

/// The letters and digits before a place of a line.
fn word_at(number: u32, from: usize, source: &[u8]) -> &[u8]
    ensures { result.now ≡ spec.word_at number from source.now }
{
    last_word(front(line_text(number, source), from))
}

/// Whether two texts differ in the case of their letters alone, or not at all.
#[tactic(auto, using(crate::proofs::Fronts::letters))]
fn is_same_letters(one: &[u8], other: &[u8]) -> bool
    ensures { result ≡ str_eq_ignore_ascii_case one.now other.now }
{
    one.eq_ignore_ascii_case(other)
}

/// Whether a name begins with a word, in capital or small letters.
fn begins_with(word: &[u8], name: &[u8]) -> bool
    ensures { result ≡ spec.begins_with word.now name.now }
{
    is_same_letters(front(name, word.len()), word)
}

/// A name of a kind, as the protocol numbers it.
#[tactic(auto, unfolding(crate::specs::Completions::item))]
fn item(alloc: Global, kind: &[u8], name: &[u8]) -> Result<Bytes, NoMemory>
    ensures { IfOk result (λ text. text ≡ spec.item kind.now name.now) }
{
    let mut text = Bytes::new(alloc);
    add_string(alloc, &mut text, b"{\"label\":", name)?;
    add_between(&mut text, b",\"kind\":", kind, b"}")?;
    Ok(text)
}

/// Adds a name of a kind, if it begins with a word.
fn add_item(
    alloc: Global,
    values: &mut Values,
    word: &[u8],
    kind: &[u8],
    name: &[u8],
) -> Result<(), NoMemory>
    ensures { OnOk result (values.new ≡ values.old ++ spec.item_if word.now kind.now name.now) }
{
    if begins_with(word, name) {
        return values.push(item(alloc, kind, name)?);
    }
    Ok(())
}

/// Adds those names of a kind that begin with a word.
fn add_names(
    alloc: Global,
    values: &mut Values,
    word: &[u8],
    kind: &[u8],
    names: &[&str],
) -> Result<(), NoMemory>
    ensures { OnOk result (values.new
        ≡ values.old ++ flat_map (λ w. spec.item_if word.now kind.now w.now) names.now) }
{
    for name in names {
        add_item(alloc, values, word, kind, name.as_bytes())?;
    }
    Ok(())
}

/// Adds the pseudo-operations, LDA and SET, as far as they begin with a word.
fn add_directives(alloc: Global, values: &mut Values, word: &[u8]) -> Result<(), NoMemory>
    ensures { OnOk result (values.new
        ≡ values.old ++ flat_map (spec.item_if word.now (codes "14")) spec.directives) }
{
    add_names(alloc, values, word, b"14", directives())
}

/// Adds the instructions that begin with a word.
fn add_instructions(alloc: Global, values: &mut Values, word: &[u8]) -> Result<(), NoMemory>
    ensures { OnOk result (values.new
        ≡ values.old ++ flat_map (spec.item_if word.now (codes "14")) spec.instructions) }
{
    add_names(alloc, values, word, b"14", instructions())
}

/// Adds the predefined symbols that begin with a word.
fn add_predefined(alloc: Global, values: &mut Values, word: &[u8]) -> Result<(), NoMemory>
    ensures { OnOk result (values.new
        ≡ values.old ++ flat_map (spec.item_if word.now (codes "21")) spec.predefined) }
{
    add_names(alloc, values, word, b"21", list_predefined_words())
}

/// Adds a name, if it is the label of a symbol and begins with a word.
fn add_label(
    alloc: Global,
    values: &mut Values,
    word: &[u8],
    o: &Occurrence,
) -> Result<(), NoMemory>
    ensures { OnOk result (values.new ≡ values.old ++ spec.label_if word.now o.now) }
{
    if is_symbol_label(o) {
        return add_item(alloc, values, word, b"6", o.text.as_slice());
    }
    Ok(())
}

/// Adds the labels that begin with a word.
fn add_labels(
    alloc: Global,
    values: &mut Values,
    word: &[u8],
    names: &[Occurrence],
) -> Result<(), NoMemory>
    ensures { OnOk result (values.new ≡ values.old ++ flat_map (spec.label_if word.now) names.now) }
{
    for o in names {
        add_label(alloc, values, word, o)?;
    }
    Ok(())
}

/// The names that begin with a word.
#[tactic(auto, unfolding(crate::specs::Completions::items))]
fn items(alloc: Global, word: &[u8], names: &[Occurrence]) -> Result<Values, NoMemory>
    ensures { IfOk result (λ values. values ≡ spec.items word.now names.now) }
{
    let mut values = Values::new(alloc);
    add_directives(alloc, &mut values, word)?;
    add_instructions(alloc, &mut values, word)?;
    add_labels(alloc, &mut values, word, names)?;
    add_predefined(alloc, &mut values, word)?;
    Ok(values)
}

/// What is answered of a word.
#[tactic(auto, unfolding(crate::specs::Completions::completion_of))]
fn completion_of(alloc: Global, word: &[u8], names: &[Occurrence]) -> Result<Bytes, NoMemory>
    ensures { IfOk result (λ text. text ≡ spec.completion_of word.now names.now) }
{
    let values = items(alloc, word, names)?;
    let mut text = Bytes::copy(alloc, b"{\"isIncomplete\":false,\"items\":")?;
    add_array(&mut text, values.as_slice())?;
    text.extend(b"}")?;
    Ok(text)
}

/// The words that may be meant at a place, where the number of the line is counted from 1: the operations, the labels and the predefined
/// symbols that begin with the letters and digits before it, in capital or small letters.
pub fn completion(alloc: Global, number: u32, from: usize, source: &[u8]) -> Result<Bytes, NoMemory>
    ensures { IfOk result (λ text. text ≡ spec.completion number from source.now) }
{
    let names = occurrences(alloc, source)?;
    completion_of(alloc, word_at(number, from, source), names.as_slice())
}
