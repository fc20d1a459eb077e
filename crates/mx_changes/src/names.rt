//! What becomes of names that are changed.

ghost use Rattle.std.specs.Prelude.{◌≡◌, ◌≤◌, IfOk, drop, take};
ghost use Rattle.mx_changes.specs.Names as spec;

use mx_occurrences::{Named, Occurrence};
use mx_word::{Bytes, NoMemory, is_digit, is_letter, is_name_byte};
use std::alloc::Global;

/// Whether a byte is that of a way: H, B or F.
fn is_way(b: u8) -> bool
    ensures { result ≡ spec.is_way b }
{
    b == b'H' || b == b'B' || b == b'F'
}

/// A byte, if it is a digit and this is so.
fn digit_if(b: u8, is: bool) -> Option<u8>
    ensures { result ≡ spec.digit_if b is }
{
    if is_digit(b) && is { Some(b) } else { None }
}

/// The digit of a local label as a new name has it: `d`, `dH`, `dB` or `dF`.
pub(crate) fn new_digit(name: &[u8]) -> Option<u8>
    ensures { result ≡ spec.new_digit name.now }
{
    match name {
        [d] => digit_if(*d, true),
        [d, way] => digit_if(*d, is_way(*way)),
        _ => None,
    }
}

/// Whether all bytes of a text are those of names.
fn are_name_bytes(text: &[u8]) -> bool
    ensures { result ≡ spec.are_name_bytes text.now }
{
    text.iter().all(|b| is_name_byte(*b))
}

/// Whether a text is a name of a symbol.
fn is_name(text: &[u8]) -> bool
    ensures { result ≡ spec.is_name text.now }
{
    match text {
        [] => false,
        [b, ..] => is_letter(*b) && are_name_bytes(text),
    }
}

/// Whether something may have the new name.
pub(crate) fn may_have(named: &Named, name: &[u8]) -> bool
    ensures { result ≡ spec.may_have named.now name.now }
{
    match named {
        Named::Symbol(_) => is_name(name),
        Named::Local(_, _) => is_name(name) || new_digit(name).is_some(),
    }
}

/// How many bytes of a name its last colon and what is before it have.
#[tactic(auto, unfolding(crate::specs::Names::lead_from))]
fn lead_length(text: &[u8]) -> usize
    ensures { result ≡ spec.lead_from 0 0 text.now }
{
    let mut length = 0usize;
    let mut place = 0usize;
    let mut rest = text;
    while let [b, more @ ..] = rest {
        place += 1;
        if *b == b':' {
            length = place;
        }
        rest = more;
    }
    length
}

/// The first bytes of a text, so many or all.
#[tactic(auto, using(crate::proofs::Leads::fronts))]
pub(crate) fn front(text: &[u8], count: usize) -> &[u8]
    ensures { result.now ≡ take count text.now }
{
    if count < text.len() {
        &text[..count]
    } else {
        text
    }
}

/// A text without its first bytes, so many or all.
#[tactic(auto, using(crate::proofs::Leads::fronts))]
pub(crate) fn rest_after(text: &[u8], count: usize) -> &[u8]
    ensures { result.now ≡ drop count text.now }
{
    if count < text.len() {
        &text[count..]
    } else {
        &[]
    }
}

/// The letter of a local label.
fn way_of(text: &[u8]) -> Option<u8>
    ensures { result ≡ spec.way_of text.now }
{
    match text {
        [_, way] => Some(*way),
        _ => None,
    }
}

/// A local label of this digit with the letter of another one.
fn local_with(alloc: Global, d: u8, way: Option<u8>) -> Result<Bytes, NoMemory>
    ensures { IfOk result (λ text. text ≡ spec.local_with d way) }
{
    let mut text = Bytes::new(alloc);
    text.push(d)?;
    if let Some(way) = way {
        text.push(way)?;
    }
    Ok(text)
}

/// What a local label becomes: it keeps its letter, where the new name is one of a local label.
fn new_local(alloc: Global, old: &[u8], name: &[u8]) -> Result<Bytes, NoMemory>
    ensures { IfOk result (λ text. text ≡ spec.new_local old.now name.now) }
{
    match new_digit(name) {
        None => Bytes::copy(alloc, name),
        Some(d) => local_with(alloc, d, way_of(old)),
    }
}

/// What the name of a symbol becomes: the part up to its last colon stays.
fn new_symbol(alloc: Global, old: &[u8], name: &[u8]) -> Result<Bytes, NoMemory>
    ensures { IfOk result (λ text. text ≡ spec.new_symbol old.now name.now) }
{
    let mut text = Bytes::copy(alloc, front(old, lead_length(old)))?;
    text.extend(name)?;
    Ok(text)
}

/// What a name becomes.
pub(crate) fn new_text(alloc: Global, o: &Occurrence, name: &[u8]) -> Result<Bytes, NoMemory>
    ensures { IfOk result (λ text. text ≡ spec.new_text o.now name.now) }
{
    match &o.named {
        Named::Local(_, _) => new_local(alloc, o.text.as_slice(), name),
        Named::Symbol(_) => new_symbol(alloc, o.text.as_slice(), name),
    }
}
