//! The parts of an operand field, and the first one that a fault is about.

ghost use Rattle.std.specs.Prelude.{◌≡◌, ◌≤◌, ◌+◌, IfOk, fold, length};
ghost use Rattle.mx_line.specs.Bytes.{run};
ghost use Rattle.mx_word.specs.Kinds as kinds;
ghost use Rattle.mx_marks.specs.Tokens as spec;

use crate::fields::{cut_leading_word, skip_past_comma};
use crate::labels::{is_data_label, is_label};
use crate::under::split_at_most;
use mx_ops::predefined;
use mx_word::{Bytes, NoMemory, is_digit, is_letter, is_name_byte};
use std::alloc::Global;

/// The value from which on a number is not counted further.
const LARGE: u64 = 1 << 40;

/// A part of operands that is wanted: a name that is no label, a local label with `F`, a number above this limit, a label of data, a
/// register above the last one, or a plus in front of a register.
#[derive(Clone, Copy)]
pub(crate) enum Wanted {
    Unknown,
    Ahead,
    Above(u64),
    Address,
    Register,
    Sum,
}

/// How many bytes of a string come before its closing quote.
pub(crate) fn string_length(text: &[u8]) -> usize
    ensures { result ≡ length (run spec.is_in_string text.now) }
{
    text.iter().take_while(|b| **b != b'"').count()
}

/// How many digits are at the front of a text.
pub(crate) fn digits_length(text: &[u8]) -> usize
    ensures { result ≡ length (run kinds.is_digit text.now) }
{
    text.iter().take_while(|b| is_digit(**b)).count()
}

/// How many bytes the first part of operands has.
#[tactic(auto, using(crate::proofs::TokenTurns::lengths))]
fn part_length(text: &[u8]) -> usize
    ensures { result ≡ spec.part_length text.now }
{
    let [b, rest @ ..] = text else {
        return 0;
    };
    if *b == b'"' {
        string_length(rest).saturating_add(2)
    } else if *b == b'\'' {
        3
    } else if *b == b'#' {
        cut_leading_word(rest).len().saturating_add(1)
    } else if *b == b'$' {
        digits_length(rest).saturating_add(1)
    } else if is_name_byte(*b) {
        cut_leading_word(text).len()
    } else {
        1
    }
}

/// The value of a digit.
fn digit_of(b: u8) -> u64
    ensures { result ≡ spec.digit_of b }
{
    if b <= b'9' {
        u64::from(b.saturating_sub(b'0'))
    } else if b <= b'F' {
        u64::from(b.saturating_sub(55))
    } else {
        u64::from(b.saturating_sub(87))
    }
}

/// A number with one more digit, to a base up to 16.
fn next_value(base: u64, value: u64, b: u8) -> u64
    requires { base ≤ 16 }
    ensures { result ≡ spec.next_value base value b }
{
    if value > LARGE {
        value
    } else {
        value * base + digit_of(b)
    }
}

/// A number by its digits, to a base up to 16.
fn value_of(base: u64, digits: &[u8]) -> u64
    requires { base ≤ 16 }
    ensures { result ≡ spec.value_of base digits.now }
{
    let mut value = 0;
    for b in digits {
        value = next_value(base, value, *b);
    }
    value
}

/// Whether a text begins with a digit.
fn starts_with_digit(text: &[u8]) -> bool
    ensures { result ≡ spec.begins_digit text.now }
{
    match text {
        [] => false,
        [b, ..] => is_digit(*b),
    }
}

/// Whether a text begins with a number above a limit, or with a minus and a digit.
#[tactic(auto, using(crate::proofs::TokenTurns::lengths))]
fn is_above(limit: u64, text: &[u8]) -> bool
    ensures { result ≡ spec.is_above limit text.now }
{
    let [b, rest @ ..] = text else {
        return false;
    };
    if *b == b'-' {
        starts_with_digit(rest)
    } else if *b == b'#' {
        limit < value_of(16, cut_leading_word(rest))
    } else {
        is_digit(*b) && limit < value_of(10, text.split_at(digits_length(text)).0)
    }
}

/// Whether a name is one that MMIXAL defines itself.
fn is_predefined(alloc: Global, name: &[u8]) -> Result<bool, NoMemory>
    ensures { IfOk result (λ is. is ≡ spec.is_predefined name.now) }
{
    let mut full = Bytes::copy(alloc, b":")?;
    full.extend(name)?;
    Ok(predefined(full.as_slice()).is_some())
}

/// Whether a text begins with a name.
fn starts_with_name(text: &[u8]) -> bool
    ensures { result ≡ spec.begins_name text.now }
{
    match text {
        [] => false,
        [b, ..] => is_letter(*b),
    }
}

/// Whether a text begins with a name that is no label of this many lines of a source.
fn is_unknown(alloc: Global, source: &[u8], most: u32, text: &[u8]) -> Result<bool, NoMemory>
    ensures { IfOk result (λ is. is ≡ spec.is_unknown source.now most text.now) }
{
    if !starts_with_name(text) || is_label(cut_leading_word(text), most, source) {
        return Ok(false);
    }
    Ok(!is_predefined(alloc, cut_leading_word(text))?)
}

/// Whether a word is a digit and `F`.
fn is_ahead(word: &[u8]) -> bool
    ensures { result ≡ spec.is_ahead word.now }
{
    match word {
        [d, f] => is_digit(*d) && *f == b'F',
        _ => false,
    }
}

/// Whether a text begins with a register above the last one.
#[tactic(auto, using(crate::proofs::TokenTurns::lengths))]
fn starts_with_no_register(text: &[u8]) -> bool
    ensures { result ≡ spec.begins_no_register text.now }
{
    match text {
        [] => false,
        [b, rest @ ..] => { *b == b'$' && 255 < value_of(10, rest.split_at(digits_length(rest)).0) }
    }
}

/// Whether a text begins with a plus in front of a register.
fn starts_with_sum(text: &[u8]) -> bool
    ensures { result ≡ spec.begins_sum text.now }
{
    match text {
        [b, c, ..] => *b == b'+' && *c == b'$',
        _ => false,
    }
}

/// Whether a text begins with what is wanted.
fn is_wanted(
    alloc: Global,
    kind: Wanted,
    source: &[u8],
    most: u32,
    text: &[u8],
) -> Result<bool, NoMemory>
    ensures { IfOk result (λ is. is ≡ spec.is_wanted kind source.now most text.now) }
{
    match kind {
        Wanted::Unknown => is_unknown(alloc, source, most, text),
        Wanted::Ahead => Ok(is_ahead(cut_leading_word(text))),
        Wanted::Above(limit) => Ok(is_above(limit, text)),
        Wanted::Address => {
            Ok(starts_with_name(text) && is_data_label(cut_leading_word(text), source))
        }
        Wanted::Register => Ok(starts_with_no_register(text)),
        Wanted::Sum => Ok(starts_with_sum(text)),
    }
}

/// A text from the first of its parts on that is wanted; no text where none is.
#[tactic(auto, using(crate::proofs::TokenTurns::parts))]
pub(crate) fn from_part<'a>(
    alloc: Global,
    kind: Wanted,
    source: &[u8],
    most: u32,
    text: &'a [u8],
) -> Result<&'a [u8], NoMemory>
    ensures { IfOk result (λ part. part.now ≡ spec.from_part (length text.now) kind source.now most text.now) }
{
    let mut rest = text;
    let mut left = text.len();
    while left > 0 {
        if is_wanted(alloc, kind, source, most, rest)? {
            return Ok(rest);
        }
        rest = split_at_most(rest, part_length(rest)).1;
        left -= 1;
    }
    Ok(&[])
}

/// Whether operands begin with a number, and a comma follows it.
fn leads_number(operands: &[u8]) -> bool
    ensures { result ≡ spec.leads_number operands.now }
{
    match operands {
        [] => false,
        [b, ..] => (is_digit(*b) || *b == b'#') && !skip_past_comma(operands).is_empty(),
    }
}

/// From the number on that is in the place of a register: the first or the second of operands, and not the last one.
pub(crate) fn number_part(operands: &[u8]) -> &[u8]
    ensures { result.now ≡ spec.number_part operands.now }
{
    let others = skip_past_comma(operands);
    if leads_number(operands) {
        operands
    } else if leads_number(others) {
        others
    } else {
        &[]
    }
}

/// How long the part is that a text begins with, a minus with its number included.
#[tactic(auto, using(crate::proofs::TokenTurns::lengths))]
pub(crate) fn measure_marked(text: &[u8]) -> usize
    ensures { result ≡ spec.marked_length text.now }
{
    let [b, rest @ ..] = text else {
        return 0;
    };
    if *b == b'-' || *b == b'#' || *b == b'$' {
        cut_leading_word(rest).len().saturating_add(1)
    } else if is_name_byte(*b) {
        cut_leading_word(text).len()
    } else {
        1
    }
}
