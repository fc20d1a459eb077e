//! Where operands cease to be expressions.

ghost use Rattle.std.specs.Prelude.{◌≡◌, ◌<◌, ◌^◌, length};
ghost use Rattle.mx_line.specs.Bytes.{run};
ghost use Rattle.mx_word.specs.Kinds as kinds;
ghost use Rattle.mx_marks.specs.Syntax as spec;

use crate::fields::cut_leading_word;
use crate::tokens::{digits_length, string_length};
use crate::under::split_at_most;
use mx_word::{is_digit, is_hexadecimal, is_letter};

/// Whether a byte may come before a primary.
fn is_prefix(b: u8) -> bool
    ensures { result ≡ spec.is_prefix b }
{
    b == b'(' || b == b'+' || b == b'-' || b == b'~' || b == b'$'
}

/// Whether a byte is between two primaries.
fn is_infix(b: u8) -> bool
    ensures { result ≡ spec.is_infix b }
{
    b == b','
        || b == b'*'
        || b == b'/'
        || b == b'%'
        || b == b'&'
        || b == b'+'
        || b == b'-'
        || b == b'|'
        || b == b'^'
}

/// Whether a byte and the next one are one operator.
fn is_pair(b: u8, rest: &[u8]) -> bool
    ensures { result ≡ spec.is_pair b rest.now }
{
    match rest {
        [] => false,
        [c, ..] => b == *c && (b == b'/' || b == b'<' || b == b'>'),
    }
}

/// Whether a text begins with `B` or `F`.
fn is_turn(text: &[u8]) -> bool
    ensures { result ≡ spec.is_turn text.now }
{
    match text {
        [] => false,
        [b, ..] => *b == b'B' || *b == b'F',
    }
}

/// How many bytes the decimal number or the local label has that a text begins with.
fn number_length(text: &[u8]) -> usize
    ensures { result ≡ spec.number_length text.now }
{
    let count = digits_length(text);
    if count == 1 && is_turn(split_at_most(text, 1).1) {
        2
    } else {
        count
    }
}

/// How many hexadecimal digits are at the front of a text.
fn hexadecimal_length(text: &[u8]) -> usize
    ensures { result ≡ length (run kinds.is_hexadecimal text.now) }
{
    text.iter().take_while(|b| is_hexadecimal(**b)).count()
}

/// How many bytes a hexadecimal number has, with its mark.
fn hash_length(count: usize) -> usize
    requires { count < 2 ^ 63 }
    ensures { result ≡ spec.hash_length count }
{
    if count == 0 { 0 } else { count + 1 }
}

/// How many bytes the primary has that a text begins with; 0 where it is none.
#[tactic(auto, using(crate::proofs::TokenTurns::lengths))]
fn primary_length(text: &[u8]) -> usize
    ensures { result ≡ spec.primary_length text.now }
{
    let [b, rest @ ..] = text else {
        return 0;
    };
    if *b == b'"' {
        string_length(rest).saturating_add(2)
    } else if *b == b'\'' {
        3
    } else if *b == b'#' {
        hash_length(hexadecimal_length(rest))
    } else if *b == b'@' {
        1
    } else if is_digit(*b) {
        number_length(text)
    } else if is_letter(*b) {
        cut_leading_word(text).len()
    } else {
        0
    }
}

/// How many bytes are taken where a primary is wanted.
fn measure_wanting(text: &[u8]) -> usize
    ensures { result ≡ spec.wanting_length text.now }
{
    match text {
        [] => 0,
        [b, ..] => {
            if is_prefix(*b) {
                1
            } else {
                primary_length(text)
            }
        }
    }
}

/// How many bytes are taken after a primary.
#[tactic(auto, using(crate::proofs::SyntaxTurns::rests))]
fn after_length(text: &[u8]) -> usize
    ensures { result ≡ spec.after_length text.now }
{
    let [b, rest @ ..] = text else {
        return 0;
    };
    if is_pair(*b, rest) {
        2
    } else if is_infix(*b) || *b == b')' {
        1
    } else {
        0
    }
}

/// How many bytes are taken; 0 where nothing fits.
fn step_length(wants: bool, text: &[u8]) -> usize
    ensures { result ≡ spec.step_length wants text.now }
{
    if wants {
        measure_wanting(text)
    } else {
        after_length(text)
    }
}

/// Whether a primary is wanted after the part that a text begins with.
fn is_wanting(wants: bool, text: &[u8]) -> bool
    ensures { result ≡ spec.is_wanting wants text.now }
{
    match text {
        [] => wants,
        [b, ..] => { if wants { is_prefix(*b) } else { *b != b')' } }
    }
}

/// What is left of operands where no part is taken, and whether a primary is wanted there.
#[tactic(auto, using(crate::proofs::SyntaxTurns::scans))]
pub(crate) fn scan(text: &[u8]) -> (bool, &[u8])
    ensures wants { result.0 ≡ (spec.scan text.now).wants }
    ensures rest { result.1.now ≡ (spec.scan text.now).rest }
{
    let mut wants = true;
    let mut rest = text;
    let mut left = text.len();
    while left > 0 {
        let count = step_length(wants, rest);
        if count == 0 {
            return (wants, rest);
        }
        wants = is_wanting(wants, rest);
        rest = split_at_most(rest, count).1;
        left -= 1;
    }
    (wants, rest)
}

/// Whether all parts of operands are taken, so that they are no expressions because they end too early or for their parentheses.
pub fn is_read_through(operands: &[u8]) -> bool
    ensures { result ≡ spec.is_read_through operands.now }
{
    scan(operands).1.is_empty()
}
