//! Numbers as a line writes them.

ghost use Rattle.std.specs.Prelude.{◌≡◌, ◌≤◌, ◌^◌, ℕ, length};
ghost use Rattle.std.specs.List.{list_all};
ghost use Rattle.mx_word.specs.Kinds as kinds;
ghost use Rattle.mx_cmd.specs.Numerals as spec;

use mx_word::{is_digit, is_hexadecimal};

/// The decimal digits at the front of a text, and what follows them.
#[tactic(auto, using(crate::proofs::Fronts::fronts))]
pub(crate) fn split_digits(text: &[u8]) -> (&[u8], &[u8])
    ensures front { result.0.now ≡ spec.front kinds.is_digit text.now }
    ensures rest { result.1.now ≡ spec.past kinds.is_digit text.now }
{
    text.split_at(digit_count(text))
}

fn digit_count(text: &[u8]) -> usize
    ensures { result ≡ length (spec.front kinds.is_digit text.now) }
{
    text.iter().take_while(|b| is_digit(**b)).count()
}

/// The hexadecimal digits at the front of a text, and what follows them.
#[tactic(auto, using(crate::proofs::Fronts::fronts))]
pub(crate) fn hexadecimal_digits(text: &[u8]) -> (&[u8], &[u8])
    ensures front { result.0.now ≡ spec.front kinds.is_hexadecimal text.now }
    ensures rest { result.1.now ≡ spec.past kinds.is_hexadecimal text.now }
{
    text.split_at(hexadecimal_count(text))
}

fn hexadecimal_count(text: &[u8]) -> usize
    ensures { result ≡ length (spec.front kinds.is_hexadecimal text.now) }
{
    text.iter().take_while(|b| is_hexadecimal(**b)).count()
}

/// What a digit counts.
fn digit_value(b: u8) -> u64
    ensures value { result ≡ spec.digit_value b }
    ensures range { result ≤ 255 }
{
    if is_digit(b) {
        return u64::from(b - b'0');
    }
    if b >= b'a' {
        return u64::from(b - 87);
    }
    u64::from(b.saturating_sub(55))
}

/// A number with one more digit; nothing where it is 2^64 or more.
#[tactic(auto, using(crate::proofs::Written::writing))]
fn with_digit(base: u64, n: Option<u64>, b: u8) -> Option<u64>
    requires { 1 ≤ base }
    ensures { (m : ℕ) → n ≡ spec.below (2 ^ 64) m → result ≡ spec.below (2 ^ 64) (spec.with_digit base m b) }
{
    n?.checked_mul(base)?.checked_add(digit_value(b))
}

#[tactic(auto, unfolding(crate::specs::Numerals::octa_written))]
/// The octa that digits write in a base; nothing where the number is 2^64 or more.
pub(crate) fn parse_octa_digits(base: u64, digits: &[u8]) -> Option<u64>
    requires { 1 ≤ base }
    ensures { result ≡ spec.octa_written base digits.now }
{
    let mut n = Some(0);
    for b in digits {
        n = with_digit(base, n, *b);
    }
    n
}

fn are_digits(text: &[u8]) -> bool
    ensures { result ≡ list_all kinds.is_digit text.now }
{
    text.iter().all(|b| is_digit(*b))
}

fn are_hexadecimal(text: &[u8]) -> bool
    ensures { result ≡ list_all kinds.is_hexadecimal text.now }
{
    text.iter().all(|b| is_hexadecimal(*b))
}

/// Digits of a kind in a base; None where they are none, or not all of the kind.
fn decimal_value(text: &[u8]) -> Option<Option<u64>>
    ensures { result ≡ spec.value_written 10 kinds.is_digit text.now }
{
    if text.is_empty() {
        return None;
    }
    if are_digits(text) {
        Some(parse_octa_digits(10, text))
    } else {
        None
    }
}

fn hexadecimal_value(text: &[u8]) -> Option<Option<u64>>
    ensures { result ≡ spec.value_written 16 kinds.is_hexadecimal text.now }
{
    if text.is_empty() {
        return None;
    }
    if are_hexadecimal(text) {
        Some(parse_octa_digits(16, text))
    } else {
        None
    }
}

/// -n modulo 2^64; None where n is above 2^63.
fn minus(n: Option<u64>) -> Option<u64>
    ensures { result ≡ spec.minus n }
{
    let n = n?;
    if n <= 1 << 63 {
        Some(0_u64.wrapping_sub(n))
    } else {
        None
    }
}

/// A value. None where the text has another form; the value is None where it is out of range.
pub(crate) fn value_of(text: &[u8]) -> Option<Option<u64>>
    ensures { result ≡ spec.value_of text.now }
{
    let [first, rest @ ..] = text else {
        return None;
    };
    match *first {
        b'-' => Some(minus(decimal_value(rest)?)),
        b'#' => hexadecimal_value(rest),
        _ => decimal_value(text),
    }
}

/// A text without a `#` at its front.
pub(crate) fn without_hash(text: &[u8]) -> &[u8]
    ensures { result.now ≡ spec.without_hash text.now }
{
    match text {
        [first, rest @ ..] if *first == b'#' => rest,
        _ => text,
    }
}

/// The address that 1 to 16 hexadecimal digits are; None where they are none or more.
pub(crate) fn parse_address_digits(digits: &[u8]) -> Option<u64>
    ensures { result ≡ spec.address_written digits.now }
{
    if digits.is_empty() || digits.len() > 16 {
        return None;
    }
    parse_octa_digits(16, digits)
}

/// The address that a text is.
#[tactic(auto, unfolding(crate::specs::Numerals::address_of))]
pub(crate) fn address_of(text: &[u8]) -> Option<u64>
    ensures { result ≡ spec.address_of text.now }
{
    let (digits, rest) = hexadecimal_digits(without_hash(text));
    if rest.is_empty() {
        parse_address_digits(digits)
    } else {
        None
    }
}
