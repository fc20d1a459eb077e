//! Numbers, addresses and places as a line writes them.

ghost use Rattle.std.specs.Prelude.{◌≡◌, ◌≤◌, ◌^◌, ℕ};
ghost use Rattle.std.specs.List.{list_all};
ghost use Rattle.mx_word.specs.Kinds as kinds;
ghost use Rattle.mx_cmd.specs.Numerals as numerals;
ghost use Rattle.mx_ask.specs.Places as spec;

use mx_cmd::{Command, Subject, parse_command};
use mx_word::{is_digit, is_hexadecimal};

/// What a digit counts.
fn digit_value(b: u8) -> u64
    ensures value { result ≡ numerals.digit_value b }
    ensures range { result ≤ 255 }
{
    if is_digit(b) {
        return u64::from(b - b'0');
    }
    if b >= b'a' {
        return u64::from(b - 87);
    }
    u64::from(b.saturating_sub(55))
}

/// A number with one more digit; nothing where it is 2^64 or more.
#[tactic(auto, using(mx_cmd::proofs::Written::writing))]
fn with_digit(base: u64, n: Option<u64>, b: u8) -> Option<u64>
    requires { 1 ≤ base }
    ensures { (m : ℕ) → n ≡ numerals.below (2 ^ 64) m →
        result ≡ numerals.below (2 ^ 64) (numerals.with_digit base m b) }
{
    n?.checked_mul(base)?.checked_add(digit_value(b))
}

/// The octa that digits write in a base; nothing where the number is 2^64 or more.
#[tactic(auto, unfolding(mx_cmd::specs::Numerals::octa_written))]
fn parse_octa_digits(base: u64, digits: &[u8]) -> Option<u64>
    requires { 1 ≤ base }
    ensures { result ≡ numerals.octa_written base digits.now }
{
    let mut n = Some(0);
    for b in digits {
        n = with_digit(base, n, *b);
    }
    n
}

/// Whether all bytes are decimal digits.
fn are_digits(text: &[u8]) -> bool
    ensures { result ≡ list_all kinds.is_digit text.now }
{
    text.iter().all(|b| is_digit(*b))
}

/// Whether all bytes are hexadecimal digits.
fn are_hexadecimal(text: &[u8]) -> bool
    ensures { result ≡ list_all kinds.is_hexadecimal text.now }
{
    text.iter().all(|b| is_hexadecimal(*b))
}

/// The number that decimal digits write, one digit or more; nothing where it is 2^64 or more.
#[tactic(auto, unfolding(crate::specs::Places::number_in))]
pub fn parse_number(text: &[u8]) -> Option<u64>
    ensures { result ≡ spec.number_in text.now }
{
    if text.is_empty() || !are_digits(text) {
        return None;
    }
    parse_octa_digits(10, text)
}

/// How often something is done: once where nothing is written.
#[tactic(auto, unfolding(crate::specs::Places::count_in))]
pub fn parse_count(text: &[u8]) -> Option<u64>
    ensures { result ≡ spec.count_in text.now }
{
    if text.is_empty() {
        return Some(1);
    }
    parse_number(text)
}

/// The number that hexadecimal digits write, one digit or more; nothing where it is 2^64 or more.
fn hexadecimal_in(text: &[u8]) -> Option<u64>
    ensures { result ≡ spec.joined (numerals.value_written 16 kinds.is_hexadecimal text.now) }
{
    if text.is_empty() || !are_hexadecimal(text) {
        return None;
    }
    parse_octa_digits(16, text)
}

/// The address that `#` and hexadecimal digits write.
#[tactic(auto, unfolding(crate::specs::Places::address_in))]
pub fn parse_address(text: &[u8]) -> Option<u64>
    ensures { result ≡ spec.address_in text.now }
{
    let [first, digits @ ..] = text else {
        return None;
    };
    if *first == b'#' {
        hexadecimal_in(digits)
    } else {
        None
    }
}

/// The octa that decimal digits write, digits after a minus sign, or `#` and hexadecimal digits.
#[tactic(auto, unfolding(crate::specs::Places::octa_in))]
pub fn parse_octa(text: &[u8]) -> Option<u64>
    ensures { result ≡ spec.octa_in text.now }
{
    let [first, digits @ ..] = text else {
        return None;
    };
    match *first {
        b'-' => Some(0u64.wrapping_sub(parse_number(digits)?)),
        b'#' => hexadecimal_in(digits),
        _ => parse_number(text),
    }
}

/// The place that `$K`, `gK`, `rX` and `M#ADDRESS` write.
#[tactic(auto, unfolding(crate::specs::Places::subject_in))]
pub fn parse_subject(text: &[u8]) -> Option<Subject>
    ensures { result ≡ spec.subject_in text.now }
{
    match parse_command(text) {
        Some(Command::Show(subject, _)) => Some(subject),
        _ => None,
    }
}
