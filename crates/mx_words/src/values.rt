//! Words, and the values that options take.

ghost use Rattle.std.specs.Prelude.{IfOk, ◌≡◌, ◌≤◌, string_bytes};
ghost use Rattle.std.specs.List.{list_all};
ghost use Rattle.mx_word.specs.Kinds.{is_digit};
ghost use Rattle.mx_words.specs.Values as spec;

use mx_registers::RingSize;
use mx_word::is_digit;

/// Whether a word begins with a dash.
pub(crate) fn is_option(word: &String) -> bool
    ensures { result ≡ spec.is_option (string_bytes word.now) }
{
    word.as_bytes().first() == Some(&b'-')
}

/// Whether all bytes are decimal digits.
fn are_digits(bytes: &[u8]) -> bool
    ensures { result ≡ list_all is_digit bytes.now }
{
    bytes.iter().all(|b| is_digit(*b))
}

/// Whether bytes are 1 to 13 decimal digits.
fn is_number(bytes: &[u8]) -> bool
    ensures { result ≡ spec.is_number bytes.now }
{
    1 <= bytes.len() && bytes.len() <= 13 && are_digits(bytes)
}

/// The number that a word writes in 1 to 13 decimal digits.
#[tactic(auto, using(crate::proofs::Parsed::parsing))]
fn parse_number(word: &String) -> Option<u64>
    ensures { result ≡ spec.number_of (string_bytes word.now) }
{
    if is_number(word.as_bytes()) {
        return word.parse::<u64>().ok();
    }
    None
}

/// The value of `--ring`; otherwise the kind of the fault.
pub(crate) fn ring_value(word: &String) -> Result<RingSize, u16>
    ensures { result ≡ spec.ring_value (string_bytes word.now) }
{
    let Some(n) = parse_number(word) else {
        return Err(5);
    };
    let Ok(n) = u32::try_from(n) else {
        return Err(6);
    };
    RingSize::of(n).ok_or(6)
}

/// A number from 1 to `most`; otherwise the kind of the fault.
fn up_to(most: u64, word: &String) -> Result<u64, u16>
    ensures value { result ≡ spec.up_to most (spec.number_of (string_bytes word.now)) }
    ensures range { IfOk result (λ n. n ≤ most) }
{
    match parse_number(word) {
        Some(n) if 1 <= n && n <= most => Ok(n),
        _ => Err(5),
    }
}

/// The value of `--steps`; otherwise the kind of the fault.
pub(crate) fn steps_value(word: &String) -> Result<u64, u16>
    ensures { result ≡ spec.steps_value (string_bytes word.now) }
{
    up_to(1_000_000_000_000, word)
}

/// The value of `--last`; otherwise the kind of the fault.
pub(crate) fn last_value(word: &String) -> Result<u64, u16>
    ensures { result ≡ spec.last_value (string_bytes word.now) }
{
    up_to(1024, word)
}

/// The N of `gen`; otherwise the kind of the fault.
pub(crate) fn blocks_value(word: &String) -> Result<u64, u16>
    ensures value { result ≡ spec.blocks_value (string_bytes word.now) }
    ensures range { IfOk result (λ n. n ≤ 10000) }
{
    up_to(10_000, word)
}
