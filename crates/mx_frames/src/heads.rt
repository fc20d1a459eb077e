//! Headers.

ghost use Rattle.std.specs.Prelude.{◌≡◌, length, take, drop};
ghost use Rattle.std.specs.Str.{str_eq_ignore_ascii_case};
ghost use Rattle.mx_line.specs.Bytes.{run};
ghost use Rattle.mx_word.specs.Kinds as kinds;
ghost use Rattle.mx_frames.specs.Heads as spec;

use mx_word::is_digit;

/// The most bytes of a body.
pub(crate) const BODY_LIMIT: u64 = 1 << 26;

/// A text without its first bytes, so many or all.
#[tactic(auto, using(crate::proofs::Parts::parts))]
fn skip_bytes(text: &[u8], count: usize) -> &[u8]
    ensures { result.now ≡ drop count text.now }
{
    if count < text.len() {
        &text[count..]
    } else {
        &[]
    }
}

/// The first bytes of a text, so many or all.
#[tactic(auto, using(crate::proofs::Parts::parts))]
pub(crate) fn front(text: &[u8], count: usize) -> &[u8]
    ensures { result.now ≡ take count text.now }
{
    if count < text.len() {
        &text[..count]
    } else {
        text
    }
}

/// Whether a header ends here.
pub(crate) fn ends_head(head: &[u8]) -> bool
    ensures { result ≡ spec.ends_head head.now }
{
    skip_bytes(head, head.len().saturating_sub(4)) == b"\r\n\r\n".as_slice()
}

/// Whether two texts differ in the case of their letters alone, or not at all.
#[tactic(auto, using(crate::proofs::Parts::names))]
fn is_same_letters(one: &[u8], other: &[u8]) -> bool
    ensures { result ≡ str_eq_ignore_ascii_case one.now other.now }
{
    one.eq_ignore_ascii_case(other)
}

/// Whether a line begins with the name of the field, in capital or small letters.
fn begins_with_name(text: &[u8]) -> bool
    ensures { result ≡ spec.begins_with_name text.now }
{
    is_same_letters(front(text, 15), b"content-length:")
}

/// How many blanks and tabs are at the front of a text.
fn blank_count(text: &[u8]) -> usize
    ensures { result ≡ length (run spec.is_gap text.now) }
{
    text.iter()
        .take_while(|b| **b == b' ' || **b == b'\t')
        .count()
}

/// How many digits are at the front of a text.
fn digit_count(text: &[u8]) -> usize
    ensures { result ≡ length (run kinds.is_digit text.now) }
{
    text.iter().take_while(|b| is_digit(**b)).count()
}

/// A number with one more digit; one above the limit stays.
fn next_value(value: u64, b: u8) -> u64
    ensures { result ≡ spec.next_value value b }
{
    if value > BODY_LIMIT {
        value
    } else {
        value * 10 + u64::from(b.saturating_sub(b'0'))
    }
}

/// A number by its digits.
fn value_of(digits: &[u8]) -> u64
    ensures { result ≡ spec.value_of digits.now }
{
    let mut value = 0;
    for b in digits {
        value = next_value(value, *b);
    }
    value
}

/// Whether a value ends here.
fn ends_value(text: &[u8]) -> bool
    ensures { result ≡ spec.ends_value text.now }
{
    match text {
        [] => true,
        [b, ..] => *b == b'\r' || *b == b' ' || *b == b'\t',
    }
}

/// The number that is the value of a field.
#[tactic(auto, unfolding(crate::specs::Heads::number_at))]
fn number_at(text: &[u8]) -> Option<u64>
    ensures { result ≡ spec.number_at text.now }
{
    let count = digit_count(text);
    if count == 0 || !ends_value(skip_bytes(text, count)) {
        return None;
    }
    let value = value_of(front(text, count));
    if value > BODY_LIMIT {
        None
    } else {
        Some(value)
    }
}

/// How many bytes the first line of a text has without the newline that ends it.
fn line_count(text: &[u8]) -> usize
    ensures { result ≡ length (run spec.is_no_newline text.now) }
{
    text.iter().take_while(|b| **b != b'\n').count()
}

/// A text without its first line.
fn next_line(text: &[u8]) -> &[u8]
    ensures { result.now ≡ spec.next_line text.now }
{
    skip_bytes(skip_bytes(text, line_count(text)), 1)
}

/// How many bytes the body has after this header, if it says so and they are not too many.
#[tactic(auto, using(crate::proofs::Parts::lines), unfolding(crate::specs::Heads::length_in))]
pub(crate) fn body_length(head: &[u8]) -> Option<u64>
    ensures { result ≡ spec.body_length head.now }
{
    let mut rest = head;
    let mut left = head.len();
    while left > 0 {
        if begins_with_name(rest) {
            let value = skip_bytes(rest, 15);
            return number_at(skip_bytes(value, blank_count(value)));
        }
        rest = next_line(rest);
        left -= 1;
    }
    None
}
