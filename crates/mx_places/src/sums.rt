//! Places as they are shown: a name with a number added or taken away, and a unit of memory in brackets.

ghost use Rattle.std.specs.Prelude.{◌≡◌, length};
ghost use Rattle.std.specs.Option.{option_map};
ghost use Rattle.mx_cmd.specs.Numerals.{front, past};
ghost use Rattle.mx_places.specs.Sums as spec;

use mx_ask::{Unit, parse_octa};

/// Whether a byte adds no number and takes none away.
fn is_no_sum(b: u8) -> bool
    ensures { result ≡ spec.is_no_sum b }
{
    !(b == b'+' || b == b'-')
}

/// Whether a byte is no closing bracket.
fn is_no_closing(b: u8) -> bool
    ensures { result ≡ spec.is_no_closing b }
{
    b != b']'
}

fn base_count(text: &[u8]) -> usize
    ensures { result ≡ length (front spec.is_no_sum text.now) }
{
    text.iter().take_while(|b| is_no_sum(**b)).count()
}

fn inner_count(text: &[u8]) -> usize
    ensures { result ≡ length (front spec.is_no_closing text.now) }
{
    text.iter().take_while(|b| is_no_closing(**b)).count()
}

/// What is in front of the first `+` or `-`, and the rest from there on.
#[tactic(auto, using(mx_cmd::proofs::Fronts::fronts))]
pub(crate) fn cut_sum(text: &[u8]) -> (&[u8], &[u8])
    ensures base { result.0.now ≡ spec.base_in text.now }
    ensures rest { result.1.now ≡ spec.from_sum text.now }
{
    text.split_at(base_count(text))
}

/// The number that is added, modulo 2^64.
pub(crate) fn parse_offset(text: &[u8]) -> Option<u64>
    ensures { result ≡ spec.offset_in text.now }
{
    let [sign, digits @ ..] = text else {
        return None;
    };
    match *sign {
        b'+' => parse_octa(digits),
        b'-' => Some(0u64.wrapping_sub(parse_octa(digits)?)),
        _ => None,
    }
}

/// A number and what is added to it, if both are there.
pub(crate) fn add_numbers(n: Option<u64>, offset: Option<u64>) -> Option<u64>
    ensures { result ≡ spec.plus n offset }
{
    match (n, offset) {
        (Some(n), Some(offset)) => Some(n.wrapping_add(offset)),
        _ => None,
    }
}

/// A text up to its first closing bracket, and from there on.
#[tactic(auto, using(mx_cmd::proofs::Fronts::fronts))]
fn cut_closing(text: &[u8]) -> (&[u8], &[u8])
    ensures front { result.0.now ≡ front spec.is_no_closing text.now }
    ensures rest { result.1.now ≡ past spec.is_no_closing text.now }
{
    text.split_at(inner_count(text))
}

/// What is in front of a bracket that ends a text.
fn cut_closed(text: &[u8]) -> Option<&[u8]>
    ensures { option_map (λ inner. inner.now) result ≡ spec.closed text.now }
{
    let (inner, rest) = cut_closing(text);
    if rest == b"]".as_slice() {
        Some(inner)
    } else {
        None
    }
}

/// The unit with so many bytes.
fn unit_of_size(b: u8) -> Option<Unit>
    ensures { result ≡ spec.unit_of_size b }
{
    match b {
        b'8' => Some(Unit::Octa),
        b'4' => Some(Unit::Tetra),
        b'2' => Some(Unit::Wyde),
        b'1' => Some(Unit::Byte),
        _ => None,
    }
}

/// The unit of memory that a text writes in brackets, and what it writes there of its address.
pub(crate) fn parse_brackets(text: &[u8]) -> Option<(Unit, &[u8])>
    ensures { option_map (λ part. (part.0, part.1.now)) result ≡ spec.bracketed text.now }
{
    let [m, size, opening, text @ ..] = text else {
        return None;
    };
    if *m == b'M' && *opening == b'[' {
        Some((unit_of_size(*size)?, cut_closed(text)?))
    } else {
        None
    }
}
