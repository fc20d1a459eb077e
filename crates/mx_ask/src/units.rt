//! How much of memory a line asks for.

ghost use Rattle.std.specs.Prelude.{◌≡◌, length};
ghost use Rattle.mx_cmd.specs.Numerals.{front, past};
ghost use Rattle.mx_word.specs.Kinds.{is_digit};
ghost use Rattle.mx_ask.specs.Units as spec;

use crate::numbers::parse_count;
use mx_word::is_digit;

/// A unit of memory.
#[derive(Clone, Copy, PartialEq, Eq)]
pub enum Unit {
    Octa,
    /// An octa as a signed decimal number.
    Decimal,
    Tetra,
    Wyde,
    Byte,
    /// A text up to a byte that is 0.
    Text,
}

/// The unit that a letter means.
fn unit_of(letter: u8) -> Option<Unit>
    ensures { result ≡ spec.unit_of letter }
{
    match letter {
        b'o' => Some(Unit::Octa),
        b'd' => Some(Unit::Decimal),
        b't' => Some(Unit::Tetra),
        b'w' => Some(Unit::Wyde),
        b'b' => Some(Unit::Byte),
        b's' => Some(Unit::Text),
        _ => None,
    }
}

/// The unit of what follows the number: an octa where nothing does.
fn rest_unit(rest: &[u8]) -> Option<Unit>
    ensures { result ≡ spec.rest_unit rest.now }
{
    match rest {
        [] => Some(Unit::Octa),
        [letter] => unit_of(*letter),
        _ => None,
    }
}

fn digit_count(text: &[u8]) -> usize
    ensures { result ≡ length (front is_digit text.now) }
{
    text.iter().take_while(|b| is_digit(**b)).count()
}

/// The decimal digits at the front of a text, and what follows them.
#[tactic(auto, using(mx_cmd::proofs::Fronts::fronts))]
fn digits(text: &[u8]) -> (&[u8], &[u8])
    ensures front { result.0.now ≡ front is_digit text.now }
    ensures rest { result.1.now ≡ past is_digit text.now }
{
    text.split_at(digit_count(text))
}

/// How many units are asked for, and of what: one where no number is written.
#[tactic(auto, unfolding(crate::specs::Units::units_in))]
pub fn parse_units(text: &[u8]) -> Option<(u64, Unit)>
    ensures { result ≡ spec.units_in text.now }
{
    let (number, rest) = digits(text);
    Some((parse_count(number)?, rest_unit(rest)?))
}
