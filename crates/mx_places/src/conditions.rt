//! The condition of a break, as a line writes it: a value, how it is compared, and a number.

ghost use Rattle.std.specs.Prelude.{◌≡◌, length};
ghost use Rattle.std.specs.Option.{option_and_then};
ghost use Rattle.mx_cmd.specs.Numerals.{front, past};
ghost use Rattle.mx_places.specs.Conditions as spec;
ghost use Rattle.mx_places.specs.Named.{shown_thing as thing_shown, place_of as place_thing};

use crate::places::{parse_value, place_of_thing, resolve_for_display};
use mx_ask::{cut_word, trim_end};
use mx_book::Book;
use mx_stops::{Condition, Place, Relation};

/// Whether a byte belongs to a comparison.
fn is_sign(b: u8) -> bool
    ensures { result ≡ spec.is_sign b }
{
    b == b'=' || b == b'!' || b == b'<' || b == b'>'
}

/// Whether it belongs to none.
fn is_no_sign(b: u8) -> bool
    ensures { result ≡ spec.is_no_sign b }
{
    !is_sign(b)
}

fn value_count(text: &[u8]) -> usize
    ensures { result ≡ length (front spec.is_no_sign text.now) }
{
    text.iter().take_while(|b| is_no_sign(**b)).count()
}

fn sign_count(text: &[u8]) -> usize
    ensures { result ≡ length (front spec.is_sign text.now) }
{
    text.iter().take_while(|b| is_sign(**b)).count()
}

/// A text up to its first comparison, and from there on.
#[tactic(auto, using(mx_cmd::proofs::Fronts::fronts))]
fn cut_value(text: &[u8]) -> (&[u8], &[u8])
    ensures front { result.0.now ≡ front spec.is_no_sign text.now }
    ensures rest { result.1.now ≡ past spec.is_no_sign text.now }
{
    text.split_at(value_count(text))
}

/// The comparison at the front of a text, and what follows it.
#[tactic(auto, using(mx_cmd::proofs::Fronts::fronts))]
fn cut_signs(text: &[u8]) -> (&[u8], &[u8])
    ensures front { result.0.now ≡ front spec.is_sign text.now }
    ensures rest { result.1.now ≡ past spec.is_sign text.now }
{
    text.split_at(sign_count(text))
}

/// The signs of a comparison.
pub fn signs_of(relation: Relation) -> &'static [u8]
    ensures { result.now ≡ spec.signs_of relation }
{
    match relation {
        Relation::Equal => b"==",
        Relation::Unequal => b"!=",
        Relation::Less => b"<",
        Relation::AtMost => b"<=",
        Relation::Greater => b">",
        Relation::AtLeast => b">=",
    }
}

/// The comparison that signs write.
fn relation_of(signs: &[u8]) -> Option<Relation>
    ensures { result ≡ spec.relation_of signs.now }
{
    if signs == b"==".as_slice() || signs == b"=".as_slice() {
        Some(Relation::Equal)
    } else if signs == b"!=".as_slice() {
        Some(Relation::Unequal)
    } else if signs == b"<".as_slice() {
        Some(Relation::Less)
    } else if signs == b"<=".as_slice() {
        Some(Relation::AtMost)
    } else if signs == b">".as_slice() {
        Some(Relation::Greater)
    } else if signs == b">=".as_slice() {
        Some(Relation::AtLeast)
    } else {
        None
    }
}

/// The place that a text names, where a symbol with an address of data means the octa there.
fn find_shown_place(book: &Book, text: &[u8]) -> Option<Place>
    ensures { result ≡ option_and_then place_thing (thing_shown book.now text.now) }
{
    place_of_thing(resolve_for_display(book, text)?)
}

/// The condition that a text writes.
#[tactic(auto, unfolding(crate::specs::Conditions::condition_in))]
pub fn parse_condition(book: &Book, text: &[u8]) -> Option<Condition>
    ensures { result ≡ spec.condition_in book.now text.now }
{
    let (value, rest) = cut_value(text);
    let (signs, rest) = cut_signs(rest);
    let relation = relation_of(signs)?;
    let place = find_shown_place(book, trim_end(value))?;
    let number = parse_value(book, cut_word(rest).0)?;
    Some(Condition {
        place,
        relation,
        number,
    })
}
