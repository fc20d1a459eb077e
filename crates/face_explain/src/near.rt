//! Words that differ by a letter.

ghost use Rattle.std.specs.Prelude.{◌≡◌};
ghost use Rattle.face_explain.specs.Near as spec;
ghost use Rattle.mx_explain.specs.Topics.{seen};

use mx_explain::{Row, name_of};

/// A text without its first byte.
fn without_first(text: &[u8]) -> &[u8]
    ensures { result.now ≡ spec.without_first text.now }
{
    match text {
        [] => &[],
        [_, more @ ..] => more,
    }
}

/// Whether two texts are the same but for case.
#[tactic(auto, unfolding(crate::specs::Near::is_same))]
fn is_same(left: &[u8], right: &[u8]) -> bool
    ensures { result ≡ spec.is_same left.now right.now }
{
    left.eq_ignore_ascii_case(right)
}

/// Whether two texts are the same but for case, where one of them may lose its first byte, or both.
#[tactic(auto, unfolding(crate::specs::Near::is_one_off))]
fn is_one_off(left: &[u8], right: &[u8]) -> bool
    ensures { result ≡ spec.is_one_off left.now right.now }
{
    is_same(without_first(left), without_first(right))
        || is_same(left, without_first(right))
        || is_same(without_first(left), right)
}

/// Whether two words are within one letter: they are the same but for case once a letter of one is replaced, or left out.
#[tactic(auto, using(crate::proofs::NearTurns::turns))]
fn is_within_one(word: &[u8], name: &[u8]) -> bool
    ensures { result ≡ spec.is_within_one word.now name.now }
{
    let mut left = word;
    let mut right = name;
    while let [a, more @ ..] = left {
        let [b, others @ ..] = right else {
            return is_one_off(left, right);
        };
        if !a.eq_ignore_ascii_case(b) {
            return is_one_off(left, right);
        }
        left = more;
        right = others;
    }
    is_one_off(left, right)
}

/// Whether a word is within one letter of the name of a row.
pub(crate) fn is_near(word: &str, row: Row) -> bool
    ensures { result ≡ spec.is_near word.now (seen row) }
{
    is_within_one(word.as_bytes(), name_of(row).as_bytes())
}
