//! Backslashes in strings.

ghost use Rattle.std.specs.Prelude.{◌≡◌};
ghost use Rattle.mx_slips.specs.Backslashes as spec;

use crate::afters::starts_with_byte;
use crate::marks::{Mark, mark_of};
use crate::sources::Statement;
use crate::tokens::Token;

/// Whether a text begins with the letter or digit of an escape.
fn starts_with_escape(text: &[u8]) -> bool
    ensures { result ≡ spec.begins_escape text.now }
{
    matches!(text, [b'n' | b't' | b'r' | b'0', ..])
}

/// Whether a text has an escape.
#[tactic(auto, unfolding(crate::specs::Backslashes::has_escape))]
fn has_escape(text: &[u8]) -> bool
    ensures { result ≡ spec.has_escape text.now }
{
    let mut rest = text;
    while let [b, more @ ..] = rest {
        if *b == b'\\' && starts_with_escape(more) {
            return true;
        }
        rest = more;
    }
    false
}

/// Whether a token is a string with an escape.
fn is_escaping(token: &Token) -> bool
    ensures { result ≡ spec.is_escaping token.now }
{
    let text = token.text.as_slice();
    starts_with_byte(b'"', text) && has_escape(text)
}

/// The first string of a statement with an escape.
#[tactic(auto, unfolding(crate::specs::Backslashes::backslash_in_string))]
pub fn find_backslash(statement: &Statement) -> Option<Mark>
    ensures { result ≡ spec.backslash_in_string statement.now }
{
    let tokens = statement.tokens.as_slice();
    match tokens.iter().find(|token| is_escaping(token)) {
        Some(token) => Some(mark_of(token.from, token.text.as_slice(), 0)),
        None => None,
    }
}
