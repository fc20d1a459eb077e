//! The pieces of a text round each byte of one kind.

ghost use Rattle.std.specs.Prelude.{◌≡◌, ◌≤◌, ◌<◌, ◌+◌, ◌==◌, ◌∷◌, length, IfNone, IfSome};
ghost use Rattle.std.specs.List.{position, position_or_len};
ghost use Rattle.std.specs.Option.{option_map};
ghost use Rattle.mx_line.specs.Pieces as spec;

/// The place of the first such byte.
fn place(at: u8, text: &[u8]) -> Option<usize>
    ensures { result ≡ position (λ b. b == at) text.now }
{
    text.iter().position(|b| *b == at)
}

/// How long the first piece is.
pub fn first_piece_length(at: u8, text: &[u8]) -> usize
    ensures within { result ≤ length text.now }
    ensures value { result ≡ position_or_len (λ b. b == at) text.now }
{
    match place(at, text) {
        Some(count) => count,
        None => text.len(),
    }
}

/// The first piece, and what follows the byte at its end.
#[tactic(auto, using(crate::proofs::PieceLemmas::cutting))]
pub fn cut(at: u8, text: &[u8]) -> (&[u8], Option<&[u8]>)
    ensures pieces { spec.split at text.now ≡ result.0.now ∷ spec.later at (option_map (λ rest. rest.now) result.1) }
    ensures alone { IfNone result.1 (result.0.now ≡ text.now) }
    ensures whole { IfSome result.1 (λ rest. length result.0.now + length rest.now + 1 ≡ length text.now) }
{
    let count = first_piece_length(at, text);
    if count == text.len() {
        (text, None)
    } else {
        (&text[..count], Some(&text[count + 1..]))
    }
}
