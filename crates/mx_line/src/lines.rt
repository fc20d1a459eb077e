//! The lines of a source.

ghost use Rattle.std.specs.Prelude.{◌≡◌, ◌<◌, ◌∷◌, length};
ghost use Rattle.mx_line.specs.Lines.{lines_of};

use crate::pieces::cut;

/// The first line of a source without its newline, and what follows the newline. The source has at least one byte; a
/// last line may have no newline.
#[tactic(auto, using(crate::proofs::LineLemmas::lines))]
pub fn cut_line(text: &[u8]) -> (&[u8], &[u8])
    requires { 0 < length text.now }
    ensures shorter { length result.1.now < length text.now }
    ensures line { lines_of text.now ≡ result.0.now ∷ lines_of result.1.now }
{
    let (line, rest) = cut(b'\n', text);
    match rest {
        Some(rest) => (line, rest),
        None => (line, &[]),
    }
}
