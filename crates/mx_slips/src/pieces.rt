//! Pieces of a line.

ghost use Rattle.std.specs.Prelude.{◌≡◌, IfOk, drop, take};
ghost use Rattle.mx_slips.specs.Tokens as spec;

use mx_line::Span;
use mx_word::{Bytes, NoMemory};
use std::alloc::Global;

/// Bytes of a line, and how many bytes of the line are before them.
#[derive(Drop)]
pub struct Piece {
    pub from: usize,
    pub text: Bytes,
}

/// A text without its first bytes, this many or all.
#[tactic(auto, using(crate::proofs::TokenTurns::parts))]
pub(crate) fn drop_front(text: &[u8], count: usize) -> &[u8]
    ensures { result.now ≡ drop count text.now }
{
    if count < text.len() {
        &text[count..]
    } else {
        &[]
    }
}

/// The first bytes of a text, this many or all.
#[tactic(auto, using(crate::proofs::TokenTurns::parts))]
pub fn take_front(text: &[u8], count: usize) -> &[u8]
    ensures { result.now ≡ take count text.now }
{
    if count < text.len() {
        &text[..count]
    } else {
        text
    }
}

/// The piece of a line at a span.
pub(crate) fn piece_at(alloc: Global, line: &[u8], span: Span) -> Result<Piece, NoMemory>
    ensures { IfOk result (λ piece. piece ≡ spec.piece_at line.now span) }
{
    let text = take_front(
        drop_front(line, span.from),
        span.to.saturating_sub(span.from),
    );
    Ok(Piece {
        from: span.from,
        text: Bytes::copy(alloc, text)?,
    })
}
