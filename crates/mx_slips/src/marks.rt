//! What is marked in a line.

ghost use Rattle.std.specs.Prelude.{◌≡◌};
ghost use Rattle.mx_slips.specs.Marks as spec;

/// A part of a line that a warning is about: how many bytes of the line are before it, how many bytes it has, and
/// the number of another line that the warning is about, or 0.
#[derive(Clone, Copy)]
pub struct Mark {
    pub place: usize,
    pub length: usize,
    pub other: u32,
}

/// The mark of bytes that are at a place.
pub fn mark_of(from: usize, text: &[u8], other: u32) -> Mark
    ensures { result ≡ spec.mark_of from text.now other }
{
    Mark {
        place: from,
        length: text.len(),
        other,
    }
}
