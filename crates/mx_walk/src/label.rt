//! What is left of a line by itself.

ghost use Rattle.std.specs.Prelude.{◌≡◌, IfOk};
ghost use Rattle.mx_marks.specs.Mending.{label_alone};
ghost use Rattle.mx_walk.specs.Walks.{IsPlain};

use mx_line::cut_line;
use mx_marks::with_label;
use mx_word::{Bytes, NoMemory};
use std::alloc::Global;

/// A line that does nothing but define the label of this line, which has no newline.
#[tactic(auto, using(crate::proofs::PlainLines::labels))]
pub fn strip_to_label(alloc: Global, line: &[u8]) -> Result<Bytes, NoMemory>
    requires plain { IsPlain line.now }
    ensures { IfOk result (λ left. left ≡ label_alone line.now) }
{
    if line.is_empty() {
        return Bytes::copy(alloc, b" ");
    }
    let mended = with_label(alloc, 1, line)?;
    let (left, _) = cut_line(mended.as_slice());
    Bytes::copy(alloc, left)
}
