//! Places of a text.

ghost use Rattle.std.specs.Prelude.{◌≡◌};
ghost use Rattle.mx_frames.specs.Columns.{place_of};
ghost use Rattle.mx_line.specs.Lines.{lines_of};
ghost use Rattle.mx_marks.specs.Mending.{line_text};
ghost use Rattle.mx_lsp.specs.Lines as spec;

use mx_frames::place_of;
use mx_marks::line_text;

/// A place of a text: the number of its line, counted from 1, and how many bytes of the line are before it.
#[derive(Clone, Copy)]
pub(crate) struct Place {
    pub line: u32,
    pub from: usize,
}

/// The number of a line that is counted from 0 on the wire.
fn number_of(line: u64) -> u32
    ensures { result ≡ spec.number_of line }
{
    if line < 0xffff_ffff {
        (line + 1) as u32
    } else {
        0xffff_ffff
    }
}

/// The place that a line and a column on the wire are, both counted from 0; what is beyond the line is its end.
pub(crate) fn place_at(text: &[u8], line: u64, column: u64) -> Place
    ensures line { result.line ≡ spec.number_of line }
    ensures from { result.from ≡ place_of (line_text (spec.number_of line) (lines_of text.now)) column }
{
    let number = number_of(line);
    Place {
        line: number,
        from: place_of(line_text(number, text), column as usize),
    }
}
