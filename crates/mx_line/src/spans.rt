//! Parts of a line.

ghost use Rattle.std.specs.Prelude.{◌≡◌, ◌≤◌, length};
ghost use Rattle.mx_line.specs.Spans as spec;

/// A part of a line: its bytes from the place `from`, counted from 0, up to the place `to`, without the byte there.
#[derive(Clone, Copy, Debug, PartialEq, Eq)]
pub struct Span {
    pub from: usize,
    pub to: usize,
}

/// The bytes of a line at a span, whose `from` is not above its `to` and whose `to` is not past the end of the line.
pub fn slice_span(line: &[u8], span: Span) -> &[u8]
    requires order { span.from ≤ span.to }
    requires within { span.to ≤ length line.now }
    ensures { result.now ≡ spec.part line.now span }
{
    &line[span.from..span.to]
}
