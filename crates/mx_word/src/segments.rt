//! The highest of the four segments of a program's memory.

ghost use Rattle.std.specs.Prelude.{◌≡◌};
ghost use Rattle.mx_word.specs.Segments as spec;

/// Where Stack_Segment begins, which goes up to below 2^63 (MMIXware, MMIXAL, predefined symbols).
pub const STACK_SEGMENT: u64 = 0x6000_0000_0000_0000;

/// Whether an address lies in Stack_Segment.
#[inline(always)]
pub fn is_in_stack_segment(a: u64) -> bool
    ensures { result ≡ spec.is_in_stack_segment a }
{
    STACK_SEGMENT <= a && a < 1 << 63
}
