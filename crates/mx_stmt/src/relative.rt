//! Relative addresses.

ghost use Rattle.std.specs.Prelude.{◌≡◌, ◌+◌, ◌≤◌, ◌<◌, ◌^◌};
ghost use Rattle.mx_stmt.specs.Forms as spec;

use crate::StmtFault;

/// The tetra with the relative address of a target. The head is the tetra with zero in the field,
/// and the reach is one more than the field's largest number.
pub(crate) fn relative_word(
    head: u32,
    reach: u32,
    place: u64,
    target: u64,
) -> Result<u32, StmtFault>
    requires { head + 2 ^ 24 + reach < 2 ^ 32 }
    ensures { result ≡ spec.relative_word head reach place target }
{
    if place <= target {
        forward_word(head, reach, target - place)
    } else {
        backward_word(head, reach, place - target)
    }
}

/// The tetra with the relative address of a target so far ahead.
fn forward_word(head: u32, reach: u32, distance: u64) -> Result<u32, StmtFault>
    requires { head + reach < 2 ^ 32 }
    ensures { result ≡ spec.forward_word head reach distance }
{
    if distance % 4 != 0 {
        Err(StmtFault::NotMultiple)
    } else if distance / 4 < u64::from(reach) {
        Ok(head + (distance / 4) as u32)
    } else {
        Err(StmtFault::TooFar)
    }
}

/// The tetra with the relative address of a target so far back.
fn backward_word(head: u32, reach: u32, distance: u64) -> Result<u32, StmtFault>
    requires { head + 2 ^ 24 + reach < 2 ^ 32 }
    ensures { result ≡ spec.backward_word head reach distance }
{
    if distance % 4 != 0 {
        Err(StmtFault::NotMultiple)
    } else if distance / 4 <= u64::from(reach) {
        Ok(head + 0x100_0000 + (reach - (distance / 4) as u32))
    } else {
        Err(StmtFault::TooFar)
    }
}
