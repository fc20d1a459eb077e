//! What is hidden by PUSHJ and SAVE, and how much of it POP brings back.

ghost use Rattle.std.specs.Prelude.{◌≡◌, ◌≤◌, ◌<◌, ◌+◌, ◌^◌, ◌∷◌, [], ◌++◌, if◌then◌else◌, None, Some, length, nat_le};
ghost use Rattle.mx_registers.specs.Bounds.{AreInBounds};
ghost use Rattle.mx_registers.specs.HiddenPart.{octas_of, with_hidden};
ghost use Rattle.mx_registers.specs.Registers.{registers_below};
ghost use Rattle.mx_ring.specs.Frames.{frame, frame_length};
ghost use Rattle.mx_ring.specs.Stack.{hole_in};

use crate::Saved;
use crate::frame::upper_octas;
use mx_registers::{Hidden, Visible};

/// How many octas below the last one are registers that POP brings back; nothing where there are
/// fewer octas, or none.
#[inline(always)]
pub(crate) fn hole(octas: &[u64]) -> Option<usize>
    ensures { result ≡ (if nat_le (length octas.now) (hole_in octas.now) then None else Some (hole_in octas.now)) }
{
    if octas.is_empty() {
        return None;
    }
    let hole = (octas[octas.len() - 1] % 256) as usize;
    if octas.len() <= hole {
        return None;
    }
    Some(hole)
}

/// Hides the first `count` registers and that number.
#[inline(always)]
pub(crate) fn hide_below(hidden: &mut Hidden, visible: &Visible, count: usize)
    requires below { count ≤ visible.now.first_global }
    requires room { length (octas_of hidden.old) + (count + 1) ≤ 2 ^ 20 }
    ensures { hidden.new ≡ with_hidden hidden.old (registers_below visible.now count ++ count ∷ []) }
{
    hidden.append(visible.registers_below(count));
    hidden.append(&[count as u64]);
}

/// Hides the first `count` registers and that number, where they are fewer than `size`: this many are written at once.
#[inline(always)]
pub(crate) fn hide_few_below(hidden: &mut Hidden, visible: &Visible, count: usize, size: usize)
    requires bounds { AreInBounds visible.now }
    requires size { size ≤ 16 }
    requires few { count < size }
    requires room { length (octas_of hidden.old) + size ≤ 2 ^ 20 }
    ensures { hidden.new ≡ with_hidden hidden.old (registers_below visible.now count ++ count ∷ []) }
{
    hidden.append_with_count(visible.registers_below(size), count);
}

/// Hides a frame with all local and global registers and these special ones.
pub(crate) fn hide_registers(hidden: &mut Hidden, visible: &Visible, s: &Saved)
    requires event_bits { s.now.a < 2 ^ 18 }
    requires bounds { AreInBounds visible.now }
    requires room { length (octas_of hidden.old)
        + frame_length visible.now.first_global (length visible.now.locals) ≤ 2 ^ 20 }
    ensures { hidden.new ≡ with_hidden hidden.old (frame visible.now s.now) }
{
    let l = visible.local_count();
    hidden.append(visible.registers_below(l));
    hidden.append(&[l as u64]);
    hidden.append(visible.globals());
    hidden.append(&upper_octas(s, visible.first_global()));
}
