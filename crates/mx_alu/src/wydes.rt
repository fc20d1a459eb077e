//! Immediate wydes.

ghost use Rattle.std.specs.Prelude.{◌≡◌, ◌*◌, ◌^◌, ◌<◌};
ghost use Rattle.mx_alu.specs.Wydes as spec;

use crate::names::Wyde;

/// The octa that the instruction of this name makes of the old $X and of its wyde, which is at
/// a place.
#[tactic(auto, using(crate::proofs::Logic::wydes))]
#[inline(always)]
pub(crate) fn perform(name: Wyde, x: u64, z: u64, place: u32) -> u64
    requires { place < 64 }
    ensures { result ≡ spec.wyde name x (z * 2 ^ place) }
{
    let v = z << place;
    match name {
        Wyde::Set => v,
        Wyde::Inc => x.wrapping_add(v),
        Wyde::OrIn => x | v,
        Wyde::AndNot => x & !v,
    }
}
