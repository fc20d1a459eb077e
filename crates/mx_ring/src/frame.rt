//! Frames: what SAVE hides and UNSAVE reads back.

ghost use Rattle.std.specs.Prelude.{◌≡◌, ◌≤◌, ◌<◌, ◌+◌, ◌*◌, ◌^◌, ◌∷◌, [], ◌++◌, if◌then◌else◌, None, Some, IfSome};
ghost use Rattle.std.specs.Prelude.{length};
ghost use Rattle.mx_ring.specs.Frames.{saved_specials, is_bad_frame, frame_global, frame_locals, frame_specials};

use crate::Saved;

/// The upper octas of a frame: the special registers, and last G and rA in one octa.
pub(crate) fn upper_octas(s: &Saved, g: usize) -> [u64; 13]
    requires event_bits { s.now.a < 2 ^ 18 }
    requires most { g ≤ 255 }
    ensures { result ≡ saved_specials s.now ++ (2 ^ 56 * g + s.now.a) ∷ [] }
{
    let last = ((g as u64) << 56) + s.a;
    [
        s.b, s.d, s.e, s.h, s.j, s.m, s.r, s.p, s.w, s.x, s.y, s.z, last,
    ]
}

/// G and L of the frame whose last octa is at index `i`; nothing where there is no frame.
#[tactic(auto, unfolding(crate::specs::Frames::is_bad_frame))]
pub(crate) fn frame_at(octas: &[u64], i: usize) -> Option<(usize, usize)>
    requires inside { i < length octas.now }
    requires few { i < 2 ^ 20 }
    ensures value { result ≡ (if is_bad_frame octas.now i then None
        else Some (frame_global octas.now i, frame_locals octas.now i)) }
    ensures bounds { IfSome result (λ f. (32 ≤ f.0) × (f.0 ≤ 255) × (f.1 + 269 ≤ i + f.0)) }
{
    let g = (octas[i] >> 56) as usize;
    if g < 32 || i + g < 269 {
        return None;
    }
    let l = (octas[i + g - 269] % 256) as usize;
    if i + g < 269 + l {
        return None;
    }
    Some((g, l))
}

/// The special registers of the frame whose last octa is at index `i`.
#[tactic(auto, unfolding(crate::specs::Frames::frame_specials))]
pub(crate) fn specials_at(octas: &[u64], i: usize) -> Saved
    requires inside { i < length octas.now }
    requires room { 12 ≤ i }
    ensures { result ≡ frame_specials octas.now i }
{
    let last = &octas[i - 12..=i];
    Saved {
        b: last[0],
        d: last[1],
        e: last[2],
        h: last[3],
        j: last[4],
        m: last[5],
        r: last[6],
        p: last[7],
        w: last[8],
        x: last[9],
        y: last[10],
        z: last[11],
        a: last[12] % (1 << 18),
    }
}
