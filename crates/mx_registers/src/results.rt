//! What POP leaves in the registers below G.

ghost use Rattle.std.specs.Prelude.{◌≡◌, ◌≤◌, ◌<◌, ◌+◌, ◌-◌, ◌∷◌, ◌++◌, min, length, take, drop, replicate};
ghost use Rattle.std.specs.Prelude.{◌==◌, if◌then◌else◌, slice_index, slice_set};
ghost use Rattle.mx_word.specs.Lists.{with_part, with_zeros};
ghost use Rattle.mx_registers.specs.Registers.{results};

use crate::slices::{copy_to, copy_within, fill_with_zeros};

/// Among the registers below G, of which `l` are local and the others 0, these octas come back, and
/// the results of POP with `x` follow, as far as there is room. Gives the new number of locals.
pub(crate) fn bring_back(front: &mut [u64], l: usize, octas: &[u64], x: usize) -> usize
    requires locals { l ≤ length front.old }
    requires zeros { front.old ≡ with_zeros (take l front.old) (length front.old) }
    ensures count { result ≡ length (take (length front.old) (octas.now ++ results (take l front.old) x)) }
    ensures front { front.new
        ≡ with_zeros (take (length front.old) (octas.now ++ results (take l front.old) x)) (length front.old) }
{
    let room = front.len();
    if octas.len() >= room {
        copy_to(front, 0, &octas[..room]);
        return room;
    }
    let top = octas.len() + put_results(front, l, x, octas.len());
    copy_to(front, 0, octas);
    if top < l {
        fill_with_zeros(front, top, l);
    }
    top
}

/// Puts the results of POP with `x`, of `l` locals, from the place `hole` on, as far as there is room.
/// Gives the number of results that are there.
fn put_results(front: &mut [u64], l: usize, x: usize, hole: usize) -> usize
    requires locals { l ≤ length front.old }
    requires inside { hole < length front.old }
    ensures count { result ≡ length (take (length front.old - hole) (results (take l front.old) x)) }
    ensures placed { front.new
        ≡ with_part front.old hole (take (length front.old - hole) (results (take l front.old) x)) }
{
    if x == 0 {
        return 0;
    }
    if x <= l {
        let main = front[x - 1];
        return put_first(front, main, x - 1, hole);
    }
    put_first(front, 0, l, hole)
}

/// Puts `main` at the place `hole`, and after it the first `count` registers, as far as there is room.
/// Gives how many there are.
fn put_first(front: &mut [u64], main: u64, count: usize, hole: usize) -> usize
    requires among { count ≤ length front.old }
    requires inside { hole < length front.old }
    ensures count { result ≡ length (take (length front.old - hole) (main ∷ take count front.old)) }
    ensures placed { front.new
        ≡ with_part front.old hole (take (length front.old - hole) (main ∷ take count front.old)) }
{
    if count == 0 {
        front[hole] = main;
        return 1;
    }
    let others = count.min(front.len() - hole - 1);
    copy_within(front, 0, others, hole + 1);
    front[hole] = main;
    others + 1
}

/// The first `n` of 8 octas as the first registers, zeros for the others of 8, and after them what the first
/// register had, or a 0 where POP with `x` gives nothing.
#[inline(always)]
pub(crate) fn put_few(front: &mut [u64], octas: &[u64], n: usize, x: usize)
    requires room { 8 ≤ length front.old }
    requires all { length octas.now ≡ 8 }
    requires few { n < 8 }
    ensures { front.new ≡ slice_set (with_part front.old 0 (take n octas.now ++ replicate (8 - n) 0)) n
        (if x == 0 then 0 else slice_index front.old 0) }
{
    let main = octa_if(front[0], x != 0);
    copy_to(front, 0, &first_of_eight(octas, n));
    front[n] = main;
}

/// The first `n` of 8 octas, and zeros for the others.
#[tactic(auto, using(crate::proofs::Eight::eight))]
#[inline(always)]
fn first_of_eight(octas: &[u64], n: usize) -> [u64; 8]
    requires all { length octas.now ≡ 8 }
    requires few { n ≤ 8 }
    ensures { result ≡ take n octas.now ++ replicate (8 - n) 0 }
{
    [
        octa_if(octas[0], 0 < n),
        octa_if(octas[1], 1 < n),
        octa_if(octas[2], 2 < n),
        octa_if(octas[3], 3 < n),
        octa_if(octas[4], 4 < n),
        octa_if(octas[5], 5 < n),
        octa_if(octas[6], 6 < n),
        octa_if(octas[7], 7 < n),
    ]
}

/// An octa, or 0.
#[inline(always)]
fn octa_if(x: u64, is_it: bool) -> u64
    ensures { result ≡ (if is_it then x else 0) }
{
    if is_it { x } else { 0 }
}
