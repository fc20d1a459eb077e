//! The item that is first in what was fed.

ghost use Rattle.std.specs.Prelude.{◌≡◌, ◌≢◌, ◌≤◌, ◌*◌, ◌+◌, ℕ, Ok, Some, false, IfOk, IfSome, OnSome, length, take, drop};
ghost use Rattle.mx_mmo.specs.Reading as spec;
ghost use Rattle.mx_mmo.specs.Reading.{IsWithin};
ghost use Rattle.mx_mmo.specs.Skipping.{quoted_after, skipped};
ghost use Rattle.mx_mmo.specs.Valid.{Fits};

use crate::lops::{Lop, lop_of};
use crate::parts::{
    Due, read_far_fix, read_file, read_fixo, read_loc, read_post, read_pre, read_quote,
};
use crate::skipping::{Scan, skip};
use crate::{Item, MmoFault};
use mx_word::tetra_of;
use std::alloc::Global;

/// How far a reader has come.
#[derive(Clone, Copy, Debug, PartialEq, Eq)]
pub enum Phase {
    /// Nothing was given: `pre` is due.
    Start,
    /// `pre` was given and `post` was not.
    Middle,
    /// `post` was given: `stab` is due.
    Posted,
    /// `stab` was given: the trie and `end` follow.
    Ended,
}

/// The number of the bytes Y and Z.
fn wide(y: u8, z: u8) -> u16
    ensures { result ≡ 256 * y + z }
{
    256 * u16::from(y) + u16::from(z)
}

/// A spec, once the lopcode is there that ends it.
fn spec_item(scan: &mut Scan, n: u16, more: &[u8]) -> Due
    requires within { scan.old.size ≤ length more.now }
    requires looked { quoted_after false (take scan.old.size more.now) ≡ Some scan.old.quoted }
    ensures item { result ≡ spec.ended_spec n (skipped false more.now) }
    ensures within { scan.new.size ≤ length more.now }
    ensures looked { quoted_after false (take scan.new.size more.now) ≡ Some scan.new.quoted }
{
    match skip(scan, more) {
        Some(size) => Ok(Some((Item::Spec(n), 4 + size))),
        None => Ok(None),
    }
}

/// The item of a lopcode that is between `pre` and `post`.
fn lop_item(
    alloc: Global,
    scan: &mut Scan,
    at: u64,
    lop: Option<Lop>,
    y: u8,
    z: u8,
    more: &[u8],
) -> Due
    requires within { scan.old.size ≤ length more.now }
    requires looked { quoted_after false (take scan.old.size more.now) ≡ Some scan.old.quoted }
    ensures item { result ≢ Err MmoFault.OutOfMemory → result ≡ spec.lop_item at lop y z more.now }
    ensures within { scan.new.size ≤ length more.now }
    ensures looked { quoted_after false (take scan.new.size more.now) ≡ Some scan.new.quoted }
{
    match lop {
        Some(Lop::Quote) if y == 0 && z == 1 => read_quote(more),
        Some(Lop::Loc) => read_loc(at, y, z, more),
        Some(Lop::Skip) => Ok(Some((Item::Skip(wide(y, z)), 4))),
        Some(Lop::Fixo) => read_fixo(at, y, z, more),
        Some(Lop::Fixr) => Ok(Some((Item::FixNear(wide(y, z)), 4))),
        Some(Lop::Fixrx) if y == 0 && (z == 16 || z == 24) => read_far_fix(at, z, more),
        Some(Lop::File) => read_file(alloc, at, y, z, more),
        Some(Lop::Line) => Ok(Some((Item::Line(wide(y, z)), 4))),
        Some(Lop::Spec) => spec_item(scan, wide(y, z), more),
        Some(Lop::Post) if y == 0 && z >= 32 => read_post(alloc, z, more),
        Some(Lop::Quote | Lop::Fixrx | Lop::Post) => Err(MmoFault::BadFields(at)),
        _ => Err(MmoFault::BadLop(at)),
    }
}

/// The item that a first tetra begins.
fn due_item(alloc: Global, scan: &mut Scan, phase: Phase, at: u64, rest: &[u8]) -> Due
    requires within { scan.old.size ≤ length (drop 4 rest.now) }
    requires looked { quoted_after false (take scan.old.size (drop 4 rest.now)) ≡ Some scan.old.quoted }
    ensures item { result ≢ Err MmoFault.OutOfMemory → result ≡ spec.first_item phase at rest.now }
    ensures size { scan.new.size ≤ length (drop 4 rest.now) }
    ensures looked { quoted_after false (take scan.new.size (drop 4 rest.now)) ≡ Some scan.new.quoted }
{
    let [a, code, y, z, more @ ..] = rest else {
        return Ok(None);
    };
    match phase {
        Phase::Start if *a == 0x98 && *code == 9 && *y == 1 => read_pre(alloc, *z, more),
        Phase::Start => Err(MmoFault::NoPre(at)),
        Phase::Middle if *a == 0x98 => lop_item(alloc, scan, at, lop_of(*code), *y, *z, more),
        Phase::Middle => Ok(Some((Item::Load(tetra_of([*a, *code, *y, *z])), 4))),
        Phase::Posted if *a != 0x98 || *code != 11 => Err(MmoFault::BadLop(at)),
        Phase::Posted if *y != 0 || *z != 0 => Err(MmoFault::BadFields(at)),
        Phase::Posted => Ok(Some((Item::Stab, 4))),
        Phase::Ended => Ok(None),
    }
}

/// The tetra that is first in bytes between `pre` and `post`, where it is one that is loaded as it is.
#[inline(always)]
pub fn plain_tetra(rest: &[u8]) -> Option<u32>
    ensures item { IfSome result (λ t. (at : ℕ) →
        spec.first_item Phase.Middle at rest.now ≡ Ok (Some (Item.Load t, 4))) }
    ensures whole { OnSome result (4 ≤ length rest.now) }
{
    match rest {
        [a, code, y, z, ..] if *a != 0x98 => Some(tetra_of([*a, *code, *y, *z])),
        _ => None,
    }
}

/// The item that is first in bytes that begin at a byte place, where the tetras after a spec
/// were looked through so far.
pub fn read_first_item(alloc: Global, scan: &mut Scan, phase: Phase, at: u64, rest: &[u8]) -> Due
    requires within { scan.old.size ≤ length (drop 4 rest.now) }
    requires looked { quoted_after false (take scan.old.size (drop 4 rest.now)) ≡ Some scan.old.quoted }
    ensures item { result ≢ Err MmoFault.OutOfMemory → result ≡ spec.first_item phase at rest.now }
    ensures within { IsWithin result (length rest.now) }
    ensures fits { IfOk result (λ due. IfSome due (λ found. Fits found.0)) }
    ensures size { scan.new.size ≤ length (drop 4 rest.now) }
    ensures looked { quoted_after false (take scan.new.size (drop 4 rest.now)) ≡ Some scan.new.quoted }
{
    due_item(alloc, scan, phase, at, rest)
}
