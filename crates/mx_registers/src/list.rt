//! A list of octas that keeps more of them than count, so that a few are written or read at once wherever it ends.

ghost use Rattle.std.specs.Prelude.{◌≡◌, ◌≤◌, ◌<◌, ◌+◌, ◌-◌, ◌^◌, ◌++◌, [], ◌∷◌, ℕ, IfOk, OnErr, Err, length, take, drop, max};
ghost use Rattle.std.specs.Prelude.{slice_set};
ghost use Rattle.std.specs.Vec.{vec_capacity};
ghost use Rattle.mx_word.specs.Lists.{with_part};

use crate::RingFault;
use crate::hidden::ROOM;
use crate::slices::{append, copy_to};
use mx_word::NoMemory;
use std::alloc::Global;
use std::marker::Model;

/// How many octas are kept after those that count, at least.
pub const SPARE: usize = 16;

/// At most 2^20 octas that count, and others after them. Contracts see those that count, and for how many the list has
/// octas already.
#[derive(Drop)]
pub(crate) struct HiddenList {
    octas: Vec<u64>,
    count: usize,
}

impl Model for HiddenList {
    ghost use Rattle.mx_registers.specs.ListParts.{ListPart};

    ghost Value = { ListPart };

    ghost use Rattle.mx_registers.specs.ListParts.{list_in, HoldsList};

    ghost view = { list_in };

    ghost invariant = { HoldsList };
}

#[tactic(auto, using(crate::proofs::ListParts::listed))]
impl HiddenList {
    /// No octa counts, and there are octas for this many, at most 2^20. The memory for all is taken at once.
    ///
    /// Errors: `OutOfMemory` alone.
    pub(crate) fn new(alloc: Global, n: usize) -> Result<HiddenList, RingFault>
        requires { n ≤ 2 ^ 20 }
        ensures begin { IfOk result (λ list. list ≡ record { octas = []; room = n }) }
        ensures memory { OnErr result (result ≡ Err RingFault.OutOfMemory) }
    {
        let mut octas = Vec::with_capacity(alloc, ROOM + SPARE)?;
        lengthen(&mut octas, n + SPARE);
        Ok(HiddenList { octas, count: 0 })
    }

    /// How many octas count, at most 2^20.
    #[inline(always)]
    pub(crate) fn len(&self) -> usize
        ensures value { result ≡ length self.now.octas }
        ensures most { result ≤ 2 ^ 20 }
    {
        self.count
    }

    /// The octas that count.
    #[inline(always)]
    pub(crate) fn as_slice(&self) -> &[u64]
        ensures { result.now ≡ self.now.octas }
    {
        &self.octas[..self.count]
    }

    /// More octas count; with them at most 2^20.
    #[inline]
    pub(crate) fn append(&mut self, octas: &[u64])
        requires { length self.old.octas + length octas.now ≤ 2 ^ 20 }
        ensures octas { self.new.octas ≡ self.old.octas ++ octas.now }
        ensures room { self.old.room ≤ self.new.room }
    {
        let end = self.count + octas.len();
        lengthen(&mut self.octas, end + SPARE);
        copy_to(&mut self.octas, self.count, octas);
        self.count = end;
    }

    /// The first `n` of some octas and that number count too. There are more than `n`, and octas for all of them.
    #[inline(always)]
    pub(crate) fn append_with_count(&mut self, octas: &[u64], n: usize)
        requires room { length self.old.octas + length octas.now ≤ self.old.room }
        requires among { n < length octas.now }
        ensures octas { self.new.octas ≡ self.old.octas ++ (take n octas.now ++ n ∷ []) }
        ensures room { self.new.room ≡ self.old.room }
    {
        write(&mut self.octas, self.count, octas);
        let place = self.count + n;
        self.octas[place] = n as u64;
        self.count = place + 1;
    }

    /// Only the first `n` octas count, or all where they are fewer.
    #[inline(always)]
    pub(crate) fn truncate(&mut self, n: usize)
        ensures octas { self.new.octas ≡ take n self.old.octas }
        ensures room { self.new.room ≡ self.old.room }
    {
        self.count = self.count.min(n);
    }

    /// This many octas from a place on, at most 16: the first of them are those that count.
    #[inline(always)]
    pub(crate) fn some_from(&self, from: usize, n: usize) -> &[u64]
        requires inside { from ≤ length self.now.octas }
        requires few { n ≤ 16 }
        ensures size { length result.now ≡ n }
        ensures octas { (k : ℕ) → k ≤ n → from + k ≤ length self.now.octas
            → take k result.now ≡ take k (drop from self.now.octas) }
    {
        &self.octas[from..from + n]
    }

    /// Overwrites an octa that counts.
    pub(crate) fn set(&mut self, i: usize, x: u64)
        requires { i < length self.old.octas }
        ensures octas { self.new.octas ≡ slice_set self.old.octas i x }
        ensures room { self.new.room ≡ self.old.room }
    {
        self.octas[i] = x;
    }

    /// There are octas for this many, at most 2^20.
    pub(crate) fn widen(&mut self, n: usize)
        requires { n ≤ 2 ^ 20 }
        ensures octas { self.new.octas ≡ self.old.octas }
        ensures room { self.new.room ≡ max n self.old.room }
    {
        lengthen(&mut self.octas, n + SPARE);
    }

    /// A list with the same octas. `NoMemory` where there is no memory for it.
    pub(crate) fn copy(&self, alloc: Global) -> Result<HiddenList, NoMemory>
        ensures { IfOk result (λ list. list ≡ self.now) }
    {
        let mut octas = Vec::with_capacity(alloc, ROOM + SPARE)?;
        append(&mut octas, self.octas.as_slice());
        Ok(HiddenList {
            octas,
            count: self.count,
        })
    }
}

/// Other items in place of as many of a list from `place` on, which end within it.
#[inline(always)]
fn write(list: &mut Vec<u64>, place: usize, items: &[u64])
    requires { place + length items.now ≤ length list.old.items }
    ensures items { list.new.items ≡ with_part list.old.items place items.now }
    ensures capacity { vec_capacity list.old ≤ vec_capacity list.new }
{
    copy_to(list, place, items);
}

/// Keeps zeros after the octas, up to this many in all.
#[tactic(auto, using(crate::proofs::ListParts::lengthening))]
fn lengthen(list: &mut Vec<u64>, n: usize)
    requires { n ≤ vec_capacity list.old }
    ensures first { take (length list.old.items) list.new.items ≡ list.old.items }
    ensures length { length list.new.items ≡ max n (length list.old.items) }
    ensures capacity { vec_capacity list.old ≤ vec_capacity list.new }
{
    while list.len() < n {
        let Ok(()) = list.push(0) else { unreachable!() };
    }
}
