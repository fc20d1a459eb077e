//! The stack area of memory, of which the octas are kept that were used.

ghost use Rattle.std.specs.Prelude.{◌≡◌, ◌≤◌, ◌<◌, ◌+◌, ◌-◌, ◌^◌, ◌++◌, ℕ, IfOk, OnErr, Err, length, take, drop};
ghost use Rattle.std.specs.Prelude.{None, IfSome, slice_index, slice_set};
ghost use Rattle.std.specs.Vec.{vec_capacity};
ghost use Rattle.mx_word.specs.Lists.{with_part};
ghost use Rattle.mx_registers.specs.HiddenPart.{zeros};
ghost use Rattle.mx_registers.specs.StackArea.{AreKept, filled};

mod copy;

use crate::RingFault;
use crate::hidden::ROOM;
use crate::knowing::know_octas;
use crate::list::HiddenList;
use crate::slices::{append, copy_to};
use std::alloc::Global;
use std::marker::Model;

/// The 2^20 octas of the stack area. Those after the last that was used are 0, and no start writes them.
#[derive(Drop)]
pub(crate) struct Area {
    octas: Vec<u64>,
}

impl Model for Area {
    ghost use Rattle.std.specs.Prelude.{ℕ, List};
    ghost use Rattle.mx_registers.specs.StackArea.{area_in, AreKept};

    ghost Value = { List ℕ };

    ghost view = { area_in };

    ghost invariant = { λ i. AreKept i.octas };
}

#[tactic(auto, using(crate::proofs::Areas::areas))]
impl Area {
    /// An area of zeros. The room for all octas is taken at once.
    ///
    /// Errors: `OutOfMemory` alone.
    pub(crate) fn new(alloc: Global) -> Result<Area, RingFault>
        ensures begin { IfOk result (λ a. a ≡ zeros (2 ^ 20)) }
        ensures memory { OnErr result (result ≡ Err RingFault.OutOfMemory) }
    {
        Ok(Area {
            octas: Vec::with_capacity(alloc, ROOM)?,
        })
    }

    /// The octa at a place below 2^20.
    #[inline]
    pub(crate) fn octa(&self, i: usize) -> u64
        requires { i < 2 ^ 20 }
        ensures { result ≡ slice_index self.now i }
    {
        if i < self.octas.len() {
            self.octas[i]
        } else {
            0
        }
    }

    /// States that each octa is below 2^64. It does nothing.
    #[inline(always)]
    pub(crate) fn know_octas(&self)
        ensures { (i : ℕ) → slice_index self.now i < 2 ^ 64 }
    {
        know_octas(self.octas.as_slice());
    }

    /// The octas up to the one at a place below 2^20; nothing only where that one is 0.
    pub(crate) fn up_to(&self, i: usize) -> Option<&[u64]>
        requires { i < 2 ^ 20 }
        ensures some { IfSome result (λ octas. octas.now ≡ take (i + 1) self.now) }
        ensures none { result ≡ None → slice_index self.now i ≡ 0 }
    {
        if self.octas.len() <= i {
            return None;
        }
        Some(&self.octas[..i + 1])
    }

    /// Appends the octas from a place up to another, at most 2^20, to a list that has room for them.
    pub(crate) fn append_to(&mut self, from: usize, to: usize, list: &mut Vec<u64>)
        requires forward { from ≤ to }
        requires inside { to ≤ 2 ^ 20 }
        requires room { length list.old.items + (to - from) ≤ vec_capacity list.old }
        ensures same { self.new ≡ self.old }
        ensures items { list.new.items ≡ list.old.items ++ take (to - from) (drop from self.old) }
        ensures capacity { vec_capacity list.old ≤ vec_capacity list.new }
    {
        fill_up(&mut self.octas, to);
        append(list, &self.octas[from..to]);
    }

    /// Appends the octas from a place up to another, at most 2^20, to those that count in a list.
    pub(crate) fn hide(&mut self, from: usize, to: usize, list: &mut HiddenList)
        requires forward { from ≤ to }
        requires inside { to ≤ 2 ^ 20 }
        requires room { length list.old.octas + (to - from) ≤ 2 ^ 20 }
        ensures same { self.new ≡ self.old }
        ensures octas { list.new.octas ≡ list.old.octas ++ take (to - from) (drop from self.old) }
        ensures room { list.old.room ≤ list.new.room }
    {
        fill_up(&mut self.octas, to);
        list.append(&self.octas[from..to]);
    }

    /// Overwrites the octa at a place below 2^20.
    pub(crate) fn set(&mut self, i: usize, x: u64)
        requires { i < 2 ^ 20 }
        ensures { self.new ≡ slice_set self.old i x }
    {
        fill_up(&mut self.octas, i + 1);
        self.octas[i] = x;
    }

    /// Overwrites as many octas from a place on, which end at 2^20 or before.
    #[inline]
    pub(crate) fn write(&mut self, place: usize, octas: &[u64])
        requires { place + length octas.now ≤ 2 ^ 20 }
        ensures { self.new ≡ with_part self.old place octas.now }
    {
        fill_up(&mut self.octas, place + octas.len());
        write(&mut self.octas, place, octas);
    }
}

/// Other items in place of as many of a list from `place` on, which end within it.
#[inline(always)]
fn write(list: &mut Vec<u64>, place: usize, items: &[u64])
    requires { place + length items.now ≤ length list.old.items }
    ensures items { list.new.items ≡ with_part list.old.items place items.now }
    ensures kept { AreKept list.old → AreKept list.new }
{
    copy_to(list, place, items);
}

/// Keeps zeros after the octas that are kept, up to a number of octas that is at most 2^20.
#[tactic(auto, using(crate::proofs::Areas::growing))]
#[inline]
fn fill_up(octas: &mut Vec<u64>, n: usize)
    requires inside { n ≤ 2 ^ 20 }
    requires kept { AreKept octas.old }
    ensures same { filled (2 ^ 20) octas.new.items ≡ filled (2 ^ 20) octas.old.items }
    ensures enough { n ≤ length octas.new.items }
    ensures kept { AreKept octas.new }
{
    while octas.len() < n {
        let Ok(()) = octas.push(0) else {
            unreachable!()
        };
    }
}
