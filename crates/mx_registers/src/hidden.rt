//! The hidden octas: a list of all of them, and the stack area, where the older ones are, too.

ghost use Rattle.std.specs.Prelude.{◌≡◌, ◌≤◌, ◌<◌, ◌+◌, ◌-◌, ◌^◌, ◌++◌, [], ◌∷◌, ℕ, IfOk, OnErr, Err, length, take, drop};
ghost use Rattle.std.specs.Prelude.{None, IfSome, slice_index, nat_le, ◌&&◌};
ghost use Rattle.mx_word.specs.Ranges.{AreOctas};
ghost use Rattle.mx_registers.specs.Parts.{limit_for};
ghost use Rattle.mx_registers.specs.HiddenPart.{octas_of, with_hidden, with_spilled, with_room, with_first};
ghost use Rattle.mx_registers.specs.HiddenPart.{with_stack_first, with_octa, nothing_hidden};

mod back;
mod copy;

use crate::RingFault;
use crate::area::Area;
use crate::knowing::know_octas;
use crate::list::HiddenList;
use std::alloc::Global;
use std::marker::Model;

/// How many octas the stack area has, which is also how many hidden and local registers there may be.
pub const ROOM: usize = 1 << 20;

/// How many hidden and local registers a ring of the least size has in it at most.
const LEAST: usize = 255;

/// The hidden octas and the stack area. Contracts see the octas of the area, how many hidden ones are spilled to it,
/// and the other hidden ones.
#[derive(Drop)]
pub struct Hidden {
    alloc: Global,
    list: HiddenList,
    stack: Area,
    spilled: usize,
    limit: usize,
}

impl Model for Hidden {
    ghost use Rattle.mx_registers.specs.HiddenPart.{HiddenPart};

    ghost Value = { HiddenPart };

    ghost use Rattle.mx_registers.specs.Parts.{part_in, HoldsHidden};

    ghost view = { part_in };

    ghost invariant = { HoldsHidden };
}

#[tactic(auto, unfolding(crate::specs::HiddenPart::with_spilled, crate::specs::HiddenPart::with_room, crate::specs::HiddenPart::with_first))]
impl Hidden {
    /// Nothing is hidden, and the stack area has zeros. The room for all octas is taken at once.
    ///
    /// Errors: `OutOfMemory` alone.
    pub fn new(alloc: Global) -> Result<Hidden, RingFault>
        ensures begin { IfOk result (λ h. h ≡ nothing_hidden) }
        ensures memory { OnErr result (result ≡ Err RingFault.OutOfMemory) }
    {
        Ok(Hidden {
            alloc,
            list: HiddenList::new(alloc, LEAST)?,
            stack: Area::new(alloc)?,
            spilled: 0,
            limit: LEAST,
        })
    }

    /// The number of hidden octas, at most 2^20.
    #[inline(always)]
    pub fn len(&self) -> usize
        ensures value { result ≡ length (octas_of self.now) }
        ensures room { result ≤ 2 ^ 20 }
        ensures parts { result ≡ self.now.spilled + length self.now.resident }
    {
        self.list.len()
    }

    /// The number of hidden octas in the stack area, at most that of the hidden ones.
    #[inline(always)]
    pub fn spilled_count(&self) -> usize
        ensures { result ≡ self.now.spilled }
    {
        self.spilled
    }

    /// The hidden octas, the oldest first.
    #[inline(always)]
    pub fn octas(&self) -> &[u64]
        ensures { result.now ≡ octas_of self.now }
    {
        self.list.as_slice()
    }

    /// Whether `n` registers, at most 2^20, may follow the hidden ones, and a ring of the least size has room for them.
    #[inline(always)]
    pub fn has_room(&self, n: usize) -> bool
        requires { n ≤ 2 ^ 20 }
        ensures { result ≡ nat_le (length self.now.resident + n) 255
            && nat_le (length (octas_of self.now) + n) (2 ^ 20) }
    {
        self.list.len() + n <= self.limit
    }

    /// This many octas from a place among the hidden ones on, at most 16: the first of them are those that are hidden.
    #[inline(always)]
    pub fn some_from(&self, from: usize, n: usize) -> &[u64]
        requires inside { from ≤ length (octas_of self.now) }
        requires few { n ≤ 16 }
        ensures size { length result.now ≡ n }
        ensures octas { (k : ℕ) → k ≤ n → from + k ≤ length (octas_of self.now)
            → take k result.now ≡ take k (drop from (octas_of self.now)) }
    {
        self.list.some_from(from, n)
    }

    /// The octa of the stack area at a place below 2^20.
    #[inline]
    pub fn octa(&self, i: usize) -> u64
        requires { i < 2 ^ 20 }
        ensures { result ≡ slice_index self.now.stack i }
    {
        self.stack.octa(i)
    }

    /// States that each octa of the stack area is below 2^64. It does nothing.
    #[inline(always)]
    pub fn know_stack(&self)
        ensures { (i : ℕ) → slice_index self.now.stack i < 2 ^ 64 }
    {
        self.stack.know_octas();
    }

    /// States that each hidden octa and each octa of the stack area is below 2^64. It does nothing.
    #[tactic(auto, using(crate::proofs::OctaLists::parts))]
    #[inline(always)]
    pub fn know_octas(&self)
        ensures resident { AreOctas self.now.resident }
        ensures area { AreOctas self.now.stack }
    {
        know_octas(self.list.as_slice());
        self.stack.know_octas();
    }

    /// The octas of the stack area up to the one at a place below 2^20; nothing only where that one is 0.
    pub fn area_up_to(&self, i: usize) -> Option<&[u64]>
        requires { i < 2 ^ 20 }
        ensures some { IfSome result (λ octas. octas.now ≡ take (i + 1) self.now.stack) }
        ensures none { result ≡ None → slice_index self.now.stack i ≡ 0 }
    {
        self.stack.up_to(i)
    }

    /// Hides octas; with them at most 2^20 are hidden.
    #[inline]
    pub fn append(&mut self, octas: &[u64])
        requires { length (octas_of self.old) + length octas.now ≤ 2 ^ 20 }
        ensures { self.new ≡ with_hidden self.old octas.now }
    {
        self.list.append(octas);
    }

    /// Hides the first `n` of some octas, and that number. There are more than `n`, and for all of them there is
    /// room: with them at most 2^20 would be hidden.
    #[inline(always)]
    pub fn append_with_count(&mut self, octas: &[u64], n: usize)
        requires room { length (octas_of self.old) + length octas.now ≤ 2 ^ 20 }
        requires among { n < length octas.now }
        ensures { self.new ≡ with_hidden self.old (take n octas.now ++ n ∷ []) }
    {
        if self.has_room(octas.len()) {
            self.list.append_with_count(octas, n);
        } else {
            self.append_number(&octas[..n]);
        }
    }

    /// Hides octas and how many they are.
    #[inline(never)]
    fn append_number(&mut self, octas: &[u64])
        requires { length (octas_of self.old) + (length octas.now + 1) ≤ 2 ^ 20 }
        ensures { self.new ≡ with_hidden self.old (octas.now ++ length octas.now ∷ []) }
    {
        self.append(octas);
        self.append(&[octas.len() as u64]);
    }

    /// After a growth, where the ring has a number of registers, at least 256, and `l` of them, at most 255, are local:
    /// what is above that number less one goes to the stack area.
    #[inline(always)]
    pub fn make_room(&mut self, l: usize, registers: usize)
        requires locals { l < 256 }
        requires registers { 256 ≤ registers }
        ensures { self.new ≡ with_room self.old l registers }
    {
        let count = self.list.len() - self.spilled + l;
        if count >= registers {
            self.spill(count + 1 - registers);
        }
    }

    /// The `n` oldest octas that are not in the stack area go there.
    #[inline(never)]
    pub(crate) fn spill(&mut self, n: usize)
        requires { n ≤ length self.old.resident }
        ensures { self.new ≡ with_spilled self.old n }
    {
        let end = self.spilled + n;
        self.stack
            .write(self.spilled, &self.list.as_slice()[self.spilled..end]);
        self.spilled = end;
        self.limit = limit_for(end);
        self.list.widen(self.limit);
    }

    /// All octas that are not in the stack area go there.
    pub fn spill_all(&mut self)
        ensures { self.new ≡ with_spilled self.old (length self.old.resident) }
    {
        let n = self.list.len() - self.spilled;
        self.spill(n);
    }

    /// Only the first `n` octas stay hidden, or all where they are fewer.
    #[inline]
    pub fn keep_first(&mut self, n: usize)
        ensures { self.new ≡ with_first self.old n }
    {
        self.list.truncate(n);
        if n < self.spilled {
            self.spilled = n;
            self.limit = limit_for(n);
        }
    }

    /// The first `n` octas of the stack area, at most 2^20, are the hidden ones.
    pub fn take_stack(&mut self, n: usize)
        requires { n ≤ 2 ^ 20 }
        ensures { self.new ≡ with_stack_first self.old n }
    {
        let start = n.min(self.spilled);
        self.list.truncate(start);
        self.stack.hide(start, n, &mut self.list);
        self.spilled = n;
        self.limit = limit_for(n);
        self.list.widen(self.limit);
    }

    /// Overwrites the octa of the stack area at a place below 2^20.
    pub fn set_octa(&mut self, i: usize, x: u64)
        requires { i < 2 ^ 20 }
        ensures { self.new ≡ with_octa self.old i x }
    {
        if i < self.spilled {
            self.list.set(i, x);
        }
        self.stack.set(i, x);
    }
}

/// Up to how many hidden and local registers nothing is spilled, where this many octas are.
#[inline(always)]
fn limit_for(spilled: usize) -> usize
    requires { spilled ≤ 2 ^ 20 }
    ensures { result ≡ limit_for spilled }
{
    (spilled + LEAST).min(ROOM)
}
