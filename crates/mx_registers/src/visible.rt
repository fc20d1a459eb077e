//! The registers that an instruction sees, in one array of what each of them has.

ghost use Rattle.std.specs.Prelude.{◌≡◌, ◌≤◌, ◌<◌, ◌+◌, ◌-◌, true, false, length, take, drop, max};
ghost use Rattle.mx_registers.specs.Bounds.{AreInBounds};
ghost use Rattle.mx_word.specs.Lists.{with_part};
ghost use Rattle.mx_word.specs.Ranges.{AreOctas};
ghost use Rattle.mx_registers.specs.Parts.{with_zeros_at};
ghost use Rattle.mx_registers.specs.Registers.{registers_at_start, is_marginal, value_of, with_value, with_locals_cut};
ghost use Rattle.mx_registers.specs.Registers.{with_globals_from, push_number, registers_below, registers_from};
ghost use Rattle.mx_registers.specs.Registers.{with_returned};

use crate::knowing::know_octas;
use crate::results::{bring_back, put_few};
use crate::slices::{copy_to, copy_within, fill_with_zeros};
use std::marker::Model;

/// How many registers are copied at once where this many are enough.
pub const FEW: usize = 8;

/// And this many, where more are local.
pub const MORE: usize = 16;

/// The 256 registers: what each of them has, L and G. Contracts see them as the locals, G and the globals.
#[derive(Drop)]
pub struct Visible {
    values: [u64; 256],
    local_count: usize,
    first_global: usize,
}

impl Model for Visible {
    ghost use Rattle.mx_registers.specs.Registers.{Registers};

    ghost Value = { Registers };

    ghost use Rattle.mx_registers.specs.Parts.{registers_in, HoldsRegisters};

    ghost view = { registers_in };

    ghost invariant = { HoldsRegisters };
}

#[tactic(auto, unfolding(crate::specs::Registers::value_of, crate::specs::Registers::with_value))]
impl Visible {
    /// Registers at the start of the machine: none is local, $255 alone is global, and each has 0.
    pub fn new() -> Visible
        ensures { result ≡ registers_at_start }
    {
        Visible {
            values: [0; 256],
            local_count: 0,
            first_global: 255,
        }
    }

    /// L, the number of local registers, at most G.
    #[inline(always)]
    pub fn local_count(&self) -> usize
        ensures value { result ≡ length self.now.locals }
        ensures bounds { AreInBounds self.now }
    {
        self.local_count
    }

    /// G, the number of the first global register, from 32 to 255.
    #[inline(always)]
    pub fn first_global(&self) -> usize
        ensures value { result ≡ self.now.first_global }
        ensures bounds { AreInBounds self.now }
    {
        self.first_global
    }

    /// States that what each register has is below 2^64. It does nothing.
    #[tactic(auto, using(crate::proofs::OctaLists::parts))]
    #[inline(always)]
    pub fn know_octas(&self)
        ensures locals { AreOctas self.now.locals }
        ensures globals { AreOctas self.now.globals }
    {
        know_octas(&self.values);
    }

    /// What $k has: 0 where it is neither local nor global.
    #[inline(always)]
    pub fn get(&self, k: u8) -> u64
        ensures { result ≡ value_of self.now k }
    {
        self.values[usize::from(k)]
    }

    /// Whether $k is neither global nor local.
    #[inline(always)]
    pub fn is_marginal(&self, k: u8) -> bool
        ensures { result ≡ is_marginal self.now k }
    {
        let k = usize::from(k);
        self.local_count <= k && k < self.first_global
    }

    /// Gives a local or global $k a value.
    #[inline(always)]
    pub fn set(&mut self, k: u8, x: u64)
        requires { is_marginal self.old k ≡ false }
        ensures { self.new ≡ with_value self.old k x }
    {
        self.values[usize::from(k)] = x;
    }

    /// Makes a $k local that is neither local nor global, with this value and zeros between.
    #[inline(always)]
    pub fn add(&mut self, k: u8, x: u64)
        requires { is_marginal self.old k ≡ true }
        ensures { self.new ≡ with_value self.old k x }
    {
        let k = usize::from(k);
        self.values[k] = x;
        self.local_count = k + 1;
    }

    /// L falls to `l`, which is at most L.
    pub fn truncate(&mut self, l: usize)
        requires { l ≤ length self.old.locals }
        ensures { self.new ≡ with_locals_cut self.old l }
    {
        fill_with_zeros(&mut self.values, l, self.local_count);
        self.local_count = l;
    }

    /// G becomes `g`, which is from 32 to 255 and at least L. A register that is global only before or only
    /// afterwards is 0.
    pub fn set_globals_from(&mut self, g: usize)
        requires least { 32 ≤ g }
        requires most { g ≤ 255 }
        requires not_local { length self.old.locals ≤ g }
        ensures { self.new ≡ with_globals_from self.old g }
    {
        let end = g.max(self.first_global);
        fill_with_zeros(&mut self.values, self.first_global, end);
        self.first_global = g;
    }

    /// The number that PUSH with `x` hides, which is also how many registers it hides below it; at most G.
    #[inline(always)]
    pub fn push_number(&self, x: u8) -> usize
        ensures number { result ≡ push_number self.now x }
        ensures below { result ≤ self.now.first_global }
    {
        let x = usize::from(x);
        if x < self.first_global {
            x
        } else {
            self.local_count
        }
    }

    /// The first `n` registers, at most G of them.
    #[inline]
    pub fn registers_below(&self, n: usize) -> &[u64]
        requires { n ≤ self.now.first_global }
        ensures { result.now ≡ registers_below self.now n }
    {
        &self.values[..n]
    }

    /// The global registers, from $G to $255.
    pub fn globals(&self) -> &[u64]
        ensures { result.now ≡ self.now.globals }
    {
        &self.values[self.first_global..]
    }

    /// The first `n` locals are gone, and what follows them becomes $0 and so on.
    #[inline]
    pub fn drop_first(&mut self, n: usize)
        ensures { self.new ≡ registers_from self.old n }
    {
        let count = self.local_count.saturating_sub(n);
        if count <= FEW && n <= self.first_global - FEW {
            self.drop_first_few(n, count);
        } else {
            self.drop_first_any(n, count);
        }
    }

    /// The first `n` locals are gone, where few stay: that many registers are moved at once.
    #[inline(always)]
    pub(crate) fn drop_first_few(&mut self, n: usize, count: usize)
        requires count { count ≡ length self.old.locals - n }
        requires few { count ≤ 8 }
        requires room { n + 8 ≤ self.old.first_global }
        ensures { self.new ≡ registers_from self.old n }
    {
        move_few(&mut self.values, n, self.local_count);
        self.local_count = count;
    }

    /// The first `n` locals are gone, where at most `size` were local, `n` is at most G less `size`, and `count` stay.
    /// Nothing after them is to be cleared.
    #[inline(always)]
    pub fn drop_first_fewer(&mut self, n: usize, count: usize, size: usize)
        requires count { count ≡ length self.old.locals - n }
        requires few { length self.old.locals ≤ size }
        requires room { n + size ≤ self.old.first_global }
        ensures { self.new ≡ registers_from self.old n }
    {
        move_fewer(&mut self.values, n, size);
        self.local_count = count;
    }

    /// The first `n` locals are gone, however many stay.
    #[inline(never)]
    fn drop_first_any(&mut self, n: usize, count: usize)
        requires { count ≡ length self.old.locals - n }
        ensures { self.new ≡ registers_from self.old n }
    {
        copy_within(
            &mut self.values,
            self.local_count - count,
            self.local_count,
            0,
        );
        fill_with_zeros(&mut self.values, count, self.local_count);
        self.local_count = count;
    }

    /// The same registers once more.
    pub fn copy(&self) -> Visible
        ensures { result ≡ self.now }
    {
        Visible {
            values: self.values,
            local_count: self.local_count,
            first_global: self.first_global,
        }
    }

    /// The registers become what others are.
    pub fn copy_from(&mut self, others: &Visible)
        ensures { self.new ≡ others.now }
    {
        self.values = others.values;
        self.local_count = others.local_count;
        self.first_global = others.first_global;
    }

    /// Octas come back as $0 and so on, and the results of POP with `x` follow them, at most G
    /// registers in all.
    pub fn bring_back(&mut self, octas: &[u64], x: usize)
        ensures { self.new ≡ with_returned self.old octas.now x }
    {
        let room = self.first_global;
        let local_count = self.local_count;
        self.local_count = bring_back(&mut self.values[..room], local_count, octas, x);
    }

    /// The first `n` of 8 octas come back as $0 and so on, and one result of POP follows them, or none, where at most 8
    /// registers are local. 8 registers are written at once.
    #[inline(always)]
    pub fn bring_few_back(&mut self, octas: &[u64], n: usize, x: usize)
        requires octas { length octas.now ≡ 8 }
        requires few { n < 8 }
        requires locals { length self.old.locals ≤ 8 }
        requires one { x ≤ 1 }
        requires among { x ≤ length self.old.locals }
        ensures { self.new ≡ with_returned self.old (take n octas.now) x }
    {
        put_few(&mut self.values, octas, n, x);
        self.local_count = n + x;
    }

    /// The registers become those with this G, which is from 32 to 255, all globals from $G to $255, and these
    /// locals, as far as they are below G.
    pub fn restore(&mut self, first_global: usize, locals: &[u64], globals: &[u64])
        requires least { 32 ≤ first_global }
        requires all { first_global + length globals.now ≡ 256 }
        requires not_empty { 0 < length globals.now }
        ensures { self.new ≡ record {
          locals = take first_global locals.now;
          first_global = first_global;
          globals = globals.now;
        } }
    {
        let count = first_global.min(locals.len());
        copy_to(&mut self.values, 0, &locals[..count]);
        fill_with_zeros(&mut self.values, count, first_global);
        copy_to(&mut self.values, first_global, globals);
        self.first_global = first_global;
        self.local_count = count;
    }
}

/// As many registers as are copied at once, from the place `n` on, become the first ones, and there are zeros
/// between them and the place `l`.
#[inline(always)]
fn move_few(values: &mut [u64], n: usize, l: usize)
    requires from { n + 8 ≤ length values.old }
    requires locals { l ≤ length values.old }
    ensures { values.new ≡ with_zeros_at (with_part values.old 0 (take 8 (drop n values.old))) 8 (max l 8) }
{
    copy_within(values, n, n + FEW, 0);
    fill_with_zeros(values, FEW, l.max(FEW));
}

/// As many registers as `size` from the place `n` on become the first ones.
#[inline(always)]
fn move_fewer(values: &mut [u64], n: usize, size: usize)
    requires { n + size ≤ length values.old }
    ensures { values.new ≡ with_part values.old 0 (take size (drop n values.old)) }
{
    if size == FEW {
        return move_some::<FEW>(values, n);
    }
    if size == MORE {
        return move_some::<MORE>(values, n);
    }
    copy_within(values, n, n + size, 0);
}

/// `N` registers from the place `n` on become the first ones.
#[inline(always)]
fn move_some<const N: usize>(values: &mut [u64], n: usize)
    requires { n + N ≤ length values.old }
    ensures { values.new ≡ with_part values.old 0 (take N (drop n values.old)) }
{
    let mut some = [0; N];
    copy_to(&mut some, 0, &values[n..n + N]);
    copy_to(values, 0, &some);
}
