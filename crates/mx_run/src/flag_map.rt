//! The flags of tetras as one map. A tetra without a flag is not held.

ghost use Rattle.std.specs.Prelude.{◌≡◌, ◌<◌, ◌/◌, ◌^◌, ◌==◌, IsTrue, true, false, IsOk, ℕ, [], None, Some, OnOk};
ghost use Rattle.std.specs.Prelude.{OnErr, if◌then◌else◌};
ghost use Rattle.std.specs.Ordering.{nat_cmp};
ghost use Rattle.std.specs.BTreeMap.{get};
ghost use Rattle.mx_run.specs.FlagMaps as spec;

use crate::flags::Flags;
use mx_word::NoMemory;
use std::alloc::Global;
use std::collections::BTreeMap;
use std::marker::Model;

/// The flags of each tetra, by the number of the tetra, which is its address by 4.
#[derive(Drop)]
pub struct FlagMap {
    flags: BTreeMap<u64, Flags>,
}

impl Model for FlagMap {
    ghost use Rattle.std.specs.Prelude.{ℕ, List};
    ghost use Rattle.mx_run.specs.FlagMaps.{HoldsFlags};
    ghost use Rattle.mx_run.specs.declared.flags.Flags.{Flags};

    ghost Value = { List (ℕ × Flags) };

    ghost view = { λ m. m.flags.entries };

    ghost invariant = { λ m. HoldsFlags m.flags };
}

impl FlagMap {
    /// No flags.
    #[tactic(auto, using(crate::proofs::HeldFlags::holding))]
    pub fn new(alloc: Global) -> FlagMap
        ensures { result ≡ [] }
    {
        FlagMap {
            flags: BTreeMap::new(alloc),
        }
    }

    /// Whether no tetra has a flag.
    #[tactic(auto, using(crate::proofs::HeldFlags::counting))]
    pub fn is_empty(&self) -> bool
        ensures only { IsTrue result → self.now ≡ [] }
        ensures always { self.now ≡ [] → IsTrue result }
        ensures flagless { ((n : ℕ) → spec.has_flag (spec.flags_at self.now n) ≡ false) → IsTrue result }
    {
        self.flags.is_empty()
    }

    /// The flags of the tetra that holds an address.
    #[inline]
    pub fn flags(&self, a: u64) -> Flags
        ensures { result ≡ spec.flags_at self.now (a / 4) }
    {
        self.flags_of(a / 4)
    }

    /// The flags of the tetra of a number, which is its address by 4.
    #[tactic(auto, using(crate::proofs::HeldFlags::reading))]
    pub(crate) fn flags_of(&self, n: u64) -> Flags
        ensures value { result ≡ spec.flags_at self.now n }
        ensures below { spec.has_flag result ≡ true → n < 2 ^ 62 }
    {
        match self.flags.get(&n) {
            Some(flags) => *flags,
            None => Flags {
                r: false,
                w: false,
                x: false,
                t: false,
            },
        }
    }

    /// Sets the flags of the tetra that holds an address. It takes no memory where there are none.
    ///
    /// Errors: out of memory; then nothing changed.
    #[tactic(auto, using(crate::proofs::HeldFlags::setting))]
    pub fn set_flags(&mut self, a: u64, f: Flags) -> Result<(), NoMemory>
        ensures ok { OnOk result (spec.flags_at self.new ≡ spec.with_flags (spec.flags_at self.old) (a / 4) f) }
        ensures err { OnErr result (self.new ≡ self.old) }
        ensures none { spec.has_flag f ≡ false → IsOk result }
    {
        if has_flag(f) {
            hold(&mut self.flags, a / 4, f)
        } else {
            drop_flags(&mut self.flags, a / 4);
            Ok(())
        }
    }

    /// The least tetra whose own address is at or above `from` and that has a flag: its address and
    /// its flags. Nothing where there is none.
    #[tactic(auto, using(crate::proofs::HeldFlags::finding))]
    pub fn next_flagged(&self, from: u64) -> Option<(u64, Flags)>
        ensures { spec.IsNextFlagged (spec.flags_at self.now) from result }
    {
        match next_held(&self.flags, from.div_ceil(4)) {
            Some((n, flags)) => Some((4 * n, flags)),
            None => None,
        }
    }
}

/// Whether there is a flag.
fn has_flag(f: Flags) -> bool
    ensures { result ≡ spec.has_flag f }
{
    f.r || f.w || f.x || f.t
}

/// Holds the flags of a tetra.
fn hold(flags: &mut BTreeMap<u64, Flags>, n: u64, f: Flags) -> Result<(), NoMemory>
    ensures ok { OnOk result ((q : ℕ) →
        get nat_cmp flags.new q ≡ (if q == n then Some f else get nat_cmp flags.old q)) }
    ensures err { OnErr result (flags.new.entries ≡ flags.old.entries) }
{
    match flags.insert(n, f) {
        Ok(_) => Ok(()),
        Err(_) => Err(NoMemory),
    }
}

/// Holds no flags of a tetra any more.
fn drop_flags(flags: &mut BTreeMap<u64, Flags>, n: u64)
    ensures { (q : ℕ) → get nat_cmp flags.new q ≡ (if q == n then None else get nat_cmp flags.old q) }
{
    flags.remove(&n);
}

/// The least tetra from a number on that is held: its number and its flags.
fn next_held(flags: &BTreeMap<u64, Flags>, from: u64) -> Option<(u64, Flags)>
    ensures { spec.IsNextHeld flags.now from result }
{
    match flags.range(from..).next() {
        Some((n, f)) => Some((*n, *f)),
        None => None,
    }
}
