//! The registers of the register stack, hidden and local ones, as they are shown.

ghost use Rattle.std.specs.Prelude.{◌≡◌, ◌≤◌, ◌<◌, ◌^◌, ◌==◌, ℕ, IfOk, OnOk, length, if◌then◌else◌};
ghost use Rattle.mx_ring.specs.Stack as stacks;
ghost use Rattle.mx_core.specs.Kept.{state_of};
ghost use Rattle.mx_record.specs.Following as spec;
ghost use Rattle.mx_record.specs.Following.{AreFound, HoldsStack, TellsAll};
ghost use Rattle.mx_record.specs.Pictures.{all_registers, octa_of};

use crate::changes::{Change, note};
use mx_core::{Machine, machines_keep_the_invariant};
use mx_ops::codes::{RO, RS};
use mx_word::{NoMemory, STACK_SEGMENT, Sequence};
use std::alloc::Global;
use std::marker::Model;

/// Octas by their places; after the last one there are zeros.
#[derive(Drop)]
pub(crate) struct Stacked {
    octas: Vec<u64>,
}

impl Model for Stacked {
    ghost use Rattle.std.specs.Prelude.{List, ℕ};

    ghost Value = { List ℕ };

    ghost view = { λ s. s.octas.items };
}

#[tactic(auto, using(crate::proofs::Stacking::placing))]
impl Stacked {
    /// Zeros. It takes no memory.
    pub(crate) fn new(alloc: Global) -> Stacked
        ensures { (i : ℕ) → octa_of result i ≡ 0 }
    {
        Stacked {
            octas: Vec::new(alloc),
        }
    }

    /// The octa at a place.
    pub(crate) fn get(&self, i: usize) -> u64
        ensures { result ≡ octa_of self.now i }
    {
        match self.octas.get(i) {
            Some(&octa) => octa,
            None => 0,
        }
    }

    /// Puts an octa at a place.
    pub(crate) fn set(&mut self, i: usize, octa: u64) -> Result<(), NoMemory>
        requires { i < 2 ^ 63 }
        ensures { OnOk result ((q : ℕ) → octa_of self.new q ≡ (if q == i then octa else octa_of self.old q)) }
    {
        self.grow(i)?;
        self.octas[i] = octa;
        Ok(())
    }

    /// Adds zeros until there is an octa at a place.
    fn grow(&mut self, i: usize) -> Result<(), NoMemory>
        requires { i < 2 ^ 63 }
        ensures same { OnOk result ((q : ℕ) → octa_of self.new q ≡ octa_of self.old q) }
        ensures there { OnOk result (i < length self.new) }
    {
        for _ in self.octas.len()..i + 1 {
            self.octas.push(0)?;
        }
        Ok(())
    }
}

/// How many registers are hidden.
#[tactic(auto, unfolding(mx_core::specs::State::special_register))]
pub(crate) fn hidden_count(machine: &Machine) -> u64
    ensures { result ≡ stacks.hidden_count (state_of machine.now).stack }
{
    (machine.special(RO) - STACK_SEGMENT) / 8
}

/// How many of them are spilled.
#[tactic(auto, unfolding(mx_core::specs::State::special_register))]
fn count_spilled(machine: &Machine) -> u64
    ensures { result ≡ stacks.spilled_count (state_of machine.now).stack }
{
    (machine.special(RS) - STACK_SEGMENT) / 8
}

/// What a hidden register has that is not spilled.
fn read_hidden_by(before: u64, after: u64, old: u64, i: u64) -> u64
    requires { i < after }
    ensures { result ≡ spec.hidden_by before after old i }
{
    if i + 1 == after && before < after {
        after - before - 1
    } else {
        old
    }
}

/// What a register of the stack has, by what it had where this many were hidden.
#[tactic(auto, using(crate::proofs::Stacking::seeing))]
fn read_stacked_octa(machine: &Machine, before: u64, old: u64, i: u64) -> u64
    ensures { result ≡ spec.stacked_by before old (state_of machine.now).stack i }
{
    machines_keep_the_invariant(machine);
    let hidden = hidden_count(machine);
    if i < hidden {
        if i < count_spilled(machine) {
            machine.octa(STACK_SEGMENT + 8 * i)
        } else {
            read_hidden_by(before, hidden, old, i)
        }
    } else if i - hidden < u64::from(machine.l()) {
        machine.register((i - hidden) as u8)
    } else {
        0
    }
}

/// What changed of the registers of the stack; they are followed to those of the machine. This many were hidden before, so
/// many were hidden or local, and those in front of a place stayed the same.
#[tactic(auto, using(crate::proofs::Stacking::seeing))]
pub(crate) fn find_stacked_changes(
    alloc: Global,
    stacked: &mut Stacked,
    machine: &Machine,
    before: u64,
    from: u64,
    end: u64,
) -> Result<Sequence<Change>, NoMemory>
    requires few { end ≤ 2 ^ 20 }
    requires found { AreFound before (octa_of stacked.old) (state_of machine.now).stack }
    requires kept { (i : ℕ) → i < from → octa_of (all_registers (state_of machine.now).stack) i ≡ octa_of stacked.old i }
    requires zeros { (i : ℕ) → end ≤ i → octa_of stacked.old i ≡ 0 }
    ensures changes { IfOk result (λ changes.
        TellsAll changes (octa_of stacked.old) (octa_of (all_registers (state_of machine.now).stack))) }
    ensures stack { OnOk result (HoldsStack stacked.new (state_of machine.now).stack) }
{
    machines_keep_the_invariant(machine);
    let mut changes = Sequence::new(alloc);
    let after = hidden_count(machine) + u64::from(machine.l());
    for i in from..end.max(after) {
        let old = stacked.get(i as usize);
        let new = read_stacked_octa(machine, before, old, i);
        note(&mut changes, i, old, new)?;
        stacked.set(i as usize, new)?;
    }
    Ok(changes)
}
