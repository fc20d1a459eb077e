//! How many addresses were carried out.

ghost use Rattle.std.specs.Prelude.{◌≡◌, ◌<◌, ◌++◌, ℕ, List, [], IfOk, IsTrue, OnOk, OnErr};
ghost use Rattle.std.specs.BTreeSet.{insert_key};
ghost use Rattle.std.specs.Ordering.{nat_cmp};
ghost use Rattle.mx_watch.specs.Covers as spec;
ghost use Rattle.mx_watch.specs.Covers.{IsKnown, Remembers, covering};

use crate::numbers::add_count;
use crate::{Watcher, Wish};
use mx_core::Trace;
use mx_word::{Bytes, NoMemory};
use std::alloc::Global;
use std::collections::BTreeSet;
use std::marker::Model;

/// A watcher that counts the different addresses of the instructions that steps fetched. It is never full.
#[derive(Drop)]
pub struct Cover {
    addresses: BTreeSet<u64>,
    /// Some of the addresses, each at the place that it gives: a loop does not look them up in the set again.
    remembered: [Option<u64>; 1024],
    alloc: Global,
}

impl Model for Cover {
    ghost use Rattle.std.specs.Prelude.{ℕ, List};
    ghost use Rattle.mx_watch.specs.Covers.{Remembers};

    ghost Value = { List ℕ };

    ghost view = { λ c. c.addresses.keys };

    ghost invariant = { λ c. Remembers c.addresses.keys c.remembered };
}

impl Cover {
    /// A cover of no steps.
    ///
    /// Errors: out of memory.
    pub fn new(alloc: Global) -> Result<Cover, NoMemory>
        ensures { IfOk result (λ c. ⟦<Cover as Watcher>⟧.meaning c ≡ covering []) }
    {
        Ok(Cover {
            addresses: BTreeSet::new(alloc),
            remembered: nothing_remembered(),
            alloc,
        })
    }
}

impl Watcher for Cover {
    ghost meaning = { λ c. covering c };

    #[tactic(auto, using(crate::proofs::Remembered::remembering, crate::proofs::Covered::told))]
    fn tell(&mut self, t: &Trace) -> Result<Wish, NoMemory> {
        if is_remembered(&self.remembered, t.pc) {
            return Ok(Wish::More);
        }
        match add_address(&mut self.addresses, t.pc) {
            Ok(()) => {
                remember(&mut self.remembered, t.pc);
                Ok(Wish::More)
            }
            Err(_) => Err(NoMemory),
        }
    }

    #[tactic(auto, unfolding(crate::specs::Covers::addresses_after))]
    fn summary(&self) -> Result<Bytes, NoMemory> {
        let mut text = Bytes::copy(self.alloc, b"cover ")?;
        add_count(&mut text, self.addresses.len() as u64)?;
        text.push(b'\n')?;
        Ok(text)
    }
}

/// Adds an address. It is a call, so that what it needs is not made ready for an address that is remembered.
///
/// Errors: out of memory; then nothing changed.
#[inline(never)]
fn add_address(addresses: &mut BTreeSet<u64>, a: u64) -> Result<(), NoMemory>
    ensures keys { OnOk result (addresses.new.keys ≡ insert_key nat_cmp addresses.old.keys a) }
    ensures same { OnErr result (addresses.new.keys ≡ addresses.old.keys) }
{
    match addresses.insert(a) {
        Ok(_) => Ok(()),
        Err(_) => Err(NoMemory),
    }
}

/// No address is remembered.
fn nothing_remembered() -> [Option<u64>; 1024]
    ensures { Remembers [] result }
{
    [None; 1024]
}

/// The place at which an address is remembered.
fn place_of(a: u64) -> usize
    ensures { result < 1024 }
{
    (a / 4 % 1024) as usize
}

/// Whether an address is remembered.
#[tactic(auto, using(crate::proofs::Remembered::remembering))]
fn is_remembered(remembered: &[Option<u64>; 1024], a: u64) -> bool
    ensures { (addresses : List ℕ) → IsTrue result → Remembers addresses remembered.now → IsKnown addresses a }
{
    match remembered[place_of(a)] {
        Some(other) => a == other,
        None => false,
    }
}

/// Remembers an address, which is then there. Another one of its place is forgotten.
#[tactic(auto, using(crate::proofs::Remembered::remembering))]
fn remember(remembered: &mut [Option<u64>; 1024], a: u64)
    ensures { (addresses : List ℕ) → Remembers addresses remembered.old
        → Remembers (insert_key nat_cmp addresses a) remembered.new }
{
    remembered[place_of(a)] = Some(a);
}
