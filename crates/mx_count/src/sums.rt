//! What is counted at the addresses that a line loads.

ghost use Rattle.std.specs.Prelude.{◌≡◌, ◌==◌, not, true, ℕ, IfOk, OnOk, if◌then◌else◌};
ghost use Rattle.std.specs.BTreeSet.{contains};
ghost use Rattle.std.specs.Ordering.{nat_cmp};
ghost use Rattle.mx_count.specs.Counting.{kept_tally};
ghost use Rattle.mx_count.specs.InTurn as spec;
ghost use Rattle.mx_count.specs.Tallies as tallies;

use crate::counts::Entry;
use crate::tally::{Tally, add_tallies, empty_tally};
use mx_view::Cell;
use mx_word::NoMemory;
use std::alloc::Global;
use std::collections::{BTreeMap, BTreeSet};
use std::marker::Model;

/// The tally of each address.
#[derive(Drop)]
pub struct Sums {
    sums: BTreeMap<u64, Tally>,
}

impl Model for Sums {
    ghost use Rattle.std.specs.Prelude.{ℕ, List};
    ghost use Rattle.mx_count.specs.declared.tally.Tally.{Tally};

    ghost Value = { List (ℕ × Tally) };

    ghost view = { λ s. s.sums.entries };
}

impl Sums {
    /// The tally of an address.
    #[tactic(auto, unfolding(crate::specs::InTurn::sum_at))]
    fn at(&self, address: u64) -> Tally
        ensures { result ≡ spec.sum_at self.now address }
    {
        match self.sums.get(&address) {
            Some(tally) => *tally,
            None => empty_tally(),
        }
    }

    /// Sets the tally of an address.
    #[tactic(auto, unfolding(crate::specs::InTurn::sum_at))]
    fn set(&mut self, address: u64, tally: Tally) -> Result<(), NoMemory>
        ensures { OnOk result ((a : ℕ) →
            spec.sum_at self.new a ≡ (if address == a then tally else spec.sum_at self.old a)) }
    {
        self.sums.insert(address, tally)?;
        Ok(())
    }

    /// Adds to the tally of an address.
    #[tactic(auto, using(crate::proofs::Summing::more))]
    fn add(&mut self, address: u64, tally: Tally) -> Result<(), NoMemory>
        ensures { OnOk result (spec.sum_at self.new ≡ spec.with_more (spec.sum_at self.old) address tally) }
    {
        let sum = add_tallies(self.at(address), tally)?;
        self.set(address, sum)?;
        Ok(())
    }
}

/// The tallies of all addresses of entries.
pub fn sums_of(alloc: Global, entries: &[Entry]) -> Result<Sums, NoMemory>
    ensures { IfOk result (λ sums. spec.sum_at sums ≡ spec.with_entries spec.no_sums entries.now) }
{
    let mut sums = Sums {
        sums: BTreeMap::new(alloc),
    };
    for entry in entries {
        sums.add(entry.address, entry.tally)?;
    }
    Ok(sums)
}

/// The tally of all entries.
pub fn total(entries: &[Entry]) -> Result<Tally, NoMemory>
    ensures { IfOk result (λ y. y ≡ kept_tally (λ a. true) entries.now) }
{
    let mut sum = empty_tally();
    for entry in entries {
        sum = add_tallies(sum, entry.tally)?;
    }
    Ok(sum)
}

/// Notes that an address was seen, and says whether it is new.
#[tactic(auto, unfolding(crate::specs::InTurn::with_seen))]
fn note(seen: &mut BTreeSet<u64>, address: u64) -> Result<bool, NoMemory>
    ensures new { IfOk result (λ is. is ≡ not (contains nat_cmp seen.old address)) }
    ensures seen { OnOk result (
        contains nat_cmp seen.new ≡ spec.with_seen (contains nat_cmp seen.old) address) }
{
    Ok(seen.insert(address)?)
}

/// Adds the tally of an address, if it was not seen yet.
#[tactic(auto, using(crate::proofs::Summing::more))]
fn add_new(
    sums: &Sums,
    seen: &mut BTreeSet<u64>,
    tally: Tally,
    address: u64,
) -> Result<Tally, NoMemory>
    ensures sum { IfOk result (λ y. y ≡ tallies.added tally
        (if contains nat_cmp seen.old address then tallies.nothing else spec.sum_at sums.now address)) }
    ensures seen { OnOk result (
        contains nat_cmp seen.new ≡ spec.with_seen (contains nat_cmp seen.old) address) }
{
    match note(seen, address) {
        Ok(true) => add_tallies(tally, sums.at(address)),
        Ok(false) => Ok(tally),
        Err(_) => Err(NoMemory),
    }
}

/// The tally of the addresses of these tetras, each once.
pub fn line_tally(alloc: Global, sums: &Sums, cells: &[Cell]) -> Result<Tally, NoMemory>
    ensures { IfOk result (λ y. y ≡ spec.tally_by (spec.sum_at sums.now) cells.now) }
{
    let mut seen = BTreeSet::new(alloc);
    let mut tally = empty_tally();
    for cell in cells {
        tally = add_new(sums, &mut seen, tally, cell.address)?;
    }
    Ok(tally)
}
