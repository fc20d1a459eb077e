//! What a session knows besides the run.

ghost use Rattle.std.specs.Prelude.{◌≡◌, [], IfOk};
ghost use Rattle.mx_debug.specs.Words as spec;

use mx_book::Book;
use mx_stops::{Break, Watch};
use mx_word::{NoMemory, Sequence};
use std::alloc::Global;

/// The breaks, what is watched, and the number that was given last.
#[derive(Drop)]
pub struct Stops {
    pub breaks: Sequence<Break>,
    pub watches: Sequence<Watch>,
    pub last: u32,
}

/// What is known of the program by name, its breaks, what is watched, the last step that can be reached, and how many registers
/// the ring has.
#[derive(Drop)]
pub struct Known {
    pub alloc: Global,
    pub book: Book,
    pub stops: Stops,
    pub most: u64,
    pub ring: u32,
}

impl Stops {
    /// None.
    pub(crate) fn new(alloc: Global) -> Stops
        ensures breaks { result.breaks ≡ [] }
        ensures watches { result.watches ≡ [] }
    {
        Stops {
            breaks: Sequence::new(alloc),
            watches: Sequence::new(alloc),
            last: 0,
        }
    }

    /// The next number.
    pub fn next(&mut self) -> u32
        ensures breaks { self.new.breaks ≡ self.old.breaks }
        ensures watches { self.new.watches ≡ self.old.watches }
    {
        self.last = self.last.saturating_add(1);
        self.last
    }

    /// Drops all of them.
    pub(crate) fn clear(&mut self, alloc: Global)
        ensures breaks { self.new.breaks ≡ [] }
        ensures watches { self.new.watches ≡ [] }
    {
        self.breaks = Sequence::new(alloc);
        self.watches = Sequence::new(alloc);
    }
}

/// The breaks but that of a number.
#[tactic(auto, using(crate::proofs::Deleting::keeping))]
pub(crate) fn breaks_but(
    alloc: Global,
    breaks: &[Break],
    number: u64,
) -> Result<Sequence<Break>, NoMemory>
    ensures { IfOk result (λ left. left ≡ spec.breaks_but number breaks.now) }
{
    let mut left = Sequence::new(alloc);
    for b in breaks {
        if u64::from(b.number) != number {
            left.push(*b)?;
        }
    }
    Ok(left)
}

/// What is watched but that of a number.
#[tactic(auto, using(crate::proofs::Deleting::keeping))]
pub(crate) fn watches_but(
    alloc: Global,
    watches: &[Watch],
    number: u64,
) -> Result<Sequence<Watch>, NoMemory>
    ensures { IfOk result (λ left. left ≡ spec.watches_but number watches.now) }
{
    let mut left = Sequence::new(alloc);
    for watch in watches {
        if u64::from(watch.number) != number {
            left.push(*watch)?;
        }
    }
    Ok(left)
}
