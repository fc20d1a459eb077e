//! What changed of memory.

ghost use Rattle.std.specs.Prelude.{◌≡◌, ◌<◌, ◌^◌, ◌==◌, ℕ, [], IfOk, OnOk, false, not};
ghost use Rattle.mx_core.specs.Kept.{state_of};
ghost use Rattle.mx_record.specs.Following.{TellsAll, TellsWithin, is_reached};
ghost use Rattle.mx_record.specs.Pictures.{octa_shown};
ghost use Rattle.mx_record.specs.Records.{noted};

use crate::changes::{Change, note};
use crate::reach::Reach;
use mx_core::{Machine, is_in_stack_area};
use mx_word::{NoMemory, Sequence};
use std::alloc::Global;

/// How many octas have an address below 2^63.
pub(crate) const OCTAS: u64 = 1 << 60;

/// What is shown of the octa with a number.
#[tactic(auto, using(crate::proofs::Beyond::octa_showing))]
pub(crate) fn show_octa(machine: &Machine, n: u64) -> u64
    ensures { result ≡ octa_shown (state_of machine.now) n }
{
    if n >= OCTAS || is_in_stack_area(8 * n) {
        0
    } else {
        machine.octa(8 * n)
    }
}

/// Notes an octa.
fn note_octa(
    changes: &mut Sequence<Change>,
    old: &Machine,
    new: &Machine,
    n: u64,
) -> Result<(), NoMemory>
    ensures { OnOk result (changes.new
        ≡ noted changes.old n (octa_shown (state_of old.now) n) (octa_shown (state_of new.now) n)) }
{
    note(changes, n, show_octa(old, n), show_octa(new, n))
}

/// Notes each octa that was not 0.
#[tactic(auto, using(crate::proofs::Searching::searching))]
fn note_old(changes: &mut Sequence<Change>, old: &Machine, new: &Machine) -> Result<(), NoMemory>
    requires { changes.old ≡ [] }
    ensures { OnOk result (TellsWithin changes.new (octa_shown (state_of old.now)) (octa_shown (state_of new.now))
        (λ n. not (octa_shown (state_of old.now) n == 0))) }
{
    let mut n = 0;
    while n < OCTAS {
        match old.next_nonzero(8 * n) {
            Some((at, _)) => {
                note_octa(changes, old, new, at / 8)?;
                n = at / 8 + 1;
            }
            None => return Ok(()),
        }
    }
    Ok(())
}

/// Notes each octa that was 0 and is not.
#[tactic(auto, using(crate::proofs::Searching::searching))]
fn note_new(changes: &mut Sequence<Change>, old: &Machine, new: &Machine) -> Result<(), NoMemory>
    requires { TellsWithin changes.old (octa_shown (state_of old.now)) (octa_shown (state_of new.now))
        (λ n. not (octa_shown (state_of old.now) n == 0)) }
    ensures { OnOk result (TellsAll changes.new (octa_shown (state_of old.now)) (octa_shown (state_of new.now))) }
{
    let mut n = 0;
    while n < OCTAS {
        match new.next_nonzero(8 * n) {
            Some((at, _)) => {
                if show_octa(old, at / 8) == 0 {
                    note_octa(changes, old, new, at / 8)?;
                }
                n = at / 8 + 1;
            }
            None => return Ok(()),
        }
    }
    Ok(())
}

/// What changed of memory between two machines, where no octa did that is not reached.
#[tactic(auto, using(crate::proofs::Telling::reaching))]
pub(crate) fn octa_changes(
    alloc: Global,
    old: &Machine,
    new: &Machine,
    reach: Reach,
) -> Result<Sequence<Change>, NoMemory>
    requires { (n : ℕ) → is_reached reach n ≡ false
        → octa_shown (state_of new.now) n ≡ octa_shown (state_of old.now) n }
    ensures { IfOk result (λ changes.
        TellsAll changes (octa_shown (state_of old.now)) (octa_shown (state_of new.now))) }
{
    let mut changes = Sequence::new(alloc);
    match reach {
        Reach::Nothing => Ok(changes),
        Reach::Octa(n) => {
            note_octa(&mut changes, old, new, n)?;
            Ok(changes)
        }
        Reach::All => {
            note_old(&mut changes, old, new)?;
            note_new(&mut changes, old, new)?;
            Ok(changes)
        }
    }
}
