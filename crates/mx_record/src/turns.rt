//! What a turn changed.

ghost use Rattle.std.specs.Prelude.{◌≡◌, IfOk, OnOk};
ghost use Rattle.mx_core.specs.Kept.{state_of};
ghost use Rattle.mx_record.specs.Following.{ComesByTurn, HoldsStack};
ghost use Rattle.mx_record.specs.Pictures.{picture};
ghost use Rattle.mx_record.specs.Records.{Leads};

use crate::changes::Record;
use crate::octas::octa_changes;
use crate::reach::{kept_count, reach_of};
use crate::registers::{global_changes, special_changes};
use crate::stacked::{Stacked, find_stacked_changes, hidden_count};
use mx_core::{Machine, Trace, machines_are_whole, machines_hold_octas};
use mx_word::NoMemory;
use std::alloc::Global;

/// What a turn changed, by the machines before and after it and its trace. The registers of the stack are followed.
#[tactic(auto, using(crate::proofs::Turning::turning))]
pub(crate) fn turn_changes(
    alloc: Global,
    old: &Machine,
    new: &Machine,
    trace: Option<Trace>,
    stacked: &mut Stacked,
) -> Result<Record, NoMemory>
    requires turn { ComesByTurn (state_of old.now) (state_of new.now) trace }
    requires stack { HoldsStack stacked.old (state_of old.now).stack }
    ensures record { IfOk result (λ r. Leads r (picture (state_of old.now)) (picture (state_of new.now))) }
    ensures stack { OnOk result (HoldsStack stacked.new (state_of new.now).stack) }
{
    machines_hold_octas(old);
    machines_are_whole(old);
    machines_hold_octas(new);
    let before = hidden_count(old);
    let end = before + u64::from(old.l());
    let special = special_changes(alloc, old, new)?;
    let global = global_changes(alloc, old, new)?;
    let octas = octa_changes(alloc, old, new, reach_of(trace))?;
    let kept = kept_count(trace, before, hidden_count(new));
    let stacked = find_stacked_changes(alloc, stacked, new, before, kept, end)?;
    Ok(Record {
        next: old.pc() ^ new.pc(),
        special,
        global,
        stacked,
        octas,
    })
}
