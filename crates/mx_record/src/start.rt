//! What is shown at the start of a run, as changes of nothing.

ghost use Rattle.std.specs.Prelude.{◌≡◌, ◌<◌, IfOk, OnOk, [], ℕ};
ghost use Rattle.mx_ring.specs.Stack.{hidden_count};
ghost use Rattle.mx_core.specs.Kept.{state_of};
ghost use Rattle.mx_record.specs.Following.{HoldsStack, TellsAll};
ghost use Rattle.mx_record.specs.Pictures as spec;
ghost use Rattle.mx_record.specs.Pictures.{no_picture, octa_of, picture};
ghost use Rattle.mx_record.specs.Records.{Leads};

use crate::changes::{Change, Record, note};
use crate::octas::{OCTAS, show_octa};
use crate::registers::{show_global, show_special};
use crate::stacked::{Stacked, find_stacked_changes};
use mx_core::{Machine, machines_keep_the_invariant};
use mx_word::{NoMemory, Sequence};
use std::alloc::Global;

/// The special registers, as changes of zeros.
#[tactic(auto, using(crate::proofs::Telling::telling))]
fn special_values(alloc: Global, machine: &Machine) -> Result<Sequence<Change>, NoMemory>
    ensures { IfOk result (λ changes. TellsAll changes (λ _. 0) (spec.special_shown (state_of machine.now))) }
{
    machines_keep_the_invariant(machine);
    let mut changes = Sequence::new(alloc);
    for code in 0..32u8 {
        note(
            &mut changes,
            u64::from(code),
            0,
            show_special(machine, code),
        )?;
    }
    Ok(changes)
}

/// The global registers, as changes of zeros.
#[tactic(auto, using(crate::proofs::Telling::telling))]
fn global_values(alloc: Global, machine: &Machine) -> Result<Sequence<Change>, NoMemory>
    ensures { IfOk result (λ changes. TellsAll changes (λ _. 0) (spec.global_shown (state_of machine.now))) }
{
    machines_keep_the_invariant(machine);
    let mut changes = Sequence::new(alloc);
    for k in 0..256u16 {
        note(&mut changes, u64::from(k), 0, show_global(machine, k as u8))?;
    }
    Ok(changes)
}

/// The octas of memory, as changes of zeros.
#[tactic(auto, using(crate::proofs::Searching::starting))]
fn octa_values(alloc: Global, machine: &Machine) -> Result<Sequence<Change>, NoMemory>
    ensures { IfOk result (λ changes. TellsAll changes (λ _. 0) (spec.octa_shown (state_of machine.now))) }
{
    let mut changes = Sequence::new(alloc);
    let mut n = 0;
    while n < OCTAS {
        match machine.next_nonzero(8 * n) {
            Some((at, _)) => {
                note(&mut changes, at / 8, 0, show_octa(machine, at / 8))?;
                n = at / 8 + 1;
            }
            None => return Ok(changes),
        }
    }
    Ok(changes)
}

/// All that is shown of a machine that hides no register, as changes of nothing, and its registers.
#[tactic(auto, using(crate::proofs::Starting::starting))]
pub(crate) fn start_changes(alloc: Global, machine: &Machine) -> Result<(Record, Stacked), NoMemory>
    requires { hidden_count (state_of machine.now).stack ≡ 0 }
    ensures record { IfOk result (λ r. Leads r.0 no_picture (picture (state_of machine.now))) }
    ensures stack { IfOk result (λ r. HoldsStack r.1 (state_of machine.now).stack) }
{
    machines_keep_the_invariant(machine);
    let special = special_values(alloc, machine)?;
    let global = global_values(alloc, machine)?;
    let octas = octa_values(alloc, machine)?;
    let mut registers = Stacked::new(alloc);
    let stacked = find_stacked_changes(alloc, &mut registers, machine, 0, 0, 0)?;
    let record = Record {
        next: machine.pc(),
        special,
        global,
        stacked,
        octas,
    };
    Ok((record, registers))
}
