//! What changed of special and of global registers.

ghost use Rattle.std.specs.Prelude.{◌≡◌, ◌<◌, IfOk};
ghost use Rattle.mx_core.specs.Kept.{state_of};
ghost use Rattle.mx_record.specs.Following.{TellsAll};
ghost use Rattle.mx_record.specs.Pictures as spec;
ghost use Rattle.mx_record.specs.Pictures.{special_shown};

use crate::changes::{Change, note};
use mx_core::{Machine, machines_keep_the_invariant};
use mx_ops::codes::RC;
use mx_word::{NoMemory, Sequence};
use std::alloc::Global;

/// What is shown of the special register with a code.
pub(crate) fn show_special(machine: &Machine, code: u8) -> u64
    requires { code < 32 }
    ensures { result ≡ special_shown (state_of machine.now) code }
{
    if code == RC { 0 } else { machine.special(code) }
}

/// What is shown of the global register with a number.
pub(crate) fn show_global(machine: &Machine, k: u8) -> u64
    ensures { result ≡ spec.global_shown (state_of machine.now) k }
{
    if k < machine.g() {
        0
    } else {
        machine.register(k)
    }
}

/// What changed of the special registers between two machines.
#[tactic(auto, using(crate::proofs::Telling::telling))]
pub(crate) fn special_changes(
    alloc: Global,
    old: &Machine,
    new: &Machine,
) -> Result<Sequence<Change>, NoMemory>
    ensures { IfOk result (λ changes.
        TellsAll changes (special_shown (state_of old.now)) (special_shown (state_of new.now))) }
{
    machines_keep_the_invariant(old);
    machines_keep_the_invariant(new);
    let mut changes = Sequence::new(alloc);
    for code in 0..32u8 {
        note(
            &mut changes,
            u64::from(code),
            show_special(old, code),
            show_special(new, code),
        )?;
    }
    Ok(changes)
}

/// What changed of the global registers between two machines.
#[tactic(auto, using(crate::proofs::Telling::telling))]
pub(crate) fn global_changes(
    alloc: Global,
    old: &Machine,
    new: &Machine,
) -> Result<Sequence<Change>, NoMemory>
    ensures { IfOk result (λ changes.
        TellsAll changes (spec.global_shown (state_of old.now)) (spec.global_shown (state_of new.now))) }
{
    machines_keep_the_invariant(old);
    machines_keep_the_invariant(new);
    let mut changes = Sequence::new(alloc);
    let first = u16::from(old.g().min(new.g()));
    for k in first..256 {
        note(
            &mut changes,
            u64::from(k),
            show_global(old, k as u8),
            show_global(new, k as u8),
        )?;
    }
    Ok(changes)
}
