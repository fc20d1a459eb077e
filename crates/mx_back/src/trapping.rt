//! A file trap in a run whose last steps are kept.

ghost use Rattle.std.specs.Prelude.{◌≡◌};
ghost use Rattle.mx_plan.specs.Clauses.{KeepsHost};
ghost use Rattle.mx_core.specs.Kept.{state_of};
ghost use Rattle.mx_core.specs.Step.{calls, step};
ghost use Rattle.mx_run.specs.Clauses.{CarriesOutRun};
ghost use Rattle.mx_run.specs.RunPlans.{turn_plan};
ghost use Rattle.mx_run.specs.Runs.{IsLater};
ghost use Rattle.mx_run.specs.Turns as turns;
ghost use Rattle.mx_back.specs.History.{AreNotesOf, kept_turn, states_before};
ghost use Rattle.mx_back.specs.KeptRuns as spec;

use crate::Back;
use mx_alu::TrapCall;
use mx_core::Machine;
use mx_host::Host;
use mx_run::{TurnAnswer, trap_turn};
use std::alloc::Global;

/// The number of the stop for one page too many.
const PAGES_FULL: u16 = 123;

/// A file trap as a whole. The notes are forgotten, unless its request is refused and so the machine is as it was.
pub(crate) fn trap_kept<H: Host>(
    alloc: Global,
    machine: &mut Machine,
    host: &mut H,
    call: &TrapCall,
    back: &mut Back,
) -> TurnAnswer
    requires called { step (state_of machine.old) ≡ calls call.now }
    requires noted { AreNotesOf back.old (state_of machine.old) }
    ensures told { CarriesOutRun H.told host.old host.new machine.old machine.new TurnAnswer.OutOfMemory result
        turn_plan }
    ensures fits { AreNotesOf back.new (state_of machine.new) }
    ensures kept { states_before back.new (state_of machine.new)
        ≡ kept_turn (spec.trap_kind result) (state_of machine.old) (states_before back.old (state_of machine.old)) }
    ensures bound { IsLater 1 (state_of machine.old) (state_of machine.new) }
    ensures keeps { KeepsHost (H.told host.old) (H.told host.new) (H.faults host.old) (H.faults host.new) }
{
    let answer = trap_turn(alloc, machine, host, call);
    forget_where(back, may_change(&answer));
    answer
}

/// Whether a file trap with this answer may have changed the machine.
fn may_change(answer: &TurnAnswer) -> bool
    ensures { result ≡ turns.may_change answer.now }
{
    match answer {
        TurnAnswer::Stopped(reason) => *reason == PAGES_FULL,
        _ => true,
    }
}

/// Forgets the notes, where the machine may have changed.
fn forget_where(back: &mut Back, changed: bool)
    ensures { back.new ≡ spec.notes_left changed back.old }
{
    if changed {
        back.forget();
    }
}
