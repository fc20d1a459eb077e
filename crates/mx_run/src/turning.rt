//! A turn: a step of the machine over a host, with a file trap as a whole.

ghost use Rattle.std.specs.Prelude.{◌≡◌, ◌≢◌, ℕ, suc, false};
ghost use Rattle.mx_host.specs.HostModel.{HostModel};
ghost use Rattle.mx_plan.specs.Clauses.{CarriesOutOnSpace, KeepsHost};
ghost use Rattle.mx_core.specs.Kept.{state_of};
ghost use Rattle.mx_core.specs.MachineSpace.{machine_contents, IsWholeSpace};
ghost use Rattle.mx_core.specs.Step.{calls, step};
ghost use Rattle.mx_core.specs.Traps as traps;
ghost use Rattle.mx_trap.specs.FileTraps.{trap_plan};
ghost use Rattle.mx_run.specs.Clauses.{CarriesOutRun, IsTurn};
ghost use Rattle.mx_run.specs.RunPlans.{turn_plan, SparesAfter, SparesMemory};
ghost use Rattle.mx_run.specs.Runs.{IsLater};
ghost use Rattle.mx_run.specs.Turns.{turn_answer};
ghost use Rattle.mx_run.specs.Turns as spec;
ghost use Rattle.mx_run.specs.WildRuns.{HasWindow};

use crate::TurnAnswer;
use crate::windows::know_window;
use mx_alu::TrapCall;
use mx_core::{Machine, Step, Trace, machines_are_whole};
use mx_host::Host;
use mx_trap::{TrapAnswer, TrapStop, touches, trap};
use std::alloc::Global;

/// Makes one turn of a machine over a host: a step, or a file trap as a whole.
///
/// Out of memory, a step left the machine as it was. A file trap left the bytes that it moved and the
/// calls that it made; what was written to standard output is a front of what the turn writes.
#[inline]
pub fn turn<H: Host>(alloc: Global, machine: &mut Machine, host: &mut H) -> TurnAnswer
    ensures turn { IsTurn H.told H.faults host.old host.new machine.old machine.new result }
    ensures has_window { HasWindow (state_of machine.old) }
    ensures spared { (n : ℕ) → SparesMemory (suc n) (state_of machine.old) → SparesAfter n result (state_of machine.new) }
{
    make_turn(alloc, machine, host)
}

/// A turn of the machine over a host.
#[tactic(auto, using(crate::proofs::TurnAnswers::turns, crate::proofs::TurnAnswers::sparing, crate::proofs::Later::stepping))]
pub(crate) fn make_turn<H: Host>(alloc: Global, machine: &mut Machine, host: &mut H) -> TurnAnswer
    ensures told { CarriesOutRun H.told host.old host.new machine.old machine.new TurnAnswer.OutOfMemory result
        turn_plan }
    ensures has_window { HasWindow (state_of machine.old) }
    ensures spared { (n : ℕ) → SparesMemory (suc n) (state_of machine.old) → SparesAfter n result (state_of machine.new) }
    ensures bound { IsLater 1 (state_of machine.old) (state_of machine.new) }
    ensures keeps { KeepsHost (H.told host.old) (H.told host.new) (H.faults host.old) (H.faults host.new) }
{
    know_window(machine);
    match machine.step() {
        Step::Went(trace) => TurnAnswer::Went(trace),
        Step::Trap(call) => trap_turn(alloc, machine, host, &call),
        Step::Stopped(reason) => TurnAnswer::Stopped(reason.number()),
        Step::OutOfMemory => TurnAnswer::OutOfMemory,
    }
}

/// Makes a file trap that a step of a machine calls, as a whole: the turn of that step.
///
/// Where it stops, other than for one page too many, it left the machine as it was. Out of memory, it left the bytes that
/// it moved and the calls that it made; what was written to standard output is a front of what the turn writes.
#[tactic(auto, using(crate::proofs::Later::counting))]
pub fn trap_turn<H: Host>(
    alloc: Global,
    machine: &mut Machine,
    host: &mut H,
    call: &TrapCall,
) -> TurnAnswer
    requires { step (state_of machine.old) ≡ calls call.now }
    ensures told { CarriesOutRun H.told host.old host.new machine.old machine.new TurnAnswer.OutOfMemory result
        turn_plan }
    ensures same { spec.may_change result ≡ false → state_of machine.new ≡ state_of machine.old }
    ensures bound { IsLater 1 (state_of machine.old) (state_of machine.new) }
    ensures keeps { KeepsHost (H.told host.old) (H.told host.new) (H.faults host.old) (H.faults host.new) }
{
    let looks = touches(machine, call);
    let answer = do_trap(alloc, machine, host, call);
    finish_with_answer(machine, call, looks, answer)
}

/// Carries out a file trap on the machine's memory.
#[tactic(auto, using(crate::proofs::Later::resting))]
fn do_trap<H: Host>(
    alloc: Global,
    machine: &mut Machine,
    host: &mut H,
    call: &TrapCall,
) -> TrapAnswer
    ensures told { CarriesOutOnSpace (H.told host.old) (H.told host.new) (machine_contents (state_of machine.old))
        (machine_contents (state_of machine.new)) TrapAnswer.OutOfMemory result (trap_plan call.now) }
    ensures whole { IsWholeSpace (state_of machine.new) }
    ensures same { spec.moves_bytes result ≡ false → state_of machine.new ≡ state_of machine.old }
    ensures steps { (state_of machine.new).steps ≡ (state_of machine.old).steps }
    ensures keeps { KeepsHost (H.told host.old) (H.told host.new) (H.faults host.old) (H.faults host.new) }
{
    machines_are_whole(machine);
    let answer = trap(alloc, machine, host, call);
    machines_are_whole(machine);
    answer
}

/// Completes a file trap with its answer.
#[tactic(auto, using(crate::proofs::Later::finishing, crate::proofs::RefusedTraps::stops))]
fn finish_with_answer(
    machine: &mut Machine,
    call: &TrapCall,
    looks: bool,
    answer: TrapAnswer,
) -> TurnAnswer
    ensures told { answer ≢ TrapAnswer.OutOfMemory → (m : HostModel) → (result, state_of machine.new, m)
        ≡ turn_answer (spec.turn_with looks call.now (state_of machine.old) m answer) }
    ensures same { spec.moves_bytes answer ≡ false → state_of machine.new ≡ state_of machine.old }
    ensures changes { spec.may_change result ≡ spec.moves_bytes answer }
    ensures memory { result ≡ TurnAnswer.OutOfMemory → answer ≡ TrapAnswer.OutOfMemory }
    ensures bound { IsLater 1 (state_of machine.old) (state_of machine.new) }
    ensures unmade { answer ≡ TrapAnswer.OutOfMemory → result ≡ TurnAnswer.OutOfMemory }
    ensures touch { answer ≡ TrapAnswer.OutOfMemory
        → state_of machine.new ≡ spec.with_touch_if looks (state_of machine.old) }
{
    match answer {
        TrapAnswer::Value(value) => TurnAnswer::Went(finish_with_value(
            machine, call, looks, value,
        )),
        TrapAnswer::Halt => TurnAnswer::Halted(halt(machine, call, looks)),
        TrapAnswer::Stopped(why) => {
            note_where(machine, looks && why == TrapStop::TrapPagesFull);
            TurnAnswer::Stopped(why.number())
        }
        TrapAnswer::OutOfMemory => {
            note_where(machine, looks);
            TurnAnswer::OutOfMemory
        }
    }
}

/// Completes a file trap with its result.
fn finish_with_value(machine: &mut Machine, call: &TrapCall, looks: bool, value: u64) -> Trace
    ensures state { state_of machine.new
        ≡ spec.with_touch_if looks (traps.trapped (state_of machine.old) call.now value) }
    ensures trace { result ≡ traps.trap_trace (state_of machine.old) call.now value }
{
    let trace = machine.finish_trap(call, value);
    note_where(machine, looks);
    trace
}

/// Counts the step of a Halt, and gives the status.
fn halt(machine: &mut Machine, call: &TrapCall, looks: bool) -> u8
    ensures state { state_of machine.new ≡ spec.with_touch_if looks (traps.halted (state_of machine.old)) }
    ensures status { result ≡ spec.status_of (state_of machine.old) }
{
    let status = (machine.register(255) % 256) as u8;
    machine.finish_halt(call);
    note_where(machine, looks);
    status
}

/// Notes a touch, where there is one.
#[tactic(auto, using(crate::proofs::TurnAnswers::touching))]
fn note_where(machine: &mut Machine, looks: bool)
    ensures { state_of machine.new ≡ spec.with_touch_if looks (state_of machine.old) }
{
    if looks {
        machine.note_touch();
    }
}
