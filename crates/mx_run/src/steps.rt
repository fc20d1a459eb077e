//! A step of a run.

ghost use Rattle.std.specs.Prelude.{◌≡◌, ◌/◌, ◌&&◌, not, [], IsTrue, true};
ghost use Rattle.mx_core.specs.Kept.{state_of};
ghost use Rattle.mx_core.specs.Way.Stepping.{HasAdvanced, step_needs_page};
ghost use Rattle.mx_run.specs.Clauses.{TakesStep};
ghost use Rattle.mx_run.specs.FlagMaps.{flags_at};
ghost use Rattle.mx_run.specs.RunPlans.{ended_turn, step_plan};
ghost use Rattle.mx_run.specs.WildRuns.{HasWindow};

use crate::breaks::check_turn_end;
use crate::turning::make_turn;
use crate::windows::know_window;
use crate::{BreakKind, End, FlagMap};
use mx_core::{Advance, Machine};
use mx_host::Host;
use std::alloc::Global;

/// A step of a run, or the end of the run. With `pass` it is made also where the run would break
/// before it.
#[tactic(auto, using(mx_plan::proofs::Plans::plans, crate::proofs::PlanEnds::looks, crate::proofs::Later::advancing), unfolding(crate::specs::RunPlans::step_plan))]
pub fn run_step<H: Host>(
    alloc: Global,
    machine: &mut Machine,
    flags: &FlagMap,
    host: &mut H,
    pass: bool,
) -> Result<(), End>
    ensures step { TakesStep H.told H.faults host.old host.new machine.old machine.new result
        (step_plan (flags_at flags.now) pass) }
    ensures has_window { HasWindow (state_of machine.old) }
{
    know_window(machine);
    let pc = machine.pc();
    if is_break_before(flags, pc, pass) {
        return Err(End::Broke {
            kind: BreakKind::Execute,
            at: pc,
            traced: None,
        });
    }
    turn_and_end(alloc, machine, flags, host)
}

/// Whether a run breaks before the instruction at an address.
#[inline]
fn is_break_before(flags: &FlagMap, pc: u64, pass: bool) -> bool
    ensures { result ≡ ((flags_at flags.now (pc / 4)).x && not pass) }
{
    flags.flags(pc).x && !pass
}

/// A turn, and whether the run ends with it.
#[tactic(auto, using(mx_plan::proofs::Plans::plans, crate::proofs::FreeSteps::sparing), unfolding(crate::specs::RunPlans::ended_turn))]
fn turn_and_end<H: Host>(
    alloc: Global,
    machine: &mut Machine,
    flags: &FlagMap,
    host: &mut H,
) -> Result<(), End>
    ensures { TakesStep H.told H.faults host.old host.new machine.old machine.new result
        (ended_turn (flags_at flags.now) (state_of machine.old).pc) }
{
    let pc = machine.pc();
    let answer = make_turn(alloc, machine, host);
    check_turn_end(flags, pc, answer)
}

/// What a run without flags comes to at a step that does not go on. No trace is made but for a file trap.
#[inline(never)]
#[tactic(auto, using(crate::proofs::FreeSteps::freely, crate::proofs::FreeSteps::sparing, crate::proofs::Later::advancing))]
pub fn step_over<H: Host>(
    alloc: Global,
    machine: &mut Machine,
    flags: &FlagMap,
    host: &mut H,
    last: Advance,
) -> Result<(), End>
    requires free { flags.now ≡ [] }
    requires came { HasAdvanced last machine.old machine.old }
    requires there { last ≡ Advance.OutOfMemory → IsTrue (step_needs_page (state_of machine.old)) }
    ensures step { TakesStep H.told H.faults host.old host.new machine.old machine.new result
        (step_plan (flags_at flags.now) true) }
    ensures has_window { HasWindow (state_of machine.old) }
{
    know_window(machine);
    match last {
        Advance::Went => Ok(()),
        Advance::Trap => run_step(alloc, machine, flags, host, true),
        Advance::Stopped(reason) => Err(End::Stopped {
            pc: machine.pc(),
            reason: reason.number(),
        }),
        Advance::OutOfMemory => Err(End::OutOfMemory),
    }
}
