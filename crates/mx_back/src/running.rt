//! A run of the machine over a host whose last steps are kept.

ghost use Rattle.std.specs.Prelude.{◌≡◌, false, IsTrue};
ghost use Rattle.mx_core.specs.Kept.{state_of};
ghost use Rattle.mx_run.specs.AccompaniedRuns.{CarriesOutAccompanied};
ghost use Rattle.mx_run.specs.Clauses.{IsRun};
ghost use Rattle.mx_run.specs.Runs.{no_flags};
ghost use Rattle.mx_back.specs.History.{AreNotesOf};
ghost use Rattle.mx_back.specs.KeptLists.{KeepsAsList};
ghost use Rattle.mx_back.specs.KeptRuns as spec;
ghost use Rattle.mx_back.specs.KeptRuns.{KeepsFront, KeepsRun, TakesKeptStep, TakesUsualStep};

use crate::Back;
use crate::trapping::trap_kept;
use mx_core::{Machine, Step, machines_are_whole, machines_keep_the_invariant};
use mx_host::Host;
use mx_run::{End, TurnAnswer};
use std::alloc::Global;

/// Makes at most n steps of a machine over a host, with no flags, and keeps the states before the last ones of them. A
/// file trap that completed, that halted, that lacked memory or that met one page too many forgets them. From a machine
/// that nobody touched it goes as over an unbounded list of registers, up to the first turn that looks at rS or at the
/// memory of the register stack.
///
/// The notes change nothing: end, machine and host are those of the run alone. Out of memory, where a turn lacked it,
/// they are as the run leaves them then; where a note lacked it, the steps up to there were made. What is kept is what
/// the turns that were made keep, or nothing where a file trap lacked memory.
#[tactic(auto, using(mx_run::proofs::Later::running))]
pub fn run_kept<H: Host>(
    alloc: Global,
    machine: &mut Machine,
    host: &mut H,
    n: u64,
    back: &mut Back,
) -> End
    requires { AreNotesOf back.old (state_of machine.old) }
    ensures plan { CarriesOutAccompanied H.told host.old host.new machine.old machine.new n result }
    ensures run { IsRun H.told H.faults host.old host.new machine.old machine.new n no_flags false result }
    ensures fits { AreNotesOf back.new (state_of machine.new) }
    ensures kept { KeepsRun (H.told host.old) (state_of machine.old) (state_of machine.new) n result back.old back.new }
    ensures front { KeepsFront (H.told host.old) (H.told host.new) (state_of machine.old) (state_of machine.new) n result
        back.old back.new }
    ensures kept_listed { KeepsAsList (H.told host.old) (state_of machine.old) (state_of machine.new) n result back.old
        back.new }
{
    for _made in 0..n {
        if keep_if_usual(machine, back) {
            continue;
        }
        match keep_any_step(alloc, machine, host, back) {
            Ok(()) => {}
            Err(end) => return end,
        }
    }
    End::Spent
}

/// A usual step of such a run. Whether it was made: then the state before it is kept, and else nothing changed. Most steps
/// are usual ones.
#[inline(always)]
fn keep_if_usual(machine: &mut Machine, back: &mut Back) -> bool
    requires { AreNotesOf back.old (state_of machine.old) }
    ensures made { IsTrue result
        → TakesUsualStep (state_of machine.old) (state_of machine.new) back.old back.new }
    ensures unmade { result ≡ false → state_of machine.new ≡ state_of machine.old }
    ensures same { result ≡ false → back.new ≡ back.old }
    ensures fits { AreNotesOf back.new (state_of machine.new) }
{
    machines_keep_the_invariant(machine);
    machines_are_whole(machine);
    back.step_if_usual(machine)
}

/// A step of any kind in such a run, or a file trap, or its end.
#[inline(never)]
#[tactic(auto, using(mx_run::proofs::Areas::windows))]
fn keep_any_step<H: Host>(
    alloc: Global,
    machine: &mut Machine,
    host: &mut H,
    back: &mut Back,
) -> Result<(), End>
    requires { AreNotesOf back.old (state_of machine.old) }
    ensures { TakesKeptStep H.told H.faults host.old host.new machine.old machine.new back.old back.new result }
{
    machines_keep_the_invariant(machine);
    machines_are_whole(machine);
    let pc = machine.pc();
    match back.step(machine) {
        Step::Went(_) => Ok(()),
        Step::Trap(call) => check_turn_end(pc, trap_kept(alloc, machine, host, &call, back)),
        Step::Stopped(reason) => Err(End::Stopped {
            pc,
            reason: reason.number(),
        }),
        Step::OutOfMemory => Err(End::OutOfMemory),
    }
}

/// Whether the run goes on after a turn from an address, or its end.
fn check_turn_end(pc: u64, answer: TurnAnswer) -> Result<(), End>
    ensures { result ≡ spec.ended_at pc answer }
{
    match answer {
        TurnAnswer::Went(_) => Ok(()),
        TurnAnswer::Halted(status) => Err(End::Halted(status)),
        TurnAnswer::Stopped(reason) => Err(End::Stopped { pc, reason }),
        TurnAnswer::OutOfMemory => Err(End::OutOfMemory),
    }
}
