//! A turn of a machine by itself, without a trace.

ghost use Rattle.std.specs.Prelude.{◌≡◌};
ghost use Rattle.mx_core.specs.Kept.{state_of};
ghost use Rattle.mx_multi.specs.Clauses.{TurnsAlone};
ghost use Rattle.mx_multi.specs.JointTurns as spec;

use crate::Turn;
use mx_core::{Advance, Machine, machines_are_whole, machines_keep_the_invariant};
use mx_host::Host;
use mx_run::{TurnAnswer, turn};
use std::alloc::Global;

/// A turn of a machine on all of its memory: a step without its trace, or a file trap as a whole.
#[tactic(auto, using(mx_run::proofs::Areas::windows, crate::proofs::Untraced::making))]
pub(crate) fn turn_alone<H: Host>(alloc: Global, machine: &mut Machine, host: &mut H) -> Turn
    ensures { TurnsAlone H.told H.faults host.old host.new (state_of machine.old) (state_of machine.new) result }
{
    machines_keep_the_invariant(machine);
    machines_are_whole(machine);
    let pc = machine.pc();
    match machine.advance() {
        Advance::Went => Turn::Went,
        Advance::Trap => turn_without_trace(pc, turn(alloc, machine, host)),
        Advance::Stopped(reason) => Turn::Stopped {
            pc,
            reason: reason.number(),
        },
        Advance::OutOfMemory => Turn::OutOfMemory,
    }
}

/// What a turn from an address tells without its trace.
fn turn_without_trace(pc: u64, step: TurnAnswer) -> Turn
    ensures { result ≡ spec.told_at pc step }
{
    match step {
        TurnAnswer::Went(_) => Turn::Went,
        TurnAnswer::Halted(status) => Turn::Halted(status),
        TurnAnswer::Stopped(reason) => Turn::Stopped { pc, reason },
        TurnAnswer::OutOfMemory => Turn::OutOfMemory,
    }
}
