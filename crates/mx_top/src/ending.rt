//! What follows a run: the dump, where it is asked for.

ghost use Rattle.std.specs.Prelude.{◌≡◌, ◌&&◌};
ghost use Rattle.mx_core.specs.Kept.{state_of};
ghost use Rattle.mx_outcome.specs.Kinds.{leaves_machine};
ghost use Rattle.mx_begin.specs.Ends.{IsOfMachine};
ghost use Rattle.mx_top.specs.Endings as plans;
ghost use Rattle.mx_top.specs.WorkClauses.{DoesNext};

use mx_core::Machine;
use mx_dump::dump;
use mx_host::Host;
use mx_outcome::Outcome;
use std::alloc::Global;

/// Whether a dump is written: where it is wanted, and a machine is left with something to show.
fn is_dumped(wanted: bool, outcome: Outcome) -> bool
    ensures { result ≡ (wanted && leaves_machine outcome) }
{
    wanted && outcome.has_machine()
}

/// What follows a run: the dump, where it is asked for and the machine is left with something to show.
pub fn tell_end<H: Host>(
    alloc: Global,
    host: &mut H,
    wanted: bool,
    machine: &Machine,
    outcome: Outcome,
) -> Outcome
    requires { IsOfMachine outcome }
    ensures { DoesNext H.told H.faults host.old host.new outcome result
        (plans.dumped_plan wanted outcome (state_of machine.now)) }
{
    if !is_dumped(wanted, outcome) {
        return outcome;
    }
    match dump(alloc, host, machine) {
        Ok(()) => outcome,
        Err(other) => other,
    }
}
