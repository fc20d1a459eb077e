//! A session of the console on a machine that was started.

ghost use Rattle.std.specs.Prelude.{◌≡◌, ◌≢◌, false};
ghost use Rattle.mx_core.specs.Kept.{state_of};
ghost use Rattle.mx_top.specs.Runs as spec;
ghost use Rattle.mx_begin.specs.Ends.{IsOfMachine};
ghost use Rattle.mx_top.specs.MachineWork as work;
ghost use Rattle.mx_top.specs.WorkClauses.{DoesWork};

use crate::ending::tell_end;
use mx_con::{SessionEnd, session};
use mx_core::Machine;
use mx_host::Host;
use mx_outcome::Outcome;
use mx_run::Runner;
use mx_words::Order;
use std::alloc::Global;

/// The outcome of a session of at most this many steps, by its end.
fn session_outcome(steps: u64, end: SessionEnd) -> Outcome
    ensures value { result ≡ spec.session_outcome steps end }
    ensures memory { end ≡ SessionEnd.OutOfMemory → result ≡ Outcome.OutOfMemory }
    ensures machine { end ≢ SessionEnd.HostFault → IsOfMachine result }
{
    match end {
        SessionEnd::Halted(status) => Outcome::Done(status),
        SessionEnd::Stopped { pc, reason } => Outcome::Stopped { pc, reason },
        SessionEnd::Spent => Outcome::StepsSpent { steps },
        SessionEnd::Quit => Outcome::Quit,
        SessionEnd::Limit => Outcome::ConsoleLimit,
        SessionEnd::HostFault => Outcome::HostFault,
        SessionEnd::OutOfMemory => Outcome::OutOfMemory,
    }
}

/// Lets the user run a machine that was started, in a session of the console.
pub fn run_session<H: Host>(alloc: Global, host: &mut H, order: &Order, machine: Machine) -> Outcome
    requires { (state_of machine).touched ≡ false }
    ensures { DoesWork H.told H.faults host.old host.new (state_of machine) result
        (work.sitting_plan order.now) }
{
    let mut runner = Runner::new(alloc, machine);
    match session(alloc, &mut runner, host, order.steps) {
        SessionEnd::HostFault => Outcome::HostFault,
        end => tell_end(
            alloc,
            host,
            order.dump,
            runner.machine(),
            session_outcome(order.steps, end),
        ),
    }
}
