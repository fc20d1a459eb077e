//! A machine that was started, and runs.

ghost use Rattle.std.specs.Prelude.{◌≡◌, false, map};
ghost use Rattle.mx_core.specs.Kept.{state_of};
ghost use Rattle.mx_top.specs.MachineWork as work;
ghost use Rattle.mx_top.specs.WorkClauses.{DoesWork, HearsWork};

use crate::console::run_session;
use crate::ending::tell_end;
use crate::last::run_back;
use mx_begin::outcome_of;
use mx_core::Machine;
use mx_host::Host;
use mx_outcome::Outcome;
use mx_run::Runner;
use mx_watch::{Reports, Watcher, run_with_watchers};
use mx_words::Order;
use std::alloc::Global;

/// Makes the steps of a machine that was started, in one run.
fn run_steps<H: Host>(alloc: Global, host: &mut H, order: &Order, machine: Machine) -> Outcome
    requires { (state_of machine).touched ≡ false }
    ensures { DoesWork H.told H.faults host.old host.new (state_of machine) result (work.stepped_plan order.now) }
{
    let mut runner = Runner::new(alloc, machine);
    let end = runner.go(host, order.steps, false);
    tell_end(
        alloc,
        host,
        order.dump,
        runner.machine(),
        outcome_of(order.steps, end),
    )
}

/// Makes the steps of a machine that was started, in one run that watchers are told of.
fn run_told<H: Host>(
    alloc: Global,
    host: &mut H,
    order: &Order,
    machine: Machine,
    watchers: &mut Vec<Box<dyn Watcher>>,
    kept: &mut Reports,
) -> Outcome
    requires { (state_of machine).touched ≡ false }
    ensures part { DoesWork H.told H.faults host.old host.new (state_of machine) result
        (work.reported_plan order.now) }
    ensures heard { HearsWork (H.told host.old) (state_of machine) result (map meaning watchers.old.items)
        (map meaning watchers.new.items) kept.old kept.new (work.reported_plan order.now) }
{
    let mut machine = machine;
    let end = run_with_watchers(alloc, &mut machine, host, order.steps, watchers, kept);
    tell_end(
        alloc,
        host,
        order.dump,
        &machine,
        outcome_of(order.steps, end),
    )
}

/// Runs a machine that was started. The last steps of a run are taken back where that is asked for, and else watchers are
/// told of a run whose reports are.
pub fn run_machine<H: Host>(
    alloc: Global,
    host: &mut H,
    order: &Order,
    machine: Machine,
    watchers: &mut Vec<Box<dyn Watcher>>,
    kept: &mut Reports,
) -> Outcome
    requires { (state_of machine).touched ≡ false }
    ensures part { DoesWork H.told H.faults host.old host.new (state_of machine) result
        (work.machine_plan order.now) }
    ensures heard { HearsWork (H.told host.old) (state_of machine) result (map meaning watchers.old.items)
        (map meaning watchers.new.items) kept.old kept.new (work.machine_plan order.now) }
{
    if order.interactive {
        run_session(alloc, host, order, machine)
    } else if order.last != 0 {
        run_back(alloc, host, order, machine)
    } else if order.report {
        run_told(alloc, host, order, machine, watchers, kept)
    } else {
        run_steps(alloc, host, order, machine)
    }
}
