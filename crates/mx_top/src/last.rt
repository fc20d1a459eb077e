//! The last steps of a run, taken back.

ghost use Rattle.std.specs.Prelude.{◌≡◌, ◌≤◌, ◌∷◌, [], false, IfOk, length, min, take};
ghost use Rattle.mx_back.specs.History.{AreNotesOf, states_before};
ghost use Rattle.mx_core.specs.Kept.{state_of};
ghost use Rattle.mx_files.specs.Clauses.{DoesPart};
ghost use Rattle.mx_files.specs.FilePlans.{lines_plan};
ghost use Rattle.mx_begin.specs.Ends.{IsOfMachine};
ghost use Rattle.mx_top.specs.Endings as plans;
ghost use Rattle.mx_top.specs.MachineWork as work;
ghost use Rattle.mx_top.specs.Runs as spec;
ghost use Rattle.mx_top.specs.WorkClauses.{DoesNext, DoesWork};

use crate::ending::tell_end;
use mx_back::{Back, BackFault, run_kept};
use mx_begin::outcome_of;
use mx_core::Machine;
use mx_files::write_line;
use mx_host::Host;
use mx_outcome::Outcome;
use mx_show::state_line;
use mx_words::Order;
use std::alloc::Global;

/// Whether steps are taken back: where the machine stopped, or all its steps were made.
fn is_taken_back(outcome: Outcome) -> bool
    ensures { result ≡ spec.takes_back outcome }
{
    match outcome {
        Outcome::Stopped { .. } => true,
        Outcome::StepsSpent { .. } => true,
        _ => false,
    }
}

/// How many steps are taken back, where this many are wanted and this many are kept.
fn least(wanted: u64, kept: usize) -> usize
    ensures { result ≡ min wanted kept }
{
    if wanted < kept as u64 {
        return wanted as usize;
    }
    kept
}

/// Takes a step back, of which one is kept.
fn step_back(machine: &mut Machine, back: &mut Back)
    requires not_empty { 1 ≤ length back.old }
    requires noted { AreNotesOf back.old (state_of machine.old) }
    ensures first { states_before back.old (state_of machine.old)
        ≡ state_of machine.new ∷ states_before back.new (state_of machine.new) }
    ensures fits { AreNotesOf back.new (state_of machine.new) }
{
    match back.back(machine) {
        Ok(()) => {}
        Err(BackFault::NothingKept) => {}
    }
}

/// Writes the line of a machine's state.
fn put_state<H: Host>(alloc: Global, host: &mut H, machine: &Machine) -> Result<(), Outcome>
    ensures { DoesPart H.told H.faults host.old host.new result
        (lines_plan (spec.state_lines (state_of machine.now ∷ []))) }
{
    match state_line(alloc, machine) {
        Ok(line) => write_line(host, line.as_slice()),
        Err(_) => Err(Outcome::OutOfMemory),
    }
}

/// Takes this many steps back, where as many are kept, and writes the line of each state that comes back.
fn put_states<H: Host>(
    alloc: Global,
    host: &mut H,
    machine: &mut Machine,
    back: &mut Back,
    count: usize,
) -> Result<(), Outcome>
    requires few { count ≤ length back.old }
    requires noted { AreNotesOf back.old (state_of machine.old) }
    ensures written { DoesPart H.told H.faults host.old host.new result
        (lines_plan (spec.state_lines (take count (states_before back.old (state_of machine.old))))) }
    ensures reached { IfOk result (λ done. state_of machine.new
        ≡ spec.reached (state_of machine.old) (take count (states_before back.old (state_of machine.old)))) }
{
    for _taken in 0..count {
        step_back(machine, back);
        match put_state(alloc, host, machine) {
            Ok(()) => {}
            Err(outcome) => return Err(outcome),
        }
    }
    Ok(())
}

/// What follows a run whose last steps are kept: at most this many of them are taken back, and then the dump, where it is
/// asked for.
fn tell_back<H: Host>(
    alloc: Global,
    host: &mut H,
    order: &Order,
    machine: &mut Machine,
    back: &mut Back,
    outcome: Outcome,
) -> Outcome
    requires noted { AreNotesOf back.old (state_of machine.old) }
    requires machine { IsOfMachine outcome }
    ensures { DoesNext H.told H.faults host.old host.new outcome result
        (plans.back_plan order.now.dump outcome (take order.now.last (states_before back.old (state_of machine.old)))
        (state_of machine.old)) }
{
    if !is_taken_back(outcome) {
        return tell_end(alloc, host, order.dump, machine, outcome);
    }
    let count = least(order.last, back.kept());
    match put_states(alloc, host, machine, back, count) {
        Ok(()) => tell_end(alloc, host, order.dump, machine, outcome),
        Err(other) => other,
    }
}

/// Makes the steps of a machine that was started, in one run whose last steps are kept, and takes some of them back.
pub fn run_back<H: Host>(alloc: Global, host: &mut H, order: &Order, machine: Machine) -> Outcome
    requires { (state_of machine).touched ≡ false }
    ensures { DoesWork H.told H.faults host.old host.new (state_of machine) result (work.kept_plan order.now) }
{
    let mut machine = machine;
    let mut back = match Back::new(alloc) {
        Ok(back) => back,
        Err(_) => return Outcome::OutOfMemory,
    };
    let end = run_kept(alloc, &mut machine, host, order.steps, &mut back);
    tell_back(
        alloc,
        host,
        order,
        &mut machine,
        &mut back,
        outcome_of(order.steps, end),
    )
}
