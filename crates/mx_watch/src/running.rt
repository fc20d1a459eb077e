//! A run of the machine over a host that watchers are told of.

ghost use Rattle.std.specs.Prelude.{◌≡◌, ◌≢◌, [], false, length, map, Err, IsTrue, Ok};
ghost use Rattle.mx_host.specs.Keeping.{Keeps};
ghost use Rattle.mx_core.specs.Kept.{state_of};
ghost use Rattle.mx_run.specs.AccompaniedRuns.{CarriesOutAccompanied};
ghost use Rattle.mx_run.specs.Clauses.{IsRun};
ghost use Rattle.mx_run.specs.RunPlans.{SparesMemory};
ghost use Rattle.mx_run.specs.Runs.{IsLater, no_flags};
ghost use Rattle.mx_run.specs.WildRuns.{HasWindow};
ghost use Rattle.mx_watch.specs.Lacking.{StopsHearing};
ghost use Rattle.mx_watch.specs.Listening.{listening, starting};
ghost use Rattle.mx_watch.specs.WatchedRuns.{HearsAsList, HearsFrom, HearsFromList, HearsRun, StepsTo};

use crate::Watcher;
use crate::telling::{Reports, tell_all};
use crate::watching::first_places;
use mx_core::{Machine, Trace, machines_are_whole, machines_keep_the_invariant};
use mx_host::Host;
use mx_run::{End, TurnAnswer, run_freely, turn};
use std::alloc::Global;

/// Makes at most n steps of a machine over a host, with no flags, and tells watchers the trace of each that goes on, to
/// all of them in order. One that is full is told nothing more: it leaves the list, and its report is kept, with the
/// index that it had in the list at the start.
///
/// The watchers change nothing: end, machine and host are those of the run alone. Out of memory, where a step lacked
/// it, they are as the run leaves them then, and the watchers were told all steps before it; where a watcher or a report
/// lacked it, the steps up to there were made, and the watchers were told them, the last step only the first ones. One
/// whose report lacked memory is left. With no watchers it takes no more memory than the run.
pub fn run_with_watchers<H: Host>(
    alloc: Global,
    machine: &mut Machine,
    host: &mut H,
    n: u64,
    watchers: &mut Vec<Box<dyn Watcher>>,
    kept: &mut Reports,
) -> End
    ensures plan { CarriesOutAccompanied H.told host.old host.new machine.old machine.new n result }
    ensures run { IsRun H.told H.faults host.old host.new machine.old machine.new n no_flags false result }
    ensures spared { watchers.old.items ≡ [] → SparesMemory n (state_of machine.old) → result ≢ End.OutOfMemory }
    ensures stops { StopsHearing (H.told host.old) (H.told host.new) (state_of machine.old) (state_of machine.new) n result
        (starting (map meaning watchers.old.items) kept.old) (map meaning watchers.new.items) kept.new }
    ensures heard { HearsRun (H.told host.old) (state_of machine.old) n result
        (map meaning watchers.old.items) (map meaning watchers.new.items) kept.old kept.new }
    ensures list_heard { HearsAsList (H.told host.old) (state_of machine.old) n result
        (map meaning watchers.old.items) (map meaning watchers.new.items) kept.old kept.new }
{
    if watchers.is_empty() {
        return run_freely(alloc, machine, host, n);
    }
    match first_places(alloc, watchers.len()) {
        Ok(places) => {
            let mut places = places;
            listen(alloc, machine, host, n, watchers, &mut places, kept)
        }
        Err(_) => End::OutOfMemory,
    }
}

/// Makes at most n steps, and tells watchers with these places their traces.
#[tactic(auto, using(mx_run::proofs::Later::running))]
fn listen<H: Host>(
    alloc: Global,
    machine: &mut Machine,
    host: &mut H,
    n: u64,
    watchers: &mut Vec<Box<dyn Watcher>>,
    places: &mut Vec<usize>,
    kept: &mut Reports,
) -> End
    requires { length places.now.items ≡ length watchers.now.items }
    ensures plan { CarriesOutAccompanied H.told host.old host.new machine.old machine.new n result }
    ensures run { IsRun H.told H.faults host.old host.new machine.old machine.new n no_flags false result }
    ensures stops { StopsHearing (H.told host.old) (H.told host.new) (state_of machine.old) (state_of machine.new) n result
        (listening places.old.items (map meaning watchers.old.items) kept.old)
        (map meaning watchers.new.items) kept.new }
    ensures heard { HearsFrom (H.told host.old) (state_of machine.old) n result
        (listening places.old.items (map meaning watchers.old.items) kept.old)
        (map meaning watchers.new.items) kept.new }
    ensures list_heard { HearsFromList (H.told host.old) (state_of machine.old) n result
        (listening places.old.items (map meaning watchers.old.items) kept.old)
        (map meaning watchers.new.items) kept.new }
{
    let mut trace = no_trace();
    let mut end = End::Spent;
    for _made in 0..n {
        if !next_trace(alloc, machine, host, &mut trace, &mut end) {
            return end;
        }
        match tell_all(watchers, places, kept, &trace) {
            Ok(()) => {}
            Err(_) => return End::OutOfMemory,
        }
    }
    End::Spent
}

/// The trace of no step.
fn no_trace() -> Trace {
    Trace {
        pc: 0,
        word: 0,
        dest: None,
        reads: None,
        writes: None,
        next: 0,
    }
}

/// A step of a run without flags. Whether it went on: then `trace` is its trace, and else `end` is the end of the run. Most
/// steps are usual ones.
#[inline(always)]
fn next_trace<H: Host>(
    alloc: Global,
    machine: &mut Machine,
    host: &mut H,
    trace: &mut Trace,
    end: &mut End,
) -> bool
    ensures went { IsTrue result →
        StepsTo (H.told host.old) (H.told host.new) (state_of machine.old) (state_of machine.new) (Ok trace.new) }
    ensures ended { result ≡ false →
        StepsTo (H.told host.old) (H.told host.new) (state_of machine.old) (state_of machine.new) (Err end.new) }
    ensures has_window { HasWindow (state_of machine.old) }
    ensures bound { IsLater 1 (state_of machine.old) (state_of machine.new) }
    ensures keeps { Keeps (H.told host.old) (H.told host.new) (H.faults host.old) (H.faults host.new) }
{
    machines_keep_the_invariant(machine);
    machines_are_whole(machine);
    if machine.step_if_usual(trace) {
        return true;
    }
    match trace_step(alloc, machine, host) {
        Ok(other) => {
            *trace = other;
            true
        }
        Err(why) => {
            *end = why;
            false
        }
    }
}

/// A step of any kind in such a run, or a file trap: its trace, or the end of the run.
#[inline(never)]
#[tactic(auto, using(mx_run::proofs::FreeRuns::turned))]
pub fn trace_step<H: Host>(alloc: Global, machine: &mut Machine, host: &mut H) -> Result<Trace, End>
    ensures told { StepsTo (H.told host.old) (H.told host.new) (state_of machine.old) (state_of machine.new) result }
    ensures has_window { HasWindow (state_of machine.old) }
    ensures bound { IsLater 1 (state_of machine.old) (state_of machine.new) }
    ensures keeps { Keeps (H.told host.old) (H.told host.new) (H.faults host.old) (H.faults host.new) }
{
    let pc = machine.pc();
    match turn(alloc, machine, host) {
        TurnAnswer::Went(trace) => Ok(trace),
        TurnAnswer::Halted(status) => Err(End::Halted(status)),
        TurnAnswer::Stopped(reason) => Err(End::Stopped { pc, reason }),
        TurnAnswer::OutOfMemory => Err(End::OutOfMemory),
    }
}
