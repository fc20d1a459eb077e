//! Single turns, and whether they have a mark.

ghost use Rattle.std.specs.Prelude.{◌≡◌, ◌+◌, ◌<◌, ◌^◌, ◌||◌, IfOk, OnOk};
ghost use Rattle.mx_core.specs.Kept.{state_of};
ghost use Rattle.mx_run.specs.WildRuns.{state_after};
ghost use Rattle.mx_replay.specs.Marks as marks;
ghost use Rattle.mx_replay.specs.Visits as spec;
ghost use Rattle.mx_replay.specs.Programs.{IsReached};
ghost use Rattle.mx_replay.specs.Visits.{IsStep, MakesTurn, turn_from};
ghost use Rattle.mx_replay.specs.declared.program.Program.{Program};

use crate::marks::{Sought, is_shallow_if};
use crate::visit::{Visit, is_over};
use mx_code::Trace;
use mx_run::{End, TurnAnswer, turn};
use mx_stops::{Break, Place, Watch, depth, is_at_any_break, see};
use mx_word::NoMemory;
use std::alloc::Global;

/// The end that a turn from an address comes to, and its trace where the machine went on; nothing out of memory.
fn turn_end(pc: u64, answer: TurnAnswer) -> Option<(End, Option<Trace>)>
    ensures { result ≡ spec.turn_end pc answer }
{
    match answer {
        TurnAnswer::Went(trace) => Some((End::Spent, Some(trace))),
        TurnAnswer::Halted(status) => Some((End::Halted(status), None)),
        TurnAnswer::Stopped(reason) => Some((End::Stopped { pc, reason }, None)),
        TurnAnswer::OutOfMemory => None,
    }
}

/// Makes a turn, and gives its trace where the machine went on. Out of memory the visit is at no step of the run.
pub(crate) fn make_turn(alloc: Global, visit: &mut Visit) -> Result<Option<Trace>, NoMemory>
    requires { visit.old.at + 1 < 2 ^ 64 }
    ensures turn { OnOk result (MakesTurn visit.old visit.new) }
    ensures trace { IfOk result (λ trace. trace ≡ spec.trace_of (turn_from visit.old)) }
{
    let pc = visit.machine.pc();
    let answer = turn(alloc, &mut visit.machine, &mut visit.host);
    match turn_end(pc, answer) {
        Some((end, trace)) => {
            visit.at += 1;
            visit.end = end;
            Ok(trace)
        }
        None => Err(NoMemory),
    }
}

/// Makes the turn after a step, where there is one, and gives its trace. Out of memory, and where no number is left for the
/// next step, the visit may be at no step of the run.
#[tactic(auto, using(crate::proofs::Found::stepping))]
pub(crate) fn make_next(alloc: Global, visit: &mut Visit) -> Result<Option<Trace>, NoMemory>
    ensures step { OnOk result ((p : Program) → IsStep p visit.old →
        IsStep p visit.new × IsReached p (visit.old.at + 1) visit.new.at) }
    ensures trace { IfOk result (λ trace. trace ≡ spec.trace_after (spec.came_to visit.old)) }
{
    if is_over(visit.end) {
        return Ok(None);
    }
    if visit.at == u64::MAX {
        return Err(NoMemory);
    }
    make_turn(alloc, visit)
}

/// Makes a turn, and says whether it changes the value at a place.
#[tactic(auto, using(crate::proofs::Turning::marking))]
fn turn_changes(alloc: Global, visit: &mut Visit, place: Place) -> Result<bool, NoMemory>
    requires { visit.old.at + 1 < 2 ^ 64 }
    ensures turn { OnOk result (MakesTurn visit.old visit.new) }
    ensures mark { IfOk result (λ marked. marked
        ≡ marks.changes_value place (state_of visit.old.machine) (turn_from visit.old)) }
{
    let before = see(&visit.machine, place);
    make_turn(alloc, visit)?;
    let after = see(&visit.machine, place);
    Ok(before.is_change(&after, place))
}

/// Makes a turn, and says whether at most this many registers are hidden then.
#[tactic(auto, using(crate::proofs::Turning::marking))]
fn turn_to_depth(alloc: Global, visit: &mut Visit, most: u64) -> Result<bool, NoMemory>
    requires { visit.old.at + 1 < 2 ^ 64 }
    ensures turn { OnOk result (MakesTurn visit.old visit.new) }
    ensures mark { IfOk result (λ marked. marked ≡ marks.is_at_most most (state_after (turn_from visit.old))) }
{
    make_turn(alloc, visit)?;
    Ok(depth(&visit.machine) <= most)
}

/// Makes a turn, and says whether it comes to a break.
#[tactic(auto, using(crate::proofs::Turning::marking))]
fn turn_to_break(alloc: Global, visit: &mut Visit, breaks: &[Break]) -> Result<bool, NoMemory>
    requires { visit.old.at + 1 < 2 ^ 64 }
    ensures turn { OnOk result (MakesTurn visit.old visit.new) }
    ensures mark { IfOk result (λ marked. marked ≡ marks.meets_break breaks.now (turn_from visit.old)) }
{
    match make_turn(alloc, visit) {
        Ok(Some(_)) => Ok(is_at_any_break(&visit.machine, breaks)),
        Ok(None) => Ok(false),
        Err(NoMemory) => Err(NoMemory),
    }
}

/// Makes a turn, and says whether it comes to a break, or leads to where at most this many registers are hidden, if that is asked.
#[tactic(auto, using(crate::proofs::Turning::marking))]
fn turn_to_break_or_depth(
    alloc: Global,
    visit: &mut Visit,
    breaks: &[Break],
    most: Option<u64>,
) -> Result<bool, NoMemory>
    requires { visit.old.at + 1 < 2 ^ 64 }
    ensures turn { OnOk result (MakesTurn visit.old visit.new) }
    ensures mark { IfOk result (λ marked. marked
        ≡ (marks.meets_break breaks.now (turn_from visit.old)
        || marks.is_at_most_if most (state_after (turn_from visit.old)))) }
{
    let is_met = turn_to_break(alloc, visit, breaks)?;
    Ok(is_met || is_shallow_if(&visit.machine, most))
}

/// Makes a turn, and says whether it changes a value that is watched, comes to a break, or leads to where at most this many
/// registers are hidden, if that is asked.
#[tactic(auto, using(crate::proofs::Turning::marking))]
fn turn_to_stop(
    alloc: Global,
    visit: &mut Visit,
    breaks: &[Break],
    watches: &[Watch],
    most: Option<u64>,
) -> Result<bool, NoMemory>
    requires { visit.old.at + 1 < 2 ^ 64 }
    ensures turn { OnOk result (MakesTurn visit.old visit.new) }
    ensures mark { IfOk result (λ marked. marked
        ≡ (marks.stops_at breaks.now watches.now most).turn (state_of visit.old.machine) (turn_from visit.old)) }
{
    let [watch, more @ ..] = watches else {
        return turn_to_break_or_depth(alloc, visit, breaks, most);
    };
    let before = see(&visit.machine, watch.place);
    let is_stop = turn_to_stop(alloc, visit, breaks, more, most)?;
    let after = see(&visit.machine, watch.place);
    Ok(before.is_change(&after, watch.place) || is_stop)
}

/// Makes a turn, and says whether it has a mark. Out of memory the visit is at no step of the run.
pub(crate) fn turn_marked(
    alloc: Global,
    visit: &mut Visit,
    sought: Sought<'_>,
) -> Result<bool, NoMemory>
    requires { visit.old.at + 1 < 2 ^ 64 }
    ensures turn { OnOk result (MakesTurn visit.old visit.new) }
    ensures mark { IfOk result (λ marked. marked
        ≡ (marks.mark_of sought.entry).turn (state_of visit.old.machine) (turn_from visit.old)) }
{
    match sought {
        Sought::Change(place) => turn_changes(alloc, visit, place),
        Sought::Shallow(most) => turn_to_depth(alloc, visit, most),
        Sought::Stops(breaks, watches, most) => turn_to_stop(alloc, visit, breaks, watches, most),
    }
}
