//! A machine and its host at a step of a run.

ghost use Rattle.std.specs.Prelude.{◌≡◌, ◌≢◌, ◌+◌, ◌<◌, ◌≤◌, Err, IfOk, IfErr, OnOk, false};
ghost use Rattle.mx_core.specs.Kept.{state_of};
ghost use Rattle.mx_run.specs.Runs.{ended};
ghost use Rattle.mx_replay.specs.Programs as spec;
ghost use Rattle.mx_replay.specs.Programs.{IsReached, NamesFile, step_of};
ghost use Rattle.mx_replay.specs.Searches as searches;
ghost use Rattle.mx_replay.specs.Visits.{ComesTo, IsStart, IsStep, turns_told};
ghost use Rattle.mx_replay.specs.declared.program.Program.{Program};

use crate::program::{Program, host_of};
use mx_begin::begin;
use mx_core::Machine;
use mx_host::MemHost;
use mx_outcome::Outcome;
use mx_run::{End, run_freely};
use mx_word::NoMemory;
use std::alloc::Global;

/// A machine and its host, how many turns were made, and the end that the last one came to.
#[derive(Drop)]
pub(crate) struct Visit {
    pub(crate) at: u64,
    pub(crate) end: End,
    pub(crate) machine: Machine,
    pub(crate) host: MemHost,
}

impl Visit {
    /// The same step once more. `NoMemory` where there is no memory for it.
    pub(crate) fn copy(&self) -> Result<Visit, NoMemory>
        ensures { IfOk result (λ v. v ≡ self.now) }
    {
        Ok(Visit {
            at: self.at,
            end: self.end,
            machine: self.machine.copy()?,
            host: self.host.copy()?,
        })
    }
}

/// Whether a run with this end has no further turn.
pub(crate) fn is_over(end: End) -> bool
    ensures { result ≡ spec.is_over end }
{
    match end {
        End::Spent => false,
        End::Halted(_)
        | End::Stopped { .. }
        | End::Broke { .. }
        | End::Traced(_)
        | End::OutOfMemory => true,
    }
}

/// How many turns were made, by the counts of steps before and after them. A turn that stops the machine is not counted
/// there.
fn turns_between(before: u64, after: u64, end: End) -> u64
    ensures { result ≡ turns_told before after end }
{
    let counted = after.wrapping_sub(before);
    match end {
        End::Stopped { .. } => counted.wrapping_add(1),
        End::Spent | End::Halted(_) | End::Broke { .. } | End::Traced(_) | End::OutOfMemory =>
            counted,
    }
}

/// The start of a program's run.
///
/// Errors: the outcome where no machine starts, and out of memory.
pub(crate) fn start_visit(alloc: Global, program: &Program) -> Result<Visit, Outcome>
    requires { NamesFile program.now }
    ensures start { IfOk result (λ v. IsStart program.now v) }
    ensures refused { IfErr result (λ outcome. outcome ≢ Outcome.OutOfMemory → step_of program.now 0 ≡ Err outcome) }
{
    let mut host = match host_of(alloc, program) {
        Ok(host) => host,
        Err(_) => return Err(Outcome::OutOfMemory),
    };
    match begin(
        alloc,
        &mut host,
        program.words.as_slice(),
        &program.order,
        program.form,
    ) {
        Ok(machine) => Ok(Visit {
            at: 0,
            end: End::Spent,
            machine,
            host,
        }),
        Err(outcome) => Err(outcome),
    }
}

/// Makes at most n turns, and says how many and the end. Out of memory the machine and the host are at no step of their
/// run.
fn run_on(
    alloc: Global,
    machine: &mut Machine,
    host: &mut MemHost,
    n: u64,
) -> Result<(u64, End), NoMemory>
    ensures { IfOk result (λ r.
        ComesTo (state_of machine.old) host.old n r.0 (ended r.1 (state_of machine.new) host.new)) }
{
    let before = machine.steps();
    match run_freely(alloc, machine, host, n) {
        End::OutOfMemory => Err(NoMemory),
        End::Spent => Ok((n, End::Spent)),
        end => Ok((turns_between(before, machine.steps(), end), end)),
    }
}

/// Whether there are turns to make up to a step.
pub(crate) fn has_more(visit: &Visit, until: u64) -> bool
    ensures { result ≡ searches.has_more visit.now until }
{
    visit.at < until && !is_over(visit.end)
}

/// Goes on to step k, or to the last one before it. Out of memory the visit is at no step of the run.
pub(crate) fn go_on(alloc: Global, visit: &mut Visit, k: u64) -> Result<(), NoMemory>
    requires { visit.old.at ≤ k }
    ensures step { OnOk result ((p : Program) → IsStep p visit.old → IsStep p visit.new × IsReached p k visit.new.at) }
    ensures forward { OnOk result ((visit.old.at ≤ visit.new.at) × (visit.new.at ≤ k)) }
    ensures early { OnOk result (spec.is_over visit.new.end ≡ false → visit.new.at ≡ k) }
{
    if is_over(visit.end) {
        return Ok(());
    }
    let (made, end) = run_on(alloc, &mut visit.machine, &mut visit.host, k - visit.at)?;
    visit.at += made;
    visit.end = end;
    Ok(())
}
