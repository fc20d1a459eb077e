//! One walk over the run of a machine, which counts its steps.

ghost use Rattle.std.specs.Prelude.{◌≡◌, ◌≢◌, ℕ, Bool, IfOk, IfSome, OnOk, false};
ghost use Rattle.mx_core.specs.Kept.{state_of};
ghost use Rattle.mx_host.specs.Keeping.{Keeps};
ghost use Rattle.mx_run.specs.AccompaniedRuns.{CarriesOutAccompanied};
ghost use Rattle.mx_run.specs.Clauses.{IsRun};
ghost use Rattle.mx_run.specs.Runs.{no_flags};
ghost use Rattle.mx_count.specs.Counting.{kept_tally};
ghost use Rattle.mx_count.specs.Leaving.{IsLeft, RunLeaves};
ghost use Rattle.mx_count.specs.Runs as spec;
ghost use Rattle.mx_count.specs.Runs.{CountsListTraces, CountsTraces, EndsCounted};
ghost use Rattle.mx_count.specs.Tallies as tallies;

use crate::counts::Counts;
use mx_core::{Machine, Trace};
use mx_host::Host;
use mx_run::End;
use mx_watch::trace_step;
use mx_word::NoMemory;
use std::alloc::Global;

/// Makes at most n steps of a machine, and counts each that goes on.
///
/// Out of memory, the steps up to there were made.
#[tactic(auto, using(mx_run::proofs::Later::running))]
fn count_traces<H: Host>(
    alloc: Global,
    host: &mut H,
    machine: &mut Machine,
    n: u64,
    counts: &mut Counts,
) -> End
    ensures plan { CarriesOutAccompanied H.told host.old host.new machine.old machine.new n result }
    ensures run { IsRun H.told H.faults host.old host.new machine.old machine.new n no_flags false result }
    ensures counted { CountsTraces (H.told host.old) (state_of machine.old) n result counts.old counts.new }
    ensures list_counted { CountsListTraces (H.told host.old) (state_of machine.old) n result counts.old counts.new }
{
    for _made in 0..n {
        match trace_step(alloc, machine, host) {
            Ok(trace) => match counts.add_step(&trace) {
                Ok(()) => {}
                Err(_) => return End::OutOfMemory,
            },
            Err(end) => return end,
        }
    }
    End::Spent
}

/// The step of a program that halts at an address. It has no trace in the run.
fn trace_of_halt(pc: u64) -> Option<Trace>
    ensures { IfSome result (λ t. t ≡ spec.halting_step pc) }
{
    let next = pc.checked_add(4)?;
    Some(Trace {
        pc,
        word: 0,
        dest: None,
        reads: None,
        writes: None,
        next,
    })
}

/// Counts the step of a program that halts at an address.
fn add_halt(counts: &mut Counts, pc: u64) -> Result<(), NoMemory>
    ensures { (test : ℕ → Bool) → OnOk result (kept_tally test counts.new
        ≡ tallies.added (kept_tally test counts.old) (tallies.tally_if test (spec.halting_step pc))) }
{
    let Some(step) = trace_of_halt(pc) else {
        return Err(NoMemory);
    };
    counts.add_step(&step)?;
    Ok(())
}

/// Whether a program halted.
fn is_halted(end: End) -> bool
    ensures { result ≡ spec.is_halted end }
{
    matches!(end, End::Halted(_))
}

/// Counts the last step of a run that ended so at an address, if it is the one that halts.
fn add_end(counts: &mut Counts, end: End, pc: u64) -> Result<(), NoMemory>
    ensures { (test : ℕ → Bool) → OnOk result (kept_tally test counts.new
        ≡ tallies.added (kept_tally test counts.old) (tallies.tally_in test (spec.halting_steps end pc))) }
{
    if is_halted(end) {
        add_halt(counts, pc)?;
        return Ok(());
    }
    Ok(())
}

/// Whether a run ended because memory ran out.
fn is_lacking(end: End) -> bool
    ensures { result ≡ false → end ≢ End.OutOfMemory }
{
    matches!(end, End::OutOfMemory)
}

/// Makes at most n steps of a machine, and counts them, also the one that halts. Answers the end, and the counts.
///
/// Errors: out of memory. Then the host is as the steps that were made leave it.
pub(crate) fn count_steps<H: Host>(
    alloc: Global,
    host: &mut H,
    machine: &mut Machine,
    n: u64,
) -> Result<(End, Counts), NoMemory>
    ensures told { IfOk result (λ counted. EndsCounted (H.told host.old) (H.told host.new) (state_of machine.old)
        (state_of machine.new) n counted.0 counted.1) }
    ensures left { IsLeft (H.told host.old) (H.told host.new) (λ m k. RunLeaves n (state_of machine.old) m k) }
    ensures keeps { Keeps (H.told host.old) (H.told host.new) (H.faults host.old) (H.faults host.new) }
{
    let mut counts = Counts::new(alloc);
    let end = count_traces(alloc, host, machine, n, &mut counts);
    if is_lacking(end) {
        return Err(NoMemory);
    }
    let at = machine.pc();
    add_end(&mut counts, end, at)?;
    Ok((end, counts))
}
