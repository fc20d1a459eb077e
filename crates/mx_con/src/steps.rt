//! Steps and runs that the console asks for.

ghost use Rattle.std.specs.Prelude.{◌≡◌, ◌≢◌, ◌-◌, Err, Some};
ghost use Rattle.mx_core.specs.Kept.{state_of};
ghost use Rattle.mx_con.specs.Clauses.{DoesOnBoth, DoesOnHost, DoesOnRunner, StepsWithin};
ghost use Rattle.mx_con.specs.ConsoleTexts.{break_text};
ghost use Rattle.mx_show.specs.Texts.{trace_text};
ghost use Rattle.mx_con.specs.LinePlans.{line_plan};
ghost use Rattle.mx_con.specs.SessionPlans as plans;
ghost use Rattle.mx_con.specs.SessionPlans.{after_end};

use crate::SessionEnd;
use crate::host_lines::{write_line, write_text};
use crate::texts::break_line;
use crate::windows::know_count;
use mx_core::{Machine, Trace};
use mx_host::Host;
use mx_run::{BreakKind, End, Runner, TurnAnswer};
use mx_show::trace_line;
use std::alloc::Global;

/// How many steps may still be made, of this many in all.
fn steps_left(steps: u64, runner: &Runner) -> u64
    ensures { result ≡ steps - (state_of runner.now.machine).steps }
{
    steps.saturating_sub(runner.machine().steps())
}

/// Makes one step, whatever the flags, and writes its line.
#[tactic(auto, using(crate::proofs::StepPlans::stepping, crate::proofs::StepBounds::stepping))]
pub(crate) fn step_once<H: Host>(
    alloc: Global,
    runner: &mut Runner,
    host: &mut H,
    steps: u64,
) -> Result<(), SessionEnd>
    ensures part { DoesOnRunner H.told H.faults host.old host.new runner.old runner.new result
        (plans.stepped_plan steps) }
    ensures bound { StepsWithin steps (state_of runner.old.machine) (state_of runner.new.machine) }
{
    if steps_left(steps, runner) == 0 {
        return Err(SessionEnd::Spent);
    }
    know_count(runner);
    let pc = runner.machine().pc();
    let answer = runner.step(host);
    know_count(runner);
    match answer {
        TurnAnswer::Went(trace) => write_trace(alloc, runner.machine(), host, &trace),
        TurnAnswer::Halted(status) => Err(SessionEnd::Halted(status)),
        TurnAnswer::Stopped(reason) => Err(SessionEnd::Stopped { pc, reason }),
        TurnAnswer::OutOfMemory => Err(SessionEnd::OutOfMemory),
    }
}

/// Writes the line of a step.
#[tactic(auto, using(crate::proofs::LineEnds::lacking))]
fn write_trace<H: Host>(
    alloc: Global,
    machine: &Machine,
    host: &mut H,
    trace: &Trace,
) -> Result<(), SessionEnd>
    ensures { DoesOnHost H.told H.faults host.old host.new result
        (line_plan (trace_text trace.now (state_of machine.now))) }
{
    write_text(host, trace_line(alloc, trace, machine)?.as_slice())
}

/// Goes on up to a break or the end. A traced step writes its line, and the run goes on.
#[tactic(auto, using(crate::proofs::StepBounds::going))]
pub(crate) fn go_on<H: Host>(
    alloc: Global,
    runner: &mut Runner,
    host: &mut H,
    steps: u64,
) -> Result<(), SessionEnd>
    ensures part { DoesOnBoth H.told H.faults host.old host.new runner.old runner.new result
        (plans.continued_plan steps) }
    ensures bound { StepsWithin steps (state_of runner.old.machine) (state_of runner.new.machine) }
{
    let most = steps_left(steps, runner);
    let mut pass = true;
    for turn in 0..most {
        match run_once(alloc, runner, host, steps, pass) {
            Ok(true) => pass = false,
            Ok(false) => return Ok(()),
            Err(end) => return Err(end),
        }
    }
    Err(SessionEnd::Spent)
}

/// Runs up to a break, a traced step or the end, and says whether the run goes on then.
#[tactic(auto, using(crate::proofs::StepBounds::stepping))]
fn run_once<H: Host>(
    alloc: Global,
    runner: &mut Runner,
    host: &mut H,
    steps: u64,
    pass: bool,
) -> Result<bool, SessionEnd>
    ensures part { DoesOnBoth H.told H.faults host.old host.new runner.old runner.new result
        (plans.one_run_plan steps pass) }
    ensures bound { StepsWithin steps (state_of runner.old.machine) (state_of runner.new.machine) }
{
    know_count(runner);
    let end = runner.go(host, steps_left(steps, runner), pass);
    know_count(runner);
    end_run(alloc, runner, host, end)
}

/// Writes the lines on the end of a run, and says whether the run goes on then.
#[tactic(auto, using(crate::proofs::StepPlans::ended_runs))]
fn end_run<H: Host>(
    alloc: Global,
    runner: &Runner,
    host: &mut H,
    end: End,
) -> Result<bool, SessionEnd>
    ensures part { end ≢ End.OutOfMemory →
        DoesOnRunner H.told H.faults host.old host.new runner.now runner.now result (after_end end) }
    ensures lacked { end ≡ End.OutOfMemory → result ≡ Err SessionEnd.OutOfMemory }
    ensures uncalled { end ≡ End.OutOfMemory → host.new ≡ host.old }
{
    match end {
        End::Halted(status) => Err(SessionEnd::Halted(status)),
        End::Stopped { pc, reason } => Err(SessionEnd::Stopped { pc, reason }),
        End::Broke { kind, at, traced } => match write_break(
            alloc, runner, host, kind, at, traced,
        ) {
            Ok(()) => Ok(false),
            Err(end) => Err(end),
        },
        End::Traced(step) => match write_trace(alloc, runner.machine(), host, &step) {
            Ok(()) => Ok(true),
            Err(end) => Err(end),
        },
        End::Spent => Err(SessionEnd::Spent),
        End::OutOfMemory => Err(SessionEnd::OutOfMemory),
    }
}

/// Writes the line of a break, and before it that of a traced step that came to it.
fn write_break<H: Host>(
    alloc: Global,
    runner: &Runner,
    host: &mut H,
    kind: BreakKind,
    at: u64,
    traced: Option<Trace>,
) -> Result<(), SessionEnd>
    ensures { DoesOnRunner H.told H.faults host.old host.new runner.now runner.now result
        (plans.break_plan kind at traced) }
{
    match traced {
        Some(trace) => write_traced_break(alloc, runner, host, kind, at, trace),
        None => write_break_line(alloc, host, kind, at),
    }
}

/// Writes the line of a traced step, and that of the break that it came to.
fn write_traced_break<H: Host>(
    alloc: Global,
    runner: &Runner,
    host: &mut H,
    kind: BreakKind,
    at: u64,
    trace: Trace,
) -> Result<(), SessionEnd>
    ensures { DoesOnRunner H.told H.faults host.old host.new runner.now runner.now result
        (plans.break_plan kind at (Some trace)) }
{
    match write_trace(alloc, runner.machine(), host, &trace) {
        Ok(()) => write_break_line(alloc, host, kind, at),
        Err(end) => Err(end),
    }
}

#[tactic(auto, using(crate::proofs::LineEnds::lacking))]
fn write_break_line<H: Host>(
    alloc: Global,
    host: &mut H,
    kind: BreakKind,
    at: u64,
) -> Result<(), SessionEnd>
    ensures { DoesOnHost H.told H.faults host.old host.new result (line_plan (break_text kind at)) }
{
    write_line(host, break_line(alloc, kind, at)?)
}
