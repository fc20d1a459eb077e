//! Sessions.

ghost use Rattle.std.specs.Prelude.{◌+◌};
ghost use Rattle.mx_host.specs.Keeping.{OnlyByFailure, Keeps};
ghost use Rattle.mx_word.specs.Results.{map_ok};
ghost use Rattle.mx_core.specs.Kept.{state_of};
ghost use Rattle.mx_run.specs.WildRuns.{window_machine, list_machine, HasWindow};
ghost use Rattle.mx_con.specs.Clauses.{CarriesOutOnRunner, EndsAsListSession, EndsAsSession, EndsFront};
ghost use Rattle.mx_con.specs.Clauses.{DoesOnBoth, DoesOnHost, StepsWithin};
ghost use Rattle.mx_con.specs.LinePlans.{asking_plan};
ghost use Rattle.mx_con.specs.Session as spec;
ghost use Rattle.mx_con.specs.SessionPlans as plans;
ghost use Rattle.mx_con.specs.SessionPlans.{session_plan};

use crate::SessionEnd;
use crate::dialog::Dialog;
use crate::host_lines::{read_line, without_return, write_text};
use crate::judgement::Bad;
use crate::listings::write_flags;
use crate::replies::{
    change_subject, go_to, refuse, set_tetra_breaks, show, show_more, show_state, trace_tetra,
    untrace_tetra,
};
use crate::steps::{go_on, step_once};
use crate::windows::know_window;
use mx_cmd::{Command, parse_command};
use mx_host::Host;
use mx_run::Runner;
use mx_word::Bytes;
use std::alloc::Global;

/// The most bytes of input.
const MOST_INPUT: u64 = 1 << 32;

/// A session on a runner over the console's input and output, slots 258 and 259 of the host. It makes
/// at most as many steps as leave the machine's count of steps at `steps`. From a machine that nobody
/// touched it goes as over an unbounded list of registers, up to the first step or command that looks at
/// rS or at the memory of the register stack.
///
/// Out of memory, the steps that were made stay, and the flags and what was written; what is on
/// standard output is a front of what the session writes.
#[tactic(auto, using(crate::proofs::SessionClauses::sessions))]
pub fn session<H: Host>(alloc: Global, runner: &mut Runner, host: &mut H, steps: u64) -> SessionEnd
    ensures plan { CarriesOutOnRunner H.told host.old host.new runner.old runner.new SessionEnd.OutOfMemory result
        (session_plan steps) }
    ensures told { EndsAsSession H.told host.old host.new runner.old runner.new result
        (λ s f m. spec.session window_machine steps s f m) }
    ensures front { EndsFront (H.told host.old) (H.told host.new) runner.old result
        (λ s f m. spec.session window_machine steps s f m) }
    ensures listed { EndsAsListSession H.told host.old host.new runner.old runner.new result
        (λ s f m. spec.session list_machine steps s f m) }
    ensures bound { StepsWithin steps (state_of runner.old.machine) (state_of runner.new.machine) }
    ensures cause { OnlyByFailure (H.told host.old) SessionEnd.HostFault result (H.faults host.old) (H.faults host.new) }
    ensures keeps { Keeps (H.told host.old) (H.told host.new) (H.faults host.old) (H.faults host.new) }
{
    let mut dialog = Dialog {
        shown: None,
        left: MOST_INPUT,
    };
    match all_lines(alloc, runner, host, &mut dialog, steps) {
        Ok(()) => SessionEnd::Limit,
        Err(end) => end,
    }
}

/// Line after line; each takes a byte of the input or ends the session.
#[tactic(auto, using(crate::proofs::StepBounds::going))]
fn all_lines<H: Host>(
    alloc: Global,
    runner: &mut Runner,
    host: &mut H,
    dialog: &mut Dialog,
    steps: u64,
) -> Result<(), SessionEnd>
    ensures part { DoesOnBoth H.told H.faults host.old host.new runner.old runner.new (map_ok (λ u. dialog.new) result)
        (plans.lines_of_session (plans.most_input + 1) steps dialog.old) }
    ensures bound { StepsWithin steps (state_of runner.old.machine) (state_of runner.new.machine) }
{
    for turn in 0..MOST_INPUT + 1 {
        match one_line(alloc, runner, host, dialog, steps) {
            Ok(()) => {}
            Err(end) => return Err(end),
        }
    }
    Err(SessionEnd::Limit)
}

/// Asks for a line, and carries it out.
#[tactic(auto, using(crate::proofs::StepBounds::going))]
fn one_line<H: Host>(
    alloc: Global,
    runner: &mut Runner,
    host: &mut H,
    dialog: &mut Dialog,
    steps: u64,
) -> Result<(), SessionEnd>
    ensures part { DoesOnBoth H.told H.faults host.old host.new runner.old runner.new (map_ok (λ u. dialog.new) result)
        (plans.one_line_plan steps dialog.old) }
    ensures bound { StepsWithin steps (state_of runner.old.machine) (state_of runner.new.machine) }
{
    match ask(alloc, host, &mut dialog.left) {
        Ok(line) => {
            let command = parse_command(without_return(line.as_slice()));
            know_window(runner);
            obey_line(alloc, runner, host, &mut dialog.shown, steps, command)
        }
        Err(end) => Err(end),
    }
}

/// Writes the prompt and reads a line.
#[tactic(auto, using(crate::proofs::SessionSteps::asking))]
fn ask<H: Host>(alloc: Global, host: &mut H, left: &mut u64) -> Result<Bytes, SessionEnd>
    ensures { DoesOnHost H.told H.faults host.old host.new (map_ok (λ text. (text, left.new)) result)
        (asking_plan left.old) }
{
    match write_text(host, b"mmix> ") {
        Ok(()) => read_line(alloc, host, left),
        Err(end) => Err(end),
    }
}

/// Carries a line out.
#[tactic(auto, using(crate::proofs::StepBounds::staying))]
fn obey_line<H: Host>(
    alloc: Global,
    runner: &mut Runner,
    host: &mut H,
    shown: &mut Option<u64>,
    steps: u64,
    command: Option<Command>,
) -> Result<(), SessionEnd>
    requires { HasWindow (state_of runner.old.machine) }
    ensures part { DoesOnBoth H.told H.faults host.old host.new runner.old runner.new (map_ok (λ u. shown.new) result)
        (plans.command_plan steps shown.old command) }
    ensures bound { StepsWithin steps (state_of runner.old.machine) (state_of runner.new.machine) }
{
    let Some(command) = command else {
        return refuse(alloc, host, Bad::UnknownCommand);
    };
    match command {
        Command::Step => step_once(alloc, runner, host, steps),
        Command::Continue => go_on(alloc, runner, host, steps),
        Command::Quit => Err(SessionEnd::Quit),
        Command::State => show_state(alloc, runner.machine(), host),
        Command::Show(subject, form) => show(alloc, runner, host, shown, subject, form),
        Command::Change(subject, value) => change_subject(
            alloc, runner, host, shown, subject, value,
        ),
        Command::ShowMore(n, form) => show_more(alloc, runner, host, shown, n, form),
        Command::GoTo(a) => go_to(alloc, runner, host, a),
        Command::Break(breaks, a) => set_tetra_breaks(alloc, runner, host, breaks, a),
        Command::Trace(a) => trace_tetra(alloc, runner, host, a),
        Command::Untrace(a) => untrace_tetra(alloc, runner, host, a),
        Command::Flags => write_flags(alloc, runner, host),
    }
}
