//! Commands that make no step.

ghost use Rattle.std.specs.Prelude.{◌≡◌, None, Some};
ghost use Rattle.mx_core.specs.Kept.{state_of};
ghost use Rattle.mx_word.specs.Segments.{is_in_stack_segment};
ghost use Rattle.mx_con.specs.Clauses.{DoesOnHost, Obeys, ObeysSilently};
ghost use Rattle.mx_show.specs.Texts.{state_text};
ghost use Rattle.mx_con.specs.Judgement as judgement;
ghost use Rattle.mx_con.specs.LinePlans.{line_plan};
ghost use Rattle.mx_con.specs.Replies as replies;
ghost use Rattle.mx_show.specs.Subjects as subjects;
ghost use Rattle.mx_show.specs.Subjects.{shown_line};

use crate::SessionEnd;
use crate::changes::{change, go_on_at, note_if, set_breaks, set_trace};
use crate::host_lines::{write_line, write_text};
use crate::judgement::{Bad, flag_bad, go_to_bad, more_bad, subject_bad};
use crate::listings::write_octas;
use mx_cmd::{Breaks, Command, Subject};
use mx_core::{Machine, SetFault};
use mx_host::Host;
use mx_run::Runner;
use mx_show::{format_subject, state_line};
use mx_text::Form;
use mx_word::{Bytes, is_in_stack_segment};
use std::alloc::Global;

/// Writes why a line is bad.
#[tactic(auto, using(crate::proofs::LineEnds::lacking))]
pub(crate) fn refuse<H: Host>(alloc: Global, host: &mut H, bad: Bad) -> Result<(), SessionEnd>
    ensures { DoesOnHost H.told H.faults host.old host.new result (line_plan (judgement.bad_text bad)) }
{
    write_line(host, Bytes::copy(alloc, bad.message().as_bytes())?)
}

/// Writes the line on the state.
#[tactic(auto, using(crate::proofs::LineEnds::lacking))]
pub(crate) fn show_state<H: Host>(
    alloc: Global,
    machine: &Machine,
    host: &mut H,
) -> Result<(), SessionEnd>
    ensures { DoesOnHost H.told H.faults host.old host.new result (line_plan (state_text (state_of machine.now))) }
{
    write_text(host, state_line(alloc, machine)?.as_slice())
}

/// Shows a subject.
#[tactic(auto, using(crate::proofs::StepBounds::noting))]
pub(crate) fn show<H: Host>(
    alloc: Global,
    runner: &mut Runner,
    host: &mut H,
    shown: &mut Option<u64>,
    subject: Subject,
    form: Form,
) -> Result<(), SessionEnd>
    ensures part { Obeys H.told H.faults host.old host.new runner.old runner.new shown.old shown.new result
        (Command.Show subject form) }
    ensures same_steps { (state_of runner.new.machine).steps ≡ (state_of runner.old.machine).steps }
{
    match subject_bad(runner.machine(), subject) {
        Some(bad) => refuse(alloc, host, bad),
        None => show_sound(alloc, runner, host, shown, subject, form),
    }
}

/// Shows a subject that is not bad. It counts as shown, and is noted where it is rS or an octa of
/// Stack_Segment, before the line takes memory.
#[tactic(auto, using(crate::proofs::LineEnds::lacking, crate::proofs::StepBounds::noting))]
fn show_sound<H: Host>(
    alloc: Global,
    runner: &mut Runner,
    host: &mut H,
    shown: &mut Option<u64>,
    subject: Subject,
    form: Form,
) -> Result<(), SessionEnd>
    requires { subjects.IsSound subject }
    ensures part { DoesOnHost H.told H.faults host.old host.new result
        (line_plan (shown_line (state_of runner.new.machine) subject form)) }
    ensures noted { state_of runner.new.machine
        ≡ replies.noted_if (subjects.subject_wild subject) (state_of runner.old.machine) }
    ensures flags { runner.new.flags ≡ runner.old.flags }
    ensures shown { shown.new ≡ replies.shown_after subject shown.old }
{
    note_if(runner, is_wild(subject));
    note_shown(shown, subject);
    write_line(
        host,
        format_subject(alloc, runner.machine(), subject, form)?,
    )
}

/// Whether a subject is rS or an octa of Stack_Segment.
fn is_wild(subject: Subject) -> bool
    ensures { result ≡ subjects.subject_wild subject }
{
    match subject {
        Subject::Register(_) | Subject::Global(_) => false,
        Subject::Special(code) => code == Some(11),
        Subject::Memory(a) => is_in_stack_segment(a),
    }
}

/// An octa counts as shown.
fn note_shown(shown: &mut Option<u64>, subject: Subject)
    ensures { shown.new ≡ replies.shown_after subject shown.old }
{
    if let Subject::Memory(a) = subject {
        *shown = Some(a / 8 * 8);
    }
}

/// Gives a subject another value, and shows it.
pub(crate) fn change_subject<H: Host>(
    alloc: Global,
    runner: &mut Runner,
    host: &mut H,
    shown: &mut Option<u64>,
    subject: Subject,
    value: Option<u64>,
) -> Result<(), SessionEnd>
    ensures part { Obeys H.told H.faults host.old host.new runner.old runner.new shown.old shown.new result
        (Command.Change subject value) }
    ensures same_steps { (state_of runner.new.machine).steps ≡ (state_of runner.old.machine).steps }
{
    let Some(value) = value else {
        return refuse(alloc, host, Bad::BadNumber);
    };
    match subject_bad(runner.machine(), subject) {
        Some(bad) => refuse(alloc, host, bad),
        None => change_sound(alloc, runner, host, shown, subject, value),
    }
}

/// Gives a subject that is not bad another value, and shows it.
#[tactic(auto, using(crate::proofs::ReplyPlans::replying, crate::proofs::StepBounds::noting))]
fn change_sound<H: Host>(
    alloc: Global,
    runner: &mut Runner,
    host: &mut H,
    shown: &mut Option<u64>,
    subject: Subject,
    value: u64,
) -> Result<(), SessionEnd>
    requires sound { subjects.IsSound subject }
    requires good { judgement.subject_bad (state_of runner.old.machine) subject ≡ None }
    ensures part { Obeys H.told H.faults host.old host.new runner.old runner.new shown.old shown.new result
        (Command.Change subject (Some value)) }
    ensures same_steps { (state_of runner.new.machine).steps ≡ (state_of runner.old.machine).steps }
{
    match change(runner, subject, value) {
        Ok(()) => show_sound(alloc, runner, host, shown, subject, Form::Hex),
        Err(SetFault::NotAllowed) => refuse(alloc, host, Bad::CannotChange),
        Err(SetFault::OutOfMemory) => Err(SessionEnd::OutOfMemory),
    }
}

/// Shows the octas after the one that was shown last.
pub(crate) fn show_more<H: Host>(
    alloc: Global,
    runner: &mut Runner,
    host: &mut H,
    shown: &mut Option<u64>,
    n: Option<u64>,
    form: Form,
) -> Result<(), SessionEnd>
    ensures part { Obeys H.told H.faults host.old host.new runner.old runner.new shown.old shown.new result
        (Command.ShowMore n form) }
    ensures same_steps { (state_of runner.new.machine).steps ≡ (state_of runner.old.machine).steps }
{
    let Some(n) = n else {
        return refuse(alloc, host, Bad::BadNumber);
    };
    match more_bad(*shown, n) {
        Some(bad) => refuse(alloc, host, bad),
        None => show_octas(alloc, runner, host, shown, n, form),
    }
}

/// Shows this many octas after the one that was shown last, where there are as many.
#[tactic(auto, using(crate::proofs::StepBounds::noting))]
fn show_octas<H: Host>(
    alloc: Global,
    runner: &mut Runner,
    host: &mut H,
    shown: &mut Option<u64>,
    n: u64,
    form: Form,
) -> Result<(), SessionEnd>
    requires { judgement.more_bad shown.old (Some n) ≡ None }
    ensures part { Obeys H.told H.faults host.old host.new runner.old runner.new shown.old shown.new result
        (Command.ShowMore (Some n) form) }
    ensures same_steps { (state_of runner.new.machine).steps ≡ (state_of runner.old.machine).steps }
{
    let Some(a) = *shown else {
        return Ok(());
    };
    let last = a + 8 * n;
    *shown = Some(last);
    note_if(runner, is_in_stack_segment(last));
    write_octas(alloc, runner.machine(), host, form, a, n)
}

/// The machine goes on at an address.
#[tactic(auto, using(crate::proofs::ReplyPlans::replying, crate::proofs::StepBounds::noting))]
pub(crate) fn go_to<H: Host>(
    alloc: Global,
    runner: &mut Runner,
    host: &mut H,
    a: u64,
) -> Result<(), SessionEnd>
    ensures part { ObeysSilently H.told H.faults host.old host.new runner.old runner.new result (Command.GoTo a) }
    ensures same_steps { (state_of runner.new.machine).steps ≡ (state_of runner.old.machine).steps }
{
    if let Some(bad) = go_to_bad(a) {
        return refuse(alloc, host, bad);
    }
    go_on_at(runner, a);
    note_if(runner, is_in_stack_segment(a));
    Ok(())
}

/// Sets the breaks of a tetra.
#[tactic(auto, using(crate::proofs::ReplyPlans::replying))]
pub(crate) fn set_tetra_breaks<H: Host>(
    alloc: Global,
    runner: &mut Runner,
    host: &mut H,
    breaks: Breaks,
    a: u64,
) -> Result<(), SessionEnd>
    ensures part { ObeysSilently H.told H.faults host.old host.new runner.old runner.new result
        (Command.Break breaks a) }
    ensures same_steps { (state_of runner.new.machine).steps ≡ (state_of runner.old.machine).steps }
{
    if let Some(bad) = flag_bad(a) {
        return refuse(alloc, host, bad);
    }
    set_breaks(runner, breaks, a)?;
    Ok(())
}

/// The steps of a tetra are traced.
#[tactic(auto, using(crate::proofs::ReplyPlans::replying))]
pub(crate) fn trace_tetra<H: Host>(
    alloc: Global,
    runner: &mut Runner,
    host: &mut H,
    a: u64,
) -> Result<(), SessionEnd>
    ensures part { ObeysSilently H.told H.faults host.old host.new runner.old runner.new result (Command.Trace a) }
    ensures same_steps { (state_of runner.new.machine).steps ≡ (state_of runner.old.machine).steps }
{
    if let Some(bad) = flag_bad(a) {
        return refuse(alloc, host, bad);
    }
    set_trace(runner, true, a)?;
    Ok(())
}

/// The steps of a tetra are traced no more.
#[tactic(auto, using(crate::proofs::ReplyPlans::replying))]
pub(crate) fn untrace_tetra<H: Host>(
    alloc: Global,
    runner: &mut Runner,
    host: &mut H,
    a: u64,
) -> Result<(), SessionEnd>
    ensures part { ObeysSilently H.told H.faults host.old host.new runner.old runner.new result (Command.Untrace a) }
    ensures same_steps { (state_of runner.new.machine).steps ≡ (state_of runner.old.machine).steps }
{
    if let Some(bad) = flag_bad(a) {
        return refuse(alloc, host, bad);
    }
    set_trace(runner, false, a)?;
    Ok(())
}
