//! A session over a host: each line is answered before the next one is read.

ghost use Rattle.std.specs.Prelude.{◌<◌, length};
ghost use Rattle.mx_face.specs.Pages.{FaultsOnlyBy, PartFaultsOnlyBy};

use crate::lines::read_line;
use mx_debug::{Flow, Session};
use mx_face::{Page, put_page, tell};
use mx_host::Host;
use mx_outcome::Outcome;
use mx_word::{Bytes, NoMemory};
use std::alloc::Global;

/// Writes a text to standard output. Where it is not written, that is told on standard error.
fn put<H: Host>(alloc: Global, host: &mut H, text: Bytes) -> Result<(), Outcome>
    ensures { PartFaultsOnlyBy H.told H.faults host.old host.new result }
{
    let page = Page {
        text,
        remark: Bytes::new(alloc),
        outcome: Outcome::Done(0),
    };
    match put_page(alloc, host, &page) {
        Outcome::Done(_) => Ok(()),
        outcome => Err(outcome),
    }
}

/// Writes a text that is known.
fn say<H: Host>(alloc: Global, host: &mut H, text: &[u8]) -> Result<(), Outcome>
    ensures { PartFaultsOnlyBy H.told H.faults host.old host.new result }
{
    match Bytes::copy(alloc, text) {
        Ok(text) => put(alloc, host, text),
        Err(NoMemory) => Err(tell(alloc, host, Outcome::OutOfMemory)),
    }
}

/// Writes an answer, or that there was no memory for it.
fn put_answer<H: Host>(
    alloc: Global,
    host: &mut H,
    answer: Result<Bytes, NoMemory>,
) -> Result<(), Outcome>
    ensures { PartFaultsOnlyBy H.told H.faults host.old host.new result }
{
    match answer {
        Ok(text) => put(alloc, host, text),
        Err(NoMemory) => say(alloc, host, b"? out of memory\n"),
    }
}

/// The answer to a line.
#[derive(Drop)]
struct Reply {
    flow: Flow,
    text: Result<Bytes, NoMemory>,
}

/// Obeys a line.
fn obey(alloc: Global, session: &mut Session, line: &[u8]) -> Reply {
    let mut text = Bytes::new(alloc);
    match session.obey(line, &mut text) {
        Ok(flow) => Reply {
            flow,
            text: Ok(text),
        },
        Err(NoMemory) => Reply {
            flow: Flow::GoOn,
            text: Err(NoMemory),
        },
    }
}

/// Answers a line.
fn answer<H: Host>(
    alloc: Global,
    host: &mut H,
    session: &mut Session,
    line: &[u8],
) -> Result<Flow, Outcome>
    ensures { PartFaultsOnlyBy H.told H.faults host.old host.new result }
{
    let reply = obey(alloc, session, line);
    match put_answer(alloc, host, reply.text) {
        Ok(()) => Ok(reply.flow),
        Err(outcome) => Err(outcome),
    }
}

/// Tells of the step at which a session is.
fn tell_step(alloc: Global, session: &mut Session) -> Result<Bytes, NoMemory> {
    let mut text = Bytes::new(alloc);
    session.tell(&mut text)?;
    Ok(text)
}

/// Writes the prompt, if it is wanted.
fn prompt<H: Host>(alloc: Global, host: &mut H, has_prompt: bool) -> Result<(), Outcome>
    ensures { PartFaultsOnlyBy H.told H.faults host.old host.new result }
{
    if has_prompt {
        return say(alloc, host, b"(mmix) ");
    }
    Ok(())
}

/// Answers the next line of standard input; its end ends the session.
fn answer_next<H: Host>(alloc: Global, host: &mut H, session: &mut Session) -> Result<Flow, Outcome>
    ensures { PartFaultsOnlyBy H.told H.faults host.old host.new result }
{
    match read_line(alloc, host) {
        Ok(Some(line)) => answer(alloc, host, session, line.as_slice()),
        Ok(None) => Ok(Flow::Quit),
        Err(outcome) => Err(outcome),
    }
}

/// Asks for the next line of standard input, and answers it.
fn ask<H: Host>(
    alloc: Global,
    host: &mut H,
    session: &mut Session,
    has_prompt: bool,
) -> Result<Flow, Outcome>
    ensures { PartFaultsOnlyBy H.told H.faults host.old host.new result }
{
    match prompt(alloc, host, has_prompt) {
        Ok(()) => answer_next(alloc, host, session),
        Err(outcome) => Err(outcome),
    }
}

/// Answers the lines of standard input.
#[tactic(auto, using(mx_face::proofs::Parts::parts))]
fn answer_input<H: Host>(
    alloc: Global,
    host: &mut H,
    session: &mut Session,
    has_prompt: bool,
) -> Outcome
    ensures { FaultsOnlyBy H.told H.faults host.old host.new result }
{
    for _turn in 0..u64::MAX {
        match ask(alloc, host, session, has_prompt) {
            Ok(Flow::GoOn) => {}
            Ok(Flow::Quit) => return Outcome::Done(0),
            Err(outcome) => return outcome,
        }
    }
    Outcome::Done(0)
}

/// The first line of some bytes, without its newline, and what follows it.
fn cut_line(bytes: &[u8]) -> (&[u8], &[u8])
    requires { 0 < length bytes.now }
    ensures shorter { length result.1.now < length bytes.now }
{
    let count = bytes.iter().take_while(|b| **b != b'\n').count();
    let (line, rest) = bytes.split_at(count);
    match rest {
        [_, rest @ ..] => (line, rest),
        [] => (line, rest),
    }
}

/// Answers the lines that a file has.
#[tactic(auto, using(mx_face::proofs::Parts::parts))]
fn answer_lines<H: Host>(
    alloc: Global,
    host: &mut H,
    session: &mut Session,
    lines: &[u8],
) -> Outcome
    ensures { FaultsOnlyBy H.told H.faults host.old host.new result }
{
    let mut rest = lines;
    while !rest.is_empty() {
        let (line, more) = cut_line(rest);
        rest = more;
        match answer(alloc, host, session, line) {
            Ok(Flow::GoOn) => {}
            Ok(Flow::Quit) => return Outcome::Done(0),
            Err(outcome) => return outcome,
        }
    }
    Outcome::Done(0)
}

/// Answers the lines of a session: those that a file has, or those of standard input.
fn answer_all<H: Host>(
    alloc: Global,
    host: &mut H,
    session: &mut Session,
    lines: &Option<Bytes>,
    has_prompt: bool,
) -> Outcome
    ensures { FaultsOnlyBy H.told H.faults host.old host.new result }
{
    match lines {
        Some(lines) => answer_lines(alloc, host, session, lines.as_slice()),
        None => answer_input(alloc, host, session, has_prompt),
    }
}

/// Tells of the start, and answers the lines of a session.
pub fn talk<H: Host>(
    alloc: Global,
    host: &mut H,
    session: &mut Session,
    lines: &Option<Bytes>,
    has_prompt: bool,
) -> Outcome
    ensures { FaultsOnlyBy H.told H.faults host.old host.new result }
{
    let start = tell_step(alloc, session);
    match put_answer(alloc, host, start) {
        Ok(()) => answer_all(alloc, host, session, lines, has_prompt),
        Err(outcome) => outcome,
    }
}
