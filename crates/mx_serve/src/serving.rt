//! The server over a host.

ghost use Rattle.std.specs.Prelude.{◌≤◌, IfOk, length};
ghost use Rattle.mx_face.specs.Pages.{FaultsOnlyBy, PartFaultsOnlyBy};

use crate::session::{Flow, Reply, Session};
use crate::writing::put_bodies;
use mx_frames::{Coming, Frames, feed, start, wanted};
use mx_host::{Host, HostFault};
use mx_outcome::Outcome;
use mx_word::NoMemory;
use std::alloc::Global;

/// The slot of the tool's standard input.
const INPUT: u16 = 258;

/// How many bytes are read at once at most.
const PIECE: usize = 4096;

/// What the server does next: it reads on, once this has come of the next frame, or ends with a status.
#[derive(Drop)]
enum Next {
    Reads(Coming),
    Ends(u8),
}

/// Writes a reply.
fn put_reply<H: Host>(alloc: Global, host: &mut H, reply: Reply) -> Result<Flow, Outcome>
    ensures { PartFaultsOnlyBy H.told H.faults host.old host.new result }
{
    match put_bodies(alloc, host, reply.bodies.as_slice()) {
        Ok(()) => Ok(reply.flow),
        Err(outcome) => Err(outcome),
    }
}

/// Writes a reply, if there was memory for it.
fn put_reply_if<H: Host>(
    alloc: Global,
    host: &mut H,
    reply: Result<Reply, NoMemory>,
) -> Result<Flow, Outcome>
    ensures { PartFaultsOnlyBy H.told H.faults host.old host.new result }
{
    match reply {
        Ok(reply) => put_reply(alloc, host, reply),
        Err(NoMemory) => Err(Outcome::OutOfMemory),
    }
}

/// Does a part of the work that a session has, and writes what it tells.
fn work<S: Session, H: Host>(alloc: Global, host: &mut H, session: &mut S) -> Result<Flow, Outcome>
    ensures { PartFaultsOnlyBy H.told H.faults host.old host.new result }
{
    match session.go_on(alloc, host) {
        Ok(reply) => put_reply(alloc, host, reply),
        Err(outcome) => Err(outcome),
    }
}

/// Does the work that a session has, part by part.
#[tactic(auto, using(mx_face::proofs::Parts::parts))]
fn work_on<S: Session, H: Host>(
    alloc: Global,
    host: &mut H,
    session: &mut S,
) -> Result<Flow, Outcome>
    ensures { PartFaultsOnlyBy H.told H.faults host.old host.new result }
{
    for _part in 0..u64::MAX {
        match work(alloc, host, session) {
            Ok(Flow::Busy) => {}
            Ok(flow) => return Ok(flow),
            Err(outcome) => return Err(outcome),
        }
    }
    Ok(Flow::Going)
}

/// Answers a body, and does the work that follows.
fn take_body<S: Session, H: Host>(
    alloc: Global,
    host: &mut H,
    session: &mut S,
    body: &[u8],
) -> Result<Flow, Outcome>
    ensures { PartFaultsOnlyBy H.told H.faults host.old host.new result }
{
    let reply = session.answer(alloc, body);
    match put_reply_if(alloc, host, reply) {
        Ok(Flow::Busy) => work_on(alloc, host, session),
        Ok(flow) => Ok(flow),
        Err(outcome) => Err(outcome),
    }
}

/// Answers the bodies of frames, up to one that ends the session.
#[tactic(auto, using(mx_face::proofs::Parts::parts))]
fn take_frames<S: Session, H: Host>(
    alloc: Global,
    host: &mut H,
    session: &mut S,
    frames: &Frames,
) -> Result<Flow, Outcome>
    ensures { PartFaultsOnlyBy H.told H.faults host.old host.new result }
{
    for frame in frames.as_slice() {
        match take_body(alloc, host, session, frame.body.as_slice()) {
            Ok(Flow::Ended(status)) => return Ok(Flow::Ended(status)),
            Ok(_) => {}
            Err(outcome) => return Err(outcome),
        }
    }
    Ok(Flow::Going)
}

/// Takes a piece of the stream, of whose next frame this has come.
fn take_piece<S: Session, H: Host>(
    alloc: Global,
    host: &mut H,
    session: &mut S,
    before: Coming,
    piece: &[u8],
) -> Result<Next, Outcome>
    ensures { PartFaultsOnlyBy H.told H.faults host.old host.new result }
{
    let mut frames = Frames::new(alloc);
    match feed(alloc, &mut frames, before, piece) {
        Ok(coming) => match take_frames(alloc, host, session, &frames) {
            Ok(Flow::Ended(status)) => Ok(Next::Ends(status)),
            Ok(_) => Ok(Next::Reads(coming)),
            Err(outcome) => Err(outcome),
        },
        Err(NoMemory) => Err(Outcome::OutOfMemory),
    }
}

/// Tells that a header is none, and ends.
fn refuse_header<S: Session, H: Host>(
    alloc: Global,
    host: &mut H,
    session: &mut S,
) -> Result<Next, Outcome>
    ensures { PartFaultsOnlyBy H.told H.faults host.old host.new result }
{
    let reply = session.refuse_header(alloc);
    match put_reply_if(alloc, host, reply) {
        Ok(_) => Ok(Next::Ends(1)),
        Err(outcome) => Err(outcome),
    }
}

/// Reads the next bytes of standard input, and gives their number, which is 0 only at its end.
fn read_piece<H: Host>(host: &mut H, into: &mut [u8]) -> Result<usize, Outcome>
    ensures causes { PartFaultsOnlyBy H.told H.faults host.old host.new result }
    ensures count { IfOk result (λ n. n ≤ length into.old) }
{
    match host.read_slot(INPUT, into) {
        Ok(count) => Ok(count),
        Err(HostFault::OutOfMemory) => Err(Outcome::OutOfMemory),
        Err(HostFault::Failed) => Err(Outcome::HostFault),
        Err(HostFault::Misused) => Err(Outcome::HostFault),
    }
}

/// How many bytes are read at once, where so many may be asked for.
fn piece_size(wanted: u64) -> usize
    ensures { result ≤ 4096 }
{
    if wanted < PIECE as u64 {
        wanted as usize
    } else {
        PIECE
    }
}

/// Reads the next piece, and answers what it has.
fn turn<S: Session, H: Host>(
    alloc: Global,
    host: &mut H,
    session: &mut S,
    coming: Coming,
) -> Result<Next, Outcome>
    ensures { PartFaultsOnlyBy H.told H.faults host.old host.new result }
{
    let size = piece_size(wanted(&coming));
    if size == 0 {
        return refuse_header(alloc, host, session);
    }
    let mut buffer = [0u8; PIECE];
    match read_piece(host, &mut buffer[..size]) {
        Ok(0) => Ok(Next::Ends(1)),
        Ok(count) => {
            let piece = &buffer[..count.min(PIECE)];
            take_piece(alloc, host, session, coming, piece)
        }
        Err(outcome) => Err(outcome),
    }
}

/// Answers the messages of a session.
#[tactic(auto, using(mx_face::proofs::Parts::parts))]
fn answer_all<S: Session, H: Host>(alloc: Global, host: &mut H, session: &mut S) -> Outcome
    ensures { FaultsOnlyBy H.told H.faults host.old host.new result }
{
    let mut coming = start(alloc);
    for _turn in 0..u64::MAX {
        match turn(alloc, host, session, coming) {
            Ok(Next::Reads(next)) => coming = next,
            Ok(Next::Ends(status)) => return Outcome::Done(status),
            Err(outcome) => return outcome,
        }
    }
    Outcome::Done(1)
}

/// Answers the messages of standard input on standard output, up to the message that ends the session or to the end of the input. While
/// a session has work to do, no message is read.
pub fn serve<S: Session, H: Host>(alloc: Global, host: &mut H, session: &mut S) -> Outcome
    ensures causes { FaultsOnlyBy H.told H.faults host.old host.new result }
{
    answer_all(alloc, host, session)
}
