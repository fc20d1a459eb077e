//! The adapter over a host.

ghost use Rattle.mx_face.specs.Pages.{FaultsOnlyBy};
ghost use Rattle.mx_host.specs.Keeping.{Keeps};

use crate::launching::{Launched, launch};
use mx_adapter::Launch;
use mx_dap::{Flow, Session};
use mx_host::Host;
use mx_outcome::Outcome;
use mx_serve::{Flow as Next, Reply, Session as Answering, serve as serve_session};
use mx_word::NoMemory;
use std::alloc::Global;

/// A session of the debug adapter.
#[derive(Drop)]
struct Adapter {
    session: Session,
}

/// What the loop does after an answer.
fn next_after(flow: Flow) -> Next {
    match flow {
        Flow::Going => Next::Going,
        Flow::Busy => Next::Busy,
        Flow::Ended(status) => Next::Ended(status),
    }
}

/// Takes what came of a launch.
fn take_launched(
    session: &mut Session,
    wanted: Launch,
    launched: Launched,
) -> Result<(), NoMemory> {
    match launched {
        Launched::Begun(debugged) => session.take_program(wanted, debugged),
        Launched::Refused(faults, why) => {
            session.take_refusal(&wanted, faults.as_slice(), why.as_slice())
        }
    }
}

/// Launches a program, and tells what came of it.
fn launch_wanted<H: Host>(
    alloc: Global,
    host: &mut H,
    session: &mut Session,
    wanted: Launch,
) -> Result<Flow, NoMemory>
    ensures { Keeps (H.told host.old) (H.told host.new) (H.faults host.old) (H.faults host.new) }
{
    match launch(alloc, host, &wanted) {
        Ok(launched) => match take_launched(session, wanted, launched) {
            Ok(()) => Ok(Flow::Going),
            Err(NoMemory) => Err(NoMemory),
        },
        Err(NoMemory) => match session.take_refusal(&wanted, b"", b"out of memory") {
            Ok(()) => Ok(Flow::Going),
            Err(NoMemory) => Err(NoMemory),
        },
    }
}

/// Does a part of what a session has to do.
fn work<H: Host>(alloc: Global, host: &mut H, session: &mut Session) -> Result<Flow, NoMemory>
    ensures { Keeps (H.told host.old) (H.told host.new) (H.faults host.old) (H.faults host.new) }
{
    match session.take_launch() {
        Some(wanted) => launch_wanted(alloc, host, session, wanted),
        None => session.work(),
    }
}

/// What was done, and what is to be sent.
fn reply_after(session: &mut Session, flow: Flow) -> Reply {
    Reply {
        flow: next_after(flow),
        bodies: session.take_sent(),
    }
}

impl Answering for Adapter {
    fn answer(&mut self, _alloc: Global, body: &[u8]) -> Result<Reply, NoMemory> {
        let flow = self.session.take(body)?;
        Ok(reply_after(&mut self.session, flow))
    }

    fn refuse_header(&mut self, _alloc: Global) -> Result<Reply, NoMemory> {
        let flow = self.session.refuse(b"this is no header\n")?;
        Ok(reply_after(&mut self.session, flow))
    }

    fn go_on<H: Host>(&mut self, alloc: Global, host: &mut H) -> Result<Reply, Outcome> {
        match work(alloc, host, &mut self.session) {
            Ok(flow) => Ok(reply_after(&mut self.session, flow)),
            Err(NoMemory) => Err(Outcome::OutOfMemory),
        }
    }
}

/// Answers the messages of standard input on standard output, up to the message that ends the session or to the end of the input.
pub fn serve<H: Host>(alloc: Global, host: &mut H) -> Outcome
    ensures causes { FaultsOnlyBy H.told H.faults host.old host.new result }
{
    let mut adapter = Adapter {
        session: Session::new(alloc),
    };
    serve_session(alloc, host, &mut adapter)
}
