//! The server over a host.

ghost use Rattle.mx_face.specs.Pages.{FaultsOnlyBy};

use mx_host::Host;
use mx_lsp::{Flow, Session, answer, new_session, no_header};
use mx_outcome::Outcome;
use mx_serve::{Bodies, Flow as Next, Reply, Session as Answering, serve as serve_session};
use mx_word::NoMemory;
use std::alloc::Global;

/// A session of the language server.
#[derive(Drop)]
struct Server {
    session: Session,
}

/// What the loop does after an answer.
fn next_after(flow: Flow) -> Next {
    match flow {
        Flow::Going => Next::Going,
        Flow::Ended(status) => Next::Ended(status),
    }
}

impl Answering for Server {
    fn answer(&mut self, alloc: Global, body: &[u8]) -> Result<Reply, NoMemory> {
        let mut bodies = Bodies::new(alloc);
        let flow = answer(alloc, &mut self.session, body, &mut bodies)?;
        Ok(Reply {
            flow: next_after(flow),
            bodies,
        })
    }

    fn refuse_header(&mut self, alloc: Global) -> Result<Reply, NoMemory> {
        let mut bodies = Bodies::new(alloc);
        let flow = no_header(alloc, &self.session, &mut bodies)?;
        Ok(Reply {
            flow: next_after(flow),
            bodies,
        })
    }

    /// The language server answers at once: it has no work that is left to do.
    fn go_on<H: Host>(&mut self, alloc: Global, _host: &mut H) -> Result<Reply, Outcome> {
        Ok(Reply {
            flow: Next::Going,
            bodies: Bodies::new(alloc),
        })
    }
}

/// Answers the messages of standard input on standard output, up to the message that ends the session or to the end of the input.
pub fn serve<H: Host>(alloc: Global, host: &mut H) -> Outcome
    ensures causes { FaultsOnlyBy H.told H.faults host.old host.new result }
{
    let mut server = Server {
        session: new_session(alloc),
    };
    serve_session(alloc, host, &mut server)
}
