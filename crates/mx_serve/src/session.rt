//! What a server has to be told of its session.

ghost use Rattle.std.specs.Prelude.{ℕ};
ghost use Rattle.mx_face.specs.Pages.{PartFaultsOnlyBy};

use mx_host::Host;
use mx_outcome::Outcome;
use mx_word::{Bytes, NoMemory, Sequence};
use std::alloc::Global;

/// The bodies of messages.
pub type Bodies = Sequence<Bytes>;

/// What a session does next: it takes the next message, it has work to do before that, or it ends with a status.
#[derive(Clone, Copy)]
pub enum Flow {
    Going,
    Busy,
    Ended(u8),
}

/// The bodies that answer, and what the session does next.
#[derive(Drop)]
pub struct Reply {
    pub flow: Flow,
    pub bodies: Bodies,
}

/// A session that answers the bodies of frames.
pub trait Session {
    /// Answers a body.
    fn answer(&mut self, alloc: Global, body: &[u8]) -> Result<Reply, NoMemory>;

    /// Answers what is no header.
    fn refuse_header(&mut self, alloc: Global) -> Result<Reply, NoMemory>;

    /// Does a part of the work that is left to do, and tells of it.
    fn go_on<H: Host>(&mut self, alloc: Global, host: &mut H) -> Result<Reply, Outcome>
        ensures { PartFaultsOnlyBy H.told H.faults host.old host.new result };
}
