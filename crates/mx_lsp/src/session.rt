//! A session: the messages that come, and the answers to them.

ghost use Rattle.std.specs.Prelude.{◌≡◌, [], IfOk};
ghost use Rattle.serde_json.specs.View.{view};
ghost use Rattle.mx_lsp.specs.Sessions as spec;

use crate::documents::Documents;
use crate::message::{Method, id_of, method_of, read_message};
use crate::notifications::take_notice;
use crate::requests::{answer_request, pass_request};
use mx_wire::{Refused, refusal_of};
use mx_word::{Bytes, NoMemory, Sequence};
use serde_json::Value;
use std::alloc::Global;

/// The bodies of messages.
pub type Bodies = Sequence<Bytes>;

/// How far a session has come. (Language Server Protocol, "Server lifecycle".)
#[derive(Clone, Copy)]
pub enum Stage {
    /// `initialize` has not come.
    Waiting,
    /// Requests are carried out.
    Serving,
    /// `shutdown` has come.
    Shut,
}

/// The texts that are open, and how far the session has come.
#[derive(Drop)]
pub struct Session {
    pub documents: Documents,
    pub stage: Stage,
}

/// Whether a session goes on, or ends with a status.
#[derive(Clone, Copy, Debug, PartialEq, Eq)]
pub enum Flow {
    Going,
    Ended(u8),
}

/// A session before its first message.
pub fn new_session(alloc: Global) -> Session
    ensures documents { result.documents ≡ [] }
    ensures stage { result.stage ≡ Stage.Waiting }
{
    Session {
        documents: Documents::new(alloc),
        stage: Stage::Waiting,
    }
}

/// Answers a request.
#[tactic(auto, using(crate::proofs::Answering::taking))]
fn take_request(
    alloc: Global,
    session: &mut Session,
    id: &Value,
    method: Method,
    message: &Value,
    out: &mut Bodies,
) -> Result<Flow, NoMemory>
    ensures { IfOk result (λ flow. spec.IsAnswered session.old method (view id.now) (view message.now)
        session.new out.old out.new flow) }
{
    let body = answer_request(alloc, session, id, method, message)?;
    pass_request(session, method);
    out.push(body)?;
    Ok(Flow::Going)
}

/// Takes a message with a method.
fn take_method(
    alloc: Global,
    session: &mut Session,
    method: Method,
    message: &Value,
    out: &mut Bodies,
) -> Result<Flow, NoMemory>
    ensures { IfOk result (λ flow. spec.IsMethodTaken session.old method (view message.now)
        session.new out.old out.new flow) }
{
    match id_of(message) {
        None => take_notice(alloc, session, method, message, out),
        Some(id) => take_request(alloc, session, id, method, message, out),
    }
}

/// Takes a message.
fn take_message(
    alloc: Global,
    session: &mut Session,
    message: &Value,
    out: &mut Bodies,
) -> Result<Flow, NoMemory>
    ensures { IfOk result (λ flow.
        spec.IsTaken session.old (view message.now) session.new out.old out.new flow) }
{
    match method_of(message) {
        None => Ok(Flow::Going),
        Some(method) => take_method(alloc, session, method, message, out),
    }
}

/// Refuses what is no message, and ends.
fn refuse(alloc: Global, session: &Session, out: &mut Bodies) -> Result<Flow, NoMemory>
    ensures { IfOk result (λ flow. spec.IsRefused session.now session.now out.old out.new flow) }
{
    out.push(refusal_of(alloc, b"null", Refused::NoJson, b"this is no JSON")?)?;
    Ok(Flow::Ended(1))
}

/// Answers a message: adds the bodies of the answers, and says whether the session goes on.
pub fn answer(
    alloc: Global,
    session: &mut Session,
    body: &[u8],
    out: &mut Bodies,
) -> Result<Flow, NoMemory>
    ensures { IfOk result (λ flow.
        spec.IsBodyTaken session.old body.now session.new out.old out.new flow) }
{
    match read_message(alloc, body)? {
        None => refuse(alloc, session, out),
        Some(message) => take_message(alloc, session, &message, out),
    }
}

/// What is told of a header that is none.
pub fn no_header(alloc: Global, session: &Session, out: &mut Bodies) -> Result<Flow, NoMemory>
    ensures { IfOk result (λ flow. spec.IsRefused session.now session.now out.old out.new flow) }
{
    refuse(alloc, session, out)
}
