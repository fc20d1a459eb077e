//! What is sent: responses and events, which are numbered from 1 in the order in which they are sent.

ghost use Rattle.std.specs.Prelude.{◌≡◌, ◌++◌, [], IfOk, OnErr, OnOk};
ghost use Rattle.mx_adapter.specs.Messages as spec;
ghost use Rattle.mx_adapter.specs.Numbers.{AreLast, front};

use crate::requests::Request;
use mx_json::{add_flag, add_number, add_string};
use mx_word::{Bytes, NoMemory, Sequence};
use std::alloc::Global;
use std::marker::Model;
use std::mem;

/// The bodies of messages.
pub type Bodies = Sequence<Bytes>;

/// What a request is answered: a body, which may be empty, or why it is refused.
#[derive(Drop)]
pub enum Answer {
    Done(Bytes),
    Refused(Bytes),
}

/// The messages that are to be sent next, and how many there were in all. They are numbered one after another.
#[derive(Drop)]
pub struct Outbox {
    alloc: Global,
    bodies: Bodies,
    count: u64,
}

impl Model for Outbox {
    ghost use Rattle.mx_adapter.specs.Numbers.{AreLast, Sent};

    ghost Value = { Sent };

    ghost view = { λ o. record { count = o.count; bodies = o.bodies } };

    ghost invariant = { λ o. AreLast o.count o.bodies };
}

/// Adds a member with the JSON text of its value, if there is one.
fn add_member(text: &mut Bytes, name: &[u8], value: &[u8]) -> Result<(), NoMemory>
    ensures { OnOk result (text.new ≡ text.old ++ spec.member name.now value.now) }
{
    match value {
        [] => Ok(()),
        [_, ..] => {
            text.extend(name)?;
            text.extend(value)
        }
    }
}

/// The beginning of a response.
#[tactic(auto, unfolding(crate::specs::Messages::response_open))]
fn response_open() -> &'static [u8]
    ensures { result.now ≡ spec.response_open }
{
    b",\"type\":\"response\",\"request_seq\":"
}

/// The member that says whether a request is carried out.
#[tactic(auto, unfolding(crate::specs::Messages::success_name))]
fn success_name() -> &'static [u8]
    ensures { result.now ≡ spec.success_name }
{
    b",\"success\":"
}

/// The member that names a request.
#[tactic(auto, unfolding(crate::specs::Messages::command_name))]
fn command_name() -> &'static [u8]
    ensures { result.now ≡ spec.command_name }
{
    b",\"command\":"
}

/// Adds which request a response is to, and whether that is carried out.
#[tactic(auto, unfolding(crate::specs::Messages::response_name))]
fn name_request(
    alloc: Global,
    text: &mut Bytes,
    seq: u64,
    is_done: bool,
    name: &[u8],
) -> Result<(), NoMemory>
    ensures { OnOk result (text.new ≡ text.old ++ spec.response_name seq is_done name.now) }
{
    add_number(text, response_open(), seq)?;
    add_flag(text, success_name(), is_done)?;
    add_string(alloc, text, command_name(), name)
}

/// Adds the response to a request that is carried out.
#[tactic(auto, unfolding(crate::specs::Messages::done))]
fn add_done(alloc: Global, text: &mut Bytes, request: &Request, body: &[u8]) -> Result<(), NoMemory>
    ensures { OnOk result (text.new ≡ text.old ++ spec.done request.now body.now) }
{
    name_request(alloc, text, request.seq, true, request.name.as_slice())?;
    add_member(text, b",\"body\":", body)?;
    text.extend(b"}")
}

/// The member that says why a request is refused.
#[tactic(auto, unfolding(crate::specs::Messages::message_name))]
fn message_name() -> &'static [u8]
    ensures { result.now ≡ spec.message_name }
{
    b",\"message\":"
}

/// The beginning of the body of a refusal.
#[tactic(auto, unfolding(crate::specs::Messages::refusal_open))]
fn refusal_open() -> &'static [u8]
    ensures { result.now ≡ spec.refusal_open }
{
    b",\"body\":{\"error\":{\"id\":1,\"format\":"
}

/// Adds the end of a refusal.
#[tactic(auto, unfolding(crate::specs::Messages::refusal_end))]
fn end_refusal(text: &mut Bytes) -> Result<(), NoMemory>
    ensures { OnOk result (text.new ≡ text.old ++ spec.refusal_end) }
{
    text.extend(b",\"showUser\":true}}}")
}

/// Adds the response to a request that is refused.
#[tactic(auto, unfolding(crate::specs::Messages::refused))]
fn add_refused(
    alloc: Global,
    text: &mut Bytes,
    request: &Request,
    why: &[u8],
) -> Result<(), NoMemory>
    ensures { OnOk result (text.new ≡ text.old ++ spec.refused request.now why.now) }
{
    name_request(alloc, text, request.seq, false, request.name.as_slice())?;
    add_string(alloc, text, message_name(), why)?;
    add_string(alloc, text, refusal_open(), why)?;
    end_refusal(text)
}

/// The beginning of an event.
#[tactic(auto, unfolding(crate::specs::Messages::event_open))]
fn event_open() -> &'static [u8]
    ensures { result.now ≡ spec.event_open }
{
    b",\"type\":\"event\",\"event\":"
}

/// Adds an event.
#[tactic(auto, unfolding(crate::specs::Messages::told))]
fn add_event(alloc: Global, text: &mut Bytes, event: &[u8], body: &[u8]) -> Result<(), NoMemory>
    ensures { OnOk result (text.new ≡ text.old ++ spec.told event.now body.now) }
{
    add_string(alloc, text, event_open(), event)?;
    add_member(text, b",\"body\":", body)?;
    text.extend(b"}")
}

/// The message with a number, after which this follows.
#[tactic(auto, unfolding(crate::specs::Numbers::front))]
fn with_number(alloc: Global, seq: u64, rest: &[u8]) -> Result<Bytes, NoMemory>
    ensures { IfOk result (λ body. body ≡ front seq ++ rest.now) }
{
    let mut body = Bytes::new(alloc);
    add_number(&mut body, b"{\"seq\":", seq)?;
    body.extend(rest)?;
    Ok(body)
}

impl Outbox {
    /// No message.
    pub fn new(alloc: Global) -> Outbox
        ensures { result ≡ record { count = 0; bodies = [] } }
    {
        Outbox {
            alloc,
            bodies: Bodies::new(alloc),
            count: 0,
        }
    }

    /// Adds the next message, of which this follows the number.
    #[tactic(auto, using(crate::proofs::Numbered::numbering))]
    fn add(&mut self, rest: &[u8]) -> Result<(), NoMemory>
        ensures ok { OnOk result (self.new ≡ spec.and_then self.old rest.now) }
        ensures err { OnErr result (self.new ≡ self.old) }
    {
        let Some(count) = self.count.checked_add(1) else {
            return Err(NoMemory);
        };
        let body = with_number(self.alloc, count, rest)?;
        self.bodies.push(body)?;
        self.count = count;
        Ok(())
    }

    /// Adds the response to a request that is refused.
    ///
    /// Errors: out of memory; then nothing is added, here and below.
    pub fn refuse(&mut self, request: &Request, why: &[u8]) -> Result<(), NoMemory>
        ensures ok { OnOk result (self.new ≡ spec.and_then self.old (spec.refused request.now why.now)) }
        ensures err { OnErr result (self.new ≡ self.old) }
    {
        let mut text = Bytes::new(self.alloc);
        add_refused(self.alloc, &mut text, request, why)?;
        self.add(text.as_slice())
    }

    /// Adds the response to a request that is carried out.
    fn respond(&mut self, request: &Request, body: &[u8]) -> Result<(), NoMemory>
        ensures ok { OnOk result (self.new ≡ spec.and_then self.old (spec.done request.now body.now)) }
        ensures err { OnErr result (self.new ≡ self.old) }
    {
        let mut text = Bytes::new(self.alloc);
        add_done(self.alloc, &mut text, request, body)?;
        self.add(text.as_slice())
    }

    /// Adds the response to a request.
    pub fn answer(&mut self, request: &Request, answer: &Answer) -> Result<(), NoMemory>
        ensures ok { OnOk result (self.new ≡ spec.and_then self.old (spec.answered request.now answer.now)) }
        ensures err { OnErr result (self.new ≡ self.old) }
    {
        match answer {
            Answer::Done(body) => self.respond(request, body.as_slice()),
            Answer::Refused(why) => self.refuse(request, why.as_slice()),
        }
    }

    /// Adds an event with this body, which may be empty.
    pub fn tell(&mut self, event: &[u8], body: &[u8]) -> Result<(), NoMemory>
        ensures ok { OnOk result (self.new ≡ spec.and_then self.old (spec.told event.now body.now)) }
        ensures err { OnErr result (self.new ≡ self.old) }
    {
        let mut text = Bytes::new(self.alloc);
        add_event(self.alloc, &mut text, event, body)?;
        self.add(text.as_slice())
    }

    /// Takes out the messages.
    pub fn take(&mut self) -> Bodies
        ensures bodies { result ≡ self.old.bodies }
        ensures numbered { AreLast self.old.count result }
        ensures left { self.new ≡ record { count = self.old.count; bodies = [] } }
    {
        mem::replace(&mut self.bodies, Bodies::new(self.alloc))
    }
}
