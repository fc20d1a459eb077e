//! Requests.

ghost use Rattle.std.specs.Prelude.{◌≡◌, IfOk, IfSome, IsSome, IsUtf8, List, None, Some, true, ℕ, option_map};
ghost use Rattle.serde_json.specs.Read.{read as read_text};
ghost use Rattle.serde_json.specs.View.{view};
ghost use Rattle.mx_adapter.specs.Commands.{named};
ghost use Rattle.mx_adapter.specs.Requests as spec;
ghost use Rattle.mx_adapter.specs.Requests.{IsRequest};

use crate::commands::{Command, command_named};
use mx_word::{Bytes, NoMemory};
use serde_json::Value;
use std::alloc::Global;

/// A request: its number, its name, and what it asks for.
#[derive(Drop)]
pub struct Request {
    pub seq: u64,
    pub name: Bytes,
    pub command: Command,
}

/// Whether a message is a request by what it says that it is, or says nothing.
fn may_be_request(message: &Value) -> bool
    ensures { (name : List ℕ) → IsRequest name (view message.now) → result ≡ true }
{
    match message.get("type") {
        None => true,
        Some(kind) => matches!(kind.as_str(), Some("request")),
    }
}

/// The name that a message has for what is asked.
fn name_of(message: &Value) -> Option<&[u8]>
    ensures { option_map (λ name. name.now) result ≡ spec.name_of (view message.now) }
{
    Some(message.get("command")?.as_str()?.as_bytes())
}

/// The number of a message; 0 where it has none.
fn seq_of(message: &Value) -> u64
    ensures { result ≡ spec.seq_of (view message.now) }
{
    match message.get("seq") {
        None => 0,
        Some(seq) => seq.as_u64().unwrap_or(0),
    }
}

/// The value that a message writes in JSON, if it is JSON.
pub fn read_message(alloc: Global, body: &[u8]) -> Result<Option<Value>, NoMemory>
    ensures read { IfOk result (λ m. IfSome m (λ v. read_text body.now ≡ Some (view v))) }
    ensures none { IfOk result (λ m. m ≡ None → IsUtf8 body.now → read_text body.now ≡ None) }
{
    let Ok(text) = str::from_utf8(body) else {
        return Ok(None);
    };
    match Value::from_str(alloc, text) {
        Ok(message) => Ok(Some(message)),
        Err(e) => {
            if e.is_memory() {
                Err(NoMemory)
            } else {
                Ok(None)
            }
        }
    }
}

/// The request that a message is, if it is one.
pub fn read_request(alloc: Global, message: &Value) -> Result<Option<Request>, NoMemory>
    ensures asked { (name : List ℕ) → IsRequest name (view message.now) → IfOk result IsSome }
    ensures name { IfOk result (λ r. IfSome r (λ q. spec.name_of (view message.now) ≡ Some q.name)) }
    ensures command { IfOk result (λ r. IfSome r (λ q. q.command ≡ named q.name)) }
    ensures seq { IfOk result (λ r. IfSome r (λ q. q.seq ≡ spec.seq_of (view message.now))) }
{
    if !may_be_request(message) {
        return Ok(None);
    }
    let Some(name) = name_of(message) else {
        return Ok(None);
    };
    Ok(Some(Request {
        seq: seq_of(message),
        name: Bytes::copy(alloc, name)?,
        command: command_named(name),
    }))
}
