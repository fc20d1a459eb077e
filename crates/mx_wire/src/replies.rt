//! The forms of answers and notices.

ghost use Rattle.std.specs.Prelude.{◌≡◌, ◌++◌, IfOk, OnOk};
ghost use Rattle.mx_wire.specs.Replies as spec;

use mx_json::{add_between, add_string};
use mx_word::{Bytes, NoMemory};
use std::alloc::Global;

/// Why a request is refused.
#[derive(Clone, Copy)]
pub enum Refused {
    /// What came is no JSON.
    NoJson,
    /// The session has not begun.
    TooEarly,
    /// The session does not take such a request any more.
    NoRequest,
    /// There is no such request.
    NoMethod,
    /// There was no memory.
    NoMemory,
    /// What is asked for can't be done.
    Failed,
}

/// The number of a refusal, as the protocol has it.
#[tactic(auto, unfolding(crate::specs::Replies::number_of))]
fn number_of(refused: Refused) -> &'static [u8]
    ensures { result.now ≡ spec.number_of refused }
{
    match refused {
        Refused::NoJson => b"-32700",
        Refused::TooEarly => b"-32002",
        Refused::NoRequest => b"-32600",
        Refused::NoMethod => b"-32601",
        Refused::NoMemory => b"-32603",
        Refused::Failed => b"-32803",
    }
}

/// The beginning of an answer to the request with this mark.
#[tactic(auto, unfolding(crate::specs::Replies::answer_front))]
fn front(alloc: Global, id: &[u8]) -> Result<Bytes, NoMemory>
    ensures { IfOk result (λ body. body ≡ spec.answer_front id.now) }
{
    let mut body = Bytes::copy(alloc, b"{\"jsonrpc\":\"2.0\",\"id\":")?;
    body.extend(id)?;
    Ok(body)
}

/// The answer to a request, with this result.
#[tactic(auto, unfolding(crate::specs::Replies::result_body))]
pub fn result_of(alloc: Global, id: &[u8], value: &[u8]) -> Result<Bytes, NoMemory>
    ensures { IfOk result (λ body. body ≡ spec.result_body id.now value.now) }
{
    let mut body = front(alloc, id)?;
    add_between(&mut body, b",\"result\":", value, b"}")?;
    Ok(body)
}

/// Adds why a request is refused.
#[tactic(auto, unfolding(crate::specs::Replies::refusal))]
fn add_refusal(
    alloc: Global,
    body: &mut Bytes,
    refused: Refused,
    message: &[u8],
) -> Result<(), NoMemory>
    ensures { OnOk result (body.new ≡ body.old ++ spec.refusal refused message.now) }
{
    body.extend(b",\"error\":{\"code\":")?;
    body.extend(number_of(refused))?;
    add_string(alloc, body, b",\"message\":", message)?;
    body.extend(b"}}")
}

/// The answer to a request that is refused.
pub fn refusal_of(
    alloc: Global,
    id: &[u8],
    refused: Refused,
    message: &[u8],
) -> Result<Bytes, NoMemory>
    ensures { IfOk result (λ body. body ≡ spec.refusal_body id.now refused message.now) }
{
    let mut body = front(alloc, id)?;
    add_refusal(alloc, &mut body, refused, message)?;
    Ok(body)
}

/// Adds what is before the method of a notice.
#[tactic(auto, unfolding(crate::specs::Replies::notice_open))]
fn open_notice(body: &mut Bytes) -> Result<(), NoMemory>
    ensures { OnOk result (body.new ≡ body.old ++ spec.notice_open) }
{
    body.extend(b"{\"jsonrpc\":\"2.0\",\"method\":\"")
}

/// Adds what is between the method of a notice and its parameters.
#[tactic(auto, unfolding(crate::specs::Replies::params_name))]
fn add_params_name(body: &mut Bytes) -> Result<(), NoMemory>
    ensures { OnOk result (body.new ≡ body.old ++ spec.params_name) }
{
    body.extend(b"\",\"params\":")
}

/// Adds the beginning of a notice by this method, up to its parameters.
#[tactic(auto, unfolding(crate::specs::Replies::notice_front))]
pub fn add_notice(body: &mut Bytes, method: &[u8]) -> Result<(), NoMemory>
    ensures { OnOk result (body.new ≡ body.old ++ spec.notice_front method.now) }
{
    open_notice(body)?;
    body.extend(method)?;
    add_params_name(body)
}
