//! What is answered before the program that a request is about is looked at.

ghost use Rattle.std.specs.Prelude.{◌≡◌, IfOk, None};
ghost use Rattle.serde_json.specs.View.{view};
ghost use Rattle.mx_adapter.specs.Early as spec;
ghost use Rattle.mx_adapter.specs.Needs.{lack};

use crate::commands::Command;
use crate::needs::find_lack;
use crate::outbox::Answer;
use mx_word::{Bytes, NoMemory};
use serde_json::Value;
use std::alloc::Global;

/// What a request is: none that is known, one that always has this answer, or one about a program that is launched.
#[derive(Clone, Copy)]
enum RequestKind {
    Unknown,
    Always(&'static [u8]),
    AboutProgram,
}

/// What the adapter offers.
#[tactic(auto, unfolding(crate::specs::Early::offers))]
fn offers() -> &'static [u8]
    ensures { result.now ≡ spec.offers }
{
    b"{\"supportsConfigurationDoneRequest\":true,\"supportsFunctionBreakpoints\":true,\"supportsConditionalBreakpoints\":true,\"supportsEvaluateForHovers\":true,\"supportsStepBack\":true,\"supportsExceptionInfoRequest\":true,\"supportsDataBreakpoints\":true,\"supportsReadMemoryRequest\":true,\"supportsDisassembleRequest\":true,\"supportsInstructionBreakpoints\":true,\"supportsSteppingGranularity\":true,\"supportsTerminateRequest\":true,\"supportsCancelRequest\":true,\"supportsLoadedSourcesRequest\":true,\"supportsDelayedStackTraceLoading\":true}"
}

/// The only thread.
#[tactic(auto, unfolding(crate::specs::Early::one_thread))]
fn one_thread() -> &'static [u8]
    ensures { result.now ≡ spec.one_thread }
{
    b"{\"threads\":[{\"id\":1,\"name\":\"mmix\"}]}"
}

/// What a request is.
#[tactic(auto, unfolding(crate::specs::Early::kind_of))]
fn kind_of(command: Command) -> RequestKind
    ensures { spec.kind_by result ≡ spec.kind_of command }
{
    match command {
        Command::Other | Command::Launch => RequestKind::Unknown,
        Command::Initialize => RequestKind::Always(offers()),
        Command::Threads => RequestKind::Always(one_thread()),
        Command::SetExceptionBreakpoints
        | Command::Cancel
        | Command::Terminate
        | Command::Disconnect => RequestKind::Always(b""),
        _ => RequestKind::AboutProgram,
    }
}

/// A refusal.
pub fn make_refusal(alloc: Global, why: &[u8]) -> Result<Answer, NoMemory>
    ensures { IfOk result (λ answer. answer ≡ Answer.Refused why.now) }
{
    Ok(Answer::Refused(Bytes::copy(alloc, why)?))
}

/// A body, which may be empty.
pub fn make_done(alloc: Global, body: &[u8]) -> Result<Answer, NoMemory>
    ensures { IfOk result (λ answer. answer ≡ Answer.Done body.now) }
{
    Ok(Answer::Done(Bytes::copy(alloc, body)?))
}

/// Refuses a request that lacks an argument, if it does.
fn refuse_lacking(
    alloc: Global,
    command: Command,
    message: &Value,
) -> Result<Option<Answer>, NoMemory>
    ensures { IfOk result (λ answer. answer ≡ spec.unless_lacking (lack command (view message.now)) None) }
{
    match find_lack(alloc, command, message)? {
        Some(why) => Ok(Some(Answer::Refused(why))),
        None => Ok(None),
    }
}

/// Refuses a request that is not known.
#[tactic(auto, unfolding(crate::specs::Early::no_request))]
pub fn refuse_unknown(alloc: Global) -> Result<Answer, NoMemory>
    ensures { IfOk result (λ answer. answer ≡ Answer.Refused spec.no_request) }
{
    make_refusal(alloc, b"there is no such request")
}

/// Refuses a request about a program where none is launched.
#[tactic(auto, unfolding(crate::specs::Early::no_program))]
pub fn refuse_unlaunched(alloc: Global) -> Result<Answer, NoMemory>
    ensures { IfOk result (λ answer. answer ≡ Answer.Refused spec.no_program) }
{
    make_refusal(alloc, b"no program is launched")
}

/// The answer to a request by whether a program is launched, if it does not depend on that program: a refusal of what is not known,
/// of what needs a program where there is none, and of what lacks an argument; and what is always the same.
#[tactic(auto, unfolding(crate::specs::Early::early))]
pub fn answer_early(
    alloc: Global,
    is_launched: bool,
    command: Command,
    message: &Value,
) -> Result<Option<Answer>, NoMemory>
    ensures { IfOk result (λ answer. answer ≡ spec.early is_launched command (view message.now)) }
{
    match kind_of(command) {
        RequestKind::Unknown => Ok(Some(refuse_unknown(alloc)?)),
        RequestKind::AboutProgram if !is_launched => Ok(Some(refuse_unlaunched(alloc)?)),
        RequestKind::AboutProgram => refuse_lacking(alloc, command, message),
        RequestKind::Always(body) => match refuse_lacking(alloc, command, message)? {
            Some(answer) => Ok(Some(answer)),
            None => Ok(Some(make_done(alloc, body)?)),
        },
    }
}
