//! What a request needs: the arguments that the protocol requires.

ghost use Rattle.std.specs.Prelude.{◌≡◌, ◌++◌, IfOk, Some, map, option_map};
ghost use Rattle.serde_json.specs.View.{items_view, view};
ghost use Rattle.mx_adapter.specs.Needs as spec;
ghost use Rattle.mx_adapter.specs.Needs.{argument_of};

use crate::commands::Command;
use mx_json::add_number;
use mx_word::{Bytes, NoMemory};
use serde_json::Value;
use std::alloc::Global;

/// What an argument has to be: a number from 0 on, a text, a list, or an object.
#[derive(Clone, Copy)]
enum Kind {
    Number,
    Text,
    Array,
    Object,
}

/// An argument that is required: its name, and what it has to be.
#[derive(Clone, Copy)]
struct Need {
    name: &'static str,
    kind: Kind,
}

static ADAPTER: [Need; 1] = [Need {
    name: "adapterID",
    kind: Kind::Text,
}];

static SOURCE: [Need; 1] = [Need {
    name: "source",
    kind: Kind::Object,
}];

static BREAKPOINTS: [Need; 1] = [Need {
    name: "breakpoints",
    kind: Kind::Array,
}];

static FILTERS: [Need; 1] = [Need {
    name: "filters",
    kind: Kind::Array,
}];

static NAME: [Need; 1] = [Need {
    name: "name",
    kind: Kind::Text,
}];

static THREAD: [Need; 1] = [Need {
    name: "threadId",
    kind: Kind::Number,
}];

static FRAME: [Need; 1] = [Need {
    name: "frameId",
    kind: Kind::Number,
}];

static REFERENCE: [Need; 1] = [Need {
    name: "variablesReference",
    kind: Kind::Number,
}];

static EXPRESSION: [Need; 1] = [Need {
    name: "expression",
    kind: Kind::Text,
}];

static MEMORY: [Need; 2] = [
    Need {
        name: "memoryReference",
        kind: Kind::Text,
    },
    Need {
        name: "count",
        kind: Kind::Number,
    },
];

static INSTRUCTIONS: [Need; 2] = [
    Need {
        name: "memoryReference",
        kind: Kind::Text,
    },
    Need {
        name: "instructionCount",
        kind: Kind::Number,
    },
];

static SOURCE_REFERENCE: [Need; 1] = [Need {
    name: "sourceReference",
    kind: Kind::Number,
}];

static NONE: [Need; 0] = [];

static LINE: [Need; 1] = [Need {
    name: "line",
    kind: Kind::Number,
}];

static INSTRUCTION: [Need; 1] = [Need {
    name: "instructionReference",
    kind: Kind::Text,
}];

static DATA: [Need; 1] = [Need {
    name: "dataId",
    kind: Kind::Text,
}];

/// The arguments that a request needs. (Debug Adapter Protocol, "Requests".)
#[tactic(auto, unfolding(crate::specs::Needs::required))]
fn needs_of(command: Command) -> &'static [Need]
    ensures { map argument_of result.now ≡ spec.required command }
{
    match command {
        Command::Initialize => &ADAPTER,
        Command::SetBreakpoints => &SOURCE,
        Command::SetFunctionBreakpoints
        | Command::SetInstructionBreakpoints
        | Command::SetDataBreakpoints => &BREAKPOINTS,
        Command::SetExceptionBreakpoints => &FILTERS,
        Command::DataBreakpointInfo => &NAME,
        Command::ExceptionInfo
        | Command::Continue
        | Command::Next
        | Command::StepIn
        | Command::StepOut
        | Command::StepBack
        | Command::ReverseContinue
        | Command::Pause
        | Command::StackTrace => &THREAD,
        Command::Scopes => &FRAME,
        Command::Variables => &REFERENCE,
        Command::Evaluate => &EXPRESSION,
        Command::ReadMemory => &MEMORY,
        Command::Disassemble => &INSTRUCTIONS,
        Command::Source => &SOURCE_REFERENCE,
        Command::Launch
        | Command::ConfigurationDone
        | Command::Threads
        | Command::LoadedSources
        | Command::Cancel
        | Command::Terminate
        | Command::Disconnect
        | Command::Other => &NONE,
    }
}

/// What each breakpoint needs that a request sets. (Debug Adapter Protocol, "Types".)
#[tactic(auto, unfolding(crate::specs::Needs::required_of_each))]
fn needs_of_each(command: Command) -> &'static [Need]
    ensures { map argument_of result.now ≡ spec.required_of_each command }
{
    match command {
        Command::SetBreakpoints => &LINE,
        Command::SetFunctionBreakpoints => &NAME,
        Command::SetInstructionBreakpoints => &INSTRUCTION,
        Command::SetDataBreakpoints => &DATA,
        _ => &NONE,
    }
}

/// A value, unless it is `null`.
fn unless_null(value: &Value) -> Option<&Value>
    ensures { option_map (λ v. view v.now) result ≡ spec.unless_null (view value.now) }
{
    if value.is_null() { None } else { Some(value) }
}

/// What a value has under a name; nothing where that is `null`.
fn given<'a>(value: Option<&'a Value>, name: &'static str) -> Option<&'a Value>
    ensures { option_map (λ v. view v.now) result ≡ spec.given name.now (option_map (λ v. view v.now) value.entry) }
{
    unless_null(value?.get(name)?)
}

/// Whether a value is what it has to be.
fn is_of(kind: Kind, value: &Value) -> bool
    ensures { result ≡ spec.is_of kind (view value.now) }
{
    match kind {
        Kind::Number => value.is_u64(),
        Kind::Text => value.is_string(),
        Kind::Array => value.is_array(),
        Kind::Object => value.is_object(),
    }
}

/// What is said where something else is there.
fn other_than(kind: Kind) -> &'static [u8]
    ensures { result.now ≡ spec.other_than kind }
{
    match kind {
        Kind::Number => b" is no number from 0 on",
        Kind::Text => b" is no text",
        Kind::Array => b" is no list",
        Kind::Object => b" is no object",
    }
}

/// Says something of an argument.
fn say(alloc: Global, need: Need, what: &[u8]) -> Result<Option<Bytes>, NoMemory>
    ensures { IfOk result (λ text. text ≡ Some (need.name.now ++ what.now)) }
{
    let mut text = Bytes::copy(alloc, need.name.as_bytes())?;
    text.extend(what)?;
    Ok(Some(text))
}

/// Says that an argument is missing, or is something else, if it is.
fn find_unmet(alloc: Global, need: Need, value: Option<&Value>) -> Result<Option<Bytes>, NoMemory>
    ensures { IfOk result
        (λ text. text ≡ spec.unmet (argument_of need) (option_map (λ v. view v.now) value.entry)) }
{
    match given(value, need.name) {
        None => say(alloc, need, b" is missing"),
        Some(found) if is_of(need.kind, found) => Ok(None),
        Some(_) => say(alloc, need, other_than(need.kind)),
    }
}

/// Says which of some arguments is the first one that is not as it has to be, if there is one.
#[tactic(auto, using(crate::proofs::Lacking::lacking))]
fn find_first(
    alloc: Global,
    needs: &[Need],
    value: Option<&Value>,
) -> Result<Option<Bytes>, NoMemory>
    ensures { IfOk result
        (λ text. text ≡ spec.first_unmet (map argument_of needs.now) (option_map (λ v. view v.now) value.entry)) }
{
    for need in needs {
        if let Some(text) = find_unmet(alloc, *need, value)? {
            return Ok(Some(text));
        }
    }
    Ok(None)
}

/// Says of which breakpoint something is said.
#[tactic(auto, unfolding(crate::specs::Needs::said_of_each))]
fn say_of_each(alloc: Global, number: u64, said: &[u8]) -> Result<Bytes, NoMemory>
    ensures { IfOk result (λ text. text ≡ spec.said_of_each number said.now) }
{
    let mut text = Bytes::new(alloc);
    add_number(&mut text, b"breakpoints[", number)?;
    text.extend(b"].")?;
    text.extend(said)?;
    Ok(text)
}

/// Says what the breakpoint with a number lacks, if it lacks something.
fn find_in_one(
    alloc: Global,
    needs: &[Need],
    number: u64,
    part: &Value,
) -> Result<Option<Bytes>, NoMemory>
    ensures { IfOk result
        (λ text. text
        ≡ option_map (spec.said_of_each number) (spec.first_unmet (map argument_of needs.now) (Some (view part.now)))) }
{
    match find_first(alloc, needs, Some(part))? {
        None => Ok(None),
        Some(said) => Ok(Some(say_of_each(alloc, number, said.as_slice())?)),
    }
}

/// Says what the first of some breakpoints lacks that lacks something.
#[tactic(auto, using(crate::proofs::Lacking::lacking))]
fn find_in_each(alloc: Global, needs: &[Need], parts: &[Value]) -> Result<Option<Bytes>, NoMemory>
    ensures { IfOk result
        (λ text. text ≡ spec.first_unmet_of_each (map argument_of needs.now) 0 (items_view parts.now)) }
{
    for number in 0..parts.len() {
        if let Some(text) = find_in_one(alloc, needs, number as u64, &parts[number])? {
            return Ok(Some(text));
        }
    }
    Ok(None)
}

/// The breakpoints that a request sets.
fn breakpoints(message: &Value) -> &[Value]
    ensures { items_view result.now ≡ spec.breakpoints (view message.now) }
{
    let Some(arguments) = message.get("arguments") else {
        return &[];
    };
    let Some(list) = arguments.get("breakpoints") else {
        return &[];
    };
    match list.as_array() {
        None => &[],
        Some(parts) => parts.as_slice(),
    }
}

/// Says which of the arguments that the protocol requires a request lacks, if there is one: it is named, with what is
/// wrong.
#[tactic(auto, unfolding(crate::specs::Needs::lack))]
pub(crate) fn find_lack(
    alloc: Global,
    command: Command,
    message: &Value,
) -> Result<Option<Bytes>, NoMemory>
    ensures { IfOk result (λ text. text ≡ spec.lack command (view message.now)) }
{
    match find_first(alloc, needs_of(command), message.get("arguments"))? {
        Some(text) => Ok(Some(text)),
        None => find_in_each(alloc, needs_of_each(command), breakpoints(message)),
    }
}
