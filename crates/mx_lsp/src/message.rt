//! Messages that come.

ghost use Rattle.std.specs.Prelude.{◌≡◌, option_map, IfOk};
ghost use Rattle.serde_json.specs.Find.{pointer};
ghost use Rattle.serde_json.specs.Read.{read};
ghost use Rattle.serde_json.specs.View.{view};
ghost use Rattle.mx_lsp.specs.Messages as spec;

use mx_word::{Bytes, NoMemory};
use serde_json::Value;
use std::alloc::Global;

/// What a message tells of a text.
#[derive(Clone, Copy)]
pub(crate) enum Notice {
    DidOpen,
    DidChange,
    DidClose,
}

/// What a request asks to be shown, at a place of a text or of the whole.
#[derive(Clone, Copy)]
pub(crate) enum Showing {
    Hover,
    Definition,
    References,
    Highlight,
    PrepareRename,
    Symbols,
    Completion,
    Signature,
}

/// What a request asks for that is about a text: to be shown something, or a change.
#[derive(Clone, Copy)]
pub(crate) enum Query {
    Shows(Showing),
    Rename,
    Formatting,
}

/// What a message asks for or tells.
#[derive(Clone, Copy)]
pub(crate) enum Method {
    Initialize,
    Shutdown,
    Exit,
    Tells(Notice),
    Asks(Query),
    Other,
}

/// The method of this name, among those about a name or a whole text.
#[tactic(auto, unfolding(crate::specs::Messages::name_named))]
fn name_named(name: &[u8]) -> Method
    ensures { result ≡ spec.name_named name.now }
{
    if name == b"textDocument/prepareRename".as_slice() {
        Method::Asks(Query::Shows(Showing::PrepareRename))
    } else if name == b"textDocument/rename".as_slice() {
        Method::Asks(Query::Rename)
    } else if name == b"textDocument/documentSymbol".as_slice() {
        Method::Asks(Query::Shows(Showing::Symbols))
    } else if name == b"textDocument/completion".as_slice() {
        Method::Asks(Query::Shows(Showing::Completion))
    } else if name == b"textDocument/signatureHelp".as_slice() {
        Method::Asks(Query::Shows(Showing::Signature))
    } else if name == b"textDocument/formatting".as_slice() {
        Method::Asks(Query::Formatting)
    } else {
        Method::Other
    }
}

/// The method of this name, among those about a text.
#[tactic(auto, unfolding(crate::specs::Messages::place_named))]
fn place_named(name: &[u8]) -> Method
    ensures { result ≡ spec.place_named name.now }
{
    if name == b"textDocument/hover".as_slice() {
        Method::Asks(Query::Shows(Showing::Hover))
    } else if name == b"textDocument/definition".as_slice() {
        Method::Asks(Query::Shows(Showing::Definition))
    } else if name == b"textDocument/references".as_slice() {
        Method::Asks(Query::Shows(Showing::References))
    } else if name == b"textDocument/documentHighlight".as_slice() {
        Method::Asks(Query::Shows(Showing::Highlight))
    } else {
        name_named(name)
    }
}

/// The method of this name.
#[tactic(auto, unfolding(crate::specs::Messages::method_named))]
fn method_named(name: &[u8]) -> Method
    ensures { result ≡ spec.method_named name.now }
{
    if name == b"initialize".as_slice() {
        Method::Initialize
    } else if name == b"shutdown".as_slice() {
        Method::Shutdown
    } else if name == b"exit".as_slice() {
        Method::Exit
    } else if name == b"textDocument/didOpen".as_slice() {
        Method::Tells(Notice::DidOpen)
    } else if name == b"textDocument/didChange".as_slice() {
        Method::Tells(Notice::DidChange)
    } else if name == b"textDocument/didClose".as_slice() {
        Method::Tells(Notice::DidClose)
    } else {
        place_named(name)
    }
}

/// The method that a value names.
fn method_by(name: &Value) -> Option<Method>
    ensures { result ≡ spec.method_by (view name.now) }
{
    match name.as_str() {
        None => None,
        Some(name) => Some(method_named(name.as_bytes())),
    }
}

/// The method of a message; nothing where it is an answer, or no message.
pub(crate) fn method_of(message: &Value) -> Option<Method>
    ensures { result ≡ spec.method_of (view message.now) }
{
    match message.get("method") {
        None => None,
        Some(name) => method_by(name),
    }
}

/// The mark of a request, if a message is one.
pub(crate) fn id_of(message: &Value) -> Option<&Value>
    ensures { option_map (λ v. view v.now) result ≡ spec.id_of (view message.now) }
{
    message.get("id")
}

/// The text of the mark of a request.
#[tactic(auto, using(crate::proofs::Answering::marking))]
pub(crate) fn id_text(alloc: Global, id: &Value) -> Result<Bytes, NoMemory>
    ensures { IfOk result (λ text. spec.IsTextOf (view id.now) text) }
{
    let text = id.to_string(alloc)?;
    let copy = Bytes::copy(alloc, text.as_bytes())?;
    Ok(copy)
}

/// The value that a text writes in JSON, if it is JSON.
fn read_text(alloc: Global, text: &str) -> Result<Option<Value>, NoMemory>
    ensures { IfOk result (λ message. option_map view message ≡ read text.now) }
{
    match Value::from_str(alloc, text) {
        Ok(message) => Ok(Some(message)),
        Err(e) => {
            if e.is_memory() {
                Err(NoMemory)
            } else {
                Ok(None)
            }
        }
    }
}

/// The message that a body has, if it has one.
#[tactic(auto, using(crate::proofs::Answering::reading))]
pub(crate) fn read_message(alloc: Global, body: &[u8]) -> Result<Option<Value>, NoMemory>
    ensures { IfOk result (λ message. option_map view message ≡ spec.message_in body.now) }
{
    let Ok(text) = str::from_utf8(body) else {
        return Ok(None);
    };
    let message = read_text(alloc, text)?;
    Ok(message)
}

/// The bytes of a text; none where a value is no text.
pub(crate) fn text_of(value: &Value) -> &[u8]
    ensures { result.now ≡ spec.text_of (view value.now) }
{
    match value.as_str() {
        None => b"",
        Some(text) => text.as_bytes(),
    }
}

/// A text at a path of a message; no text where there is none.
pub(crate) fn text_at<'a>(message: &'a Value, path: &str) -> &'a [u8]
    ensures { result.now ≡ spec.text_at path.now (view message.now) }
{
    match message.pointer(path) {
        None => b"",
        Some(value) => text_of(value),
    }
}

/// A number; 0 where a value is none.
fn number_of(value: &Value) -> u64
    ensures { result ≡ spec.number_of (view value.now) }
{
    match value.as_u64() {
        None => 0,
        Some(number) => number,
    }
}

/// A number at a path of a message; 0 where there is none.
pub(crate) fn number_at(message: &Value, path: &str) -> u64
    ensures { result ≡ spec.number_at path.now (view message.now) }
{
    match message.pointer(path) {
        None => 0,
        Some(value) => number_of(value),
    }
}

/// The name of the text that a message is about.
pub(crate) fn uri_of(message: &Value) -> &[u8]
    ensures { result.now ≡ spec.uri_of (view message.now) }
{
    text_at(message, "/params/textDocument/uri")
}

/// Whether a flag is set, or no flag.
fn flag_of(value: &Value) -> bool
    ensures { result ≡ spec.flag_of (view value.now) }
{
    match value.as_bool() {
        None => true,
        Some(is) => is,
    }
}

/// Whether a message asks for the label, too.
pub(crate) fn wants_label(message: &Value) -> bool
    ensures { result ≡ spec.wants_label (view message.now) }
{
    match message.pointer("/params/context/includeDeclaration") {
        None => true,
        Some(value) => flag_of(value),
    }
}
