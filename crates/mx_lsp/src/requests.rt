//! Requests, and what they are answered.

ghost use Rattle.std.specs.Prelude.{◌≡◌, IfOk, option_copied};
ghost use Rattle.serde_json.specs.View.{view};
ghost use Rattle.mx_wire.specs.Replies.{result_body};
ghost use Rattle.mx_lsp.specs.Requests as spec;

use crate::documents::text_of;
use crate::lines::{Place, place_at};
use crate::message::{Method, Query, Showing, id_text, number_at, text_at, uri_of, wants_label};
use crate::session::{Session, Stage};
use mx_changes::{Change, formatting_of, rename};
use mx_hover::{completion, hover, signature};
use mx_references::{definition, highlights, name_range, outline, references};
use mx_wire::{Refused, refusal_of, result_of};
use mx_word::{Bytes, NoMemory};
use serde_json::Value;
use std::alloc::Global;

/// What the server offers: changes of a text come by ranges, and columns are units of UTF-16.
#[tactic(auto, unfolding(crate::specs::Requests::offers))]
fn offers() -> &'static [u8]
    ensures { result.now ≡ spec.offers }
{
    b"{\"capabilities\":{\"textDocumentSync\":{\"openClose\":true,\"change\":2},\"hoverProvider\":true,\"definitionProvider\":true,\"referencesProvider\":true,\"documentHighlightProvider\":true,\"renameProvider\":{\"prepareProvider\":true},\"documentSymbolProvider\":true,\"completionProvider\":{},\"signatureHelpProvider\":{\"triggerCharacters\":[\" \",\",\"]},\"documentFormattingProvider\":true},\"serverInfo\":{\"name\":\"mmixview\"}}"
}

/// The place that a message is about.
fn place_of_message(message: &Value, source: &[u8]) -> Place
    ensures line { result.line ≡ spec.line_in (view message.now) }
    ensures from { result.from ≡ spec.from_in (view message.now) source.now }
{
    let line = number_at(message, "/params/position/line");
    place_at(
        source,
        line,
        number_at(message, "/params/position/character"),
    )
}

/// What is shown, at a place of a text or of the whole.
fn result_at(
    alloc: Global,
    what: Showing,
    uri: &[u8],
    place: Place,
    has_labels: bool,
    source: &[u8],
) -> Result<Bytes, NoMemory>
    ensures { IfOk result (λ text. text
        ≡ spec.result_at what uri.now place.line place.from has_labels source.now) }
{
    match what {
        Showing::Hover => hover(alloc, place.line, place.from, source),
        Showing::Definition => definition(alloc, uri, place.line, place.from, source),
        Showing::References => references(alloc, uri, place.line, place.from, has_labels, source),
        Showing::Highlight => highlights(alloc, place.line, place.from, source),
        Showing::PrepareRename => name_range(alloc, place.line, place.from, source),
        Showing::Symbols => outline(alloc, source),
        Showing::Completion => completion(alloc, place.line, place.from, source),
        Showing::Signature => signature(alloc, place.line, place.from, source),
    }
}

/// The answer to a request that changes nothing of a text.
fn answer_showing(
    alloc: Global,
    id: &[u8],
    what: Showing,
    message: &Value,
    source: &[u8],
) -> Result<Bytes, NoMemory>
    ensures { IfOk result (λ body. body
        ≡ result_body id.now (spec.result_in what (view message.now) source.now)) }
{
    let place = place_of_message(message, source);
    let has_labels = wants_label(message);
    let result = result_at(alloc, what, uri_of(message), place, has_labels, source)?;
    result_of(alloc, id, result.as_slice())
}

/// The answer by a change that may be refused.
fn answer_change(alloc: Global, id: &[u8], change: &Change) -> Result<Bytes, NoMemory>
    ensures { IfOk result (λ body. spec.IsChangeAnswer id.now change.now body) }
{
    match change {
        Change::Done(result) => result_of(alloc, id, result.as_slice()),
        Change::Refused(why) => refusal_of(alloc, id, Refused::Failed, why.as_bytes()),
    }
}

/// The answer to a request that changes a name.
fn answer_rename(
    alloc: Global,
    id: &[u8],
    uri: &[u8],
    place: Place,
    name: &[u8],
    source: &[u8],
) -> Result<Bytes, NoMemory>
    ensures { IfOk result (λ body.
        spec.IsRenameAnswer id.now uri.now place.line place.from name.now source.now body) }
{
    let change = rename(alloc, uri, place.line, place.from, name, source)?;
    let body = answer_change(alloc, id, &change)?;
    Ok(body)
}

/// The answer to a request that changes the layout of a text.
fn answer_layout(alloc: Global, id: &[u8], source: &[u8]) -> Result<Bytes, NoMemory>
    ensures { IfOk result (λ body. spec.IsLayoutAnswer id.now source.now body) }
{
    let change = formatting_of(alloc, source)?;
    let body = answer_change(alloc, id, &change)?;
    Ok(body)
}

/// The answer to a request about a text.
fn answer_text(
    alloc: Global,
    id: &[u8],
    query: Query,
    message: &Value,
    source: &[u8],
) -> Result<Bytes, NoMemory>
    ensures { IfOk result (λ body.
        spec.IsTextAnswer id.now query (view message.now) source.now body) }
{
    match query {
        Query::Shows(what) => answer_showing(alloc, id, what, message, source),
        Query::Rename => {
            let place = place_of_message(message, source);
            let name = text_at(message, "/params/newName");
            answer_rename(alloc, id, uri_of(message), place, name, source)
        }
        Query::Formatting => answer_layout(alloc, id, source),
    }
}

/// The answer to a request about a text, if it is open.
fn answer_if(
    alloc: Global,
    id: &[u8],
    query: Query,
    message: &Value,
    text: Option<&[u8]>,
) -> Result<Bytes, NoMemory>
    ensures { IfOk result (λ body.
        spec.IsAnswerIf id.now query (view message.now) (option_copied text.entry) body) }
{
    match text {
        None => refusal_of(alloc, id, Refused::Failed, b"this text is not open"),
        Some(source) => answer_text(alloc, id, query, message, source),
    }
}

/// The answer to a request about the text that it names.
fn answer_query(
    alloc: Global,
    session: &Session,
    id: &[u8],
    query: Query,
    message: &Value,
) -> Result<Bytes, NoMemory>
    ensures { IfOk result (λ body.
        spec.IsQueryAnswer session.now id.now query (view message.now) body) }
{
    let text = text_of(session.documents.as_slice(), uri_of(message));
    answer_if(alloc, id, query, message, text)
}

/// The answer to what is no request.
fn refuse_method(alloc: Global, id: &[u8]) -> Result<Bytes, NoMemory>
    ensures { IfOk result (λ body. body ≡ spec.no_request id.now) }
{
    refusal_of(alloc, id, Refused::NoMethod, b"there is no such request")
}

/// The answer to a request that comes before `initialize` has come.
fn answer_waiting(alloc: Global, id: &[u8], method: Method) -> Result<Bytes, NoMemory>
    ensures { IfOk result (λ body. body ≡ spec.waiting_answer id.now method) }
{
    match method {
        Method::Initialize => result_of(alloc, id, offers()),
        _ => refusal_of(alloc, id, Refused::TooEarly, b"initialize has not come"),
    }
}

/// The answer to a request after `initialize` and before `shutdown`.
fn answer_serving(
    alloc: Global,
    session: &Session,
    id: &[u8],
    method: Method,
    message: &Value,
) -> Result<Bytes, NoMemory>
    ensures { IfOk result (λ body.
        spec.IsServingAnswer session.now id.now method (view message.now) body) }
{
    match method {
        Method::Initialize => {
            refusal_of(alloc, id, Refused::NoRequest, b"initialize has come before")
        }
        Method::Shutdown => result_of(alloc, id, b"null"),
        Method::Exit => refuse_method(alloc, id),
        Method::Tells(_) => refuse_method(alloc, id),
        Method::Asks(query) => answer_query(alloc, session, id, query, message),
        Method::Other => refuse_method(alloc, id),
    }
}

/// The answer to a request at a stage of the session.
fn answer_at(
    alloc: Global,
    stage: Stage,
    session: &Session,
    id: &[u8],
    method: Method,
    message: &Value,
) -> Result<Bytes, NoMemory>
    ensures { IfOk result (λ body.
        spec.IsAnswerAt stage session.now id.now method (view message.now) body) }
{
    match stage {
        Stage::Waiting => answer_waiting(alloc, id, method),
        Stage::Serving => answer_serving(alloc, session, id, method, message),
        Stage::Shut => refusal_of(alloc, id, Refused::NoRequest, b"the session is shut down"),
    }
}

/// The answer to a request with the text of its mark; where there was no memory, that.
#[tactic(auto, using(crate::proofs::Answering::answering))]
fn answer_marked(
    alloc: Global,
    session: &Session,
    id: &[u8],
    method: Method,
    message: &Value,
) -> Result<Bytes, NoMemory>
    ensures { IfOk result (λ body.
        spec.IsAnswerOf session.now id.now method (view message.now) body) }
{
    match answer_at(alloc, session.stage, session, id, method, message) {
        Ok(body) => Ok(body),
        Err(NoMemory) => {
            let body = refusal_of(alloc, id, Refused::NoMemory, b"out of memory")?;
            Ok(body)
        }
    }
}

/// The answer to a request, which carries its mark.
#[tactic(auto, using(crate::proofs::Answering::answering))]
pub(crate) fn answer_request(
    alloc: Global,
    session: &Session,
    id: &Value,
    method: Method,
    message: &Value,
) -> Result<Bytes, NoMemory>
    ensures { IfOk result (λ body.
        spec.IsAnswer session.now (view id.now) method (view message.now) body) }
{
    let text = id_text(alloc, id)?;
    let body = answer_marked(alloc, session, text.as_slice(), method, message)?;
    Ok(body)
}

/// How far a session comes by a request while it waits.
fn stage_from_waiting(method: Method) -> Stage
    ensures { result ≡ spec.stage_from_waiting method }
{
    match method {
        Method::Initialize => Stage::Serving,
        _ => Stage::Waiting,
    }
}

/// How far a session comes by a request that it serves.
fn stage_from_serving(method: Method) -> Stage
    ensures { result ≡ spec.stage_from_serving method }
{
    match method {
        Method::Shutdown => Stage::Shut,
        _ => Stage::Serving,
    }
}

/// How far a session comes by a request.
fn stage_after(stage: Stage, method: Method) -> Stage
    ensures { result ≡ spec.stage_after stage method }
{
    match stage {
        Stage::Waiting => stage_from_waiting(method),
        Stage::Serving => stage_from_serving(method),
        Stage::Shut => Stage::Shut,
    }
}

/// Takes note of `initialize` and of `shutdown`.
pub(crate) fn pass_request(session: &mut Session, method: Method)
    ensures { session.new ≡ spec.after_request session.old method }
{
    session.stage = stage_after(session.stage, method);
}
