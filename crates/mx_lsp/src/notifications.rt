//! Notifications: texts that are opened, changed and closed, and the end.

ghost use Rattle.std.specs.Prelude.{◌≡◌, [], ◌∷◌, ◌++◌, IfOk, OnOk};
ghost use Rattle.serde_json.specs.View.{view};
ghost use Rattle.mx_diagnostics.specs.Diagnostics.{diagnostics_of};
ghost use Rattle.mx_diagnostics.specs.Published as notices;
ghost use Rattle.mx_lsp.specs.Sessions as spec;
ghost use Rattle.mx_lsp.specs.declared.message.Notice.TheVariants.{DidChange};

use crate::changes::text_after;
use crate::documents::{Documents, text_of, with_text, without};
use crate::message::{Method, Notice, text_at, uri_of};
use crate::session::{Bodies, Flow, Session, Stage};
use mx_diagnostics::{publish_faults, withdrawn};
use mx_word::{Bytes, NoMemory};
use serde_json::Value;
use std::alloc::Global;
use std::mem;

/// Takes a text as it is now, and tells its faults.
fn take_text(
    alloc: Global,
    session: &mut Session,
    uri: &[u8],
    text: &[u8],
    out: &mut Bodies,
) -> Result<(), NoMemory>
    ensures told { OnOk result (out.new ≡ out.old ++ notices.notice uri.now (diagnostics_of text.now) ∷ []) }
    ensures open { OnOk result (session.new ≡ spec.with_text session.old uri.now text.now) }
{
    let told = publish_faults(alloc, uri, text)?;
    let documents = mem::replace(&mut session.documents, Documents::new(alloc));
    session.documents = with_text(alloc, documents, uri, text)?;
    out.push(told)
}

/// Forgets a text, and tells that it has no faults.
fn close_text(
    alloc: Global,
    session: &mut Session,
    uri: &[u8],
    out: &mut Bodies,
) -> Result<(), NoMemory>
    ensures told { OnOk result (out.new ≡ out.old ++ notices.notice uri.now [] ∷ []) }
    ensures closed { OnOk result (session.new ≡ spec.without session.old uri.now) }
{
    let told = withdrawn(alloc, uri)?;
    let documents = mem::replace(&mut session.documents, Documents::new(alloc));
    session.documents = without(documents, uri);
    out.push(told)
}

/// What a message makes of a text, if the text is open.
fn text_by_change(
    alloc: Global,
    session: &Session,
    message: &Value,
) -> Result<Option<Bytes>, NoMemory>
    ensures { IfOk result (λ text. text ≡ spec.changed_text session.now (view message.now)) }
{
    match text_of(session.documents.as_slice(), uri_of(message)) {
        None => Ok(None),
        Some(text) => Ok(Some(text_after(alloc, text, message)?)),
    }
}

/// Changes a text that is open, and tells its faults.
fn change_text(
    alloc: Global,
    session: &mut Session,
    message: &Value,
    out: &mut Bodies,
) -> Result<(), NoMemory>
    ensures told { OnOk result (out.new
        ≡ out.old ++ spec.notices_of session.old DidChange (view message.now)) }
    ensures open { OnOk result (session.new ≡ spec.after_told session.old DidChange (view message.now)) }
{
    match text_by_change(alloc, session, message)? {
        None => Ok(()),
        Some(text) => take_text(alloc, session, uri_of(message), text.as_slice(), out),
    }
}

/// Takes what a message tells of a text.
fn take_told(
    alloc: Global,
    session: &mut Session,
    notice: Notice,
    message: &Value,
    out: &mut Bodies,
) -> Result<(), NoMemory>
    ensures told { OnOk result (out.new ≡ out.old ++ spec.notices_of session.old notice (view message.now)) }
    ensures session { OnOk result (session.new ≡ spec.after_told session.old notice (view message.now)) }
{
    match notice {
        Notice::DidOpen => {
            let text = text_at(message, "/params/textDocument/text");
            take_text(alloc, session, uri_of(message), text, out)
        }
        Notice::DidChange => change_text(alloc, session, message, out),
        Notice::DidClose => close_text(alloc, session, uri_of(message), out),
    }
}

/// Takes what a message tells of a text, at a stage of the session: nothing before `initialize` and after `shutdown`.
fn take_told_at(
    alloc: Global,
    stage: Stage,
    session: &mut Session,
    notice: Notice,
    message: &Value,
    out: &mut Bodies,
) -> Result<(), NoMemory>
    ensures told { OnOk result (out.new
        ≡ out.old ++ spec.notices_at stage session.old notice (view message.now)) }
    ensures session { OnOk result (session.new
        ≡ spec.after_told_at stage session.old notice (view message.now)) }
{
    match stage {
        Stage::Waiting => Ok(()),
        Stage::Serving => take_told(alloc, session, notice, message, out),
        Stage::Shut => Ok(()),
    }
}

/// Takes what a message tells, if it is about a text.
fn take_if_told(
    alloc: Global,
    session: &mut Session,
    method: Method,
    message: &Value,
    out: &mut Bodies,
) -> Result<(), NoMemory>
    ensures told { OnOk result (out.new
        ≡ out.old ++ spec.notices_by session.old method (view message.now)) }
    ensures session { OnOk result (session.new
        ≡ spec.after_notice session.old method (view message.now)) }
{
    match method {
        Method::Tells(notice) => take_told_at(alloc, session.stage, session, notice, message, out),
        _ => Ok(()),
    }
}

/// The status of a session that ends: 0 after `shutdown`, or else 1.
fn status_of(stage: Stage) -> u8
    ensures { result ≡ spec.status_of stage }
{
    match stage {
        Stage::Waiting => 1,
        Stage::Serving => 1,
        Stage::Shut => 0,
    }
}

/// Whether a session goes on after a notification.
fn flow_after(session: &Session, method: Method) -> Flow
    ensures { result ≡ spec.flow_after session.now method }
{
    match method {
        Method::Exit => Flow::Ended(status_of(session.stage)),
        _ => Flow::Going,
    }
}

/// Takes what a message tells that asks for no answer.
pub(crate) fn take_notice(
    alloc: Global,
    session: &mut Session,
    method: Method,
    message: &Value,
    out: &mut Bodies,
) -> Result<Flow, NoMemory>
    ensures { IfOk result (λ flow.
        spec.IsNoticed session.old method (view message.now) session.new out.old out.new flow) }
{
    let flow = flow_after(session, method);
    take_if_told(alloc, session, method, message, out)?;
    Ok(flow)
}
