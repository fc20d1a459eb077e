//! The notices of what an editor is told.

ghost use Rattle.std.specs.Prelude.{◌≡◌, ◌++◌, [], IfOk, OnOk};
ghost use Rattle.mx_json.specs.Json.{array, further};
ghost use Rattle.mx_diagnostics.specs.Diagnostics as diagnostics;
ghost use Rattle.mx_diagnostics.specs.Published as spec;

use crate::diagnostic::{Diagnostic, Severity};
use crate::telling::tell;
use mx_json::{add_quoted, add_string};
use mx_wire::{add_notice, add_range};
use mx_word::{Bytes, NoMemory};
use std::alloc::Global;

/// Adds how severe it is.
#[tactic(auto, unfolding(crate::specs::Published::severity_json))]
fn add_severity(text: &mut Bytes, severity: Severity) -> Result<(), NoMemory>
    ensures { OnOk result (text.new ≡ text.old ++ spec.severity_json severity) }
{
    match severity {
        Severity::Error => text.extend(b",\"severity\":1"),
        Severity::Warning => text.extend(b",\"severity\":2"),
    }
}

/// Adds who tells it.
#[tactic(auto, unfolding(crate::specs::Published::source_json))]
fn add_source(text: &mut Bytes) -> Result<(), NoMemory>
    ensures { OnOk result (text.new ≡ text.old ++ spec.source_json) }
{
    text.extend(b",\"source\":\"mmixview\"")
}

/// Adds the short name.
#[tactic(auto, unfolding(crate::specs::Published::code_json))]
fn add_code(text: &mut Bytes, code: &[u8]) -> Result<(), NoMemory>
    ensures { OnOk result (text.new ≡ text.old ++ spec.code_json code.now) }
{
    add_quoted(text, b",\"code\":", code)
}

/// What is before what is wrong.
#[tactic(auto, unfolding(crate::specs::Published::message_name))]
fn message_name() -> &'static [u8]
    ensures { result.now ≡ spec.message_name }
{
    b",\"message\":"
}

/// Adds where it is, how severe it is, and its short name.
#[tactic(auto, unfolding(crate::specs::Published::place_json))]
fn add_place(text: &mut Bytes, d: &Diagnostic) -> Result<(), NoMemory>
    ensures { OnOk result (text.new ≡ text.old ++ spec.place_json d.now) }
{
    add_range(
        text,
        b"{\"range\":",
        d.number,
        d.line.as_slice(),
        d.from,
        d.to,
    )?;
    add_severity(text, d.severity)?;
    add_code(text, d.code.as_slice())
}

/// Adds who tells it, and what is wrong.
#[tactic(auto, unfolding(crate::specs::Published::said_json))]
fn add_said(alloc: Global, text: &mut Bytes, d: &Diagnostic) -> Result<(), NoMemory>
    ensures { OnOk result (text.new ≡ text.old ++ spec.said_json d.now) }
{
    add_source(text)?;
    add_string(alloc, text, message_name(), d.message.as_slice())?;
    text.extend(b"}")
}

/// Adds what one place is told of.
#[tactic(auto, unfolding(crate::specs::Published::diagnostic_json))]
fn add_diagnostic(alloc: Global, text: &mut Bytes, d: &Diagnostic) -> Result<(), NoMemory>
    ensures { OnOk result (text.new ≡ text.old ++ spec.diagnostic_json d.now) }
{
    add_place(text, d)?;
    add_said(alloc, text, d)
}

/// Adds further ones.
fn add_more(alloc: Global, text: &mut Bytes, told: &[Diagnostic]) -> Result<(), NoMemory>
    ensures { OnOk result (text.new ≡ text.old ++ further spec.diagnostic_json told.now) }
{
    for d in told {
        text.extend(b",")?;
        add_diagnostic(alloc, text, d)?;
    }
    Ok(())
}

/// Adds a list of them.
fn add_list(alloc: Global, text: &mut Bytes, told: &[Diagnostic]) -> Result<(), NoMemory>
    ensures { OnOk result (text.new ≡ text.old ++ array spec.diagnostic_json told.now) }
{
    match told {
        [] => text.extend(b"[]"),
        [d, more @ ..] => {
            text.extend(b"[")?;
            add_diagnostic(alloc, text, d)?;
            add_more(alloc, text, more)?;
            text.extend(b"]")
        }
    }
}

/// The method of the notice.
#[tactic(auto, unfolding(crate::specs::Published::method))]
fn method() -> &'static [u8]
    ensures { result.now ≡ spec.method }
{
    b"textDocument/publishDiagnostics"
}

/// Adds what is before the list.
#[tactic(auto, unfolding(crate::specs::Published::list_name))]
fn add_list_name(text: &mut Bytes) -> Result<(), NoMemory>
    ensures { OnOk result (text.new ≡ text.old ++ spec.list_name) }
{
    text.extend(b",\"diagnostics\":")
}

/// The notice that tells an editor this of the text of a name.
#[tactic(auto, unfolding(crate::specs::Published::notice))]
fn notice(alloc: Global, uri: &[u8], told: &[Diagnostic]) -> Result<Bytes, NoMemory>
    ensures { IfOk result (λ body. body ≡ spec.notice uri.now told.now) }
{
    let mut body = Bytes::new(alloc);
    add_notice(&mut body, method())?;
    add_string(alloc, &mut body, b"{\"uri\":", uri)?;
    add_list_name(&mut body)?;
    add_list(alloc, &mut body, told)?;
    body.extend(b"}}")?;
    Ok(body)
}

/// The notice of the faults and the warnings of a text with this name.
pub fn publish_faults(alloc: Global, uri: &[u8], source: &[u8]) -> Result<Bytes, NoMemory>
    ensures { IfOk result (λ body. body ≡ spec.notice uri.now (diagnostics.diagnostics_of source.now)) }
{
    let told = tell(alloc, source)?;
    notice(alloc, uri, told.as_slice())
}

/// The notice that a text with this name has none.
pub fn withdrawn(alloc: Global, uri: &[u8]) -> Result<Bytes, NoMemory>
    ensures { IfOk result (λ body. body ≡ spec.notice uri.now []) }
{
    notice(alloc, uri, &[])
}
