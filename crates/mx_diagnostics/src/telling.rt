//! The faults and the warnings of a source.

ghost use Rattle.std.specs.Prelude.{◌≡◌, ◌++◌, IfOk, OnOk, length, map, take};
ghost use Rattle.mx_view.specs.Listing.{refusal_in};
ghost use Rattle.mx_warn.specs.Warnings.{warnings_of};
ghost use Rattle.mx_diagnostics.specs.Diagnostics as spec;

use crate::diagnostic::{Diagnostic, Diagnostics, Severity};
use mx_files::Refusal;
use mx_marks::line_text;
use mx_outcome::fault_name;
use mx_view::{ToldFault, tell_faults};
use mx_warn::{Warning, Warnings, tell_warnings_of};
use mx_wire::end_of;
use mx_word::{Bytes, NoMemory};
use std::alloc::Global;

/// The most bytes of a source.
const SOURCE_LIMIT: usize = 1 << 22;

/// The most faults that are told.
const MOST: usize = 20;

/// The fault of a source that is too long.
const TOO_LONG: u16 = 88;

/// Adds the front of a question.
#[tactic(auto, unfolding(crate::specs::Diagnostics::question))]
fn add_question(text: &mut Bytes) -> Result<(), NoMemory>
    ensures { OnOk result (text.new ≡ text.old ++ spec.question) }
{
    text.extend(b"\nDid you mean `")
}

/// Adds a name that is meant perhaps.
#[tactic(auto, unfolding(crate::specs::Diagnostics::meant_text))]
fn add_meant(text: &mut Bytes, name: &[u8]) -> Result<(), NoMemory>
    ensures { OnOk result (text.new ≡ text.old ++ spec.meant_text name.now) }
{
    if name.is_empty() {
        return Ok(());
    }
    add_question(text)?;
    text.extend(name)?;
    text.extend(b"`?")
}

/// What is said of a fault: what is wrong, which name is meant perhaps, and how to fix it.
#[tactic(auto, unfolding(crate::specs::Diagnostics::fault_message))]
fn fault_message(alloc: Global, fault: &ToldFault) -> Result<Bytes, NoMemory>
    ensures { IfOk result (λ text. text ≡ spec.fault_message fault.now) }
{
    let mut text = Bytes::copy(alloc, fault.what.as_slice())?;
    add_meant(&mut text, fault.meant.as_slice())?;
    text.extend(b"\n")?;
    text.extend(fault.help.as_slice())?;
    Ok(text)
}

/// Where the marked text of a fault begins, and where it ends; without one, the whole line.
fn fault_marks(caret: Option<usize>, length: usize, line: &[u8]) -> (usize, usize)
    ensures from { result.0 ≡ spec.fault_from caret }
    ensures to { result.1 ≡ spec.fault_to caret length line.now }
{
    match caret {
        None => (0, line.len()),
        Some(from) => (from, end_of(line, from, length)),
    }
}

/// A fault as an editor is told of it.
fn fault_diagnostic(alloc: Global, source: &[u8], fault: &ToldFault) -> Result<Diagnostic, NoMemory>
    ensures { IfOk result (λ d. d ≡ spec.fault_diagnostic source.now fault.now) }
{
    let line = line_text(fault.at_line, source);
    let (from, to) = fault_marks(fault.caret, fault.length, line);
    let message = fault_message(alloc, fault)?;
    let code = Bytes::copy(alloc, fault_name(fault.refused.fault).as_bytes())?;
    let line = Bytes::copy(alloc, line)?;
    Ok(Diagnostic {
        number: fault.at_line,
        line,
        from,
        to,
        severity: Severity::Error,
        code,
        message,
    })
}

/// A warning as an editor is told of it.
fn warning_diagnostic(alloc: Global, warning: &Warning) -> Result<Diagnostic, NoMemory>
    ensures { IfOk result (λ d. d ≡ spec.warning_diagnostic warning.now) }
{
    let message = Bytes::copy(alloc, warning.kind.sentence().as_bytes())?;
    let code = Bytes::copy(alloc, warning.kind.name().as_bytes())?;
    let line = Bytes::copy(alloc, warning.text.as_slice())?;
    Ok(Diagnostic {
        number: warning.line,
        line,
        from: warning.place,
        to: end_of(warning.text.as_slice(), warning.place, warning.length),
        severity: Severity::Warning,
        code,
        message,
    })
}

/// Adds faults.
fn add_faults(
    alloc: Global,
    told: &mut Diagnostics,
    source: &[u8],
    faults: &[ToldFault],
) -> Result<(), NoMemory>
    ensures { OnOk result (told.new ≡ told.old ++ map (spec.fault_diagnostic source.now) faults.now) }
{
    for fault in faults {
        told.push(fault_diagnostic(alloc, source, fault)?)?;
    }
    Ok(())
}

/// Adds warnings.
fn add_warnings(alloc: Global, told: &mut Diagnostics, warnings: &[Warning]) -> Result<(), NoMemory>
    ensures { OnOk result (told.new ≡ told.old ++ map spec.warning_diagnostic warnings.now) }
{
    for warning in warnings {
        told.push(warning_diagnostic(alloc, warning)?)?;
    }
    Ok(())
}

/// The first faults of a list.
#[tactic(auto, using(crate::proofs::Firsts::firsts))]
fn first_faults(faults: &[ToldFault]) -> &[ToldFault]
    ensures { result.now ≡ take 20 faults.now }
{
    if faults.len() > MOST {
        &faults[..MOST]
    } else {
        faults
    }
}

/// Whether there is no refusal.
fn is_absent(refused: Option<Refusal>) -> bool
    ensures { result ≡ spec.is_absent refused }
{
    match refused {
        None => true,
        Some(_) => false,
    }
}

/// The warnings of a source that is refused so when it is run: it is not assembled again to know whether it is.
#[tactic(auto, using(crate::proofs::Firsts::acceptance))]
fn warnings_after(
    alloc: Global,
    refused: Option<Refusal>,
    source: &[u8],
) -> Result<Warnings, NoMemory>
    requires { refused ≡ refusal_in source.now }
    ensures { IfOk result (λ told. told ≡ warnings_of source.now) }
{
    tell_warnings_of(alloc, is_absent(refused), source)
}

/// Adds the faults and the warnings of a source.
fn add_all(alloc: Global, told: &mut Diagnostics, source: &[u8]) -> Result<(), NoMemory>
    ensures { OnOk result (told.new ≡ told.old ++ spec.all_of source.now) }
{
    let found = tell_faults(alloc, source)?;
    add_faults(alloc, told, source, first_faults(found.faults.as_slice()))?;
    let warnings = warnings_after(alloc, found.refused, source)?;
    add_warnings(alloc, told, warnings.as_slice())
}

/// That a source is too long.
#[tactic(auto, unfolding(crate::specs::Diagnostics::too_long))]
fn too_long(alloc: Global) -> Result<Diagnostic, NoMemory>
    ensures { IfOk result (λ d. d ≡ spec.too_long) }
{
    let code = Bytes::copy(alloc, fault_name(TOO_LONG).as_bytes())?;
    let message = Bytes::copy(alloc, b"the source has more than 4194304 bytes")?;
    Ok(Diagnostic {
        number: 1,
        line: Bytes::new(alloc),
        from: 0,
        to: 0,
        severity: Severity::Error,
        code,
        message,
    })
}

/// What an editor is told of a source: its first faults, and its warnings; of one that is too long, that.
#[tactic(auto, unfolding(crate::specs::Diagnostics::diagnostics_of))]
pub fn tell(alloc: Global, source: &[u8]) -> Result<Diagnostics, NoMemory>
    ensures { IfOk result (λ told. told ≡ spec.diagnostics_of source.now) }
{
    let mut told = Diagnostics::new(alloc);
    if source.len() > SOURCE_LIMIT {
        told.push(too_long(alloc)?)?;
        return Ok(told);
    }
    add_all(alloc, &mut told, source)?;
    Ok(told)
}
