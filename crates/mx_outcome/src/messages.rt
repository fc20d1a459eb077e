//! The line that prints an outcome.

ghost use Rattle.std.specs.Prelude.{IsTrue, ◌≡◌, ◌≢◌, ◌≤◌, ◌++◌, ◌<◌, OnOk, IfOk, OnErr, [], codes, decimal};
ghost use Rattle.mx_outcome.specs.Messages as spec;

use crate::names::{fault_name, usage_name};
use crate::outcome::Outcome;
use mx_text::{add_decimal, octa_hex};
use mx_word::{Bytes, NoMemory};
use mx_words::WordsFault;
use std::alloc::Global;

/// Adds the number and the name of a fault.
pub fn add_fault(text: &mut Bytes, number: u16) -> Result<(), NoMemory>
    ensures { OnOk result (text.new ≡ text.old ++ spec.numbered_fault number) }
{
    add_decimal(text, u64::from(number))?;
    text.extend(b" ")?;
    text.extend(fault_name(number).as_bytes())
}

/// Adds where a reference that waited is, if that is what a fault is about.
fn add_from(text: &mut Bytes, from_line: u32) -> Result<(), NoMemory>
    ensures { OnOk result (text.new ≡ text.old ++ spec.from_text from_line) }
{
    if from_line == 0 {
        return Ok(());
    }
    text.extend(b" from line ")?;
    add_decimal(text, u64::from(from_line))
}

fn usage_text(alloc: Global, fault: WordsFault) -> Result<Bytes, NoMemory>
    ensures { IfOk result (λ text. text ≡ spec.usage_text fault) }
{
    let mut text = Bytes::copy(alloc, b"usage fault ")?;
    add_decimal(&mut text, u64::from(fault.kind))?;
    text.extend(b" ")?;
    text.extend(usage_name(fault.kind).as_bytes())?;
    text.extend(b" at word ")?;
    add_decimal(&mut text, fault.word as u64)?;
    text.extend(b"\n")?;
    Ok(text)
}

fn format_refusal(alloc: Global, line: u32, fault: u16, from_line: u32) -> Result<Bytes, NoMemory>
    ensures { IfOk result (λ text. text ≡ spec.refused_text line fault from_line) }
{
    let mut text = Bytes::copy(alloc, b"line ")?;
    add_decimal(&mut text, u64::from(line))?;
    text.extend(b": ")?;
    add_fault(&mut text, fault)?;
    add_from(&mut text, from_line)?;
    text.extend(b"\n")?;
    Ok(text)
}

fn object_text(alloc: Global, place: u64, fault: u16) -> Result<Bytes, NoMemory>
    ensures { IfOk result (λ text. text ≡ spec.object_text place fault) }
{
    let mut text = Bytes::copy(alloc, b"byte ")?;
    add_decimal(&mut text, place)?;
    text.extend(b": ")?;
    add_fault(&mut text, fault)?;
    text.extend(b"\n")?;
    Ok(text)
}

fn schedule_text(alloc: Global, place: u64) -> Result<Bytes, NoMemory>
    ensures { IfOk result (λ text. text ≡ spec.schedule_text place) }
{
    let mut text = Bytes::copy(alloc, b"schedule byte ")?;
    add_decimal(&mut text, place)?;
    text.extend(b"\n")?;
    Ok(text)
}

fn format_stop(alloc: Global, pc: u64, reason: u16) -> Result<Bytes, NoMemory>
    ensures { IfOk result (λ text. text ≡ spec.stopped_text pc reason) }
{
    let mut text = Bytes::copy(alloc, &octa_hex(pc))?;
    text.extend(b": ")?;
    add_fault(&mut text, reason)?;
    text.extend(b"\n")?;
    Ok(text)
}

fn format_spent(alloc: Global, steps: u64) -> Result<Bytes, NoMemory>
    ensures { IfOk result (λ text. text ≡ decimal steps ++ codes " steps spent\n") }
{
    let mut text = Bytes::new(alloc);
    add_decimal(&mut text, steps)?;
    text.extend(b" steps spent\n")?;
    Ok(text)
}

/// The message line of an outcome, which is empty for a run that is done or was left. An empty line takes no memory.
pub fn message(alloc: Global, outcome: Outcome) -> Result<Bytes, NoMemory>
    ensures text { IfOk result (λ text. text ≡ spec.message_of outcome) }
    ensures memory { OnErr result (spec.message_of outcome ≢ []) }
{
    match outcome {
        Outcome::Done(_) | Outcome::Quit => Ok(Bytes::new(alloc)),
        Outcome::Usage(fault) => usage_text(alloc, fault),
        Outcome::NoFile => Bytes::copy(alloc, b"no file\n"),
        Outcome::HostFault => Bytes::copy(alloc, b"host fault\n"),
        Outcome::Refused {
            line,
            fault,
            from_line,
        } => format_refusal(alloc, line, fault, from_line),
        Outcome::BadObject { place, fault } => object_text(alloc, place, fault),
        Outcome::BadSchedule { place } => schedule_text(alloc, place),
        Outcome::Stopped { pc, reason } => format_stop(alloc, pc, reason),
        Outcome::StepsSpent { steps } => format_spent(alloc, steps),
        Outcome::ConsoleLimit => Bytes::copy(alloc, b"console limit\n"),
        Outcome::OutOfMemory => Bytes::copy(alloc, b"out of memory\n"),
    }
}
