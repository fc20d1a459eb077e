//! All faults of a source, as a text.

ghost use Rattle.std.specs.Prelude.{◌≡◌, ◌++◌, IfOk, OnOk};
ghost use Rattle.std.specs.List.{flat_map};
ghost use Rattle.mx_view.specs.Listing.{refusal_in};
ghost use Rattle.mx_view.specs.Refusals as spec;

use crate::checking::{ToldFault, tell_faults};
use crate::view::Sheet;
use mx_files::Refusal;
use mx_marks::add_marks;
use mx_outcome::add_fault;
use mx_text::add_decimal;
use mx_word::{Bytes, NoMemory};
use std::alloc::Global;

/// Adds the line at fault, if there is one, and the marks below it.
#[tactic(auto, unfolding(crate::specs::Refusals::line_text))]
fn add_line(
    text: &mut Bytes,
    line: &Option<Bytes>,
    caret: Option<usize>,
    length: usize,
) -> Result<(), NoMemory>
    ensures { OnOk result (text.new ≡ text.old ++ spec.line_text line.now caret length) }
{
    let Some(line) = line else {
        return Ok(());
    };
    text.extend(b"    ")?;
    text.extend(line.as_slice())?;
    text.extend(b"\n")?;
    add_marks(text, line.as_slice(), caret, length)
}

/// Adds the front of a question.
#[tactic(auto, unfolding(crate::specs::Refusals::question))]
fn add_question(text: &mut Bytes) -> Result<(), NoMemory>
    ensures { OnOk result (text.new ≡ text.old ++ spec.question) }
{
    text.extend(b"    Did you mean `")
}

/// Adds a name that is meant perhaps.
fn add_meant(text: &mut Bytes, name: &[u8]) -> Result<(), NoMemory>
    ensures { OnOk result (text.new ≡ text.old ++ spec.meant_text name.now) }
{
    if name.is_empty() {
        return Ok(());
    }
    add_question(text)?;
    text.extend(name)?;
    text.extend(b"`?\n")
}

/// Adds what is said of a fault.
#[tactic(auto, unfolding(crate::specs::Refusals::said_text))]
fn add_said(text: &mut Bytes, fault: &ToldFault) -> Result<(), NoMemory>
    ensures { OnOk result (text.new ≡ text.old ++ spec.said_text fault.now) }
{
    text.extend(b"    ")?;
    text.extend(fault.what.as_slice())?;
    text.extend(b"\n")?;
    add_meant(text, fault.meant.as_slice())?;
    text.extend(b"    ")?;
    text.extend(fault.help.as_slice())?;
    text.extend(b"\n")
}

/// Adds the line of the label that does not suit a reference, if that is what a fault is about.
fn add_label(text: &mut Bytes, refused: Refusal) -> Result<(), NoMemory>
    ensures { OnOk result (text.new ≡ text.old ++ spec.label_text refused) }
{
    if refused.from_line == 0 {
        return Ok(());
    }
    text.extend(b" to line ")?;
    add_decimal(text, u64::from(refused.line))
}

/// Adds the number of the line at fault, and the number and the name of the fault.
#[tactic(auto, unfolding(crate::specs::Refusals::heading_text))]
fn add_heading(text: &mut Bytes, fault: &ToldFault) -> Result<(), NoMemory>
    ensures { OnOk result (text.new ≡ text.old ++ spec.heading_text fault.now) }
{
    text.extend(b"line ")?;
    add_decimal(text, u64::from(fault.at_line))?;
    text.extend(b": ")?;
    add_fault(text, fault.refused.fault)?;
    add_label(text, fault.refused)?;
    text.extend(b"\n")
}

/// Adds a fault, the line at fault and what is said of it.
fn add_fault_text(text: &mut Bytes, fault: &ToldFault) -> Result<(), NoMemory>
    ensures { OnOk result (text.new ≡ text.old ++ spec.fault_text fault.now) }
{
    add_heading(text, fault)?;
    add_line(text, &fault.line, fault.caret, fault.length)?;
    add_said(text, fault)
}

/// Adds faults and the lines at fault.
fn add_fault_texts(text: &mut Bytes, faults: &[ToldFault]) -> Result<(), NoMemory>
    ensures { OnOk result (text.new ≡ text.old ++ flat_map spec.fault_text faults.now) }
{
    for fault in faults {
        add_fault_text(text, fault)?;
    }
    Ok(())
}

/// Adds that there are more faulty lines, if there are.
fn add_cut(text: &mut Bytes, is_cut: bool) -> Result<(), NoMemory>
    ensures { OnOk result (text.new ≡ text.old ++ spec.cut_text is_cut) }
{
    if is_cut {
        text.extend(b"there are more faulty lines\n")
    } else {
        Ok(())
    }
}

/// All faults of a source as a text: each with its line, marks under what it is about, where that
/// is known, what is wrong, and how to fix it.
pub fn list_faults(alloc: Global, source: &[u8]) -> Result<Sheet, NoMemory>
    ensures text { IfOk result (λ sheet. sheet.text ≡ spec.faults_of source.now) }
    ensures refused { IfOk result (λ sheet. sheet.refused ≡ refusal_in source.now) }
{
    let told = tell_faults(alloc, source)?;
    let mut text = Bytes::new(alloc);
    add_fault_texts(&mut text, told.faults.as_slice())?;
    add_cut(&mut text, told.is_cut)?;
    Ok(Sheet {
        text,
        refused: told.refused,
    })
}
