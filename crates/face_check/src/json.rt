//! Faults as JSON.

ghost use Rattle.std.specs.Prelude.{◌≡◌, ◌++◌, OnOk};
ghost use Rattle.mx_json.specs.Json.{array, further};
ghost use Rattle.face_check.specs.CheckPages as spec;

use crate::faults::next;
use crate::warning_json::add_warnings;
use mx_face::add_refusal_members;
use mx_json::{add_between, add_flag, add_number, add_object, add_string, add_string_if};
use mx_view::{ToldFault, ToldFaults};
use mx_warn::Warning;
use mx_word::{Bytes, NoMemory};
use std::alloc::Global;

/// Begins an object that has the text of a line, if there is one.
#[tactic(auto, unfolding(crate::specs::CheckPages::opened))]
fn open_object(text: &mut Bytes, line: &Option<Bytes>) -> Result<(), NoMemory>
    ensures { OnOk result (text.new ≡ text.old ++ spec.opened line.now) }
{
    match line {
        None => text.extend(b"{"),
        Some(line) => add_object(text, line.as_slice()),
    }
}

/// Adds the place of a caret, counted from 1.
#[tactic(auto, unfolding(crate::specs::CheckPages::caret_json))]
fn add_caret(text: &mut Bytes, front: &[u8], caret: Option<usize>) -> Result<(), NoMemory>
    ensures { OnOk result (text.new ≡ text.old ++ front.now ++ spec.caret_json caret) }
{
    match caret {
        None => add_between(text, front, b"null", b""),
        Some(place) => add_number(text, front, next(place as u64)),
    }
}

/// Begins a fault: the place of its caret.
#[tactic(auto, unfolding(crate::specs::CheckPages::fault_front))]
fn add_front(text: &mut Bytes, fault: &ToldFault) -> Result<(), NoMemory>
    ensures { OnOk result (text.new ≡ text.old ++ spec.fault_front fault.now) }
{
    open_object(text, &fault.line)?;
    add_caret(text, b"\"caret\":", fault.caret)
}

/// Adds the number of the line at fault.
#[tactic(auto, unfolding(crate::specs::CheckPages::line_member))]
fn add_line(text: &mut Bytes, line: u32) -> Result<(), NoMemory>
    ensures { OnOk result (text.new ≡ text.old ++ spec.line_member line) }
{
    add_number(text, b",\"at\":", u64::from(line))
}

/// Adds how many bytes of it are marked.
#[tactic(auto, unfolding(crate::specs::CheckPages::length_member))]
pub(crate) fn add_length(text: &mut Bytes, length: usize) -> Result<(), NoMemory>
    ensures { OnOk result (text.new ≡ text.old ++ spec.length_member length) }
{
    add_number(text, b",\"length\":", length as u64)
}

/// Adds the line at fault, and how many bytes of it are marked.
#[tactic(auto, unfolding(crate::specs::CheckPages::mark_members))]
fn add_mark(text: &mut Bytes, fault: &ToldFault) -> Result<(), NoMemory>
    ensures { OnOk result (text.new ≡ text.old ++ spec.mark_members fault.now) }
{
    add_line(text, fault.at_line)?;
    add_length(text, fault.length)
}

/// Adds what is wrong, which name is meant perhaps, and how to fix it.
#[tactic(auto, unfolding(crate::specs::CheckPages::said_members))]
fn add_said(alloc: Global, text: &mut Bytes, fault: &ToldFault) -> Result<(), NoMemory>
    ensures { OnOk result (text.new ≡ text.old ++ spec.said_members fault.now) }
{
    add_string(alloc, text, b",\"what\":", fault.what.as_slice())?;
    add_string(alloc, text, b",\"meant\":", fault.meant.as_slice())?;
    add_string(alloc, text, b",\"help\":", fault.help.as_slice())
}

/// Adds the text of the line at fault.
#[tactic(auto, unfolding(crate::specs::CheckPages::fault_text))]
fn add_text(alloc: Global, text: &mut Bytes, fault: &ToldFault) -> Result<(), NoMemory>
    ensures { OnOk result (text.new ≡ text.old ++ spec.fault_text fault.now) }
{
    add_string_if(alloc, text, b",\"text\":", &fault.line)
}

/// Ends a fault after the members of its refusal.
#[tactic(auto, unfolding(crate::specs::CheckPages::last_members))]
fn end_fault(alloc: Global, text: &mut Bytes, fault: &ToldFault) -> Result<(), NoMemory>
    ensures { OnOk result (text.new ≡ text.old ++ spec.last_members fault.now) }
{
    add_text(alloc, text, fault)?;
    add_mark(text, fault)?;
    add_said(alloc, text, fault)?;
    text.extend(b"}")
}

/// Adds a fault.
#[tactic(auto, unfolding(crate::specs::CheckPages::fault_json))]
fn add_fault(alloc: Global, text: &mut Bytes, fault: &ToldFault) -> Result<(), NoMemory>
    ensures { OnOk result (text.new ≡ text.old ++ spec.fault_json fault.now) }
{
    add_front(text, fault)?;
    text.extend(b",")?;
    add_refusal_members(text, fault.refused)?;
    end_fault(alloc, text, fault)
}

/// Adds further faults.
fn add_more_faults(alloc: Global, text: &mut Bytes, faults: &[ToldFault]) -> Result<(), NoMemory>
    ensures { OnOk result (text.new ≡ text.old ++ further spec.fault_json faults.now) }
{
    for fault in faults {
        text.extend(b",")?;
        add_fault(alloc, text, fault)?;
    }
    Ok(())
}

/// Adds a list of faults.
pub fn add_faults(alloc: Global, text: &mut Bytes, faults: &[ToldFault]) -> Result<(), NoMemory>
    ensures { OnOk result (text.new ≡ text.old ++ array spec.fault_json faults.now) }
{
    match faults {
        [] => text.extend(b"[]"),
        [fault, more @ ..] => {
            text.extend(b"[")?;
            add_fault(alloc, text, fault)?;
            add_more_faults(alloc, text, more)?;
            text.extend(b"]")
        }
    }
}

/// Begins the object that has faults.
#[tactic(auto, unfolding(crate::specs::CheckPages::faults_members))]
fn open_faults(alloc: Global, text: &mut Bytes, told: &ToldFaults) -> Result<(), NoMemory>
    ensures { OnOk result (text.new ≡ text.old ++ spec.faults_members told.now) }
{
    text.extend(b"{\"faults\":")?;
    add_faults(alloc, text, told.faults.as_slice())?;
    add_flag(text, b",\"more\":", told.is_cut)
}

/// Adds faults and warnings as a line of JSON.
#[tactic(auto, unfolding(crate::specs::CheckPages::check_json))]
pub fn add_check(
    alloc: Global,
    text: &mut Bytes,
    told: &ToldFaults,
    warnings: &[Warning],
) -> Result<(), NoMemory>
    ensures { OnOk result (text.new ≡ text.old ++ spec.check_json told.now warnings.now) }
{
    open_faults(alloc, text, told)?;
    add_warnings(alloc, text, warnings)?;
    text.extend(b"}\n")
}
