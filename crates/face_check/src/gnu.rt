//! Faults as lines for editors.

ghost use Rattle.std.specs.Prelude.{◌≡◌, ◌++◌, OnOk};
ghost use Rattle.std.specs.List.{flat_map};
ghost use Rattle.face_check.specs.CheckPages as spec;

use crate::columns::add_column;
use mx_json::{add_between, add_number};
use mx_outcome::fault_name;
use mx_view::{ToldFault, ToldFaults};
use mx_word::{Bytes, NoMemory};

/// Adds the front of a question.
#[tactic(auto, unfolding(crate::specs::CheckPages::question))]
fn add_question(text: &mut Bytes) -> Result<(), NoMemory>
    ensures { OnOk result (text.new ≡ text.old ++ spec.question) }
{
    text.extend(b" Did you mean `")
}

/// Adds a name that is meant perhaps.
fn add_meant(text: &mut Bytes, name: &[u8]) -> Result<(), NoMemory>
    ensures { OnOk result (text.new ≡ text.old ++ spec.meant_text name.now) }
{
    if name.is_empty() {
        return Ok(());
    }
    add_question(text)?;
    text.extend(name)?;
    text.extend(b"`?")
}

/// Adds the number and the name of a fault, and what is wrong.
#[tactic(auto, unfolding(crate::specs::CheckPages::what_text))]
fn add_what(text: &mut Bytes, fault: &ToldFault) -> Result<(), NoMemory>
    ensures { OnOk result (text.new ≡ text.old ++ spec.what_text fault.now) }
{
    add_number(text, b"", u64::from(fault.refused.fault))?;
    add_between(
        text,
        b" ",
        fault_name(fault.refused.fault).as_bytes(),
        b": ",
    )?;
    text.extend(fault.what.as_slice())
}

/// Adds what mends a fault.
#[tactic(auto, unfolding(crate::specs::CheckPages::help_text))]
fn add_help(text: &mut Bytes, help: &[u8]) -> Result<(), NoMemory>
    ensures { OnOk result (text.new ≡ text.old ++ spec.help_text help.now) }
{
    text.extend(b" ")?;
    text.extend(help)
}

/// Adds what is said of a fault.
#[tactic(auto, unfolding(crate::specs::CheckPages::sentence))]
fn add_sentence(text: &mut Bytes, fault: &ToldFault) -> Result<(), NoMemory>
    ensures { OnOk result (text.new ≡ text.old ++ spec.sentence fault.now) }
{
    add_what(text, fault)?;
    add_meant(text, fault.meant.as_slice())?;
    add_help(text, fault.help.as_slice())
}

/// Adds where a fault of the source in the file of this name is.
#[tactic(auto, unfolding(crate::specs::CheckPages::place_text))]
fn add_place(text: &mut Bytes, name: &[u8], fault: &ToldFault) -> Result<(), NoMemory>
    ensures { OnOk result (text.new ≡ text.old ++ spec.place_text name.now fault.now) }
{
    text.extend(name)?;
    add_number(text, b":", u64::from(fault.at_line))?;
    add_column(text, &fault.line, fault.caret)
}

/// Adds a fault of the source in the file of this name.
#[tactic(auto, unfolding(crate::specs::CheckPages::fault_line))]
fn add_fault(text: &mut Bytes, name: &[u8], fault: &ToldFault) -> Result<(), NoMemory>
    ensures { OnOk result (text.new ≡ text.old ++ spec.fault_line name.now fault.now) }
{
    add_place(text, name, fault)?;
    text.extend(b": error: ")?;
    add_sentence(text, fault)?;
    text.extend(b"\n")
}

/// Adds faults.
fn add_faults(text: &mut Bytes, name: &[u8], faults: &[ToldFault]) -> Result<(), NoMemory>
    ensures { OnOk result (text.new ≡ text.old ++ flat_map (spec.fault_line name.now) faults.now) }
{
    for fault in faults {
        add_fault(text, name, fault)?;
    }
    Ok(())
}

/// Adds that there are more faulty lines.
#[tactic(auto, unfolding(crate::specs::CheckPages::cut_line))]
fn add_cut(text: &mut Bytes, name: &[u8], cut: bool) -> Result<(), NoMemory>
    ensures { OnOk result (text.new ≡ text.old ++ spec.cut_line name.now cut) }
{
    if cut {
        text.extend(name)?;
        return text.extend(b": there are more faulty lines\n");
    }
    Ok(())
}

/// Adds the faults of the source in the file of this name, each as a line.
#[tactic(auto, unfolding(crate::specs::CheckPages::faults_lines))]
pub fn add_lines(text: &mut Bytes, name: &[u8], told: &ToldFaults) -> Result<(), NoMemory>
    ensures { OnOk result (text.new ≡ text.old ++ spec.faults_lines name.now told.now) }
{
    add_faults(text, name, told.faults.as_slice())?;
    add_cut(text, name, told.is_cut)
}
