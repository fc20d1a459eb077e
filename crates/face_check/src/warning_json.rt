//! Warnings as JSON.

ghost use Rattle.std.specs.Prelude.{◌≡◌, ◌++◌, OnOk};
ghost use Rattle.mx_json.specs.Json.{array, further};
ghost use Rattle.face_check.specs.CheckPages as spec;

use crate::faults::next;
use crate::json::add_length;
use mx_json::{add_number, add_number_if, add_object, add_quoted, add_string};
use mx_warn::Warning;
use mx_word::{Bytes, NoMemory};
use std::alloc::Global;

/// The name of the number of a warning.
#[tactic(auto, unfolding(crate::specs::CheckPages::warning_name))]
fn warning_key() -> &'static [u8]
    ensures { result.now ≡ spec.warning_name }
{
    b",\"warning\":"
}

/// The name of the list of warnings.
#[tactic(auto, unfolding(crate::specs::CheckPages::warnings_name))]
fn warnings_name() -> &'static [u8]
    ensures { result.now ≡ spec.warnings_name }
{
    b",\"warnings\":"
}

/// Adds the line of a warning, its number and its name.
#[tactic(auto, unfolding(crate::specs::CheckPages::kind_members))]
fn add_kind(text: &mut Bytes, warning: &Warning) -> Result<(), NoMemory>
    ensures { OnOk result (text.new ≡ text.old ++ spec.kind_members warning.now) }
{
    add_number(text, b"\"line\":", u64::from(warning.line))?;
    add_number(text, warning_key(), u64::from(warning.kind.number()))?;
    add_quoted(text, b",\"name\":", warning.kind.name().as_bytes())
}

/// Adds the text of its line, the place of its caret, counted from 1, and how many bytes are marked.
#[tactic(auto, unfolding(crate::specs::CheckPages::text_members))]
fn add_text(alloc: Global, text: &mut Bytes, warning: &Warning) -> Result<(), NoMemory>
    ensures { OnOk result (text.new ≡ text.old ++ spec.text_members warning.now) }
{
    add_string(alloc, text, b",\"text\":", warning.text.as_slice())?;
    add_number(text, b",\"caret\":", next(warning.place as u64))?;
    add_length(text, warning.length)
}

/// The number of another line, if there is one.
#[tactic(auto, unfolding(crate::specs::CheckPages::other_line))]
fn other_line(line: u32) -> Option<u64>
    ensures { result ≡ spec.other_line line }
{
    if line == 0 {
        None
    } else {
        Some(u64::from(line))
    }
}

/// Adds the other line that a warning is about, if there is one, and its sentence.
#[tactic(auto, unfolding(crate::specs::CheckPages::sentence_members))]
fn add_sentence(alloc: Global, text: &mut Bytes, warning: &Warning) -> Result<(), NoMemory>
    ensures { OnOk result (text.new ≡ text.old ++ spec.sentence_members warning.now) }
{
    add_number_if(text, b",\"other\":", other_line(warning.other))?;
    add_string(
        alloc,
        text,
        b",\"what\":",
        warning.kind.sentence().as_bytes(),
    )
}

/// Adds a warning.
#[tactic(auto, unfolding(crate::specs::CheckPages::warning_json))]
fn add_warning(alloc: Global, text: &mut Bytes, warning: &Warning) -> Result<(), NoMemory>
    ensures { OnOk result (text.new ≡ text.old ++ spec.warning_json warning.now) }
{
    add_object(text, warning.text.as_slice())?;
    add_kind(text, warning)?;
    add_text(alloc, text, warning)?;
    add_sentence(alloc, text, warning)?;
    text.extend(b"}")
}

/// Adds further warnings.
fn add_more_warnings(alloc: Global, text: &mut Bytes, warnings: &[Warning]) -> Result<(), NoMemory>
    ensures { OnOk result (text.new ≡ text.old ++ further spec.warning_json warnings.now) }
{
    for warning in warnings {
        text.extend(b",")?;
        add_warning(alloc, text, warning)?;
    }
    Ok(())
}

/// Adds the member that has the warnings, if there are any.
#[tactic(auto, unfolding(crate::specs::CheckPages::warnings_member))]
pub(crate) fn add_warnings(
    alloc: Global,
    text: &mut Bytes,
    warnings: &[Warning],
) -> Result<(), NoMemory>
    ensures { OnOk result (text.new ≡ text.old ++ spec.warnings_member warnings.now) }
{
    match warnings {
        [] => Ok(()),
        [warning, more @ ..] => {
            text.extend(warnings_name())?;
            text.extend(b"[")?;
            add_warning(alloc, text, warning)?;
            add_more_warnings(alloc, text, more)?;
            text.extend(b"]")
        }
    }
}
