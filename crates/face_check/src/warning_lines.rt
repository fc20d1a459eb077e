//! Warnings as lines for editors.

ghost use Rattle.std.specs.Prelude.{◌≡◌, ◌++◌, OnOk};
ghost use Rattle.face_check.specs.CheckPages as spec;

use crate::columns::add_place_column;
use mx_json::{add_between, add_number};
use mx_warn::{Warning, add_other};
use mx_word::{Bytes, NoMemory};

/// Adds where the line of a warning is, and the column of its caret.
#[tactic(auto, unfolding(crate::specs::CheckPages::warning_place))]
fn add_place(text: &mut Bytes, name: &[u8], warning: &Warning) -> Result<(), NoMemory>
    ensures { OnOk result (text.new ≡ text.old ++ spec.warning_place name.now warning.now) }
{
    text.extend(name)?;
    add_number(text, b":", u64::from(warning.line))?;
    add_place_column(text, warning.text.as_slice(), warning.place)
}

/// Adds that this is a warning.
#[tactic(auto, unfolding(crate::specs::CheckPages::warning_mark))]
fn add_mark(text: &mut Bytes) -> Result<(), NoMemory>
    ensures { OnOk result (text.new ≡ text.old ++ spec.warning_mark) }
{
    text.extend(b": warning: ")
}

/// Adds the number, the name and the sentence of a warning, with the other line that it is about, if there is one.
#[tactic(auto, unfolding(crate::specs::CheckPages::warning_said))]
fn add_said(text: &mut Bytes, warning: &Warning) -> Result<(), NoMemory>
    ensures { OnOk result (text.new ≡ text.old ++ spec.warning_said warning.now) }
{
    add_number(text, b"", u64::from(warning.kind.number()))?;
    add_between(text, b" ", warning.kind.name().as_bytes(), b": ")?;
    text.extend(warning.kind.sentence().as_bytes())?;
    add_other(text, warning.other)
}

/// Adds a warning of the source in the file of this name.
#[tactic(auto, unfolding(crate::specs::CheckPages::warning_line))]
fn add_warning(text: &mut Bytes, name: &[u8], warning: &Warning) -> Result<(), NoMemory>
    ensures { OnOk result (text.new ≡ text.old ++ spec.warning_line name.now warning.now) }
{
    add_place(text, name, warning)?;
    add_mark(text)?;
    add_said(text, warning)?;
    text.extend(b"\n")
}

/// Adds the warnings of the source in the file of this name, each as a line.
#[tactic(auto, unfolding(crate::specs::CheckPages::warnings_lines))]
pub(crate) fn add_warnings(
    text: &mut Bytes,
    name: &[u8],
    warnings: &[Warning],
) -> Result<(), NoMemory>
    ensures { OnOk result (text.new ≡ text.old ++ spec.warnings_lines name.now warnings.now) }
{
    for warning in warnings {
        add_warning(text, name, warning)?;
    }
    Ok(())
}
