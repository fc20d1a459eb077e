//! What lines show and change.

ghost use Rattle.std.specs.Prelude.{◌≡◌, ◌≢◌, ◌++◌, ◌<◌, Err, IfOk, OnOk, OnErr};
ghost use Rattle.mx_core.specs.Way.Changed.{Changes};
ghost use Rattle.mx_core.specs.Kept.{state_of};
ghost use Rattle.mx_show.specs.Subjects as spec;

use crate::texts::{add_hex, octa_at};
use mx_cmd::{Subject, special_name};
use mx_core::{Machine, SetFault};
use mx_text::{Form, add_decimal, shown};
use mx_word::{Bytes, NoMemory};
use std::alloc::Global;

/// The line that shows a subject.
#[tactic(auto, unfolding(crate::specs::Subjects::shown_line))]
pub fn format_subject(
    alloc: Global,
    machine: &Machine,
    subject: Subject,
    form: Form,
) -> Result<Bytes, NoMemory>
    requires { spec.IsSound subject }
    ensures { IfOk result (λ text. text ≡ spec.shown_line (state_of machine.now) subject form) }
{
    let mut text = Bytes::new(alloc);
    add_subject(&mut text, subject)?;
    text.push(b'=')?;
    text.extend(shown(alloc, subject_value(machine, subject), form)?.as_slice())?;
    Ok(text)
}

/// Adds the name of a subject.
fn add_subject(text: &mut Bytes, subject: Subject) -> Result<(), NoMemory>
    requires { spec.IsSound subject }
    ensures { OnOk result (text.new ≡ text.old ++ spec.subject_text subject) }
{
    match subject {
        Subject::Register(n) => {
            text.push(b'$')?;
            add_decimal(text, n.unwrap_or(0))
        }
        Subject::Global(n) => {
            text.push(b'g')?;
            add_decimal(text, n.unwrap_or(0))
        }
        Subject::Special(code) => text.extend(special_name(code.unwrap_or(0)).as_bytes()),
        Subject::Memory(a) => {
            text.push(b'M')?;
            add_hex(text, a / 8 * 8)
        }
    }
}

/// The value of a subject.
fn subject_value(machine: &Machine, subject: Subject) -> u64
    requires { spec.IsSound subject }
    ensures { result ≡ spec.subject_value (state_of machine.now) subject }
{
    match subject {
        Subject::Register(n) | Subject::Global(n) => machine.register(n.unwrap_or(0) as u8),
        Subject::Special(code) => machine.special(code.unwrap_or(0)),
        Subject::Memory(a) => octa_at(machine, a),
    }
}

/// Gives a subject another value.
///
/// Errors: `NotAllowed` where that is refused, and out of memory; then nothing changed.
#[tactic(auto, unfolding(crate::specs::Subjects::subject_changed))]
pub fn set_subject(machine: &mut Machine, subject: Subject, value: u64) -> Result<(), SetFault>
    requires { spec.IsSound subject }
    ensures ok { result ≢ Err SetFault.OutOfMemory →
        Changes (λ s. spec.subject_changed s subject value) result machine.old machine.new }
    ensures err { OnErr result (state_of machine.new ≡ state_of machine.old) }
{
    match subject {
        Subject::Register(n) | Subject::Global(n) => {
            machine.set_register(n.unwrap_or(0) as u8, value)
        }
        Subject::Special(code) => machine.set_special(code.unwrap_or(0), value),
        Subject::Memory(a) => machine.set_octa(a, value),
    }
}
