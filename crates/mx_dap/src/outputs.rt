//! What a program writes: it is told as it is made, and where one goes back over it, that it is taken back.

ghost use Rattle.std.specs.Prelude.{◌≡◌};

use crate::loaded::Loaded;
use mx_adapter::Outbox;
use mx_json::{add_quoted, add_string};
use mx_text::add_decimal;
use mx_word::{Bytes, NoMemory};
use std::alloc::Global;

/// How many bytes of the standard output and of the standard error were told, without those that were taken back.
#[derive(Clone, Copy)]
pub(crate) struct Told {
    pub(crate) output: usize,
    pub(crate) errors: usize,
}

/// Tells a text of a category.
pub(crate) fn tell_text(
    alloc: Global,
    out: &mut Outbox,
    category: &[u8],
    text: &[u8],
) -> Result<(), NoMemory> {
    let mut body = Bytes::new(alloc);
    add_quoted(&mut body, b"{\"category\":", category)?;
    add_string(alloc, &mut body, b",\"output\":", text)?;
    body.extend(b"}")?;
    out.tell(b"output", body.as_slice())
}

/// Tells that so many bytes are taken back to a step.
fn tell_taken_back(
    alloc: Global,
    out: &mut Outbox,
    name: &[u8],
    step: u64,
    count: usize,
) -> Result<(), NoMemory> {
    let mut text = Bytes::copy(alloc, name)?;
    text.extend(b" taken back to step ")?;
    add_decimal(&mut text, step)?;
    text.extend(b": ")?;
    add_decimal(&mut text, count as u64)?;
    text.extend(b" bytes\n")?;
    tell_text(alloc, out, b"console", text.as_slice())
}

/// A stream as it is told: its category, and its name where some of it is taken back.
#[derive(Clone, Copy)]
struct Stream {
    category: &'static str,
    name: &'static str,
}

/// Tells what was written of a stream beyond what was told, or how much of it is taken back.
fn tell_stream(
    alloc: Global,
    out: &mut Outbox,
    stream: Stream,
    written: &[u8],
    told: usize,
    step: u64,
) -> Result<(), NoMemory> {
    if told < written.len() {
        return tell_text(alloc, out, stream.category.as_bytes(), &written[told..]);
    }
    if written.len() < told {
        let count = told - written.len();
        return tell_taken_back(alloc, out, stream.name.as_bytes(), step, count);
    }
    Ok(())
}

impl Loaded {
    /// Counts all that was written up to the step that is shown as told.
    pub(crate) fn note_told(&mut self)
        ensures { self.new.debugged ≡ self.old.debugged }
    {
        let host = self.debugged.replay.host();
        self.told = Told {
            output: host.output().len(),
            errors: host.errors().len(),
        };
    }

    /// Tells what was written up to the step that is shown, or how much is taken back.
    pub(crate) fn tell_output(&mut self, out: &mut Outbox) -> Result<(), NoMemory>
        ensures { self.new.debugged ≡ self.old.debugged }
    {
        let step = self.step_number();
        let host = self.debugged.replay.host();
        let output = Stream {
            category: "stdout",
            name: "output",
        };
        let errors = Stream {
            category: "stderr",
            name: "errors",
        };
        tell_stream(
            self.alloc,
            out,
            output,
            host.output(),
            self.told.output,
            step,
        )?;
        tell_stream(
            self.alloc,
            out,
            errors,
            host.errors(),
            self.told.errors,
            step,
        )?;
        self.note_told();
        Ok(())
    }
}
