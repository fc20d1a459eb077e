//! The calls that have not returned, as frames, and what each frame shows.

use crate::scene::Scene;
use crate::values::add_reference;
use mx_adapter::{Answer, number_at};
use mx_json::{add_number, add_string};
use mx_replay::Frame;
use mx_tell::add_label;
use mx_wire::{Values, add_array};
use mx_word::{Bytes, NoMemory};
use serde_json::Value;

/// The address at which a run is in a frame. Frames are counted from 0, the innermost first.
pub(crate) fn frame_address(frames: &[Frame], pc: u64, frame: usize) -> Option<u64> {
    if frame == 0 {
        return Some(pc);
    }
    let place = frames.len().checked_sub(frame)?;
    Some(frames.get(place)?.call)
}

/// How many registers are hidden by the calls around a frame, where so many are hidden in all.
pub fn depth_around(frames: &[Frame], depth: u64, frame: usize) -> u64 {
    let mut left = depth;
    for inner in frames.iter().rev().take(frame) {
        left = left.saturating_sub(inner.hides);
    }
    left
}

/// What is shown of a frame: the kinds of its scopes.
static SCOPES: [(&str, u64, &str); 4] = [
    ("Globals", 2, "registers"),
    ("Special", 3, "registers"),
    ("Hidden", 4, "registers"),
    ("Symbols", 5, "globals"),
];

/// The reference to the local registers of a frame.
pub fn locals_reference(frame: usize) -> u64 {
    (frame as u64).saturating_mul(8).saturating_add(9)
}

/// Adds a scope.
fn add_scope(text: &mut Bytes, name: &str, reference: u64, hint: &str) -> Result<(), NoMemory> {
    text.extend(b"{\"name\":\"")?;
    text.extend(name.as_bytes())?;
    text.extend(b"\",\"presentationHint\":\"")?;
    text.extend(hint.as_bytes())?;
    add_number(text, b"\",\"variablesReference\":", reference)?;
    if reference == 5 {
        text.extend(b",\"expensive\":true}")
    } else {
        text.extend(b",\"expensive\":false}")
    }
}

/// How many frames a request asks for.
fn levels_in(message: &Value) -> usize {
    match number_at(message, "/arguments/levels") {
        None | Some(0) => usize::MAX,
        Some(levels) => usize::try_from(levels).unwrap_or(usize::MAX),
    }
}

/// The frame that a request names by its number, if there is one.
fn frame_in(frames: &[Frame], message: &Value) -> Option<usize> {
    let id = number_at(message, "/arguments/frameId")?;
    let frame = usize::try_from(id.checked_sub(1)?).ok()?;
    if frame <= frames.len() {
        Some(frame)
    } else {
        None
    }
}

impl Scene<'_> {
    /// A frame in which the run is at an address.
    fn frame_row(&self, frame: usize, address: u64) -> Result<Bytes, NoMemory> {
        let mut text = Bytes::new(self.alloc);
        add_number(&mut text, b"{\"id\":", (frame as u64).saturating_add(1))?;
        let mut name = Bytes::new(self.alloc);
        add_label(&mut name, self.book, address)?;
        add_string(self.alloc, &mut text, b",\"name\":", name.as_slice())?;
        add_reference(&mut text, b",\"instructionPointerReference\":", address)?;
        if self.line_of(address).is_some() {
            self.add_line_members(&mut text, b",\"source\":", address)?;
        } else {
            text.extend(b",\"line\":0,\"column\":0,\"presentationHint\":\"subtle\"")?;
        }
        text.extend(b"}")?;
        Ok(text)
    }

    /// The frames from one on, this many or all.
    fn frame_rows(
        &self,
        frames: &[Frame],
        start: usize,
        levels: usize,
    ) -> Result<Values, NoMemory> {
        let mut rows = Values::new(self.alloc);
        let count = frames.len().saturating_add(1);
        let end = start.saturating_add(levels).min(count);
        for frame in start..end {
            if let Some(address) = frame_address(frames, self.machine.pc(), frame) {
                rows.push(self.frame_row(frame, address)?)?;
            }
        }
        Ok(rows)
    }

    /// Answers `stackTrace`, where all calls are known or none is asked for.
    pub fn stack_trace(
        &self,
        frames: Option<&[Frame]>,
        message: &Value,
    ) -> Result<Answer, NoMemory> {
        let start = number_at(message, "/arguments/startFrame").unwrap_or(0);
        let start = usize::try_from(start).unwrap_or(usize::MAX);
        let rows = self.frame_rows(frames.unwrap_or(&[]), start, levels_in(message))?;
        let mut text = Bytes::copy(self.alloc, b"{\"stackFrames\":")?;
        add_array(&mut text, rows.as_slice())?;
        if let Some(frames) = frames {
            let count = (frames.len() as u64).saturating_add(1);
            add_number(&mut text, b",\"totalFrames\":", count)?;
        }
        text.extend(b"}")?;
        Ok(Answer::Done(text))
    }

    /// The scopes of a frame.
    fn scope_rows(&self, frame: usize) -> Result<Bytes, NoMemory> {
        let mut text = Bytes::copy(self.alloc, b"{\"scopes\":[")?;
        add_scope(&mut text, "Locals", locals_reference(frame), "locals")?;
        for (name, reference, hint) in &SCOPES {
            text.extend(b",")?;
            add_scope(&mut text, name, *reference, hint)?;
        }
        text.extend(b"]}")?;
        Ok(text)
    }

    /// Answers `scopes`.
    pub fn scopes(&self, frames: &[Frame], message: &Value) -> Result<Answer, NoMemory> {
        match frame_in(frames, message) {
            Some(frame) => Ok(Answer::Done(self.scope_rows(frame)?)),
            None => Ok(Answer::Refused(Bytes::copy(self.alloc, b"there is no such frame")?)),
        }
    }
}
