//! The calls that have not returned.

use crate::driving::find_outer_locals;
use crate::loaded::{Calls, Loaded};
use mx_adapter::{Answer, number_at};
use mx_panes::depth_around;
use mx_replay::Frame;
use mx_word::{NoMemory, Sequence};
use serde_json::Value;

/// Whether a request asks for the innermost frame alone.
fn is_for_innermost(message: &Value) -> bool {
    number_at(message, "/arguments/startFrame").unwrap_or(0) == 0
        && number_at(message, "/arguments/levels") == Some(1)
}

impl Loaded {
    /// The calls that have not returned at the step that is shown, the outermost one first.
    fn find_calls(&mut self) -> Result<Calls, NoMemory> {
        let at = self.step_number();
        match self.calls.take() {
            Some(calls) if calls.at == at => Ok(calls),
            _ => {
                let frames = self.debugged.replay.frames()?;
                Ok(Calls { at, frames })
            }
        }
    }

    /// Notes the calls at the step that is shown.
    pub(crate) fn note_calls(&mut self) -> Result<(), NoMemory> {
        let calls = self.find_calls()?;
        self.calls = Some(calls);
        Ok(())
    }

    /// The calls that were noted at the step that is shown; none where that was not done.
    pub(crate) fn frames(&self) -> &[Frame] {
        match &self.calls {
            Some(calls) if calls.at == self.step_number() => calls.frames.as_slice(),
            _ => &[],
        }
    }

    /// The local registers of a frame that is not the innermost one.
    pub(crate) fn outer_locals(&mut self, frame: usize) -> Result<Option<Sequence<u64>>, NoMemory> {
        let depth = self.debugged.replay.depth();
        let around = depth_around(self.frames(), depth, frame);
        find_outer_locals(&mut self.debugged, around)
    }

    /// Answers `stackTrace`. For the innermost frame alone the calls need not be known.
    pub(crate) fn stack_trace(&mut self, message: &Value) -> Result<Answer, NoMemory> {
        if is_for_innermost(message) {
            return self.scene().stack_trace(None, message);
        }
        self.note_calls()?;
        self.scene().stack_trace(Some(self.frames()), message)
    }

    /// Answers `scopes`.
    pub(crate) fn scopes(&mut self, message: &Value) -> Result<Answer, NoMemory> {
        if number_at(message, "/arguments/frameId") != Some(1) {
            self.note_calls()?;
        }
        self.scene().scopes(self.frames(), message)
    }
}
