//! What scopes have.

use crate::loaded::Loaded;
use mx_adapter::{Answer, number_at};
use mx_panes::list_variables;
use mx_wire::Values;
use mx_word::{Bytes, NoMemory};
use serde_json::Value;

impl Loaded {
    /// The rows of the local registers of a frame.
    fn local_rows(&mut self, frame: usize) -> Result<Option<Values>, NoMemory> {
        if frame == 0 {
            return Ok(Some(self.scene().local_rows()?));
        }
        self.note_calls()?;
        if self.frames().len() < frame {
            return Ok(None);
        }
        match self.outer_locals(frame)? {
            Some(values) => Ok(Some(self.scene().rows_of(values.as_slice())?)),
            None => Ok(None),
        }
    }

    /// The rows of a reference, if there is something with it.
    fn rows_at(&mut self, reference: u64) -> Result<Option<Values>, NoMemory> {
        match reference {
            2 => Ok(Some(self.scene().global_rows()?)),
            3 => Ok(Some(self.scene().special_rows()?)),
            4 => {
                self.note_calls()?;
                Ok(Some(self.scene().make_hidden_rows(self.frames())?))
            }
            5 => Ok(Some(self.scene().symbol_rows()?)),
            _ if reference % 8 == 1 && 9 <= reference => {
                let frame = reference.saturating_sub(9) / 8;
                let frame = usize::try_from(frame).unwrap_or(usize::MAX);
                self.local_rows(frame)
            }
            _ => Ok(None),
        }
    }

    /// Answers `variables`.
    pub(crate) fn variables(&mut self, message: &Value) -> Result<Answer, NoMemory> {
        let reference = number_at(message, "/arguments/variablesReference").unwrap_or(0);
        let Some(rows) = self.rows_at(reference)? else {
            let why = Bytes::copy(self.alloc, b"there is nothing with this reference")?;
            return Ok(Answer::Refused(why));
        };
        list_variables(self.alloc, &rows, message)
    }
}
