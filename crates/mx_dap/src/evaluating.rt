//! What an editor asks by a text: the value of a name, or a word of the debugger.

use crate::loaded::Loaded;
use mx_adapter::{Answer, text_at};
use mx_ask::{Asked, Word, cut_form, cut_word, find_word, trim_end};
use mx_debug::Flow;
use mx_panes::result_body;
use mx_word::{Bytes, NoMemory};
use serde_json::Value;

/// Whether a text begins with a word of the debugger.
fn begins_with_word(text: &[u8]) -> bool {
    matches!(find_word(cut_form(cut_word(text).0).0), Asked::Word(_))
}

/// Whether a text begins with the word that leaves the debugger.
fn is_leave(text: &[u8]) -> bool {
    match find_word(cut_form(cut_word(text).0).0) {
        Asked::Word(row) => row.word == Word::Quit,
        Asked::Unknown | Asked::Ambiguous => false,
    }
}

/// What comes of a text: the answer, and whether another step is shown.
#[derive(Drop)]
pub(crate) struct Evaluated {
    pub(crate) answer: Answer,
    pub(crate) has_moved: bool,
}

impl Loaded {
    /// Obeys a line of the debugger. What it tells of the output counts as told.
    fn obey(&mut self, line: &[u8]) -> Result<Evaluated, NoMemory> {
        let before = self.step_number();
        let mut shown = Bytes::new(self.alloc);
        let _flow: Flow = self.debugged.obey(line, &mut shown)?;
        let has_moved = self.step_number() != before;
        if has_moved {
            self.note_told();
        }
        Ok(Evaluated {
            answer: Answer::Done(result_body(self.alloc, shown.as_slice(), None)?),
            has_moved,
        })
    }

    /// Answers a line of the console.
    fn evaluate_line(&mut self, line: &[u8]) -> Result<Evaluated, NoMemory> {
        if is_leave(line) {
            let why = Bytes::copy(self.alloc, b"the editor ends the session")?;
            return Ok(Evaluated {
                answer: Answer::Refused(why),
                has_moved: false,
            });
        }
        if begins_with_word(line) {
            return self.obey(line);
        }
        Ok(Evaluated {
            answer: self.scene().evaluate_name(line)?,
            has_moved: false,
        })
    }

    /// Answers `evaluate`.
    pub(crate) fn evaluate(&mut self, message: &Value) -> Result<Evaluated, NoMemory> {
        let text = trim_end(text_at(message, "/arguments/expression").unwrap_or(b""));
        let is_console = match text_at(message, "/arguments/context") {
            None => true,
            Some(context) => context == b"repl".as_slice(),
        };
        if is_console {
            return self.evaluate_line(text);
        }
        Ok(Evaluated {
            answer: self.scene().evaluate_name(text)?,
            has_moved: false,
        })
    }
}
