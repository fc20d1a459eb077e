//! The text of an object, which has no source: a line for each instruction that it loads.

use crate::disassembly::{add_code, has_label_at};
use crate::scene::Scene;
use mx_adapter::Answer;
use mx_json::add_string;
use mx_tell::add_label;
use mx_text::octa_hex;
use mx_word::{Bytes, NoMemory};

impl Scene<'_> {
    /// Adds the line of an instruction.
    fn add_text_line(&self, text: &mut Bytes, address: u64) -> Result<(), NoMemory> {
        text.extend(&octa_hex(address))?;
        text.extend(b"  ")?;
        if has_label_at(self.book, address) {
            add_label(text, self.book, address)?;
            text.extend(b": ")?;
        }
        add_code(text, self.book, self.machine, address)?;
        text.extend(b"\n")
    }

    /// The text of the instructions.
    fn object_text(&self) -> Result<Bytes, NoMemory> {
        let mut text = Bytes::new(self.alloc);
        for load in self.book.loads.as_slice() {
            if load.is_code {
                self.add_text_line(&mut text, load.address)?;
            }
        }
        Ok(text)
    }

    /// The text of the lines of a source.
    fn source_text(&self) -> Result<Bytes, NoMemory> {
        let mut text = Bytes::new(self.alloc);
        for line in self.book.lines.as_slice() {
            text.extend(line.as_slice())?;
            text.extend(b"\n")?;
        }
        Ok(text)
    }

    /// Answers `source`.
    pub fn source(&self) -> Result<Answer, NoMemory> {
        let content = if self.is_object() {
            self.object_text()?
        } else {
            self.source_text()?
        };
        let mut text = Bytes::new(self.alloc);
        add_string(self.alloc, &mut text, b"{\"content\":", content.as_slice())?;
        text.extend(b"}")?;
        Ok(Answer::Done(text))
    }

    /// Answers `loadedSources`.
    pub fn list_loaded_sources(&self) -> Result<Answer, NoMemory> {
        let mut text = Bytes::new(self.alloc);
        self.add_source(&mut text, b"{\"sources\":[")?;
        text.extend(b"]}")?;
        Ok(Answer::Done(text))
    }
}
