//! The breaks and watches that an editor sets.

use crate::driving::{add_break, add_watch, drop_stop};
use crate::loaded::{Loaded, Marked};
use mx_adapter::{Answer, list_at, text_at, text_in};
use mx_book::Book;
use mx_panes::{find_watched_place, line_wanted, offset_wanted, parse_reference};
use mx_places::{parse_condition, parse_target};
use mx_stops::{Condition, Place};
use mx_wire::{Values, add_array};
use mx_word::{Bytes, NoMemory, Sequence};
use serde_json::Value;
use std::mem;

/// The request that sets a break or a watch.
#[derive(Clone, Copy, Debug, PartialEq, Eq)]
pub(crate) enum Mark {
    Line,
    Function,
    Instruction,
    Data,
}

/// What is said of a break whose condition is none.
const NO_CONDITION: &[u8] = b"no condition: VALUE OP N, with OP ==, !=, <, <=, > or >=";

/// The condition of a break that is wanted, if it has one; nothing where that is no condition.
fn condition_of(book: &Book, wanted: &Value) -> Option<Option<Condition>> {
    match text_in(wanted, "condition") {
        None | Some(b"") => Some(None),
        Some(text) => Some(Some(parse_condition(book, text)?)),
    }
}

/// Whether a watch for writes is wanted.
fn is_for_writes(wanted: &Value) -> bool {
    match text_in(wanted, "accessType") {
        None => true,
        Some(access) => access == b"write".as_slice(),
    }
}

impl Loaded {
    /// Drops what a request has set before.
    fn drop_marks(&mut self, mark: Mark) -> Result<(), NoMemory> {
        let marks = mem::replace(&mut self.marks, Sequence::new(self.alloc));
        for marked in marks.as_slice() {
            if marked.mark == mark {
                drop_stop(&mut self.debugged, marked.number)?;
            } else {
                self.marks.push(*marked)?;
            }
        }
        Ok(())
    }

    /// Sets a break, and gives its row.
    fn set_break(
        &mut self,
        mark: Mark,
        wanted: &Value,
        address: u64,
        line: u64,
    ) -> Result<Bytes, NoMemory> {
        if self.wishes.no_debug {
            return self
                .scene()
                .unset_row(line, b"the program is run without breaks");
        }
        let Some(condition) = condition_of(&self.debugged.known.book, wanted) else {
            return self.scene().unset_row(line, NO_CONDITION);
        };
        let number = add_break(&mut self.debugged, address, condition)?;
        self.marks.push(Marked { number, mark })?;
        self.scene().break_row(number, address, line)
    }

    /// Sets a break on a line.
    fn set_on_line(&mut self, wanted: &Value) -> Result<Bytes, NoMemory> {
        let line = line_wanted(wanted);
        match self.scene().address_of_line(line) {
            Some(address) => self.set_break(Mark::Line, wanted, address, line),
            None => self
                .scene()
                .unset_row(line, b"no line from here on loads an instruction"),
        }
    }

    /// Sets a break at a label.
    fn set_on_function(&mut self, wanted: &Value) -> Result<Bytes, NoMemory> {
        let name = text_in(wanted, "name").unwrap_or(b"");
        match parse_target(&self.debugged.known.book, name) {
            Some(target) => self.set_break(Mark::Function, wanted, target.address, 0),
            None => self.scene().unset_row(0, b"there is no such label"),
        }
    }

    /// Sets a break at an instruction.
    fn set_on_instruction(&mut self, wanted: &Value) -> Result<Bytes, NoMemory> {
        let text = text_in(wanted, "instructionReference").unwrap_or(b"");
        match parse_reference(self.alloc, &self.debugged.known.book, text)? {
            Some(address) => {
                let address = address.wrapping_add(offset_wanted(wanted));
                self.set_break(Mark::Instruction, wanted, address, 0)
            }
            None => self.scene().unset_row(0, b"there is no such address"),
        }
    }

    /// Watches a place.
    fn set_watch(&mut self, place: Place) -> Result<Bytes, NoMemory> {
        let number = add_watch(&mut self.debugged, place)?;
        self.marks.push(Marked {
            number,
            mark: Mark::Data,
        })?;
        self.scene().watch_row(number)
    }

    /// Watches the place that a name means.
    fn set_on_data(&mut self, wanted: &Value) -> Result<Bytes, NoMemory> {
        if !is_for_writes(wanted) {
            return self
                .scene()
                .unset_row(0, b"only a change of the value is a stop");
        }
        if condition_of(&self.debugged.known.book, wanted) != Some(None) {
            return self.scene().unset_row(0, b"a watch has no condition");
        }
        let name = text_in(wanted, "dataId").unwrap_or(b"");
        match find_watched_place(&self.debugged.known.book, name) {
            Some(place) => {
                let followed = self.debugged.replay.follow(place);
                self.set_watch(followed)
            }
            None => self.scene().unset_row(0, b"there is no such place"),
        }
    }

    /// Sets what is wanted by a request.
    fn set_one(&mut self, mark: Mark, wanted: &Value) -> Result<Bytes, NoMemory> {
        match mark {
            Mark::Line => self.set_on_line(wanted),
            Mark::Function => self.set_on_function(wanted),
            Mark::Instruction => self.set_on_instruction(wanted),
            Mark::Data => self.set_on_data(wanted),
        }
    }

    /// Sets all that a request asks for, in place of what it has set before.
    pub(crate) fn set_marks(&mut self, mark: Mark, message: &Value) -> Result<Answer, NoMemory> {
        self.drop_marks(mark)?;
        let mut rows = Values::new(self.alloc);
        for wanted in list_at(message, "/arguments/breakpoints") {
            rows.push(self.set_one(mark, wanted)?)?;
        }
        self.marks_body(&rows)
    }

    /// The body of an answer with the rows of breaks.
    fn marks_body(&self, rows: &Values) -> Result<Answer, NoMemory> {
        let mut text = Bytes::copy(self.alloc, b"{\"breakpoints\":")?;
        add_array(&mut text, rows.as_slice())?;
        text.extend(b"}")?;
        Ok(Answer::Done(text))
    }

    /// The rows of breaks in another file.
    fn other_marks(&self, message: &Value) -> Result<Answer, NoMemory> {
        let mut rows = Values::new(self.alloc);
        for wanted in list_at(message, "/arguments/breakpoints") {
            let line = line_wanted(wanted);
            rows.push(
                self.scene()
                    .unset_row(line, b"this file is not the program that runs")?,
            )?;
        }
        self.marks_body(&rows)
    }

    /// Whether a request is about the source of the program.
    fn is_about_own_source(&self, message: &Value) -> bool {
        match text_at(message, "/arguments/source/path") {
            Some(path) => self.scene().is_own_path(path),
            None => self.scene().is_object(),
        }
    }

    /// Answers `setBreakpoints`.
    pub(crate) fn set_lines(&mut self, message: &Value) -> Result<Answer, NoMemory> {
        if self.is_about_own_source(message) {
            self.set_marks(Mark::Line, message)
        } else {
            self.other_marks(message)
        }
    }

    /// The request that has set a number, if one of the editor's has.
    pub(crate) fn mark_of(&self, number: u32) -> Option<Mark> {
        for marked in self.marks.as_slice() {
            if marked.number == number {
                return Some(marked.mark);
            }
        }
        None
    }
}
