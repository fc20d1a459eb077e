//! The word that shows lines of the program.

ghost use Rattle.std.specs.Prelude.{◌≡◌};

use crate::session::{Again, Session};
use crate::telling::add_said;
use mx_ask::{add_unnamed, parse_number};
use mx_book::Book;
use mx_places::parse_target;
use mx_tell::{add_instructions, add_lines, first_line_around};
use mx_word::{Bytes, NoMemory};

/// The line that a text names: by a number, or by the place of an instruction.
fn line_in(book: &Book, text: &[u8]) -> Option<u32> {
    if let Some(line) = parse_number(text) {
        return u32::try_from(line).ok();
    }
    book.line_at(parse_target(book, text)?.address)
}

/// The first of the lines that are shown: those near a place, those after the ones that were shown, or those near the instruction
/// that comes next.
fn first_line(book: &Book, pc: u64, again: Again, rest: &[u8]) -> Option<u32> {
    if !rest.is_empty() {
        return Some(first_line_around(line_in(book, rest)?));
    }
    match again.listed {
        Some(line) => u32::try_from(line).ok(),
        None => Some(first_line_around(book.line_at(pc)?)),
    }
}

/// The first address that is shown of an object.
fn first_address(book: &Book, pc: u64, again: Again, rest: &[u8]) -> Option<u64> {
    if !rest.is_empty() {
        return Some(parse_target(book, rest)?.address);
    }
    Some(again.listed.unwrap_or(pc))
}

impl Session {
    /// Notes where a further `list` goes on.
    fn note_listed(&mut self, next: u64)
        ensures { self.new ≡ self.old }
    {
        self.again = Again {
            listed: Some(next),
            ..self.again
        };
    }

    /// Shows the lines of a source.
    fn list_lines(&mut self, rest: &[u8], out: &mut Bytes) -> Result<(), NoMemory>
        ensures { self.new ≡ self.old }
    {
        let pc = self.replay.machine().pc();
        let Some(from) = first_line(&self.known.book, pc, self.again, rest) else {
            return add_unnamed(out, rest, b"? no line there");
        };
        let next = add_lines(out, &self.known.book, from, pc)?;
        if next == from {
            return add_said(out, b"? no more lines");
        }
        self.note_listed(u64::from(next));
        Ok(())
    }

    /// Shows the instructions of an object.
    fn list_instructions(&mut self, rest: &[u8], out: &mut Bytes) -> Result<(), NoMemory>
        ensures { self.new ≡ self.old }
    {
        let pc = self.replay.machine().pc();
        let Some(from) = first_address(&self.known.book, pc, self.again, rest) else {
            return add_unnamed(out, rest, b"? no instruction there");
        };
        let next = add_instructions(out, &self.known.book, self.replay.machine(), from, pc)?;
        self.note_listed(next);
        Ok(())
    }

    /// Obeys `list`.
    pub(crate) fn obey_list(&mut self, rest: &[u8], out: &mut Bytes) -> Result<(), NoMemory>
        ensures { self.new ≡ self.old }
    {
        if self.known.book.lines.as_slice().is_empty() {
            self.list_instructions(rest, out)
        } else {
            self.list_lines(rest, out)
        }
    }
}
