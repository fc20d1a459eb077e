//! Breaks and watches as an editor is told of them.

use crate::scene::Scene;
use crate::values::add_reference;
use mx_adapter::{Answer, text_at};
use mx_ask::{cut_word, parse_number};
use mx_book::{Book, Thing};
use mx_json::{add_number, add_string};
use mx_places::resolve_for_display;
use mx_stops::{Place, followed};
use mx_tell::add_thing;
use mx_text::{add_decimal, octa_hex};
use mx_word::{Bytes, NoMemory};
use serde_json::Value;

/// The line of a break that is wanted; 0 where there is none.
pub fn line_wanted(wanted: &Value) -> u64 {
    match wanted.get("line") {
        None => 0,
        Some(line) => line.as_u64().unwrap_or(0),
    }
}

/// The offset of a break at an instruction.
pub fn offset_wanted(wanted: &Value) -> u64 {
    match wanted.get("offset") {
        None => 0,
        Some(offset) => offset.as_i64().unwrap_or(0).cast_unsigned(),
    }
}

/// The register at a place of the register stack, as the identifier of a watch has it: its number, `@`, and the place.
fn find_stacked_place(register: &[u8], place: &[u8]) -> Option<Place> {
    let [b'@', digits @ ..] = place else {
        return None;
    };
    let [b'$', number @ ..] = register else {
        return None;
    };
    Some(Place::Stacked {
        at: parse_number(digits)?,
        number: u8::try_from(parse_number(number)?).ok()?,
    })
}

/// The place that an identifier of a watch means, or a name of a variable.
pub fn find_watched_place(book: &Book, name: &[u8]) -> Option<Place> {
    match name.iter().position(|b| *b == b'@') {
        Some(i) => find_stacked_place(&name[..i], &name[i..]),
        None => find_named_place(book, name),
    }
}

/// The place that a name of a variable means: what `print` would show, where that is no number.
fn find_named_place(book: &Book, name: &[u8]) -> Option<Place> {
    match resolve_for_display(book, cut_word(name).0)? {
        Thing::Register(k) => Some(Place::Register(k)),
        Thing::Special(code) => Some(Place::Special(code)),
        Thing::Octa(a) => Some(Place::Octa(a)),
        Thing::Number(_) => None,
    }
}

impl Scene<'_> {
    /// The row of a break or watch that is not set.
    pub fn unset_row(&self, line: u64, why: &[u8]) -> Result<Bytes, NoMemory> {
        let mut text = Bytes::new(self.alloc);
        add_string(
            self.alloc,
            &mut text,
            b"{\"verified\":false,\"message\":",
            why,
        )?;
        if line != 0 {
            add_number(&mut text, b",\"line\":", line)?;
        }
        text.extend(b"}")?;
        Ok(text)
    }

    /// The row of a break that is set; `line` is the one that was asked for, or 0.
    pub fn break_row(&self, number: u32, address: u64, line: u64) -> Result<Bytes, NoMemory> {
        let mut text = Bytes::new(self.alloc);
        add_number(&mut text, b"{\"id\":", u64::from(number))?;
        text.extend(b",\"verified\":true")?;
        self.add_line_members(&mut text, b",\"source\":", address)?;
        add_reference(&mut text, b",\"instructionReference\":", address)?;
        if line != 0 && self.line_of(address) != Some(line) {
            text.extend(b",\"message\":\"moved to the next line that loads an instruction\"")?;
        }
        text.extend(b"}")?;
        Ok(text)
    }

    /// The row of a watch that is set.
    pub fn watch_row(&self, number: u32) -> Result<Bytes, NoMemory> {
        let mut text = Bytes::new(self.alloc);
        add_number(&mut text, b"{\"id\":", u64::from(number))?;
        text.extend(b",\"verified\":true}")?;
        Ok(text)
    }

    /// Adds the identifier of a watch of a place.
    fn add_data_name(&self, text: &mut Bytes, place: Place) -> Result<(), NoMemory> {
        match place {
            Place::Register(k) => {
                text.extend(b"$")?;
                add_decimal(text, u64::from(k))
            }
            Place::Stacked { at, number } => {
                text.extend(b"$")?;
                add_decimal(text, u64::from(number))?;
                text.extend(b"@")?;
                add_decimal(text, at)
            }
            Place::Special(code) => add_thing(text, self.book, Thing::Special(code)),
            Place::Octa(a) => {
                text.extend(b"M")?;
                text.extend(&octa_hex(a))
            }
        }
    }

    /// Answers `dataBreakpointInfo`.
    pub fn data_info(&self, message: &Value) -> Result<Answer, NoMemory> {
        let name = text_at(message, "/arguments/name").unwrap_or(b"");
        let mut text = Bytes::new(self.alloc);
        match find_watched_place(self.book, name) {
            None => text.extend(b"{\"dataId\":null,\"description\":\"this can't be watched\"}")?,
            Some(place) => self.add_data_info(&mut text, followed(self.machine, place))?,
        }
        Ok(Answer::Done(text))
    }

    /// Adds how a place can be watched. A register of the register stack is another one in the next session.
    fn add_data_info(&self, text: &mut Bytes, place: Place) -> Result<(), NoMemory> {
        let mut id = Bytes::new(self.alloc);
        self.add_data_name(&mut id, place)?;
        add_string(self.alloc, text, b"{\"dataId\":", id.as_slice())?;
        add_string(self.alloc, text, b",\"description\":", id.as_slice())?;
        text.extend(b",\"accessTypes\":[\"write\"],\"canPersist\":")?;
        match place {
            Place::Stacked { at: _, number: _ } => text.extend(b"false}"),
            Place::Register(_) | Place::Special(_) | Place::Octa(_) => text.extend(b"true}"),
        }
    }
}
