//! A step of a run as an editor is shown it, and where an instruction is: its source, and its line.

use mx_book::{Book, Load};
use mx_core::Machine;
use mx_json::{add_number, add_string};
use mx_word::{Bytes, NoMemory};
use std::alloc::Global;

/// A step of a run: what is known of the program by name, its machine, and the path under which the editor knows the program.
#[derive(Clone, Copy)]
pub struct Scene<'a> {
    pub alloc: Global,
    pub book: &'a Book,
    pub machine: &'a Machine,
    pub path: &'a [u8],
}

/// The path without the folders in front of it.
fn base_name(path: &[u8]) -> &[u8] {
    let count = path.iter().rev().take_while(|b| **b != b'/').count();
    path.split_at(path.len().saturating_sub(count)).1
}

/// Whether a path ends with another one, from one of its folders on.
fn ends_with_path(path: &[u8], end: &[u8]) -> bool {
    match path.strip_suffix(end) {
        None => false,
        Some([]) => true,
        Some([.., last]) => *last == b'/',
    }
}

/// The line that the instruction at an address has in the text of an object, which has a line for each instruction.
fn line_in_text(loads: &[Load], address: u64) -> Option<u64> {
    let mut line = 0u64;
    for load in loads {
        if load.is_code {
            line = line.saturating_add(1);
            if load.address == address {
                return Some(line);
            }
        }
    }
    None
}

/// The address of the instruction that has a line in the text of an object.
fn address_in_text(loads: &[Load], wanted: u64) -> Option<u64> {
    let mut line = 0u64;
    for load in loads {
        if load.is_code {
            line = line.saturating_add(1);
            if line == wanted {
                return Some(load.address);
            }
        }
    }
    None
}

impl Scene<'_> {
    /// Whether the program is an object, which has no lines.
    pub fn is_object(&self) -> bool {
        self.book.lines.as_slice().is_empty()
    }

    /// Whether a path is that of the program.
    pub fn is_own_path(&self, path: &[u8]) -> bool {
        let own = self.path;
        ends_with_path(own, path) || ends_with_path(path, own)
    }

    /// The line of an instruction: that of its source; of an object that in the text of its instructions.
    pub fn line_of(&self, address: u64) -> Option<u64> {
        if !self.is_object() {
            return match self.book.line_at(address) {
                Some(line) => Some(u64::from(line)),
                None => None,
            };
        }
        line_in_text(self.book.loads.as_slice(), address / 4 * 4)
    }

    /// The address of the first instruction of the first line, from this one on, that has one.
    pub fn address_of_line(&self, line: u64) -> Option<u64> {
        if self.is_object() {
            return address_in_text(self.book.loads.as_slice(), line);
        }
        let line = u32::try_from(line).ok()?;
        Some(self.book.address_of_line(line)?.address)
    }

    /// Adds the source of the program.
    pub fn add_source(&self, text: &mut Bytes, front: &[u8]) -> Result<(), NoMemory> {
        text.extend(front)?;
        let path = self.path;
        add_string(self.alloc, text, b"{\"name\":", base_name(path))?;
        if self.is_object() {
            text.extend(b",\"sourceReference\":1}")
        } else {
            add_string(self.alloc, text, b",\"path\":", path)?;
            text.extend(b"}")
        }
    }

    /// Adds the source and the line of an instruction, where they are known, after other members.
    pub fn add_line_members(
        &self,
        text: &mut Bytes,
        source: &[u8],
        address: u64,
    ) -> Result<(), NoMemory> {
        match self.line_of(address) {
            None => Ok(()),
            Some(line) => {
                self.add_source(text, source)?;
                add_number(text, b",\"line\":", line)?;
                text.extend(b",\"column\":1")
            }
        }
    }
}
