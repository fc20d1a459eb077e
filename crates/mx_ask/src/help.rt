//! How words are found by what is written of them, and explained.

use crate::table::ROWS;
use crate::words::{Row, find_row, usual_name};
use mx_word::{Bytes, NoMemory};

/// How far the names of words reach in the list of all.
const WIDTH: usize = 24;

/// What a name asks for: a word, none, or one of several that begin so.
#[derive(Clone, Copy)]
pub enum Asked {
    Word(&'static Row),
    Unknown,
    Ambiguous,
}

/// Adds a line.
fn add_said(out: &mut Bytes, said: &[u8]) -> Result<(), NoMemory> {
    out.extend(said)?;
    out.extend(b"\n")
}

/// Whether a row's name begins so.
fn has_beginning(row: &Row, name: &[u8]) -> bool {
    row.name.as_bytes().starts_with(name)
}

/// The word that begins so, if it is the only one.
fn find_by_beginning(name: &[u8]) -> Asked {
    let mut found = Asked::Unknown;
    for row in &ROWS {
        if has_beginning(row, name) {
            found = match found {
                Asked::Unknown => Asked::Word(row),
                Asked::Word(_) | Asked::Ambiguous => Asked::Ambiguous,
            };
        }
    }
    found
}

/// The word that is written so: by its name, its short form, or the beginning of its name.
pub fn find_word(name: &[u8]) -> Asked {
    let name = usual_name(name);
    match find_row(&ROWS, name) {
        Some(row) => Asked::Word(row),
        None => find_by_beginning(name),
    }
}

/// Adds that several words begin like this, and which.
fn add_ambiguous(out: &mut Bytes, name: &[u8]) -> Result<(), NoMemory> {
    out.extend(b"? several commands begin like this:")?;
    for row in &ROWS {
        if has_beginning(row, name) {
            out.extend(b" ")?;
            out.extend(row.name.as_bytes())?;
        }
    }
    out.extend(b"\n")
}

/// The hexadecimal digits.
const DIGITS: &[u8; 16] = b"0123456789abcdef";

/// The control byte that begins what an arrow key sends.
const ESCAPE: u8 = 0x1b;

/// Adds a byte as it was written; one that controls a terminal as its digits.
fn add_byte(out: &mut Bytes, b: u8) -> Result<(), NoMemory> {
    if b >= 32 && b != 127 {
        return out.push(b);
    }
    out.extend(b"\\x")?;
    out.push(DIGITS[usize::from(b / 16)])?;
    out.push(DIGITS[usize::from(b % 16)])
}

/// Adds a text as it was written, but for bytes that control a terminal.
pub fn add_written(out: &mut Bytes, text: &[u8]) -> Result<(), NoMemory> {
    for b in text {
        add_byte(out, *b)?;
    }
    Ok(())
}

/// Adds why no command is meant.
pub fn add_unasked(out: &mut Bytes, name: &[u8], is_ambiguous: bool) -> Result<(), NoMemory> {
    if is_ambiguous {
        return add_ambiguous(out, name);
    }
    out.extend(b"? no such command: ")?;
    add_written(out, name)?;
    out.extend(b" (help lists all)\n")?;
    if name.contains(&ESCAPE) {
        out.extend(b"? arrow keys are not read here; rlwrap mmixview debug ... has them\n")?;
    }
    Ok(())
}

/// Adds blanks up to a width.
fn add_blanks(out: &mut Bytes, from: usize) -> Result<(), NoMemory> {
    for _ in from..WIDTH {
        out.push(b' ')?;
    }
    Ok(())
}

/// Adds a word with its short form, and what it does.
fn add_row(out: &mut Bytes, row: &Row) -> Result<(), NoMemory> {
    out.extend(row.name.as_bytes())?;
    out.extend(b", ")?;
    out.extend(row.short.as_bytes())?;
    let length = row.name.len().saturating_add(row.short.len());
    add_blanks(out, length.saturating_add(2))?;
    add_said(out, row.help.as_bytes())
}

/// Adds all words.
fn add_all(out: &mut Bytes) -> Result<(), NoMemory> {
    for row in &ROWS {
        add_row(out, row)?;
    }
    Ok(())
}

/// Adds what one word does.
fn add_one(out: &mut Bytes, row: &Row) -> Result<(), NoMemory> {
    add_said(out, row.form.as_bytes())?;
    out.extend(b"short ")?;
    add_said(out, row.short.as_bytes())?;
    add_said(out, row.help.as_bytes())
}

/// Adds what a word does, or all words where none is written.
pub fn add_help(out: &mut Bytes, rest: &[u8]) -> Result<(), NoMemory> {
    if rest.is_empty() {
        return add_all(out);
    }
    match find_word(rest) {
        Asked::Word(row) => add_one(out, row),
        Asked::Unknown => add_unasked(out, rest, false),
        Asked::Ambiguous => add_unasked(out, rest, true),
    }
}
