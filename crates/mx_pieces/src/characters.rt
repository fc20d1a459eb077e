//! Bytes as characters.

ghost use Rattle.std.specs.Prelude.{◌≤◌, length};

use mx_text::byte_hex;
use mx_word::{Bytes, NoMemory};

/// The bytes that are shown otherwise than by their number, besides printed characters.
#[derive(Clone, Copy)]
pub enum Style {
    /// Newlines and tabs as they are.
    Plain,
    /// Tabs as they are.
    Line,
    /// Within quotation marks: newlines as `\n`, tabs as `\t`, quotation marks and backslashes after a backslash.
    Quoted,
}

/// Whether bytes are UTF-8.
fn is_text(bytes: &[u8]) -> bool {
    match str::from_utf8(bytes) {
        Ok(_) => true,
        Err(_) => false,
    }
}

/// The first bytes of a text, this many or all.
fn front(bytes: &[u8], count: usize) -> &[u8] {
    if count < bytes.len() {
        &bytes[..count]
    } else {
        bytes
    }
}

/// How many bytes the character has that is at the front of a text; 0 where none does.
fn character_length(bytes: &[u8]) -> usize {
    if is_text(front(bytes, 1)) {
        1
    } else if is_text(front(bytes, 2)) {
        2
    } else if is_text(front(bytes, 3)) {
        3
    } else if is_text(front(bytes, 4)) {
        4
    } else {
        0
    }
}

/// Adds the number of a byte, as `\x0a`.
fn add_number(text: &mut Bytes, b: u8) -> Result<(), NoMemory> {
    text.extend(b"\\x")?;
    text.extend(&byte_hex(b))
}

/// Adds a byte between quotation marks.
fn add_quoted_byte(text: &mut Bytes, b: u8) -> Result<(), NoMemory> {
    match b {
        b'\n' => text.extend(b"\\n"),
        b'\t' => text.extend(b"\\t"),
        b'"' => text.extend(b"\\\""),
        b'\\' => text.extend(b"\\\\"),
        0..=31 | 127 => add_number(text, b),
        _ => text.push(b),
    }
}

/// Adds a byte of a character.
fn add_byte(text: &mut Bytes, style: Style, b: u8) -> Result<(), NoMemory> {
    match (style, b) {
        (Style::Quoted, _) => add_quoted_byte(text, b),
        (Style::Plain, b'\n') | (Style::Plain | Style::Line, b'\t') => text.push(b),
        (_, 0..=31 | 127) => add_number(text, b),
        _ => text.push(b),
    }
}

/// Adds bytes as characters; what is no UTF-8, and control characters, by their numbers.
pub fn add_characters(text: &mut Bytes, style: Style, bytes: &[u8]) -> Result<(), NoMemory> {
    let mut left = 0usize;
    for i in 0..bytes.len() {
        if left == 0 {
            left = character_length(&bytes[i..]);
        }
        if left == 0 {
            add_number(text, bytes[i])?;
        } else {
            add_byte(text, style, bytes[i])?;
            left -= 1;
        }
    }
    Ok(())
}

/// Whether bytes end with a newline, or are none.
fn is_ended(bytes: &[u8]) -> bool {
    match bytes {
        [] => true,
        [.., last] => *last == b'\n',
    }
}

/// Adds what a program wrote; what is no UTF-8, and control characters but newlines and tabs, as `\x1b`. It ends with a newline of its
/// own, if there was none.
pub fn add_output(text: &mut Bytes, bytes: &[u8]) -> Result<(), NoMemory> {
    add_characters(text, Style::Plain, bytes)?;
    if is_ended(bytes) {
        return Ok(());
    }
    text.push(b'\n')
}
