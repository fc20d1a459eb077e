//! What an outcome means, by the rows that `explain` has.

use mx_explain::{Entry, Row, Topic, row_of};
use mx_json::add_string;
use mx_messages::{loading_rows, object_rows, stop_rows, trap_rows, trie_rows};
use mx_outcome::Outcome;
use mx_word::{Bytes, NoMemory};
use std::alloc::Global;

/// The row on a topic, if it is one of these.
fn row_in(rows: &'static [Entry], topic: Topic) -> Option<Row> {
    for entry in rows {
        let row = row_of(entry);
        if row.topic == topic {
            return Some(row);
        }
    }
    None
}

/// The row on a reason of a stop.
fn stop_row(reason: u16) -> Option<Row> {
    let topic = Topic::Stop(reason);
    match row_in(stop_rows(), topic) {
        Some(row) => Some(row),
        None => row_in(trap_rows(), topic),
    }
}

/// The row on a fault of an object.
fn object_row(fault: u16) -> Option<Row> {
    let topic = Topic::Object(fault);
    match row_in(object_rows(), topic) {
        Some(row) => Some(row),
        None => match row_in(trie_rows(), topic) {
            Some(row) => Some(row),
            None => row_in(loading_rows(), topic),
        },
    }
}

/// The row on an outcome: on the reason of a stop, or the fault of an object.
pub fn row_on(outcome: Outcome) -> Option<Row> {
    match outcome {
        Outcome::Stopped { reason, .. } => stop_row(reason),
        Outcome::BadObject { fault, .. } => object_row(fault),
        _ => None,
    }
}

/// Adds a text with blanks in place of the ends of its lines.
fn add_line(line: &mut Bytes, says: &str) -> Result<(), NoMemory> {
    for b in says.as_bytes() {
        line.push(if *b == b'\n' { b' ' } else { *b })?;
    }
    Ok(())
}

/// Adds what an outcome means, if there is a row on it.
pub fn add_what(alloc: Global, text: &mut Bytes, row: Option<Row>) -> Result<(), NoMemory> {
    let Some(row) = row else {
        return text.extend(b",\"what\":null");
    };
    let mut line = Bytes::new(alloc);
    add_line(&mut line, row.says)?;
    add_string(alloc, text, b",\"what\":", line.as_slice())
}

/// Adds an example of what was stopped or refused, and how to fix it, if there is a row on it.
pub fn add_help(alloc: Global, text: &mut Bytes, row: Option<Row>) -> Result<(), NoMemory> {
    let Some(row) = row else {
        return text.extend(b"\"help\":null");
    };
    let mut line = Bytes::new(alloc);
    line.extend(b"Example: ")?;
    add_line(&mut line, row.example)?;
    line.extend(b". Fixed: ")?;
    add_line(&mut line, row.mended)?;
    add_string(alloc, text, b"\"help\":", line.as_slice())
}
