//! The data of a page, as one line of JSON.

ghost use Rattle.std.specs.Prelude.{◌≤◌, ◌<◌, length};

use crate::meaning::{add_help, add_what, row_on};
use crate::rows::{add_counted_rows, add_plain_rows, add_tetra_rows};
use face_check::add_faults;
use face_count::add_tally;
use face_source::add_symbols;
use mx_count::{LineSheet, Tally};
use mx_json::{add_flag, add_number, add_quoted, add_string};
use mx_object::ObjectSheet;
use mx_outcome::{Outcome, message};
use mx_view::{Listed, ToldFaults};
use mx_word::{Bytes, NoMemory, Symbol};
use mx_words::Order;
use page_run::{Ending, Made};
use std::alloc::Global;

/// What is shown of the lines of a program: of a source or an object that was run, or of a source that was not.
#[derive(Drop)]
pub enum Program {
    /// The lines and the symbols of a source, and what was counted of them.
    Source {
        listed: Listed,
        sheet: LineSheet,
    },
    /// The tetras and the symbols of an object, and what was counted of them.
    Object {
        symbols: Vec<Symbol>,
        sheet: ObjectSheet,
    },
    /// The faults of a source.
    Faulty(ToldFaults),
    /// Nothing of an object.
    Nothing,
}

/// The call that a page is of: the words, what they order, and the version of the program.
#[derive(Clone, Copy)]
pub struct Call<'a> {
    pub words: &'a [String],
    pub order: &'a Order,
    pub version: &'a str,
}

/// Adds the arguments.
fn add_arguments(alloc: Global, text: &mut Bytes, words: &[String]) -> Result<(), NoMemory> {
    text.extend(b"{\"arguments\":[")?;
    for (at, word) in words.iter().enumerate() {
        let front = if at == 0 {
            b"".as_slice()
        } else {
            b",".as_slice()
        };
        add_string(alloc, text, front, word.as_bytes())?;
    }
    text.extend(b"]")
}

/// How the run ended.
fn ending_name(ending: Ending) -> &'static [u8] {
    match ending {
        Ending::Halted => b"halted",
        Ending::Stopped => b"stopped",
        Ending::Steps => b"steps",
        Ending::Records => b"records",
        Ending::Refused => b"refused",
    }
}

/// Adds the faults of a source that is refused.
fn add_told(alloc: Global, text: &mut Bytes, program: &Program) -> Result<(), NoMemory> {
    text.extend(b",\"faults\":")?;
    match program {
        Program::Faulty(told) => add_faults(alloc, text, told.faults.as_slice()),
        Program::Source { .. } | Program::Object { .. } | Program::Nothing => text.extend(b"[]"),
    }
}

/// Whether there are more faults than those that are told.
fn is_cut(program: &Program) -> bool {
    match program {
        Program::Faulty(told) => told.is_cut,
        Program::Source { .. } | Program::Object { .. } | Program::Nothing => false,
    }
}

/// Adds the lines of a program.
fn add_lines(
    alloc: Global,
    text: &mut Bytes,
    program: &Program,
    source: &[u8],
) -> Result<(), NoMemory> {
    text.extend(b",\"lines\":")?;
    match program {
        Program::Source { listed, sheet } => add_counted_rows(
            alloc,
            text,
            listed.lines.as_slice(),
            sheet.lines.as_slice(),
        ),
        Program::Object { sheet, .. } => add_tetra_rows(
            alloc,
            text,
            sheet.tetras.as_slice(),
            sheet.counts.as_slice(),
        ),
        Program::Faulty(_) => add_plain_rows(alloc, text, source),
        Program::Nothing => text.extend(b"[]"),
    }
}

/// Adds the message of an outcome without its newline.
fn add_message(alloc: Global, text: &mut Bytes, outcome: Outcome) -> Result<(), NoMemory> {
    let said = message(alloc, outcome)?;
    match said.as_slice() {
        [] => text.extend(b",\"message\":null"),
        [line @ .., _newline] => add_string(alloc, text, b",\"message\":", line),
    }
}

/// Adds the outcome.
fn add_outcome(alloc: Global, text: &mut Bytes, outcome: Outcome) -> Result<(), NoMemory> {
    let row = row_on(outcome);
    text.extend(b",\"outcome\":{")?;
    add_help(alloc, text, row)?;
    add_message(alloc, text, outcome)?;
    add_number(text, b",\"status\":", u64::from(outcome.status()))?;
    add_what(alloc, text, row)?;
    text.extend(b"}")
}

/// Adds bytes as a text with a character for each of them.
fn add_bytes(alloc: Global, text: &mut Bytes, front: &[u8], bytes: &[u8]) -> Result<(), NoMemory> {
    let mut characters = Bytes::new(alloc);
    for b in bytes {
        if *b < 0x80 {
            characters.push(*b)?;
        } else {
            characters.push(0xc0 | (*b >> 6))?;
            characters.push(0x80 | (*b & 0x3f))?;
        }
    }
    add_string(alloc, text, front, characters.as_slice())
}

/// Adds the symbols of a program.
fn add_names(alloc: Global, text: &mut Bytes, program: &Program) -> Result<(), NoMemory> {
    text.extend(b",\"symbols\":")?;
    match program {
        Program::Source { listed, .. } => add_symbols(alloc, text, listed.symbols.as_slice()),
        Program::Object { symbols, .. } => add_symbols(alloc, text, symbols.as_slice()),
        Program::Faulty(_) | Program::Nothing => text.extend(b"[]"),
    }
}

/// What was counted of all steps.
fn total_of(program: &Program) -> Option<Tally> {
    match program {
        Program::Source { sheet, .. } => Some(sheet.total),
        Program::Object { sheet, .. } => Some(sheet.total),
        Program::Faulty(_) | Program::Nothing => None,
    }
}

/// Adds what was counted of all steps.
fn add_total(text: &mut Bytes, program: &Program) -> Result<(), NoMemory> {
    text.extend(b",\"total\":")?;
    match total_of(program) {
        Some(tally) => add_tally(text, tally),
        None => text.extend(b"null"),
    }
}

/// Adds the arguments, how the run ended, the faults and the lines.
fn add_front(
    alloc: Global,
    text: &mut Bytes,
    call: Call<'_>,
    source: &[u8],
    program: &Program,
    made: &Made,
) -> Result<(), NoMemory>
    requires { call.order.now.rest ≤ length call.words.now }
{
    add_arguments(alloc, text, &call.words[call.order.rest..])?;
    add_quoted(text, b",\"end\":", ending_name(made.ending))?;
    add_told(alloc, text, program)?;
    add_lines(alloc, text, program, source)?;
    add_flag(text, b",\"more\":", is_cut(program))
}

/// Adds the name, the kind of the program, the outcome and the output.
fn add_middle(
    alloc: Global,
    text: &mut Bytes,
    name: &[u8],
    is_object: bool,
    made: &Made,
) -> Result<(), NoMemory> {
    add_string(alloc, text, b",\"name\":", name)?;
    add_flag(text, b",\"object\":", is_object)?;
    add_outcome(alloc, text, made.outcome)?;
    add_bytes(alloc, text, b",\"output\":", made.output.as_slice())?;
    add_quoted(text, b",\"records\":", made.records.as_slice())
}

/// Adds the ring, the start, the number of turns, the symbols and the counts of all of them.
fn add_end(
    alloc: Global,
    text: &mut Bytes,
    call: Call<'_>,
    program: &Program,
    made: &Made,
) -> Result<(), NoMemory> {
    let ring = u64::from(call.order.ring.registers());
    add_number(text, b",\"ring\":", ring)?;
    add_quoted(text, b",\"start\":", made.start.as_slice())?;
    add_number(text, b",\"steps\":", made.steps)?;
    add_names(alloc, text, program)?;
    add_total(text, program)?;
    add_string(alloc, text, b",\"version\":", call.version.as_bytes())?;
    text.extend(b"}")
}

/// The data of a page.
pub fn data(
    alloc: Global,
    call: Call<'_>,
    source: &[u8],
    is_object: bool,
    program: &Program,
    made: &Made,
) -> Result<Bytes, NoMemory>
    requires file { call.order.now.file < length call.words.now }
    requires rest { call.order.now.rest ≤ length call.words.now }
{
    let mut text = Bytes::new(alloc);
    let name = call.words[call.order.file].as_bytes();
    add_front(alloc, &mut text, call, source, program, made)?;
    add_middle(alloc, &mut text, name, is_object, made)?;
    add_end(alloc, &mut text, call, program, made)?;
    Ok(text)
}
