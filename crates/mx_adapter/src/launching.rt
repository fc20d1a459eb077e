//! The arguments of `launch`, as the words of the debugger's command line.

use crate::arguments::{argument, flag_at};
use crate::requests::Request;
use mx_word::{Bytes, NoMemory};
use serde_json::Value;
use std::alloc::Global;

/// What was wished where a program was launched: a stop at the start, to stay at its end, and no break at all.
#[derive(Clone, Copy)]
pub struct Wishes {
    pub on_entry: bool,
    pub at_end: bool,
    pub no_debug: bool,
}

/// A program that is to be launched: the request, the words of the command line with which `mmixview debug` would begin the same run,
/// the path of the program, and what else was wished.
#[derive(Drop)]
pub struct Launch {
    pub words: Vec<String>,
    pub path: Bytes,
    pub request: Request,
    pub wishes: Wishes,
}

/// Why there is no launch.
pub enum Unread {
    Refused(&'static str),
    NoMemory,
}

/// What is said where there is no launch.
pub fn say_unread(unread: Unread) -> &'static [u8] {
    match unread {
        Unread::Refused(why) => why.as_bytes(),
        Unread::NoMemory => b"out of memory",
    }
}

impl From<NoMemory> for Unread {
    fn from(_error: NoMemory) -> Unread {
        Unread::NoMemory
    }
}

/// Adds a word.
fn add_word(alloc: Global, words: &mut Vec<String>, word: &str) -> Result<(), NoMemory> {
    words.push(String::from_str(alloc, word)?)?;
    Ok(())
}

/// Adds an option with its value.
fn add_option(
    alloc: Global,
    words: &mut Vec<String>,
    name: &str,
    value: &str,
) -> Result<(), NoMemory> {
    add_word(alloc, words, name)?;
    add_word(alloc, words, value)
}

/// Adds the file of the standard input, if there is one.
fn add_input(alloc: Global, words: &mut Vec<String>, message: &Value) -> Result<(), Unread> {
    let Some(input) = argument(message, "/arguments/stdin") else {
        return Ok(());
    };
    match input.as_str() {
        Some(path) => Ok(add_option(alloc, words, "--input", path)?),
        None => Err(Unread::Refused("stdin is no path of a file")),
    }
}

/// Adds the files that the program is to find.
fn add_files(alloc: Global, words: &mut Vec<String>, message: &Value) -> Result<(), Unread> {
    let Some(files) = argument(message, "/arguments/files") else {
        return Ok(());
    };
    let Some(files) = files.as_array() else {
        return Err(Unread::Refused("files is no list of paths"));
    };
    for file in files.as_slice() {
        match file.as_str() {
            Some(path) => add_option(alloc, words, "--file", path)?,
            None => return Err(Unread::Refused("files is no list of paths")),
        }
    }
    Ok(())
}

/// Adds a number that is an option, if it is there and may be one.
fn add_number(
    alloc: Global,
    words: &mut Vec<String>,
    name: &str,
    number: Option<&Value>,
    why: &'static str,
) -> Result<(), Unread> {
    let Some(number) = number else {
        return Ok(());
    };
    if !number.is_u64() {
        return Err(Unread::Refused(why));
    }
    match number.to_string(alloc) {
        Ok(digits) => Ok(add_option(alloc, words, name, digits.as_str())?),
        Err(_) => Err(Unread::NoMemory),
    }
}

/// Adds what the program is handed.
fn add_arguments(alloc: Global, words: &mut Vec<String>, message: &Value) -> Result<(), Unread> {
    let Some(arguments) = argument(message, "/arguments/args") else {
        return Ok(());
    };
    let Some(arguments) = arguments.as_array() else {
        return Err(Unread::Refused("args is no list of texts"));
    };
    for word in arguments.as_slice() {
        match word.as_str() {
            Some(word) => add_word(alloc, words, word)?,
            None => return Err(Unread::Refused("args is no list of texts")),
        }
    }
    Ok(())
}

/// The path of the program.
fn path_in(message: &Value) -> Result<&str, Unread> {
    match argument(message, "/arguments/program") {
        None => Err(Unread::Refused("there is no program to launch")),
        Some(program) => match program.as_str() {
            None | Some("") => Err(Unread::Refused("program is no path of a file")),
            Some(path) => Ok(path),
        },
    }
}

/// The words that `launch` orders.
fn words_in(alloc: Global, message: &Value, path: &str) -> Result<Vec<String>, Unread> {
    let mut words = Vec::new(alloc);
    add_input(alloc, &mut words, message)?;
    add_files(alloc, &mut words, message)?;
    let steps = argument(message, "/arguments/steps");
    add_number(
        alloc,
        &mut words,
        "--steps",
        steps,
        "steps is no number from 1 to 1000000000000",
    )?;
    let ring = argument(message, "/arguments/ring");
    add_number(
        alloc,
        &mut words,
        "--ring",
        ring,
        "ring is no power of two from 256 to 65536",
    )?;
    add_word(alloc, &mut words, path)?;
    add_arguments(alloc, &mut words, message)?;
    Ok(words)
}

/// What else is wished.
fn wishes_in(message: &Value) -> Wishes {
    Wishes {
        on_entry: flag_at(message, "/arguments/stopOnEntry", false),
        at_end: flag_at(message, "/arguments/stopAtEnd", true),
        no_debug: flag_at(message, "/arguments/noDebug", false),
    }
}

/// What a request `launch` orders.
pub fn read_launch(
    alloc: Global,
    request: Request,
    message: &Value,
) -> Result<Launch, (Request, Unread)> {
    let path = match path_in(message) {
        Ok(path) => path,
        Err(why) => return Err((request, why)),
    };
    let words = match words_in(alloc, message, path) {
        Ok(words) => words,
        Err(why) => return Err((request, why)),
    };
    match Bytes::copy(alloc, path.as_bytes()) {
        Ok(path) => Ok(Launch {
            words,
            path,
            request,
            wishes: wishes_in(message),
        }),
        Err(NoMemory) => Err((request, Unread::NoMemory)),
    }
}
