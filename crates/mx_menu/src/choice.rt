//! What the words of the command line choose.

use crate::parser::build_parser;
use crate::table::{COMMANDS, Face};
use clap::{ArgMatches, Error};
use std::alloc::Global;

/// A command with what it is given: whether options are there, and words, which are empty where the command takes none.
#[derive(Clone, Copy)]
pub struct Choice<'a> {
    pub face: Face,
    pub is_json: bool,
    pub is_gnu: bool,
    pub no_warnings: bool,
    pub address: &'a str,
    pub source: &'a str,
    pub word: Option<&'a str>,
}

/// What the command of this name does. Every other name is taken for the last one.
fn face_of(name: &str) -> Face {
    for row in &COMMANDS {
        if row.name == name {
            return row.face;
        }
    }
    Face::Count
}

/// The word of this name, or nothing.
fn word<'a>(given: &ArgMatches<'a>, id: &str) -> &'a str {
    given.get_str(id).unwrap_or("")
}

/// What the words choose.
fn find_choice<'a>(matches: &ArgMatches<'a>) -> Option<Choice<'a>> {
    let (name, given) = matches.subcommand()?;
    Some(Choice {
        face: face_of(name),
        is_json: given.get_flag("JSON"),
        is_gnu: given.get_flag("GNU"),
        no_warnings: given.get_flag("NO_WARNINGS"),
        address: word(given, "ADDRESS"),
        source: word(given, "SRC"),
        word: given.get_str("WORD"),
    })
}

/// What the words of the command line choose, the first of which is the program's name. There is no choice where there is no command,
/// which `clap` refuses.
///
/// Errors: the words are none of the table's, or ask for help or the version, or there is no word: its text says so. Out of memory.
pub fn choose<'a>(alloc: Global, words: &'a [String]) -> Result<Option<Choice<'a>>, Error> {
    let command = build_parser(alloc)?;
    let matches = command.try_get_matches_from(words)?;
    Ok(find_choice(&matches))
}

/// The words after a command whose words are not read by the table, unless they ask for its help.
fn words_after<'a>(words: &'a [String], name: &str) -> Option<&'a [String]> {
    match words {
        [_program, command, help] if command.as_str() == name => {
            if help.as_str() == "--help" || help.as_str() == "-h" {
                return None;
            }
            Some(&words[2..])
        }
        [_program, command, rest @ ..] if command.as_str() == name => Some(rest),
        _ => None,
    }
}

/// The words after `count`, which are not read by the table, unless they ask for its help.
pub fn count_words(words: &[String]) -> Option<&[String]> {
    words_after(words, "count")
}

/// The words after `debug`, which are not read by the table, unless they ask for its help.
pub fn debug_words(words: &[String]) -> Option<&[String]> {
    words_after(words, "debug")
}

/// The words after `page`, which are not read by the table, unless they ask for its help.
pub fn page_words(words: &[String]) -> Option<&[String]> {
    words_after(words, "page")
}
