//! The table as `clap` takes it.

use crate::table::{ABOUT, COMMANDS, Form, NAME, Row, VERSION, Word};
use clap::{Arg, ArgAction, Command};
use std::alloc::{AllocError, Global};

/// A word of a command.
fn argument<'a>(alloc: Global, word: &Word) -> Arg<'a> {
    let argument = Arg::new(alloc, word.id).help(word.help);
    match word.form {
        Form::Flag(name) => argument.long(name).action(ArgAction::SetTrue),
        Form::Value(name) => argument.long(name),
        Form::One => argument.required(true),
        Form::Maybe => argument,
        Form::Many => argument.num_args(0..),
    }
}

/// A command with its words.
fn row<'a>(alloc: Global, row: &Row) -> Result<Command<'a>, AllocError> {
    let mut command = Command::new(alloc, row.name).about(row.about);
    for word in row.words {
        command = command.arg(argument(alloc, word))?;
    }
    Ok(command)
}

/// The program without its commands.
fn program<'a>(alloc: Global) -> Command<'a> {
    Command::new(alloc, NAME)
        .version(VERSION)
        .about(ABOUT)
        .subcommand_required(true)
        .arg_required_else_help(true)
}

/// The program with its commands.
pub fn build_parser<'a>(alloc: Global) -> Result<Command<'a>, AllocError> {
    let mut command = program(alloc);
    for entry in &COMMANDS {
        command = command.subcommand(row(alloc, entry)?)?;
    }
    Ok(command)
}
