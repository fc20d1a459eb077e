//! Views of a source: its listing, its faults, the lines of an address, how often each line runs, and its run step by step; and what
//! words mean.
#![tactic(auto)]

use clap::Error;
use clap::error::ErrorKind;
use face_check::{Form, check};
use face_count::count;
use face_dap::serve as serve_debugger;
use face_debug::debug;
use face_explain::{show_list, show_word};
use face_lsp::serve;
use face_page::page;
use face_source::{find_lines, list, read_address, refuse_address};
use mx_menu::{Choice, Face, VERSION, choose, count_words, debug_words, page_words};
use mx_outcome::Outcome;
use mx_real::{RealHost, StandIns};
use std::alloc::Global;
use std::env;
use std::io::{ErrorKind as Fault, IsTerminal};
use std::process::ExitCode;

/// The statuses of faulty words, of memory that runs out, and of a write that fails.
const FAULTY_WORDS: u8 = 64;

const OUT_OF_MEMORY: u8 = 71;

const WRITE_FAULT: u8 = 74;

/// The form of faults that a choice has: `--json` goes before `--gnu`.
fn form(choice: &Choice) -> Form {
    if choice.is_json {
        return Form::Json;
    }
    if choice.is_gnu {
        return Form::Gnu;
    }
    Form::Text
}

/// Does what is chosen.
fn do_choice(alloc: Global, host: &mut RealHost, choice: &Choice) -> Outcome {
    let name = choice.source.as_bytes();
    match choice.face {
        Face::List => list(alloc, host, choice.is_json, name),
        Face::Check => check(alloc, host, form(choice), choice.no_warnings, name),
        Face::Where => match read_address(choice.address) {
            Some(address) => find_lines(alloc, host, choice.is_json, address, name),
            None => refuse_address(host),
        },
        Face::Count => count(alloc, host, &[]),
        Face::Debug => debug(alloc, host, &[], false),
        Face::Lsp => serve(alloc, host),
        Face::Dap => serve_debugger(alloc, host),
        Face::Page => page(alloc, host, VERSION, &[]),
        Face::Explain => match choice.word {
            Some(word) => show_word(alloc, host, word),
            None => show_list(alloc, host),
        },
    }
}

/// The status of words that are no order, or that ask for help or the version. Where there is no word, help is printed as if it was
/// asked for.
fn answer_error(rt: &HostRuntime, error: &Error) -> u8 {
    let kind = error.kind();
    let printed = match kind {
        ErrorKind::DisplayHelpOnMissingArgumentOrSubcommand => rt.print(error),
        _ => error.print(rt),
    };
    match kind {
        _ if printed.is_err() => WRITE_FAULT,
        ErrorKind::DisplayHelp
        | ErrorKind::DisplayVersion
        | ErrorKind::DisplayHelpOnMissingArgumentOrSubcommand => 0,
        ErrorKind::OutOfMemory => OUT_OF_MEMORY,
        _ => FAULTY_WORDS,
    }
}

/// Does what the words after `debug` order, and gives the status. A person at a terminal is asked for each line.
fn run_debug(rt: HostRuntime, alloc: Global, words: &[String]) -> u8 {
    let has_prompt = rt.stdin().is_terminal();
    match RealHost::new(rt) {
        Some(mut host) => debug(alloc, &mut host, words, has_prompt).status(),
        None => OUT_OF_MEMORY,
    }
}

/// Does what the words after `count` order, and gives the status.
fn run_count(rt: HostRuntime, alloc: Global, words: &[String]) -> u8 {
    match RealHost::new(rt) {
        Some(mut host) => count(alloc, &mut host, words).status(),
        None => OUT_OF_MEMORY,
    }
}

/// Does what the words after `page` order, and gives the status.
fn run_page(rt: HostRuntime, alloc: Global, words: &[String]) -> u8 {
    match RealHost::new(rt) {
        Some(mut host) => page(alloc, &mut host, VERSION, words).status(),
        None => OUT_OF_MEMORY,
    }
}

/// Does what the words of the command line order, and gives the status.
fn obey(rt: HostRuntime, alloc: Global, all: &[String]) -> u8 {
    if let Some(words) = count_words(all) {
        return run_count(rt, alloc, words);
    }
    if let Some(words) = debug_words(all) {
        return run_debug(rt, alloc, words);
    }
    if let Some(words) = page_words(all) {
        return run_page(rt, alloc, words);
    }
    match choose(alloc, all) {
        Err(error) => answer_error(&rt, &error),
        Ok(None) => FAULTY_WORDS,
        Ok(Some(choice)) => match RealHost::new(rt) {
            Some(mut host) => do_choice(alloc, &mut host, &choice).status(),
            None => OUT_OF_MEMORY,
        },
    }
}

fn main(rt: HostRuntime) -> ExitCode {
    let _stand_ins = StandIns::new(&rt);
    let alloc = rt.alloc();
    let args = match env::args(&rt) {
        Ok(args) => args,
        Err(fault) if fault.kind() == Fault::OutOfMemory => return ExitCode::from(OUT_OF_MEMORY),
        Err(_) => return ExitCode::from(FAULTY_WORDS),
    };
    match args.collect::<Vec<String>>(alloc) {
        Ok(all) => ExitCode::from(obey(rt, alloc, all.as_slice())),
        Err(_) => ExitCode::from(OUT_OF_MEMORY),
    }
}
