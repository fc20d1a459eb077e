//! What a debugger shows of a program and of its machine.

mod states;
mod steps;
mod texts;

use crate::programs::{SAMPLE, replay};
use mx_book::Book;
use mx_replay::Replay;
use std::alloc::Global;

/// The numbers of the first step, of the first row on the state after step 4, and of the first value that are shown otherwise.
type Wrong = (Option<usize>, Option<usize>, Option<usize>);

/// Where the program is not shown as is due; nothing where its run does not begin.
fn wrong_of(alloc: Global, book: &Book) -> Option<Wrong> {
    match replay(alloc, SAMPLE, "") {
        Some(mut replay) => Some(wrong_along(alloc, book, &mut replay)),
        None => None,
    }
}

/// The same of its run, which is at its start.
fn wrong_along(alloc: Global, book: &Book, replay: &mut Replay) -> Wrong {
    let step = steps::find_step_mismatch(alloc, book, replay);
    let state = states::find_state_mismatch(alloc, book, replay);
    (step, state, texts::wrong_value(alloc, book))
}

/// The same, with what is known of the program.
fn wrong(alloc: Global) -> Option<Wrong> {
    match Book::of_source(alloc, b"s.mms", SAMPLE.as_bytes()) {
        Ok(book) => wrong_of(alloc, &book),
        Err(_) => None,
    }
}

#[test]
fn a_program_and_its_states_are_shown(rt: HostRuntime) {
    assert_eq!(rt; wrong(rt.alloc()), Some((None, None, None)));
}
