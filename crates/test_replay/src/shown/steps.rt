//! Stops, and what steps change.

use mx_book::Book;
use mx_replay::Replay;
use mx_tell::{Before, add_changes, add_stop};
use mx_word::{Bytes, NoMemory};
use std::alloc::Global;

/// What is shown at each step from 0 on: where the run is, and what the next step changes.
static SHOWN: [&str; 6] = [
    "step 0  s.mms:7  Main  SET k,5
$1 (k) = 5  (was #4000000000000008)
",
    "step 1  s.mms:8  Main+4  LDO $2,Text
$2 = #61620aff00000000  (was 0)
",
    "step 2  s.mms:9  Main+8  STB k,Text
M8[#2000000000000000] (Text) = #5620aff00000000  (was #61620aff00000000)
",
    "step 3  s.mms:10  Main+12  PUSHJ $3,Sub
rJ = #110 <Main+16>  (was #0)
",
    "step 4  s.mms:12  Sub  POP 0,0
",
    "step 5  s.mms:11  Main+16  TRAP 0,Halt,0
",
];

/// Adds where a run is, and what its next step changes.
fn add_step(text: &mut Bytes, book: &Book, replay: &mut Replay) -> Result<(), NoMemory> {
    add_stop(text, book, replay.step_number(), replay.machine())?;
    let before = Before::of(replay.machine());
    match replay.step()? {
        Some(trace) => add_changes(text, book, &before, &trace, replay.machine()),
        None => Ok(()),
    }
}

/// Whether this is shown at a step.
fn shows(alloc: Global, book: &Book, replay: &mut Replay, due: &str) -> bool {
    let mut text = Bytes::new(alloc);
    add_step(&mut text, book, replay).is_ok() && text.as_slice() == due.as_bytes()
}

/// The number of the first step that shows something else.
pub fn find_step_mismatch(alloc: Global, book: &Book, replay: &mut Replay) -> Option<usize> {
    for (number, due) in SHOWN.iter().enumerate() {
        if !shows(alloc, book, replay, due) {
            return Some(number);
        }
    }
    None
}
