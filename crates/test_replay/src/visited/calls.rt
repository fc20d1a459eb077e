//! Calls that have not returned.

use crate::programs::{CALLS, replay};
use mx_replay::{Frame, Replay};
use std::alloc::Global;

/// The call of `Outer`.
const OUTER: Frame = Frame {
    call: 0x104,
    target: 0x110,
    hides: 2,
};

/// The call of `Inner`.
const INNER: Frame = Frame {
    call: 0x114,
    target: 0x120,
    hides: 2,
};

/// A step, and the calls that have not returned there.
static CALLED: [(u64, &[Frame]); 7] = [
    (0, &[]),
    (2, &[OUTER]),
    (5, &[OUTER, INNER]),
    (4, &[OUTER, INNER]),
    (7, &[OUTER]),
    (8, &[]),
    (10, &[]),
];

/// Whether a replay shows these calls at a step.
fn shows(replay: &mut Replay, k: u64, due: &[Frame]) -> bool {
    if replay.go_to(k).is_err() {
        return false;
    }
    match replay.frames() {
        Ok(frames) => frames.as_slice() == due,
        Err(_) => false,
    }
}

/// The number of the first step that shows other calls.
fn find_call_mismatch(replay: &mut Replay) -> Option<usize> {
    for (number, (k, due)) in CALLED.iter().enumerate() {
        if !shows(replay, *k, due) {
            return Some(number);
        }
    }
    None
}

/// The same of the run of the program; the number after the last where it does not begin.
fn wrong(alloc: Global) -> Option<usize> {
    match replay(alloc, CALLS, "") {
        Some(mut replay) => find_call_mismatch(&mut replay),
        None => Some(CALLED.len()),
    }
}

#[test]
fn calls_are_listed_outermost_first(rt: HostRuntime) {
    assert_eq!(rt; wrong(rt.alloc()), None);
}
