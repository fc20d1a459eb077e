//! Turns that are found.

use crate::programs::{CALLS, ECHOES, LETTER, SUM, SUMS, WHERE, replay};
use mx_replay::Replay;
use mx_stops::{Break, Place, Watch};
use std::alloc::Global;

/// A row: the step that one is at, what is looked for, and the step that is due.
type Search = (u64, Sought, Option<u64>);

/// What is looked for: a stop up to a step at a break or at a place that is watched, and where few registers are hidden, the last such
/// stop, who made a value, and the last step where few registers are hidden.
#[derive(Clone, Copy)]
enum Sought {
    Break(u64, u64),
    LastBreak(u64),
    Change(u64, u64),
    LastChange(u64),
    Shallow(u64, u64),
    Register(u8),
    Octa(u64),
    LastShallow(u64),
}

/// The loop begins at #104, and its instructions lead there from the turns 1, 7 and 13. None leads to #200.
static LOOPS: [Search; 5] = [
    (1, Sought::Break(0x104, 6), None),
    (1, Sought::Break(0x104, 7), Some(7)),
    (0, Sought::Break(0x200, 1_000), None),
    (13, Sought::LastBreak(0x104), Some(7)),
    (1, Sought::LastBreak(0x104), None),
];

/// Who made `$1`, the letter that was read, and the sum; `$5` and `Where` never changed.
static ECHO_MAKERS: [Search; 6] = [
    (13, Sought::Register(1), Some(12)),
    (12, Sought::Register(1), Some(12)),
    (0, Sought::Register(1), None),
    (14, Sought::Octa(LETTER), Some(9)),
    (21, Sought::Register(5), None),
    (21, Sought::Octa(WHERE), None),
];

/// The sum is 7 after turn 9, and no address from 2^63 on has a value.
static SUM_MAKERS: [Search; 3] = [
    (13, Sought::Octa(SUM), Some(9)),
    (3, Sought::Octa(SUM), None),
    (22, Sought::Octa(1 << 63), None),
];

/// The sum changes in the turns 4, 9, 14 and 19.
static SUM_CHANGES: [Search; 3] = [
    (4, Sought::Change(SUM, 8), None),
    (9, Sought::LastChange(SUM), Some(4)),
    (4, Sought::LastChange(SUM), None),
];

/// Two octas are hidden from step 2 on, four at the steps 4 and 5, two up to step 7, and then none.
static DEPTHS: [Search; 8] = [
    (5, Sought::Shallow(3, 1_000), Some(6)),
    (3, Sought::Shallow(1, 7), None),
    (10, Sought::Shallow(9, 1_000), None),
    (8, Sought::LastShallow(0), Some(1)),
    (6, Sought::LastShallow(2), Some(3)),
    (7, Sought::LastShallow(1), Some(1)),
    (1, Sought::LastShallow(0), Some(0)),
    (0, Sought::LastShallow(9), None),
];

/// A break at an address.
fn break_at(address: u64) -> Break {
    Break {
        number: 1,
        address,
        condition: None,
    }
}

/// A watch of the octa that holds an address.
fn watch_of(a: u64) -> Watch {
    Watch {
        number: 2,
        place: Place::Octa(a),
    }
}

/// What is found at a step, and where one is then.
fn found(replay: &mut Replay, at: u64, sought: Sought) -> Option<(Option<u64>, u64)> {
    replay.go_to(at).ok()?;
    let found = match sought {
        Sought::Break(a, until) => replay.next_stop(&[break_at(a)], &[], None, until).ok()?,
        Sought::LastBreak(a) => replay.find_last_stop(&[break_at(a)], &[], None).ok()?,
        Sought::Change(a, until) => replay.next_stop(&[], &[watch_of(a)], None, until).ok()?,
        Sought::LastChange(a) => replay.find_last_stop(&[], &[watch_of(a)], None).ok()?,
        Sought::Shallow(most, until) => replay.next_stop(&[], &[], Some(most), until).ok()?,
        Sought::Register(k) => replay.find_maker(Place::Register(k)).ok()?,
        Sought::Octa(a) => replay.find_maker(Place::Octa(a)).ok()?,
        Sought::LastShallow(most) => replay.find_last_shallow(most).ok()?,
    };
    Some((found, replay.step_number()))
}

/// Where one is who looked from a step, and found this, in a run of this many turns.
fn place(at: u64, sought: Sought, found: Option<u64>, last: u64) -> u64 {
    match sought {
        Sought::Break(_, until) | Sought::Change(_, until) | Sought::Shallow(_, until) => {
            found.unwrap_or(until.min(last))
        }
        _ => at,
    }
}

/// The number of the first search that finds something else, in a run of this many turns.
fn find_search_mismatch(replay: &mut Replay, rows: &[Search], last: u64) -> Option<usize> {
    for (number, (at, sought, due)) in rows.iter().enumerate() {
        if found(replay, *at, *sought) != Some((*due, place(*at, *sought, *due, last))) {
            return Some(number);
        }
    }
    None
}

/// The same of a source with the input `abc`; the number after the last where it does not begin.
fn wrong_of(alloc: Global, source: &str, rows: &[Search], last: u64) -> Option<usize> {
    match replay(alloc, source, "abc") {
        Some(mut replay) => find_search_mismatch(&mut replay, rows, last),
        None => Some(rows.len()),
    }
}

#[test]
fn stops_are_found_both_ways(rt: HostRuntime) {
    let wrong = (
        wrong_of(rt.alloc(), ECHOES, &LOOPS, 21),
        wrong_of(rt.alloc(), SUMS, &SUM_CHANGES, 22),
        wrong_of(rt.alloc(), CALLS, &DEPTHS, 10),
    );
    assert_eq!(rt; wrong, (None, None, None));
}

#[test]
fn values_have_makers(rt: HostRuntime) {
    let wrong = (
        wrong_of(rt.alloc(), ECHOES, &ECHO_MAKERS, 21),
        wrong_of(rt.alloc(), SUMS, &SUM_MAKERS, 22),
    );
    assert_eq!(rt; wrong, (None, None));
}
