//! Steps far from the start, which are reached from steps that are kept.

use crate::programs::{COUNTS, replay};
use mx_replay::Replay;
use mx_stops::{Break, Condition, Place, Relation};
use std::alloc::Global;

/// Steps that are visited, back and forth: step 2^20 = 1,048,576 is kept, and some that are before others gone back to.
static STEPS: [u64; 7] = [
    1_100_000, 1_099_999, 1_048_577, 1_048_576, 5, 1_048_600, 1_099_998,
];

/// A number that `$1` has at the loop, and the step that is due, before step 1,099,998: near it, far from it, before a step that is kept,
/// near the start, and none.
static NUMBERS: [(u64, Option<u64>); 6] = [
    (549_998, Some(1_099_997)),
    (549_000, Some(1_098_001)),
    (540_000, Some(1_080_001)),
    (500_000, Some(1_000_001)),
    (7, Some(15)),
    (600_000, None),
];

/// A break at the loop where `$1` has a number.
fn break_if(number: u64) -> Break {
    Break {
        number: 1,
        address: 0x104,
        condition: Some(Condition {
            place: Place::Register(1),
            relation: Relation::Equal,
            number,
        }),
    }
}

/// The first number whose step is another one.
fn find_number_mismatch(replay: &mut Replay) -> Option<u64> {
    for (number, due) in &NUMBERS {
        match replay.find_last_stop(&[break_if(*number)], &[], None) {
            Ok(found) if found == *due => {}
            _ => return Some(*number),
        }
    }
    None
}

/// Whether half of the step is in `$1` there.
fn shows(replay: &mut Replay, k: u64) -> bool {
    replay.go_to(k).is_ok() && replay.step_number() == k && replay.machine().register(1) == k / 2
}

/// The first step that shows something else; 0 where another turn than the last one made `$1`; else the first number whose step is
/// another one.
fn find_far_mismatch(replay: &mut Replay) -> Option<u64> {
    for k in &STEPS {
        if !shows(replay, *k) {
            return Some(*k);
        }
    }
    match replay.find_maker(Place::Register(1)) {
        Ok(Some(1_099_998)) => find_number_mismatch(replay),
        _ => Some(0),
    }
}

/// The same of the run of the program; 0 where it does not begin.
fn wrong(alloc: Global) -> Option<u64> {
    match replay(alloc, COUNTS, "") {
        Some(mut replay) => find_far_mismatch(&mut replay),
        None => Some(0),
    }
}

#[test]
fn steps_far_away_are_visited(rt: HostRuntime) {
    assert_eq!(rt; wrong(rt.alloc()), None);
}
