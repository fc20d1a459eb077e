//! Steps that are visited, back and forth.

use crate::programs::{ECHOES, LETTER, SUMS, replay};
use mx_replay::Replay;
use mx_run::End;
use std::alloc::Global;

/// A step that is visited, and what is due there: the step, `$1`, the octa at `Letter`, the output and the end.
type Visit<'a> = (u64, (u64, u64, u64, &'a str, End));

/// What `$1` has at the start: the address of the list of arguments.
const ARGV: u64 = 0x4000_0000_0000_0008;

/// Forth and back over prints and reads, and after the end.
static ECHOED: [Visit; 12] = [
    (0, (0, ARGV, 0, "", End::Spent)),
    (1, (1, 3, 0, "", End::Spent)),
    (3, (3, 3, 0x6100_0000_0000_0000, "", End::Spent)),
    (11, (11, 2, 0x6200_0000_0000_0000, "ab", End::Spent)),
    (5, (5, 3, 0x6100_0000_0000_0000, "a", End::Spent)),
    (6, (6, 2, 0x6100_0000_0000_0000, "a", End::Spent)),
    (1_000, (21, 0, 0x6300_0000_0000_0000, "abc", End::Halted(7))),
    (21, (21, 0, 0x6300_0000_0000_0000, "abc", End::Halted(7))),
    (20, (20, 0, 0x6300_0000_0000_0000, "abc", End::Spent)),
    (17, (17, 1, 0x6300_0000_0000_0000, "abc", End::Spent)),
    (2, (2, 3, 0, "", End::Spent)),
    (0, (0, ARGV, 0, "", End::Spent)),
];

/// A run that stops: the turn that stops the machine is its last one.
static SUMMED: [Visit; 4] = [
    (21, (21, 10, 10, "", End::Spent)),
    (
        22,
        (
            22,
            10,
            10,
            "",
            End::Stopped {
                pc: 0x118,
                reason: 110,
            },
        ),
    ),
    (14, (14, 9, 9, "", End::Spent)),
    (
        50,
        (
            22,
            10,
            10,
            "",
            End::Stopped {
                pc: 0x118,
                reason: 110,
            },
        ),
    ),
];

/// Whether a replay shows what is due.
fn shows(replay: &Replay, due: (u64, u64, u64, &str, End)) -> bool {
    let machine = replay.machine();
    replay.step_number() == due.0
        && machine.register(1) == due.1
        && machine.octa(LETTER) == due.2
        && replay.host().output() == due.3.as_bytes()
        && replay.end() == due.4
}

/// The number of the first visit that shows something else.
fn find_walk_mismatch(replay: &mut Replay, visits: &[Visit]) -> Option<usize> {
    for (at, (k, due)) in visits.iter().enumerate() {
        if replay.go_to(*k).is_err() || !shows(replay, *due) {
            return Some(at);
        }
    }
    None
}

/// The same of a source with this input; the number after the last where it does not begin.
fn wrong_of(alloc: Global, source: &str, input: &str, visits: &[Visit]) -> Option<usize> {
    match replay(alloc, source, input) {
        Some(mut replay) => find_walk_mismatch(&mut replay, visits),
        None => Some(visits.len()),
    }
}

#[test]
fn steps_are_visited_forth_and_back(rt: HostRuntime) {
    let wrong = (
        wrong_of(rt.alloc(), ECHOES, "abc", &ECHOED),
        wrong_of(rt.alloc(), SUMS, "", &SUMMED),
    );
    assert_eq!(rt; wrong, (None, None));
}
