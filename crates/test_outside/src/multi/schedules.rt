//! Turns by schedules: their end, the steps of two processors, and what is in memory and on standard output. Counts of
//! steps are worked out by hand.

ghost use Rattle.mx_multi.specs.Schedules.{AreNames};

use crate::multi::programs::{
    CHANGES, COUNTS, DATA, IN_AREA, PRINTS, Program, STOPS, STORES, TELLS_COUNT, WRITES, host,
    processors,
};
use mx_multi::{MultiEnd, run_turns};
use std::alloc::Global;
use std::process::Abort;

/// The end, the steps of both processors, and the octa at Data_Segment.
type Due = (MultiEnd, [u64; 2], u64);

/// Two processors add 1 each.
static COUNTED: [Due; 10] = [
    // one is faster, and the other turns once more
    (MultiEnd::AllHalted, [6, 11], 2),
    (MultiEnd::AllHalted, [6, 11], 2),
    (MultiEnd::AllHalted, [6, 11], 2),
    // one after the other
    (MultiEnd::AllHalted, [6, 6], 2),
    // the bound is on the sum
    (MultiEnd::Spent, [3, 2], 0),
    (MultiEnd::Spent, [6, 10], 2),
    // all have halted as the last step is made
    (MultiEnd::AllHalted, [6, 11], 2),
    (MultiEnd::Spent, [0, 0], 0),
    // a schedule that names one of two
    (MultiEnd::AllHalted, [0, 6], 1),
    (MultiEnd::Spent, [3, 0], 0),
];

#[test]
fn counters_count(rt: HostRuntime) {
    let alloc = rt.alloc();
    assert_eq!(rt; counted(&rt, alloc), COUNTED);
}

/// What comes of two processors with COUNTS by schedules, bounds on the steps, and sizes of the rings.
fn counted(rt: &impl Abort, alloc: Global) -> [Due; 10] {
    [
        outcome(rt, alloc, &COUNTS, &[0, 1], 1000, 256),
        outcome(rt, alloc, &COUNTS, &[0, 1], 1000, 2048),
        outcome(rt, alloc, &COUNTS, &[0, 1], 1000, 65536),
        outcome(rt, alloc, &COUNTS, &[0, 0, 0, 0, 0, 0, 1], 1000, 256),
        outcome(rt, alloc, &COUNTS, &[0, 1], 5, 256),
        outcome(rt, alloc, &COUNTS, &[0, 1], 16, 256),
        outcome(rt, alloc, &COUNTS, &[0, 1], 17, 256),
        outcome(rt, alloc, &COUNTS, &[0, 1], 0, 256),
        outcome(rt, alloc, &COUNTS, &[1], 1000, 256),
        outcome(rt, alloc, &COUNTS, &[0], 3, 256),
    ]
}

/// What comes of two processors with a program.
fn outcome(
    rt: &impl Abort,
    alloc: Global,
    program: &Program,
    schedule: &[u8],
    steps: u64,
    ring: u32,
) -> Due
    requires { AreNames 2 schedule.now }
{
    let mut multi = processors(rt, alloc, program, 2, ring);
    let mut host = host(rt, alloc);
    let end = run_turns(alloc, &mut multi, &mut host, schedule, steps);
    let made = [multi.processor(0).steps(), multi.processor(1).steps()];
    (end, made, multi.octa(DATA))
}

static STOPPED: Due = (
    MultiEnd::Stopped {
        processor: 0,
        pc: 0x104,
        reason: 110,
    },
    [1, 1],
    0,
);

#[test]
fn programs_end(rt: HostRuntime) {
    let alloc = rt.alloc();
    // a stop ends all, at the processor's own address, and is no step
    assert_eq!(rt; outcome(&rt, alloc, &STOPS, &[0, 1], 1000, 256), STOPPED);
    // processor 0 changes what processor 1 performs next, again and again
    let changed = (MultiEnd::AllHalted, [4, 4], 0);
    assert_eq!(rt; outcome(&rt, alloc, &CHANGES, &[1, 0], 1000, 256), changed);
}

#[test]
fn what_is_shared(rt: HostRuntime) {
    let alloc = rt.alloc();
    // eight store their numbers: that of processor 0 is no octa other than 0
    assert_eq!(rt;
        eight(&rt, alloc),
        (
            MultiEnd::AllHalted,
            [1, 2, 3, 4, 5, 6, 7],
            Some((DATA + 8, 1))
        )
    );
    // each reads in its own stack area what it stored there
    assert_eq!(rt; areas(&rt, alloc), (MultiEnd::AllHalted, [0, 1], 0));
    // both write to one standard output
    assert!(rt; both_print(&rt, alloc), "two lines");
}

/// Eight processors store their numbers: the end, what seven of them stored, and the first octa other than 0.
fn eight(rt: &impl Abort, alloc: Global) -> (MultiEnd, [u64; 7], Option<(u64, u64)>) {
    let mut multi = processors(rt, alloc, &STORES, 8, 256);
    let mut host = host(rt, alloc);
    let end = run_turns(alloc, &mut multi, &mut host, &[7, 6, 5, 4, 3, 2, 1, 0], 24);
    let octas = [
        multi.octa(DATA + 8),
        multi.octa(DATA + 16),
        multi.octa(DATA + 24),
        multi.octa(DATA + 32),
        multi.octa(DATA + 40),
        multi.octa(DATA + 48),
        multi.octa(DATA + 56),
    ];
    (end, octas, multi.next_nonzero(DATA))
}

/// Two processors use their stack areas: the end, their $255, and the octa of the one memory there.
fn areas(rt: &impl Abort, alloc: Global) -> (MultiEnd, [u64; 2], u64) {
    let mut multi = processors(rt, alloc, &IN_AREA, 2, 256);
    let mut host = host(rt, alloc);
    let end = run_turns(alloc, &mut multi, &mut host, &[0, 1], 100);
    let last = [
        multi.processor(0).register(255),
        multi.processor(1).register(255),
    ];
    let found = match multi.next_nonzero(0x6000_0000_0000_0000) {
        Some((_, x)) => x,
        None => 0,
    };
    (end, last, found)
}

/// Whether two processors that print write two lines.
fn both_print(rt: &impl Abort, alloc: Global) -> bool {
    let mut multi = processors(rt, alloc, &PRINTS, 2, 256);
    let mut host = host(rt, alloc);
    let end = run_turns(alloc, &mut multi, &mut host, &[0, 1], 6);
    end == MultiEnd::AllHalted && host.output() == b"hi\nhi\n".as_slice()
}

#[test]
fn files_are_shared(rt: HostRuntime) {
    let alloc = rt.alloc();
    // the second is the first one to write into the file that the first has opened
    assert!(rt; both_write(&rt, alloc, &[0, 1], b"yx"), "in turn");
    // the first one makes all its turns, three of them file traps, before the second has one more
    assert!(rt;
        both_write(&rt, alloc, &[0, 0, 0, 0, 0, 0, 0, 1], b"xy"),
        "in a row"
    );
    // it is not open yet when the second writes
    assert!(rt;
        both_write(&rt, alloc, &[1, 1, 1, 1, 1, 0], b"x"),
        "too early"
    );
}

/// Whether two processors by a schedule come to a file of this text, after 7 and 5 steps.
fn both_write(rt: &impl Abort, alloc: Global, schedule: &[u8], text: &[u8]) -> bool
    requires { AreNames 2 schedule.now }
{
    let mut multi = processors(rt, alloc, &WRITES, 2, 256);
    let mut host = host(rt, alloc);
    let end = run_turns(alloc, &mut multi, &mut host, schedule, 1000);
    let made = [multi.processor(0).steps(), multi.processor(1).steps()];
    end == MultiEnd::AllHalted && made == [7, 5] && host.file(b"f") == Some(text)
}

#[test]
fn halted_ones_make_no_steps(rt: HostRuntime) {
    assert_eq!(rt;
        after_halt(&rt, rt.alloc()),
        (
            [MultiEnd::AllHalted, MultiEnd::AllHalted, MultiEnd::Spent],
            [2, 1]
        )
    );
}

/// A schedule that names a processor until it halts, the same again, and one that names another one too; and the steps.
fn after_halt(rt: &impl Abort, alloc: Global) -> ([MultiEnd; 3], [u64; 2]) {
    let mut multi = processors(rt, alloc, &TELLS_COUNT, 2, 256);
    let mut host = host(rt, alloc);
    let first = run_turns(alloc, &mut multi, &mut host, &[0], 2);
    let again = run_turns(alloc, &mut multi, &mut host, &[0], 5);
    let other = run_turns(alloc, &mut multi, &mut host, &[0, 0, 1], 1);
    (
        [first, again, other],
        [multi.processor(0).steps(), multi.processor(1).steps()],
    )
}
