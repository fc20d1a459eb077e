//! Turns one by one: what they answer, and what is then read of the processors and the memory.

use crate::multi::programs::{COUNTS, DATA, TELLS_COUNT, host, processors};
use mx_multi::Turn;
use std::alloc::Global;
use std::process::Abort;

#[test]
fn turns_answer(rt: HostRuntime) {
    assert_eq!(rt;
        three_turns(&rt, rt.alloc()),
        (
            [Turn::Went, Turn::Halted(5), Turn::Idle],
            [true, false],
            [2, 0]
        )
    );
}

/// Three turns of processor 3 of five; whether it and another one have halted, and their steps.
fn three_turns(rt: &impl Abort, alloc: Global) -> ([Turn; 3], [bool; 2], [u64; 2]) {
    let mut multi = processors(rt, alloc, &TELLS_COUNT, 5, 256);
    let mut host = host(rt, alloc);
    let first = multi.turn(&mut host, 3);
    let second = multi.turn(&mut host, 3);
    let third = multi.turn(&mut host, 3);
    (
        [first, second, third],
        [multi.halted(3), multi.halted(4)],
        [multi.processor(3).steps(), multi.processor(4).steps()],
    )
}

#[test]
fn processors_begin(rt: HostRuntime) {
    assert_eq!(rt;
        begun(&rt, rt.alloc()),
        ([8, 7, DATA, 0x100, 0], 0x8d03_fe00_f617_0003, None)
    );
}

/// $0, $1, $254 and $255 of the last of eight processors, and an octa of its own memory; an octa of the one memory, and what
/// is in the data segment.
fn begun(rt: &impl Abort, alloc: Global) -> ([u64; 5], u64, Option<(u64, u64)>) {
    let multi = processors(rt, alloc, &COUNTS, 8, 256);
    let last = multi.processor(7);
    (
        [
            last.register(0),
            last.register(1),
            last.register(254),
            last.register(255),
            last.octa(0x100),
        ],
        multi.octa(0x100),
        multi.next_nonzero(DATA),
    )
}
