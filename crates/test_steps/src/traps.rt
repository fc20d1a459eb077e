//! Rows of file traps over memory and a host in memory. The values are by hand from the table of
//! services in MMIXware, "Simulating a simple operating system".

use mx_alu::TrapCall;
use mx_host::MemHost;
use mx_mem::Memory;
use mx_trap::TrapAnswer::{Halt, Stopped, Value};
use mx_trap::TrapStop::{Negative, TransferTooLarge, TrapPagesFull, UnknownTrap, WideTrap};
use mx_trap::{TrapAnswer, TrapStop, touches, trap};
use std::alloc::Global;
use std::process::Abort;

/// Where the arguments are, and the buffer after them.
const ARGS: u64 = 0x2000_0000_0000_0000;

const BUFFER: u64 = ARGS + 16;

/// Where texts are: `out`, `none`, and `hi` with a newline.
const OUT: u64 = ARGS + 64;

const NONE: u64 = ARGS + 72;

const HI: u64 = ARGS + 80;

/// The last two bytes of a page.
const EDGE: u64 = ARGS + 0x1ffe;

/// -1 as an octa.
const MINUS_ONE: u64 = u64::MAX;

/// Y and Z, the arguments p and q, the answer, and what that shows. Of Fclose, Fputs, Fseek and
/// Ftell p is what $255 has.
type Row = (u8, u8, u64, u64, TrapAnswer, &'static str);

/// What the services do, one call after another.
static SERVICES: [Row; 35] = [
    // the standard streams, and misuses of them
    (7, 1, HI, 0, Value(3), "a text is written"),
    (7, 0, HI, 0, Value(MINUS_ONE), "but not to standard input"),
    (6, 2, HI, 2, Value(0), "two bytes to standard error"),
    (6, 1, HI, 0, Value(0), "no bytes are written"),
    (6, 0, HI, 0, Value(0), "n is 0 for a misuse, too"),
    (6, 9, HI, 3, Value(MINUS_ONE - 2), "a slot that is not open"),
    (9, 1, 0, 0, Value(MINUS_ONE), "standard output has no place"),
    (10, 1, 0, 0, Value(MINUS_ONE), "none at all"),
    (3, 1, BUFFER, 4, Value(MINUS_ONE - 4), "nor can it be read"),
    (4, 1, BUFFER, 4, Value(MINUS_ONE), "not even a line"),
    (
        4,
        0,
        BUFFER,
        0,
        Value(MINUS_ONE),
        "there is no room for a line",
    ),
    (4, 0, BUFFER, 1, Value(0), "there is room for the zero byte"),
    (4, 0, BUFFER, 8, Value(2), "a line"),
    (3, 0, BUFFER, 0, Value(0), "no bytes are read"),
    (
        3,
        0,
        BUFFER,
        8,
        Value(MINUS_ONE - 4),
        "the end of the input",
    ),
    (2, 0, 0, 0, Value(0), "a slot is closed"),
    (2, 0, 0, 0, Value(MINUS_ONE), "once"),
    // a file is made, written, read and closed
    (1, 3, NONE, 2, Value(MINUS_ONE), "there is no such file"),
    (1, 3, OUT, 5, Value(MINUS_ONE), "there is no such mode"),
    (2, 3, 0, 0, Value(MINUS_ONE), "so the slot is not open"),
    (1, 3, OUT, 4, Value(0), "a file is made"),
    (6, 3, HI, 3, Value(0), "three bytes"),
    (10, 3, 0, 0, Value(3), "stand before the place"),
    (9, 3, 1, 0, Value(0), "a place inside"),
    (9, 3, 4, 0, Value(MINUS_ONE), "a place outside"),
    (3, 3, EDGE, 2, Value(0), "the last bytes are read"),
    (9, 3, MINUS_ONE - 2, 0, Value(0), "a place from the end"),
    (4, 3, BUFFER, 8, Value(2), "to the newline"),
    (4, 3, BUFFER, 8, Value(MINUS_ONE), "no line is left"),
    (9, 3, 0, 0, Value(0), "the start"),
    (3, 3, EDGE, 3, Value(0), "bytes across two pages"),
    (3, 3, EDGE, 3, Value(MINUS_ONE - 2), "the end of the file"),
    (1, 3, OUT, 0, Value(0), "the text mode"),
    (10, 3, 0, 0, Value(MINUS_ONE), "has no place"),
    (6, 3, HI, 3, Value(MINUS_ONE - 2), "and is for reading"),
];

/// What the services leave: standard output and error, and the octas at the end of a page and on the
/// next page.
static LEFT: (&[u8], &[u8], (u64, u64)) = (b"hi\n", b"hi", (0x6869, 0x0a00_0000_0000_0000));

/// Stops, in the order in which they are tried.
static STOPS: [Row; 14] = [
    (0, 0, 0, 0, Halt, "the end of the program"),
    (0, 1, 0, 0, Stopped(UnknownTrap), "not with Z"),
    (11, 0, 0, 0, Stopped(UnknownTrap), "Y is above 10"),
    (5, 0, 0, 0, Stopped(WideTrap), "Fgetws"),
    (8, 0, 0, 0, Stopped(WideTrap), "Fputws"),
    (7, 1, 1 << 63, 0, Stopped(Negative), "a text"),
    (1, 3, 1 << 63, 5, Stopped(Negative), "a name"),
    (7, 1, (1 << 63) - 1, 0, Value(0), "a text of no bytes"),
    (3, 0, 0, (1 << 24) + 1, Stopped(TransferTooLarge), "a size"),
    (
        3,
        0,
        1 << 63,
        (1 << 24) + 1,
        Stopped(TransferTooLarge),
        "before its buffer",
    ),
    (3, 0, 1 << 63, 1, Stopped(Negative), "a buffer"),
    (6, 1, (1 << 63) - 1, 2, Stopped(Negative), "its last byte"),
    (6, 1, 1 << 63, 0, Value(0), "a buffer of no bytes"),
    (4, 0, (1 << 63) - 8, 9, Stopped(Negative), "a line"),
];

/// The word of a call, where $255 points, the stop, and what that shows.
static NO_CALLS: [(u32, u64, TrapAnswer, &str); 2] = [
    (0x1_0501, 0, Stopped(UnknownTrap), "X counts first"),
    (
        0x601,
        (1 << 63) - 8,
        Stopped(Negative),
        "the second argument",
    ),
];

/// Where the call is, where $255 points, Y, and whether it touches Stack_Segment, with
/// p = #5fffffffffffffff and q = 1 at `ARGS`.
static TOUCHES: [(u64, u64, u8, bool); 11] = [
    (0, ARGS, 6, false),
    (0, ARGS, 1, true),
    (0, 0x5fff_ffff_ffff_fff7, 3, false),
    (0, 0x5fff_ffff_ffff_fff8, 3, true),
    (0, (1 << 63) - 8, 3, true),
    (0, 1 << 63, 3, false),
    (0, 0x5fff_ffff_ffff_ffff, 7, true),
    (0, 0x5fff_ffff_ffff_fffe, 7, false),
    (0, 0x6000_0000_0000_0000, 5, false),
    (0, 0x6000_0000_0000_0000, 9, false),
    (3 << 61, 0, 0, true),
];

/// Those arguments, and the last octa of Stack_Segment.
static AT_THE_END: [(u64, u64); 3] = [
    (ARGS, 0x5fff_ffff_ffff_ffff),
    (ARGS + 8, 1),
    (0x5fff_ffff_ffff_ffff, 1),
];

/// Input, a failing call, Y, the answer, and the octa of the buffer, for 8 bytes from standard input.
type Reading = (&'static [u8], u64, u8, u64, u64, &'static str);

static READINGS: [Reading; 7] = [
    (b"ab\n", 9, 4, 3, 0x6162_0a00_0000_0000, "a line"),
    (b"abcdefgh", 9, 4, 7, 0x6162_6364_6566_6700, "a full buffer"),
    (b"ab", 9, 4, MINUS_ONE, 0x6162_0000_0000_0000, "no newline"),
    (
        b"ab\n",
        1,
        4,
        MINUS_ONE,
        0x6100_0000_0000_0000,
        "call 1 fails",
    ),
    (
        b"ab",
        9,
        3,
        MINUS_ONE - 5,
        0x6162_0000_0000_0000,
        "two bytes",
    ),
    (b"ab", 0, 3, MINUS_ONE - 8, 0, "call 0 fails"),
    (b"abcdefghi", 9, 3, 0, 0x6162_6364_6566_6768, "all of them"),
];

/// Y, p and q, and the answer where the call of the host fails.
static FAILURES: [(u8, u64, u64, u64); 8] = [
    (1, OUT, 1, MINUS_ONE),
    (2, 0, 0, MINUS_ONE),
    (3, BUFFER, 4, MINUS_ONE - 4),
    (4, BUFFER, 4, MINUS_ONE),
    (6, BUFFER, 4, MINUS_ONE - 3),
    (7, HI, 0, MINUS_ONE),
    (9, 0, 0, MINUS_ONE),
    (10, 0, 0, MINUS_ONE),
];

/// The reasons to stop, and their numbers.
static NUMBERS: [(TrapStop, u16); 5] = [
    (Negative, 113),
    (WideTrap, 121),
    (TransferTooLarge, 122),
    (TrapPagesFull, 123),
    (UnknownTrap, 124),
];

/// The texts, by their addresses.
static TEXTS: [(u64, u64); 3] = [
    (OUT, 0x6f75_7400_0000_0000),
    (NONE, 0x6e6f_6e65_0000_0000),
    (HI, 0x6869_0a00_0000_0000),
];

fn store(rt: &impl Abort, memory: &mut Memory, rows: &[(u64, u64)]) {
    for (a, x) in rows {
        memory.store(*a % (1 << 63), *x).expect(rt, "memory");
    }
}

/// A memory with the texts.
fn texts(rt: &impl Abort, alloc: Global) -> Memory {
    let mut memory = Memory::new(alloc);
    store(rt, &mut memory, &TEXTS);
    memory
}

/// A host with this input, whose call of this number fails.
fn start(rt: &impl Abort, alloc: Global, input: &[u8], failing: u64) -> MemHost {
    let input = Vec::from_slice(alloc, input).expect(rt, "memory");
    let failing = Vec::from_slice(alloc, &[failing]).expect(rt, "memory");
    MemHost::new(alloc, input, failing).expect(rt, "memory")
}

/// What $255 has for these arguments: p alone, or where both are.
fn argument(rt: &impl Abort, memory: &mut Memory, y: u8, p: u64, q: u64) -> u64 {
    match y {
        2 | 7 | 9 | 10 => p,
        _ => {
            store(rt, memory, &[(ARGS, p), (ARGS + 8, q)]);
            ARGS
        }
    }
}

/// What a call comes to that is at #100.
fn call(
    rt: &impl Abort,
    alloc: Global,
    memory: &mut Memory,
    host: &mut MemHost,
    y: u8,
    z: u8,
    p: u64,
    q: u64,
) -> TrapAnswer {
    let call = TrapCall {
        pc: 0x100,
        word: u32::from(y) * 256 + u32::from(z),
        arg: argument(rt, memory, y, p, q),
    };
    trap(alloc, memory, host, &call)
}

/// A memory and a host after these calls, one after another, over an input.
fn after(rt: &impl Abort, alloc: Global, input: &[u8], rows: &[Row]) -> (Memory, MemHost) {
    let mut memory = texts(rt, alloc);
    let mut host = start(rt, alloc, input, 99);
    for (y, z, p, q, want, what) in rows {
        assert_eq!(rt;
            call(rt, alloc, &mut memory, &mut host, *y, *z, *p, *q),
            *want,
            "{what}"
        );
    }
    (memory, host)
}

/// What a call comes to over an input, where the call of the host with a number fails: its answer,
/// the octa of the buffer, how many calls the host had, and how much standard output.
fn alone(
    rt: &impl Abort,
    alloc: Global,
    input: &[u8],
    failing: u64,
    y: u8,
    z: u8,
    p: u64,
    q: u64,
) -> (TrapAnswer, u64, u64, usize) {
    let mut memory = texts(rt, alloc);
    let mut host = start(rt, alloc, input, failing);
    let answer = call(rt, alloc, &mut memory, &mut host, y, z, p, q);
    (
        answer,
        memory.load(BUFFER),
        host.calls(),
        host.output().len(),
    )
}

#[test]
fn reads_standard_input(rt: HostRuntime) {
    for (input, failing, y, want, octa, what) in &READINGS {
        let (answer, buffer, _, _) = alone(&rt, rt.alloc(), input, *failing, *y, 0, BUFFER, 8);
        assert_eq!(rt; (answer, buffer), (Value(*want), *octa), "{what}");
    }
}

/// Sees what the services leave.
fn is_left(rt: &impl Abort, memory: &Memory, host: &MemHost) {
    let octas = (memory.load(EDGE), memory.load(EDGE + 2));
    assert_eq!(rt; (host.output(), host.errors(), octas), LEFT);
}

#[test]
fn services_answer_by_the_table(rt: HostRuntime) {
    let (memory, host) = after(&rt, rt.alloc(), b"a\nbcd", &SERVICES);
    is_left(&rt, &memory, &host);
}

/// How many calls a host has had after these.
fn calls_after(rt: &impl Abort, alloc: Global, rows: &[Row]) -> u64 {
    let (_, host) = after(rt, alloc, b"", rows);
    host.calls()
}

#[test]
fn stops(rt: HostRuntime) {
    let calls = calls_after(&rt, rt.alloc(), &STOPS);
    assert_eq!(rt; calls, 2, "calls of the host come last");
}

#[test]
fn numbers_of_stops(rt: HostRuntime) {
    for (stop, number) in &NUMBERS {
        assert_eq!(rt; stop.number(), *number);
    }
}

/// What a call comes to with nothing in memory, and how many calls the host had.
fn answer_alone(rt: &impl Abort, alloc: Global, word: u32, arg: u64) -> (TrapAnswer, u64) {
    let call = TrapCall { pc: 0, word, arg };
    let mut host = start(rt, alloc, b"", 99);
    let answer = trap(alloc, &mut Memory::new(alloc), &mut host, &call);
    (answer, host.calls())
}

#[test]
fn calls_that_are_none(rt: HostRuntime) {
    for (word, arg, want, what) in &NO_CALLS {
        // calls of the host come last
        assert_eq!(rt;
            answer_alone(&rt, rt.alloc(), *word, *arg),
            (*want, 0),
            "{what}"
        );
    }
}

#[test]
fn touches_of_the_stack_segment(rt: HostRuntime) {
    let mut memory = Memory::new(rt.alloc());
    store(&rt, &mut memory, &AT_THE_END);
    for (pc, arg, y, want) in &TOUCHES {
        let call = TrapCall {
            pc: *pc,
            word: u32::from(*y) * 256,
            arg: *arg,
        };
        assert_eq!(rt; touches(&memory, &call), *want, "{y} with {arg}");
    }
}

#[test]
fn failing_calls_are_no_stops(rt: HostRuntime) {
    for (y, p, q, want) in &FAILURES {
        let (answer, _, calls, _) = alone(&rt, rt.alloc(), b"abcd", 0, *y, 0, *p, *q);
        assert_eq!(rt; (answer, calls), (Value(*want), 1), "service {y}");
    }
}

/// A memory with 65,535 pages, and one with the texts.
fn full(rt: &impl Abort, alloc: Global) -> Memory {
    let mut memory = texts(rt, alloc);
    for page in 0..65535 {
        memory.store(page * 4096, 0).expect(rt, "memory");
    }
    memory
}

#[test]
fn one_page_too_many_keeps_what_was_moved(rt: HostRuntime) {
    let mut memory = full(&rt, rt.alloc());
    let mut host = start(&rt, rt.alloc(), b"abc", 99);
    let edge = 65535 * 4096 - 2;
    let answer = call(&rt, rt.alloc(), &mut memory, &mut host, 3, 0, edge, 3);
    assert_eq!(rt;
        (answer, memory.load(edge)),
        (Stopped(TrapPagesFull), 0x6162),
        "the bytes before stand"
    );
}

#[test]
fn pieces_before_a_failing_call_count(rt: HostRuntime) {
    let (answer, _, _, written) = alone(&rt, rt.alloc(), b"", 1, 6, 1, BUFFER, 5000);
    assert_eq!(rt;
        (answer, written),
        (Value(MINUS_ONE - 903), 4096),
        "4,096 of 5,000 bytes"
    );
}
