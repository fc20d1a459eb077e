//! Rows of calls over a host in memory, by hand from the rules of each call.

use Answer::{Absent, Bytes, Done, Failed, Misused, Place};
use Call::{Close, Open, Read, Seek, Tell, Write};
use mx_host::{Host, HostFault, MemHost, Mode, OpenFault};
use std::alloc::Global;
use std::process::Abort;

/// One call; a read asks for 4 bytes.
enum Call {
    Open(u16, &'static [u8], Mode),
    Close(u16),
    Read(u16),
    Write(u16, &'static [u8]),
    Seek(u16, i64),
    Tell(u16),
}

/// What a call answers; a read shows the four bytes of the buffer, where there were dots before.
#[derive(Clone, Copy, Debug, PartialEq)]
enum Answer {
    Done,
    Bytes(usize, [u8; 4]),
    Place(u64),
    Absent,
    Failed,
    Misused,
    OutOfMemory,
}

/// A call, what it answers, and what that shows.
type Row = (Call, Answer, &'static str);

/// The calls, one after another.
static ROWS: [Row; 43] = [
    // reading and seeking in a file that is there
    (
        Open(3, b"none", Mode::TextRead),
        Absent,
        "reading makes no file",
    ),
    (Open(3, b"in", Mode::BinaryRead), Done, "a file is opened"),
    (Read(3), Failed, "call 2 fails"),
    (Read(3), Bytes(4, *b"abcd"), "and did not move the place"),
    (Read(3), Bytes(2, *b"ef.."), "fewer bytes at the end"),
    (Read(3), Bytes(0, *b"...."), "none past the end"),
    (Tell(3), Place(6), "the place is past what was read"),
    (Seek(3, 2), Done, "a place from the start"),
    (Read(3), Bytes(4, *b"cdef"), "is where it reads"),
    (Seek(3, -7), Done, "-7 in 6 bytes"),
    (Tell(3), Place(0), "is the start"),
    (Seek(3, -1), Done, "-1"),
    (Tell(3), Place(6), "is the end"),
    (Seek(3, 7), Misused, "a place past the end"),
    (Seek(3, -8), Misused, "a place before the start"),
    (Write(3, b"x"), Misused, "a slot for reading"),
    (
        Open(4, b"in", Mode::TextRead),
        Done,
        "a file in a text mode",
    ),
    (Seek(4, 0), Misused, "does not move"),
    (Tell(4), Misused, "and tells no place"),
    // making, extending, changing and emptying a file
    (
        Open(5, b"out", Mode::BinaryReadWrite),
        Done,
        "a file is made",
    ),
    (Write(5, b"abcdef"), Done, "it is extended"),
    (Seek(5, 1), Done, "inside"),
    (Write(5, b"XY"), Done, "bytes are with_part"),
    (Read(5), Bytes(3, *b"def."), "and what follows stays"),
    (
        Open(6, b"out", Mode::BinaryWrite),
        Done,
        "the file is emptied",
    ),
    (Read(5), Bytes(0, *b"...."), "for the other slot too"),
    (Tell(5), Place(6), "whose place stays"),
    (Write(5, b""), Done, "no bytes fill no gap"),
    (Seek(5, 1), Misused, "so the file has still no bytes"),
    (Write(5, b"z"), Done, "a byte fills it"),
    (Read(6), Misused, "a slot for writing"),
    (Close(5), Done, "a slot is closed"),
    (Close(5), Misused, "once"),
    (Read(5), Misused, "and reads nothing then"),
    // the standard streams
    (Read(0), Bytes(4, *b"hell"), "standard input"),
    (Read(258), Bytes(1, *b"o..."), "is one for both slots"),
    (Write(1, b"hi"), Done, "standard output"),
    (Close(1), Done, "is closed for the program"),
    (Write(1, b"x"), Misused, "which writes no more"),
    (Write(259, b"!"), Done, "and stays open for the tool"),
    (Write(260, b"e"), Done, "standard error"),
    (Seek(259, 0), Misused, "has no place"),
    (Write(259, b"lost"), Failed, "call 42 fails"),
];

/// Standard output and error, the files `in`, `out` and `none`, and the number of calls.
type Left<'a> = (&'a [u8], &'a [u8], Files<'a>, u64);

type Files<'a> = (Option<&'a [u8]>, Option<&'a [u8]>, Option<&'a [u8]>);

/// What the calls leave.
static LEFT: Left<'static> = (
    b"hi!",
    b"e",
    (Some(b"abcdef"), Some(b"\0\0\0\0\0\0z"), None),
    43,
);

fn refused(fault: HostFault) -> Answer {
    match fault {
        HostFault::Failed => Answer::Failed,
        HostFault::Misused => Answer::Misused,
        HostFault::OutOfMemory => Answer::OutOfMemory,
    }
}

fn done(answer: Result<(), HostFault>) -> Answer {
    match answer {
        Ok(()) => Answer::Done,
        Err(fault) => refused(fault),
    }
}

fn opened(answer: Result<(), OpenFault>) -> Answer {
    match answer {
        Ok(()) => Answer::Done,
        Err(OpenFault::Absent) => Answer::Absent,
        Err(OpenFault::Failed) => Answer::Failed,
        Err(OpenFault::OutOfMemory) => Answer::OutOfMemory,
    }
}

fn told(answer: Result<u64, HostFault>) -> Answer {
    match answer {
        Ok(place) => Answer::Place(place),
        Err(fault) => refused(fault),
    }
}

fn read<H: Host>(host: &mut H, slot: u16) -> Answer {
    let mut into = *b"....";
    match host.read_slot(slot.min(260), &mut into) {
        Ok(count) => Answer::Bytes(count, into),
        Err(fault) => refused(fault),
    }
}

fn answer_to<H: Host>(host: &mut H, call: &Call) -> Answer {
    match *call {
        Call::Open(slot, name, mode) => opened(host.open_file(slot.min(257), name, mode)),
        Call::Close(slot) => done(host.close_slot(slot.min(260))),
        Call::Read(slot) => read(host, slot),
        Call::Write(slot, from) => done(host.write_slot(slot.min(260), from)),
        Call::Seek(slot, to) => done(host.seek_slot(slot.min(260), to)),
        Call::Tell(slot) => told(host.tell_slot(slot.min(260))),
    }
}

/// Puts a file there.
fn put(rt: &impl Abort, alloc: Global, host: &mut MemHost, name: &[u8], bytes: &[u8]) {
    let bytes = Vec::from_slice(alloc, bytes).expect(rt, "memory");
    host.put_file(name, bytes).expect(rt, "memory");
}

/// A host with one file, `in`, and two failing calls.
fn start(rt: &impl Abort, alloc: Global) -> MemHost {
    let input = Vec::from_slice(alloc, b"hello").expect(rt, "memory");
    let failing = Vec::from_slice(alloc, &[2, 42]).expect(rt, "memory");
    let mut host = MemHost::new(alloc, input, failing).expect(rt, "memory");
    put(rt, alloc, &mut host, b"in", b"old");
    put(rt, alloc, &mut host, b"in", b"abcdef");
    host
}

/// Makes these calls, one after another.
fn check<H: Host>(rt: &impl Abort, host: &mut H, rows: &[Row]) {
    for (call, want, what) in rows {
        assert_eq!(rt; answer_to(host, call), *want, "{what}");
    }
}

/// What a host has.
fn left(host: &MemHost) -> Left<'_> {
    (
        host.output(),
        host.errors(),
        (host.file(b"in"), host.file(b"out"), host.file(b"none")),
        host.calls(),
    )
}

/// Sees what the calls leave.
fn is_left(rt: &impl Abort, host: &MemHost) {
    assert_eq!(rt; left(host), LEFT);
}

#[test]
fn calls_answer_by_the_rules(rt: HostRuntime) {
    let mut host = start(&rt, rt.alloc());
    check(&rt, &mut host, &ROWS);
    is_left(&rt, &host);
}
