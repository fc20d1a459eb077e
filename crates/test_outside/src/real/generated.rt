//! Calls by a generator, on the host in memory and on the real one side by side.

use mx_host::{Host, HostFault, MemHost, Mode, OpenFault};
use mx_real::RealHost;
use std::alloc::Global;
use std::fs::OpenOptions;
use std::{fs, io};

/// How many calls the generator makes, after the two that open the slots 6 and 7.
const CALLS: u64 = 10_000;

const OPENINGS: u64 = 2;

/// A file that is only read, and what is in it.
const TEXT_FILE: usize = 0;

/// The file that is read only, as long as the system says so.
const READ_ONLY: usize = 3;

/// A path in a folder that is missing.
const NO_FOLDER: usize = 4;

/// A path through a file.
const THROUGH: usize = 5;

/// A name that is too long.
const TOO_LONG: usize = 6;

const FOLDER: usize = 7;

static NAMES: [&str; 8] = [
    "made-text.bin",
    "made-a.bin",
    "made-b.bin",
    "made-read.bin",
    "made-none/x",
    "made-read.bin/x",
    "0123456789012345678901234567890123456789012345678901234567890123456789012345678901234567890123456789\
    0123456789012345678901234567890123456789012345678901234567890123456789012345678901234567890123456789\
    01234567890123456789012345678901234567890123456789012345678901234567890123456789",
    ".",
];

/// What every write to slot 6 fails on, because there is no room.
static FULL: &str = "/dev/full";

/// What is drawn: some slots, modes and kinds more often than others.
static SLOTS: [u16; 16] = [0, 1, 2, 3, 4, 5, 3, 4, 5, 6, 7, 3, 4, 5, 3, 4];

static MODES: [Mode; 8] = [
    Mode::TextRead,
    Mode::TextRead,
    Mode::BinaryRead,
    Mode::BinaryRead,
    Mode::BinaryReadWrite,
    Mode::BinaryReadWrite,
    Mode::TextWrite,
    Mode::BinaryWrite,
];

static KINDS: [Kind; 16] = [
    Kind::Open,
    Kind::Open,
    Kind::Close,
    Kind::Read,
    Kind::Read,
    Kind::Read,
    Kind::Read,
    Kind::Read,
    Kind::Write,
    Kind::Write,
    Kind::Write,
    Kind::Seek,
    Kind::Seek,
    Kind::Seek,
    Kind::Seek,
    Kind::Tell,
];

/// The kinds of calls on slot 6, a file that takes no bytes, and on slot 7, a folder; both stay open.
static KINDS_OF_FULL: [Kind; 4] = [Kind::Read, Kind::Write, Kind::Seek, Kind::Tell];

static KINDS_OF_FOLDER: [Kind; 3] = [Kind::Read, Kind::Write, Kind::Tell];

static TEXT: [u8; 16] = *b"abcdefghijklmnop";

#[derive(Clone, Copy, PartialEq)]
enum Kind {
    Open,
    Close,
    Read,
    Write,
    Seek,
    Tell,
}

/// One call: on which slot, and by kind the name and the mode, the number of bytes, or the place.
#[derive(Clone, Copy)]
struct Call {
    kind: Kind,
    slot: u16,
    name: usize,
    mode: Mode,
    len: usize,
    to: i64,
}

/// What a call answers.
#[derive(Clone, Copy, PartialEq)]
enum Answer {
    Done,
    Count(usize),
    Place(u64),
    Absent,
    Failed,
    Misused,
    OutOfMemory,
}

/// The next state of the generator, which is linear and congruential.
fn next(state: u64) -> u64 {
    state
        .wrapping_mul(6_364_136_223_846_793_005)
        .wrapping_add(1_442_695_040_888_963_407)
}

fn kind_of(slot: u16, draw: usize) -> Kind {
    match slot {
        6 => KINDS_OF_FULL[draw % 4],
        7 => KINDS_OF_FOLDER[draw % 3],
        _ => KINDS[draw % 16],
    }
}

/// The name that is opened: the text only for reading, the folder only for writing.
fn name_of(mode: Mode, draw: usize) -> usize {
    if mode.is_read_only() {
        draw % 7
    } else {
        draw % 7 + 1
    }
}

/// How many bytes are moved: none on slots 0 to 2, which lead to the standard streams.
fn len_of(slot: u16, draw: usize) -> usize {
    if slot < 3 { 0 } else { draw % 9 }
}

/// The call that a state means.
fn call_of(state: u64) -> Call {
    let draw = (state >> 33) as usize;
    let slot = SLOTS[draw / 16 % 16];
    let mode = MODES[draw / 256 % 8];
    Call {
        kind: kind_of(slot, draw),
        slot,
        name: name_of(mode, draw / 2048),
        mode,
        len: len_of(slot, draw / 16_384),
        to: (draw / 131_072 % 13) as i64 - 5,
    }
}

/// Whether the system refuses a call, where it refuses to write the file that is read only.
fn is_refused(call: &Call, is_locked: bool) -> bool {
    match call.kind {
        Kind::Open => match call.name {
            FOLDER | THROUGH | TOO_LONG => true,
            NO_FOLDER => !call.mode.is_read_only(),
            READ_ONLY => is_locked && !call.mode.is_read_only(),
            _ => false,
        },
        Kind::Read => call.slot == 7 && call.len > 0,
        Kind::Write => call.slot == 6 && call.len > 0,
        Kind::Close | Kind::Seek | Kind::Tell => false,
    }
}

fn opened(given: Result<(), OpenFault>) -> Answer {
    match given {
        Ok(()) => Answer::Done,
        Err(OpenFault::Absent) => Answer::Absent,
        Err(OpenFault::Failed) => Answer::Failed,
        Err(OpenFault::OutOfMemory) => Answer::OutOfMemory,
    }
}

fn failed(fault: HostFault) -> Answer {
    match fault {
        HostFault::Failed => Answer::Failed,
        HostFault::Misused => Answer::Misused,
        HostFault::OutOfMemory => Answer::OutOfMemory,
    }
}

fn done(given: Result<(), HostFault>) -> Answer {
    match given {
        Ok(()) => Answer::Done,
        Err(fault) => failed(fault),
    }
}

fn told(given: Result<u64, HostFault>) -> Answer {
    match given {
        Ok(place) => Answer::Place(place),
        Err(fault) => failed(fault),
    }
}

/// Reads, and gives the buffer.
fn read<H: Host>(host: &mut H, call: &Call) -> (Answer, [u8; 8]) {
    let mut bytes = *b"........";
    match host.read_slot(call.slot % 8, &mut bytes[..call.len % 9]) {
        Ok(count) => (Answer::Count(count), bytes),
        Err(fault) => (failed(fault), bytes),
    }
}

/// Writes a part of a text.
fn written<H: Host>(host: &mut H, call: &Call) -> Answer {
    let from = call.name % 8;
    let to = from + call.len % 9;
    done(host.write_slot(call.slot % 8, &TEXT[from..to]))
}

/// What a call answers, and the bytes that it reads.
fn apply<H: Host>(host: &mut H, call: &Call) -> (Answer, [u8; 8]) {
    let slot = call.slot % 8;
    let none = *b"........";
    match call.kind {
        Kind::Open => {
            let name = NAMES[call.name % 8].as_bytes();
            (opened(host.open_file(slot, name, call.mode)), none)
        }
        Kind::Close => (done(host.close_slot(slot)), none),
        Kind::Read => read(host, call),
        Kind::Write => (written(host, call), none),
        Kind::Seek => (done(host.seek_slot(slot, call.to)), none),
        Kind::Tell => (told(host.tell_slot(slot)), none),
    }
}

/// Opens the slots 6 and 7.
fn begin<H: Host>(host: &mut H) -> bool {
    host.open_file(6, FULL.as_bytes(), Mode::BinaryWrite) == Ok(())
        && host.open_file(7, NAMES[FOLDER].as_bytes(), Mode::BinaryRead) == Ok(())
}

/// The number of the first call that two hosts answer differently.
fn first_difference<A: Host, B: Host>(one: &mut A, other: &mut B) -> Option<u64> {
    let mut state = 1;
    for number in 0..CALLS {
        state = next(state);
        let call = call_of(state);
        if apply(one, &call) != apply(other, &call) {
            return Some(number);
        }
    }
    None
}

/// The numbers of the calls that the system refuses.
fn refused_calls(alloc: Global, is_locked: bool) -> Option<Vec<u64>> {
    let mut refused = Vec::new(alloc);
    let mut state = 1;
    for number in OPENINGS..OPENINGS + CALLS {
        state = next(state);
        if is_refused(&call_of(state), is_locked) {
            refused.push(number).ok()?;
        }
    }
    Some(refused)
}

/// Makes the files of the real host.
fn make_files(rt: &HostRuntime) -> io::Result<()> {
    remove_files(rt);
    let name = NAMES[READ_ONLY];
    fs::write(rt, NAMES[TEXT_FILE], &TEXT)?;
    fs::write(rt, name, "locked")?;
    let mut permissions = fs::metadata(rt, name)?.permissions();
    permissions.set_readonly(true);
    fs::set_permissions(rt, name, permissions)
}

/// Whether the system refuses to write the file that is read only.
fn is_locked(rt: &HostRuntime) -> bool {
    let mut options = OpenOptions::new();
    options.write(true);
    options.open(rt, NAMES[READ_ONLY]).is_err()
}

fn remove_files(rt: &HostRuntime) {
    for name in &NAMES[..4] {
        let _ = fs::remove_file(rt, *name);
    }
}

/// The host in memory with the same files.
fn memory(alloc: Global, is_locked: bool) -> Option<MemHost> {
    let refused = refused_calls(alloc, is_locked)?;
    let mut host = MemHost::new(alloc, Vec::new(alloc), refused).ok()?;
    let text = Vec::from_slice(alloc, &TEXT).ok()?;
    host.put_file(NAMES[TEXT_FILE].as_bytes(), text).ok()?;
    let locked = Vec::from_slice(alloc, b"locked").ok()?;
    host.put_file(NAMES[READ_ONLY].as_bytes(), locked).ok()?;
    host.put_file(NAMES[FOLDER].as_bytes(), Vec::new(alloc))
        .ok()?;
    Some(host)
}

fn is_same_file(rt: &HostRuntime, host: &MemHost, name: &str) -> bool {
    match fs::read(rt, name) {
        Ok(read) => match host.file(name.as_bytes()) {
            Some(bytes) => bytes == read.as_slice(),
            None => false,
        },
        Err(_) => host.file(name.as_bytes()).is_none(),
    }
}

/// How many of the four files are the same on both hosts.
fn same_files(rt: &HostRuntime, host: &MemHost) -> usize {
    let mut same = 0usize;
    for name in &NAMES[..4] {
        if is_same_file(rt, host, name) {
            same = same.saturating_add(1);
        }
    }
    same
}

/// Begins on both hosts and makes the calls: the first one that is answered differently.
fn compare<A: Host, B: Host>(one: &mut A, other: &mut B) -> Option<u64> {
    if begin(one) && begin(other) {
        first_difference(one, other)
    } else {
        Some(CALLS)
    }
}

fn differences(rt: HostRuntime, memory: &mut MemHost) -> (Option<u64>, usize) {
    let call = match RealHost::new(rt) {
        Some(mut real) => compare(memory, &mut real),
        None => Some(CALLS),
    };
    (call, same_files(&rt, memory))
}

/// The first call that is answered differently, and how many of the four files are the same then.
fn outcome(rt: HostRuntime) -> (Option<u64>, usize) {
    let _ = make_files(&rt);
    match memory(rt.alloc(), is_locked(&rt)) {
        Some(mut memory) => differences(rt, &mut memory),
        None => (Some(CALLS), 0),
    }
}

#[test]
fn calls_are_answered_as_in_memory(rt: HostRuntime) {
    assert_eq!(rt; outcome(rt), (None, 4));
}
