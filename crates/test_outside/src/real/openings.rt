//! What a slot leads to after a file was not opened on it, over the host in memory and over the real one.

use mx_host::{Host, MemHost, Mode, OpenFault};
use mx_real::RealHost;
use std::alloc::Global;
use std::fs;

/// The file that the slot leads to, and its bytes.
static NAME: &str = "opening.bin";

static BYTES: &str = "abcd";

/// A name and a mode that a second opening is given, and whether it fails; else there is no such file.
type Row = (&'static [u8], Mode, bool);

static ROWS: [Row; 9] = [
    // a folder, a path through a file, a name that is too long
    (b".", Mode::TextWrite, true),
    (b"opening.bin/x", Mode::BinaryRead, true),
    (
        b"0123456789012345678901234567890123456789012345678901234567890123456789012345678901234567890123456789\
        0123456789012345678901234567890123456789012345678901234567890123456789012345678901234567890123456789\
        01234567890123456789012345678901234567890123456789012345678901234567890123456789",
        Mode::BinaryReadWrite,
        true,
    ),
    // a folder that is missing, a name that is no text, none
    (b"none/x", Mode::BinaryWrite, true),
    (b"\xff", Mode::TextWrite, true),
    (b"", Mode::TextWrite, true),
    // no such file, since no file of the system can have the name that is no text
    (b"none/x", Mode::TextRead, false),
    (b"\xff", Mode::TextRead, false),
    (b"none.bin", Mode::BinaryRead, false),
];

/// What a read of two bytes of slot 3 gives; nothing where the slot is not open.
fn next_two<H: Host>(host: &mut H) -> Option<[u8; 2]> {
    let mut two = *b"..";
    match host.read_slot(3, &mut two) {
        Ok(_) => Some(two),
        Err(_) => None,
    }
}

/// Opens the file on slot 3 and reads two bytes.
fn begin<H: Host>(host: &mut H) -> bool {
    let opened = host.open_file(3, NAME.as_bytes(), Mode::BinaryRead) == Ok(());
    opened && next_two(host) == Some(*b"ab")
}

/// Whether a row is as it should be: the slot is left as it was where the opening fails, and closed where there is no
/// file.
fn is_as_due<H: Host>(host: &mut H, row: &Row) -> bool {
    let (name, mode, fails) = *row;
    let fault = if fails {
        OpenFault::Failed
    } else {
        OpenFault::Absent
    };
    let left = if fails { Some(*b"cd") } else { None };
    host.open_file(3, name, mode) == Err(fault) && next_two(host) == left
}

/// How many rows are as they should be before the first that is not. A row makes four calls.
fn rows_as_due<H: Host>(host: &mut H) -> usize {
    let mut count = 0usize;
    for row in &ROWS {
        if !(begin(host) && is_as_due(host, row)) {
            return count;
        }
        count = count.saturating_add(1);
    }
    count
}

/// The numbers of the openings that fail: the third call of such a row.
fn failing_calls(alloc: Global) -> Option<Vec<u64>> {
    let mut failing = Vec::new(alloc);
    let mut call = 2u64;
    for row in &ROWS {
        if row.2 {
            failing.push(call).ok()?;
        }
        call = call.saturating_add(4);
    }
    Some(failing)
}

fn memory(alloc: Global) -> Option<MemHost> {
    let mut host = MemHost::new(alloc, Vec::new(alloc), failing_calls(alloc)?).ok()?;
    let bytes = Vec::from_slice(alloc, BYTES.as_bytes()).ok()?;
    host.put_file(NAME.as_bytes(), bytes).ok()?;
    Some(host)
}

fn in_memory(alloc: Global) -> usize {
    match memory(alloc) {
        Some(mut host) => rows_as_due(&mut host),
        None => 0,
    }
}

fn on_files(rt: HostRuntime) -> usize {
    let _ = fs::write(&rt, NAME, BYTES);
    match RealHost::new(rt) {
        Some(mut host) => rows_as_due(&mut host),
        None => 0,
    }
}

#[test]
fn a_failed_opening_leaves_the_slot_and_a_missing_file_closes_it(rt: HostRuntime) {
    assert_eq!(rt; (in_memory(rt.alloc()), on_files(rt)), (9, 9));
}
