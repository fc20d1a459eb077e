//! The three watchers and lists of watchers, row by row. The texts are worked out by hand.

use crate::watch::once::Once;
use mx_core::{Touch, Trace};
use mx_watch::{Cover, Profile, Report, Reports, Watcher, Wish, Writes, watch};
use mx_word::{Bytes, NoMemory};
use std::alloc::Global;

/// A trace: the address and the tetra of its instruction, the address of a write, and its size or 0 for none.
type Row = (u64, u32, u64, u8);

/// A loop of three turns: SETL, and SUBU with a byte and PBNZ back in each. It writes nothing.
static TURNS: [Row; 7] = [
    (0x100, 0xe300_0003, 0, 0),
    (0x104, 0x2700_0001, 0, 0),
    (0x108, 0x5b00_ffff, 0, 0),
    (0x104, 0x2700_0001, 0, 0),
    (0x108, 0x5b00_ffff, 0, 0),
    (0x104, 0x2700_0001, 0, 0),
    (0x108, 0x5b00_ffff, 0, 0),
];

/// Two codes of one name, the second at two addresses. The address of all ones is the last one.
static NAMES: [Row; 3] = [
    (0x100, 0x2600_0102, 0, 0),
    (0x104, 0x2700_0102, 0, 0),
    (0xffff_ffff_ffff_fffc, 0x2700_0102, 0, 0),
];

/// Writes of each size: STB, STHT, STCO and STW.
static SIZES: [Row; 4] = [
    (0x104, 0xa100_0005, 0x2000_0000_0000_0005, 1),
    (0x108, 0xb300_000e, 0x2000_0000_0000_000c, 4),
    (0x10c, 0xb500_0011, 0x2000_0000_0000_0010, 8),
    (0x110, 0xa500_0003, 0x2000_0000_0000_0002, 2),
];

/// Writes below the part, to its first and its last octa, and after it.
static ENDS: [Row; 4] = [
    (0x100, 0xad00_0000, 0x1fff_ffff_ffff_fff8, 8),
    (0x104, 0xad00_0000, 0x2000_0000_0000_0000, 8),
    (0x108, 0xad00_0000, 0x3fff_ffff_ffff_fff8, 8),
    (0x10c, 0xad00_0000, 0x4000_0000_0000_0000, 8),
];

/// The trace of a row.
fn trace_of(row: &Row) -> Trace {
    let writes = if row.3 == 0 {
        None
    } else {
        Some(Touch {
            at: row.2,
            size: row.3,
        })
    };
    Trace {
        pc: row.0,
        word: row.1,
        dest: None,
        reads: None,
        writes,
        next: row.0.wrapping_add(4),
    }
}

/// Tells a watcher the traces of rows, also after it was full. Answers its report, and what it said last.
fn heard<W: Watcher>(watcher: &mut W, rows: &[Row]) -> Option<(Bytes, Wish)> {
    let mut wish = Wish::More;
    for row in rows {
        wish = watcher.tell(&trace_of(row)).ok()?;
    }
    Some((watcher.summary().ok()?, wish))
}

/// Whether a watcher that is told the traces of rows has this report, and says this at the last one.
fn is_heard<W: Watcher>(watcher: Option<W>, rows: &[Row], text: &str, wish: Wish) -> bool {
    let Some(mut watcher) = watcher else {
        return false;
    };
    match heard(&mut watcher, rows) {
        Some((found, said)) => found.as_slice() == text.as_bytes() && said == wish,
        None => false,
    }
}

/// Notes writes to the data segment.
fn writes_up_to(alloc: Global, cap: u32) -> Option<Writes> {
    Writes::new(
        alloc,
        0x2000_0000_0000_0000,
        0x4000_0000_0000_0000,
        cap.max(1),
    )
    .ok()
}

#[test]
fn profiles(rt: HostRuntime) {
    let alloc = rt.alloc();
    let turns = "profile 27 SUBU 3\nprofile 5b PBNZ 3\nprofile e3 SETL 1\n";
    let names = "profile 26 SUBU 1\nprofile 27 SUBU 2\n";
    assert!(rt;
        is_heard(Profile::new(alloc).ok(), &TURNS, turns, Wish::More)
            && is_heard(Profile::new(alloc).ok(), &NAMES, names, Wish::More)
            && is_heard(Profile::new(alloc).ok(), &[], "", Wish::More)
    );
}

#[test]
fn covers(rt: HostRuntime) {
    let alloc = rt.alloc();
    assert!(rt;
        is_heard(Cover::new(alloc).ok(), &TURNS, "cover 3\n", Wish::More)
            && is_heard(Cover::new(alloc).ok(), &NAMES, "cover 3\n", Wish::More)
            && is_heard(Cover::new(alloc).ok(), &[], "cover 0\n", Wish::More)
    );
}

/// The lines of the writes of each size, and of those inside the part.
static SIZE_LINES: &str = "write #0000000000000104 #2000000000000005 1
write #0000000000000108 #200000000000000c 4
write #000000000000010c #2000000000000010 8
write #0000000000000110 #2000000000000002 2
";

static END_LINES: &str = "write #0000000000000104 #2000000000000000 8
write #0000000000000108 #3ffffffffffffff8 8
";

#[test]
fn writes(rt: HostRuntime) {
    let alloc = rt.alloc();
    assert!(rt;
        is_heard(writes_up_to(alloc, 5), &SIZES, SIZE_LINES, Wish::More)
            && is_heard(writes_up_to(alloc, 4), &SIZES, SIZE_LINES, Wish::Full)
            && is_heard(writes_up_to(alloc, 3), &ENDS, END_LINES, Wish::More)
            && is_heard(writes_up_to(alloc, 1), &TURNS, "", Wish::More)
    );
}

/// The traces of rows.
fn traces_of(alloc: Global, rows: &[Row]) -> Option<Vec<Trace>> {
    let mut traces = Vec::new(alloc);
    for row in rows {
        traces.push(trace_of(row)).ok()?;
    }
    Some(traces)
}

/// Whether these are the reports, by their places and texts.
pub fn are_reports(kept: &[Report], want: &[(usize, &str)]) -> bool {
    if kept.len() != want.len() {
        return false;
    }
    for (report, row) in kept.iter().zip(want.iter()) {
        if report.place != row.0 || report.text.as_slice() != row.1.as_bytes() {
            return false;
        }
    }
    true
}

/// A watcher that is full after a trace.
pub fn once(alloc: Global) -> Once {
    Once {
        pc: 0,
        told: false,
        alloc,
    }
}

#[test]
fn full_after_one(rt: HostRuntime) {
    let alloc = rt.alloc();
    let mut watchers: Vec<Box<dyn Watcher>> = Vec::new(alloc);
    let first: Box<dyn Watcher> = Box::new(alloc, once(alloc)).expect(&rt, "memory");
    watchers.push(first).expect(&rt, "memory");
    let cover = Cover::new(alloc).expect(&rt, "memory");
    let second: Box<dyn Watcher> = Box::new(alloc, cover).expect(&rt, "memory");
    watchers.push(second).expect(&rt, "memory");
    let third: Box<dyn Watcher> = Box::new(alloc, once(alloc)).expect(&rt, "memory");
    watchers.push(third).expect(&rt, "memory");
    let want = [(0, "last #0000000000000100"), (2, "last #0000000000000100")];
    let traces = traces_of(alloc, &TURNS).expect(&rt, "memory");
    let mut kept = Reports::new(alloc);
    watch(alloc, traces.as_slice(), &mut watchers, &mut kept).expect(&rt, "memory");
    assert!(rt; watchers.len() == 1 && are_reports(kept.as_slice(), &want));
}

/// The traces of 150 writes of a byte, the first one 150 bytes after the start of the data segment and each next one a
/// byte before.
fn stores(alloc: Global) -> Option<Vec<Trace>> {
    let mut traces = Vec::new(alloc);
    for turn in 0..150 {
        let at = 0x2000_0000_0000_0000 + (150 - turn);
        traces.push(trace_of(&(0x104, 0xa100_0000, at, 1))).ok()?;
    }
    Some(traces)
}

/// Whether one report is kept, of the watcher at this place, with this many bytes and this end.
fn is_one(kept: &[Report], place: usize, size: usize, end: &str) -> bool {
    let Some(report) = kept.first() else {
        return false;
    };
    let text = report.text.as_slice();
    kept.len() == 1 && report.place == place && text.len() == size && text.ends_with(end.as_bytes())
}

#[test]
fn full_after_a_hundred(rt: HostRuntime) {
    let alloc = rt.alloc();
    let mut watchers: Vec<Box<dyn Watcher>> = Vec::new(alloc);
    let writes = writes_up_to(alloc, 100).expect(&rt, "memory");
    let watcher: Box<dyn Watcher> = Box::new(alloc, writes).expect(&rt, "memory");
    watchers.push(watcher).expect(&rt, "memory");
    let traces = stores(alloc).expect(&rt, "memory");
    let mut kept = Reports::new(alloc);
    watch(alloc, traces.as_slice(), &mut watchers, &mut kept).expect(&rt, "memory");
    let last = "write #0000000000000104 #2000000000000033 1\n";
    assert!(rt; watchers.is_empty() && is_one(kept.as_slice(), 0, 4400, last));
}
