//! Reports, row by row: those of the program's watchers, and of a list with one that is full after a trace.

use crate::row::see;
use crate::watch::once::Once;
use mx_host::MemHost;
use mx_top::{Outcome, mmixware_watched};
use mx_watch::{Cover, Profile, Watcher, Writes};
use mx_words::WordsFault;
use std::alloc::Global;
use std::process::Abort;
use std::test::Fail;
use test_rows::{Due, FIRST, Given, host, words};

/// SETH and a store to the first octa of the data segment.
const STORE: &str = " LOC #100\nMain SETH $0,#2000\n STO $0,$0,0\n TRAP 0,Halt,0\n";

/// What is due of it where two of three watchers are full, the last one first.
static FULL: &[u8] =
    b"write #0000000000000104 #2000000000000000 8\ncover 2\nlast #0000000000000100";

const DATA_SEGMENT: u64 = 0x2000_0000_0000_0000;

const POOL_SEGMENT: u64 = 0x4000_0000_0000_0000;

/// A source, words, the calls that fail, and what is due.
type Row = (
    &'static str,
    &'static [&'static str],
    &'static [u64],
    Due<'static>,
);

static ROWS: [Row; 12] = [
    // a halt has no trace
    (
        FIRST,
        &["run", "--report", "hello.mms"],
        &[],
        Due {
            outcome: Outcome::Done(3),
            output: b"hi\n",
            errors: b"profile 00 TRAP 1\nprofile f5 GETA 1\ncover 2\n",
        },
    ),
    // no reports that are not asked for
    (
        FIRST,
        &["run", "hello.mms"],
        &[],
        Due {
            outcome: Outcome::Done(3),
            output: b"hi\n",
            errors: b"",
        },
    ),
    // a write to the data segment
    (
        STORE,
        &["run", "--report", "hello.mms"],
        &[],
        Due {
            outcome: Outcome::Done(0),
            output: b"",
            errors: b"profile ad STO 1\nprofile e0 SETH 1\ncover 2\nwrite #0000000000000104 #2000000000000000 8\n",
        },
    ),
    // after the message of a run that stops, and of one that spends its steps
    (
        "Main SWYM\n FADD $0,$0,$0\n",
        &["run", "--report", "hello.mms"],
        &[],
        Due {
            outcome: Outcome::Stopped { pc: 4, reason: 110 },
            output: b"",
            errors: b"#0000000000000004: 110 Float\nprofile fd SWYM 1\ncover 1\n",
        },
    ),
    (
        "Main JMP Main\n",
        &["run", "--report", "--steps", "7", "hello.mms"],
        &[],
        Due {
            outcome: Outcome::StepsSpent { steps: 7 },
            output: b"",
            errors: b"7 steps spent\nprofile f0 JMP 7\ncover 1\n",
        },
    ),
    // a program that looks at the place of the register stack
    (
        "Main GET $255,rS\n TRAP 0,Halt,0\n",
        &["run", "--report", "--ring", "1024", "hello.mms"],
        &[],
        Due {
            outcome: Outcome::Done(0),
            output: b"",
            errors: b"profile fe GET 1\ncover 1\n",
        },
    ),
    // two codes of one name
    (
        "Main SETL $0,3\n1H SUBU $0,$0,1\n PBNZ $0,1B\n TRAP 0,Halt,0\n",
        &["run", "--report", "hello.mms"],
        &[],
        Due {
            outcome: Outcome::Done(0),
            output: b"",
            errors: b"profile 27 SUBU 3\nprofile 5b PBNZ 3\nprofile e3 SETL 1\ncover 3\n",
        },
    ),
    // nothing ran
    (
        "Main FROB\n",
        &["run", "--report", "hello.mms"],
        &[],
        Due {
            outcome: Outcome::Refused {
                line: 1,
                fault: 39,
                from_line: 0,
            },
            output: b"",
            errors: b"line 1: 39 UnknownOpcode\ncover 0\n",
        },
    ),
    (
        FIRST,
        &["run", "--report", "other.mms"],
        &[],
        Due {
            outcome: Outcome::NoFile,
            output: b"",
            errors: b"no file\ncover 0\n",
        },
    ),
    // words that are no order have no report
    (
        FIRST,
        &["run", "-i", "--report", "hello.mms"],
        &[],
        Due {
            outcome: Outcome::Usage(WordsFault { kind: 10, word: 2 }),
            output: b"",
            errors: b"usage fault 10 Conflict at word 2\n",
        },
    ),
    // a report that is not written changes nothing else
    (
        FIRST,
        &["run", "--report", "hello.mms"],
        &[4],
        Due {
            outcome: Outcome::Done(3),
            output: b"hi\n",
            errors: b"cover 2\n",
        },
    ),
    (
        FIRST,
        &["run", "--report", "hello.mms"],
        &[5],
        Due {
            outcome: Outcome::Done(3),
            output: b"hi\n",
            errors: b"profile 00 TRAP 1\nprofile f5 GETA 1\n",
        },
    ),
];

/// The outcome of words over a host with the watchers of the program, and how many of these are left.
fn with_three(
    rt: &impl Abort,
    alloc: Global,
    host: &mut MemHost,
    words: &[String],
) -> (Outcome, usize) {
    let mut watchers: Vec<Box<dyn Watcher>> = Vec::new(alloc);
    let profile = Profile::new(alloc).expect(rt, "memory");
    let first: Box<dyn Watcher> = Box::new(alloc, profile).expect(rt, "memory");
    watchers.push(first).expect(rt, "memory");
    let cover = Cover::new(alloc).expect(rt, "memory");
    let second: Box<dyn Watcher> = Box::new(alloc, cover).expect(rt, "memory");
    watchers.push(second).expect(rt, "memory");
    let writes = Writes::new(alloc, DATA_SEGMENT, POOL_SEGMENT, 100).expect(rt, "memory");
    let third: Box<dyn Watcher> = Box::new(alloc, writes).expect(rt, "memory");
    watchers.push(third).expect(rt, "memory");
    let outcome = mmixware_watched(alloc, words, host, &mut watchers);
    (outcome, watchers.len())
}

/// The same with the first write to the data segment, the number of the addresses, and one that is full after a trace.
fn with_full_ones(
    rt: &impl Abort,
    alloc: Global,
    host: &mut MemHost,
    words: &[String],
) -> (Outcome, usize) {
    let mut watchers: Vec<Box<dyn Watcher>> = Vec::new(alloc);
    let writes = Writes::new(alloc, DATA_SEGMENT, POOL_SEGMENT, 1).expect(rt, "memory");
    let first: Box<dyn Watcher> = Box::new(alloc, writes).expect(rt, "memory");
    watchers.push(first).expect(rt, "memory");
    let cover = Cover::new(alloc).expect(rt, "memory");
    let second: Box<dyn Watcher> = Box::new(alloc, cover).expect(rt, "memory");
    watchers.push(second).expect(rt, "memory");
    let once = Once {
        pc: 0,
        told: false,
        alloc,
    };
    let third: Box<dyn Watcher> = Box::new(alloc, once).expect(rt, "memory");
    watchers.push(third).expect(rt, "memory");
    let outcome = mmixware_watched(alloc, words, host, &mut watchers);
    (outcome, watchers.len())
}

/// A host that has a source, and the calls that fail.
fn source_host(alloc: Global, source: &str, failing: &[u64]) -> Result<MemHost, Fail> {
    let given = Given {
        name: "hello.mms",
        bytes: source.as_bytes(),
        input: b"",
        failing,
    };
    host(alloc, given)
}

/// Whether a row comes to what is due, with the watchers of the program.
fn comes(rt: &impl Abort, alloc: Global, row: &Row) -> Result<bool, Fail> {
    let words = words(alloc, row.1)?;
    let mut host = source_host(alloc, row.0, row.2)?;
    let (outcome, left) = with_three(rt, alloc, &mut host, words.as_slice());
    Ok(
        outcome == row.3.outcome
            && left == 3
            && host.output() == row.3.output
            && host.errors() == row.3.errors,
    )
}

/// Whether the store is reported by watchers that are full, in the order of the list, and one is left.
fn full_ones_leave(rt: &impl Abort, alloc: Global) -> Result<bool, Fail> {
    let words = words(alloc, &["run", "--report", "hello.mms"])?;
    let mut host = source_host(alloc, STORE, &[])?;
    let (outcome, left) = with_full_ones(rt, alloc, &mut host, words.as_slice());
    Ok(outcome == Outcome::Done(0) && left == 1 && host.errors() == FULL)
}

#[test]
fn reports_follow_the_message(rt: HostRuntime) -> Result<(), Fail> {
    for row in &ROWS {
        see(comes(&rt, rt.alloc(), row)?, row.1)?;
    }
    Ok(())
}

#[test]
fn watchers_that_are_full_leave(rt: HostRuntime) -> Result<(), Fail> {
    assert!(rt; full_ones_leave(&rt, rt.alloc())?);
    Ok(())
}
