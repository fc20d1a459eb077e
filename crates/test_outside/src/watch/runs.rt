//! Runs of small programs that watchers are told of: their ends, and the reports of a profile, a cover and the writes
//! to the data segment. Tetras and texts are worked out by hand.

use crate::watch::watchers::{are_reports, once};
use mx_core::Machine;
use mx_host::MemHost;
use mx_load::Loader;
use mx_ring::RingSize;
use mx_run::End;
use mx_start::start;
use mx_watch::{Cover, Profile, Reports, Watcher, Writes, run_with_watchers};
use mx_word::{Bytes, Symbols};
use std::alloc::Global;
use std::process::Abort;

/// A program: the two octas at #100, the address of its first instruction, and a bound on the steps.
type Program = ([u64; 2], u64, u64);

/// Its end and what it writes, and the reports of the three watchers.
type Due = (End, &'static str, [&'static str; 3]);

/// The text of two letters and a newline; GETA $255 of it; TRAP 0,Fputs,StdOut and TRAP 0,Halt,0.
static PRINTS: Program = ([0x6869_0a00_f5ff_ffff, 0x0000_0701_0000_0000], 0x104, 100);

static PRINTED: Due = (
    End::Halted(3),
    "hi\n",
    ["profile 00 TRAP 1\nprofile f5 GETA 1\n", "cover 2\n", ""],
);

/// SETH $0,#2000 and STO $0,$0,0; TRAP 0,Halt,0.
static STORES: Program = ([0xe000_2000_ad00_0000, 0], 0x100, 100);

static STORED: Due = (
    End::Halted(0),
    "",
    [
        "profile ad STO 1\nprofile e0 SETH 1\n",
        "cover 2\n",
        "write #0000000000000104 #2000000000000000 8\n",
    ],
);

/// SWYM, and FADD, which this machine does not have.
static STOPS: Program = ([0xfd00_0000_0400_0000, 0], 0x100, 100);

static STOPPED: Due = (
    End::Stopped {
        pc: 0x104,
        reason: 110,
    },
    "",
    ["profile fd SWYM 1\n", "cover 1\n", ""],
);

/// JMP to itself.
static TURNS: Program = ([0xf000_0000_0000_0000, 0], 0x100, 7);

static TURNED: Due = (End::Spent, "", ["profile f0 JMP 7\n", "cover 1\n", ""]);

/// A machine with a program, about to begin.
fn machine(rt: &impl Abort, alloc: Global, program: &Program) -> Machine {
    let image = Loader::new(alloc)
        .finish(Symbols::new(alloc))
        .expect(rt, "an image");
    let size = RingSize::of(256).expect(rt, "a power of two");
    let args = [Bytes::copy(alloc, b"p").expect(rt, "memory")];
    let mut machine = start(alloc, image, &args, size).expect(rt, "a machine");
    machine.set_octa(0x100, program.0[0]).expect(rt, "memory");
    machine.set_octa(0x108, program.0[1]).expect(rt, "memory");
    machine.set_pc(program.1);
    machine
}

/// A host without input and files.
fn host(rt: &impl Abort, alloc: Global) -> MemHost {
    MemHost::new(alloc, Vec::new(alloc), Vec::new(alloc)).expect(rt, "memory")
}

/// Runs a program that watchers are told of. Whether its end, what it writes, and the reports of those that are left,
/// are those that are due, and none is kept.
fn is_reported(
    rt: &impl Abort,
    alloc: Global,
    program: &Program,
    due: &Due,
    watchers: &mut Vec<Box<dyn Watcher>>,
) -> bool {
    let mut machine = machine(rt, alloc, program);
    let mut host = host(rt, alloc);
    let mut kept = Reports::new(alloc);
    let run = run_with_watchers(
        alloc,
        &mut machine,
        &mut host,
        program.2,
        watchers,
        &mut kept,
    );
    run == due.0
        && host.output() == due.1.as_bytes()
        && kept.as_slice().is_empty()
        && have_reports(watchers.as_slice(), &due.2)
}

/// Whether these are the reports of the watchers, in order.
fn have_reports(watchers: &[Box<dyn Watcher>], texts: &[&str]) -> bool {
    if watchers.len() != texts.len() {
        return false;
    }
    for (watcher, text) in watchers.iter().zip(texts.iter()) {
        match watcher.summary() {
            Ok(found) => {
                if found.as_slice() != text.as_bytes() {
                    return false;
                }
            }
            Err(_) => return false,
        }
    }
    true
}

/// Whether a program comes to what is due, for a profile, a cover and the writes to the data segment.
fn comes_to(rt: &impl Abort, alloc: Global, program: &Program, due: &Due) -> bool {
    let mut watchers: Vec<Box<dyn Watcher>> = Vec::new(alloc);
    let profile = Profile::new(alloc).expect(rt, "memory");
    let first: Box<dyn Watcher> = Box::new(alloc, profile).expect(rt, "memory");
    watchers.push(first).expect(rt, "memory");
    let cover = Cover::new(alloc).expect(rt, "memory");
    let second: Box<dyn Watcher> = Box::new(alloc, cover).expect(rt, "memory");
    watchers.push(second).expect(rt, "memory");
    let writes = Writes::new(alloc, 0x2000_0000_0000_0000, 0x4000_0000_0000_0000, 100);
    let third: Box<dyn Watcher> = Box::new(alloc, writes.expect(rt, "memory")).expect(rt, "memory");
    watchers.push(third).expect(rt, "memory");
    is_reported(rt, alloc, program, due, &mut watchers)
}

#[test]
fn runs_are_reported(rt: HostRuntime) {
    let alloc = rt.alloc();
    assert!(rt; comes_to(&rt, alloc, &PRINTS, &PRINTED) && comes_to(&rt, alloc, &STORES, &STORED));
}

#[test]
fn runs_that_stop_or_spend_their_steps_are_reported(rt: HostRuntime) {
    let alloc = rt.alloc();
    assert!(rt; comes_to(&rt, alloc, &STOPS, &STOPPED) && comes_to(&rt, alloc, &TURNS, &TURNED));
}

/// Runs the program that prints. How it ends, how many watchers are left, and whether these reports are kept.
fn kept_of(
    rt: &impl Abort,
    alloc: Global,
    watchers: &mut Vec<Box<dyn Watcher>>,
    want: &[(usize, &str)],
) -> (End, usize, bool) {
    let mut machine = machine(rt, alloc, &PRINTS);
    let mut host = host(rt, alloc);
    let mut kept = Reports::new(alloc);
    let end = run_with_watchers(alloc, &mut machine, &mut host, 100, watchers, &mut kept);
    (end, watchers.len(), are_reports(kept.as_slice(), want))
}

#[test]
fn two_that_are_full_leave(rt: HostRuntime) {
    let alloc = rt.alloc();
    let mut watchers: Vec<Box<dyn Watcher>> = Vec::new(alloc);
    let first: Box<dyn Watcher> = Box::new(alloc, once(alloc)).expect(&rt, "memory");
    watchers.push(first).expect(&rt, "memory");
    let cover = Cover::new(alloc).expect(&rt, "memory");
    let second: Box<dyn Watcher> = Box::new(alloc, cover).expect(&rt, "memory");
    watchers.push(second).expect(&rt, "memory");
    let third: Box<dyn Watcher> = Box::new(alloc, once(alloc)).expect(&rt, "memory");
    watchers.push(third).expect(&rt, "memory");
    let want = [(0, "last #0000000000000104"), (2, "last #0000000000000104")];
    assert_eq!(rt;
        kept_of(&rt, alloc, &mut watchers, &want),
        (End::Halted(3), 1, true)
    );
}

#[test]
fn one_that_is_full_leaves_nobody(rt: HostRuntime) {
    let alloc = rt.alloc();
    let mut watchers: Vec<Box<dyn Watcher>> = Vec::new(alloc);
    let first: Box<dyn Watcher> = Box::new(alloc, once(alloc)).expect(&rt, "memory");
    watchers.push(first).expect(&rt, "memory");
    let want = [(0, "last #0000000000000104")];
    assert_eq!(rt;
        kept_of(&rt, alloc, &mut watchers, &want),
        (End::Halted(3), 0, true)
    );
}

#[test]
fn nobody_listens(rt: HostRuntime) {
    let alloc = rt.alloc();
    let mut watchers: Vec<Box<dyn Watcher>> = Vec::new(alloc);
    assert_eq!(rt;
        kept_of(&rt, alloc, &mut watchers, &[]),
        (End::Halted(3), 0, true)
    );
}
