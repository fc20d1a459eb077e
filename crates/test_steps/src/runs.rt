//! Runs of a small program, by the flags of a tetra.

use crate::flags::{EXECUTE, NONE};
use mx_core::{Machine, Trace};
use mx_host::MemHost;
use mx_load::Loader;
use mx_ring::RingSize;
use mx_run::{BreakKind, End, Flags, Runner};
use mx_start::start;
use mx_word::{Bytes, Symbols};
use std::alloc::Global;
use std::process::Abort;

/// Addresses, and two instructions at each.
static PROGRAM: [(u32, u64); 3] = [
    // SETL $0,#200 and SETL $1,7
    (0x100, 0xe300_0200_e301_0007),
    // STO $1,$0,0 and LDT $2,$0,4
    (0x108, 0xad01_0000_8902_0004),
    // SETL $255,5 and TRAP 0,Halt,0
    (0x110, 0xe3ff_0005_0000_0000),
];

const READ: Flags = Flags {
    r: true,
    w: false,
    x: false,
    t: false,
};

const WRITE: Flags = Flags {
    r: false,
    w: true,
    x: false,
    t: false,
};

const TRACE: Flags = Flags {
    r: false,
    w: false,
    x: false,
    t: true,
};

/// The trace of SETL $1,7.
const SET: Trace = Trace {
    pc: 0x104,
    word: 0xe301_0007,
    dest: Some(1),
    reads: None,
    writes: None,
    next: 0x108,
};

/// Breaks without a trace.
const BEFORE_FIRST: End = End::Broke {
    kind: BreakKind::Execute,
    at: 0x100,
    traced: None,
};

const BEFORE_STORE: End = End::Broke {
    kind: BreakKind::Execute,
    at: 0x108,
    traced: None,
};

const WRITTEN: End = End::Broke {
    kind: BreakKind::Write,
    at: 0x204,
    traced: None,
};

const LOADED: End = End::Broke {
    kind: BreakKind::Read,
    at: 0x204,
    traced: None,
};

/// An address with its flags, a bound on the steps, whether a break at the first step is passed, the
/// end of the run, and how many steps it made.
type Row = (u64, Flags, u64, bool, End, u64);

static ROWS: [Row; 11] = [
    // without flags
    (0x100, NONE, 100, false, End::Halted(5), 6),
    (0x100, NONE, 6, false, End::Halted(5), 6),
    (0x100, NONE, 5, false, End::Spent, 5),
    // a break before an instruction, unless it is the first one and is passed
    (0x100, EXECUTE, 100, false, BEFORE_FIRST, 0),
    (0x100, EXECUTE, 100, true, End::Halted(5), 6),
    (0x108, EXECUTE, 100, true, BEFORE_STORE, 2),
    // the octa that is stored has two tetras, and the tetra that is loaded is one
    (0x204, WRITE, 100, false, WRITTEN, 3),
    (0x204, READ, 100, false, LOADED, 4),
    (0x200, READ, 100, false, End::Halted(5), 6),
    // a traced step, and one that does not come
    (0x104, TRACE, 100, false, End::Traced(SET), 2),
    (0x104, TRACE, 1, false, End::Spent, 1),
];

/// A machine at the start, with nothing in its memory but the word that it is called by.
fn bare(rt: &impl Abort, alloc: Global) -> Machine {
    let image = Loader::new(alloc)
        .finish(Symbols::new(alloc))
        .expect(rt, "an image");
    let size = RingSize::of(256).expect(rt, "a power of two");
    let args = [Bytes::copy(alloc, b"p").expect(rt, "memory")];
    start(alloc, image, &args, size).expect(rt, "a machine")
}

/// A machine with the program, about to begin.
fn machine(rt: &impl Abort, alloc: Global) -> Machine {
    let mut machine = bare(rt, alloc);
    for (a, octa) in &PROGRAM {
        machine.set_octa(u64::from(*a), *octa).expect(rt, "memory");
    }
    machine.set_pc(0x100);
    machine
}

/// A runner of the program, with flags at an address.
fn runner(rt: &impl Abort, alloc: Global, a: u64, flags: Flags) -> Runner {
    let mut runner = Runner::new(alloc, machine(rt, alloc));
    runner.set_flags(a, flags).expect(rt, "memory");
    runner
}

/// A host without input and files.
fn host(rt: &impl Abort, alloc: Global) -> MemHost {
    MemHost::new(alloc, Vec::new(alloc), Vec::new(alloc)).expect(rt, "memory")
}

/// How a run with these flags at an address ends, and how many steps it makes.
fn run(rt: &impl Abort, alloc: Global, a: u64, flags: Flags, n: u64, pass: bool) -> (End, u64) {
    let mut runner = runner(rt, alloc, a, flags);
    let end = runner.go(&mut host(rt, alloc), n, pass);
    (end, runner.machine().steps())
}

#[test]
fn runs_by_the_flags(rt: HostRuntime) {
    for (a, flags, n, pass, end, steps) in &ROWS {
        assert_eq!(rt;
            run(&rt, rt.alloc(), *a, *flags, *n, *pass),
            (*end, *steps),
            "flags at {a}"
        );
    }
}
