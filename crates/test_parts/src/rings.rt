//! The register stack from outside.

mod rows;

use mx_ring::{Ring, RingFault, RingSize, Saved};
use rows::{BASE, CALLS, END, FRAMES, FULL, GLOBALS, Op, Row, SHORT_FRAMES, SPECIALS};
use std::alloc::Global;
use std::process::Abort;

/// Rings of four sizes. What a program sees is the same on each.
static SIZES: [u32; 4] = [256, 512, 1024, 65_536];

/// A ring of this many registers.
fn ring(rt: &impl Abort, alloc: Global, registers: u32) -> Ring {
    let size = RingSize::of(registers).expect(rt, "a power of two");
    Ring::with_size(alloc, size).expect(rt, "memory")
}

/// Does one operation, and looks at what UNSAVE gives.
fn apply(rt: &impl Abort, ring: &mut Ring, op: Op) -> Result<(), RingFault> {
    match op {
        Op::Set(k, x) => ring.set(k, x),
        Op::Cut(l) => {
            assert!(rt; l <= ring.l());
            ring.cut_locals(l);
            Ok(())
        }
        Op::Global(g) => {
            assert!(rt; g >= 32 && ring.l() <= g);
            ring.set_global_start(g);
            Ok(())
        }
        Op::Push(x) => ring.push(x),
        Op::Pop(x) => ring.pop(x),
        Op::Save(x) => {
            assert!(rt; ring.g() <= x);
            ring.save(x, &SPECIALS)
        }
        Op::Unsave(a, specials) => {
            assert_eq!(rt; ring.unsave(a)?, specials, "UNSAVE {a}");
            Ok(())
        }
    }
}

/// Does operations, one after another.
fn check(rt: &impl Abort, ring: &mut Ring, rows: &[Row]) {
    for (i, (op, answer, l, g, hidden, (k, x))) in rows.iter().enumerate() {
        assert_eq!(rt;
            (
                apply(rt, ring, *op),
                ring.l(),
                ring.g(),
                ring.hidden(),
                ring.get(*k)
            ),
            (*answer, *l, *g, *hidden, *x),
            "row {i}: the answer, L, G, hidden registers, and the register"
        );
    }
}

#[test]
fn operations(rt: HostRuntime) {
    for size in &SIZES {
        for rows in [CALLS.as_slice(), &GLOBALS, &FRAMES, &SHORT_FRAMES] {
            check(&rt, &mut ring(&rt, rt.alloc(), *size), rows);
        }
    }
}

/// PUSHJ with $X this many times.
fn push(rt: &impl Abort, ring: &mut Ring, x: u8, count: u32) {
    for _ in 0..count {
        ring.push(x).expect(rt, "room");
    }
}

/// Fills the stack, and sees what is refused then.
fn fill(rt: &impl Abort, ring: &mut Ring) {
    push(rt, ring, 254, 4112);
    check(rt, ring, &FULL);
    assert_eq!(rt; (ring.ro(), ring.rs()), (END, END));
}

#[test]
fn a_full_stack(rt: HostRuntime) {
    for size in &SIZES {
        fill(&rt, &mut ring(&rt, rt.alloc(), *size));
    }
}

/// BZ $0,1F; GET $1,rJ; SUBU $3,$0,1; PUSHJ $2,Rec, as often as that goes down from 300 to 0.
fn go_down(rt: &impl Abort, ring: &mut Ring) {
    for left in 0..300 {
        assert_eq!(rt; ring.get(0), 300 - left);
        ring.set(1, 1000 + left).expect(rt, "room");
        ring.set(3, 299 - left).expect(rt, "room");
        ring.push(2).expect(rt, "room");
    }
}

/// ADDU $0,$0,$2; PUT rJ,$1; 1H POP 1,0, as often as PUSHJ went down.
fn come_back(rt: &impl Abort, ring: &mut Ring) {
    for sum in 0..300 {
        assert_eq!(rt; (ring.l(), ring.get(1)), (3, 1299 - sum));
        let total = ring.get(0).wrapping_add(ring.get(2));
        ring.set(0, total).expect(rt, "room");
        ring.pop(1).expect(rt, "a caller");
    }
}

/// SETL $1,300; PUSHJ $0,Rec, down to the last routine.
fn deepest(rt: &impl Abort, alloc: Global, size: u32) -> Ring {
    let mut ring = ring(rt, alloc, size);
    ring.set(1, 300).expect(rt, "room");
    ring.push(0).expect(rt, "room");
    go_down(rt, &mut ring);
    ring
}

/// The hidden registers at the last routine, and L, $0 and rO once all are done.
fn sum(rt: &impl Abort, alloc: Global, size: u32) -> (u32, u8, u64, u64) {
    let mut ring = deepest(rt, alloc, size);
    let hidden = ring.hidden();
    ring.pop(1).expect(rt, "a caller");
    come_back(rt, &mut ring);
    (hidden, ring.l(), ring.get(0), ring.ro())
}

/// The sum of the numbers up to 300 by a routine that calls itself: SETL $1,300; PUSHJ $0,Rec; and
/// Rec: BZ $0,1F; GET $1,rJ; SUBU $3,$0,1; PUSHJ $2,Rec; ADDU $0,$0,$2; PUT rJ,$1; 1H POP 1,0.
#[test]
fn a_recursive_sum(rt: HostRuntime) {
    for size in &SIZES {
        assert_eq!(rt; sum(&rt, rt.alloc(), *size), (901, 1, 45150, BASE));
    }
}

/// $k is 100 + k below `x`, a call hides these registers, $k is 200 + k below `own` there, and POP gives `n` of them.
fn call(rt: &impl Abort, ring: &mut Ring, x: u8, own: u8, n: u8) {
    for k in 0..x {
        ring.set(k, 100 + u64::from(k)).expect(rt, "room");
    }
    ring.push(x).expect(rt, "room");
    for k in 0..own {
        ring.set(k, 200 + u64::from(k)).expect(rt, "room");
    }
    ring.pop(n).expect(rt, "a caller");
}

/// What $k is after such a call.
fn after_call(k: u8, x: u8, n: u8) -> u64 {
    if k < x {
        100 + u64::from(k)
    } else if k == x && n > 0 {
        199 + u64::from(n)
    } else if k < x.saturating_add(n) {
        199 + u64::from(k - x)
    } else {
        0
    }
}

/// Makes calls that hide `x` registers, and looks at all that may be changed.
fn calls_of_width(rt: &impl Abort, ring: &mut Ring, x: u8) {
    for own in [3, 8, 9, 16, 17] {
        for n in 0..4 {
            call(rt, ring, x, own, n);
            assert_eq!(rt; (ring.l(), ring.hidden()), (x.saturating_add(n), 0));
            for k in 0..32 {
                assert_eq!(rt;
                    ring.get(k),
                    after_call(k, x, n),
                    "${k} after PUSHJ ${x} and POP {n}"
                );
            }
        }
    }
}

/// Calls with few registers and with more, where 8 or 16 are moved at once.
#[test]
fn calls_of_each_width(rt: HostRuntime) {
    for size in &SIZES {
        let mut ring = ring(&rt, rt.alloc(), *size);
        for x in 0..20 {
            calls_of_width(&rt, &mut ring, x);
        }
    }
}

/// The registers of a ring, how many of them are spilled once 300 are hidden, the octa that is then at
/// the start of the stack area, and what $0 is when they are back, where that octa became 7.
static SPILLS: [(u32, u32, u64, u64); 4] = [
    (256, 45, 3, 7),
    (512, 0, 0, 3),
    (1024, 0, 0, 3),
    (65_536, 0, 0, 3),
];

/// A ring where $0 is 3, $1 is 5 and L is 2, after PUSHJ $99 three times.
fn calls(rt: &impl Abort, alloc: Global, size: u32) -> Ring {
    let mut ring = ring(rt, alloc, size);
    ring.set(0, 3).expect(rt, "room");
    ring.set(1, 5).expect(rt, "room");
    push(rt, &mut ring, 99, 3);
    ring
}

/// The hidden and the spilled registers, rS, and the octa at the start of the stack area before and
/// after it becomes 7.
type Spilled = (u32, u32, u64, u64, u64);

fn spilled(ring: &mut Ring) -> Spilled {
    let (hidden, spilled, rs) = (ring.hidden(), ring.spilled(), ring.rs());
    let first = ring.stack_octa(0);
    ring.set_stack_octa(0, 7);
    (hidden, spilled, rs, first, ring.stack_octa(0))
}

/// $0, $1 and the spilled registers after POP 0,0 three times, and what UNSAVE then gives.
type Returned = (u64, u64, u32, Result<Saved, RingFault>);

fn returned(rt: &impl Abort, ring: &mut Ring) -> Returned {
    for _ in 0..3 {
        ring.pop(0).expect(rt, "a caller");
    }
    let (below, next) = (ring.get(0), ring.get(1));
    // UNSAVE reads the stack area, also above what is spilled: G 0 there is no frame
    (below, next, ring.spilled(), ring.unsave(BASE + 8 * 299))
}

/// What is seen while 300 registers are hidden, and once they are back.
fn there_and_back(rt: &impl Abort, alloc: Global, size: u32) -> (Spilled, Returned) {
    let mut ring = calls(rt, alloc, size);
    (spilled(&mut ring), returned(rt, &mut ring))
}

/// PUSHJ $99 three times with L = 2 leaves 300 hidden registers. Where the ring has 256 registers, 45
/// of them are spilled, and what is written there comes back; where it has more, none is.
#[test]
fn spilled_registers(rt: HostRuntime) {
    for (size, spilled, first, below) in &SPILLS {
        let rs = BASE + 8 * u64::from(*spilled);
        assert_eq!(rt;
            there_and_back(&rt, rt.alloc(), *size),
            (
                (300, *spilled, rs, *first, 7),
                (*below, 5, 0, Err(RingFault::BadFrame))
            ),
            "a ring of {size}"
        );
    }
}

/// Numbers, and how many registers a ring of that size has.
static REGISTERS: [(u32, Option<u32>); 18] = [
    (256, Some(256)),
    (512, Some(512)),
    (1024, Some(1024)),
    (2048, Some(2048)),
    (4096, Some(4096)),
    (8192, Some(8192)),
    (16_384, Some(16_384)),
    (32_768, Some(32_768)),
    (65_536, Some(65_536)),
    (0, None),
    (1, None),
    (128, None),
    (255, None),
    (257, None),
    (300, None),
    (65_535, None),
    (131_072, None),
    (u32::MAX, None),
];

#[test]
fn sizes_of_rings(rt: HostRuntime) {
    for (n, registers) in &REGISTERS {
        let size = RingSize::of(*n).map(|size| size.registers());
        assert_eq!(rt; size, *registers, "{n}");
    }
}

/// The faults, and their numbers.
static NUMBERS: [(RingFault, u16); 4] = [
    (RingFault::StackFull, 100),
    (RingFault::Underflow, 101),
    (RingFault::BadFrame, 102),
    (RingFault::OutOfMemory, 0),
];

#[test]
fn numbers_of_faults(rt: HostRuntime) {
    for (fault, number) in &NUMBERS {
        assert_eq!(rt; fault.number(), *number);
    }
}
