//! Calls of the register stack that are taken back.

ghost use Rattle.std.specs.Prelude.{◌≤◌, ◌<◌, ◌^◌};
ghost use Rattle.mx_ring.specs.Notes.{WorkNeeds};

use mx_ring::{Ring, RingSize, RingWork, Saved};
use std::alloc::Global;
use std::process::Abort;

/// L, G, the numbers of hidden and spilled octas, $0, $99 and $255, and three octas of the stack area.
type Seen = ((u8, u8), (u32, u32), (u64, u64, u64), (u64, u64, u64));

/// The special registers of SAVE.
const SPECIALS: Saved = Saved {
    b: 1,
    d: 2,
    e: 3,
    h: 4,
    j: 5,
    m: 6,
    r: 7,
    p: 8,
    w: 9,
    x: 10,
    y: 11,
    z: 12,
    a: 13,
};

/// What is seen of a ring.
fn seen(ring: &Ring) -> Seen {
    (
        (ring.l(), ring.g()),
        (ring.hidden(), ring.spilled()),
        (ring.get(0), ring.get(99), ring.get(255)),
        (
            ring.stack_octa(0),
            ring.stack_octa(45),
            ring.stack_octa(201),
        ),
    )
}

/// What is seen after a call, and once it is taken back.
fn there_and_back(rt: &impl Abort, ring: &mut Ring, work: RingWork) -> (Seen, Seen)
    requires { WorkNeeds work ring.old }
{
    let (note, _) = ring.noted(work).expect(rt, "the call");
    let there = seen(ring);
    ring.undo(note);
    (there, seen(ring))
}

/// A ring of 256 registers, where $0 was 7 and 200 registers were hidden and spilled in part, and came back; then $0 is
/// 9 and they are hidden once more.
fn spilled_before(rt: &impl Abort, alloc: Global) -> Ring {
    let size = RingSize::of(256).expect(rt, "a power of two");
    let mut ring = Ring::with_size(alloc, size).expect(rt, "memory");
    ring.set(0, 7).expect(rt, "room");
    ring.push(200).expect(rt, "room");
    ring.set(99, 5).expect(rt, "room");
    ring.pop(0).expect(rt, "a caller");
    ring.set(0, 9).expect(rt, "room");
    ring.push(200).expect(rt, "room");
    ring
}

/// What is seen of that ring.
const BEFORE: Seen = ((0, 255), (201, 0), (0, 0, 0), (7, 0, 0));

/// $99 becomes local, so that 46 octas spill over those of before.
#[test]
#[tactic(auto, unfolding(mx_ring::specs::Notes::WorkNeeds))]
fn a_spill(rt: HostRuntime) {
    let mut ring = spilled_before(&rt, rt.alloc());
    let work = RingWork::Set(99, 5);
    assert_eq!(rt;
        there_and_back(&rt, &mut ring, work),
        (((100, 255), (201, 46), (0, 5, 0), (9, 0, 0)), BEFORE)
    );
}

/// PUSHJ $100 spills 47 octas; the locals that it loses come back.
#[test]
#[tactic(auto, unfolding(mx_ring::specs::Notes::WorkNeeds))]
fn a_call(rt: HostRuntime) {
    let mut ring = spilled_before(&rt, rt.alloc());
    ring.set(0, 3).expect(&rt, "room");
    let work = RingWork::Push(100);
    assert_eq!(rt;
        there_and_back(&rt, &mut ring, work),
        (
            ((0, 255), (302, 47), (0, 0, 0), (9, 0, 0)),
            ((1, 255), (201, 0), (3, 0, 0), (7, 0, 0))
        )
    );
}

/// POP 1,0 brings 200 octas back, of which 46 are spilled.
#[test]
#[tactic(auto, unfolding(mx_ring::specs::Notes::WorkNeeds))]
fn a_return(rt: HostRuntime) {
    let mut ring = spilled_before(&rt, rt.alloc());
    ring.set(99, 5).expect(&rt, "room");
    ring.set(0, 3).expect(&rt, "room");
    let work = RingWork::Pop(1);
    assert_eq!(rt;
        there_and_back(&rt, &mut ring, work),
        (
            ((201, 255), (0, 0), (9, 0, 0), (9, 0, 0)),
            ((100, 255), (201, 46), (3, 5, 0), (9, 0, 0))
        )
    );
}

/// SAVE hides a frame of 16 octas over L = 1, and spills all: 201 and 16 octas. The last one is at 216.
#[test]
#[tactic(auto, unfolding(mx_ring::specs::Notes::WorkNeeds))]
fn a_frame(rt: HostRuntime) {
    let mut ring = spilled_before(&rt, rt.alloc());
    ring.set(0, 3).expect(&rt, "room");
    ring.know_stack_area();
    let work = RingWork::Save(255, SPECIALS);
    assert_eq!(rt;
        there_and_back(&rt, &mut ring, work),
        (
            (
                (0, 255),
                (217, 217),
                (0, 0, 0x6000_0000_0000_06c0),
                (9, 0, 3)
            ),
            ((1, 255), (201, 0), (3, 0, 0), (7, 0, 0))
        )
    );
}

/// UNSAVE of that frame, where 101 octas more are hidden in the ring: they come back.
#[test]
#[tactic(auto, unfolding(mx_ring::specs::Notes::WorkNeeds))]
fn a_frame_that_is_left(rt: HostRuntime) {
    let mut ring = spilled_before(&rt, rt.alloc());
    ring.set(0, 3).expect(&rt, "room");
    ring.know_stack_area();
    ring.save(255, &SPECIALS).expect(&rt, "room");
    ring.set(0, 4).expect(&rt, "room");
    ring.push(100).expect(&rt, "room");
    let work = RingWork::Unsave(0x6000_0000_0000_06c0);
    assert_eq!(rt;
        there_and_back(&rt, &mut ring, work),
        (
            ((1, 255), (201, 201), (3, 0, 0), (9, 0, 3)),
            (
                (0, 255),
                (318, 217),
                (0, 0, 0x6000_0000_0000_06c0),
                (9, 0, 3)
            )
        )
    );
    ring.pop(0).expect(&rt, "a caller");
    assert_eq!(rt; (ring.get(0), ring.hidden()), (4, 217));
}
