//! Values from outside: whole runs by hand, and the rules of trips and of RESUME at their edges.

use mx_alu::{Event, Insert, Kind, Trip, decide, inserted};
use std::process::Abort;

/// rA, the event, and what it comes to.
static EVENTS: [(u64, Event, Trip); 9] = [
    // a sum overflows: V is enabled, and no bit is set
    (0x4000, Event::Overflow, Trip::Taken(32)),
    (0, Event::Overflow, Trip::Noted(0x40)),
    // a division by zero: D is enabled, and no bit is set
    (0x8000, Event::Divide, Trip::Taken(16)),
    (0, Event::Divide, Trip::Noted(0x80)),
    // only the other event is enabled
    (0x8000, Event::Overflow, Trip::Noted(0x8040)),
    (0x4000, Event::Divide, Trip::Noted(0x4080)),
    // a bit that is set stays, and enables nothing
    (0xff, Event::Overflow, Trip::Noted(0xff)),
    (0x40, Event::Divide, Trip::Noted(0xc0)),
    // all 18 bits
    (0x3_ffff, Event::Divide, Trip::Taken(16)),
];

#[test]
fn events(rt: HostRuntime) {
    for (ra, event, trip) in &EVENTS {
        assert_eq!(rt; decide(*ra, *event), *trip, "{ra} {event:?}");
    }
}

/// rX, rW, and the address that RESUME 0 goes to.
static BACK: [(u64, u64, u64); 4] = [
    // ADD $0,$0,1 at #110 tripped
    (0x8000_0000_2100_0001, 0x114, 0x114),
    // rW is lowered to a multiple of 4
    (0x8000_0000_2100_0001, 0x117, 0x114),
    (u64::MAX, u64::MAX, u64::MAX - 3),
    // the top bit alone, and a tetra that could not be inserted
    (0x8000_0000_f900_0000, 0, 0),
];

/// rX, rW, and the kind, the place and the tetra that RESUME 0 performs, where L is 4 and G is 255.
static PERFORMED: [(u64, u64, Kind, u64, u32); 17] = [
    // ADDU $0,$0,1, and the instruction after RESUME at 24 or 40
    (0x2300_0001, 24, Kind::Again, 20, 0x2300_0001),
    (0x0100_0000_2300_0001, 40, Kind::Continue, 36, 0x2300_0001),
    // $0 gets rZ
    (0x0200_0000_0000_0000, 28, Kind::Set, 24, 0),
    // rW is lowered first, and the place is modulo 2^64
    (0x2300_0001, 27, Kind::Again, 20, 0x2300_0001),
    (0x2300_0001, 3, Kind::Again, u64::MAX - 3, 0x2300_0001),
    // the bytes between the kind and the tetra count for nothing, but for events where $X is set
    (0x00ff_ffff_2300_0001, 24, Kind::Again, 20, 0x2300_0001),
    (0x01ff_ffff_2300_0001, 24, Kind::Continue, 20, 0x2300_0001),
    (0x02ff_00ff_2300_0001, 24, Kind::Set, 20, 0x2300_0001),
    // a branch again, and codes beside those that can't be continued
    (0x4000_0000, 24, Kind::Again, 20, 0x4000_0000),
    (0x0100_0000_3f00_0000, 24, Kind::Continue, 20, 0x3f00_0000),
    (0x0100_0000_6000_0000, 24, Kind::Continue, 20, 0x6000_0000),
    (0x0100_0000_7f00_0000, 24, Kind::Continue, 20, 0x7f00_0000),
    (0x0100_0000_c000_0000, 24, Kind::Continue, 20, 0xc000_0000),
    (0x0100_0000_ef00_0000, 24, Kind::Continue, 20, 0xef00_0000),
    // the last local register, the global one, and again one between them
    (0x0100_0000_2303_0000, 24, Kind::Continue, 20, 0x2303_0000),
    (0x0200_0000_00ff_0000, 24, Kind::Set, 20, 0x00ff_0000),
    (0x2304_0000, 24, Kind::Again, 20, 0x2304_0000),
];

/// rX, and whether RESUME 0 is illegal or left out, where L is 4 and G is 255.
static REFUSED: [(u64, Insert); 21] = [
    // no such kind
    (0x0300_0000_0000_0000, Insert::Illegal),
    (0x7fff_ffff_ffff_ffff, Insert::Illegal),
    // RESUME itself
    (0xf900_0000, Insert::Illegal),
    (0x0100_0000_f900_0000, Insert::Illegal),
    (0x0200_0000_f900_0000, Insert::Illegal),
    // codes that can't be continued
    (0x0100_0000_4000_0000, Insert::Illegal),
    (0x0100_0000_5f00_0000, Insert::Illegal),
    (0x0100_0000_8000_0000, Insert::Illegal),
    (0x0100_0000_bf00_0000, Insert::Illegal),
    (0x0100_0000_f000_0000, Insert::Illegal),
    (0x0100_0000_ff00_0000, Insert::Illegal),
    // X from L to G - 1
    (0x0100_0000_2304_0000, Insert::Illegal),
    (0x0100_0000_23fe_0000, Insert::Illegal),
    (0x0200_0000_2304_0000, Insert::Illegal),
    // TRAP
    (0x0000_0000, Insert::LeftOut),
    (0x0100_0000_0000_0000, Insert::LeftOut),
    // $X with the highest and the lowest event
    (0x0200_8000_0000_0000, Insert::LeftOut),
    (0x0200_0100_2300_0001, Insert::LeftOut),
    // illegal comes before left out
    (0x0100_0000_0004_0000, Insert::Illegal),
    (0x0200_ff00_2304_0000, Insert::Illegal),
    (0x0200_ff00_f900_0000, Insert::Illegal),
];

#[test]
fn resumption(rt: HostRuntime) {
    for (rx, rw, address) in &BACK {
        assert_eq!(rt;
            inserted(*rx, *rw, 4, 255),
            Insert::Back(*address),
            "{rx} {rw}"
        );
    }
    for (rx, rw, kind, at, word) in &PERFORMED {
        let want = Insert::Perform {
            kind: *kind,
            at: *at,
            word: *word,
        };
        assert_eq!(rt; inserted(*rx, *rw, 4, 255), want, "{rx} {rw}");
    }
    for (rx, want) in &REFUSED {
        assert_eq!(rt; inserted(*rx, 24, 4, 255), *want, "{rx}");
    }
}
