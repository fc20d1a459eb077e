//! What goes elsewhere, and the register stack.
//!
//! $9 is #1234, $2 is #2000000000000004 and $3 is 14; so A is #..12 with $3 and #..7 with 3. All other
//! local registers, of which there are ten, are 0.

use crate::row::{
    AT, BASE, DATA, Due, GOES_ON, Given, Going, NEXT, PLAIN, RJ, RO, RS, RW, RX, TOP, all_go,
    check_goes_on,
};
use std::test::Fail;

const X: u64 = 0x1234;

/// The operands; A is lowered to #..10 with $3, and to #..4 with 3.
const PLACES: Given = Given {
    x: X,
    y: DATA + 4,
    z: 14,
    ..PLAIN
};

/// What leaves the register stack as it is.
static JUMPS: [Going; 6] = [
    // GO
    (0x9e09_0203, Some(9), DATA + 16, (9, NEXT), (RJ, 0x3000), 10),
    (0x9f09_0203, Some(9), DATA + 4, (9, NEXT), (RJ, 0x3000), 10),
    // JMP: 4 * #90203 bytes forward; and 4 * 2^24 bytes less
    (0xf009_0203, None, 0x1024_0810, (9, X), (RJ, 0x3000), 10),
    (0xf109_0203, None, 0x0c24_0810, (9, X), (RJ, 0x3000), 10),
    // GETA: 4 * #203 bytes forward; and 4 * 2^16 bytes less
    (
        0xf409_0203,
        Some(9),
        NEXT,
        (9, 0x1000_0810),
        (RJ, 0x3000),
        10,
    ),
    (
        0xf509_0203,
        Some(9),
        NEXT,
        (9, 0x0ffc_0810),
        (RJ, 0x3000),
        10,
    ),
];

/// Calls, which hide registers: rO is 8 times their number above BASE.
static CALLS: [Going; 13] = [
    // PUSHGO and PUSHJ hide $0 to $8 and the number 9
    (0xbe09_0203, None, DATA + 16, (0, 0), (RO, BASE + 80), 0),
    (0xbf09_0203, None, DATA + 4, (0, 0), (RO, BASE + 80), 0),
    (0xf209_0203, None, 0x1000_0810, (0, 0), (RO, BASE + 80), 0),
    (0xf309_0203, None, 0x0ffc_0810, (0, 0), (RO, BASE + 80), 0),
    // $0 to $2 and 3, so that $9 is $5
    (0xf203_0203, None, 0x1000_0810, (5, X), (RO, BASE + 32), 6),
    (0xbf03_0203, None, DATA + 4, (5, X), (RO, BASE + 32), 6),
    // X is not local: $0 to $19 and 20; X is global: it is taken as 10
    (0xf214_0203, None, 0x1000_0810, (0, 0), (RO, BASE + 168), 0),
    (
        0xf2ff_0203,
        None,
        0x1000_0810,
        (255, TOP),
        (RO, BASE + 88),
        0,
    ),
    (0xbeff_0203, None, DATA + 16, (255, TOP), (RO, BASE + 88), 0),
    // rJ is the next address
    (0xbe09_0203, None, DATA + 16, (0, 0), (RJ, NEXT), 0),
    (0xbf09_0203, None, DATA + 4, (0, 0), (RJ, NEXT), 0),
    (0xf209_0203, None, 0x1000_0810, (0, 0), (RJ, NEXT), 0),
    (0xf309_0203, None, 0x0ffc_0810, (0, 0), (RJ, NEXT), 0),
];

/// PUSHJ $3 to the next tetra: $0 to $2 and 3 are hidden, rJ is the next address, and $5 is the old $9.
const PUSHED: Given = Given {
    first: 0xf203_0001,
    ..PLACES
};

/// POP after it.
static RETURNS: [Going; 5] = [
    // $5 comes to $3, and $0 to $4 follow
    (0xf806_0203, None, 0x1000_0810, (3, X), (RO, BASE), 9),
    (0xf806_0000, None, AT, (2, DATA + 4), (RO, BASE), 9),
    // $2 comes back alone
    (0xf800_0000, None, AT, (2, DATA + 4), (RO, BASE), 3),
    // $0 comes to $3, and nothing follows
    (0xf801_0001, None, NEXT, (3, 0), (RO, BASE), 4),
    // 0 comes to $3, and $0 to $5 follow
    (0xf8ff_0000, None, AT, (9, X), (RO, BASE), 10),
];

/// SAVE hides the locals, 10, $255, twelve special registers and rG with rA: 25 octas. The last of them is
/// at the address that $255 gets.
static SAVES: [Going; 2] = [
    (
        0xfaff_0000,
        None,
        NEXT,
        (255, BASE + 192),
        (RO, BASE + 200),
        0,
    ),
    (0xfaff_0000, None, NEXT, (9, 0), (RS, BASE + 200), 0),
];

const SAVED: Given = Given {
    first: 0xfaff_0000,
    ..PLACES
};

/// UNSAVE after it brings all back.
static UNSAVES: [Going; 3] = [
    (0xfb00_00ff, None, NEXT, (2, DATA + 4), (RO, BASE), 10),
    (0xfb00_00ff, None, NEXT, (9, X), (RS, BASE), 10),
    (0xfb00_00ff, None, NEXT, (255, TOP), (RJ, 0x3000), 10),
];

/// What RESUME inserts: rX, the destination, a register and what it has then, and the next address; rW is
/// #30000006.
static INSERTED: [(u64, Option<u8>, (u8, u64), u64); 6] = [
    // the top bit is 1: nothing but to go to rW
    (0x8000_0000_2209_0203, None, (9, X), 0x3000_0004),
    // ADDU of $2 and $3; of rY and rZ, which are #1a00 and #1b00
    (0x0000_0000_2209_0203, Some(9), (9, DATA + 18), 0x3000_0004),
    (0x0100_0000_2209_0203, Some(9), (9, 0x3500), 0x3000_0004),
    // the destination gets rZ
    (0x0200_0000_0009_0000, Some(9), (9, 0x1b00), 0x3000_0004),
    // GETA and JMP are at #30000000
    (
        0x0000_0000_f409_0203,
        Some(9),
        (9, 0x3000_080c),
        0x3000_0004,
    ),
    (0x0000_0000_f009_0203, None, (9, X), 0x3024_080c),
];

#[test]
fn jumps(rt: HostRuntime) -> Result<(), Fail> {
    all_go(rt.alloc(), &PLACES, &JUMPS)
}

#[test]
fn calls(rt: HostRuntime) -> Result<(), Fail> {
    all_go(rt.alloc(), &PLACES, &CALLS)
}

#[test]
fn returns(rt: HostRuntime) -> Result<(), Fail> {
    all_go(rt.alloc(), &PUSHED, &RETURNS)
}

#[test]
fn frames_are_saved(rt: HostRuntime) -> Result<(), Fail> {
    all_go(rt.alloc(), &PLACES, &SAVES)
}

#[test]
fn frames_come_back(rt: HostRuntime) -> Result<(), Fail> {
    all_go(rt.alloc(), &SAVED, &UNSAVES)
}

#[test]
fn insertions(rt: HostRuntime) -> Result<(), Fail> {
    for row in &INSERTED {
        let (rx, dest, register, next) = *row;
        let given = Given {
            word: 0xf900_0000,
            special: (RX, rx),
            ..PLACES
        };
        let due = Due {
            dest,
            register,
            next,
            special: (RX, rx),
            other: (RW, 0x3000_0006),
            ..GOES_ON
        };
        check_goes_on(rt.alloc(), &given, &due)?;
    }
    Ok(())
}
