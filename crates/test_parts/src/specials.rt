//! PUT by the rules, register by register.

use mx_code::{Put, may_put};
use std::process::Abort;

/// The codes of registers that take any value: rB to rBB, and rF to rZZ.
static PLAIN: [u8; 18] = [
    0, 1, 2, 3, 4, 5, 6, 7, 22, 23, 24, 25, 26, 27, 28, 29, 30, 31,
];

/// The codes of registers that take none, and why.
static REFUSED: [(u8, Put); 11] = [
    (8, Put::Privileged), // rC
    (9, Put::Illegal), // rN
    (10, Put::Illegal), // rO
    (11, Put::Illegal), // rS
    (12, Put::Privileged), // rI
    (13, Put::Privileged), // rT
    (14, Put::Privileged), // rTT
    (15, Put::Privileged), // rK
    (16, Put::Privileged), // rQ
    (17, Put::Privileged), // rU
    (18, Put::Privileged), // rV
];

/// A register that asks for its value, the value, and what PUT comes to, where G is 200 and L is 40.
static BOUNDED: [(u8, u64, Put); 16] = [
    // rG: from L to 255
    (19, 40, Put::Store(40)),
    (19, 39, Put::Illegal),
    (19, 255, Put::Store(255)),
    (19, 256, Put::Illegal),
    (19, 0, Put::Illegal),
    (19, u64::MAX, Put::Illegal),
    // rL: it only falls
    (20, 0, Put::Store(0)),
    (20, 39, Put::Store(39)),
    (20, 40, Put::Store(40)),
    (20, 41, Put::Store(40)),
    (20, 200, Put::Store(40)),
    (20, u64::MAX, Put::Store(40)),
    // rA: 18 bits
    (21, 0x4000, Put::Store(0x4000)),
    (21, 0x3_ffff, Put::Store(0x3_ffff)),
    (21, 0x4_0000, Put::Illegal),
    (21, u64::MAX, Put::Illegal),
];

/// The same where L is 4, and rG takes values from 32.
static FEW_LOCALS: [(u8, u64, Put); 2] = [
    // the least rG, and less than any rG
    (19, 32, Put::Store(32)),
    (19, 31, Put::Illegal),
];

/// PUT to a register that there is.
fn put(rt: &impl Abort, code: u8, value: u64, l: u8) -> Put {
    assert!(rt; code < 32, "{code}");
    may_put(code, value, 200, l)
}

/// PUT of the least and of the greatest value.
fn put_ends(rt: &impl Abort, code: u8) -> (Put, Put) {
    (put(rt, code, 0, 40), put(rt, code, u64::MAX, 40))
}

/// Sees what PUT comes to where L is `l`.
fn puts_are(rt: &impl Abort, l: u8, rows: &[(u8, u64, Put)]) {
    for (code, value, want) in rows {
        assert_eq!(rt; put(rt, *code, *value, l), *want, "{code} {value}");
    }
}

#[test]
fn puts(rt: HostRuntime) {
    for code in &PLAIN {
        assert_eq!(rt;
            put_ends(&rt, *code),
            (Put::Store(0), Put::Store(u64::MAX)),
            "{code}"
        );
    }
    for (code, want) in &REFUSED {
        assert_eq!(rt; put_ends(&rt, *code), (*want, *want), "{code}");
    }
    puts_are(&rt, 40, &BOUNDED);
    puts_are(&rt, 4, &FEW_LOCALS);
}
