//! Whole numbers: sums, products, quotients, comparisons and shifts, and what becomes local.

use crate::row::{Computed, Given, Going, NEXT, PLAIN, RA, RH, RR, all_compute, all_go, all_set};
use std::test::Fail;

const MINUS_7: u64 = 0xffff_ffff_ffff_fff9;

/// y = -7, and z is 5 in a register.
const SMALL: Given = Given {
    y: MINUS_7,
    z: 5,
    ..PLAIN
};

/// Sums, differences and comparisons of -7 with 5 or 3; NEG has 2 in the place of -7.
static SUMS: [(u32, u64); 24] = [
    // ADD, ADDU
    (0x2009_0203, 0xffff_ffff_ffff_fffe),
    (0x2109_0203, 0xffff_ffff_ffff_fffc),
    (0x2209_0203, 0xffff_ffff_ffff_fffe),
    (0x2309_0203, 0xffff_ffff_ffff_fffc),
    // SUB, SUBU
    (0x2409_0203, 0xffff_ffff_ffff_fff4),
    (0x2509_0203, 0xffff_ffff_ffff_fff6),
    (0x2609_0203, 0xffff_ffff_ffff_fff4),
    (0x2709_0203, 0xffff_ffff_ffff_fff6),
    // 2ADDU, 4ADDU, 8ADDU, 16ADDU: -9, -11; -23, -25; -51, -53; -107, -109
    (0x2809_0203, 0xffff_ffff_ffff_fff7),
    (0x2909_0203, 0xffff_ffff_ffff_fff5),
    (0x2a09_0203, 0xffff_ffff_ffff_ffe9),
    (0x2b09_0203, 0xffff_ffff_ffff_ffe7),
    (0x2c09_0203, 0xffff_ffff_ffff_ffcd),
    (0x2d09_0203, 0xffff_ffff_ffff_ffcb),
    (0x2e09_0203, 0xffff_ffff_ffff_ff95),
    (0x2f09_0203, 0xffff_ffff_ffff_ff93),
    // CMP: less; CMPU: greater
    (0x3009_0203, 0xffff_ffff_ffff_ffff),
    (0x3109_0203, 0xffff_ffff_ffff_ffff),
    (0x3209_0203, 1),
    (0x3309_0203, 1),
    // NEG, NEGU
    (0x3409_0203, 0xffff_ffff_ffff_fffd),
    (0x3509_0203, 0xffff_ffff_ffff_ffff),
    (0x3609_0203, 0xffff_ffff_ffff_fffd),
    (0x3709_0203, 0xffff_ffff_ffff_ffff),
];

/// Shifts of #ff00000000001234 by 5 and 3 places.
static SHIFTS: [(u32, u64); 8] = [
    // SL, SLU
    (0x3809_0203, 0xe000_0000_0002_4680),
    (0x3909_0203, 0xf800_0000_0000_91a0),
    (0x3a09_0203, 0xe000_0000_0002_4680),
    (0x3b09_0203, 0xf800_0000_0000_91a0),
    // SR, SRU
    (0x3c09_0203, 0xfff8_0000_0000_0091),
    (0x3d09_0203, 0xffe0_0000_0000_0246),
    (0x3e09_0203, 0x07f8_0000_0000_0091),
    (0x3f09_0203, 0x1fe0_0000_0000_0246),
];

/// Products and quotients by 5 or 3, and what rH or rR has then; rD is 2, so that DIVU divides
/// 3 * 2^64 - 7.
static PRODUCTS: [Computed; 8] = [
    // MUL leaves rH; MULU: 5 * 2^64 - 35, 3 * 2^64 - 21
    (0x1809_0203, MINUS_7, 5, 0xffff_ffff_ffff_ffdd, (RH, 0x100)),
    (0x1909_0203, MINUS_7, 5, 0xffff_ffff_ffff_ffeb, (RH, 0x100)),
    (0x1a09_0203, MINUS_7, 5, 0xffff_ffff_ffff_ffdd, (RH, 4)),
    (0x1b09_0203, MINUS_7, 5, 0xffff_ffff_ffff_ffeb, (RH, 2)),
    // DIV: -2 and 3, -3 and 2
    (0x1c09_0203, MINUS_7, 5, 0xffff_ffff_ffff_fffe, (RR, 3)),
    (0x1d09_0203, MINUS_7, 5, 0xffff_ffff_ffff_fffd, (RR, 2)),
    // DIVU: (3 * 2^64 - 8) / 5 and 1, 2^64 - 3 and 2
    (0x1e09_0203, MINUS_7, 5, 0x9999_9999_9999_9998, (RR, 1)),
    (0x1f09_0203, MINUS_7, 5, 0xffff_ffff_ffff_fffd, (RR, 2)),
];

/// Other operands.
static OTHERS: [Computed; 14] = [
    // CMP and CMPU of equal and of smaller numbers, and of the numbers of two signs
    (0x3009_0203, 5, 5, 0, (RA, 0)),
    (0x3109_0203, 3, 0, 0, (RA, 0)),
    (0x3009_0203, 6, 5, 1, (RA, 0)),
    (0x3009_0203, 1, 0xffff_ffff_ffff_ffff, 1, (RA, 0)),
    (0x3209_0203, 5, 5, 0, (RA, 0)),
    (0x3309_0203, 2, 0, 0xffff_ffff_ffff_ffff, (RA, 0)),
    (
        0x3209_0203,
        1,
        0xffff_ffff_ffff_ffff,
        0xffff_ffff_ffff_ffff,
        (RA, 0),
    ),
    // shifts by 63, 64 and 2^63 places
    (0x3a09_0203, 1, 63, 0x8000_0000_0000_0000, (RA, 0)),
    (0x3a09_0203, 1, 64, 0, (RA, 0)),
    (0x3809_0203, 0, 0x8000_0000_0000_0000, 0, (RA, 0)),
    (
        0x3c09_0203,
        0x8000_0000_0000_0000,
        0x8000_0000_0000_0000,
        0xffff_ffff_ffff_ffff,
        (RA, 0),
    ),
    (0x3c09_0203, 0x7000_0000_0000_0000, 64, 0, (RA, 0)),
    (0x3e09_0203, 0x8000_0000_0000_0000, 63, 1, (RA, 0)),
    (0x3e09_0203, 0x8000_0000_0000_0000, 64, 0, (RA, 0)),
];

/// An instruction with a destination makes it local before it does anything else.
static DESTINATIONS: [Going; 10] = [
    // $10 is the first that is not local, $12 and $254 are higher, $255 is global
    (
        0x200a_0203,
        Some(10),
        NEXT,
        (10, 0xffff_ffff_ffff_fffe),
        (RA, 0),
        11,
    ),
    (
        0x200c_0203,
        Some(12),
        NEXT,
        (12, 0xffff_ffff_ffff_fffe),
        (RA, 0),
        13,
    ),
    (
        0x20fe_0203,
        Some(254),
        NEXT,
        (254, 0xffff_ffff_ffff_fffe),
        (RA, 0),
        255,
    ),
    (
        0x20ff_0203,
        Some(255),
        NEXT,
        (255, 0xffff_ffff_ffff_fffe),
        (RA, 0),
        10,
    ),
    // GET tells the new L
    (0xfe0a_0014, Some(10), NEXT, (10, 11), (RA, 0), 11),
    (0xfe14_0014, Some(20), NEXT, (20, 21), (RA, 0), 21),
    // CSP of a negative number; INCL of what was not local; ZSP; GETA
    (0x640a_0203, Some(10), NEXT, (10, 0), (RA, 0), 11),
    (0xe70a_0203, Some(10), NEXT, (10, 0x203), (RA, 0), 11),
    (0x740a_0203, Some(10), NEXT, (10, 0), (RA, 0), 11),
    (0xf40a_0203, Some(10), NEXT, (10, 0x1000_0810), (RA, 0), 11),
];

/// For shifts.
const BROAD: Given = Given {
    y: 0xff00_0000_0000_1234,
    z: 5,
    ..PLAIN
};

#[test]
fn sums_and_comparisons(rt: HostRuntime) -> Result<(), Fail> {
    all_set(rt.alloc(), &SMALL, &SUMS)
}

#[test]
fn shifts(rt: HostRuntime) -> Result<(), Fail> {
    all_set(rt.alloc(), &BROAD, &SHIFTS)
}

#[test]
fn products_and_quotients(rt: HostRuntime) -> Result<(), Fail> {
    all_compute(rt.alloc(), &PLAIN, &PRODUCTS)
}

#[test]
fn other_operands(rt: HostRuntime) -> Result<(), Fail> {
    all_compute(rt.alloc(), &PLAIN, &OTHERS)
}

#[test]
fn destinations_become_local(rt: HostRuntime) -> Result<(), Fail> {
    all_go(rt.alloc(), &SMALL, &DESTINATIONS)
}
