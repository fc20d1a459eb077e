//! Loads, stores and CSWAP, and the instructions that only speak of memory.
//!
//! A is #..e with the register $3 and #..7 with the byte 3. So the parts that hold it lie at the end of
//! the octa, and the low bits of A are to be ignored.

use crate::row::{
    DATA, Due, GOES_ON, Given, PLAIN, RA, RP, all_idle, all_stop, check_goes_on, due_value,
};
use mx_core::{Reason, Touch};
use std::alloc::Global;
use std::test::Fail;

/// A number that fits in no smaller part.
const X: u64 = 0x0123_4567_89ab_cdef;

/// The operands of an address, and data whose parts are negative; or positive.
const PLACES: Given = Given {
    x: X,
    y: DATA + 4,
    z: 10,
    ..PLAIN
};

const POSITIVE: Given = Given {
    octas: (0x0102_0304_0506_0708, 0x1112_1314_1516_1718),
    ..PLACES
};

/// A load: the tetra, what $9 gets, and what is read (the address from the first octa of data on, and the
/// size).
type Load = (u32, u64, u64, u8);

/// Loads of negative parts.
static LOADS: [Load; 20] = [
    // LDB, LDBU
    (0x8009_0203, 0xffff_ffff_ffff_fff7, 14, 1),
    (0x8109_0203, 0xffff_ffff_ffff_ff88, 7, 1),
    (0x8209_0203, 0xf7, 14, 1),
    (0x8309_0203, 0x88, 7, 1),
    // LDW, LDWU
    (0x8409_0203, 0xffff_ffff_ffff_f708, 14, 2),
    (0x8509_0203, 0xffff_ffff_ffff_8788, 6, 2),
    (0x8609_0203, 0xf708, 14, 2),
    (0x8709_0203, 0x8788, 6, 2),
    // LDT, LDTU
    (0x8809_0203, 0xffff_ffff_d5e6_f708, 12, 4),
    (0x8909_0203, 0xffff_ffff_8586_8788, 4, 4),
    (0x8a09_0203, 0xd5e6_f708, 12, 4),
    (0x8b09_0203, 0x8586_8788, 4, 4),
    // LDO, LDOU
    (0x8c09_0203, 0x91a2_b3c4_d5e6_f708, 8, 8),
    (0x8d09_0203, 0x8182_8384_8586_8788, 0, 8),
    (0x8e09_0203, 0x91a2_b3c4_d5e6_f708, 8, 8),
    (0x8f09_0203, 0x8182_8384_8586_8788, 0, 8),
    // LDHT, LDUNC
    (0x9209_0203, 0xd5e6_f708_0000_0000, 12, 4),
    (0x9309_0203, 0x8586_8788_0000_0000, 4, 4),
    (0x9609_0203, 0x91a2_b3c4_d5e6_f708, 8, 8),
    (0x9709_0203, 0x8182_8384_8586_8788, 0, 8),
];

/// Signed loads of positive parts.
static POSITIVE_LOADS: [Load; 8] = [
    (0x8009_0203, 0x17, 14, 1),
    (0x8109_0203, 0x08, 7, 1),
    (0x8409_0203, 0x1718, 14, 2),
    (0x8509_0203, 0x0708, 6, 2),
    (0x8809_0203, 0x1516_1718, 12, 4),
    (0x8909_0203, 0x0506_0708, 4, 4),
    (0x8c09_0203, 0x1112_1314_1516_1718, 8, 8),
    (0x8d09_0203, 0x0102_0304_0506_0708, 0, 8),
];

/// A store: the tetra, $9, what is written (as above), what the octa there has then, and rA, which tells
/// an overflow.
type Store = (u32, u64, u64, u8, u64, u64);

/// Stores of what fits in an octa alone.
static STORES: [Store; 22] = [
    // STB, STBU
    (0xa009_0203, X, 14, 1, 0x91a2_b3c4_d5e6_ef08, 0x40),
    (0xa109_0203, X, 7, 1, 0x8182_8384_8586_87ef, 0x40),
    (0xa209_0203, X, 14, 1, 0x91a2_b3c4_d5e6_ef08, 0),
    (0xa309_0203, X, 7, 1, 0x8182_8384_8586_87ef, 0),
    // STW, STWU
    (0xa409_0203, X, 14, 2, 0x91a2_b3c4_d5e6_cdef, 0x40),
    (0xa509_0203, X, 6, 2, 0x8182_8384_8586_cdef, 0x40),
    (0xa609_0203, X, 14, 2, 0x91a2_b3c4_d5e6_cdef, 0),
    (0xa709_0203, X, 6, 2, 0x8182_8384_8586_cdef, 0),
    // STT, STTU
    (0xa809_0203, X, 12, 4, 0x91a2_b3c4_89ab_cdef, 0x40),
    (0xa909_0203, X, 4, 4, 0x8182_8384_89ab_cdef, 0x40),
    (0xaa09_0203, X, 12, 4, 0x91a2_b3c4_89ab_cdef, 0),
    (0xab09_0203, X, 4, 4, 0x8182_8384_89ab_cdef, 0),
    // STO, STOU
    (0xac09_0203, X, 8, 8, 0x0123_4567_89ab_cdef, 0),
    (0xad09_0203, X, 0, 8, 0x0123_4567_89ab_cdef, 0),
    (0xae09_0203, X, 8, 8, 0x0123_4567_89ab_cdef, 0),
    (0xaf09_0203, X, 0, 8, 0x0123_4567_89ab_cdef, 0),
    // STHT, STCO, STUNC
    (0xb209_0203, X, 12, 4, 0x91a2_b3c4_0123_4567, 0),
    (0xb309_0203, X, 4, 4, 0x8182_8384_0123_4567, 0),
    (0xb409_0203, X, 8, 8, 9, 0),
    (0xb509_0203, X, 0, 8, 9, 0),
    (0xb609_0203, X, 8, 8, 0x0123_4567_89ab_cdef, 0),
    (0xb709_0203, X, 0, 8, 0x0123_4567_89ab_cdef, 0),
];

/// Stores of the numbers that just fit in a part, and of those that just do not.
static FITS: [Store; 12] = [
    // STB
    (0xa109_0203, 0x7f, 7, 1, 0x8182_8384_8586_877f, 0),
    (0xa109_0203, 0x80, 7, 1, 0x8182_8384_8586_8780, 0x40),
    (
        0xa109_0203,
        0xffff_ffff_ffff_ff80,
        7,
        1,
        0x8182_8384_8586_8780,
        0,
    ),
    (
        0xa109_0203,
        0xffff_ffff_ffff_ff7f,
        7,
        1,
        0x8182_8384_8586_877f,
        0x40,
    ),
    // STW
    (0xa509_0203, 0x7fff, 6, 2, 0x8182_8384_8586_7fff, 0),
    (0xa509_0203, 0x8000, 6, 2, 0x8182_8384_8586_8000, 0x40),
    (
        0xa509_0203,
        0xffff_ffff_ffff_8000,
        6,
        2,
        0x8182_8384_8586_8000,
        0,
    ),
    (
        0xa509_0203,
        0xffff_ffff_ffff_7fff,
        6,
        2,
        0x8182_8384_8586_7fff,
        0x40,
    ),
    // STT
    (0xa909_0203, 0x7fff_ffff, 4, 4, 0x8182_8384_7fff_ffff, 0),
    (0xa909_0203, 0x8000_0000, 4, 4, 0x8182_8384_8000_0000, 0x40),
    (
        0xa909_0203,
        0xffff_ffff_8000_0000,
        4,
        4,
        0x8182_8384_8000_0000,
        0,
    ),
    (
        0xa909_0203,
        0xffff_ffff_7fff_ffff,
        4,
        4,
        0x8182_8384_7fff_ffff,
        0x40,
    ),
];

/// CSWAP: the tetra, rP, the octa of data, what is written, what the octa has then, what $9 gets, and what
/// rP has then.
type Swap = (u32, u64, u64, Option<Touch>, u64, u64, u64);

const FIRST: Touch = Touch { at: DATA, size: 8 };

const SECOND: Touch = Touch {
    at: DATA + 8,
    size: 8,
};

static SWAPS: [Swap; 4] = [
    // memory has what rP has
    (
        0x9409_0203,
        0x91a2_b3c4_d5e6_f708,
        8,
        Some(SECOND),
        X,
        1,
        0x91a2_b3c4_d5e6_f708,
    ),
    (
        0x9509_0203,
        0x8182_8384_8586_8788,
        0,
        Some(FIRST),
        X,
        1,
        0x8182_8384_8586_8788,
    ),
    // and not
    (
        0x9409_0203,
        0x8182_8384_8586_8788,
        8,
        None,
        0x91a2_b3c4_d5e6_f708,
        0,
        0x91a2_b3c4_d5e6_f708,
    ),
    (
        0x9509_0203,
        0,
        0,
        None,
        0x8182_8384_8586_8788,
        0,
        0x8182_8384_8586_8788,
    ),
];

/// With 3 and with $3 this is an address of 2^63 or more.
const NEGATIVE: Given = Given {
    y: 0x7fff_ffff_ffff_fffd,
    ..PLACES
};

/// All loads, CSWAP, and all stores.
static TOUCHING: [u32; 44] = [
    0x8009_0203,
    0x8109_0203,
    0x8209_0203,
    0x8309_0203,
    0x8409_0203,
    0x8509_0203,
    0x8609_0203,
    0x8709_0203,
    0x8809_0203,
    0x8909_0203,
    0x8a09_0203,
    0x8b09_0203,
    0x8c09_0203,
    0x8d09_0203,
    0x8e09_0203,
    0x8f09_0203,
    0x9209_0203,
    0x9309_0203,
    0x9409_0203,
    0x9509_0203,
    0x9609_0203,
    0x9709_0203,
    0xa009_0203,
    0xa109_0203,
    0xa209_0203,
    0xa309_0203,
    0xa409_0203,
    0xa509_0203,
    0xa609_0203,
    0xa709_0203,
    0xa809_0203,
    0xa909_0203,
    0xaa09_0203,
    0xab09_0203,
    0xac09_0203,
    0xad09_0203,
    0xae09_0203,
    0xaf09_0203,
    0xb209_0203,
    0xb309_0203,
    0xb409_0203,
    0xb509_0203,
    0xb609_0203,
    0xb709_0203,
];

/// PRELD, PREGO, SYNCD, PREST, SYNCID and SWYM.
static IDLE: [u32; 11] = [
    0x9a09_0203,
    0x9b09_0203,
    0x9c09_0203,
    0x9d09_0203,
    0xb809_0203,
    0xb909_0203,
    0xba09_0203,
    0xbb09_0203,
    0xbc09_0203,
    0xbd09_0203,
    0xfd09_0203,
];

/// What is touched at a place of the data.
fn touch(place: u64, size: u8) -> Option<Touch> {
    Some(Touch {
        at: DATA.wrapping_add(place),
        size,
    })
}

/// The octa of data that holds a place.
fn octa_at(place: u64) -> u64 {
    if place < 8 { DATA } else { DATA + 8 }
}

/// Checks that each tetra loads what is due.
fn all_load(alloc: Global, given: &Given, rows: &[Load]) -> Result<(), Fail> {
    for row in rows {
        let (word, value, place, size) = *row;
        let due = Due {
            reads: touch(place, size),
            octa: (DATA, given.octas.0),
            ..due_value(value)
        };
        check_goes_on(alloc, &Given { word, ..*given }, &due)?;
    }
    Ok(())
}

/// Checks that each tetra stores what is due.
fn all_store(alloc: Global, rows: &[Store]) -> Result<(), Fail> {
    for row in rows {
        let (word, x, place, size, octa, a) = *row;
        let due = Due {
            writes: touch(place, size),
            octa: (octa_at(place), octa),
            special: (RA, a),
            ..GOES_ON
        };
        check_goes_on(alloc, &Given { word, x, ..PLACES }, &due)?;
    }
    Ok(())
}

#[test]
fn loads(rt: HostRuntime) -> Result<(), Fail> {
    all_load(rt.alloc(), &PLACES, &LOADS)
}

#[test]
fn loads_of_positive_parts(rt: HostRuntime) -> Result<(), Fail> {
    all_load(rt.alloc(), &POSITIVE, &POSITIVE_LOADS)
}

#[test]
fn stores(rt: HostRuntime) -> Result<(), Fail> {
    all_store(rt.alloc(), &STORES)
}

#[test]
fn stores_of_what_just_fits(rt: HostRuntime) -> Result<(), Fail> {
    all_store(rt.alloc(), &FITS)
}

#[test]
fn swaps(rt: HostRuntime) -> Result<(), Fail> {
    for row in &SWAPS {
        let (word, before, place, writes, octa, value, after) = *row;
        let given = Given {
            word,
            special: (RP, before),
            ..PLACES
        };
        let due = Due {
            reads: touch(place, 8),
            writes,
            octa: (octa_at(place), octa),
            special: (RP, after),
            ..due_value(value)
        };
        check_goes_on(rt.alloc(), &given, &due)?;
    }
    Ok(())
}

#[test]
fn nothing_at_any_address(rt: HostRuntime) -> Result<(), Fail> {
    all_idle(rt.alloc(), &NEGATIVE, &IDLE)
}

#[test]
fn negative_addresses(rt: HostRuntime) -> Result<(), Fail> {
    all_stop(rt.alloc(), &NEGATIVE, &TOUCHING, Reason::Negative)
}
