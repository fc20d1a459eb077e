//! Events: noted in rA, or a trip to a handler where rA enables them.

use crate::row::{
    Computed, DATA, Due, GOES_ON, Given, NEXT, PLAIN, RA, RB, RR, RW, RX, RY, RZ, TOP, all_compute,
    check_answer, check_goes_on, due_value,
};
use mx_core::{Reason, Step, Touch};
use std::alloc::Global;
use std::test::Fail;

/// The greatest number and the least one, -1, -2 and -7.
const MAX: u64 = 0x7fff_ffff_ffff_ffff;

const MIN: u64 = 0x8000_0000_0000_0000;

const MINUS_1: u64 = 0xffff_ffff_ffff_ffff;

const MINUS_2: u64 = 0xffff_ffff_ffff_fffe;

const MINUS_7: u64 = 0xffff_ffff_ffff_fff9;

/// Overflows that are noted in rA, and operands of the same instructions without one.
static OVERFLOWS: [Computed; 24] = [
    // ADD, ADDU
    (0x2009_0203, MAX, 5, 0x8000_0000_0000_0004, (RA, 0x40)),
    (0x2109_0203, MAX, 0, 0x8000_0000_0000_0002, (RA, 0x40)),
    (0x2009_0203, MIN, MINUS_1, MAX, (RA, 0x40)),
    (0x2009_0203, MAX, MIN, MINUS_1, (RA, 0)),
    (0x2109_0203, 0x7fff_ffff_ffff_fffc, 0, MAX, (RA, 0)),
    (0x2209_0203, MAX, 5, 0x8000_0000_0000_0004, (RA, 0)),
    (0x2309_0203, MAX, 0, 0x8000_0000_0000_0002, (RA, 0)),
    // SUB, SUBU
    (0x2409_0203, MIN, 5, 0x7fff_ffff_ffff_fffb, (RA, 0x40)),
    (0x2509_0203, MIN, 0, 0x7fff_ffff_ffff_fffd, (RA, 0x40)),
    (0x2509_0203, 0x8000_0000_0000_0003, 0, MIN, (RA, 0)),
    (0x2409_0203, 0, MIN, MIN, (RA, 0x40)),
    (0x2609_0203, MIN, 5, 0x7fff_ffff_ffff_fffb, (RA, 0)),
    (0x2709_0203, MIN, 0, 0x7fff_ffff_ffff_fffd, (RA, 0)),
    // MUL, MULU
    (0x1809_0203, MAX, 5, 0x7fff_ffff_ffff_fffb, (RA, 0x40)),
    (0x1909_0203, MAX, 0, 0x7fff_ffff_ffff_fffd, (RA, 0x40)),
    (
        0x1809_0203,
        0x4000_0000_0000_0000,
        0xffff_ffff_ffff_fffe,
        MIN,
        (RA, 0),
    ),
    (0x1a09_0203, MAX, 5, 0x7fff_ffff_ffff_fffb, (RA, 0)),
    // NEG, NEGU of 2 and z
    (0x3409_0203, 0, MIN, 0x8000_0000_0000_0002, (RA, 0x40)),
    (0x3609_0203, 0, MIN, 0x8000_0000_0000_0002, (RA, 0)),
    // SL, SLU
    (0x3809_0203, MAX, 5, 0xffff_ffff_ffff_ffe0, (RA, 0x40)),
    (0x3909_0203, MAX, 0, 0xffff_ffff_ffff_fff8, (RA, 0x40)),
    (0x3809_0203, MINUS_1, 63, MIN, (RA, 0)),
    (0x3809_0203, 1, 64, 0, (RA, 0x40)),
    (0x3b09_0203, MAX, 0, 0xffff_ffff_ffff_fff8, (RA, 0)),
];

/// Quotients at the edges, with rR and with rA; rD is 2.
static QUOTIENTS: [Computed; 18] = [
    // DIV: the least number by -1; by 0; of other signs
    (0x1c09_0203, MIN, MINUS_1, MIN, (RR, 0)),
    (0x1c09_0203, MIN, MINUS_1, MIN, (RA, 0x40)),
    (0x1c09_0203, MINUS_7, 0, 0, (RR, MINUS_7)),
    (0x1c09_0203, MINUS_7, 0, 0, (RA, 0x80)),
    (0x1d09_0200, MINUS_7, 1, 0, (RR, MINUS_7)),
    (0x1d09_0200, MINUS_7, 1, 0, (RA, 0x80)),
    (
        0x1c09_0203,
        7,
        MINUS_2,
        0xffff_ffff_ffff_fffc,
        (RR, MINUS_1),
    ),
    (0x1c09_0203, 7, MINUS_2, 0xffff_ffff_ffff_fffc, (RA, 0)),
    (0x1c09_0203, MINUS_7, MINUS_2, 3, (RR, MINUS_1)),
    (0x1c09_0203, MINUS_7, MINUS_2, 3, (RA, 0)),
    // DIVU by what is not above rD: no event
    (0x1e09_0203, MINUS_7, 2, 2, (RR, MINUS_7)),
    (0x1e09_0203, MINUS_7, 2, 2, (RA, 0)),
    (0x1e09_0203, MINUS_7, 0, 2, (RR, MINUS_7)),
    (0x1e09_0203, MINUS_7, 0, 2, (RA, 0)),
    (0x1f09_0202, MINUS_7, 9, 2, (RR, MINUS_7)),
    (0x1f09_0202, MINUS_7, 9, 2, (RA, 0)),
    (0x1f09_0200, MINUS_7, 9, 2, (RR, MINUS_7)),
    (0x1f09_0200, MINUS_7, 9, 2, (RA, 0)),
];

/// An event goes by its own enable bit, and its bit is added: the tetra, y, z, the value, and rA before
/// and after.
static NOTED: [(u32, u64, u64, u64, u64, u64); 4] = [
    (
        0x2009_0203,
        MAX,
        5,
        0x8000_0000_0000_0004,
        0x3_bf81,
        0x3_bfc1,
    ),
    (0x2009_0203, MAX, 5, 0x8000_0000_0000_0004, 0x40, 0x40),
    (0x1c09_0203, MINUS_7, 0, 0, 0x3_7f41, 0x3_7fc1),
    (0x2009_0203, 1, 5, 6, 0x3_ffff, 0x3_ffff),
];

/// Divisions by zero and overflows are enabled.
const ENABLED: u64 = 0xc000;

/// What a trip finds: $9, which has the datum of a store, and the operands of A.
const STORED: Given = Given {
    x: X,
    y: DATA + 4,
    z: 10,
    special: (RA, ENABLED),
    ..PLAIN
};

const X: u64 = 0x0123_4567_89ab_cdef;

/// Numbers that trip: the tetra, y, z in a register, the value, the handler, and rY with rZ.
static TRIPS: [(u32, u64, u64, u64, u64, (u64, u64)); 12] = [
    // ADD, SUB, MUL
    (0x2009_0203, MAX, 5, 0x8000_0000_0000_0004, 0x20, (MAX, 5)),
    (0x2109_0203, MAX, 5, 0x8000_0000_0000_0002, 0x20, (MAX, 3)),
    (0x2409_0203, MIN, 5, 0x7fff_ffff_ffff_fffb, 0x20, (MIN, 5)),
    (0x2509_0203, MIN, 5, 0x7fff_ffff_ffff_fffd, 0x20, (MIN, 3)),
    (0x1809_0203, MAX, 5, 0x7fff_ffff_ffff_fffb, 0x20, (MAX, 5)),
    (0x1909_0203, MAX, 5, 0x7fff_ffff_ffff_fffd, 0x20, (MAX, 3)),
    // NEG, whose y is the byte Y
    (0x3409_0203, 7, MIN, 0x8000_0000_0000_0002, 0x20, (2, MIN)),
    // SL
    (0x3809_0203, MAX, 5, 0xffff_ffff_ffff_ffe0, 0x20, (MAX, 5)),
    (0x3909_0203, MAX, 5, 0xffff_ffff_ffff_fff8, 0x20, (MAX, 3)),
    // DIV
    (0x1c09_0203, MIN, MINUS_1, MIN, 0x20, (MIN, MINUS_1)),
    (0x1c09_0203, MINUS_7, 0, 0, 0x10, (MINUS_7, 0)),
    (0x1d09_0200, MINUS_7, 5, 0, 0x10, (MINUS_7, 0)),
];

/// Stores that trip: the tetra, what is written (the address and the size), what the octa there has then,
/// and A, which is rY.
static STORES: [(u32, u64, u8, u64, u64); 6] = [
    // STB
    (0xa009_0203, DATA + 14, 1, 0x91a2_b3c4_d5e6_ef08, DATA + 14),
    (0xa109_0203, DATA + 7, 1, 0x8182_8384_8586_87ef, DATA + 7),
    // STW
    (0xa409_0203, DATA + 14, 2, 0x91a2_b3c4_d5e6_cdef, DATA + 14),
    (0xa509_0203, DATA + 6, 2, 0x8182_8384_8586_cdef, DATA + 7),
    // STT
    (0xa809_0203, DATA + 12, 4, 0x91a2_b3c4_89ab_cdef, DATA + 14),
    (0xa909_0203, DATA + 4, 4, 0x8182_8384_89ab_cdef, DATA + 7),
];

/// TRIP, with any fields.
static TRIP: [u32; 2] = [0xff09_0203, 0xff00_0203];

/// Checks that a step trips with these operands: it leaves rA, rW is the next address, rX has the tetra, and
/// rB has what $255 had, which gets rJ. Without an instruction at the handler it is a stop.
fn trips(alloc: Global, given: &Given, due: &Due, (y, z): (u64, u64)) -> Result<(), Fail> {
    let specials = [
        ((RY, y), (RZ, z)),
        ((RW, NEXT), (RX, (1 << 63) | given.word as u64)),
        ((RB, TOP), (RA, ENABLED)),
    ];
    for (special, other) in &specials {
        let due = Due {
            special: *special,
            other: *other,
            ..*due
        };
        check_goes_on(alloc, given, &due)?;
    }
    gives_rj(alloc, given, due)?;
    stops(alloc, given)
}

fn gives_rj(alloc: Global, given: &Given, due: &Due) -> Result<(), Fail> {
    let due = Due {
        register: (255, 0x3000),
        special: (RA, ENABLED),
        ..*due
    };
    check_goes_on(alloc, given, &due)
}

fn stops(alloc: Global, given: &Given) -> Result<(), Fail> {
    let given = Given {
        handler: 0,
        ..*given
    };
    check_answer(alloc, &given, Step::Stopped(Reason::UnhandledTrip))
}

#[test]
fn overflows_are_noted(rt: HostRuntime) -> Result<(), Fail> {
    all_compute(rt.alloc(), &PLAIN, &OVERFLOWS)
}

#[test]
fn quotients_at_the_edges(rt: HostRuntime) -> Result<(), Fail> {
    all_compute(rt.alloc(), &PLAIN, &QUOTIENTS)
}

#[test]
fn events_go_by_their_own_bits(rt: HostRuntime) -> Result<(), Fail> {
    for row in &NOTED {
        let (word, y, z, value, before, after) = *row;
        let given = Given {
            word,
            y,
            z,
            special: (RA, before),
            ..PLAIN
        };
        let due = Due {
            special: (RA, after),
            ..due_value(value)
        };
        check_goes_on(rt.alloc(), &given, &due)?;
    }
    Ok(())
}

#[test]
fn numbers_trip(rt: HostRuntime) -> Result<(), Fail> {
    for row in &TRIPS {
        let (word, y, z, value, next, operands) = *row;
        let given = Given {
            word,
            y,
            z,
            ..STORED
        };
        let due = Due {
            next,
            ..due_value(value)
        };
        trips(rt.alloc(), &given, &due, operands)?;
    }
    Ok(())
}

#[test]
fn stores_trip(rt: HostRuntime) -> Result<(), Fail> {
    for row in &STORES {
        let (word, at, size, octa, y) = *row;
        let due = Due {
            writes: Some(Touch { at, size }),
            octa: (at, octa),
            next: 0x20,
            register: (9, X),
            ..GOES_ON
        };
        trips(rt.alloc(), &Given { word, ..STORED }, &due, (y, X))?;
    }
    Ok(())
}

#[test]
fn trip_trips(rt: HostRuntime) -> Result<(), Fail> {
    for word in &TRIP {
        let given = Given {
            word: *word,
            ..STORED
        };
        let due = Due {
            next: 0,
            register: (9, X),
            ..GOES_ON
        };
        trips(rt.alloc(), &given, &due, (DATA + 4, 10))?;
    }
    Ok(())
}
