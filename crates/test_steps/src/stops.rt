//! What stops the machine whatever its memory has, and TRAP, which waits for its result. The machine is
//! as it was then.

use crate::row::{AT, Given, PLAIN, RX, TOP, all_stop, check_answer};
use mx_alu::TrapCall;
use mx_core::{Reason, Step};
use std::test::Fail;

/// The instructions on floating-point numbers; LDSF and STSF.
static FLOATS: [u32; 27] = [
    0x0109_0203,
    0x0209_0203,
    0x0309_0203,
    0x0409_0203,
    0x0509_0203,
    0x0609_0203,
    0x0709_0203,
    0x0809_0203,
    0x0909_0203,
    0x0a09_0203,
    0x0b09_0203,
    0x0c09_0203,
    0x0d09_0203,
    0x0e09_0203,
    0x0f09_0203,
    0x1009_0203,
    0x1109_0203,
    0x1209_0203,
    0x1309_0203,
    0x1409_0203,
    0x1509_0203,
    0x1609_0203,
    0x1709_0203,
    0x9009_0203,
    0x9109_0203,
    0xb009_0203,
    0xb109_0203,
];

/// What only an operating system may do.
static PRIVILEGED: [u32; 14] = [
    // LDVTS
    0x9809_0203,
    0x9909_0203,
    // PUT to rC, rI, rT, rTT, rK, rQ, rU, rV
    0xf608_0003,
    0xf70c_0003,
    0xf60d_0003,
    0xf70e_0003,
    0xf60f_0003,
    0xf710_0003,
    0xf611_0003,
    0xf712_0003,
    // SYNC 4 to 7
    0xfc00_0004,
    0xfc00_0005,
    0xfc00_0006,
    0xfc00_0007,
];

/// Fields that an instruction does not take; $3 is 2^18.
static ILLEGAL: [u32; 22] = [
    // GET: Y is not 0, Z is above 31
    0xfe09_0103,
    0xfe09_0020,
    // PUT: Y is not 0, X is above 31
    0xf605_0103,
    0xf705_0103,
    0xf620_0003,
    0xf720_0003,
    // PUT to rN, rO, rS; too much for rA; too little and too much for rG
    0xf709_0003,
    0xf60a_0003,
    0xf70b_0003,
    0xf615_0003,
    0xf713_001f,
    0xf613_0003,
    // SAVE: Y or Z is not 0, X is not global
    0xfaff_0001,
    0xfaff_0100,
    0xfafe_0000,
    // UNSAVE: X or Y is not 0
    0xfb01_0003,
    0xfb00_0103,
    // RESUME: X, Y or Z is not 0
    0xf901_0000,
    0xf900_0100,
    0xf900_0001,
    // SYNC above 7
    0xfc00_0008,
    0xfc01_0000,
];

/// What RESUME does not insert: rX, and the reason.
static INSERTED: [(u64, Reason); 8] = [
    // a kind above 2; RESUME itself
    (0x0300_0000_2209_0203, Reason::Illegal),
    (0x0000_0000_f900_0000, Reason::Illegal),
    // a branch, a load and a jump with operands
    (0x0100_0000_4009_0203, Reason::Illegal),
    (0x0100_0000_8009_0203, Reason::Illegal),
    (0x0100_0000_f009_0203, Reason::Illegal),
    // a destination that is not local
    (0x0200_0000_000a_0000, Reason::Illegal),
    // TRAP
    (0x0000_0000_0000_0701, Reason::ResumeInsert),
    // a value that is to go elsewhere
    (0x0200_0100_0009_0000, Reason::ResumeInsert),
];

/// POP with nothing hidden.
static UNDERFLOWS: [u32; 2] = [0xf800_0000, 0xf809_0203];

/// UNSAVE of no frame: the address is 2^18 or TOP.
static BAD_FRAMES: [u32; 2] = [0xfb00_0003, 0xfb00_00ff];

/// $3 is 2^18.
const LARGE: Given = Given {
    z: 1 << 18,
    ..PLAIN
};

/// TRAP, with any fields.
static TRAPS: [u32; 2] = [0x0000_0701, 0x0009_0203];

#[test]
fn floats(rt: HostRuntime) -> Result<(), Fail> {
    all_stop(rt.alloc(), &PLAIN, &FLOATS, Reason::Float)
}

#[test]
fn privileged(rt: HostRuntime) -> Result<(), Fail> {
    all_stop(rt.alloc(), &PLAIN, &PRIVILEGED, Reason::Privileged)
}

#[test]
fn illegal_fields(rt: HostRuntime) -> Result<(), Fail> {
    all_stop(rt.alloc(), &LARGE, &ILLEGAL, Reason::Illegal)
}

#[test]
fn nothing_hidden(rt: HostRuntime) -> Result<(), Fail> {
    all_stop(rt.alloc(), &LARGE, &UNDERFLOWS, Reason::Underflow)
}

#[test]
fn no_frame(rt: HostRuntime) -> Result<(), Fail> {
    all_stop(rt.alloc(), &LARGE, &BAD_FRAMES, Reason::BadFrame)
}

#[test]
fn what_is_not_inserted(rt: HostRuntime) -> Result<(), Fail> {
    for (rx, reason) in &INSERTED {
        let given = Given {
            word: 0xf900_0000,
            special: (RX, *rx),
            ..PLAIN
        };
        check_answer(rt.alloc(), &given, Step::Stopped(*reason))?;
    }
    Ok(())
}

/// A step is a call of a file trap, whose argument is $255.
#[test]
fn traps_wait(rt: HostRuntime) -> Result<(), Fail> {
    for word in &TRAPS {
        let call = TrapCall {
            pc: AT,
            word: *word,
            arg: TOP,
        };
        let given = Given {
            word: *word,
            ..PLAIN
        };
        check_answer(rt.alloc(), &given, Step::Trap(call))?;
    }
    Ok(())
}
