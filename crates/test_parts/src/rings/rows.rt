//! Rows of operations, computed by a model of its own: one growing list of registers, where those of
//! the running routine are last.

use mx_ring::{RingFault, Saved};

pub(crate) const BASE: u64 = 0x6000_0000_0000_0000;

pub(crate) const END: u64 = 0x6000_0000_0080_0000;

/// One operation. UNSAVE has the special registers that it gives.
#[derive(Clone, Copy)]
pub(crate) enum Op {
    Set(u8, u64),
    Cut(u8),
    Global(u8),
    Push(u8),
    Pop(u8),
    Save(u8),
    Unsave(u64, Saved),
}

/// An operation, its answer, and then L, G, the number of hidden registers, and one register.
pub(crate) type Row = (Op, Result<(), RingFault>, u8, u8, u32, (u8, u64));

const ZEROS: Saved = Saved {
    b: 0,
    d: 0,
    e: 0,
    h: 0,
    j: 0,
    m: 0,
    r: 0,
    p: 0,
    w: 0,
    x: 0,
    y: 0,
    z: 0,
    a: 0,
};

/// The special registers that every SAVE of the rows is given.
pub(crate) const SPECIALS: Saved = Saved {
    b: 11,
    d: 12,
    e: 13,
    h: 14,
    j: 15,
    m: 16,
    r: 17,
    p: 18,
    w: 19,
    x: 20,
    y: 21,
    z: 22,
    a: 0x2a5a5,
};

/// Those of a frame that no SAVE made; of its last octa only the low 18 bits are rA.
const FORGED: Saved = Saved {
    b: 11,
    d: 0,
    e: 0,
    h: 0,
    j: 0,
    m: 0,
    r: 0,
    p: 0,
    w: 0,
    x: 0,
    y: 0,
    z: 22,
    a: 0x15555,
};

/// Calls and ways back. The machine starts with $0 and $1.
pub(crate) static CALLS: [Row; 31] = [
    // nothing is hidden at first
    (Op::Pop(0), Err(RingFault::Underflow), 0, 255, 0, (255, 0)),
    (Op::Set(0, 2), Ok(()), 1, 255, 0, (0, 2)),
    (
        Op::Set(1, 0x4000_0000_0000_0008),
        Ok(()),
        2,
        255,
        0,
        (1, 0x4000_0000_0000_0008),
    ),
    // PUSHJ $99 three times, and back: the hole of the call and what is above it are gone
    (Op::Set(7, 70), Ok(()), 8, 255, 0, (7, 70)),
    (Op::Push(99), Ok(()), 0, 255, 100, (0, 0)),
    (Op::Push(99), Ok(()), 0, 255, 200, (99, 0)),
    (Op::Push(99), Ok(()), 0, 255, 300, (0, 0)),
    (Op::Pop(0), Ok(()), 99, 255, 200, (98, 0)),
    (Op::Pop(0), Ok(()), 99, 255, 100, (98, 0)),
    (Op::Pop(0), Ok(()), 99, 255, 0, (7, 70)),
    // L falls: what was local is 0, also once it is local again
    (Op::Cut(3), Ok(()), 3, 255, 0, (7, 0)),
    (Op::Set(8, 80), Ok(()), 9, 255, 0, (7, 0)),
    // a local $X: those after $X are the arguments
    (Op::Cut(3), Ok(()), 3, 255, 0, (7, 0)),
    (Op::Set(3, 13), Ok(()), 4, 255, 0, (3, 13)),
    (Op::Set(4, 14), Ok(()), 5, 255, 0, (4, 14)),
    (Op::Push(2), Ok(()), 2, 255, 3, (0, 13)),
    // POP 2,0: $1 comes first, at the hole, and $0 after it
    (Op::Pop(2), Ok(()), 4, 255, 0, (2, 14)),
    (Op::Cut(4), Ok(()), 4, 255, 0, (3, 13)),
    // $X between L and G; POP 9,0 with two locals: 0 at the hole, and both
    (Op::Push(10), Ok(()), 0, 255, 11, (0, 0)),
    (Op::Set(1, 21), Ok(()), 2, 255, 11, (1, 21)),
    (Op::Pop(9), Ok(()), 13, 255, 0, (12, 21)),
    (Op::Set(10, 3), Ok(()), 13, 255, 0, (12, 21)),
    // POP 1,0: one result at the hole, in place of the number
    (Op::Push(20), Ok(()), 0, 255, 21, (0, 0)),
    (Op::Set(0, 31), Ok(()), 1, 255, 21, (0, 31)),
    (Op::Set(1, 32), Ok(()), 2, 255, 21, (1, 32)),
    (Op::Pop(1), Ok(()), 21, 255, 0, (20, 31)),
    // a global $X: all locals and their number, 0 the second time
    (Op::Cut(5), Ok(()), 5, 255, 0, (4, 0)),
    (Op::Push(255), Ok(()), 0, 255, 6, (0, 0)),
    (Op::Push(255), Ok(()), 0, 255, 7, (0, 0)),
    (Op::Pop(0), Ok(()), 0, 255, 6, (0, 0)),
    (Op::Pop(0), Ok(()), 5, 255, 0, (3, 13)),
];

/// G moves.
pub(crate) static GLOBALS: [Row; 26] = [
    (Op::Set(0, 9), Ok(()), 1, 255, 0, (0, 9)),
    (Op::Set(255, 52), Ok(()), 1, 255, 0, (255, 52)),
    // what becomes global is 0, and what ceases to be global is 0
    (Op::Global(200), Ok(()), 1, 200, 0, (255, 52)),
    (Op::Set(250, 41), Ok(()), 1, 200, 0, (250, 41)),
    (Op::Set(200, 42), Ok(()), 1, 200, 0, (200, 42)),
    (Op::Global(210), Ok(()), 1, 210, 0, (200, 0)),
    (Op::Global(200), Ok(()), 1, 200, 0, (200, 0)),
    (Op::Set(209, 5), Ok(()), 1, 200, 0, (250, 41)),
    // hidden with G 200, and brought back with G 40: the hole is above G, and L is G
    (Op::Push(150), Ok(()), 0, 200, 151, (0, 0)),
    (Op::Global(40), Ok(()), 0, 40, 151, (250, 41)),
    (Op::Set(2, 43), Ok(()), 3, 40, 151, (2, 43)),
    (Op::Pop(3), Ok(()), 40, 40, 0, (39, 0)),
    // the same with G 60 after it was 40; the first global keeps its value
    (Op::Global(200), Ok(()), 40, 200, 0, (39, 0)),
    (Op::Push(150), Ok(()), 0, 200, 151, (0, 0)),
    (Op::Global(40), Ok(()), 0, 40, 151, (40, 0)),
    (Op::Global(60), Ok(()), 0, 60, 151, (60, 0)),
    (Op::Set(60, 8), Ok(()), 0, 60, 151, (60, 8)),
    (Op::Set(2, 43), Ok(()), 3, 60, 151, (2, 43)),
    (Op::Pop(3), Ok(()), 60, 60, 0, (60, 8)),
    // results that do not fit below G are dropped, from the end
    (Op::Cut(0), Ok(()), 0, 60, 0, (0, 0)),
    (Op::Push(58), Ok(()), 0, 60, 59, (0, 0)),
    (Op::Set(0, 1), Ok(()), 1, 60, 59, (0, 1)),
    (Op::Set(1, 2), Ok(()), 2, 60, 59, (1, 2)),
    (Op::Set(2, 3), Ok(()), 3, 60, 59, (2, 3)),
    (Op::Pop(3), Ok(()), 60, 60, 0, (59, 1)),
    (Op::Set(58, 3), Ok(()), 60, 60, 0, (59, 1)),
];

/// SAVE and UNSAVE.
pub(crate) static FRAMES: [Row; 41] = [
    // around a changed local, as SAVE $255,0 in a program that has just begun; low bits of the address do not count
    (Op::Set(0, 2), Ok(()), 1, 255, 0, (0, 2)),
    (
        Op::Set(1, 0x4000_0000_0000_0008),
        Ok(()),
        2,
        255,
        0,
        (1, 0x4000_0000_0000_0008),
    ),
    (Op::Set(0, 5), Ok(()), 2, 255, 0, (0, 5)),
    (
        Op::Save(255),
        Ok(()),
        0,
        255,
        17,
        (255, 0x6000_0000_0000_0080),
    ),
    (Op::Set(0, 9), Ok(()), 1, 255, 17, (0, 9)),
    (Op::Push(3), Ok(()), 0, 255, 21, (0, 0)),
    (
        Op::Unsave(0x6000_0000_0000_0087, SPECIALS),
        Ok(()),
        2,
        255,
        0,
        (0, 5),
    ),
    (Op::Set(0, 6), Ok(()), 2, 255, 0, (255, 0)),
    // outside the stack area, and in it where an octa has a high byte below 32
    (
        Op::Unsave(0, ZEROS),
        Err(RingFault::BadFrame),
        2,
        255,
        0,
        (0, 6),
    ),
    (
        Op::Unsave(0x5fff_ffff_ffff_ffff, ZEROS),
        Err(RingFault::BadFrame),
        2,
        255,
        0,
        (0, 6),
    ),
    (
        Op::Unsave(0x6000_0000_0080_0000, ZEROS),
        Err(RingFault::BadFrame),
        2,
        255,
        0,
        (0, 6),
    ),
    (
        Op::Unsave(0xffff_ffff_ffff_ffff, ZEROS),
        Err(RingFault::BadFrame),
        2,
        255,
        0,
        (0, 6),
    ),
    (Op::Push(1), Ok(()), 0, 255, 2, (0, 0)),
    (
        Op::Unsave(0x6000_0000_0000_0000, ZEROS),
        Err(RingFault::BadFrame),
        0,
        255,
        2,
        (0, 0),
    ),
    (Op::Pop(0), Ok(()), 1, 255, 0, (0, 6)),
    // the least G, with 224 globals; they come back as they were before SAVE gave $200 its address
    (Op::Global(32), Ok(()), 1, 32, 0, (32, 0)),
    (Op::Set(32, 51), Ok(()), 1, 32, 0, (32, 51)),
    (Op::Set(255, 52), Ok(()), 1, 32, 0, (255, 52)),
    (Op::Set(200, 55), Ok(()), 1, 32, 0, (200, 55)),
    (
        Op::Save(200),
        Ok(()),
        0,
        32,
        239,
        (200, 0x6000_0000_0000_0770),
    ),
    (Op::Set(32, 53), Ok(()), 0, 32, 239, (32, 53)),
    (Op::Global(255), Ok(()), 0, 255, 239, (255, 52)),
    (Op::Set(100, 54), Ok(()), 101, 255, 239, (100, 54)),
    (
        Op::Unsave(0x6000_0000_0000_0770, SPECIALS),
        Ok(()),
        1,
        32,
        0,
        (200, 55),
    ),
    (Op::Set(0, 6), Ok(()), 1, 32, 0, (32, 51)),
    // a frame among what PUSHJ hides: G 32 and L 40, of which 32 come back
    (Op::Global(255), Ok(()), 1, 255, 0, (254, 0)),
    (Op::Cut(0), Ok(()), 0, 255, 0, (0, 0)),
    (Op::Set(75, 200), Ok(()), 76, 255, 0, (75, 200)),
    (Op::Set(76, 81), Ok(()), 77, 255, 0, (76, 81)),
    (Op::Push(99), Ok(()), 0, 255, 100, (0, 0)),
    (Op::Set(16, 1832), Ok(()), 17, 255, 100, (16, 1832)),
    (Op::Set(17, 7), Ok(()), 18, 255, 100, (17, 7)),
    (Op::Set(240, 8), Ok(()), 241, 255, 100, (240, 8)),
    (Op::Set(241, 11), Ok(()), 242, 255, 100, (241, 11)),
    (Op::Set(252, 22), Ok(()), 253, 255, 100, (252, 22)),
    (
        Op::Set(253, 0x2000_0000_001d_5555),
        Ok(()),
        254,
        255,
        100,
        (253, 0x2000_0000_001d_5555),
    ),
    (Op::Push(255), Ok(()), 0, 255, 355, (0, 0)),
    // UNSAVE reads the stack area, where SAVE puts it
    (
        Op::Save(255),
        Ok(()),
        0,
        255,
        370,
        (255, 0x6000_0000_0000_0b88),
    ),
    (
        Op::Unsave(0x6000_0000_0000_0b08, FORGED),
        Ok(()),
        32,
        32,
        76,
        (0, 81),
    ),
    (Op::Set(31, 1), Ok(()), 32, 32, 76, (32, 7)),
    // 76 are hidden, and the last says that 200 are below it
    (Op::Pop(0), Err(RingFault::Underflow), 32, 32, 76, (255, 8)),
];

/// Frames that reach down to the beginning of the stack area, and below.
pub(crate) static SHORT_FRAMES: [Row; 16] = [
    (Op::Push(99), Ok(()), 0, 255, 100, (0, 0)),
    (Op::Set(16, 117), Ok(()), 17, 255, 100, (16, 117)),
    (
        Op::Set(253, 0x2000_0000_0000_0000),
        Ok(()),
        254,
        255,
        100,
        (253, 0x2000_0000_0000_0000),
    ),
    (Op::Push(255), Ok(()), 0, 255, 355, (0, 0)),
    (
        Op::Save(255),
        Ok(()),
        0,
        255,
        370,
        (255, 0x6000_0000_0000_0b88),
    ),
    (
        Op::Unsave(0x6000_0000_0000_0b08, ZEROS),
        Err(RingFault::BadFrame),
        0,
        255,
        370,
        (0, 0),
    ),
    (
        Op::Unsave(0x6000_0000_0000_0b88, SPECIALS),
        Ok(()),
        0,
        255,
        355,
        (255, 0),
    ),
    (Op::Pop(0), Ok(()), 254, 255, 100, (16, 117)),
    (Op::Set(16, 116), Ok(()), 254, 255, 100, (16, 116)),
    (Op::Set(241, 11), Ok(()), 254, 255, 100, (241, 11)),
    (Op::Set(252, 22), Ok(()), 254, 255, 100, (252, 22)),
    (
        Op::Set(253, 0x2000_0000_001d_5555),
        Ok(()),
        254,
        255,
        100,
        (253, 0x2000_0000_001d_5555),
    ),
    (Op::Push(255), Ok(()), 0, 255, 355, (0, 0)),
    (
        Op::Save(255),
        Ok(()),
        0,
        255,
        370,
        (255, 0x6000_0000_0000_0b88),
    ),
    (
        Op::Unsave(0x6000_0000_0000_0b08, FORGED),
        Ok(()),
        32,
        32,
        0,
        (0, 0),
    ),
    (Op::Set(31, 5), Ok(()), 32, 32, 0, (31, 5)),
];

/// The stack once 4,112 times 255 registers are hidden: there is room for 16.
pub(crate) static FULL: [Row; 17] = [
    (
        Op::Set(16, 1),
        Err(RingFault::StackFull),
        0,
        255,
        1048560,
        (16, 0),
    ),
    (Op::Set(15, 1), Ok(()), 16, 255, 1048560, (15, 1)),
    (
        Op::Set(16, 1),
        Err(RingFault::StackFull),
        16,
        255,
        1048560,
        (15, 1),
    ),
    (Op::Set(255, 2), Ok(()), 16, 255, 1048560, (255, 2)),
    (
        Op::Push(16),
        Err(RingFault::StackFull),
        16,
        255,
        1048560,
        (15, 1),
    ),
    (
        Op::Push(255),
        Err(RingFault::StackFull),
        16,
        255,
        1048560,
        (15, 1),
    ),
    (Op::Push(15), Ok(()), 0, 255, 1048576, (15, 0)),
    (
        Op::Set(0, 1),
        Err(RingFault::StackFull),
        0,
        255,
        1048576,
        (0, 0),
    ),
    (
        Op::Push(0),
        Err(RingFault::StackFull),
        0,
        255,
        1048576,
        (0, 0),
    ),
    (
        Op::Push(255),
        Err(RingFault::StackFull),
        0,
        255,
        1048576,
        (0, 0),
    ),
    (
        Op::Save(255),
        Err(RingFault::StackFull),
        0,
        255,
        1048576,
        (255, 2),
    ),
    (Op::Pop(1), Ok(()), 16, 255, 1048560, (15, 0)),
    (Op::Cut(2), Ok(()), 2, 255, 1048560, (0, 0)),
    (
        Op::Save(255),
        Err(RingFault::StackFull),
        2,
        255,
        1048560,
        (255, 2),
    ),
    (Op::Cut(1), Ok(()), 1, 255, 1048560, (0, 0)),
    (
        Op::Save(255),
        Ok(()),
        0,
        255,
        1048576,
        (255, 0x6000_0000_007f_fff8),
    ),
    (
        Op::Save(255),
        Err(RingFault::StackFull),
        0,
        255,
        1048576,
        (255, 0x6000_0000_007f_fff8),
    ),
];
