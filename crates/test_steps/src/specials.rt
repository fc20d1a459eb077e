//! The special registers, by GET and PUT, and SYNC.

use crate::row::{BASE, Due, GOES_ON, Given, PLAIN, all_idle, all_set, check_goes_on};
use std::test::Fail;

/// GET of each special register by its code, and what $9 gets.
static GETS: [(u32, u64); 32] = [
    // rB, rD, rE, rH, rJ, rM, rR, rBB
    (0xfe09_0000, 0xb00),
    (0xfe09_0001, 2),
    (0xfe09_0002, 0xe00),
    (0xfe09_0003, 0x100),
    (0xfe09_0004, 0x3000),
    (0xfe09_0005, 0xffff_0000_ff00_0f0f),
    (0xfe09_0006, 0x600),
    (0xfe09_0007, 0xbb00),
    // rC: one step was made; rN, rO, rS
    (0xfe09_0008, 1),
    (0xfe09_0009, 0x0100_0000_0000_0000),
    (0xfe09_000a, BASE),
    (0xfe09_000b, BASE),
    // rI, rT, rTT, rK, rQ, rU, rV
    (0xfe09_000c, 0),
    (0xfe09_000d, 0x8000_0005_0000_0000),
    (0xfe09_000e, 0x8000_0006_0000_0000),
    (0xfe09_000f, 0xffff_ffff_ffff_ffff),
    (0xfe09_0010, 0),
    (0xfe09_0011, 0),
    (0xfe09_0012, 0x369c_2004_0000_0000),
    // rG, rL, rA, rF, rP
    (0xfe09_0013, 255),
    (0xfe09_0014, 10),
    (0xfe09_0015, 0),
    (0xfe09_0016, 0xf00),
    (0xfe09_0017, 0xa00),
    // rW, rX, rY, rZ, rWW, rXX, rYY, rZZ
    (0xfe09_0018, 0x3000_0006),
    (0xfe09_0019, 0x8000_0000_0000_0000),
    (0xfe09_001a, 0x1a00),
    (0xfe09_001b, 0x1b00),
    (0xfe09_001c, 0x1c00),
    (0xfe09_001d, 0x1d00),
    (0xfe09_001e, 0x1e00),
    (0xfe09_001f, 0x1f00),
];

const WIDE: u64 = 0x1234_5678_9abc_def0;

/// PUT of $3 or of a byte: the tetra, $3, the special register, what it has then, and how many registers are
/// local then.
static PUTS: [(u32, u64, u8, u64, u8); 30] = [
    // rB, rD, rE, rH, rJ, rM, rR, rBB
    (0xf600_0003, WIDE, 0, WIDE, 10),
    (0xf701_0003, 0, 1, 3, 10),
    (0xf602_0003, WIDE, 2, WIDE, 10),
    (0xf703_0003, 0, 3, 3, 10),
    (0xf604_0003, WIDE, 4, WIDE, 10),
    (0xf705_0003, 0, 5, 3, 10),
    (0xf606_0003, WIDE, 6, WIDE, 10),
    (0xf707_0003, 0, 7, 3, 10),
    // rF, rP, rW, rX, rY, rZ, rWW, rXX, rYY, rZZ
    (0xf616_0003, WIDE, 22, WIDE, 10),
    (0xf717_0003, 0, 23, 3, 10),
    (0xf618_0003, WIDE, 24, WIDE, 10),
    (0xf719_0003, 0, 25, 3, 10),
    (0xf61a_0003, WIDE, 26, WIDE, 10),
    (0xf71b_0003, 0, 27, 3, 10),
    (0xf61c_0003, WIDE, 28, WIDE, 10),
    (0xf71d_0003, 0, 29, 3, 10),
    (0xf61e_0003, WIDE, 30, WIDE, 10),
    (0xf71f_0003, 0, 31, 3, 10),
    // rG, from 32 to 255
    (0xf713_0020, 0, 19, 32, 10),
    (0xf613_0003, 255, 19, 255, 10),
    (0xf613_0003, 100, 19, 100, 10),
    // rL, which only falls
    (0xf714_00c8, 0, 20, 10, 10),
    (0xf614_0003, 1 << 63, 20, 10, 10),
    (0xf714_0005, 0, 20, 5, 5),
    (0xf714_0000, 0, 20, 0, 0),
    (0xf614_0003, 7, 20, 7, 7),
    // rA, up to #3ffff
    (0xf615_0003, 0x3_ffff, 21, 0x3_ffff, 10),
    (0xf715_00ff, 0, 21, 0xff, 10),
    (0xf615_0003, 0, 21, 0, 10),
    (0xf715_0000, 0, 21, 0, 10),
];

/// SYNC 0 to 3 does nothing.
static SYNCS: [u32; 4] = [0xfc00_0000, 0xfc00_0001, 0xfc00_0002, 0xfc00_0003];

#[test]
fn gets(rt: HostRuntime) -> Result<(), Fail> {
    all_set(rt.alloc(), &PLAIN, &GETS)
}

#[test]
fn puts(rt: HostRuntime) -> Result<(), Fail> {
    for row in &PUTS {
        let (word, z, code, value, l) = *row;
        let due = Due {
            special: (code, value),
            l,
            ..GOES_ON
        };
        check_goes_on(rt.alloc(), &Given { word, z, ..PLAIN }, &due)?;
    }
    Ok(())
}

#[test]
fn syncs(rt: HostRuntime) -> Result<(), Fail> {
    all_idle(rt.alloc(), &PLAIN, &SYNCS)
}
