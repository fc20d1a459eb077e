//! Bits and bytes, and the immediate wydes.

use crate::row::{Computed, Given, PLAIN, RA, all_compute, all_set};
use std::test::Fail;

/// y, and z in a register; rM is #ffff0000ff000f0f.
const MIXED: Given = Given {
    y: 0x8123_4567_09ab_cdef,
    z: 0x0140_2211_70cc_aa0f,
    ..PLAIN
};

/// What each instruction on bits gives of y with z, or with 3.
static BITS: [(u32, u64); 16] = [
    // OR
    (0xc009_0203, 0x8163_6777_79ef_efef),
    (0xc109_0203, 0x8123_4567_09ab_cdef),
    // ORN
    (0xc209_0203, 0xffbf_ddef_8fbb_ddff),
    (0xc309_0203, 0xffff_ffff_ffff_ffff),
    // NOR
    (0xc409_0203, 0x7e9c_9888_8610_1010),
    (0xc509_0203, 0x7edc_ba98_f654_3210),
    // XOR
    (0xc609_0203, 0x8063_6776_7967_67e0),
    (0xc709_0203, 0x8123_4567_09ab_cdec),
    // AND
    (0xc809_0203, 0x0100_0001_0088_880f),
    (0xc909_0203, 3),
    // ANDN
    (0xca09_0203, 0x8023_4566_0923_45e0),
    (0xcb09_0203, 0x8123_4567_09ab_cdec),
    // NAND
    (0xcc09_0203, 0xfeff_fffe_ff77_77f0),
    (0xcd09_0203, 0xffff_ffff_ffff_fffc),
    // NXOR
    (0xce09_0203, 0x7f9c_9889_8698_981f),
    (0xcf09_0203, 0x7edc_ba98_f654_3213),
];

/// The same of the instructions on bytes and larger parts, and of those that choose and count.
static PARTS: [(u32, u64); 16] = [
    // BDIF
    (0xd009_0203, 0x8000_2356_0000_23e0),
    (0xd109_0203, 0x8123_4567_09ab_cdec),
    // WDIF
    (0xd209_0203, 0x7fe3_2356_0000_23e0),
    (0xd309_0203, 0x8123_4567_09ab_cdec),
    // TDIF
    (0xd409_0203, 0x7fe3_2356_0000_0000),
    (0xd509_0203, 0x8123_4567_09ab_cdec),
    // ODIF
    (0xd609_0203, 0x7fe3_2355_98df_23e0),
    (0xd709_0203, 0x8123_4567_09ab_cdec),
    // MUX
    (0xd809_0203, 0x8123_2211_09cc_ad0f),
    (0xd909_0203, 0x8123_0000_0900_0d0f),
    // SADD
    (0xda09_0203, 22),
    (0xdb09_0203, 30),
    // MOR
    (0xdc09_0203, 0xef23_cdef_67ab_cdef),
    (0xdd09_0203, 0xef),
    // MXOR
    (0xde09_0203, 0xef23_8888_0100_0080),
    (0xdf09_0203, 0x22),
];

/// Differences that the size of the parts decides: of y and 3.
static DIFFERENCES: [Computed; 7] = [
    // BDIF
    (
        0xd109_0203,
        0x8123_4567_09ab_0102,
        0,
        0x8123_4567_09ab_0100,
        (RA, 0),
    ),
    // WDIF
    (
        0xd309_0203,
        0x8123_4567_09ab_0102,
        0,
        0x8123_4567_09ab_00ff,
        (RA, 0),
    ),
    (
        0xd309_0203,
        0x8123_4567_0001_0002,
        0,
        0x8123_4567_0001_0000,
        (RA, 0),
    ),
    // TDIF
    (
        0xd509_0203,
        0x8123_4567_0001_0002,
        0,
        0x8123_4567_0000_ffff,
        (RA, 0),
    ),
    (
        0xd509_0203,
        0x8123_4567_0000_0002,
        0,
        0x8123_4567_0000_0000,
        (RA, 0),
    ),
    // ODIF
    (
        0xd709_0203,
        0x8123_4567_0000_0002,
        0,
        0x8123_4566_ffff_ffff,
        (RA, 0),
    ),
    (0xd709_0203, 2, 0, 0, (RA, 0)),
];

/// The old $9, of the immediate wydes.
const OLD: Given = Given {
    x: 0xfedc_ba98_7654_3210,
    ..PLAIN
};

/// What the wyde #203 makes of #fedcba9876543210.
static WYDES: [(u32, u64); 16] = [
    // SETH, SETMH, SETML, SETL
    (0xe009_0203, 0x0203_0000_0000_0000),
    (0xe109_0203, 0x0203_0000_0000),
    (0xe209_0203, 0x0203_0000),
    (0xe309_0203, 0x0203),
    // INCH, whose sum is taken modulo 2^64, INCMH, INCML, INCL
    (0xe409_0203, 0x00df_ba98_7654_3210),
    (0xe509_0203, 0xfedc_bc9b_7654_3210),
    (0xe609_0203, 0xfedc_ba98_7857_3210),
    (0xe709_0203, 0xfedc_ba98_7654_3413),
    // ORH, ORMH, ORML, ORL
    (0xe809_0203, 0xfedf_ba98_7654_3210),
    (0xe909_0203, 0xfedc_ba9b_7654_3210),
    (0xea09_0203, 0xfedc_ba98_7657_3210),
    (0xeb09_0203, 0xfedc_ba98_7654_3213),
    // ANDNH, ANDNMH, ANDNML, ANDNL
    (0xec09_0203, 0xfcdc_ba98_7654_3210),
    (0xed09_0203, 0xfedc_b898_7654_3210),
    (0xee09_0203, 0xfedc_ba98_7454_3210),
    (0xef09_0203, 0xfedc_ba98_7654_3010),
];

#[test]
fn bits(rt: HostRuntime) -> Result<(), Fail> {
    all_set(rt.alloc(), &MIXED, &BITS)
}

#[test]
fn parts(rt: HostRuntime) -> Result<(), Fail> {
    all_set(rt.alloc(), &MIXED, &PARTS)
}

#[test]
fn differences(rt: HostRuntime) -> Result<(), Fail> {
    all_compute(rt.alloc(), &PLAIN, &DIFFERENCES)
}

#[test]
fn wydes(rt: HostRuntime) -> Result<(), Fail> {
    all_set(rt.alloc(), &OLD, &WYDES)
}
