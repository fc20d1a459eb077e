//! Values from outside: a model of the instructions that was written apart from this crate, in
//! Python's whole numbers and lists of bits. Each name is there with either of its codes.

use mx_alu::{Answer, Event, Extra, alu, truth};
use std::process::Abort;

/// Octas that the rows name: the least and the greatest signed one, all ones, three chosen at random,
/// two whose bytes, wydes and tetras differ either way, and two matrices of bits.
const ONES: u64 = 0xffff_ffff_ffff_ffff;

const MIN: u64 = 0x8000_0000_0000_0000;

const MAX: u64 = 0x7fff_ffff_ffff_ffff;

const A: u64 = 0xd1a6_e55e_9b9b_1325;

const B: u64 = 0x566b_f9d7_c55a_45f8;

const C: u64 = 0xcf0c_26ef_4243_ed52;

const P: u64 = 0x00ff_0180_7f10_8020;

const Q: u64 = 0x01fe_0081_7f0f_9010;

const IDENTITY: u64 = 0x8040_2010_0804_0201;

const REVERSAL: u64 = 0x0102_0408_1020_4080;

/// The code, the operands and the result of instructions that give nothing else.
static PLAIN: [(u8, u64, u64, u64); 128] = [
    // signed products: the edges of the octas, and signs
    (0x18, MIN, 1, MIN), // MUL
    (0x19, 0xffff_ffff_ffff_fffd, 7, 0xffff_ffff_ffff_ffeb), // MUL
    (0x19, 0xffff_ffff_0000_0000, 0x8000_0000, MIN), // MUL
    (
        0x18,
        0xffff_ffff_e464_ecdb,
        0x455a_45f8,
        0xf885_77c6_c19a_7b28,
    ), // MUL
    // sums and differences: the edges of the octas
    (0x20, MAX, ONES, 0x7fff_ffff_ffff_fffe), // ADD
    (0x21, 0xffff_ffff_ffff_fffe, 1, ONES), // ADD
    (0x23, ONES, 1, 0), // ADDU
    (0x22, MAX, 1, MIN), // ADDU
    (0x23, A, B, 0x2812_df36_60f5_591d), // ADDU
    (0x22, 5, 6, 11), // ADDU
    (0x24, ONES, MIN, MAX), // SUB
    (0x25, 3, 5, 0xffff_ffff_ffff_fffe), // SUB
    (0x26, 0, 1, ONES), // SUBU
    (0x27, A, B, 0x7b3a_eb86_d640_cd2d), // SUBU
    (0x26, B, A, 0x84c5_1479_29bf_32d3), // SUBU
    (0x27, 5, 3, 2), // SUBU
    // scaled sums
    (0x28, MIN, 3, 3), // 2ADDU
    (0x2b, 0x8000_0000_0000_0001, 3, 7), // 4ADDU
    (0x2c, A, B, 0xe3a3_24cc_a232_df20), // 8ADDU
    (0x2f, 0x1000_0000_0000_0000, 5, 5), // 16ADDU
    (0x2e, 3, ONES, 47), // 16ADDU
    (0x29, 7, 1, 15), // 2ADDU
    // comparisons: signed and unsigned disagree where signs differ
    (0x30, ONES, 0, ONES), // CMP
    (0x31, 1, ONES, 1), // CMP
    (0x30, MIN, MAX, ONES), // CMP
    (0x31, 5, 5, 0), // CMP
    (0x32, ONES, 0, 1), // CMPU
    (0x33, 1, ONES, ONES), // CMPU
    (0x32, MIN, MAX, 1), // CMPU
    (0x33, MIN, MIN, 0), // CMPU
    // the byte Y less z
    (0x34, 0, 1, ONES), // NEG
    (0x35, 255, ONES, 256), // NEG
    (0x34, 1, MAX, 0x8000_0000_0000_0002), // NEG
    (0x37, 0, 1, ONES), // NEGU
    (0x36, 255, MIN, 0x8000_0000_0000_00ff), // NEGU
    (0x37, 1, 1, 0), // NEGU
    (0x36, 0, A, 0x2e59_1aa1_6464_ecdb), // NEGU
    // shifts by 63, 64, 2^63 and more
    (0x38, 1, 62, 0x4000_0000_0000_0000), // SL
    (0x38, ONES, 63, MIN), // SL
    (0x38, 0, 64, 0), // SL
    (0x39, 0, MIN, 0), // SL
    (0x3b, 1, 63, MIN), // SLU
    (0x3a, 3, 63, MIN), // SLU
    (0x3b, ONES, 64, 0), // SLU
    (0x3a, ONES, MIN, 0), // SLU
    (0x3b, A, 7, 0xd372_af4d_cd89_9280), // SLU
    (0x3c, MIN, 63, ONES), // SR
    (0x3d, MIN, 64, ONES), // SR
    (0x3c, MIN, MIN, ONES), // SR
    (0x3d, MAX, 63, 0), // SR
    (0x3c, 0xffff_ffff_ffff_fff9, 1, 0xffff_ffff_ffff_fffc), // SR
    (0x3d, A, 12, 0xfffd_1a6e_55e9_b9b1), // SR
    (0x3e, MIN, 63, 1), // SRU
    (0x3f, MIN, 64, 0), // SRU
    (0x3e, ONES, MIN, 0), // SRU
    (0x3f, A, 12, 0x000d_1a6e_55e9_b9b1), // SRU
    (0x3e, A, 0, A), // SRU
    // logic, on two random octas and on no and all bits
    (0xc0, A, B, 0xd7ef_fddf_dfdb_57fd), // OR
    (0xc3, A, B, 0xf9b6_e77e_bbbf_bb27), // ORN
    (0xc4, A, B, 0x2810_0220_2024_a802), // NOR
    (0xc7, A, B, 0x87cd_1c89_5ec1_56dd), // XOR
    (0xc8, A, B, 0x5022_e156_811a_0120), // AND
    (0xcb, A, B, 0x8184_0408_1a81_1205), // ANDN
    (0xcc, A, B, 0xafdd_1ea9_7ee5_fedf), // NAND
    (0xcf, A, B, 0x7832_e376_a13e_a922), // NXOR
    (0xc2, 0, 0, ONES), // ORN
    (0xc5, 0, 0, ONES), // NOR
    (0xcc, 0, 0, ONES), // NAND
    (0xcf, 0, 0, ONES), // NXOR
    (0xc0, ONES, ONES, ONES), // OR
    (0xc7, ONES, ONES, 0), // XOR
    (0xc8, ONES, ONES, ONES), // AND
    (0xcb, ONES, ONES, 0), // ANDN
    // differences of mixed fields
    (0xd0, P, Q, 0x0001_0100_0001_0010), // BDIF
    (0xd1, Q, P, 0x0100_0001_0000_1000), // BDIF
    (0xd0, A, B, 0x7b3b_0000_0041_0000), // BDIF
    (0xd1, ONES, 1, 0xffff_ffff_ffff_fffe), // BDIF
    (0xd2, P, Q, 0x00ff_0001_0000), // WDIF
    (0xd3, Q, P, 0x00ff_0000_0000_0ff0), // WDIF
    (0xd2, A, B, 0x7b3b_0000_0000_0000), // WDIF
    (0xd3, ONES, 1, 0xffff_ffff_ffff_fffe), // WDIF
    (0xd4, P, Q, 0xf010), // TDIF
    (0xd5, Q, P, 0x00fe_ff01_0000_0000), // TDIF
    (0xd4, A, B, 0x7b3a_eb87_0000_0000), // TDIF
    (0xd5, ONES, 1, 0xffff_ffff_ffff_fffe), // TDIF
    (0xd6, P, Q, 0), // ODIF
    (0xd7, Q, P, 0x00fe_ff00_ffff_0ff0), // ODIF
    (0xd6, A, B, 0x7b3a_eb86_d640_cd2d), // ODIF
    (0xd7, ONES, 1, 0xffff_ffff_ffff_fffe), // ODIF
    // counts of ones
    (0xda, ONES, 0, 64), // SADD
    (0xdb, ONES, ONES, 0), // SADD
    (0xda, A, B, 15), // SADD
    (0xdb, 0x8000_0000_0000_0001, 1, 1), // SADD
    (0xda, 0, A, 0), // SADD
    // matrices: the identity, the reversal of bytes on the right, that of bits on the left, and random ones
    (0xdc, A, IDENTITY, A), // MOR
    (0xdd, A, REVERSAL, 0x2513_9b9b_5ee5_a6d1), // MOR
    (0xdc, REVERSAL, A, 0x8b65_a77a_d9d9_c8a4), // MOR
    (0xdd, A, B, 0xffff_ffff_ffff_bfff), // MOR
    (0xdc, B, A, 0xffff_ffff_ffff_fffb), // MOR
    (0xdd, 0xff01, 0x0303_0003_0001_0203, 0xffff_00ff_0001_ffff), // MOR
    (0xdc, ONES, ONES, ONES), // MOR
    (0xdf, A, IDENTITY, A), // MXOR
    (0xde, A, REVERSAL, 0x2513_9b9b_5ee5_a6d1), // MXOR
    (0xdf, REVERSAL, A, 0x8b65_a77a_d9d9_c8a4), // MXOR
    (0xde, A, B, 0x70ee_7284_c970_1857), // MXOR
    (0xdf, B, A, 0x12b0_6666_f9f9_6a5b), // MXOR
    (0xde, 0xff01, 0x0303_0003_0001_0203, 0xfefe_00fe_0001_fffe), // MXOR
    (0xdf, ONES, ONES, 0), // MXOR
    // wydes at each place
    (0xe0, A, 0xabcd, 0xabcd_0000_0000_0000), // SETH
    (0xe1, A, 0xabcd, 0xabcd_0000_0000), // SETMH
    (0xe2, A, 0xabcd, 0xabcd_0000), // SETML
    (0xe3, A, 0xabcd, 0xabcd), // SETL
    (0xe4, A, 0xabcd, 0x7d73_e55e_9b9b_1325), // INCH
    (0xe5, A, 0xabcd, 0xd1a7_912b_9b9b_1325), // INCMH
    (0xe6, A, 0xabcd, 0xd1a6_e55f_4768_1325), // INCML
    (0xe7, A, 0xabcd, 0xd1a6_e55e_9b9b_bef2), // INCL
    (0xe8, A, 0xabcd, 0xfbef_e55e_9b9b_1325), // ORH
    (0xe9, A, 0xabcd, 0xd1a6_efdf_9b9b_1325), // ORMH
    (0xea, A, 0xabcd, 0xd1a6_e55e_bbdf_1325), // ORML
    (0xeb, A, 0xabcd, 0xd1a6_e55e_9b9b_bbed), // ORL
    (0xec, A, 0xabcd, 0x5022_e55e_9b9b_1325), // ANDNH
    (0xed, A, 0xabcd, 0xd1a6_4412_9b9b_1325), // ANDNMH
    (0xee, A, 0xabcd, 0xd1a6_e55e_1012_1325), // ANDNML
    (0xef, A, 0xabcd, 0xd1a6_e55e_9b9b_1020), // ANDNL
    (0xe4, MIN, 0x8000, 0), // INCH
    (0xe7, ONES, 1, 0), // INCL
    (0xe3, 5, 0, 0), // SETL
    (0xef, ONES, 0xffff, 0xffff_ffff_ffff_0000), // ANDNL
];

/// The same of instructions that overflow.
static OVERFLOWS: [(u8, u64, u64, u64); 17] = [
    // signed products: the edges of the octas, and signs
    (0x18, MIN, ONES, MIN), // MUL
    (0x19, MAX, 2, 0xffff_ffff_ffff_fffe), // MUL
    (0x18, 0x0001_0000_0000, 0x8000_0000, MIN), // MUL
    (0x19, A, 0x566b_f9d7_c55a_45f9, 0x4b7b_b449_5a00_97fd), // MUL
    // sums and differences: the edges of the octas
    (0x20, MAX, 1, MIN), // ADD
    (0x21, MIN, ONES, MAX), // ADD
    (0x20, MIN, MIN, 0), // ADD
    (0x25, MIN, 1, MAX), // SUB
    (0x24, 0, MIN, MIN), // SUB
    (0x25, MAX, ONES, MIN), // SUB
    // the byte Y less z
    (0x35, 0, MIN, MIN), // NEG
    (0x34, 255, MIN, 0x8000_0000_0000_00ff), // NEG
    // shifts by 63, 64, 2^63 and more
    (0x39, 1, 63, MIN), // SL
    (0x39, 1, 64, 0), // SL
    (0x38, ONES, 64, 0), // SL
    (0x39, 1, ONES, 0), // SL
    (0x38, 0xffff_ffff_ffff_fffe, 63, 0), // SL
];

/// Factors, and the low and the high half of their product.
static PRODUCTS: [(u64, u64, u64, u64); 5] = [
    (ONES, ONES, 1, 0xffff_ffff_ffff_fffe),
    (ONES, 2, 0xffff_ffff_ffff_fffe, 1),
    (0x0001_0000_0000, 0x0001_0000_0000, 0, 1),
    (0, ONES, 0, 0),
    (A, B, 0x79d4_ceea_be65_84d8, 0x46c6_7e6b_b0b4_2689),
];

/// Dividend, divisor, quotient, remainder and event: either sign, by 0, and the quotient that is no
/// signed octa.
static QUOTIENTS: [(u64, u64, u64, u64, Option<Event>); 10] = [
    (0xffff_ffff_ffff_fff9, 2, 0xffff_ffff_ffff_fffc, 1, None),
    (7, 0xffff_ffff_ffff_fffe, 0xffff_ffff_ffff_fffc, ONES, None),
    (0xffff_ffff_ffff_fff9, 0xffff_ffff_ffff_fffe, 3, ONES, None),
    (
        0xffff_ffff_ffff_fff9,
        0,
        0,
        0xffff_ffff_ffff_fff9,
        Some(Event::Divide),
    ),
    (MIN, ONES, MIN, 0, Some(Event::Overflow)),
    (MIN, 1, MIN, 0, None),
    (6, 0xffff_ffff_ffff_fffd, 0xffff_ffff_ffff_fffe, 0, None),
    (MIN, MIN, 1, 0, None),
    (0, 0xffff_ffff_ffff_fffb, 0, 0, None),
    (A, 0x8000_0000_000a_45f8, 0, A, None),
];

/// The high and the low half of the dividend, the divisor, and what x and rR are: the high half
/// below, at and above the divisor.
static LONG_QUOTIENTS: [(u64, u64, u64, u64, u64); 7] = [
    (1, 0, 2, MIN, 0),
    (2, 0, 2, 2, 0),
    (3, 5, 2, 3, 5),
    (0, 7, 0, 0, 7),
    (
        0xffff_ffff_ffff_fffe,
        ONES,
        ONES,
        ONES,
        0xffff_ffff_ffff_fffe,
    ),
    (0, 100, 7, 14, 2),
    (
        0x4f0c_26ef_4243_ed52,
        A,
        0xd66b_f9d7_c55a_45f8,
        0x5e60_1d7e_aed5_ac9a,
        0x16cf_893e_74f2_5bf5,
    ),
];

/// Two octas, the mask, and what it takes from them.
static MASKED: [(u64, u64, u64, u64); 4] = [
    (A, B, C, 0xd167_fd5e_871b_01a8),
    (A, B, 0, B),
    (A, B, ONES, A),
    (ONES, 0, 0x5555_5555_5555_5555, 0x5555_5555_5555_5555),
];

/// An octa, and which of the eight conditions hold of it, in the order of their codes; 1 for those that do.
static CONDITIONS: [(u64, [u8; 8]); 8] = [
    (0, [0, 1, 0, 0, 1, 0, 1, 1]),
    (1, [0, 0, 1, 1, 1, 1, 0, 0]),
    (2, [0, 0, 1, 0, 1, 1, 0, 1]),
    (MAX, [0, 0, 1, 1, 1, 1, 0, 0]),
    (MIN, [1, 0, 0, 0, 0, 1, 1, 1]),
    (0x8000_0000_0000_0001, [1, 0, 0, 1, 0, 1, 1, 0]),
    (ONES, [1, 0, 0, 1, 0, 1, 1, 0]),
    (0xffff_ffff_ffff_fffe, [1, 0, 0, 0, 0, 1, 1, 1]),
];

/// Compares what the instruction of a code gives.
fn gives(rt: &impl Abort, code: u8, y: u64, z: u64, extra: Extra, wanted: Answer) {
    assert!(rt; matches!(code, 0x18..=0x3f | 0xc0..=0xef));
    assert_eq!(rt;
        alu(code, y, z, extra),
        wanted,
        "code {code} of {y} and {z} with {extra:?}"
    );
}

/// An answer that is a result and an event.
fn only(x: u64, event: Option<Event>) -> Answer {
    Answer {
        x,
        h: None,
        r: None,
        event,
    }
}

/// The answer of a division: quotient, remainder and event.
fn divided(x: u64, r: u64, event: Option<Event>) -> Answer {
    Answer {
        r: Some(r),
        ..only(x, event)
    }
}

/// Compares the results of instructions that all raise this event or none. What rD and rM hold is
/// nothing to them.
fn give(rt: &impl Abort, rows: &[(u8, u64, u64, u64)], event: Option<Event>) {
    for (code, y, z, x) in rows {
        gives(rt, *code, *y, *z, Extra { d: 7, m: 9 }, only(*x, event));
    }
}

#[test]
fn results_alone(rt: HostRuntime) {
    give(&rt, &PLAIN, None);
    give(&rt, &OVERFLOWS, Some(Event::Overflow));
    for (y, z, m, x) in &MASKED {
        for code in 0xd8..0xda {
            gives(&rt, code, *y, *z, Extra { d: 7, m: *m }, only(*x, None));
        }
    }
}

#[test]
fn products_and_quotients(rt: HostRuntime) {
    for (y, z, x, high) in &PRODUCTS {
        for code in 0x1a..0x1c {
            let wanted = Answer {
                h: Some(*high),
                ..only(*x, None)
            };
            gives(&rt, code, *y, *z, Extra { d: 7, m: 9 }, wanted);
        }
    }
    for (y, z, x, r, event) in &QUOTIENTS {
        for code in 0x1c..0x1e {
            gives(
                &rt,
                code,
                *y,
                *z,
                Extra { d: 7, m: 9 },
                divided(*x, *r, *event),
            );
        }
    }
    for (d, y, z, x, r) in &LONG_QUOTIENTS {
        for code in 0x1e..0x20 {
            gives(
                &rt,
                code,
                *y,
                *z,
                Extra { d: *d, m: 9 },
                divided(*x, *r, None),
            );
        }
    }
}

/// What a row of `CONDITIONS` says of the condition of a code.
fn is_wanted(conditions: &[u8; 8], code: u8) -> bool {
    conditions[usize::from(code / 2 % 8)] == 1
}

#[test]
fn conditions(rt: HostRuntime) {
    for (x, wanted) in &CONDITIONS {
        for code in 0x40..0x80 {
            assert_eq!(rt;
                truth(code, *x),
                is_wanted(wanted, code),
                "code {code} of {x}"
            );
        }
    }
}
