//! The texts, row by row.

use mx_text::{Form, instruction, octa_hex, shown};
use std::alloc::Global;
use std::process::Abort;

/// A tetra, its address, and its text.
type Row = (u32, u64, &'static str);

/// Rows with no address among the operands.
static PLAIN: [Row; 38] = [
    // the tetras of two worked programs
    (0x8fff_0100, 0x100, "LDOU $255,$1,0"),
    (0x0000_0701, 0x104, "TRAP 0,7,1"),
    (0x0000_0000, 0x110, "TRAP 0,0,0"),
    // three operands, with $Z and with the byte Z
    (0x2001_0203, 0, "ADD $1,$2,$3"),
    (0x2101_0203, 0, "ADD $1,$2,3"),
    (0x2fff_feff, 0, "16ADDU $255,$254,255"),
    (0x7f00_0000, 0, "ZSEV $0,$0,0"),
    (0xc001_0203, 0, "OR $1,$2,$3"),
    (0xdf0a_6409, 0, "MXOR $10,$100,9"),
    // registers alone, also at odd codes
    (0x01ff_0a14, 0, "FCMP $255,$10,$20"),
    (0x1301_0203, 0, "FEQLE $1,$2,$3"),
    // a rounding mode: it is shown where it is 0; the odd codes of the first four have no byte Z
    (0x0501_0003, 0, "FIX $1,0,$3"),
    (0x0701_0203, 0, "FIXU $1,2,$3"),
    (0x1501_0403, 0, "FSQRT $1,4,$3"),
    (0x1701_0103, 0, "FINT $1,1,$3"),
    (0x0801_0203, 0, "FLOT $1,2,$3"),
    (0x0f01_00ff, 0, "SFLOTU $1,0,255"),
    // the byte Y of a negation
    (0x3401_0203, 0, "NEG $1,2,$3"),
    (0x3701_0203, 0, "NEGU $1,2,3"),
    // memory, with a register or a number X
    (0x8001_0203, 0, "LDB $1,$2,$3"),
    (0x9f01_0203, 0, "GO $1,$2,3"),
    (0x9a01_0203, 0, "PRELD 1,$2,$3"),
    (0xb5ff_0000, 0, "STCO 255,$0,0"),
    (0xbd10_0203, 0, "SYNCID 16,$2,3"),
    // wydes
    (0xe3ff_ffff, 0, "SETL $255,65535"),
    (0xe000_0100, 0, "SETH $0,256"),
    // special registers; Y is not shown
    (0xf615_0002, 0, "PUT 21,$2"),
    (0xf715_ff02, 0, "PUT 21,2"),
    (0xfe01_0004, 0, "GET $1,4"),
    (0xfe01_0504, 0, "GET $1,4"),
    // the others
    (0xf802_0100, 0, "POP 2,256"),
    (0xf900_0000, 0, "RESUME 0"),
    (0xfcff_ffff, 0, "SYNC 16777215"),
    (0xfafe_0000, 0, "SAVE $254,0"),
    (0xfa20_0103, 0, "SAVE $32,3"),
    (0xfb01_02fe, 0, "UNSAVE 1,$254"),
    (0xfd00_0000, 0, "SWYM 0,0,0"),
    (0xff01_02ff, 0, "TRIP 1,2,255"),
];

/// Rows with a relative address.
static RELATIVE: [Row; 12] = [
    // of worked programs
    (0xf4ff_0003, 0x108, "GETA $255,#0000000000000114"),
    (0xf5ff_ffff, 0x104, "GETA $255,#0000000000000100"),
    (0x4300_ffc0, 0x200, "BZ $0,#0000000000000100"),
    (0x4200_ffff, 0, "BZ $0,#000000000003fffc"),
    (0xf000_0001, 4, "JMP #0000000000000008"),
    (0xf1ff_ffff, 8, "JMP #0000000000000004"),
    // its own address, and the farthest ones
    (0xf201_0000, 0x1000, "PUSHJ $1,#0000000000001000"),
    (0x5f02_0000, 0x4_0000, "PBEV $2,#0000000000000000"),
    (0xf0ff_ffff, 0, "JMP #0000000003fffffc"),
    // past the last address, and before the first
    (
        0x4003_0002,
        0xffff_ffff_ffff_fffc,
        "BN $3,#0000000000000004",
    ),
    (0x4103_ffff, 0, "BN $3,#fffffffffffffffc"),
    (0xf100_0000, 0, "JMP #fffffffffc000000"),
];

/// An octa as a signed number, in hexadecimal digits, and as bytes.
static OCTAS: [(u64, &str, &str, &str); 8] = [
    (0, "0", "#0000000000000000", "\"........\""),
    (1, "1", "#0000000000000001", "\"........\""),
    (
        0x7fff_ffff_ffff_ffff,
        "9223372036854775807",
        "#7fffffffffffffff",
        "\"........\"",
    ),
    (
        0x8000_0000_0000_0000,
        "-9223372036854775808",
        "#8000000000000000",
        "\"........\"",
    ),
    (
        0xffff_ffff_ffff_ffff,
        "-1",
        "#ffffffffffffffff",
        "\"........\"",
    ),
    (
        0x4000_0000_0000_0008,
        "4611686018427387912",
        "#4000000000000008",
        "\"@.......\"",
    ),
    // each digit; the first and the last bytes that are shown, and those beside them
    (
        0x0123_4567_89ab_cdef,
        "81985529216486895",
        "#0123456789abcdef",
        "\".#Eg....\"",
    ),
    (
        0x1f20_7e7f_80ff_2241,
        "2242931700520657473",
        "#1f207e7f80ff2241",
        "\". ~...\"A\"",
    ),
];

/// Whether the instruction of a row has its text.
fn has_its_text(alloc: Global, row: &Row) -> bool {
    let (word, pc, want) = row;
    match instruction(alloc, *word, *pc) {
        Ok(text) => text.as_slice() == want.as_bytes(),
        Err(_) => false,
    }
}

/// Checks that the instructions of rows have their texts.
fn have_their_texts(rt: &impl Abort, alloc: Global, rows: &[Row]) {
    for row in rows {
        assert!(rt;
            has_its_text(alloc, row),
            "{} at {}: {}",
            row.0,
            row.1,
            row.2
        );
    }
}

#[test]
fn instructions(rt: HostRuntime) {
    have_their_texts(&rt, rt.alloc(), &PLAIN);
    have_their_texts(&rt, rt.alloc(), &RELATIVE);
}

/// Whether an octa has this text in a form.
fn is_shown(alloc: Global, x: u64, form: Form, want: &str) -> bool {
    match shown(alloc, x, form) {
        Ok(text) => text.as_slice() == want.as_bytes(),
        Err(_) => false,
    }
}

#[test]
fn octas(rt: HostRuntime) {
    for (x, decimal, hex, chars) in &OCTAS {
        let alloc = rt.alloc();
        let are_shown = (
            octa_hex(*x).as_slice() == hex.as_bytes(),
            is_shown(alloc, *x, Form::Decimal, decimal),
            is_shown(alloc, *x, Form::Hex, hex),
            is_shown(alloc, *x, Form::Chars, chars),
        );
        assert_eq!(rt; are_shown, (true, true, true, true), "{x}");
    }
}
