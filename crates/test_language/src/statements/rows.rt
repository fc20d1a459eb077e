//! Statements, and what they come to.

use mx_word::{Value, WaitKind};

/// Each shape with each of its forms, and with a fault of each kind that it can have: the tetra at #ff.
pub(crate) static FORMS: [(&str, Result<u32, u16>); 63] = [
    (" ADD $1,$2,$3", Ok(0x2001_0203)),
    (" ADD $1,$2,255", Ok(0x2101_02ff)),
    (" ADD $1,$2,256", Err(43)),
    (" ADD 1,$2,3", Err(41)),
    (" ADD $1,2,3", Err(41)),
    (" ADD $1,$2", Err(40)),
    (" ADD", Err(40)),
    (" FADD $1,$2,$3", Ok(0x0401_0203)),
    (" FADD $1,$2,3", Err(41)),
    (" FIX $1,$2", Ok(0x0501_0002)),
    (" FIX $1,ROUND_UP,$2", Ok(0x0501_0202)),
    (" FIX $1,2", Err(41)),
    (" FLOT $1,2", Ok(0x0901_0002)),
    (" FLOT $1,ROUND_OFF,$2", Ok(0x0801_0102)),
    (" FLOT $1,$2,$3", Err(42)),
    (" NEG $1,$2", Ok(0x3401_0002)),
    (" NEG $1,5,6", Ok(0x3501_0506)),
    (" NEG $1,256,6", Err(43)),
    (" BZ $1,#104", Ok(0x4201_0001)),
    (" GETA $1,#fc", Ok(0xf501_ffff)),
    (" PUSHJ 1,#104", Err(41)),
    (" BZ $1,$2", Err(42)),
    (" BZ $1,#102", Err(46)),
    (" BZ $1,#100+4*65535", Ok(0x4201_ffff)),
    (" BZ $1,#100+4*65536", Err(45)),
    (" LDB $1,$2,$3", Ok(0x8001_0203)),
    (" LDB $1,$2,3", Ok(0x8101_0203)),
    (" LDB $1,$2", Ok(0x8101_0200)),
    (" LDB $1,Data_Segment+1", Ok(0x8101_fe01)),
    (" LDB $1,Data_Segment-1", Err(44)),
    (" STCO 1,$2,$3", Ok(0xb401_0203)),
    (" PRELD 1,Data_Segment", Ok(0x9b01_fe00)),
    (" STCO $1,$2,$3", Err(42)),
    (" LDA $1,$2,$3", Ok(0x2201_0203)),
    (" LDA $1,Data_Segment+8", Ok(0x2301_fe08)),
    (" SETL $1,65535", Ok(0xe301_ffff)),
    (" SETL $1,65536", Err(43)),
    (" SETL $1,-1", Err(43)),
    (" SET $1,$2", Ok(0xc101_0200)),
    (" SET $1,65535", Ok(0xe301_ffff)),
    (" SET $1,65536", Err(43)),
    (" JMP", Ok(0xf1ff_ffc0)),
    (" JMP @+4*16777215", Ok(0xf0ff_ffff)),
    (" JMP @+4*16777216", Err(45)),
    (" PUT rA,$1", Ok(0xf615_0001)),
    (" PUT rA,1", Ok(0xf715_0001)),
    (" GET $1,rA", Ok(0xfe01_0015)),
    (" GET $1,256", Err(43)),
    (" POP 1,65535", Ok(0xf801_ffff)),
    (" POP 65536", Ok(0xf801_0000)),
    (" POP", Ok(0xf800_0000)),
    (" RESUME 1", Ok(0xf900_0001)),
    (" SYNC #1000000", Err(43)),
    (" SAVE $255,0", Ok(0xfaff_0000)),
    (" UNSAVE 0,$255", Ok(0xfb00_00ff)),
    (" UNSAVE $255", Ok(0xfb00_00ff)),
    (" UNSAVE", Err(41)),
    (" TRAP 0,Fputs,StdOut", Ok(0x0000_0701)),
    (" TRAP $1,2", Ok(0x0001_0002)),
    (" TRAP $1,2,$3", Ok(0x0001_0203)),
    (" TRAP 1,$2", Err(42)),
    (" SWYM $1", Err(42)),
    (" SWYM 1,2,3,4", Err(40)),
];

/// Statements with two faults or more, and the one that counts.
pub(crate) static FAULTY: [(&str, Result<u32, u16>); 20] = [
    // the opcode, the label, the operand list, the number of operands, then the operands
    ("x FROB 1,,2", Err(39)),
    ("x PREFIX 1,,2", Err(48)),
    (" ADD 1,,2", Err(10)),
    (" ADD 1/0", Err(40)),
    (" PREFIX 1/0", Err(40)),
    // operand by operand: its value, then its kind, then its size
    (" ADD 1,1/0,3", Err(41)),
    (" ADD $1/0,2,3", Err(14)),
    (" FIX $1,256,5", Err(43)),
    (" POP 256,$1", Err(43)),
    (" BYTE 256,1/0", Err(43)),
    (" BYTE 1/0,256", Err(12)),
    (" TRAP 256,$1", Err(43)),
    // what an address needs comes after the operands, a multiple before the reach
    (" BZ 5,#602", Err(41)),
    (" BZ $1,#6000000000000002", Err(46)),
    (" GETA $1,3", Err(46)),
    // the place comes last
    (" LDO $1,1", Err(44)),
    (" JMP 4", Err(45)),
    (" JMP @", Err(49)),
    (" OCTA x", Err(49)),
    (" BYTE 256", Err(43)),
];

/// Statements after the prefix `:p:`, where a predefined symbol is written with its colon.
pub(crate) static PREFIXED: [(&str, Result<u32, u16>); 2] = [
    ("x TRAP 0,Halt,0", Err(17)),
    (":Main TRAP 0,:Halt,0", Ok(0)),
];

/// Statements where $254 is 8 and $253 is -4.
pub(crate) static NEAREST: [(&str, Result<u32, u16>); 2] = [
    // 5 lies 9 above -4 and below 8; 9 lies 1 above 8 and 13 above -4
    (" LDO $1,5", Ok(0x8d01_fd09)),
    (" LDO $1,9", Ok(0x8d01_fe01)),
];

/// What a statement comes to: its start, its number of bytes, its label's value and the next place.
pub(crate) type Outline = (u64, usize, Option<Value>, u64);

/// Statements at #101.
pub(crate) static PSEUDO_OPERATIONS: [(&str, Result<Outline, u16>); 34] = [
    ("x IS 1+2*3", Ok((0x101, 0, Some(Value::Pure(7)), 0x101))),
    ("x IS $5", Ok((0x101, 0, Some(Value::Reg(5)), 0x101))),
    ("x IS $5-$2", Ok((0x101, 0, Some(Value::Pure(3)), 0x101))),
    (" IS", Ok((0x101, 0, None, 0x101))),
    ("x IS x", Err(17)),
    (" IS 7-$2", Err(16)),
    (" IS 1,2", Err(40)),
    (
        "x LOC Data_Segment",
        Ok((0x101, 0, Some(Value::Pure(0x101)), 0x2000_0000_0000_0000)),
    ),
    (" LOC -8", Ok((0x101, 0, None, 0xffff_ffff_ffff_fff8))),
    (" LOC $1", Err(42)),
    ("x LOC x", Err(17)),
    ("x GREG 0", Ok((0x101, 0, Some(Value::Reg(252)), 0x101))),
    ("x GREG @", Ok((0x101, 0, Some(Value::Reg(252)), 0x101))),
    (
        "x GREG Data_Segment",
        Ok((0x101, 0, Some(Value::Reg(254)), 0x101)),
    ),
    (" GREG $1", Err(42)),
    (" PREFIX (a)", Ok((0x101, 0, None, 0x101))),
    (" PREFIX +a", Err(40)),
    (" PREFIX \"a\"", Err(40)),
    ("x PREFIX a", Err(48)),
    (" LOCAL $5", Ok((0x101, 0, None, 0x101))),
    (" LOCAL 5", Err(41)),
    ("x LOCAL $5", Err(48)),
    (
        "x BYTE \"ab\",255,-128",
        Ok((0x101, 4, Some(Value::Pure(0x101)), 0x105)),
    ),
    (" BYTE -129", Err(43)),
    (
        "x WYDE 65535,-32768",
        Ok((0x102, 4, Some(Value::Pure(0x102)), 0x106)),
    ),
    (" WYDE 65536", Err(43)),
    (" TETRA \"ab\"", Ok((0x104, 8, None, 0x10c))),
    (" TETRA #100000000", Err(43)),
    (" TETRA x", Err(17)),
    (
        "x OCTA @,-1",
        Ok((0x108, 16, Some(Value::Pure(0x108)), 0x118)),
    ),
    (" OCTA $1", Err(42)),
    (" OCTA x+0", Err(17)),
    (" JMP +x", Err(17)),
    ("x SWYM", Ok((0x104, 4, Some(Value::Pure(0x104)), 0x108))),
];

/// Statements after the prefix `:p:`, and their effects: of a prefix its length, of a register its number.
pub(crate) static EFFECTS: [(&str, &str, usize); 4] = [
    (" BYTE 1", "plain", 0),
    (" PREFIX q", "prefix", 4),
    (" GREG 8", "greg", 254),
    (" LOCAL $99", "local", 99),
];

/// What a reference waits for: a complete name, or a local label.
pub(crate) enum Target {
    Name(&'static str),
    Local(u8),
}

/// A place, a statement there, its bytes, and what it waits for: for what, where and how.
pub(crate) type Referring = (
    u64,
    &'static str,
    &'static [u8],
    &'static [(Target, u64, WaitKind)],
);

/// Statements with references, where the last 2H was at 4.
pub(crate) static REFERENCES: [Referring; 4] = [
    // a branch to a name that is not known, with zero for it
    (
        0,
        "Main BZ $0,x",
        &[0x42, 0, 0, 0],
        &[(Target::Name(":x"), 0, WaitKind::Near)],
    ),
    // references in OCTA, in their order
    (
        0x100,
        "1H OCTA (Buf),8,1F",
        &[
            0, 0, 0, 0, 0, 0, 0, 0, 0, 0, 0, 0, 0, 0, 0, 8, 0, 0, 0, 0, 0, 0, 0, 0,
        ],
        &[
            (Target::Name(":Buf"), 0x100, WaitKind::Octa),
            (Target::Local(1), 0x110, WaitKind::Octa),
        ],
    ),
    // a jump on a line labelled 2H waits for the next 2H, and one to 2B is backward
    (
        4,
        "2H JMP ((2F))",
        &[0xf0, 0, 0, 0],
        &[(Target::Local(2), 4, WaitKind::Far)],
    ),
    (8, "2H JMP 2B", &[0xf1, 0xff, 0xff, 0xff], &[]),
];

/// The last address before #6000000000000000.
const LAST: u64 = 0x5fff_ffff_ffff_ffff;

/// A place, a statement there, and its start and the place after it, or the number of its fault.
type Ended = (u64, &'static str, Result<(u64, u64), u16>);

/// Statements at the ends of the addresses.
pub(crate) static ENDS: [Ended; 4] = [
    (LAST, " BYTE 1", Ok((LAST, LAST + 1))),
    (LAST, " BYTE 1,2", Err(49)),
    (u64::MAX, " TETRA 1", Ok((0, 4))),
    (u64::MAX - 7, " BYTE 1", Err(49)),
];
