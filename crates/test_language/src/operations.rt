//! The tables, row by row.

use mx_ops::{Op, Pseudo, Shape, find, name, predefined, shape_of};

/// The first code of a row, how many codes each of its names has, and the names.
type Row = (u8, u8, &'static str);

/// The 256 codes and their names.
static ROWS: [Row; 23] = [
    (0x00, 1, "TRAP FCMP FUN FEQL FADD FIX FSUB FIXU"),
    (0x08, 2, "FLOT FLOTU SFLOT SFLOTU"),
    (0x10, 1, "FMUL FCMPE FUNE FEQLE FDIV FSQRT FREM FINT"),
    (0x18, 2, "MUL MULU DIV DIVU"),
    (0x20, 2, "ADD ADDU SUB SUBU"),
    (0x28, 2, "2ADDU 4ADDU 8ADDU 16ADDU"),
    (0x30, 2, "CMP CMPU NEG NEGU"),
    (0x38, 2, "SL SLU SR SRU"),
    (0x40, 2, "BN BZ BP BOD BNN BNZ BNP BEV"),
    (0x50, 2, "PBN PBZ PBP PBOD PBNN PBNZ PBNP PBEV"),
    (0x60, 2, "CSN CSZ CSP CSOD CSNN CSNZ CSNP CSEV"),
    (0x70, 2, "ZSN ZSZ ZSP ZSOD ZSNN ZSNZ ZSNP ZSEV"),
    (0x80, 2, "LDB LDBU LDW LDWU LDT LDTU LDO LDOU"),
    (0x90, 2, "LDSF LDHT CSWAP LDUNC LDVTS PRELD PREGO GO"),
    (0xa0, 2, "STB STBU STW STWU STT STTU STO STOU"),
    (0xb0, 2, "STSF STHT STCO STUNC SYNCD PREST SYNCID PUSHGO"),
    (0xc0, 2, "OR ORN NOR XOR AND ANDN NAND NXOR"),
    (0xd0, 2, "BDIF WDIF TDIF ODIF MUX SADD MOR MXOR"),
    (0xe0, 1, "SETH SETMH SETML SETL INCH INCMH INCML INCL"),
    (0xe8, 1, "ORH ORMH ORML ORL ANDNH ANDNMH ANDNML ANDNL"),
    (0xf0, 2, "JMP PUSHJ GETA"),
    (0xf6, 2, "PUT"),
    (0xf8, 1, "POP RESUME SAVE UNSAVE SYNC SWYM GET TRIP"),
];

/// Names that are no instruction of their own, and what they mean.
static OTHERS: [(&str, Option<Op>); 16] = [
    ("IS", Some(Op::Pseudo(Pseudo::Is))),
    ("LOC", Some(Op::Pseudo(Pseudo::Loc))),
    ("PREFIX", Some(Op::Pseudo(Pseudo::Prefix))),
    ("GREG", Some(Op::Pseudo(Pseudo::Greg))),
    ("LOCAL", Some(Op::Pseudo(Pseudo::Local))),
    ("BYTE", Some(Op::Pseudo(Pseudo::Byte))),
    ("WYDE", Some(Op::Pseudo(Pseudo::Wyde))),
    ("TETRA", Some(Op::Pseudo(Pseudo::Tetra))),
    ("OCTA", Some(Op::Pseudo(Pseudo::Octa))),
    ("LDA", Some(Op::Lda)),
    ("SET", Some(Op::Set)),
    // no operation: a front of one, more than one, small letters, nothing
    ("ADDI", None),
    ("FLO", None),
    ("TRAPS", None),
    ("add", None),
    ("", None),
];

/// Whether this many codes from this one on have a name, and the name is found as this one.
fn are_named(code: u8, each: u8, text: &str) -> bool {
    for other in 0..each {
        if name(code.wrapping_add(other)) != text {
            return false;
        }
    }
    find(text.as_bytes()) == Some(Op::Code(code))
}

/// The code after those of a row, or its first name that is not that of its codes.
fn code_after(row: &Row) -> Result<u8, &'static str> {
    let (first, each, names) = row;
    let mut code = *first;
    for text in names.split(' ') {
        if !are_named(code, *each, text) {
            return Err(text);
        }
        code = code.wrapping_add(*each);
    }
    Ok(code)
}

/// The code after those of all rows, or the first name that is out of its place.
fn code_after_all() -> Result<u8, &'static str> {
    let mut code = 0;
    for row in &ROWS {
        if row.0 != code {
            return Err(row.2);
        }
        code = code_after(row)?;
    }
    Ok(code)
}

#[test]
fn names_and_codes(rt: HostRuntime) {
    // there are 256 codes
    assert_eq!(rt; code_after_all(), Ok(0));
}

#[test]
fn other_names(rt: HostRuntime) {
    for (text, want) in &OTHERS {
        assert_eq!(rt; find(text.as_bytes()), *want, "{text}");
    }
}

/// Codes, and the shape of their operands.
static SHAPES: [(u8, Shape); 47] = [
    (0x00, Shape::Free),
    (0x01, Shape::Regs),
    (0x05, Shape::Round),
    (0x06, Shape::Regs),
    (0x07, Shape::Round),
    (0x0f, Shape::Round),
    (0x10, Shape::Regs),
    (0x15, Shape::Round),
    (0x16, Shape::Regs),
    (0x17, Shape::Round),
    (0x18, Shape::Three),
    (0x33, Shape::Three),
    (0x34, Shape::Neg),
    (0x37, Shape::Neg),
    (0x38, Shape::Three),
    (0x40, Shape::Rel),
    (0x5f, Shape::Rel),
    (0x60, Shape::Three),
    (0x7f, Shape::Three),
    (0x80, Shape::Mem),
    (0x99, Shape::Mem),
    (0x9a, Shape::MemPure),
    (0x9d, Shape::MemPure),
    (0x9e, Shape::Mem),
    (0xb3, Shape::Mem),
    (0xb4, Shape::MemPure),
    (0xb6, Shape::Mem),
    (0xb8, Shape::MemPure),
    (0xbd, Shape::MemPure),
    (0xbe, Shape::Mem),
    (0xc0, Shape::Three),
    (0xdf, Shape::Three),
    (0xe0, Shape::Wyde),
    (0xef, Shape::Wyde),
    (0xf0, Shape::Jump),
    (0xf1, Shape::Jump),
    (0xf2, Shape::Rel),
    (0xf5, Shape::Rel),
    (0xf6, Shape::Put),
    (0xf8, Shape::Pop),
    (0xf9, Shape::One),
    (0xfa, Shape::Save),
    (0xfb, Shape::Unsave),
    (0xfc, Shape::One),
    (0xfd, Shape::Free),
    (0xfe, Shape::Get),
    (0xff, Shape::Free),
];

#[test]
fn shapes(rt: HostRuntime) {
    for (code, want) in &SHAPES {
        assert_eq!(rt; shape_of(*code), *want, "{code}");
    }
}

/// Names with the values from 0 upwards.
static NUMBERED: [&str; 5] = [
    ":rB :rD :rE :rH :rJ :rM :rR :rBB :rC :rN :rO :rS :rI :rT :rTT :rK :rQ :rU :rV :rG :rL :rA :rF :rP :rW :rX :rY :rZ :rWW :rXX :rYY :rZZ",
    ":StdIn :StdOut :StdErr",
    ":TextRead :TextWrite :BinaryRead :BinaryWrite :BinaryReadWrite",
    ":Halt :Fopen :Fclose :Fread :Fgets :Fgetws :Fwrite :Fputs :Fputws :Fseek :Ftell",
    ":ROUND_CURRENT :ROUND_OFF :ROUND_UP :ROUND_DOWN :ROUND_NEAR",
];

/// Other predefined symbols, and their values.
static VALUES: [(&str, Option<u64>); 25] = [
    (":D_BIT", Some(0x80)),
    (":V_BIT", Some(0x40)),
    (":W_BIT", Some(0x20)),
    (":I_BIT", Some(0x10)),
    (":O_BIT", Some(8)),
    (":U_BIT", Some(4)),
    (":Z_BIT", Some(2)),
    (":X_BIT", Some(1)),
    (":D_Handler", Some(0x10)),
    (":V_Handler", Some(0x20)),
    (":W_Handler", Some(0x30)),
    (":I_Handler", Some(0x40)),
    (":O_Handler", Some(0x50)),
    (":U_Handler", Some(0x60)),
    (":Z_Handler", Some(0x70)),
    (":X_Handler", Some(0x80)),
    (":Data_Segment", Some(0x2000_0000_0000_0000)),
    (":Pool_Segment", Some(0x4000_0000_0000_0000)),
    (":Stack_Segment", Some(0x6000_0000_0000_0000)),
    (":Inf", Some(0x7ff0_0000_0000_0000)),
    // no predefined symbol: without the colon, with two, a front of one, nothing
    ("rB", None),
    ("::rB", None),
    (":Text", None),
    (":", None),
    ("", None),
];

/// The first of these names whose value is not its place among them.
fn misnumbered(names: &'static str) -> Option<&'static str> {
    let mut value = 0_u64;
    for text in names.split(' ') {
        if predefined(text.as_bytes()) != Some(value) {
            return Some(text);
        }
        value = value.wrapping_add(1);
    }
    None
}

#[test]
fn numbered_symbols(rt: HostRuntime) {
    for names in &NUMBERED {
        assert_eq!(rt; misnumbered(names), None);
    }
}

#[test]
fn predefined_symbols(rt: HostRuntime) {
    for (text, want) in &VALUES {
        assert_eq!(rt; predefined(text.as_bytes()), *want, "{text}");
    }
}
