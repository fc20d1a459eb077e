//! Negative addresses.

use std::test::Fail;
use test_rows::End::{Done, Stop};
use test_rows::{Row, find_mismatch, shows};

/// What loads and stores, with its first operand.
static ACCESSES: [&str; 22] = [
    "LDB $1", "LDBU $1", "LDW $1", "LDWU $1", "LDT $1", "LDTU $1", "LDO $1", "LDOU $1", "LDHT $1",
    "CSWAP $1", "LDUNC $1", "STB $1", "STBU $1", "STW $1", "STWU $1", "STT $1", "STTU $1",
    "STO $1", "STOU $1", "STHT $1", "STCO 1", "STUNC $1",
];

static HINTS_DO_NOTHING_AT_NEGATIVE_ADDRESSES: [Row; 2] = [
    // seven steps are made
    (
        "Main SETH $0,#8000\n PRELD 5,$0,0\n PREGO 5,$0,8\n PREST 5,$0,0\n SYNCD 5,$0,8\n \
         SYNCID 5,$0,0\n TRAP 0,Halt,0",
        Done(0),
        &["rC=#0000000000000007", "rL=#0000000000000002"],
    ),
    // and in their other form
    (
        "Main SETH $0,#8000\n PRELD 5,$0,$0\n SETL $1,8\n PREGO 5,$0,$1\n PREST 5,$0,$1\n \
         SYNCD 5,$0,$1\n SYNCID 5,$0,$1\n TRAP 0,Halt,0",
        Done(0),
        &["rC=#0000000000000008", "rL=#0000000000000002"],
    ),
];

#[test]
fn hints_do_nothing_at_negative_addresses(rt: HostRuntime) -> Result<(), Fail> {
    assert_eq!(rt;
        find_mismatch(rt.alloc(), "", &HINTS_DO_NOTHING_AT_NEGATIVE_ADDRESSES)?,
        None
    );
    Ok(())
}

static FILE_TRAPS_AT_NEGATIVE_ADDRESSES: [Row; 8] = [
    // a text
    (
        "Main SETH $255,#8000\n TRAP 0,Fputs,StdOut",
        Stop(4, 113),
        &[],
    ),
    // the first of two arguments
    (
        "Main SETH $255,#8000\n TRAP 0,Fwrite,StdOut",
        Stop(4, 113),
        &[],
    ),
    // the second
    (
        "Main NEG $255,0,1\n SRU $255,$255,1\n TRAP 0,Fgets,StdIn",
        Stop(8, 113),
        &[],
    ),
    // a byte after the last that is not negative
    (
        "Main NEG $0,0,1\n SRU $0,$0,1\n SETL $2,65\n STB $2,$0,0\n SET $255,$0\n TRAP 0,Fputs,StdOut",
        Stop(0x14, 113),
        &[],
    ),
    // a text that ends there
    (
        "Main NEG $255,0,1\n SRU $255,$255,1\n TRAP 0,Fputs,StdOut\n TRAP 0,Halt,0",
        Done(0),
        &[],
    ),
    // a buffer of one byte
    (
        "Main SETH $255,#2000\n SETH $0,#8000\n STO $0,$255,0\n STCO 1,$255,8\n TRAP 0,Fwrite,StdOut",
        Stop(0x10, 113),
        &[],
    ),
    (
        "Main SETH $255,#2000\n SETH $0,#8000\n STO $0,$255,0\n STCO 1,$255,8\n TRAP 0,Fread,StdIn",
        Stop(0x10, 113),
        &[],
    ),
    // a buffer of none
    (
        "Main SETH $255,#2000\n SETH $0,#8000\n STO $0,$255,0\n TRAP 0,Fwrite,StdOut\n TRAP 0,Halt,0",
        Done(0),
        &[],
    ),
];

#[test]
fn file_traps_at_negative_addresses(rt: HostRuntime) -> Result<(), Fail> {
    assert_eq!(rt;
        find_mismatch(rt.alloc(), "", &FILE_TRAPS_AT_NEGATIVE_ADDRESSES)?,
        None
    );
    Ok(())
}

#[test]
fn loads_and_stores_at_negative_addresses(rt: HostRuntime) -> Result<(), Fail> {
    let alloc = rt.alloc();
    for name in ACCESSES {
        let mut source = String::from_str(alloc, "Main SETH $0,#8000\n ")?;
        source.push_str(name)?;
        source.push_str(",$0,0\n")?;
        assert!(rt;
            shows(
                alloc,
                source.as_str(),
                Stop(4, 113),
                &["rL=#0000000000000002"]
            )?,
            "{name}"
        );
    }
    Ok(())
}
