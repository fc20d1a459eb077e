//! RESUME that inserts an instruction.

use std::test::Fail;
use test_rows::End::{Done, Stop};
use test_rows::{Row, find_mismatch, shows};

/// The first and the last codes for which RESUME takes no operands from rY and rZ.
static CODES: [&str; 8] = ["40", "5f", "80", "9f", "a0", "bf", "f0", "ff"];

static TRIPS_WITHIN_RESUME: [Row; 3] = [
    // kind 0: rX is the inserted tetra, rW the place after it
    (
        " LOC #20\n SWYM\n TRAP 0,Halt,0\n LOC #100\nMain SETL $1,#4000\n PUT rA,$1\n NEG $0,0,1\n \
         SRU $0,$0,1\n SETML $2,#2100\n INCL $2,1\n PUT rX,$2\n SETL $3,#502\n PUT rW,$3\n RESUME 0",
        Done(0),
        &[
            "rX=#8000000021000001",
            "rW=#0000000000000500",
            "rY=#7fffffffffffffff",
            "rZ=#0000000000000001",
            "rB=#0000000000000100",
            "$0=#8000000000000000",
            "rA=#0000000000004000",
            "rC=#000000000000000c",
        ],
    ),
    // kind 1: rY and rZ are as they were
    (
        " LOC #20\n SWYM\n TRAP 0,Halt,0\n LOC #100\nMain SETL $1,#4000\n PUT rA,$1\n SETH $2,#0100\n \
         INCML $2,#2100\n INCL $2,1\n PUT rX,$2\n NEG $3,0,1\n SRU $3,$3,1\n PUT rY,$3\n PUT rZ,2\n \
         SETL $3,#500\n PUT rW,$3\n RESUME 0",
        Done(0),
        &[
            "rX=#8000000021000001",
            "rW=#0000000000000500",
            "rY=#7fffffffffffffff",
            "rZ=#0000000000000002",
            "$0=#8000000000000001",
        ],
    ),
    // without a handler the stop names RESUME, and all is as before
    (
        " LOC #100\nMain SETL $1,#4000\n PUT rA,$1\n NEG $0,0,1\n SRU $0,$0,1\n SETML $2,#2100\n \
         INCL $2,1\n PUT rX,$2\n SETL $3,#502\n PUT rW,$3\n RESUME 0",
        Stop(0x124, 117),
        &[
            "rX=#0000000021000001",
            "rW=#0000000000000502",
            "$0=#7fffffffffffffff",
        ],
    ),
];

#[test]
fn trips_within_resume(rt: HostRuntime) -> Result<(), Fail> {
    assert_eq!(rt; find_mismatch(rt.alloc(), "", &TRIPS_WITHIN_RESUME)?, None);
    Ok(())
}

static PLACES_OF_INSERTED_INSTRUCTIONS: [Row; 4] = [
    // JMP goes from the place before rW
    (
        "Main SETML $2,#f000\n INCL $2,2\n PUT rX,$2\n SETL $3,#104\n PUT rW,$3\n RESUME 0\n \
         LOC #108\n SETL $255,7\n TRAP 0,Halt,0",
        Done(7),
        &["rC=#0000000000000008"],
    ),
    // PUSHJ tells the place of rW
    (
        "Main SETML $2,#f201\n INCL $2,2\n PUT rX,$2\n SETL $3,#104\n PUT rW,$3\n RESUME 0\n \
         LOC #108\n GET $255,rJ\n TRAP 0,Halt,0",
        Done(4),
        &["rJ=#0000000000000104"],
    ),
    // a branch in place of a register's value: kind 2 looks at no code
    (
        "Main SETH $2,#0200\n INCML $2,#4200\n PUT rX,$2\n PUT rZ,9\n SETL $3,#20\n PUT rW,$3\n \
         RESUME 0\n TRAP 0,Halt,0\n SET $255,$0\n TRAP 0,Halt,0",
        Done(9),
        &["$0=#0000000000000009"],
    ),
    // nor at the byte beside the kind
    (
        "Main SETH $2,#02ff\n PUT rX,$2\n PUT rZ,9\n SETL $3,#1c\n PUT rW,$3\n RESUME 0\n \
         TRAP 0,Halt,0\n SET $255,$0\n TRAP 0,Halt,0",
        Done(9),
        &["$0=#0000000000000009"],
    ),
];

#[test]
fn places_of_inserted_instructions(rt: HostRuntime) -> Result<(), Fail> {
    assert_eq!(rt;
        find_mismatch(rt.alloc(), "", &PLACES_OF_INSERTED_INSTRUCTIONS)?,
        None
    );
    Ok(())
}

static WHAT_RESUME_REFUSES: [Row; 9] = [
    // a number
    ("Main RESUME 1", Stop(0, 111), &[]),
    // kind 1: Float with a destination that is not local is illegal
    (
        "Main SETH $2,#0100\n INCML $2,#0409\n PUT rX,$2\n RESUME 0",
        Stop(0xc, 111),
        &[],
    ),
    // and Float where it is local
    (
        "Main SETH $2,#0100\n INCML $2,#0400\n PUT rX,$2\n RESUME 0",
        Stop(0xc, 110),
        &[],
    ),
    // kind 2: a register that is not local; one that is global
    (
        "Main SETH $2,#0200\n INCML $2,#0009\n PUT rX,$2\n RESUME 0",
        Stop(0xc, 111),
        &[],
    ),
    (
        "Main SETH $2,#0200\n INCML $2,#00ff\n PUT rX,$2\n PUT rZ,9\n SETL $3,#1c\n PUT rW,$3\n \
         RESUME 0\n TRAP 0,Halt,0",
        Done(9),
        &["$255=#0000000000000009"],
    ),
    // kind 2 with other bits
    (
        "Main SETH $2,#0200\n INCMH $2,#0100\n PUT rX,$2\n RESUME 0",
        Stop(0xc, 120),
        &[],
    ),
    // RESUME in place of a register's value
    (
        "Main SETH $2,#0200\n INCML $2,#f900\n PUT rX,$2\n RESUME 0",
        Stop(0xc, 111),
        &[],
    ),
    // RESUME itself
    (
        "Main SETML $2,#f900\n PUT rX,$2\n RESUME 0",
        Stop(8, 111),
        &[],
    ),
    // TRAP with operands
    (
        "Main SETH $2,#0100\n PUT rX,$2\n RESUME 0",
        Stop(8, 120),
        &[],
    ),
];

#[test]
fn what_resume_refuses(rt: HostRuntime) -> Result<(), Fail> {
    assert_eq!(rt; find_mismatch(rt.alloc(), "", &WHAT_RESUME_REFUSES)?, None);
    Ok(())
}

#[test]
fn codes_that_take_no_operands(rt: HostRuntime) -> Result<(), Fail> {
    let alloc = rt.alloc();
    for code in CODES {
        let mut source = String::from_str(alloc, "Main SETH $2,#0100\n INCML $2,#")?;
        source.push_str(code)?;
        source.push_str("00\n PUT rX,$2\n RESUME 0\n")?;
        assert!(rt;
            shows(
                alloc,
                source.as_str(),
                Stop(12, 111),
                &["rL=#0000000000000003"]
            )?,
            "{code}"
        );
    }
    Ok(())
}
