//! Calls, results, and frames that a program forged.

use std::test::Fail;
use test_rows::End::{Done, Stop};
use test_rows::{Row, find_mismatch};

static CALLS_AND_RESULTS: [Row; 7] = [
    // the last of two results is in the hole, and the first after it
    (
        "Main PUSHJ $3,x\n TRAP 0,Halt,0\nx SETL $0,8\n SETL $1,9\n POP 2,0",
        Done(0),
        &[
            "rL=#0000000000000005",
            "$3=#0000000000000009",
            "$4=#0000000000000008",
            "$0=#0000000000000001",
        ],
    ),
    // no result: the hole is dropped
    (
        "Main PUSHJ $3,x\n TRAP 0,Halt,0\nx SETL $0,8\n POP 0,0",
        Done(0),
        &["rL=#0000000000000003", "$0=#0000000000000001"],
    ),
    // more results than registers: the hole is 0
    (
        "Main PUSHJ $3,x\n TRAP 0,Halt,0\nx SETL $0,9\n POP 3,0",
        Done(0),
        &[
            "rL=#0000000000000005",
            "$3=#0000000000000000",
            "$4=#0000000000000009",
        ],
    ),
    // a global register is called with L = G = 255: 256 octas are hidden
    (
        "Main SETL $254,3\n PUSHJ $255,x\nx TRAP 0,Halt,0",
        Done(0),
        &["rO=#6000000000000800", "rL=#0000000000000000"],
    ),
    // the last of them is the number 255
    (
        "Main SETL $254,3\n PUSHJ $255,x\nx SAVE $255,0\n SETH $0,#6000\n SETL $1,2040\n \
         LDO $255,$0,$1\n TRAP 0,Halt,0",
        Done(255),
        &["$255=#00000000000000ff"],
    ),
    // all come back but the hole
    (
        "Main SETL $254,3\n PUSHJ $255,x\n SET $255,$254\n TRAP 0,Halt,0\nx POP 0,0",
        Done(3),
        &["rL=#00000000000000ff", "rO=#6000000000000000"],
    ),
    // which is lost, with a result or without
    (
        "Main SETL $254,3\n PUSHJ $255,x\n TRAP 0,Halt,0\nx SETL $0,9\n POP 1,0",
        Done(0),
        &[
            "rL=#00000000000000ff",
            "$254=#0000000000000003",
            "$255=#0000000000000000",
        ],
    ),
];

#[test]
fn calls_and_results(rt: HostRuntime) -> Result<(), Fail> {
    assert_eq!(rt; find_mismatch(rt.alloc(), "", &CALLS_AND_RESULTS)?, None);
    Ok(())
}

static RESULTS_WHERE_G_IS_LOWER: [Row; 4] = [
    // the hole is the last register that may be local
    (
        "Main PUSHJ $49,x\n SET $255,$49\n TRAP 0,Halt,0\nx PUT rG,50\n SETL $0,9\n POP 1,0",
        Done(9),
        &["rL=#0000000000000032", "rG=#0000000000000032"],
    ),
    // the hole is global now, and the result lost
    (
        "Main PUSHJ $50,x\n SET $255,$50\n TRAP 0,Halt,0\nx PUT rG,50\n SETL $0,9\n POP 1,0",
        Done(0),
        &["rL=#0000000000000032", "rG=#0000000000000032"],
    ),
    // the hole is above: 50 of 100 registers come back
    (
        "Main SETL $49,4\n SETL $60,5\n PUSHJ $100,x\n ADDU $255,$49,$60\n TRAP 0,Halt,0\n\
         x PUT rG,50\n POP 0,0",
        Done(4),
        &["rL=#0000000000000032", "rO=#6000000000000000"],
    ),
    // and with a result
    (
        "Main SETL $49,4\n SETL $60,5\n PUSHJ $100,x\n ADDU $255,$49,$60\n TRAP 0,Halt,0\n\
         x PUT rG,50\n SETL $0,9\n POP 1,0",
        Done(4),
        &["rL=#0000000000000032", "rO=#6000000000000000"],
    ),
];

#[test]
fn results_where_g_is_lower(rt: HostRuntime) -> Result<(), Fail> {
    assert_eq!(rt;
        find_mismatch(rt.alloc(), "", &RESULTS_WHERE_G_IS_LOWER)?,
        None
    );
    Ok(())
}

static NUMBERS_OF_FORGED_FRAMES: [Row; 5] = [
    // three octas are hidden; the last one is made 3
    (
        "b GREG #6000000000000000\n LOC #100\nMain SETL $0,5\n PUSHJ $2,x\n SET $255,$0\n \
         TRAP 0,Halt,0\nx SAVE $255,0\n UNSAVE 0,$255\n SETL $255,3\n STO $255,b,16\n POP 0,0",
        Stop(0x120, 115),
        &["rO=#6000000000000018"],
    ),
    // 1: one register comes back, which was $1
    (
        "b GREG #6000000000000000\n LOC #100\nMain SETL $0,5\n PUSHJ $2,x\n SET $255,$0\n \
         TRAP 0,Halt,0\nx SAVE $255,0\n UNSAVE 0,$255\n SETL $255,1\n STO $255,b,16\n POP 0,0",
        Done(8),
        &[
            "rL=#0000000000000001",
            "rO=#6000000000000008",
            "$0=#4000000000000008",
        ],
    ),
    // 0: none comes back
    (
        "b GREG #6000000000000000\n LOC #100\nMain SETL $0,5\n PUSHJ $2,x\n SET $255,$0\n \
         TRAP 0,Halt,0\nx SAVE $255,0\n UNSAVE 0,$255\n SETL $255,0\n STO $255,b,16\n POP 0,0",
        Done(0),
        &["rL=#0000000000000000", "rO=#6000000000000010"],
    ),
    // #102: its low byte counts, so two come back
    (
        "b GREG #6000000000000000\n LOC #100\nMain SETL $0,5\n PUSHJ $2,x\n SET $255,$0\n \
         TRAP 0,Halt,0\nx SAVE $255,0\n UNSAVE 0,$255\n SETL $255,#102\n STO $255,b,16\n POP 0,0",
        Done(5),
        &["rL=#0000000000000002", "rO=#6000000000000000"],
    ),
    // of 400 octas the last is made 255, above G: 254 registers come back from the 145th on
    (
        "b GREG #6000000000000000\n LOC #100\nMain SETL $144,7\n PUSHJ $199,@+4\n PUSHJ $199,x\n \
         SET $255,$0\n TRAP 0,Halt,0\nx SAVE $255,0\n UNSAVE 0,$255\n SETL $255,255\n INCL b,8*399\n \
         STO $255,b,0\n POP 0,0",
        Done(7),
        &["rL=#00000000000000fe", "rO=#6000000000000480"],
    ),
];

#[test]
fn numbers_of_forged_frames(rt: HostRuntime) -> Result<(), Fail> {
    assert_eq!(rt;
        find_mismatch(rt.alloc(), "", &NUMBERS_OF_FORGED_FRAMES)?,
        None
    );
    Ok(())
}

static FRAMES_THAT_ARE_NONE: [Row; 11] = [
    // just above the stack area
    (
        "Main SETH $0,#6000\n INCML $0,#80\n UNSAVE 0,$0",
        Stop(8, 116),
        &[],
    ),
    // just below
    (
        "Main SETH $0,#6000\n SUBU $0,$0,8\n UNSAVE 0,$0",
        Stop(8, 116),
        &[],
    ),
    // above 2^63
    ("Main SETH $0,#8000\n UNSAVE 0,$0", Stop(4, 116), &[]),
    // the first octa and the last byte: G is 0
    ("Main SETH $0,#6000\n UNSAVE 0,$0", Stop(4, 116), &[]),
    (
        "Main SETH $0,#6000\n INCML $0,#80\n SUBU $0,$0,1\n UNSAVE 0,$0",
        Stop(0xc, 116),
        &[],
    ),
    // G is 31; and 32, which is none of these
    (
        "Main SETH $0,#6000\n SETH $1,#1f00\n SETL $2,4000\n STO $1,$0,$2\n ADDU $2,$0,$2\n UNSAVE 0,$2",
        Stop(0x14, 116),
        &[],
    ),
    (
        "Main SETH $0,#6000\n SETH $1,#2000\n SETL $2,4000\n STO $1,$0,$2\n ADDU $2,$0,$2\n \
         UNSAVE 0,$2\n TRAP 0,Halt,0",
        Done(0),
        &[
            "rG=#0000000000000020",
            "rL=#0000000000000000",
            "rO=#6000000000000838",
        ],
    ),
    // the frame reaches below the first octa
    (
        "Main SETH $0,#6000\n SETH $1,#ff00\n STO $1,$0,40\n ADDU $2,$0,40\n UNSAVE 0,$2",
        Stop(0x10, 116),
        &[],
    ),
    // 7 registers would lie below its seventh octa; 6 may
    (
        "Main SETH $0,#6000\n SETH $1,#ff00\n STO $1,$0,160\n SETL $1,7\n STO $1,$0,48\n \
         ADDU $2,$0,160\n UNSAVE 0,$2",
        Stop(0x18, 116),
        &[],
    ),
    (
        "Main SETH $0,#6000\n SETH $1,#ff00\n STO $1,$0,160\n SETL $1,6\n STO $1,$0,48\n \
         ADDU $2,$0,160\n UNSAVE 0,$2\n TRAP 0,Halt,0",
        Done(0),
        &[
            "rL=#0000000000000006",
            "rO=#6000000000000000",
            "rG=#00000000000000ff",
        ],
    ),
    // the octa that holds the address counts
    (
        " LOC #100\nMain SETL $0,5\n SAVE $255,0\n ADDU $255,$255,7\n UNSAVE 0,$255\n SET $255,$0\n \
         TRAP 0,Halt,0",
        Done(5),
        &["rL=#0000000000000002", "rO=#6000000000000000"],
    ),
];

#[test]
fn frames_that_are_none(rt: HostRuntime) -> Result<(), Fail> {
    assert_eq!(rt; find_mismatch(rt.alloc(), "", &FRAMES_THAT_ARE_NONE)?, None);
    Ok(())
}
