//! Trips and their handlers, and what overflows.

use std::test::Fail;
use test_rows::End::{Done, Stop};
use test_rows::{Row, find_mismatch};

static TRIPS_TELL_WHAT_HAPPENED: [Row; 6] = [
    // the destination is $255: rB is the result, $255 what rJ was; no bit of rA is set
    (
        " LOC #20\n SWYM\n TRAP 0,Halt,0\n LOC #100\nMain SETL $1,#4000\n PUT rA,$1\n SETL $2,77\n \
         PUT rJ,$2\n NEG $0,0,1\n SRU $0,$0,1\n ADD $255,$0,1",
        Done(77),
        &[
            "rB=#8000000000000000",
            "$255=#000000000000004d",
            "rX=#8000000021ff0001",
            "rW=#000000000000011c",
            "rY=#7fffffffffffffff",
            "rZ=#0000000000000001",
            "rA=#0000000000004000",
            "rC=#0000000000000009",
        ],
    ),
    // DIV by 0 has written rR
    (
        " LOC #10\n SWYM\n TRAP 0,Halt,0\n LOC #100\nMain SETL $1,#8000\n PUT rA,$1\n SETL $0,7\n DIV $2,$0,0",
        Done(0),
        &[
            "rR=#0000000000000007",
            "$2=#0000000000000000",
            "rY=#0000000000000007",
            "rZ=#0000000000000000",
            "rX=#800000001d020000",
            "rW=#0000000000000110",
            "rB=#0000000000000100",
            "rA=#0000000000008000",
        ],
    ),
    // a store has stored its two bytes; rY is the sum with its low bit, rZ the whole register
    (
        " LOC #20\n SWYM\n TRAP 0,Halt,0\n LOC #100\nMain SETL $1,#4000\n PUT rA,$1\n SETH $0,#2000\n \
         SETL $2,#8765\n INCML $2,1\n STW $2,$0,3",
        Done(0),
        &[
            "M#2000000000000000=#0000876500000000",
            "rY=#2000000000000003",
            "rZ=#0000000000018765",
            "rX=#80000000a5020003",
            "rW=#0000000000000118",
        ],
    ),
    // the first operand of NEG is its byte
    (
        " LOC #20\n SWYM\n TRAP 0,Halt,0\n LOC #100\nMain SETL $1,#4000\n PUT rA,$1\n SETH $0,#8000\n \
         NEG $2,5,$0",
        Done(0),
        &[
            "$2=#8000000000000005",
            "rY=#0000000000000005",
            "rZ=#8000000000000000",
            "rX=#8000000034020500",
            "rW=#0000000000000110",
        ],
    ),
    // TRIP goes to the handler at 0
    (
        " SWYM\n TRAP 0,Halt,0\n LOC #100\nMain TRIP 1,$0,$1",
        Done(0),
        &[
            "rX=#80000000ff010001",
            "rW=#0000000000000104",
            "rY=#0000000000000001",
            "rZ=#4000000000000008",
            "rB=#0000000000000100",
            "$255=#0000000000000000",
        ],
    ),
    // RESUME goes back after it
    (
        " SETL $0,9\n RESUME 0\n LOC #100\nMain TRIP 0,0,0\n SET $255,$0\n TRAP 0,Halt,0",
        Done(9),
        &["rC=#0000000000000005"],
    ),
];

#[test]
fn trips_tell_what_happened(rt: HostRuntime) -> Result<(), Fail> {
    assert_eq!(rt;
        find_mismatch(rt.alloc(), "", &TRIPS_TELL_WHAT_HAPPENED)?,
        None
    );
    Ok(())
}

static HANDLERS_THAT_ARE_NONE: [Row; 5] = [
    // a handler that halts at once
    (
        " LOC #20\n TRAP 0,Halt,0\n LOC #100\nMain SETL $1,#4000\n PUT rA,$1\n NEG $0,0,1\n \
         SRU $0,$0,1\n ADD $0,$0,1",
        Stop(0x110, 117),
        &["$0=#7fffffffffffffff", "rB=#0000000000000000"],
    ),
    // one whose second tetra alone is not 0
    (
        " LOC #24\n SWYM\n LOC #100\nMain SETL $1,#4000\n PUT rA,$1\n NEG $0,0,1\n SRU $0,$0,1\n ADD $0,$0,1",
        Stop(0x110, 117),
        &[],
    ),
    // none for TRIP
    (
        " LOC #100\nMain TRIP 0,0,0",
        Stop(0x100, 117),
        &["rX=#0000000000000000"],
    ),
    // none for DIV: rR is as before
    (
        " LOC #100\nMain SETL $1,#8000\n PUT rA,$1\n SETL $0,7\n PUT rR,$0\n DIV $2,$1,0",
        Stop(0x110, 117),
        &["rR=#0000000000000007", "rL=#0000000000000002"],
    ),
    // none for a store: memory is as before
    (
        " LOC #100\nMain SETL $1,#4000\n PUT rA,$1\n SETH $0,#2000\n STO $1,$0,0\n STB $1,$0,7",
        Stop(0x110, 117),
        &["M#2000000000000000=#0000000000004000"],
    ),
];

#[test]
fn handlers_that_are_none(rt: HostRuntime) -> Result<(), Fail> {
    assert_eq!(rt;
        find_mismatch(rt.alloc(), "", &HANDLERS_THAT_ARE_NONE)?,
        None
    );
    Ok(())
}

static SHIFTS_TO_THE_LEFT: [Row; 9] = [
    // 1 by 2^64 - 1 places is 0, with an overflow
    (
        "Main NEG $2,0,1\n SL $0,$0,$2\n TRAP 0,Halt,0",
        Done(0),
        &["$0=#0000000000000000", "rA=#0000000000000040"],
    ),
    // 0 by as many has none
    (
        "Main NEG $2,0,1\n SETL $0,0\n SL $0,$0,$2\n TRAP 0,Halt,0",
        Done(0),
        &["$0=#0000000000000000", "rA=#0000000000000000"],
    ),
    // 1 by 62, 63 and 64
    (
        "Main SL $2,$0,62\n TRAP 0,Halt,0",
        Done(0),
        &["$2=#4000000000000000", "rA=#0000000000000000"],
    ),
    (
        "Main SL $2,$0,63\n TRAP 0,Halt,0",
        Done(0),
        &["$2=#8000000000000000", "rA=#0000000000000040"],
    ),
    (
        "Main SL $2,$0,64\n TRAP 0,Halt,0",
        Done(0),
        &["$2=#0000000000000000", "rA=#0000000000000040"],
    ),
    // 0 by 64
    (
        "Main SETL $0,0\n SL $2,$0,64\n TRAP 0,Halt,0",
        Done(0),
        &["$2=#0000000000000000", "rA=#0000000000000000"],
    ),
    // -1 by 63 and 64
    (
        "Main NEG $0,0,1\n SL $2,$0,63\n TRAP 0,Halt,0",
        Done(0),
        &["$2=#8000000000000000", "rA=#0000000000000000"],
    ),
    (
        "Main NEG $0,0,1\n SL $2,$0,64\n TRAP 0,Halt,0",
        Done(0),
        &["$2=#0000000000000000", "rA=#0000000000000040"],
    ),
    // the other shifts, of -1 by 2^64 - 1
    (
        "Main NEG $0,0,1\n SR $2,$0,$0\n SRU $3,$0,$0\n SLU $4,$0,$0\n TRAP 0,Halt,0",
        Done(0),
        &[
            "$2=#ffffffffffffffff",
            "$3=#0000000000000000",
            "$4=#0000000000000000",
            "rA=#0000000000000000",
        ],
    ),
];

#[test]
fn shifts_to_the_left(rt: HostRuntime) -> Result<(), Fail> {
    assert_eq!(rt; find_mismatch(rt.alloc(), "", &SHIFTS_TO_THE_LEFT)?, None);
    Ok(())
}
