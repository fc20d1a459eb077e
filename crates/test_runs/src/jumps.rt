//! Jumps and destinations: where they go, and what they leave.

use std::test::Fail;
use test_rows::End::{Done, Stop};
use test_rows::{Row, find_mismatch, shows_on};

/// Hides 251 registers, and then loads the first octa of the stack area into $4.
static SPILLING: &str =
    "base GREG #6000000000000000\n LOC #100\nMain SETL $0,77\n PUSHJ $250,x\nx LDO $4,base,0\n \
     SET $255,$4\n TRAP 0,Halt,0";

static JUMPS_LOWER_THEIR_ADDRESSES: [Row; 5] = [
    // GO goes to its sum lowered to a multiple of 4, and tells the next address
    (
        " LOC #100\nMain SETL $0,#10f\n GO $1,$0,0\n TRAP 0,Halt,0\n SETL $255,7\n TRAP 0,Halt,0",
        Done(7),
        &["$1=#0000000000000108"],
    ),
    // so does PUSHGO, which tells it in rJ, and hides $0 and the number 1
    (
        " LOC #100\nMain SETL $0,#10f\n PUSHGO $1,$0,0\n TRAP 0,Halt,0\n GET $255,rJ\n TRAP 0,Halt,0",
        Done(8),
        &["rJ=#0000000000000108", "rO=#6000000000000010"],
    ),
    // PUSHJ goes backwards to its address
    (
        " LOC #100\nx SETL $255,7\n TRAP 0,Halt,0\nMain PUSHJ $1,x",
        Done(7),
        &["rJ=#000000000000010c", "rO=#6000000000000010"],
    ),
    // POP goes to rJ and four times its number, lowered
    (
        " LOC #100\nMain PUSHJ $1,x\nx SETL $0,#113\n PUT rJ,$0\n POP 0,1\n TRAP 0,Halt,0\n \
         SETL $255,7\n TRAP 0,Halt,0",
        Done(7),
        &["rJ=#0000000000000113", "rO=#6000000000000000"],
    ),
    // RESUME goes back to rW, lowered
    (
        "Main SETH $0,#8000\n PUT rX,$0\n SETL $1,#1b\n PUT rW,$1\n RESUME 0\n TRAP 0,Halt,0\n \
         SETL $255,7\n TRAP 0,Halt,0",
        Done(7),
        &["rC=#0000000000000007"],
    ),
];

#[test]
fn jumps_lower_their_addresses(rt: HostRuntime) -> Result<(), Fail> {
    assert_eq!(rt;
        find_mismatch(rt.alloc(), "", &JUMPS_LOWER_THEIR_ADDRESSES)?,
        None
    );
    Ok(())
}

static JUMPS_TO_NEGATIVE_ADDRESSES_COMPLETE: [Row; 4] = [
    // the fetch there stops: GO has told the next address
    (
        "Main SETH $0,#8000\n GO $1,$0,0",
        Stop(0x8000_0000_0000_0000, 113),
        &["$1=#0000000000000008", "rC=#0000000000000002"],
    ),
    // PUSHGO has hidden $0
    (
        "Main SETH $0,#8000\n PUSHGO $0,$0,6",
        Stop(0x8000_0000_0000_0004, 113),
        &[
            "rJ=#0000000000000008",
            "rO=#6000000000000008",
            "rL=#0000000000000001",
            "$0=#4000000000000008",
        ],
    ),
    // POP has brought its item back
    (
        "Main PUSHJ $0,x\nx SETH $0,#8000\n INCL $0,3\n PUT rJ,$0\n POP 0,1",
        Stop(0x8000_0000_0000_0004, 113),
        &[
            "rO=#6000000000000000",
            "rL=#0000000000000000",
            "rC=#0000000000000005",
        ],
    ),
    // JMP from 0 to one tetra before it
    (
        "Main TETRA #f1ffffff",
        Stop(0xffff_ffff_ffff_fffc, 113),
        &["rC=#0000000000000001"],
    ),
];

#[test]
fn jumps_to_negative_addresses_complete(rt: HostRuntime) -> Result<(), Fail> {
    assert_eq!(rt;
        find_mismatch(rt.alloc(), "", &JUMPS_TO_NEGATIVE_ADDRESSES_COMPLETE)?,
        None
    );
    Ok(())
}

static DESTINATIONS_ARE_LOCAL_FIRST: [Row; 5] = [
    // GET tells the new L
    (
        "Main GET $9,rL\n SET $255,$9\n TRAP 0,Halt,0",
        Done(10),
        &["$9=#000000000000000a", "rL=#000000000000000a"],
    ),
    // a condition that does not hold makes its destination local all the same
    (
        "Main CSN $9,$0,1\n GET $255,rL\n TRAP 0,Halt,0",
        Done(10),
        &["$9=#0000000000000000", "rL=#000000000000000a"],
    ),
    // a store has no destination
    (
        "Main SETH $0,#2000\n STO $9,$0,0\n GET $255,rL\n TRAP 0,Halt,0",
        Done(2),
        &["rL=#0000000000000002"],
    ),
    // where a load stops, its destination is not local
    (
        "Main SETH $0,#8000\n LDO $9,$0,0",
        Stop(4, 113),
        &["rL=#0000000000000002", "rC=#0000000000000001"],
    ),
    // nor is it where a trip has no handler
    (
        " LOC #100\nMain SETL $1,#4000\n PUT rA,$1\n NEG $0,0,1\n SRU $0,$0,1\n ADD $9,$0,1",
        Stop(0x110, 117),
        &[
            "rL=#0000000000000002",
            "rA=#0000000000004000",
            "rX=#0000000000000000",
            "$0=#7fffffffffffffff",
        ],
    ),
];

#[test]
fn destinations_are_local_first(rt: HostRuntime) -> Result<(), Fail> {
    assert_eq!(rt;
        find_mismatch(rt.alloc(), "", &DESTINATIONS_ARE_LOCAL_FIRST)?,
        None
    );
    Ok(())
}

#[test]
fn registers_are_spilled_before_a_load(rt: HostRuntime) -> Result<(), Fail> {
    let alloc = rt.alloc();
    // the destination $4 makes the 256th register: a ring of 256 stores $0 of the caller, and then the load finds it
    for (ring, status) in [("256", 77), ("512", 0), ("1024", 0)] {
        assert!(rt;
            shows_on(
                alloc,
                ring,
                SPILLING,
                Done(status),
                &["rL=#0000000000000005"]
            )?
        );
    }
    Ok(())
}
