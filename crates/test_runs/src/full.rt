//! What happens where no register, no octa of the stack and no page is left.

use std::test::Fail;
use test_rows::End::{Done, Stop};
use test_rows::{Row, find_mismatch, shows_on};

/// Hides 2^20 octas; the next instruction is at #110.
static FULL: &str =
    "c GREG 0\n LOC #100\nMain SETL c,8192\n1H PUSHJ $127,2F\n2H SUBU c,c,1\n BNZ c,1B\n";

/// Hides 128 octas less.
static NEARLY_FULL: &str =
    "c GREG 0\n LOC #100\nMain SETL c,8191\n1H PUSHJ $127,2F\n2H SUBU c,c,1\n BNZ c,1B\n";

/// Stores in 65,534 pages beside those of the program and of the arguments; the next instruction is at #118.
static ALL_PAGES: &str =
    " LOC #100\nMain SETL $2,65534\n SETH $0,#2000\n1H STCO 0,$0,0\n INCL $0,4096\n SUBU $2,$2,1\n \
     PBNZ $2,1B\n";

static NO_ROOM_FOR_REGISTERS: [Row; 14] = [
    // a destination that would be local; 24,577 steps were made
    (
        " SETL $0,1",
        Stop(0x110, 114),
        &[
            "rL=#0000000000000000",
            "rO=#6000000000800000",
            "rC=#0000000000006001",
        ],
    ),
    // a load from an address that may be loaded
    (" LDO $0,c,0", Stop(0x110, 114), &[]),
    // a negative address comes before
    (" SETH c,#8000\n LDO $0,c,0", Stop(0x114, 113), &[]),
    // a jump to one does not
    (" SETH c,#8000\n GO $0,c,0", Stop(0x114, 114), &[]),
    // an exchange
    (" CSWAP $0,c,0", Stop(0x110, 114), &[]),
    // a special register
    (" GET $0,rA", Stop(0x110, 114), &[]),
    // an address
    (" GETA $0,Main", Stop(0x110, 114), &[]),
    // a call, also one that hides no more than the number
    (" PUSHJ $0,Main", Stop(0x110, 114), &[]),
    (" PUSHGO $255,c,0", Stop(0x110, 114), &[]),
    // SAVE; without a global register it is illegal before
    (" SAVE $255,0", Stop(0x110, 114), &[]),
    (" SAVE $0,0", Stop(0x110, 111), &[]),
    // then a trip without a handler
    (
        " SETL c,#4000\n PUT rA,c\n NEG c,0,1\n SRU c,c,1\n ADD $0,c,1",
        Stop(0x120, 114),
        &[],
    ),
    // and stops alone where the destination is global
    (
        " SETL c,#4000\n PUT rA,c\n NEG c,0,1\n SRU c,c,1\n ADD c,c,1",
        Stop(0x120, 117),
        &[],
    ),
    // a global register needs no room
    (
        " SETL $255,9\n TRAP 0,Halt,0",
        Done(9),
        &["rL=#0000000000000000"],
    ),
];

#[test]
fn no_room_for_registers(rt: HostRuntime) -> Result<(), Fail> {
    assert_eq!(rt;
        find_mismatch(rt.alloc(), FULL, &NO_ROOM_FOR_REGISTERS)?,
        None
    );
    Ok(())
}

static SAVE_NEEDS_ROOM: [Row; 6] = [
    // 16 octas where no register is local: room for 16
    (
        " PUSHJ $111,3F\n3H SAVE $255,0\n TRAP 0,Halt,0",
        Done(248),
        &["$255=#60000000007ffff8", "rO=#6000000000800000"],
    ),
    // room for 15
    (
        " PUSHJ $112,3F\n3H SAVE $255,0",
        Stop(0x114, 114),
        &["rO=#60000000007fff88"],
    ),
    // room for 17, and one or two registers are local
    (
        " PUSHJ $110,3F\n3H SETL $0,1\n SAVE $255,0\n TRAP 0,Halt,0",
        Done(248),
        &["rL=#0000000000000000"],
    ),
    (
        " PUSHJ $110,3F\n3H SETL $1,1\n SAVE $255,0",
        Stop(0x118, 114),
        &["rL=#0000000000000002"],
    ),
    // 128 octas where 114 registers are global, and 129: room for 128
    (
        " PUT rG,142\n SAVE $255,0\n TRAP 0,Halt,0",
        Done(248),
        &["rO=#6000000000800000"],
    ),
    (
        " PUT rG,141\n SAVE $255,0",
        Stop(0x114, 114),
        &["rO=#60000000007ffc00"],
    ),
];

#[test]
fn save_needs_room(rt: HostRuntime) -> Result<(), Fail> {
    assert_eq!(rt;
        find_mismatch(rt.alloc(), NEARLY_FULL, &SAVE_NEEDS_ROOM)?,
        None
    );
    Ok(())
}

static NO_PAGE_IS_LEFT: [Row; 7] = [
    // a store that needs one
    (" STCO 0,$0,0", Stop(0x118, 118), &[]),
    // one that overflows sets no bit
    (" STB $1,$0,0", Stop(0x118, 118), &["rA=#0000000000000000"]),
    // a trip without a handler comes before
    (
        " SETL $3,#4000\n PUT rA,$3\n STB $1,$0,0",
        Stop(0x120, 117),
        &[],
    ),
    // so does a negative address
    (" SETH $3,#8000\n STO $1,$3,0", Stop(0x11c, 113), &[]),
    // an exchange that would write
    (" CSWAP $2,$0,0", Stop(0x118, 118), &[]),
    // one that would not
    (
        " SETL $2,9\n PUT rP,5\n CSWAP $2,$0,0\n SETL $255,3\n TRAP 0,Halt,0",
        Done(3),
        &["$2=#0000000000000000", "rP=#0000000000000000"],
    ),
    // a load, and a store on a page that is there
    (
        " LDO $2,$0,0\n STO $1,$1,8\n LDB $255,$1,15\n TRAP 0,Halt,0",
        Done(8),
        &[],
    ),
];

#[test]
fn no_page_is_left(rt: HostRuntime) -> Result<(), Fail> {
    let alloc = rt.alloc();
    for (source, end, lines) in NO_PAGE_IS_LEFT {
        let mut whole = String::from_str(alloc, ALL_PAGES)?;
        whole.push_str(source)?;
        assert!(rt;
            shows_on(alloc, "256", whole.as_str(), end, lines)?,
            "{source}"
        );
    }
    Ok(())
}
