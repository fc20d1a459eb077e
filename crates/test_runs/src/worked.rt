//! Programs whose tetras, registers and steps are known, on each ring; objects that are run.

use mx_top::Outcome;
use std::alloc::Global;
use std::test::Fail;
use test_rows::End::{Done, Stop};
use test_rows::{
    Due, FIRST, Given, HELLO, Row, SIZES, comes_from, comes_to, due_done, file, find_mismatch,
    has_all_lines, has_part, host, outcome_over, shows_on,
};

static TETRAS: [Row; 8] = [
    // GETA goes one tetra back
    (
        " LOC #100\nText BYTE 104,105,10,0\nMain GETA $255,Text\n TRAP 0,7,1\n TRAP 0,0,0",
        Done(3),
        &[
            "M#0000000000000100=#68690a00f5ffffff",
            "rC=#0000000000000003",
        ],
    ),
    // a text that is printed, and a reference to a later one
    (
        "argv IS $1\n LOC #100\nMain LDOU $255,argv,0\n TRAP 0,Fputs,StdOut\n GETA $255,String\n \
         TRAP 0,Fputs,StdOut\n TRAP 0,Halt,0\nString BYTE \", world\",#a,0",
        Done(8),
        &[
            "M#0000000000000100=#8fff010000000701",
            "M#0000000000000108=#f4ff000300000701",
            "rC=#0000000000000005",
        ],
    ),
    // a reference that is filled in: as far forwards as it may go, and backwards
    (
        "Main BZ $0,x\n LOC Main+4*65535\nx TRAP 0,Halt,0",
        Done(0),
        &["M#0000000000000000=#4200ffff00000000"],
    ),
    (
        " LOC #200\nMain BZ $0,x\n LOC #100\nx TRAP 0,Halt,0",
        Done(0),
        &["M#0000000000000200=#4300ffc000000000"],
    ),
    // bytes that are placed at one address are joined
    (
        "Main BYTE 1\n LOC 0\n BYTE 3\n TETRA #98000000",
        Stop(0, 110),
        &["M#0000000000000000=#0200000098000000"],
    ),
    // an address in LDA is one of a base
    (
        " LOC Data_Segment\n GREG @\nArgs OCTA Buf,8\nBuf OCTA 0\n LOC #100\nMain LDA $255,Args\n \
         TRAP 0,Fgets,StdIn\n TRAP 0,Halt,0",
        Done(255),
        &["M#0000000000000100=#23fffe0000000400"],
    ),
    // the farthest address from a base
    (
        " LOC Data_Segment\n GREG @\n LOC #100\nMain LDO $0,Data_Segment+255",
        Done(0),
        &["M#0000000000000100=#8d00feff00000000"],
    ),
    // a negative byte
    (
        "Main TRAP 0,Halt,0\n BYTE -128",
        Done(0),
        &["M#0000000000000000=#0000000080000000"],
    ),
];

#[test]
fn programs_have_their_tetras(rt: HostRuntime) -> Result<(), Fail> {
    assert_eq!(rt; find_mismatch(rt.alloc(), "", &TETRAS)?, None);
    Ok(())
}

static VALUES: [Row; 11] = [
    // DIV rounds down: -7 by 2
    (
        "Main NEG $1,0,7\n DIV $0,$1,2\n TRAP 0,Halt,0",
        Done(0),
        &[
            "$0=#fffffffffffffffc",
            "rR=#0000000000000001",
            "rA=#0000000000000000",
        ],
    ),
    // -7 by 0
    (
        "Main NEG $1,0,7\n DIV $0,$1,0\n TRAP 0,Halt,0",
        Done(0),
        &[
            "$0=#0000000000000000",
            "rR=#fffffffffffffff9",
            "rA=#0000000000000080",
        ],
    ),
    // -2^63 by -1
    (
        "Main PUT rR,9\n SETH $1,#8000\n NEG $2,0,1\n DIV $0,$1,$2\n TRAP 0,Halt,0",
        Done(0),
        &[
            "$0=#8000000000000000",
            "rR=#0000000000000000",
            "rA=#0000000000000040",
        ],
    ),
    // an overflow that trips: 7 steps
    (
        " LOC #20\n GET $255,rX\n TRAP 0,Halt,0\n LOC #100\nMain SETL $1,#4000\n PUT rA,$1\n \
         NEG $0,0,1\n SRU $0,$0,1\n ADD $0,$0,1\n TRAP 0,Halt,0",
        Done(1),
        &[
            "rX=#8000000021000001",
            "rW=#0000000000000114",
            "rY=#7fffffffffffffff",
            "rZ=#0000000000000001",
            "rB=#0000000000000100",
            "$0=#8000000000000000",
            "rA=#0000000000004000",
            "rC=#0000000000000007",
        ],
    ),
    // one without a handler
    (
        " LOC #100\nMain SETL $1,#4000\n PUT rA,$1\n NEG $0,0,1\n SRU $0,$0,1\n ADD $0,$0,1\n TRAP 0,Halt,0",
        Stop(0x110, 117),
        &[
            "rC=#0000000000000004",
            "$0=#7fffffffffffffff",
            "rA=#0000000000004000",
        ],
    ),
    // one that is not enabled
    (
        " LOC #20\n GET $255,rX\n TRAP 0,Halt,0\n LOC #100\nMain SETL $1,0\n PUT rA,$1\n NEG $0,0,1\n \
         SRU $0,$0,1\n ADD $0,$0,1\n TRAP 0,Halt,0",
        Done(0),
        &["rA=#0000000000000040", "$0=#8000000000000000"],
    ),
    // a byte of 384: 5 steps
    (
        "Main SETH $0,#2000\n SETL $1,384\n STB $1,$0,1\n LDBU $255,$0,1\n TRAP 0,Halt,0",
        Done(128),
        &[
            "rC=#0000000000000005",
            "rA=#0000000000000040",
            "M#2000000000000000=#0080000000000000",
        ],
    ),
    // calls 300 deep: 2,106 steps; the sum is 45,150
    (
        " LOC #100\nMain SETL $1,300\n PUSHJ $0,Rec\n SET $255,$0\n TRAP 0,Halt,0\nRec BZ $0,1F\n \
         GET $1,rJ\n SUBU $3,$0,1\n PUSHJ $2,Rec\n ADDU $0,$0,$2\n PUT rJ,$1\n POP 1,0\n1H POP 1,0",
        Done(94),
        &[
            "rC=#000000000000083a",
            "$255=#000000000000b05e",
            "rO=#6000000000000000",
        ],
    ),
    // SAVE and UNSAVE: 7 steps; and the address that SAVE gave
    (
        " LOC #100\nMain SETL $0,5\n SAVE $255,0\n SETL $0,9\n PUSHJ $3,@+4\n UNSAVE 0,$255\n \
         SET $255,$0\n TRAP 0,Halt,0",
        Done(5),
        &["rC=#0000000000000007", "$0=#0000000000000005"],
    ),
    (
        " LOC #100\nMain SETL $0,5\n SAVE $255,0\n TRAP 0,Halt,0",
        Done(128),
        &["$255=#6000000000000080", "rC=#0000000000000003"],
    ),
    // calls up to the end of the stack: 1,048,574 steps
    (
        "Main PUSHJ $255,Main",
        Stop(0, 114),
        &["rC=#00000000000ffffe", "rO=#6000000000800000"],
    ),
];

#[test]
fn programs_leave_their_values(rt: HostRuntime) -> Result<(), Fail> {
    assert_eq!(rt; find_mismatch(rt.alloc(), "", &VALUES)?, None);
    Ok(())
}

/// Three calls that hide 100 registers each; then rS is read.
const HIDING: &str =
    "Main PUSHJ $99,@+4\n PUSHJ $99,@+4\n PUSHJ $99,@+4\n GET $255,rS\n TRAP 0,Halt,0";

/// Rings, the status, and the line of the dump: 45 octas were spilled from a ring of 256, none from a larger one.
static SPILLED: [(&str, u8, &str); 3] = [
    ("256", 104, "rS=#6000000000000168\n"),
    ("512", 0, "rS=#6000000000000000\n"),
    ("1024", 0, "rS=#6000000000000000\n"),
];

#[test]
fn rs_is_dumped_as_it_was_read(rt: HostRuntime) -> Result<(), Fail> {
    for (ring, status, line) in &SPILLED {
        assert!(rt;
            shows_on(rt.alloc(), ring, HIDING, Done(*status), &[line])?,
            "{ring}"
        );
    }
    Ok(())
}

/// Whether `run` with a ring and an argument starts with the octas of the pool that are due.
fn has_pool(alloc: Global, ring: &str) -> Result<bool, Fail> {
    // the fourth octa, which is 0, is the status
    let source = " LOC #104\nMain LDO $255,$1,16\n TRAP 0,Halt,0";
    let mut host = host(alloc, file("p.mms", source.as_bytes()))?;
    let words = &["run", "--dump", "--ring", ring, "p.mms", "ab"];
    let lines = [
        "$0=#0000000000000002\n",
        "$1=#4000000000000008\n",
        "M#4000000000000000=#4000000000000030\n",
        "M#4000000000000008=#4000000000000020\n",
        "M#4000000000000010=#4000000000000028\n",
        "M#4000000000000020=#7000000000000000\n",
        "M#4000000000000028=#6162000000000000\n",
    ];
    let outcome = outcome_over(alloc, &mut host, words)?;
    Ok(outcome == Outcome::Done(0) && has_all_lines(host.output(), &lines))
}

#[test]
fn arguments_are_in_the_pool(rt: HostRuntime) -> Result<(), Fail> {
    for ring in SIZES {
        assert!(rt; has_pool(rt.alloc(), ring)?, "{ring}");
    }
    Ok(())
}

/// Whether ten steps of a loop are spent on a ring, and its tetras are dumped.
fn spends(alloc: Global, ring: &str) -> Result<bool, Fail> {
    let mut host = host(alloc, file("a.mms", b"Main SWYM\n2H JMP 2F\n2H JMP 2B"))?;
    let words = &["run", "--dump", "--steps", "10", "--ring", ring, "a.mms"];
    let lines = ["M#0000000000000000=#fd000000f0000001\nM#0000000000000008=#f1ffffff00000000\n"];
    let outcome = outcome_over(alloc, &mut host, words)?;
    let is_spent = outcome == Outcome::StepsSpent { steps: 10 };
    Ok(is_spent && has_all_lines(host.output(), &lines))
}

/// Whether the first program fails on a ring where its file can't be read.
fn fails(alloc: Global, ring: &str) -> Result<bool, Fail> {
    let given = Given {
        failing: &[1],
        ..file("first.mms", FIRST.as_bytes())
    };
    let due = Due {
        outcome: Outcome::HostFault,
        output: b"",
        errors: b"host fault\n",
    };
    comes_from(alloc, given, &["run", "--ring", ring, "first.mms"], due)
}

/// Whether the second program, assembled, prints its name and a text on a ring.
fn prints(alloc: Global, ring: &str) -> Result<bool, Fail> {
    let mut host = host(alloc, file("hello.mms", HELLO.as_bytes()))?;
    let is_assembled = comes_to(
        alloc,
        &mut host,
        &["asm", "hello.mms", "hello.mmo"],
        due_done(0, b""),
    )?;
    let words = &["sim", "--ring", ring, "hello.mmo"];
    Ok(is_assembled && comes_to(alloc, &mut host, words, due_done(8, b"hello, world\n"))?)
}

/// An object of another tool: the halt at #100. Its last byte, the count of the trie's tetras, is to follow.
static HALT: &[u8] =
    b"\x98\x09\x01\x01\x36\xf4\xa3\x63\x98\x01\x00\x01\x00\x00\x01\x00\x00\x00\x00\x00\
    \x98\x0a\x00\xff\x00\x00\x00\x00\x00\x00\x01\x00\x98\x0b\x00\x00\x20\x3a\x40\x40\
    \x10\x40\x40\x20\x4d\x20\x61\x20\x69\x01\x6e\x00\x81\x00\x00\x00\x98\x0c\x00";

/// Whether one step of that object, with this count, comes to what is due on a ring.
fn halts(alloc: Global, ring: &str, count: u8, due: Due) -> Result<bool, Fail> {
    let mut object = Vec::from_slice(alloc, HALT)?;
    object.push(count)?;
    let words = &["sim", "--steps", "1", "--ring", ring, "a.mmo"];
    comes_from(alloc, file("a.mmo", object.as_slice()), words, due)
}

#[test]
fn objects_and_bounded_runs_on_rings(rt: HostRuntime) -> Result<(), Fail> {
    let alloc = rt.alloc();
    let wrong_count = Due {
        outcome: Outcome::BadObject {
            place: 56,
            fault: 63,
        },
        output: b"",
        errors: b"byte 56: 63 BadFields\n",
    };
    for ring in SIZES {
        assert!(rt; spends(alloc, ring)?, "{ring}");
        assert!(rt; fails(alloc, ring)?, "{ring}");
        assert!(rt; prints(alloc, ring)?, "{ring}");
        assert!(rt; halts(alloc, ring, 5, due_done(0, b""))?, "{ring}");
        assert!(rt; halts(alloc, ring, 4, wrong_count)?, "{ring}");
    }
    Ok(())
}

/// Whether the object of a source has these bytes.
fn object_holds(alloc: Global, source: &str, part: &[u8]) -> Result<bool, Fail> {
    let mut host = host(alloc, file("a.mms", source.as_bytes()))?;
    let is_done = comes_to(
        alloc,
        &mut host,
        &["asm", "a.mms", "a.mmo"],
        due_done(0, b""),
    )?;
    match host.file(b"a.mmo") {
        Some(object) => Ok(is_done && has_part(object, part)),
        None => Ok(false),
    }
}

/// Sources, and what is in their objects.
static ITEMS: [(&str, &[u8]); 3] = [
    // the place #100, and there a reference that is filled in at #200, backwards
    (
        " LOC #200\nMain BZ $0,x\n LOC #100\nx TRAP 0,Halt,0",
        b"\x98\x01\x00\x01\x00\x00\x01\x00\x98\x05\x00\x10\x01\x00\xff\xc0",
    ),
    // a tetra like a lopcode is quoted
    (
        "Main BYTE 1\n LOC 0\n BYTE 3\n TETRA #98000000",
        b"\x98\x00\x00\x01\x98\x00\x00\x00",
    ),
    // the address of an octa is filled in at #2000000000000000
    (
        " LOC Data_Segment\n GREG @\nArgs OCTA Buf,8\nBuf OCTA 0\n LOC #100\nMain LDA $255,Args",
        b"\x98\x03\x20\x01\x00\x00\x00\x00",
    ),
];

#[test]
fn objects_have_their_items(rt: HostRuntime) -> Result<(), Fail> {
    for (source, part) in &ITEMS {
        assert!(rt; object_holds(rt.alloc(), source, part)?, "{source}");
    }
    Ok(())
}
