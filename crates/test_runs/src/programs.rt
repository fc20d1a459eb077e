//! Programs that run, most of them on each ring.

use mx_top::Outcome;
use std::alloc::Global;
use std::test::Fail;
use test_rows::{
    Due, FIRST, Given, HELLO, SIZES, comes_from, due_done, due_refused, due_stopped, file,
    is_run_to,
};

/// Programs, the status that they halt with, and what they print.
static HALTING: [(&str, u8, &[u8]); 13] = [
    // Fputs answers the length of the text, which is the status
    (FIRST, 3, b"hi\n"),
    // argument 0 is the name of the file
    (HELLO, 8, b"hello, world\n"),
    // PREFIX: the complete name of Halt is :Halt
    (" PREFIX p:\n:Main TRAP 0,:Halt,0", 0, b""),
    // an overflow that is enabled trips to the handler at #20; rX is the trip's
    (
        " LOC #20\n GET $255,rX\n TRAP 0,Halt,0\n LOC #100\nMain SETL $1,#4000\n PUT rA,$1\n NEG $0,0,1\n SRU $0,$0,1\n ADD $0,$0,1\n TRAP 0,Halt,0",
        1,
        b"",
    ),
    // one that is not enabled sets the V bit of rA
    (
        "Main SETL $1,0\n PUT rA,$1\n NEG $0,0,1\n SRU $0,$0,1\n ADD $0,$0,1\n GET $255,rA\n TRAP 0,Halt,0",
        0x40,
        b"",
    ),
    // STB of 384 overflows, and stores its low byte
    (
        "Main SETH $0,#2000\n SETL $1,384\n STB $1,$0,1\n LDBU $255,$0,1\n TRAP 0,Halt,0",
        128,
        b"",
    ),
    // SAVE and UNSAVE bring a register back
    (
        " LOC #100\nMain SETL $0,5\n SAVE $255,0\n SETL $0,9\n PUSHJ $3,@+4\n UNSAVE 0,$255\n SET $255,$0\n TRAP 0,Halt,0",
        5,
        b"",
    ),
    // a procedure's result
    (
        "Main PUSHJ $3,F\n SET $255,$3\n TRAP 0,Halt,0\nF SETL $0,9\n POP 1,0",
        9,
        b"",
    ),
    // a global register that begins to be local is lost: $50 is global with G at 40, not with G at 60
    (
        "Main PUT rG,40\n SETL $50,7\n SET $255,$50\n TRAP 0,Halt,0",
        7,
        b"",
    ),
    (
        "Main PUT rG,40\n SETL $50,7\n PUT rG,60\n SET $255,$50\n TRAP 0,Halt,0",
        0,
        b"",
    ),
    // standard output is no file that can be told or sought in
    ("Main TRAP 0,Ftell,StdOut\n TRAP 0,Halt,0", 255, b""),
    ("Main TRAP 0,Fseek,StdOut\n TRAP 0,Halt,0", 255, b""),
    // a reference ahead reaches so far
    ("Main BZ $0,x\n LOC Main+4*65535\nx TRAP 0,Halt,0", 0, b""),
];

#[test]
fn programs_print_and_halt(rt: HostRuntime) -> Result<(), Fail> {
    for (source, status, output) in &HALTING {
        assert!(rt;
            is_run_to(rt.alloc(), source, due_done(*status, output))?,
            "{source}"
        );
    }
    Ok(())
}

/// Programs, the address and the reason of their stop, and the message.
static STOPPING: [(&str, u64, u16, &[u8]); 12] = [
    // bytes placed at one address are joined: byte 0 is 2, and #02 is the code of FUN
    (
        "Main BYTE 1\n LOC 0\n BYTE 3\n TETRA #98000000",
        0,
        110,
        b"#0000000000000000: 110 Float\n",
    ),
    (
        "Main FADD $0,$1,$2",
        0,
        110,
        b"#0000000000000000: 110 Float\n",
    ),
    (
        "Main POP 0,0",
        0,
        115,
        b"#0000000000000000: 115 Underflow\n",
    ),
    (
        "Main UNSAVE 0,$0",
        0,
        116,
        b"#0000000000000000: 116 BadFrame\n",
    ),
    // RESUME 0 with rX 0 inserts a TRAP, which is left out
    (
        "Main RESUME 0",
        0,
        120,
        b"#0000000000000000: 120 ResumeInsert\n",
    ),
    // the overflow trips, but no handler is at #20
    (
        " LOC #100\nMain SETL $1,#4000\n PUT rA,$1\n NEG $0,0,1\n SRU $0,$0,1\n ADD $0,$0,1\n TRAP 0,Halt,0",
        0x110,
        117,
        b"#0000000000000110: 117 UnhandledTrip\n",
    ),
    // services that are not there
    (
        "Main TRAP 0,Fgetws,0",
        0,
        121,
        b"#0000000000000000: 121 WideTrap\n",
    ),
    (
        "Main TRAP 0,11,0",
        0,
        124,
        b"#0000000000000000: 124 UnknownTrap\n",
    ),
    // a jump to a negative address: the fetch there stops
    (
        "Main SETH $0,#8000\n GO $1,$0,0",
        1 << 63,
        113,
        b"#8000000000000000: 113 Negative\n",
    ),
    // PUT to rC
    (
        "Main PUT 8,$0",
        0,
        112,
        b"#0000000000000000: 112 Privileged\n",
    ),
    (
        "Main PUT rN,$0",
        0,
        111,
        b"#0000000000000000: 111 Illegal\n",
    ),
    // a size above 2^24
    (
        "Main SETH $255,#2000\n INCL $255,#1000\n SETML $0,#100\n INCL $0,1\n STO $0,$255,8\n TRAP 0,Fread,StdIn",
        0x14,
        122,
        b"#0000000000000014: 122 TransferTooLarge\n",
    ),
];

#[test]
fn programs_stop(rt: HostRuntime) -> Result<(), Fail> {
    for (source, pc, reason, told) in &STOPPING {
        assert!(rt;
            is_run_to(rt.alloc(), source, due_stopped(*pc, *reason, told))?,
            "{source}"
        );
    }
    Ok(())
}

const LINE: &str =
    " LOC Data_Segment\n GREG @\nArgs OCTA Buf,8\nBuf OCTA 0\n LOC #100\nMain LDA $255,Args\n TRAP 0,Fgets,StdIn\n TRAP 0,Halt,0";

const BYTES: &str =
    " LOC Data_Segment\n GREG @\nArgs OCTA Buf,8\nBuf OCTA 0\n LOC #100\nMain LDA $255,Args\n TRAP 0,Fread,StdIn\n TRAP 0,Halt,0";

/// Reads a line, and then one byte of what is left.
const REST: &str =
    " LOC Data_Segment\n GREG @\nArgs OCTA Buf,8\nOne OCTA Buf,1\nBuf OCTA 0\n LOC #100\n\
     Main LDA $255,Args\n TRAP 0,Fgets,StdIn\n LDA $255,One\n TRAP 0,Fread,StdIn\n LDBU $255,Buf\n \
     TRAP 0,Halt,0";

/// Whether a source with an input and failing calls ends with a status on each ring.
fn reads(
    alloc: Global,
    source: &str,
    input: &[u8],
    failing: &[u64],
    status: u8,
) -> Result<bool, Fail> {
    let given = Given {
        name: "a.mms",
        bytes: source.as_bytes(),
        input,
        failing,
    };
    let mut is_due = true;
    for ring in SIZES {
        let words = &["run", "--ring", ring, "a.mms"];
        is_due = is_due && comes_from(alloc, given, words, due_done(status, b""))?;
    }
    Ok(is_due)
}

/// Programs that read, the input, the failing call, and the status.
static READING: [(&str, &[u8], &[u64], u8); 7] = [
    // Fgets with a buffer of eight bytes
    (LINE, b"ab\n", &[], 3),
    (LINE, b"abcdefgh", &[], 7),
    (LINE, b"ab", &[], 255),
    (LINE, b"ab\n", &[3], 255),
    // the same for Fread: 2 - 8, and -1 - 8 where the call fails
    (BYTES, b"ab", &[], 250),
    (BYTES, b"ab", &[3], 247),
    // with a buffer of eight bytes Fgets leaves the h
    (REST, b"abcdefgh", &[], 104),
];

#[test]
fn programs_read(rt: HostRuntime) -> Result<(), Fail> {
    for (source, input, failing, status) in &READING {
        let is_due = reads(rt.alloc(), source, input, failing, *status)?;
        assert!(rt; is_due, "{source} ends with {status}");
    }
    Ok(())
}

/// What closes a program that inserts an instruction by RESUME.
const RESUMED: &str = "\n GETA $3,2F\n PUT rW,$3\n RESUME 0\n2H SET $255,$0\n TRAP 0,Halt,0";

/// What is before it, and the status.
static INSERTING: [(&str, u8); 3] = [
    // ADDU $0,$0,1, as if it were before the place of rW
    ("Main SETL $2,1\n INCML $2,#2300\n PUT rX,$2", 2),
    // the same with rY and rZ as operands
    (
        "Main SETL $2,1\n INCML $2,#2300\n INCH $2,#0100\n PUT rX,$2\n SETL $3,40\n PUT rY,$3\n PUT rZ,2",
        42,
    ),
    // a register gets rZ
    ("Main SETH $2,#0200\n PUT rX,$2\n SETL $3,9\n PUT rZ,$3", 9),
];

/// Whether a program that inserts an instruction comes to what is due.
fn inserts(alloc: Global, front: &str, due: Due) -> Result<bool, Fail> {
    let mut source = String::from_str(alloc, front)?;
    source.push_str(RESUMED)?;
    is_run_to(alloc, source.as_str(), due)
}

#[test]
fn resume_inserts_an_instruction(rt: HostRuntime) -> Result<(), Fail> {
    for (front, status) in &INSERTING {
        assert!(rt;
            inserts(rt.alloc(), front, due_done(*status, b""))?,
            "{front}"
        );
    }
    // a kind that does not exist
    let illegal = due_stopped(16, 111, b"#0000000000000010: 111 Illegal\n");
    assert!(rt; inserts(rt.alloc(), "Main SETH $2,#0300\n PUT rX,$2", illegal)?);
    Ok(())
}

/// Whether a source with this many steps at most comes to what is due on each ring.
fn gives_within(alloc: Global, steps: &str, source: &str, due: Due) -> Result<bool, Fail> {
    let given = file("a.mms", source.as_bytes());
    let mut is_due = true;
    for ring in SIZES {
        let words = &["run", "--ring", ring, "--steps", steps, "a.mms"];
        is_due = is_due && comes_from(alloc, given, words, due)?;
    }
    Ok(is_due)
}

#[test]
fn steps_are_bounded(rt: HostRuntime) -> Result<(), Fail> {
    let spent = Due {
        outcome: Outcome::StepsSpent { steps: 10 },
        output: b"",
        errors: b"10 steps spent\n",
    };
    assert!(rt; gives_within(rt.alloc(), "10", "Main SWYM\n2H JMP 2F\n2H JMP 2B", spent)?);
    // Halt is the last step that is allowed
    assert!(rt; gives_within(rt.alloc(), "1", "Main TRAP 0,Halt,0", due_done(0, b""))?);
    Ok(())
}

/// Prints the second argument; the number of arguments is the status.
const SECOND: &str = "Main LDOU $255,$1,8\n TRAP 0,Fputs,StdOut\n SET $255,$0\n TRAP 0,Halt,0";

/// Prints argument 0; its length is the status.
const NAME: &str = "Main LDOU $255,$1,0\n TRAP 0,Fputs,StdOut\n TRAP 0,Halt,0";

/// The words of a call whose program is in the file of the second one, the source, the status, and what is printed.
static ARGUMENTS: [(&[&str], &str, u8, &[u8]); 7] = [
    (&["run", "p.mms", "ab"], SECOND, 2, b"ab"),
    // an argument may begin with a dash
    (&["run", "p.mms", "-i", "c"], SECOND, 3, b"-i"),
    // a last `.mms` or `.mmo` of argument 0 is cut off, and nothing else
    (&["run", "b.mms"], NAME, 1, b"b"),
    (&["run", "b.mmo"], NAME, 1, b"b"),
    (&["run", "b.mmx"], NAME, 5, b"b.mmx"),
    (&["run", "d.mms.mmo"], NAME, 5, b"d.mms"),
    (&["run", ".mms"], NAME, 0, b""),
];

#[test]
fn arguments_are_handed_on(rt: HostRuntime) -> Result<(), Fail> {
    for (words, source, status, output) in &ARGUMENTS {
        let given = file(name_in(words), source.as_bytes());
        let is_due = comes_from(rt.alloc(), given, words, due_done(*status, output))?;
        assert!(rt; is_due, "{}", name_in(words));
    }
    Ok(())
}

/// The name of the program's file among the words of a call.
fn name_in<'a>(words: &[&'a str]) -> &'a str {
    match words {
        [_, name, ..] => name,
        _ => "",
    }
}

#[test]
fn references_reach_no_farther(rt: HostRuntime) -> Result<(), Fail> {
    let beyond = "Main BZ $0,x\n LOC Main+4*65536\nx TRAP 0,Halt,0";
    let due = due_refused(3, 85, 1, b"line 3: 85 FutureTooFar from line 1\n");
    assert!(rt; is_run_to(rt.alloc(), beyond, due)?);
    Ok(())
}
