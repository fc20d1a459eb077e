//! Calls of the host that fail.

use crate::row::{check_outcome, see};
use mx_top::Outcome;
use std::alloc::Global;
use std::test::Fail;
use test_rows::{Due, Given, HELLO, comes_to, due_done, file, host};

/// The call of a run that fails, the outcome, and what is written on standard output and standard error.
static RUNS: [(u64, Outcome, &[u8], &[u8]); 6] = [
    // opening, reading and closing the source
    (0, Outcome::HostFault, b"", b"host fault\n"),
    (1, Outcome::HostFault, b"", b"host fault\n"),
    (2, Outcome::HostFault, b"", b"host fault\n"),
    // the writes of the program: Fputs then answers -1
    (3, Outcome::Done(8), b", world\n", b""),
    (4, Outcome::Done(255), b"hello", b""),
    (5, Outcome::Done(8), b"hello, world\n", b""),
];

#[test]
fn failing_calls_of_a_run(rt: HostRuntime) -> Result<(), Fail> {
    for (call, outcome, output, errors) in &RUNS {
        let given = Given {
            failing: &[*call],
            ..file("hello.mms", HELLO.as_bytes())
        };
        let due = Due {
            outcome: *outcome,
            output,
            errors,
        };
        check_outcome(rt.alloc(), given, &["run", "hello.mms"], due, *call)?;
    }
    Ok(())
}

/// Whether an assembly in which a call fails leaves an object file of this many bytes.
fn leaves(alloc: Global, call: u64, left: Option<usize>) -> Result<bool, Fail> {
    let given = Given {
        failing: &[call],
        ..file("hello.mms", HELLO.as_bytes())
    };
    let mut host = host(alloc, given)?;
    let words = &["asm", "hello.mms", "hello.mmo"];
    let due = Due {
        outcome: Outcome::HostFault,
        output: b"",
        errors: b"host fault\n",
    };
    let is_failed = comes_to(alloc, &mut host, words, due)?;
    Ok(is_failed && host.file(b"hello.mmo").map(|bytes| bytes.len()) == left)
}

/// The call of an assembly that fails, and how many bytes the object file then has, if it is there.
static ASSEMBLIES: [(u64, Option<usize>); 6] = [
    (0, None),
    (1, None),
    (2, None),
    (3, None),
    (4, Some(0)),
    (5, Some(124)),
];

#[test]
fn failing_calls_of_an_assembly(rt: HostRuntime) -> Result<(), Fail> {
    for (call, left) in &ASSEMBLIES {
        see(leaves(rt.alloc(), *call, *left)?, *call)?;
    }
    Ok(())
}

/// Opens a file, writes to it, goes back, reads, tells the place and closes it; the sum of what the
/// calls answer, less what is due, is the status.
const FILES: &str =
    " LOC Data_Segment\n GREG @\nOpen OCTA Name,BinaryReadWrite\nWrite OCTA Text,4\nRead OCTA Buf,4\nBuf OCTA 0\nName BYTE \"f\",0\nText BYTE \"abcd\"\n LOC #100\nMain LDA $255,Open\n TRAP 0,Fopen,5\n SET $0,$255\n LDA $255,Write\n TRAP 0,Fwrite,5\n ADDU $0,$0,$255\n SETL $255,0\n TRAP 0,Fseek,5\n ADDU $0,$0,$255\n LDA $255,Read\n TRAP 0,Fread,5\n ADDU $0,$0,$255\n TRAP 0,Ftell,5\n ADDU $0,$0,$255\n TRAP 0,Fclose,5\n ADDU $255,$0,$255\n TRAP 0,Halt,0";

/// The call of a program that fails, after the three of the source, and the status: Ftell answers 4 where all
/// is well.
static PROGRAMS: [(u64, u8); 7] = [
    (9, 4),
    // Fopen -1, Fwrite -4, Fseek -1, Fread -5, Ftell -1, Fclose -1
    (3, 243),
    // Fwrite -4, and then Fread finds nothing: 0 - 4, and Ftell 0
    (4, 248),
    // Fseek -1: the place stays at the end, Fread 0 - 4
    (5, 255),
    // Fread -5, and the place is 0
    (6, 251),
    // Ftell -1
    (7, 255),
    // Fclose -1
    (8, 3),
];

#[test]
fn failing_calls_of_a_program(rt: HostRuntime) -> Result<(), Fail> {
    for (call, status) in &PROGRAMS {
        let given = Given {
            failing: &[*call],
            ..file("a.mms", FILES.as_bytes())
        };
        check_outcome(
            rt.alloc(),
            given,
            &["run", "a.mms"],
            due_done(*status, b""),
            *call,
        )?;
    }
    Ok(())
}
