//! Programs whose instructions are changed from outside while they run, by a file trap and at the console: each
//! instruction is read when it is reached.

use crate::row::check_outcome;
use mx_top::Outcome;
use std::alloc::Global;
use std::test::Fail;
use test_rows::{Due, Given, file};

/// A program, its input, the status that it halts with, and what is written.
type Patched = (&'static str, &'static [u8], u8, &'static [u8]);

/// Checks that each program halts with its status.
fn all_halt(alloc: Global, words: &[&str], rows: &[Patched]) -> Result<(), Fail> {
    for (source, input, status, output) in rows {
        let given = Given {
            input,
            ..file("patched.mms", source.as_bytes())
        };
        let due = Due {
            outcome: Outcome::Done(*status),
            output,
            errors: b"",
        };
        check_outcome(alloc, given, words, due, *source)?;
    }
    Ok(())
}

/// Instructions that a program reads over its own.
static READ: [Patched; 2] = [
    // the next instruction, SETL $255,1, becomes SETL $255,7
    (
        " LOC #100\nArgs OCTA Next,4\nMain GETA $255,Args\n TRAP 0,Fread,StdIn\nNext SETL $255,1\n \
         TRAP 0,Halt,0",
        b"\xe3\xff\x00\x07",
        7,
        b"",
    ),
    // in a loop of three turns ADDU $0,$0,1 becomes ADDU $0,$0,16, then ADDU $0,$0,32, and then SUBU $0,$0,1; $0 was 1
    (
        " LOC #100\nArgs OCTA Next,4\nMain SETL $1,3\nAgain GETA $255,Args\n TRAP 0,Fread,StdIn\n\
         Next ADDU $0,$0,1\n SUBU $1,$1,1\n PBNZ $1,Again\n SET $255,$0\n TRAP 0,Halt,0",
        b"\x23\x00\x00\x10\x23\x00\x00\x20\x27\x00\x00\x01",
        48,
        b"",
    ),
];

#[test]
fn instructions_that_were_read_are_carried_out(rt: HostRuntime) -> Result<(), Fail> {
    all_halt(rt.alloc(), &["run", "patched.mms"], &READ)
}

/// Instructions that a user changes at a break.
static TYPED: [Patched; 2] = [
    // the next instruction, SETL $255,5, becomes SETL $255,7
    (
        " LOC #100\nMain SETL $0,1\n SETL $255,5\n TRAP 0,Halt,0",
        b"bx#104\nc\nM#100=#e3000001e3ff0007\nc\n",
        7,
        b"mmix> mmix> break x #0000000000000104\nmmix> M#0000000000000100=#e3000001e3ff0007\nmmix> ",
    ),
    // in a loop of three turns ADDU $0,$0,1 becomes ADDU $0,$0,16 after its first turn
    (
        " LOC #100\nMain SETL $1,3\n SETL $0,0\nAgain ADDU $0,$0,1\n SUBU $1,$1,1\n PBNZ $1,Again\n \
         SET $255,$0\n TRAP 0,Halt,0",
        b"bx#10c\nc\nb#10c\nM#108=#2300001027010101\nc\n",
        33,
        b"mmix> mmix> break x #000000000000010c\nmmix> mmix> M#0000000000000108=#2300001027010101\nmmix> ",
    ),
];

#[test]
fn instructions_that_were_typed_are_carried_out(rt: HostRuntime) -> Result<(), Fail> {
    all_halt(rt.alloc(), &["run", "-i", "patched.mms"], &TYPED)
}
