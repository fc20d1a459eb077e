//! The last steps of a run, taken back: their lines, and the dump of where the machine comes to.

use crate::rows::{Due, FIRST, Given, comes_from, file, host, outcome_over};
use crate::shown::{has_all_lines, has_part};
use mx_top::Outcome;
use std::alloc::Global;
use std::test::Fail;

/// Two registers are set, the second one beyond L, and the machine stops.
const GROWS: &str = "Main SETL $2,7\n SETL $3,8\n FADD $0,$1,$2\n";

/// A source, words, the calls that fail, and what is due.
type Row = (
    &'static str,
    &'static [&'static str],
    &'static [u64],
    Due<'static>,
);

static LINES: [Row; 10] = [
    // the newest state first; a register beyond L goes with its L
    (
        GROWS,
        &["run", "--last", "2", "a.mms"],
        &[],
        Due {
            outcome: Outcome::Stopped { pc: 8, reason: 110 },
            output: b"steps 1 at #0000000000000004 L 3 G 255\nsteps 0 at #0000000000000000 L 2 G 255\n",
            errors: b"#0000000000000008: 110 Float\n",
        },
    ),
    // no more than were made; the last option counts
    (
        GROWS,
        &["run", "--last", "1", "--last", "1024", "a.mms"],
        &[],
        Due {
            outcome: Outcome::Stopped { pc: 8, reason: 110 },
            output: b"steps 1 at #0000000000000004 L 3 G 255\nsteps 0 at #0000000000000000 L 2 G 255\n",
            errors: b"#0000000000000008: 110 Float\n",
        },
    ),
    // not after a file trap that completed
    (
        "Main TRAP 0,Ftell,StdOut\n SWYM\n FADD $0,$1,$2\n",
        &["run", "--last", "5", "a.mms"],
        &[],
        Due {
            outcome: Outcome::Stopped { pc: 8, reason: 110 },
            output: b"steps 1 at #0000000000000004 L 2 G 255\n",
            errors: b"#0000000000000008: 110 Float\n",
        },
    ),
    (
        "Main TRAP 0,Ftell,StdOut\n FADD $0,$1,$2\n",
        &["run", "--last", "5", "a.mms"],
        &[],
        Due {
            outcome: Outcome::Stopped { pc: 4, reason: 110 },
            output: b"",
            errors: b"#0000000000000004: 110 Float\n",
        },
    ),
    // one that is refused changed nothing
    (
        "Main SWYM\n TRAP 0,11,0\n",
        &["run", "--last", "5", "a.mms"],
        &[],
        Due {
            outcome: Outcome::Stopped { pc: 4, reason: 124 },
            output: b"steps 0 at #0000000000000000 L 2 G 255\n",
            errors: b"#0000000000000004: 124 UnknownTrap\n",
        },
    ),
    // a program that halts took its last step
    (
        FIRST,
        &["run", "--last", "5", "a.mms"],
        &[],
        Due {
            outcome: Outcome::Done(3),
            output: b"hi\n",
            errors: b"",
        },
    ),
    // all steps were made
    (
        "Main JMP Main\n",
        &["run", "--steps", "5", "--last", "3", "a.mms"],
        &[],
        Due {
            outcome: Outcome::StepsSpent { steps: 5 },
            output: b"steps 4 at #0000000000000000 L 2 G 255\nsteps 3 at #0000000000000000 L 2 G 255\nsteps 2 at #0000000000000000 L 2 G 255\n",
            errors: b"5 steps spent\n",
        },
    ),
    // a call and its result: L is 1 before POP, 0 at the entry, and 2 before the call
    (
        "Main SETL $0,5\n PUSHJ $1,F\n FADD $0,$0,$0\nF SETL $0,9\n POP 1,0\n",
        &["run", "--last", "9", "a.mms"],
        &[],
        Due {
            outcome: Outcome::Stopped { pc: 8, reason: 110 },
            output: b"steps 3 at #0000000000000010 L 1 G 255\nsteps 2 at #000000000000000c L 0 G 255\nsteps 1 at #0000000000000004 L 2 G 255\nsteps 0 at #0000000000000000 L 2 G 255\n",
            errors: b"#0000000000000008: 110 Float\n",
        },
    ),
    // after a line that is not written there is no other, and no dump
    (
        GROWS,
        &["run", "--dump", "--last", "2", "a.mms"],
        &[3],
        Due {
            outcome: Outcome::HostFault,
            output: b"",
            errors: b"host fault\n",
        },
    ),
    (
        GROWS,
        &["run", "--dump", "--last", "2", "a.mms"],
        &[4],
        Due {
            outcome: Outcome::HostFault,
            output: b"steps 1 at #0000000000000004 L 3 G 255\n",
            errors: b"host fault\n",
        },
    ),
];

/// The words of the first row that does not come to what is due, if there is one.
fn first_other(
    alloc: Global,
    rows: &[Row],
) -> Result<Option<(&'static str, &'static [&'static str])>, Fail> {
    for (source, words, failing, due) in rows {
        let given = Given {
            failing,
            ..file("a.mms", source.as_bytes())
        };
        if !comes_from(alloc, given, words, *due)? {
            return Ok(Some((*source, *words)));
        }
    }
    Ok(None)
}

#[test]
fn each_state_that_comes_back_has_a_line(rt: HostRuntime) -> Result<(), Fail> {
    assert_eq!(rt; first_other(rt.alloc(), &LINES)?, None);
    Ok(())
}

/// What a call of the program writes to standard output.
fn output(alloc: Global, source: &str, words: &[&str]) -> Result<Vec<u8>, Fail> {
    let mut host = host(alloc, file("a.mms", source.as_bytes()))?;
    outcome_over(alloc, &mut host, words)?;
    Ok(Vec::from_slice(alloc, host.output())?)
}

#[test]
fn at_most_1024_states_come_back(rt: HostRuntime) -> Result<(), Fail> {
    let words = &["run", "--steps", "5000", "--last", "1024", "a.mms"];
    let lines = output(rt.alloc(), "Main JMP Main\n", words)?;
    assert!(rt; lines.starts_with(b"steps 4999 at #0000000000000000 L 2 G 255\nsteps 4998 at "));
    assert!(rt; lines.ends_with(b"\nsteps 3976 at #0000000000000000 L 2 G 255\n"));
    Ok(())
}

/// A source, how many steps are taken back, lines that the output then has, and a text that is not there.
type Shown = (
    &'static str,
    &'static str,
    &'static [&'static str],
    &'static str,
);

static DUMPS: [Shown; 7] = [
    // the dump is that of the state that was reached, the message that of the run
    (
        GROWS,
        "1",
        &[
            "steps 1 at #0000000000000004 L 3 G 255\nrB=",
            "rL=#0000000000000003",
            "$2=#0000000000000007",
        ],
        "$3=",
    ),
    // a look at rS goes back
    (
        "Main PUSHJ $99,@+4\n PUSHJ $99,@+4\n PUSHJ $99,@+4\n GET $255,rS\n FADD $0,$0,$0\n",
        "1",
        &["rO=#6000000000000960", "$255=#0000000000000000"],
        "rS=",
    ),
    // so does a page
    (
        "Main SETH $2,#2000\n STO $2,$2,0\n FADD $0,$0,$0\n",
        "1",
        &["$2=#2000000000000000"],
        "M#2000000000000000",
    ),
    // and a trip with all that it set
    (
        " LOC #20\n FADD $0,$0,$0\n LOC #100\nMain SETL $1,#4000\n PUT rA,$1\n NEG $0,0,1\n SRU $0,$0,1\n ADD $0,$0,1\n",
        "1",
        &[
            "steps 4 at #0000000000000110 L 2 G 255",
            "rB=#0000000000000000",
            "rC=#0000000000000004",
            "rA=#0000000000004000",
            "rW=#0000000000000000",
            "rX=#0000000000000000",
            "rY=#0000000000000000",
            "rZ=#0000000000000000",
            "$0=#7fffffffffffffff",
            "$255=#0000000000000100",
        ],
        "rB=#0000000000000100",
    ),
    // registers come back that are no longer global, and such as are no longer local
    (
        "Main PUT rG,40\n SETL $50,7\n PUT rG,60\n FADD $0,$0,$0\n",
        "1",
        &["rG=#0000000000000028", "$50=#0000000000000007"],
        "rG=#000000000000003c",
    ),
    (
        "Main SETL $1,16\n PUT rL,1\n FADD $0,$0,$0\n",
        "1",
        &["rL=#0000000000000002", "$1=#0000000000000010"],
        "rL=#0000000000000001",
    ),
    // the result of a call is in the called one's register again
    (
        "Main SETL $0,5\n PUSHJ $1,F\n FADD $0,$0,$0\nF SETL $0,9\n POP 1,0\n",
        "1",
        &[
            "rL=#0000000000000001",
            "$0=#0000000000000009",
            "rO=#6000000000000010",
        ],
        "$1=",
    ),
];

/// The source of the first row whose output is not as it says, if there is one.
fn first_unshown(alloc: Global, rows: &[Shown]) -> Result<Option<&'static str>, Fail> {
    for (source, last, lines, absent) in rows {
        let output = output(alloc, source, &["run", "--dump", "--last", last, "a.mms"])?;
        if !has_all_lines(output.as_slice(), lines)
            || has_part(output.as_slice(), absent.as_bytes())
        {
            return Ok(Some(*source));
        }
    }
    Ok(None)
}

#[test]
fn the_dump_is_that_of_the_state_that_was_reached(rt: HostRuntime) -> Result<(), Fail> {
    assert_eq!(rt; first_unshown(rt.alloc(), &DUMPS)?, None);
    Ok(())
}
