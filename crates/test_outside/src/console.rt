//! Sessions of the console.

use crate::row::check_outcome;
use mx_top::Outcome;
use std::alloc::Global;
use std::test::Fail;
use test_rows::{Due, FIRST, Given, HELLO, file};

/// A session: the source, the input, the outcome, and what is written.
type Session = (&'static str, &'static [u8], Outcome, &'static [u8]);

/// Checks that sessions come to their outcomes, with nothing on standard error.
fn all_come(alloc: Global, name: &str, sessions: &[Session]) -> Result<(), Fail> {
    for (source, input, outcome, output) in sessions {
        let given = Given {
            input,
            ..file(name, source.as_bytes())
        };
        let due = Due {
            outcome: *outcome,
            output,
            errors: b"",
        };
        check_outcome(alloc, given, &["run", "-i", name], due, *source)?;
    }
    Ok(())
}

/// Sessions of `hello.mms`.
static SHOWN: [Session; 9] = [
    // a break, a display, a change and a step
    (
        HELLO,
        b"bx#108\nc\n$1!\nM#2000000000000000\n$1=5\nn\nq\n",
        Outcome::Quit,
        b"mmix> mmix> hellobreak x #0000000000000108\nmmix> $1=4611686018427387912\nmmix> M#2000000000000000=#0000000000000000\nmmix> $1=#0000000000000005\nmmix> #0000000000000108 f4ff0003 GETA $255,#0000000000000114 $255=#0000000000000114\nmmix> ",
    ),
    // special registers are shown and changed, and memory
    (
        FIRST,
        b"rS\nq\n",
        Outcome::Quit,
        b"mmix> rS=#6000000000000000\nmmix> ",
    ),
    (
        FIRST,
        b"rM=1\nq\n",
        Outcome::Quit,
        b"mmix> rM=#0000000000000001\nmmix> ",
    ),
    (
        FIRST,
        b"M0=1\nq\n",
        Outcome::Quit,
        b"mmix> M#0000000000000000=#0000000000000001\nmmix> ",
    ),
    // there are 256 registers
    (
        FIRST,
        b"$300\nq\n",
        Outcome::Quit,
        b"mmix> ? no such register\nmmix> ",
    ),
    // no flags at the memory of the register stack
    (
        FIRST,
        b"bw#6000000000000000\nq\n",
        Outcome::Quit,
        b"mmix> ? bad address\nmmix> ",
    ),
    // the state before any step; the input may end in place of q
    (
        FIRST,
        b"s\n",
        Outcome::Quit,
        b"mmix> steps 0 at #0000000000000104 L 2 G 255\nmmix> ",
    ),
    (FIRST, b"", Outcome::Quit, b"mmix> "),
    // a program that halts ends its session
    (FIRST, b"c\nq\n", Outcome::Done(3), b"mmix> hi\n"),
];

#[test]
fn sessions_show_and_change(rt: HostRuntime) -> Result<(), Fail> {
    all_come(rt.alloc(), "hello.mms", &SHOWN)
}

/// An addition to $255 at #118 overflows and trips; rJ is 77.
const TRIPPING: &str =
    " LOC #20\n SWYM\n LOC #100\nMain SETL $1,#4000\n PUT rA,$1\n SETL $2,77\n PUT rJ,$2\n \
     NEG $0,0,1\n SRU $0,$0,1\n ADD $255,$0,1";

/// RESUME at #114 inserts ADDU $0,$0,1 as if it were at #1fc.
const INSERTING: &str =
    " LOC #100\nMain SETL $2,1\n INCML $2,#2300\n PUT rX,$2\n SETL $3,#200\n PUT rW,$3\n RESUME 0\n \
     LOC #1fc\n SWYM\n SET $255,$0\n TRAP 0,Halt,0";

/// Sessions with traces.
static TRACED: [Session; 2] = [
    // the trace has $255 as it is after the trip
    (
        TRIPPING,
        b"bx#118\nc\nn\nq\n",
        Outcome::Quit,
        b"mmix> mmix> break x #0000000000000118\nmmix> #0000000000000118 21ff0001 ADD $255,$0,1 $255=#000000000000004d -> #0000000000000020\nmmix> ",
    ),
    // a break and the trace look at the address of RESUME, and not at that of what is inserted
    (
        INSERTING,
        b"bx#1fc\nbx#114\nc\nn\nc\n",
        Outcome::Done(2),
        b"mmix> mmix> mmix> break x #0000000000000114\nmmix> #0000000000000114 f9000000 RESUME 0 $0=#0000000000000002 -> #0000000000000200\nmmix> ",
    ),
];

#[test]
fn sessions_trace_trips_and_insertions(rt: HostRuntime) -> Result<(), Fail> {
    all_come(rt.alloc(), "a.mms", &TRACED)
}

/// The input of a session with one step, and what is written.
static SPENT: [(&[u8], &[u8]); 2] = [
    // the second step is one too many
    (
        b"n\nn\n",
        b"mmix> #0000000000000104 f5ffffff GETA $255,#0000000000000100 $255=#0000000000000100\nmmix> ",
    ),
    (b"c\n", b"mmix> "),
];

#[test]
fn sessions_make_at_most_so_many_steps(rt: HostRuntime) -> Result<(), Fail> {
    for (input, output) in &SPENT {
        let due = Due {
            outcome: Outcome::StepsSpent { steps: 1 },
            output,
            errors: b"1 steps spent\n",
        };
        let given = Given {
            input,
            ..file("first.mms", FIRST.as_bytes())
        };
        let words = &["run", "--steps", "1", "-i", "first.mms"];
        check_outcome(rt.alloc(), given, words, due, *input)?;
    }
    Ok(())
}

/// The call of a session that fails, its outcome, and what is written on standard output and standard error.
static FAILING: [(u64, Outcome, &[u8], &[u8]); 5] = [
    // after the three calls of the source: the prompt, and a byte of a line
    (3, Outcome::HostFault, b"", b"host fault\n"),
    (4, Outcome::HostFault, b"mmix> ", b"host fault\n"),
    // the line that is written, and the next byte
    (9, Outcome::HostFault, b"mmix> ", b"host fault\n"),
    (
        11,
        Outcome::HostFault,
        b"mmix> rM=#0000000000000001\nmmix> ",
        b"host fault\n",
    ),
    // no such call is made
    (
        99,
        Outcome::Quit,
        b"mmix> rM=#0000000000000001\nmmix> ",
        b"",
    ),
];

#[test]
fn failing_calls_of_a_session(rt: HostRuntime) -> Result<(), Fail> {
    for (call, outcome, output, errors) in &FAILING {
        let given = Given {
            name: "first.mms",
            bytes: FIRST.as_bytes(),
            input: b"rM=1\nq\n",
            failing: &[*call],
        };
        let due = Due {
            outcome: *outcome,
            output,
            errors,
        };
        check_outcome(rt.alloc(), given, &["run", "-i", "first.mms"], due, *call)?;
    }
    Ok(())
}
