//! The ring of registers: what does not depend on its size, and what does where a program looks.

use crate::rows::{Due, Given, comes_from, due_done, due_stopped, file};
use mx_top::Outcome;
use std::alloc::Global;
use std::test::Fail;

static RINGS: [&str; 4] = ["256", "512", "1024", "65536"];

/// Whether `run --ring` with this size comes to what is due of a source.
fn gives_on(alloc: Global, ring: &str, source: &str, due: Due) -> Result<bool, Fail> {
    let given = file("a.mms", source.as_bytes());
    comes_from(alloc, given, &["run", "--ring", ring, "a.mms"], due)
}

/// 1 + 2 + .. + 300 by calls 300 deep.
const DEEP: &str =
    " LOC #100\nMain SETL $1,300\n PUSHJ $0,Rec\n SET $255,$0\n TRAP 0,Halt,0\nRec BZ $0,1F\n GET $1,rJ\n SUBU $3,$0,1\n PUSHJ $2,Rec\n ADDU $0,$0,$2\n PUT rJ,$1\n POP 1,0\n1H POP 1,0";

#[test]
fn calls_go_deeper_than_the_ring(rt: HostRuntime) -> Result<(), Fail> {
    for ring in &RINGS {
        // 45,150 modulo 256
        assert!(rt;
            gives_on(rt.alloc(), ring, DEEP, due_done(94, b""))?,
            "{ring}"
        );
    }
    Ok(())
}

#[test]
fn the_stack_overfills_at_one_depth(rt: HostRuntime) -> Result<(), Fail> {
    for ring in &RINGS {
        let due = due_stopped(0, 114, b"#0000000000000000: 114 StackFull\n");
        assert!(rt;
            gives_on(rt.alloc(), ring, "Main PUSHJ $255,Main", due)?,
            "{ring}"
        );
    }
    Ok(())
}

/// How many blocks are generated, and the summary.
static GENERATED: [(&str, &[u8]); 3] = [
    ("1", b"blocks 1 bytes 222 steps 290 sum 33923\n"),
    ("10", b"blocks 10 bytes 854 steps 12571 sum 450159\n"),
    ("100", b"blocks 100 bytes 7293 steps 159353 sum 5378078\n"),
];

/// Whether generating this many blocks comes to this summary on each ring.
fn sums_up(alloc: Global, blocks: &str, summary: &[u8]) -> Result<bool, Fail> {
    let mut is_due = true;
    for ring in &RINGS {
        let words = &["gen", "--ring", ring, blocks];
        is_due = is_due && comes_from(alloc, file("a", b""), words, due_done(0, summary))?;
    }
    Ok(is_due)
}

#[test]
fn generated_programs(rt: HostRuntime) -> Result<(), Fail> {
    for (blocks, summary) in &GENERATED {
        assert!(rt; sums_up(rt.alloc(), blocks, summary)?, "{blocks}");
    }
    Ok(())
}

#[test]
fn summaries_that_cannot_be_written(rt: HostRuntime) -> Result<(), Fail> {
    let given = Given {
        failing: &[0],
        ..file("a", b"")
    };
    let due = Due {
        outcome: Outcome::HostFault,
        output: b"",
        errors: b"host fault\n",
    };
    assert!(rt; comes_from(rt.alloc(), given, &["gen", "1"], due)?);
    Ok(())
}
