//! Dumps.

use crate::rows::{FIRST, comes_from, due_done, file, host, outcome_over};
use crate::shown::has_part;
use std::alloc::Global;
use std::test::Fail;

/// What `run --dump first.mms` writes: the text, the special registers but rS, $0, $1 and $255, and
/// the octas of the program and of the pool.
const DUMPED: &str = "hi
rB=#0000000000000000
rD=#0000000000000000
rE=#0000000000000000
rH=#0000000000000000
rJ=#0000000000000000
rM=#0000000000000000
rR=#0000000000000000
rBB=#0000000000000003
rC=#0000000000000003
rN=#0100000000000000
rO=#6000000000000000
rI=#0000000000000000
rT=#8000000500000000
rTT=#8000000600000000
rK=#ffffffffffffffff
rQ=#0000000000000000
rU=#0000000000000000
rV=#369c200400000000
rG=#00000000000000ff
rL=#0000000000000002
rA=#0000000000000000
rF=#0000000000000000
rP=#0000000000000000
rW=#0000000000000000
rX=#0000000000000000
rY=#0000000000000000
rZ=#0000000000000000
rWW=#000000000000010c
rXX=#8000000000000701
rYY=#0000000000000000
rZZ=#4000000000000008
$0=#0000000000000001
$1=#4000000000000008
$255=#0000000000000003
M#0000000000000100=#68690a00f5ffffff
M#0000000000000108=#0000070100000000
M#4000000000000000=#4000000000000020
M#4000000000000008=#4000000000000018
M#4000000000000018=#6669727374000000
";

#[test]
fn the_first_program_is_dumped(rt: HostRuntime) -> Result<(), Fail> {
    let alloc = rt.alloc();
    let given = file("first.mms", FIRST.as_bytes());
    let due = due_done(3, DUMPED.as_bytes());
    assert!(rt; comes_from(alloc, given, &["run", "--dump", "first.mms"], due)?);
    Ok(())
}

/// Whether the dump of a source on a ring of 256 registers has this line.
fn shows(alloc: Global, source: &str, line: &str) -> Result<bool, Fail> {
    let mut host = host(alloc, file("a.mms", source.as_bytes()))?;
    outcome_over(alloc, &mut host, &["run", "--dump", "a.mms"])?;
    Ok(has_part(host.output(), line.as_bytes()))
}

/// Three calls that hide 100 registers each, and a look at rS.
const LOOKING: &str =
    "Main PUSHJ $99,@+4\n PUSHJ $99,@+4\n PUSHJ $99,@+4\n GET $255,rS\n TRAP 0,Halt,0";

/// The same without the look.
const BLIND: &str = "Main PUSHJ $99,@+4\n PUSHJ $99,@+4\n PUSHJ $99,@+4\n TRAP 0,Halt,0";

#[test]
fn rs_is_dumped_where_a_program_looked_at_it(rt: HostRuntime) -> Result<(), Fail> {
    let line = "rS=#6000000000000168\n";
    assert!(rt; shows(rt.alloc(), LOOKING, line)?);
    assert!(rt; !shows(rt.alloc(), BLIND, line)?);
    Ok(())
}
