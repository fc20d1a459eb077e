//! Rows of sessions of the debugger over the host in memory: lines, and what is answered.

mod calls;
mod faults;
mod followed;
mod steps;
mod values;

use face_debug::debug;
use mx_host::MemHost;
use std::alloc::Global;

/// The numbers 3, 2 and 1 are summed up, a text is printed, and the sum is doubled by a call. Turn 1 is SET, and turn 2. Of the loop
/// number i, from 0, ADD is turn 3 + 4i, STO 4 + 4i, SUB 5 + 4i and PBP 6 + 4i. LDA is turn 15, Fputs 16, SET 17 and PUSHJ 18; in
/// `Twice` GET is turn 19, ADD 20, PUT 21 and POP 22. SET is turn 23, and Halt 24. The text begins at #100.
pub static SUM: &str = "      LOC   Data_Segment
      GREG  @
Total OCTA  0
Text  BYTE  \"done\",10,0
      LOC   #100
k     IS    $1
sum   IS    $2
Main  SET   k,3
      SET   sum,0
Loop  ADD   sum,sum,k
      STO   sum,Total
      SUB   k,k,1
      PBP   k,Loop
      LDA   $255,Text
      TRAP  0,Fputs,StdOut
      SET   $4,sum
      PUSHJ $3,Twice
      SET   $255,$3
      TRAP  0,Halt,0
Twice GET   $1,rJ
      ADD   $0,$0,$0
      PUT   rJ,$1
      POP   1,0
";

/// What is shown of the start of `SUM`.
pub static SUM_START: &str = "step 0  sum.mms:8  Main  SET k,3
at the start
";

/// What is shown of the start of `CALLS`.
pub static CALLS_START: &str = "step 0  sum.mms:2  Main  SET $0,1
at the start
";

/// Lines, and what is answered after the start.
pub struct Row {
    pub lines: &'static str,
    pub answer: &'static str,
}

/// A host with a source in `sum.mms`, a file `lines`, one byte in `byte`, and these lines as standard input.
pub fn host(alloc: Global, source: &str, lines: &str) -> Option<MemHost> {
    let input = Vec::from_slice(alloc, lines.as_bytes()).ok()?;
    let mut host = MemHost::new(alloc, input, Vec::new(alloc)).ok()?;
    host.put_file(b"sum.mms", Vec::from_slice(alloc, source.as_bytes()).ok()?)
        .ok()?;
    host.put_file(b"lines", Vec::from_slice(alloc, b"s\nq\ns\n").ok()?)
        .ok()?;
    host.put_file(b"byte", Vec::from_slice(alloc, b"A").ok()?)
        .ok()?;
    Some(host)
}

/// The status that words come to.
pub fn status(alloc: Global, host: &mut MemHost, words: &[&str]) -> Option<u8> {
    let mut all = Vec::new(alloc);
    for word in words {
        all.push(String::from_str(alloc, word).ok()?).ok()?;
    }
    Some(debug(alloc, host, all.as_slice(), false).status())
}

/// Whether what was written is a start and an answer.
fn is_written(host: &MemHost, start: &str, answer: &str) -> bool {
    match host.output().strip_prefix(start.as_bytes()) {
        Some(rest) => rest == answer.as_bytes(),
        None => false,
    }
}

/// Whether a row is as it says.
fn is_so(alloc: Global, source: &str, start: &str, row: &Row) -> Option<bool> {
    let mut host = host(alloc, source, row.lines)?;
    let status = status(alloc, &mut host, &["sum.mms"])?;
    Some(status == 0 && host.errors().is_empty() && is_written(&host, start, row.answer))
}

/// The lines of the first row that is not as it says.
pub fn find_mismatch(
    alloc: Global,
    source: &str,
    start: &str,
    rows: &'static [Row],
) -> Option<&'static str> {
    for row in rows {
        if is_so(alloc, source, start, row) != Some(true) {
            return Some(row.lines);
        }
    }
    None
}
