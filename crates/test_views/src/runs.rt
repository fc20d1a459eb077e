//! Runs that are counted, over the host in memory: what is on standard output, the outcome, and the sheet.

use mx_begin::collect_arguments;
use mx_count::{Counted, CountedLines, LineSheet, Tally, count_lines, count_source};
use mx_host::MemHost;
use mx_outcome::Outcome;
use mx_words::read;
use std::alloc::Global;

/// The source prints a text and halts: LDA and SET cost υ, and each TRAP 5υ, also the one that halts.
static PRINTS: &str = " LOC Data_Segment
 GREG @
Text BYTE \"hi\",#a,0
 LOC #100
Main LDA $255,Text
 TRAP 0,Fputs,StdOut
 SET $255,3
 TRAP 0,Halt,0
";

/// A host without files.
fn host(alloc: Global) -> Option<MemHost> {
    MemHost::new(alloc, Vec::new(alloc), Vec::new(alloc)).ok()
}

/// What a source comes to that is run and counted by these words.
fn counted(alloc: Global, host: &mut MemHost, source: &str, words: &[&str]) -> Option<Counted> {
    let mut all = Vec::new(alloc);
    for word in words {
        all.push(String::from_str(alloc, word).ok()?).ok()?;
    }
    let order = read(all.as_slice()).ok()?;
    let given = collect_arguments(alloc, all.as_slice(), &order).ok()?;
    Some(count_source(alloc, host, &order, source.as_bytes(), given.as_slice()))
}

/// The outcome, whether the output is this, and whether the sheet ends so; nothing is due where there is none.
fn comes_to(
    alloc: Global,
    source: &str,
    words: &[&str],
    output: &str,
    last: &str,
) -> Option<(Outcome, bool, bool)> {
    let mut host = host(alloc)?;
    let counted = counted(alloc, &mut host, source, words)?;
    let ends = match &counted.sheet {
        Some(sheet) => !last.is_empty() && sheet.as_slice().ends_with(last.as_bytes()),
        None => last.is_empty(),
    };
    Some((counted.outcome, host.output() == output.as_bytes(), ends))
}

#[test]
fn a_run_that_halts(rt: HostRuntime) {
    let last = "          4          0         12          0  all steps\n";
    let got = comes_to(rt.alloc(), PRINTS, &["run", "a.mms"], "hi\n", last);
    assert_eq!(rt; got, Some((Outcome::Done(3), true, true)));
}

#[test]
fn a_run_whose_steps_are_spent(rt: HostRuntime) {
    let last = "          1          0          1          0  all steps\n";
    let got = comes_to(
        rt.alloc(),
        PRINTS,
        &["run", "--steps", "1", "a.mms"],
        "",
        last,
    );
    assert_eq!(rt; got, Some((Outcome::StepsSpent { steps: 1 }, true, true)));
}

#[test]
fn a_refused_source(rt: HostRuntime) {
    let got = comes_to(rt.alloc(), "x FOO\n", &["run", "a.mms"], "", "");
    let refused = Outcome::Refused {
        line: 1,
        fault: 39,
        from_line: 0,
    };
    assert_eq!(rt; got, Some((refused, true, true)));
}

/// What the source comes to that is run and counted line by line.
fn counted_lines(alloc: Global, host: &mut MemHost) -> Option<CountedLines> {
    let mut all = Vec::new(alloc);
    all.push(String::from_str(alloc, "run").ok()?).ok()?;
    all.push(String::from_str(alloc, "a.mms").ok()?).ok()?;
    let order = read(all.as_slice()).ok()?;
    let given = collect_arguments(alloc, all.as_slice(), &order).ok()?;
    Some(count_lines(alloc, host, &order, PRINTS.as_bytes(), given.as_slice()))
}

/// The tallies of line 1, of line 5, of line 8 and of all steps.
type Tallies = (Option<Tally>, Option<Tally>, Option<Tally>, Tally);

fn tallies(sheet: &LineSheet) -> Option<Tallies> {
    let lines = sheet.lines.as_slice();
    Some((
        lines.first()?.tally,
        lines.get(4)?.tally,
        lines.get(7)?.tally,
        sheet.total,
    ))
}

/// The outcome, and these tallies.
fn comes_to_lines(alloc: Global) -> Option<(Outcome, Tallies)> {
    let mut host = host(alloc)?;
    let counted = counted_lines(alloc, &mut host)?;
    let tallies = tallies(counted.sheet.as_ref()?)?;
    Some((counted.outcome, tallies))
}

#[test]
fn lines_as_data(rt: HostRuntime) {
    let once = Tally {
        times: 1,
        away: 0,
        oops: 1,
        mems: 0,
    };
    let halt = Tally {
        times: 1,
        away: 0,
        oops: 5,
        mems: 0,
    };
    let all = Tally {
        times: 4,
        away: 0,
        oops: 12,
        mems: 0,
    };
    assert_eq!(rt;
        comes_to_lines(rt.alloc()),
        Some((Outcome::Done(3), (None, Some(once), Some(halt), all)))
    );
}
