//! What `count` writes, over the host in memory: the status, and standard output and standard error. The forms are those of
//! docs/mmixview.1; the costs are those of the book's table (TAOCP 1, Fascicle 1).

use face_count::count;
use mx_host::MemHost;
use std::alloc::Global;

/// What comes of words after `count`, where the host has a source in `a.mms`.
struct Row {
    shows: &'static str,
    words: &'static [&'static str],
    source: &'static str,
    status: u8,
    output: &'static str,
    errors: &'static str,
}

static ROWS: [Row; 9] = [
    Row {
        shows: "a table after the output, and the status of the program",
        words: &["a.mms"],
        source: "Main SET $255,7\n TRAP 0,Halt,0\n",
        status: 7,
        output: "
--------------------------------------------------------
      times       away       oops       mems
          1          0          1          0     1: Main SET $255,7
          1          0          5          0     2:  TRAP 0,Halt,0
          2          0          6          0  all steps
",
        errors: "",
    },
    Row {
        shows: "the same as JSON: a line with nothing to load has no figures",
        words: &["--json", "a.mms"],
        source: "* note\nMain SET $255,7\n TRAP 0,Halt,0\n",
        status: 7,
        output: "
{\"lines\":[{\"away\":null,\"line\":1,\"mems\":null,\"oops\":null,\"text\":\"* note\",\"times\":null},{\"away\":0,\"line\":2,\"mems\":0,\"oops\":1,\"text\":\"Main SET $255,7\",\"times\":1},{\"away\":0,\"line\":3,\"mems\":0,\"oops\":5,\"text\":\" TRAP 0,Halt,0\",\"times\":1}],\"outcome\":{\"message\":null,\"status\":7},\"refused\":null,\"total\":{\"away\":0,\"mems\":0,\"oops\":6,\"times\":2}}
",
        errors: "",
    },
    Row {
        shows: "a refused source has no table",
        words: &["a.mms"],
        source: "Main FOO 1\n",
        status: 65,
        output: "",
        errors: "line 1: 39 UnknownOpcode\n",
    },
    Row {
        shows: "a refused source as JSON, which nothing precedes",
        words: &["--json", "a.mms"],
        source: "Main FOO 1\n",
        status: 65,
        output: "{\"lines\":null,\"outcome\":{\"message\":\"line 1: 39 UnknownOpcode\",\"status\":65},\"refused\":{\"fault\":39,\"from_line\":null,\"line\":1,\"name\":\"UnknownOpcode\"},\"total\":null}\n",
        errors: "line 1: 39 UnknownOpcode\n",
    },
    Row {
        shows: "a missing file as JSON",
        words: &["--json", "b.mms"],
        source: "",
        status: 66,
        output: "{\"lines\":null,\"outcome\":{\"message\":\"no file\",\"status\":66},\"refused\":null,\"total\":null}\n",
        errors: "no file\n",
    },
    Row {
        shows: "an option of run that count has not",
        words: &["--ring", "256", "--dump", "a.mms"],
        source: "",
        status: 64,
        output: "",
        errors: "usage fault 3 UnknownOption at word 3\n",
    },
    Row {
        shows: "the first fault from the left counts, and --json is a word",
        words: &["--json", "--ring", "300", "-i", "a.mms"],
        source: "",
        status: 64,
        output: "",
        errors: "usage fault 6 BadRing at word 3\n",
    },
    Row {
        shows: "no file is named",
        words: &[],
        source: "",
        status: 64,
        output: "",
        errors: "usage fault 7 MissingFile at word 1\n",
    },
    Row {
        shows: "steps that are spent",
        words: &["--steps", "1", "a.mms"],
        source: "Main JMP Main\n",
        status: 75,
        output: "
--------------------------------------------------------
      times       away       oops       mems
          1          1          1          0     1: Main JMP Main
          1          1          1          0  all steps
",
        errors: "1 steps spent\n",
    },
];

/// A host with this source.
fn host(alloc: Global, source: &str) -> Option<MemHost> {
    let mut host = MemHost::new(alloc, Vec::new(alloc), Vec::new(alloc)).ok()?;
    host.put_file(b"a.mms", Vec::from_slice(alloc, source.as_bytes()).ok()?)
        .ok()?;
    Some(host)
}

/// The status that words come to.
fn status(alloc: Global, host: &mut MemHost, words: &[&str]) -> Option<u8> {
    let mut all = Vec::new(alloc);
    for word in words {
        all.push(String::from_str(alloc, word).ok()?).ok()?;
    }
    Some(count(alloc, host, all.as_slice()).status())
}

/// Whether a row is as it says.
fn is_so(alloc: Global, row: &Row) -> Option<bool> {
    let mut host = host(alloc, row.source)?;
    let status = status(alloc, &mut host, row.words)?;
    Some(
        status == row.status
            && host.output() == row.output.as_bytes()
            && host.errors() == row.errors.as_bytes(),
    )
}

/// The first row that is not as it says.
fn find_count_mismatch(alloc: Global, rows: &'static [Row]) -> Option<&'static str> {
    for row in rows {
        if is_so(alloc, row) != Some(true) {
            return Some(row.shows);
        }
    }
    None
}

#[test]
fn counts_over_a_host(rt: HostRuntime) {
    assert_eq!(rt; find_count_mismatch(rt.alloc(), &ROWS), None);
}
