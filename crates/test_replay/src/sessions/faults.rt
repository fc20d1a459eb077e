//! Options, and sessions that do not begin.

use crate::sessions::{host, status};
use std::alloc::Global;

/// What comes of words after `debug`.
struct Row {
    words: &'static [&'static str],
    source: &'static str,
    status: u8,
    output: &'static str,
    errors: &'static str,
}

/// It prints what it reads from its input, and then the file `byte`.
static ECHO: &str = " LOC Data_Segment
 GREG @
Letter BYTE 0,0
Name BYTE \"byte\",0
 LOC (@+7)&-8
Where OCTA Letter,1
Open OCTA Name,TextRead
 LOC #100
Main LDA $255,Where
 TRAP 0,Fread,StdIn
 LDA $255,Letter
 TRAP 0,Fputs,StdOut
 LDA $255,Open
 TRAP 0,Fopen,5
 LDA $255,Where
 TRAP 0,Fread,5
 LDA $255,Letter
 TRAP 0,Fputs,StdOut
 TRAP 0,Halt,0
";

/// The first byte of the file `lines` is `s`.
static ECHOED: &str = "step 0  sum.mms:9  Main  LDA $255,Where
at the start
sA
step 11  sum.mms:19  Main+40  TRAP 0,Halt,0
halted with status 1
";

static ROWS: [Row; 9] = [
    Row {
        words: &["--command", "lines", "sum.mms"],
        source: "Main SET $255,7\n TRAP 0,Halt,0\n",
        status: 0,
        output: "step 0  sum.mms:1  Main  SET $255,7
at the start
step 1  sum.mms:2  Main+4  TRAP 0,Halt,0
$255 = 7  (was 0)
",
        errors: "",
    },
    Row {
        words: &["--steps", "1", "--command", "lines", "sum.mms"],
        source: "Main SET $255,7\n TRAP 0,Halt,0\n",
        status: 0,
        output: "step 0  sum.mms:1  Main  SET $255,7
at the start
step 1  sum.mms:2  Main+4  TRAP 0,Halt,0
$255 = 7  (was 0)
1 steps spent: --steps allows more
",
        errors: "",
    },
    Row {
        words: &["sum.mms"],
        source: "Main FOO 1\n",
        status: 65,
        output: "line 1: 39 UnknownOpcode
    Main FOO 1
         ^~~
    There is no operation `FOO`.
    Operations are in capitals. A line of comment begins with *, and a ; begins the next statement.
",
        errors: "",
    },
    Row {
        words: &["none.mms"],
        source: "",
        status: 66,
        output: "",
        errors: "no file\n",
    },
    Row {
        words: &["--input", "none", "sum.mms"],
        source: "",
        status: 66,
        output: "",
        errors: "no file\n",
    },
    Row {
        words: &["--dump", "sum.mms"],
        source: "",
        status: 64,
        output: "",
        errors: "usage fault 3 UnknownOption at word 1\n",
    },
    Row {
        words: &["--file", "byte", "--ring", "300", "sum.mms"],
        source: "",
        status: 64,
        output: "",
        errors: "usage fault 6 BadRing at word 4\n",
    },
    Row {
        words: &["--file"],
        source: "",
        status: 64,
        output: "",
        errors: "usage fault 4 MissingValue at word 2\n",
    },
    Row {
        words: &[],
        source: "",
        status: 64,
        output: "",
        errors: "usage fault 7 MissingFile at word 1\n",
    },
];

/// Whether a row is as it says.
fn is_so(alloc: Global, row: &Row) -> Option<bool> {
    let mut host = host(alloc, row.source, "")?;
    let status = status(alloc, &mut host, row.words)?;
    Some(
        status == row.status
            && host.output() == row.output.as_bytes()
            && host.errors() == row.errors.as_bytes(),
    )
}

/// The number of the first row that is not as it says.
fn find_fault_mismatch(alloc: Global) -> Option<usize> {
    for (number, row) in ROWS.iter().enumerate() {
        if is_so(alloc, row) != Some(true) {
            return Some(number);
        }
    }
    None
}

#[test]
fn words_order_a_session_or_are_refused(rt: HostRuntime) {
    assert_eq!(rt; find_fault_mismatch(rt.alloc()), None);
}

/// What the program wrote that reads its input and a file.
fn is_echoed(alloc: Global) -> Option<bool> {
    let mut host = host(alloc, ECHO, "c\n")?;
    let words = ["--input", "lines", "--file", "byte", "sum.mms"];
    let status = status(alloc, &mut host, &words)?;
    Some(status == 0 && host.output() == ECHOED.as_bytes())
}

#[test]
fn the_program_finds_its_input_and_its_files(rt: HostRuntime) {
    assert_eq!(rt; is_echoed(rt.alloc()), Some(true));
}
