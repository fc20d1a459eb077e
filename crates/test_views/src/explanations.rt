//! What words mean, row by row: numbers and names of docs/MESSAGES.md; codes and costs of TAOCP 1, Fascicle 1, Table 1; values
//! of MMIXware's predefined symbols.

use face_explain::{Answer, explain, list};
use mx_explain::{Entry, Row as Meaning, Topic, row_of};
use mx_messages::warning_rows;
use mx_warn::{Warning, tell_warnings};
use mx_word::{Bytes, NoMemory};
use std::alloc::Global;

/// A word, and a part of what is answered.
type Row = (&'static str, &'static str);

static PARTS: [Row; 53] = [
    // by number and by name, in any case
    ("43", "43 Fit: a fault of a source\n"),
    ("Fit", "43 Fit: a fault of a source\n"),
    ("fIT", "43 Fit: a fault of a source\n"),
    ("117", "117 UnhandledTrip: a reason of a stop\n"),
    ("61", "61 NoPre: a fault of an object\n"),
    ("badring", "6 BadRing: a command-line error\n"),
    ("140", "140 NothingKept: a number inside the program\n"),
    ("39", "39 UnknownOpcode: a fault of a source\n"),
    ("unknownopcode", "  Fixed:     SUB $0,$0,1\n"),
    // warnings of a source
    ("7", "7 DataAfterCode: a warning of a source\n"),
    ("dataaftercode", "7 DataAfterCode: a warning of a source\n"),
    (
        "LostReturn",
        "  Keep rJ in a register by GET before the call",
    ),
    (
        "NoLabelBefore",
        "  Fixed:    Main JMP 1F;1H TRAP 0,Halt,0\n",
    ),
    // exit statuses
    ("0", "0 Done: an exit status\n"),
    ("66", "66 NoFile: an exit status\n"),
    ("stopped", "70 Stopped: an exit status\n"),
    ("74", "  Fixed:    mmixware run examples/hello.mms\n"),
    // a number and a name of several
    ("3", "3 BadLocal: a fault of a source\n"),
    ("3", "3 UnknownOption: a command-line error\n"),
    ("3", "3 NoLabelBefore: a warning of a source\n"),
    ("70", "70 Truncated: a fault of an object\n"),
    ("Twice", "30 Twice: a fault of a source\n"),
    ("Twice", "73 Twice: a fault of an object\n"),
    // operations of other machines
    (
        "BGT",
        "BGT: an operation of other machines\n  CMP compares two, and BP branches if the first is greater: CMP $0,$1,$2; BP $0,Label.\n",
    ),
    (
        "mov",
        "mov: an operation of other machines\n  SET copies a register or makes a number: SET $0,$1 or SET $0,5.\n",
    ),
    (
        "NOP",
        "NOP: an operation of other machines\n  SWYM does nothing.\n",
    ),
    // parts of the language that are no rows
    (
        "Main",
        "Main: a part of MMIXAL\n  A program starts at the label Main.",
    ),
    (
        "@",
        "@: a part of MMIXAL\n  The address of the statement in which it is,",
    ),
    ("1B", "1B: a part of MMIXAL\n  A local label."),
    ("2F", "1F in an operand is the next 1H after the\n"),
    // an example and how it is fixed
    ("80", "  Example:  Main JMP Later\n"),
    ("80", "  Fixed:    Main JMP Later;Later TRAP 0,Halt,0\n"),
    // how operations are written
    ("ADD", "  ADD $X,$Y,$Z|Z\n"),
    ("negu", "  NEGU $X,$Z|Z or $X,Y,$Z|Z\n"),
    ("FIX", "  FIX $X,$Z or $X,Y,$Z\n"),
    ("STCO", "  STCO X,$Y,$Z|Z or X,$Y or X,A\n"),
    ("SET", "SET: an instruction that the operands choose\n"),
    ("greg", "GREG: a pseudo-operation\n"),
    // codes
    ("ADD", "  Opcode:   #20, and #21 with Z as a number\n"),
    (
        "JMP",
        "  Opcode:   #f0, and #f1 for an address before its own\n",
    ),
    ("TRIP", "  Opcode:   #ff\n"),
    // costs
    ("MUL", "  Cost:     10υ\n"),
    ("DIVU", "  Cost:     60υ\n"),
    ("LDO", "  Cost:     1υ + 1μ\n"),
    ("CSWAP", "  Cost:     2υ + 2μ\n"),
    ("SAVE", "  Cost:     1υ + 20μ\n"),
    ("BZ", "  Cost:     1υ, and 3υ where the branch is taken\n"),
    ("PBZ", "  Cost:     3υ, and 1υ where the branch is taken\n"),
    // values
    ("StdOut", "  Value:    1\n"),
    ("ROUND_UP", "  Value:    2\n"),
    ("rj", "  Value:    4\n"),
    ("D_Handler", "  Value:    16\n"),
    ("Data_Segment", "  Value:    #2000000000000000\n"),
];

/// Words that are not explained, each with its line.
static UNKNOWN: [Row; 7] = [
    // a letter that is missing, wrong, or too many
    ("PUSJ", "error: PUSJ is not explained; near it: PUSHJ\n"),
    (
        "stdoud",
        "error: stdoud is not explained; near it: StdOut\n",
    ),
    ("PUSHJS", "error: PUSHJS is not explained; near it: PUSHJ\n"),
    ("wide1", "error: wide1 is not explained; near it: Wide\n"),
    // two letters, a number that none has, and no letters
    (
        "PUSHJSR",
        "error: PUSHJSR is not explained; mmixview explain lists all that is\n",
    ),
    (
        "043",
        "error: 043 is not explained; mmixview explain lists all that is\n",
    ),
    (
        "",
        "error:  is not explained; mmixview explain lists all that is\n",
    ),
];

/// Whether a text has a part.
fn has(text: &[u8], part: &str) -> bool {
    let part = part.as_bytes();
    text.windows(part.len().max(1)).any(|it| it == part)
}

/// Whether what a word means has a part.
fn is_explained(alloc: Global, word: &str, part: &str) -> bool {
    match explain(alloc, word) {
        Ok(Answer::Explained(text)) => has(text.as_slice(), part),
        _ => false,
    }
}

/// Whether a word is unknown with this line.
fn is_unknown(alloc: Global, word: &str, line: &str) -> bool {
    match explain(alloc, word) {
        Ok(Answer::Unknown(text)) => text.as_slice() == line.as_bytes(),
        _ => false,
    }
}

/// Whether the list has a part.
fn is_listed(alloc: Global, part: &str) -> bool {
    match list(alloc) {
        Ok(text) => has(text.as_slice(), part),
        Err(_) => false,
    }
}

#[test]
fn explanations(rt: HostRuntime) {
    for (word, part) in &PARTS {
        assert!(rt; is_explained(rt.alloc(), word, part), "{word}: {part}");
    }
}

#[test]
fn unknown_words(rt: HostRuntime) {
    for (word, line) in &UNKNOWN {
        assert!(rt; is_unknown(rt.alloc(), word, line), "{word}");
    }
}

/// Lines of the list: columns of three widths, and the last line of a part.
static LISTED: [&str; 6] = [
    "Faults of a line\n  1 TooLong               2 BadLabel              3 BadLocal\n",
    "Warnings of a source\n  1 OperatorAfterBlank    2 BackslashInString     3 NoLabelBefore\n",
    "Exit statuses\n  0 Done                  64 Usage                65 Refused\n",
    "Pseudo-operations\n  IS      LOC     PREFIX  GREG    LOCAL   BYTE    WYDE    TETRA   OCTA\n",
    "Special registers\n  rB      rD      rE      rH      rJ      rM      rR      rBB     rC\n",
    "  ROUND_OFF         ROUND_UP          ROUND_DOWN        ROUND_NEAR\n  Inf\n",
];

#[test]
fn listed_words(rt: HostRuntime) {
    for part in &LISTED {
        assert!(rt; is_listed(rt.alloc(), part), "{part}");
    }
}

/// An example as a source: in an example `;` means the end of a line.
fn source_of(alloc: Global, example: &str) -> Result<Bytes, NoMemory> {
    let mut source = Bytes::new(alloc);
    for b in example.as_bytes() {
        source.push(if *b == b';' { b'\n' } else { *b })?;
    }
    source.push(b'\n')?;
    Ok(source)
}

/// The name of the only warning; more than one, or none, has no name.
fn only_name(told: &[Warning]) -> &'static str {
    match told {
        [warning] => warning.kind.name(),
        _ => "",
    }
}

/// Whether the only warning of an example has this name, or whether it has no warning and the name is no text.
fn is_warned(alloc: Global, example: &str, name: &str) -> Result<bool, NoMemory> {
    let source = source_of(alloc, example)?;
    let told = tell_warnings(alloc, source.as_slice())?;
    let told = told.as_slice();
    Ok(told.is_empty() == name.is_empty() && only_name(told) == name)
}

/// Whether the example of a row has its warning and no other, and what is fixed has none.
fn is_shown(alloc: Global, row: Meaning) -> Result<bool, NoMemory> {
    let is_of_warning = matches!(row.topic, Topic::Warning(_));
    Ok(
        is_of_warning
            && is_warned(alloc, row.example, row.name)?
            && is_warned(alloc, row.mended, "")?,
    )
}

/// The name of the first row whose example, or what is fixed, has other warnings.
fn first_unshown(alloc: Global, entries: &[Entry]) -> Result<&'static str, NoMemory> {
    for entry in entries {
        let row = row_of(entry);
        if !is_shown(alloc, row)? {
            return Ok(row.name);
        }
    }
    Ok("")
}

#[test]
fn examples_of_warnings(rt: HostRuntime) {
    assert_eq!(rt;
        first_unshown(rt.alloc(), warning_rows()).unwrap_or("memory"),
        ""
    );
}
