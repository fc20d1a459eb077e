//! Warnings, row by row: for each a source that has it, and others that come near to it and do not. Places and lines are counted
//! by hand.

use mx_warn::{Warning, tell_warnings};
use std::alloc::Global;

/// A warning: its line, its number, its place in the line, and the other line that it is about, or 0.
type Due = (u32, u16, usize, u32);

/// A source, and its warnings.
type Row = (&'static str, &'static [Due]);

static OPERATORS: [Row; 9] = [
    ("x IS 5 * 8\nMain SWYM 0\n", &[(1, 1, 6, 0)]),
    (" LOC #100\nMain SET $0,1 + 1\n", &[(2, 1, 13, 0)]),
    ("Main BYTE 1 ,2\n", &[(1, 1, 11, 0)]),
    ("Main BYTE 1 // 2\n", &[(1, 1, 11, 0)]),
    // comments: in words, after two blanks, without a blank after the operator, with words after a number
    ("Main SWYM 0 - the end\n", &[]),
    ("Main SWYM 0  * 8\n", &[]),
    ("Main SL $0,$0,3 *8\n", &[]),
    ("Main SWYM 0 % 8 bytes\n", &[]),
    ("Main SET $0,1 -> next\n", &[]),
];

static BACKSLASHES: [Row; 3] = [
    ("Main BYTE \"a\\n\",0\n", &[(1, 2, 10, 0)]),
    // no letter of an escape follows; no string
    ("Main BYTE \"a\\b\\\",0\n", &[]),
    ("Main BYTE '\\','n' \\n\n", &[]),
];

static LOCALS: [Row; 5] = [
    ("Main JMP 1B\n", &[(1, 3, 9, 0)]),
    // the label of the statement itself is not before it
    ("1H JMP 1B\nMain SWYM 0\n", &[(1, 3, 7, 0)]),
    ("1H SWYM 0\nMain JMP 1B\n", &[]),
    ("1H SWYM 0;Main JMP 1B\n", &[]),
    // a hexadecimal number, and a string
    ("Main BYTE #1B,\"1B\"\n", &[]),
];

static OVERLAPS: [Row; 5] = [
    // an instruction on an instruction
    (
        " LOC #100\nMain SET $0,1\n LOC #100\n SET $1,2\n",
        &[(4, 4, 1, 2)],
    ),
    // data in a text that is too long for its place
    (
        " LOC #200\nText BYTE \"a long text\",0\n LOC #208\n BYTE 1,2\nMain SWYM 0\n",
        &[(4, 4, 1, 2)],
    ),
    // data laid over the beginning of data, data after zeros, and two bytes in one tetra
    (
        " LOC #200\nText BYTE 109,105\n LOC #200\n BYTE 32,32\n LOC #100\nMain SWYM 0\n",
        &[],
    ),
    (
        " LOC #200\nA OCTA 1,0\n LOC #208\n OCTA 2\nMain SWYM 0\n",
        &[],
    ),
    ("Main BYTE 1\n BYTE 2\n", &[]),
];

static GREGS: [Row; 6] = [
    (
        " LOC Data_Segment\n GREG\nText BYTE 1\n LOC #100\nMain SWYM 0\n",
        &[(2, 5, 1, 0)],
    ),
    (
        " LOC Data_Segment\n GREG 0\n\nText BYTE 1\n LOC #100\nMain SWYM 0\n",
        &[(2, 5, 1, 0)],
    ),
    // registers of a program, with a name and without
    (
        " LOC Data_Segment\na GREG\nText BYTE 1\n LOC #100\nMain SWYM 0\n",
        &[],
    ),
    (" GREG 0\n GREG 0\n LOC #100\nMain SWYM 0\n", &[]),
    // a register that is a base and gets no value; and one that gets it
    (
        " LOC Data_Segment\na GREG;k OCTA 5\n LOC #100\nMain LDO $0,a,0\n",
        &[(2, 5, 2, 0)],
    ),
    (
        " LOC Data_Segment\na GREG;k OCTA 5\n LOC #100\nMain SETH a,#2000; LDO $0,a,0\n",
        &[],
    ),
];

static BASES: [Row; 5] = [
    (
        " LOC Data_Segment\n GREG @\nText BYTE 1\n LOC #100\nMain SWYM 0\n",
        &[(2, 6, 1, 0)],
    ),
    // a base, a name, a number, and a source that is refused
    (
        " LOC Data_Segment\n GREG @\nText BYTE 1\n LOC #100\nMain LDA $0,Text\n",
        &[],
    ),
    (
        " LOC Data_Segment\nbase GREG @\nText BYTE 1\n LOC #100\nMain SET $0,base\n",
        &[],
    ),
    (
        " LOC Data_Segment\n GREG @\nText BYTE 1\n LOC #100\nMain SET $0,$254\n",
        &[],
    ),
    (
        " LOC Data_Segment\n GREG @\nText BYTE 1\n LOC #100\nMain FOO\n",
        &[],
    ),
];

static ENDS: [Row; 4] = [
    (
        " LOC #100\nMain SET $255,0\nText BYTE \"hi\",0\n",
        &[(2, 7, 5, 3)],
    ),
    // the program ends, or jumps over the data; and data before it
    (" LOC #100\nMain TRAP 0,Halt,1\nText BYTE 1\n", &[]),
    (
        " LOC #100\nMain JMP Next\nText BYTE 1,2,3,4\nNext SWYM 0\n",
        &[],
    ),
    (" LOC #100\nText BYTE 1,2,3,4\nMain SWYM 0\n", &[]),
];

static CASES: [Row; 4] = [
    ("Main JMP Loop\nloop SWYM 0\n", &[(2, 8, 0, 1)]),
    // a predefined symbol, two labels that are used, and a label beside another one that is used
    ("Main SWYM 0\nhalt TRAP 0,Halt,0\n", &[]),
    ("n IS 8\nN IS 9\nMain SET $0,n+N\n", &[]),
    ("n IS 8\nN IS 9\nMain SET $0,n\n", &[]),
];

static RETURNS: [Row; 5] = [
    (
        "Sub PUSHJ $0,Leaf\n POP 1,0\nLeaf POP 0,0\nMain PUSHJ $0,Sub\n",
        &[(2, 9, 1, 1)],
    ),
    // rJ is saved; the call is after a POP; nothing calls the label; UNSAVE leads out of the recursion
    (
        "Sub GET $1,rJ\n PUSHJ $2,Leaf\n PUT rJ,$1\n POP 0,0\nLeaf POP 0,0\nMain PUSHJ $0,Sub\n",
        &[],
    ),
    (
        "Sub BZ $0,1F\n POP 0,0\n1H PUSHJ $0,Leaf\n JMP Sub\nLeaf POP 0,0\nMain PUSHJ $0,Sub\n",
        &[],
    ),
    ("Leaf POP 0,0\nMain PUSHJ $0,Leaf\n POP 0,0\n", &[]),
    (
        "Sub PUSHJ $0,Leaf\n POP 1,0\nLeaf POP 0,0\nMain PUSHJ $0,Sub\n UNSAVE $0\n",
        &[],
    ),
];

static TRAPS: [Row; 6] = [
    (" LOC #100\nMain TRAP 0,Fputs\n", &[(2, 10, 12, 0)]),
    ("Main TRAP Fputs,StdOut\n", &[(1, 10, 10, 0)]),
    ("Main TRAP 1,Halt,0\n", &[(1, 10, 10, 0)]),
    // three operands, Halt without the third, and a number
    ("Main TRAP 0,Fputs,StdOut\n", &[]),
    ("Main TRAP 0,Halt\n", &[]),
    ("Main TRAP 1,2,3\n", &[]),
];

static STOPS: [Row; 6] = [
    ("Main JMP @\n", &[(1, 11, 9, 0)]),
    ("Main SWYM 0\nHere JMP Here\n", &[(2, 11, 9, 0)]),
    ("Main SWYM 0\n FLOT $0,1\n", &[(2, 12, 1, 0)]),
    ("Main LDSF $0,$1,0\n", &[(1, 12, 5, 0)]),
    // a jump to another line, and a branch
    ("Main SWYM 0\n JMP Main\n", &[]),
    ("Main BZ $0,@\n", &[]),
];

static WIDTHS: [Row; 4] = [
    (
        " LOC Data_Segment\n GREG @\nk TETRA 5\n LOC #100\nMain LDO $1,k\n",
        &[(5, 13, 12, 3)],
    ),
    (
        " LOC Data_Segment\n GREG @\nk WYDE 5\n LOC #100\nx IS $1\nMain STO x,k\n",
        &[(6, 13, 11, 3)],
    ),
    // a tetra as a tetra, and an octa
    (
        " LOC Data_Segment\n GREG @\nk TETRA 5\n LOC #100\nMain LDT $1,k\n",
        &[],
    ),
    (
        " LOC Data_Segment\n GREG @\nk OCTA 5\n LOC #100\nMain LDO $1,k\n",
        &[],
    ),
];

/// Whether a warning is what is due.
fn is_due(warning: &Warning, due: Due) -> bool {
    (
        warning.line,
        warning.kind.number(),
        warning.place,
        warning.other,
    ) == due
}

/// Whether warnings are what is due.
fn are_due(told: &[Warning], due: &[Due]) -> bool {
    let mut rest = told;
    for one in due {
        let [warning, more @ ..] = rest else {
            return false;
        };
        if !is_due(warning, *one) {
            return false;
        }
        rest = more;
    }
    rest.is_empty()
}

/// Whether a source has its warnings.
fn is_told(alloc: Global, row: &Row) -> bool {
    match tell_warnings(alloc, row.0.as_bytes()) {
        Ok(told) => are_due(told.as_slice(), row.1),
        Err(_) => false,
    }
}

/// The first row whose source has other warnings.
fn find_warning_mismatch(alloc: Global, rows: &[Row]) -> Option<usize> {
    rows.iter().position(|row| !is_told(alloc, row))
}

#[test]
fn operators_after_a_blank(rt: HostRuntime) {
    assert_eq!(rt; find_warning_mismatch(rt.alloc(), &OPERATORS), None);
}

#[test]
fn backslashes_in_strings(rt: HostRuntime) {
    assert_eq!(rt; find_warning_mismatch(rt.alloc(), &BACKSLASHES), None);
}

#[test]
fn local_labels_with_none_before(rt: HostRuntime) {
    assert_eq!(rt; find_warning_mismatch(rt.alloc(), &LOCALS), None);
}

#[test]
fn bytes_that_are_placed_twice(rt: HostRuntime) {
    assert_eq!(rt; find_warning_mismatch(rt.alloc(), &OVERLAPS), None);
}

#[test]
fn registers_of_zero_before_data(rt: HostRuntime) {
    assert_eq!(rt; find_warning_mismatch(rt.alloc(), &GREGS), None);
}

#[test]
fn bases_that_nothing_uses(rt: HostRuntime) {
    assert_eq!(rt; find_warning_mismatch(rt.alloc(), &BASES), None);
}

#[test]
fn data_after_code(rt: HostRuntime) {
    assert_eq!(rt; find_warning_mismatch(rt.alloc(), &ENDS), None);
}

#[test]
fn labels_in_another_case(rt: HostRuntime) {
    assert_eq!(rt; find_warning_mismatch(rt.alloc(), &CASES), None);
}

#[test]
fn subroutines_that_lose_their_return(rt: HostRuntime) {
    assert_eq!(rt; find_warning_mismatch(rt.alloc(), &RETURNS), None);
}

#[test]
fn calls_with_other_operands(rt: HostRuntime) {
    assert_eq!(rt; find_warning_mismatch(rt.alloc(), &TRAPS), None);
}

#[test]
fn instructions_that_a_run_does_not_get_past(rt: HostRuntime) {
    assert_eq!(rt; find_warning_mismatch(rt.alloc(), &STOPS), None);
}

#[test]
fn octas_at_labels_of_less(rt: HostRuntime) {
    assert_eq!(rt; find_warning_mismatch(rt.alloc(), &WIDTHS), None);
}
