//! How to fix a fault, row by row: slips of readers who come from other machines, each with the lines that are to be said of it. The
//! operations are those of TAOCP 1, Fascicle 1.

use mx_view::list_faults;
use mx_word::NoMemory;
use std::alloc::Global;

/// A source, and lines that are said of a fault of it.
type Row = (&'static str, &'static str);

static ROWS: [Row; 20] = [
    // operations of other machines, in any case, and no question for another short name
    (
        "Main BEQ $0,$1,2\n",
        "    There is no operation `BEQ`.\n    CMP compares two, and BZ branches if the two are equal: CMP $0,$1,$2; BZ $0,Label.\n",
    ),
    (
        "Main mov $0,1\n",
        "    There is no operation `mov`.\n    SET copies a register or makes a number: SET $0,$1 or SET $0,5.\n",
    ),
    (
        "Main HALT\n",
        "    There is no operation `HALT`.\n    TRAP 0,Halt,0 ends the program.\n",
    ),
    (
        "Main JSR Sub\n",
        "    There is no operation `JSR`.\n    PUSHJ calls a subroutine: PUSHJ $2,Sub.\n",
    ),
    // short words with a digit for a letter, and with a letter at the end; and one with another letter
    (
        "Main ST0 $0,$1,0\n",
        "    There is no operation `ST0`.\n    Did you mean `STO`?\n",
    ),
    (
        "Main ADDD $0,$1,0\n",
        "    There is no operation `ADDD`.\n    Did you mean `ADD`?\n",
    ),
    (
        "Main SEX $0,1\n",
        "    There is no operation `SEX`.\n    Operations are in capitals.",
    ),
    // a label that is not in the first column; a comment after a mark; and Main with a colon
    (
        " Main SET $0,5\n",
        "    `Main` is not in the first column, so it is read as an operation.\n    A label begins in the first column of its line.\n",
    ),
    (
        "Main SET $0,5 ; set it\n",
        "    There is no operation `set`.\n    A ; begins the next statement. A comment after the operands needs no mark,",
    ),
    (
        "Main SET $0,5; ADDD $0,$0,1\n",
        "    There is no operation `ADDD`.\n    Did you mean `ADD`?\n",
    ),
    (
        "Main: SWYM 0\n",
        "    There is no label Main, where a program starts.\n    The label Main: has a colon: remove it.\n",
    ),
    // names that are defined further down: data, a sum, and an instruction
    (
        "Main LDA $0,Buf\nBuf BYTE 0\n",
        "    Define it before this line: data, with their GREG, go in front of the code.\n",
    ),
    (
        "Main LDA $0,Sub+4\nSub POP 0,0\n",
        "    Define it before this line: data, with their GREG, go in front of the code.\n",
    ),
    (
        "Main LDA $0,Sub\nSub POP 0,0\n",
        "    Define it before this line. LDA can give way to GETA, which does not need the value.\n",
    ),
    // addresses, and a number below 0
    (
        " LOC Data_Segment\nA OCTA 5\n LOC #100\nMain SET $1,A\n",
        "    Main SET $1,A\n                ^\n    `A` is an address, which has no room in an instruction.\n    LDA $1,A puts it into a register, and LDO $1,A loads the octa there.\n",
    ),
    (
        " LOC Data_Segment\nTable OCTA 5\n LOC #100\nMain ADD $0,$0,Table\n",
        "    LDA $1,Table puts it into a register, and LDO $1,Table loads the octa there.\n",
    ),
    (
        "sum IS $1\nMain ADD sum,sum,-1\n",
        "                     ^~\n    `-1` does not fit: a number can be 0 to 255 here.\n    Take SUB in place of ADD, or ADD in place of SUB, and the number without its minus.\n",
    ),
    // local labels: one further up, and none at all; and a label that is defined already
    (
        "1H SWYM 0\nMain BZ $0,1F\n",
        "    For the one further up write B in place of F, as 1B.\n",
    ),
    (
        "Main BZ $0,1F\n",
        "    Write its label in front of a later line, as 1H for 1F.\n",
    ),
    (
        "Main SWYM 0\nLoop SWYM 0\n SWYM 0\nLoop SWYM 0\n",
        "    `Loop` is defined already.\n    Take another name, or a local label as 2H, which can be defined again. It is the label of line 2.\n",
    ),
];

/// Sources whose fault is told by the very operands, or with a hint of its own.
static OPERANDS: [Row; 24] = [
    // one hint for each place where operands cease to be expressions
    (
        "Main SET $0,1.5\n",
        "                 ^\n    `.` does not belong here: a number has no point.\n    Only whole numbers can be written.",
    ),
    (
        "Main BYTE 0,,1\n",
        "                ^\n    `,` is not expected here: an operand is missing in front of it.\n    Write 0 for an operand",
    ),
    (
        "Main JMP 2H\n",
        "    `H` does not belong here: 2H is written only as a label.\n    An operand names the next label 2H by 2F, and the last one by 2B.\n",
    ),
    (
        "Main BYTE \"He said \"hi\"\"\n",
        "    `hi` does not belong here: a string ends at its next double quote.\n    For a double quote in a text write #22 outside of the string,",
    ),
    (
        "Main SWYM // nothing\n",
        "    `/` is read as an operand, and none can begin so.\n    Put an operand in front of a comment, as in SWYM 0 // nothing.\n",
    ),
    // numbers of SET: large, below 0, and far below 0
    (
        "Main SET $2,70000\n",
        "    Take SETML $2,70000>>16 and INCL $2,70000&#ffff.\n",
    ),
    ("Main SET $2,-1\n", "    Take NEG $2,1.\n"),
    (
        "Main SET $2,-1000\n",
        "    Take SET $2,1000 and NEG $2,$2.\n",
    ),
    // GETA that does not reach an address, which is known or comes later; and a branch
    (
        "Text BYTE 0\n LOC #100000\nMain GETA $255,Text\n",
        "    The target is too far away for GETA.\n    Use LDA $255,Text, with GREG @ in front of Text.\n",
    ),
    (
        "Main GETA $255,Text\n LOC Data_Segment\nText BYTE 0\n",
        "line 1: 85 FutureTooFar to line 3\n    Main GETA $255,Text\n              ^~~~~~~~~\n    The target is too far away for GETA.\n    Use LDA $255,Text, with GREG @ in front of Text, both above this line.\n",
    ),
    (
        "Main BZ $0,@+4*65536\n",
        "    The target is too far away.\n    Branch around a JMP,",
    ),
    // operations that take such operands, and a number that is taken for an address
    (
        "Main JMP $1\n",
        " GO $0,$1 goes to the address in a register.\n",
    ),
    (
        "Main STO 5,$1\n",
        "             ^\n    A number is given where a register is wanted.\n",
    ),
    ("Main STO 5,$1\n", " STCO 5,$1 stores a number up to 255.\n"),
    (
        "Main LDO $1,5\n",
        " 5 is an address here: SET $1,5 makes a number.\n",
    ),
    // marks of one operand: a number for a register, a register that there is not, and a sum
    (
        "Main ADD $9,5,$8\n",
        "    Main ADD $9,5,$8\n                ^\n    A number is given",
    ),
    (
        "Main ADD $9,$256,$8\n",
        "    Main ADD $9,$256,$8\n                ^~~~\n    There is no such register",
    ),
    (
        "Main ADD $9,$8+$7,1\n",
        "    Main ADD $9,$8+$7,1\n                  ^\n    The assembler cannot add",
    ),
    // labels that are like Main, and a name that lacks a letter
    (
        " LOC #100\nmain SWYM 0\n",
        "    There is no label Main, where a program starts.\n    The label `main` in line 2 begins with a small letter: write Main.\n",
    ),
    (
        "Mian SWYM 0\n",
        "    The label `Mian` in line 1 is no Main: write Main, if the program starts there.\n",
    ),
    (
        "Main JMP Lop\nLoop SWYM 0\n",
        "    `Lop` is not defined.\n    Did you mean `Loop`?\n",
    ),
    (
        "Main LDI $0,5\n",
        "    There is no operation `LDI`.\n    SET copies a register or makes a number: SET $0,$1 or SET $0,5.\n",
    ),
    // a character of two bytes, and no base
    (
        "Main BYTE '\u{e9}'\n",
        "    An apostrophe is not followed by one byte and an apostrophe.\n",
    ),
    (
        "Main LDO $0,Data_Segment\n",
        "    Write GREG @ right in front of the data, after their LOC,",
    ),
];

/// Whether a text has a part.
fn has(text: &[u8], part: &str) -> bool {
    let part = part.as_bytes();
    text.windows(part.len().max(1)).any(|it| it == part)
}

/// Whether lines are said of the faults of a source.
fn is_said(alloc: Global, source: &str, lines: &str) -> Result<bool, NoMemory> {
    Ok(has(
        list_faults(alloc, source.as_bytes())?.text.as_slice(),
        lines,
    ))
}

#[test]
fn advice(rt: HostRuntime) {
    for (source, lines) in &ROWS {
        assert!(rt; is_said(rt.alloc(), source, lines) == Ok(true), "{source}");
    }
}

#[test]
fn advice_by_operands(rt: HostRuntime) {
    for (source, lines) in &OPERANDS {
        assert!(rt; is_said(rt.alloc(), source, lines) == Ok(true), "{source}");
    }
}
