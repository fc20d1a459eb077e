//! Views, row by row. The tetras are worked out by hand from the tables of the book's codes (TAOCP 1, Fascicle 1).

use mx_view::{Sheet, list_faults, list_lines_at, listing};
use mx_word::NoMemory;

/// A source with a jump to a later label, and its listing.
static AHEAD: &str = " LOC #100
Main JMP Done
 SWYM 0
Done TRAP 0,Halt,0
";

static AHEAD_LISTED: &str = "                                 1:  LOC #100
#0000000000000100: f0000002      2: Main JMP Done
#0000000000000104: fd000000      3:  SWYM 0
#0000000000000108: 00000000      4: Done TRAP 0,Halt,0

symbol :Done #0000000000000108 2
symbol :Main #0000000000000100 1
";

/// Two lines that place bytes in one tetra, and the second in a further one.
static SHARED: &str = " LOC #102
Main BYTE 1
 BYTE 2,3
";

static SHARED_LISTED: &str = "                                 1:  LOC #102
#0000000000000100: 00000102      2: Main BYTE 1
#0000000000000100: 00000102      3:  BYTE 2,3
#0000000000000104: 03000000

symbol :Main #0000000000000102 1
";

static SHARED_FOUND: &str = "#0000000000000100: 00000102      2: Main BYTE 1
#0000000000000100: 00000102      3:  BYTE 2,3
";

/// Three statements of one line that place bytes in one tetra, which is shown once.
static ONE_TETRA: &str = " LOC #100
Main BYTE 1; BYTE 2; BYTE 3
";

static ONE_TETRA_LISTED: &str = "                                 1:  LOC #100
#0000000000000100: 01020300      2: Main BYTE 1; BYTE 2; BYTE 3

symbol :Main #0000000000000100 1
";

static ONE_TETRA_FOUND: &str = "#0000000000000100: 01020300      2: Main BYTE 1; BYTE 2; BYTE 3
";

/// A source that is refused has no memory: what its line places is joined.
static ONE_TETRA_REFUSED: &str = " BYTE 1; BYTE 2; BYTE 3
";

static ONE_TETRA_REFUSED_LISTED: &str = "#0000000000000000: 01020300      1:  BYTE 1; BYTE 2; BYTE 3
";

/// A character of two bytes counts as one, and so does a byte that is no UTF-8.
static CHARACTERS: &[u8] = b"f\xc3\xbc FOO
f\xfc FOO
\xe2\x82 FOO
";

static CHARACTERS_TOLD: &[u8] = b"line 1: 39 UnknownOpcode
    f\xc3\xbc FOO
       ^~~
    There is no operation `FOO`.
    Operations are in capitals. A line of comment begins with *, and a ; begins the next statement.
line 2: 39 UnknownOpcode
    f\xfc FOO
       ^~~
    There is no operation `FOO`.
    Operations are in capitals. A line of comment begins with *, and a ; begins the next statement.
line 3: 39 UnknownOpcode
    \xe2\x82 FOO
       ^~~
    There is no operation `FOO`.
    Operations are in capitals. A line of comment begins with *, and a ; begins the next statement.
line 3: 82 MainUndefined
    There is no label Main, where a program starts.
    Write Main in front of the first instruction, without a colon. Under a PREFIX it is :Main.
";

/// Faulty lines, with a line after them.
static FAULTY: &str = "x FOO
y BAR
 SWYM 0
";

static FAULTY_LISTED: &str = "                                 1: x FOO
";

static FAULTY_TOLD: &str = "line 1: 39 UnknownOpcode
    x FOO
      ^~~
    There is no operation `FOO`.
    Operations are in capitals. A line of comment begins with *, and a ; begins the next statement.
line 2: 39 UnknownOpcode
    y BAR
      ^~~
    There is no operation `BAR`.
    Operations are in capitals. A line of comment begins with *, and a ; begins the next statement.
line 3: 82 MainUndefined
    There is no label Main, where a program starts.
    Write Main in front of the first instruction, without a colon. Under a PREFIX it is :Main.
";

/// Faults of operands, after blanks and after a tab; one of the second statement of a line; a label without an
/// operation; a label that is defined twice; and a reference to no label.
static PLACED: &str = "Main  SET $0,70000
\tADD $0,$0
x SET $0,1; SET $0,70000
y SWYM 0;SET $0,5
 JMP nowhere
Main SWYM 0
";

static PLACED_TOLD: &str = "line 1: 43 Fit
    Main  SET $0,70000
                 ^~~~~
    `70000` does not fit: a number can be 0 to 65535 here.
    Take SETML $0,70000>>16 and INCL $0,70000&#ffff.
line 2: 40 Operands
    \tADD $0,$0
    \t    ^~~~~
    The operation does not take these operands.
    Count the operands: a blank ends them. ADD takes $X,$Y,$Z or $X,$Y,n.
line 3: 43 Fit
    x SET $0,1; SET $0,70000
    A number does not fit into its place.
    Put a number above 255 into a register: by SET up to 65535, by SETML and INCL above, by NEG below 0.
line 4: 7 NoOpcode
    y SWYM 0;SET $0,5
             ^~~
    `SET` is read as a label, and no operation follows it.
    Put a blank in front of an operation. For a label alone write IS @ after it.
line 5: 80 UndefinedSymbol
     JMP nowhere
         ^~~~~~~
    `nowhere` is not defined.
    Capitals and small letters differ. A colon is part of a name: Loop: is another label than Loop.
line 6: 30 Twice
    Main SWYM 0
    ^~~~
    `Main` is defined already.
    Take another name, or a local label as 2H, which can be defined again. It is the label of line 1.
";

/// The label of a faulty line stays: an address, a register or a number. So what refers to it is not told, and Main is there.
static LABELLED: &str = "n IS $1; the number
size IS 5,
Main ADD n,n,1000
 ADD n,n,size
1H BZ n,1B,1B
 BZ n,1B
 JMP Main
";

static LABELLED_TOLD: &str = "line 1: 39 UnknownOpcode
    n IS $1; the number
             ^~~
    There is no operation `the`.
    A ; begins the next statement. A comment after the operands needs no mark, and a line of comment begins with *.
line 2: 10 Syntax
    size IS 5,
             ^
    The operands end after `,`, where more has to follow.
    Operands contain no blanks: what follows a blank is a comment.
line 3: 43 Fit
    Main ADD n,n,1000
                 ^~~~
    `1000` does not fit: a number can be 0 to 255 here.
    Put it into a register first: by SET up to 65535, by NEG below 0.
line 5: 40 Operands
    1H BZ n,1B,1B
          ^~~~~~~
    The operation does not take these operands.
    Count the operands: a blank ends them. BZ takes $X,label.
";

/// A label that does not suit a reference is told at the reference, which is first here; and a line that has this label, too, and is
/// faulty for itself, is told for that.
static REFERRED: &str = "Main JMP x
x IS $1
x BYTE 256
";

static REFERRED_TOLD: &str = "line 1: 84 FutureRegister to line 2
    Main JMP x
             ^
    A label that is used here is made a register further down.
    Define the register before this line.
line 3: 43 Fit
    x BYTE 256
           ^~~
    `256` does not fit: a byte is 0 to 255.
    Take WYDE, TETRA or OCTA.
";

/// What is marked is the part of the operands that is wrong, and a name that is near it is named: a predefined name that is misspelt, after
/// one that is not; a label of an earlier and of a later line; a register without its mark; a number and a local label; the text at which an
/// expression has ended; and the second of two statements, whose operation is in small letters.
static MARKED: &str = "Main TRAP 0,Fputs,Stdout
Text BYTE \"a,b\",#100
 LDA $255,Text+Tixt
 SET r0,'x'
 SET $0,Late
 BZ $0,1F
 SET $0,0x100
 SWYM 0; set $0,1
Late OCTA Main,late
";

static MARKED_TOLD: &str = "line 1: 17 Future
    Main TRAP 0,Fputs,Stdout
                      ^~~~~~
    `Stdout` has no value here: no earlier line defines it.
    Did you mean `StdOut`?
    Look for a misspelling. Registers are written with $, as $0. A comment needs operands in front of it.
line 2: 43 Fit
    Text BYTE \"a,b\",#100
                    ^~~~
    `#100` does not fit: a byte is 0 to 255.
    Take WYDE, TETRA or OCTA.
line 3: 17 Future
     LDA $255,Text+Tixt
                   ^~~~
    `Tixt` has no value here: no earlier line defines it.
    Did you mean `Text`?
    Look for a misspelling. Registers are written with $, as $0. A comment needs operands in front of it.
line 4: 17 Future
     SET r0,'x'
         ^~
    `r0` has no value here: no earlier line defines it.
    Look for a misspelling. Registers are written with $, as $0. A comment needs operands in front of it.
line 5: 17 Future
     SET $0,Late
            ^~~~
    `Late` is defined further down, but its value is needed here.
    Define it before this line: data, with their GREG, go in front of the code.
line 6: 81 UndefinedLocal
     BZ $0,1F
           ^~
    `1F` refers to a local label further down, and there is none.
    Write its label in front of a later line, as 1H for 1F.
line 7: 10 Syntax
     SET $0,0x100
             ^~~~
    `x100` does not belong here: the number has ended in front of it.
    A hexadecimal number begins with #: write #ff for 0xff.
line 8: 39 UnknownOpcode
     SWYM 0; set $0,1
             ^~~
    There is no operation `set`.
    A ; begins the next statement. A comment after the operands needs no mark, and a line of comment begins with *.
line 9: 80 UndefinedSymbol
    Late OCTA Main,late
                   ^~~~
    `late` is not defined.
    Did you mean `Late`?
    Capitals and small letters differ. A colon is part of a name: Loop: is another label than Loop.
";

/// Whether this is what is shown.
fn is_shown(shown: Result<Sheet, NoMemory>, text: &str, accepted: bool) -> bool {
    match shown {
        Ok(sheet) => {
            sheet.text.as_slice() == text.as_bytes() && sheet.refused.is_none() == accepted
        }
        Err(_) => false,
    }
}

/// Whether these are the faults that are told.
fn are_told(told: Result<Sheet, NoMemory>, text: &[u8]) -> bool {
    match told {
        Ok(sheet) => sheet.text.as_slice() == text,
        Err(_) => false,
    }
}

#[test]
fn later_labels_are_known(rt: HostRuntime) {
    assert!(rt; is_shown(listing(rt.alloc(), AHEAD.as_bytes()), AHEAD_LISTED, true));
}

#[test]
fn bytes_share_a_tetra(rt: HostRuntime) {
    assert!(rt; is_shown(listing(rt.alloc(), SHARED.as_bytes()), SHARED_LISTED, true));
}

#[test]
fn listed_up_to_the_fault(rt: HostRuntime) {
    assert!(rt; is_shown(listing(rt.alloc(), FAULTY.as_bytes()), FAULTY_LISTED, false));
}

#[test]
fn lines_of_an_address(rt: HostRuntime) {
    assert!(rt;
        is_shown(
            list_lines_at(rt.alloc(), 0x103, SHARED.as_bytes()),
            SHARED_FOUND,
            true
        )
    );
}

#[test]
fn no_line_of_an_address(rt: HostRuntime) {
    assert!(rt;
        is_shown(
            list_lines_at(rt.alloc(), 0x108, SHARED.as_bytes()),
            "",
            true
        )
    );
}

#[test]
fn all_faults(rt: HostRuntime) {
    assert!(rt;
        is_shown(
            list_faults(rt.alloc(), FAULTY.as_bytes()),
            FAULTY_TOLD,
            false
        )
    );
}

#[test]
fn faults_with_places(rt: HostRuntime) {
    assert!(rt;
        is_shown(
            list_faults(rt.alloc(), PLACED.as_bytes()),
            PLACED_TOLD,
            false
        )
    );
}

#[test]
fn labels_of_faulty_lines_stay(rt: HostRuntime) {
    assert!(rt;
        is_shown(
            list_faults(rt.alloc(), LABELLED.as_bytes()),
            LABELLED_TOLD,
            false
        )
    );
}

#[test]
fn a_reference_is_at_fault(rt: HostRuntime) {
    assert!(rt;
        is_shown(
            list_faults(rt.alloc(), REFERRED.as_bytes()),
            REFERRED_TOLD,
            false
        )
    );
}

#[test]
fn parts_are_marked_and_near_names_named(rt: HostRuntime) {
    assert!(rt;
        is_shown(
            list_faults(rt.alloc(), MARKED.as_bytes()),
            MARKED_TOLD,
            false
        )
    );
}

#[test]
fn no_faults(rt: HostRuntime) {
    assert!(rt; is_shown(list_faults(rt.alloc(), AHEAD.as_bytes()), "", true));
}

#[test]
fn a_tetra_of_a_line_is_shown_once(rt: HostRuntime) {
    assert!(rt;
        is_shown(
            listing(rt.alloc(), ONE_TETRA.as_bytes()),
            ONE_TETRA_LISTED,
            true
        )
    );
}

#[test]
fn a_tetra_of_a_line_is_found_once(rt: HostRuntime) {
    assert!(rt;
        is_shown(
            list_lines_at(rt.alloc(), 0x101, ONE_TETRA.as_bytes()),
            ONE_TETRA_FOUND,
            true
        )
    );
}

#[test]
fn a_tetra_of_a_refused_line_is_joined(rt: HostRuntime) {
    assert!(rt;
        is_shown(
            listing(rt.alloc(), ONE_TETRA_REFUSED.as_bytes()),
            ONE_TETRA_REFUSED_LISTED,
            false
        )
    );
}

#[test]
fn carets_after_characters(rt: HostRuntime) {
    assert!(rt; are_told(list_faults(rt.alloc(), CHARACTERS), CHARACTERS_TOLD));
}
