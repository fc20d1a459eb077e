//! Pseudo-operations.

use crate::row::{Entry, Topic};

/// Pseudo-operations.
pub(crate) static PSEUDO: [Entry; 9] = [
    (
        Topic::Operation,
        "IS",
        "its label <- v\n\
        Gives its label the value v, a number or a register, which then has a name.",
        "count IS $1;size IS 8",
        "",
    ),
    (
        Topic::Operation,
        "LOC",
        "@ <- v, and its label <- the old @\n\
        Sets the location: the address where the next byte is placed. Programs begin\n\
        at #100, data at Data_Segment.",
        " LOC #100;Main TRAP 0,Halt,0",
        "",
    ),
    (
        Topic::Operation,
        "PREFIX",
        "the prefix <- name\n\
        Every symbol after it that does not begin with a colon has this prefix, so\n\
        that the same name may be used again. PREFIX : takes it away.",
        " PREFIX List:;x IS 1; PREFIX :;y IS List:x",
        "",
    ),
    (
        Topic::Operation,
        "GREG",
        "its label <- a global register whose value is v when the program starts\n\
        Allocates a register, from $254 downwards. GREG @ in front of data makes a\n\
        base, by which loads and stores reach the next 256 bytes. A nonzero value\n\
        that an earlier GREG has shares its register. Without an operand the value\n\
        is 0, and not @.",
        " LOC Data_Segment; GREG @;k OCTA 5; LOC #100; LDO $0,k",
        "",
    ),
    (
        Topic::Operation,
        "LOCAL",
        "Says that the program uses $X as a local register. The source is refused\n\
        where GREG has been given that register.",
        " LOCAL $40",
        "",
    ),
    (
        Topic::Operation,
        "BYTE",
        "M1[@] <- v, @ <- @ + 1, for each v\n\
        Places bytes, 0 to 255 or -128 to -1. A string is each of its bytes, and has\n\
        no zero byte at its end unless you write one.",
        " BYTE \"Hello\",#a,0",
        "",
    ),
    (
        Topic::Operation,
        "WYDE",
        "M2[@] <- v, @ <- @ + 2, for each v\n\
        Raises @ to a multiple of 2, and places wydes, the high byte first.",
        " WYDE 1000,-1",
        "",
    ),
    (
        Topic::Operation,
        "TETRA",
        "M4[@] <- v, @ <- @ + 4, for each v\n\
        Raises @ to a multiple of 4, and places tetras, the high byte first.",
        " TETRA 100000",
        "",
    ),
    (
        Topic::Operation,
        "OCTA",
        "M8[@] <- v, @ <- @ + 8, for each v\n\
        Raises @ to a multiple of 8, and places octas, the high byte first. A value\n\
        may be a later label.",
        "Args OCTA Name,TextRead;Name BYTE \"in.txt\",0",
        "",
    ),
];
