//! The warnings of a source.

use mx_explain::{Entry, Topic};

/// Warnings of a source.
pub(crate) static WARNINGS: [Entry; 13] = [
    (
        Topic::Warning(1),
        "OperatorAfterBlank",
        "A blank ends the operands, and what follows it is a comment. Here the\n\
        comment looks like the rest of an expression: $255 gets 5, and not 40. Write\n\
        operands without blanks. If it is meant as a comment, and begins with an\n\
        operator or a comma, put two blanks in front of it.",
        "Main SET $255,5 * 8",
        "Main SET $255,5*8",
    ),
    (
        Topic::Warning(2),
        "BackslashInString",
        "A string has no escapes. Here \\n are two bytes, a backslash and the letter\n\
        n, and a program prints both. Write such a byte as a number after the\n\
        string: 10 for the end of a line, 9 for a tab, 0 for the end of the text.",
        "Main TRAP 0,Halt,0;Text BYTE \"hi\\n\",0",
        "Main TRAP 0,Halt,0;Text BYTE \"hi\",10,0",
    ),
    (
        Topic::Warning(3),
        "NoLabelBefore",
        "An operand such as 1B means the last label 1H before it. There is none, so\n\
        that 1B is 0, and the jump goes to address 0. For the next label 1H write\n\
        1F. A label of the same line does not count: for this line itself write @.",
        "Main JMP 1B;1H TRAP 0,Halt,0",
        "Main JMP 1F;1H TRAP 0,Halt,0",
    ),
    (
        Topic::Warning(4),
        "PlacedTwice",
        "An earlier line has placed bytes at the same address. Memory gets the\n\
        exclusive or of both, which is neither of them. Often a LOC leads back, or\n\
        what is in front of it takes more room than there is.",
        " LOC #100;Sub POP 1,0; LOC #100;Main SET $255,7",
        " LOC #100;Sub POP 1,0; LOC #200;Main SET $255,7",
    ),
    (
        Topic::Warning(5),
        "GregOfZero",
        "A GREG without an operand makes a register that holds 0. It is of no use as\n\
        the base of data, which has to hold their address. Write GREG @ in front of\n\
        the data: it holds the address where the next of them is placed.",
        " LOC Data_Segment;base GREG;k OCTA 5; LOC #100;Main LDO $255,base,0",
        " LOC Data_Segment;base GREG @;k OCTA 5; LOC #100;Main LDO $255,base,0",
    ),
    (
        Topic::Warning(6),
        "UnusedBase",
        "A GREG with an address makes a base. Instructions use it if they name the\n\
        register, or data from that address to 255 bytes after it. Here none does,\n\
        and the register is wasted. Leave the line out, or put it in front of the\n\
        data that it is for.",
        " LOC Data_Segment; GREG @;k OCTA 5; LOC #100;Main SET $255,5",
        " LOC Data_Segment; GREG @;k OCTA 5; LOC #100;Main LDO $255,k",
    ),
    (
        Topic::Warning(7),
        "DataAfterCode",
        "The machine carries out one tetra after another. After this instruction come\n\
        data, which it takes for instructions: it stops at one that is impossible,\n\
        or does what nobody has written. End the program by TRAP 0,Halt,0, or jump\n\
        around the data.",
        "Main SET $255,0;Five TETRA 5",
        "Main SET $255,0; TRAP 0,Halt,0;Five TETRA 5",
    ),
    (
        Topic::Warning(8),
        "OtherCase",
        "Small letters and capitals make different names: done is not Done. This\n\
        label is never used, and the other name is used and never defined. Write\n\
        both alike.",
        "Main JMP Done;done TRAP 0,Halt,0",
        "Main JMP Done;Done TRAP 0,Halt,0",
    ),
    (
        Topic::Warning(9),
        "LostReturn",
        "PUSHJ puts the address to return to into rJ. This subroutine calls another\n\
        one, which overwrites rJ, so that its own POP returns to the wrong place.\n\
        Keep rJ in a register by GET before the call, and put it back by PUT after\n\
        it.",
        "Main PUSHJ $0,A; TRAP 0,Halt,0;A PUSHJ $0,B; POP 0,0;B POP 0,0",
        "Main PUSHJ $0,A; TRAP 0,Halt,0;A GET $0,rJ; PUSHJ $1,B; PUT rJ,$0; POP 0,0;B POP 0,0",
    ),
    (
        Topic::Warning(10),
        "TrapOperands",
        "A service is called by 0, its name, and the handle of a file: TRAP\n\
        0,Fputs,StdOut. With two operands the second one is taken for Z, and Y is 0.\n\
        A number other than 0 in front calls no service either, and the run stops\n\
        with 124.",
        "Main GETA $255,Text; TRAP 0,Fputs; TRAP 0,Halt,0;Text BYTE \"hi\",0",
        "Main GETA $255,Text; TRAP 0,Fputs,StdOut; TRAP 0,Halt,0;Text BYTE \"hi\",0",
    ),
    (
        Topic::Warning(11),
        "EndlessJump",
        "@ is the address of the instruction itself, and so is the label of its line.\n\
        The jump goes there again and again, until the run has made all its steps.\n\
        End the program by TRAP 0,Halt,0.",
        "Main JMP @",
        "Main TRAP 0,Halt,0",
    ),
    (
        Topic::Warning(12),
        "FloatInstruction",
        "The assembler knows the instructions on floating-point numbers, but this\n\
        machine does not perform them: a run stops with 110. Compute with whole\n\
        numbers.",
        "Main FADD $0,$1,$2",
        "Main ADD $0,$1,$2",
    ),
    (
        Topic::Warning(13),
        "NarrowLabel",
        "LDO loads the eight bytes from a multiple of 8 on, and not only the four of\n\
        a TETRA or the two of a WYDE. LDT and LDW load those, and STT and STW store\n\
        them.",
        " LOC Data_Segment; GREG @;k TETRA 5; LOC #100;Main LDO $255,k",
        " LOC Data_Segment; GREG @;k TETRA 5; LOC #100;Main LDT $255,k",
    ),
];
