//! The faults of a source.

use mx_explain::{Entry, Topic};

/// Faults of a line.
pub(crate) static LINES: [Entry; 7] = [
    (
        Topic::Source(1),
        "",
        "A line may have 4,096 bytes, and this one has more, blanks and comments\n\
        included.",
        "a line of 4,097 blanks",
        "break it: a long list of data goes on in a further BYTE",
    ),
    (
        Topic::Source(2),
        "",
        "A label ends at a blank. It has letters, digits, colons and underlines, and\n\
        begins with none of the digits; what is in front of the first blank is no\n\
        label. If the line looks right, look for bytes that cannot be seen, above\n\
        all in line 1.",
        "Main, SWYM 0",
        "Main SWYM 0",
    ),
    (
        Topic::Source(3),
        "",
        "A label that begins with a digit is a local label: one digit and H, as 2H.",
        "2X SWYM 0",
        "2H SWYM 0",
    ),
    (
        Topic::Source(4),
        "",
        "An operation ends at a blank or a semicolon, and here another character\n\
        comes right after it. If it is no operation: in the first column it would be\n\
        a label.",
        " SET=1",
        " SET $0,1",
    ),
    (
        Topic::Source(5),
        "",
        "A string begins with a double quote and has to end with one on the same\n\
        line. It has no escapes; a double quote within a text is written as #22.",
        " BYTE \"ab",
        " BYTE \"ab\"",
    ),
    (
        Topic::Source(6),
        "",
        "A character constant is one byte between two single quotes. A text, and each\n\
        letter that takes several bytes, is a string in double quotes.",
        " BYTE 'ab'",
        " BYTE \"ab\"",
    ),
    (
        Topic::Source(7),
        "",
        "A word in the first column is a label, and nothing comes after it. Either it\n\
        is an operation, which needs a blank in front, or the label needs an\n\
        operation.",
        "Main",
        "Main IS @",
    ),
];

/// Faults of an expression.
pub(crate) static EXPRESSIONS: [Entry; 11] = [
    (
        Topic::Source(10),
        "",
        "The operands are no list of expressions. Operands contain no blanks: what\n\
        follows a blank is a comment. Numbers are decimal, or hexadecimal after\n\
        #; an operand such as 2B or 2F is a local label, and 2H never is one.",
        " BYTE 1,,2",
        " BYTE 1,0,2",
    ),
    (
        Topic::Source(11),
        "",
        "A constant is a number below 2^64, which is 18446744073709551616.",
        " OCTA 18446744073709551616",
        " OCTA 18446744073709551615",
    ),
    (
        Topic::Source(12),
        "",
        "The right side of / or % is 0. The assembler computes it, not the program:\n\
        look at the value of the symbol there.",
        " BYTE 1/0",
        " BYTE 1/1",
    ),
    (
        Topic::Source(13),
        "",
        "x//y is the fraction x/y, with its point at the left of an octa, so x has to\n\
        be less than y. The quotient of whole numbers is x/y.",
        " OCTA 3//3",
        " OCTA 2//3",
    ),
    (
        Topic::Source(14),
        "",
        "Only + and - work on registers; every other operator wants plain numbers. It\n\
        is the number of the register that the assembler would compute with, and\n\
        never what the register holds.",
        " BYTE $1*2",
        "x IS $(1*2)",
    ),
    (
        Topic::Source(15),
        "",
        "Two registers cannot be added by the assembler, which knows their numbers\n\
        only. The program adds what they hold, by ADD.",
        "x IS $1+$2",
        " ADD $3,$1,$2",
    ),
    (
        Topic::Source(16),
        "",
        "A register cannot be subtracted from a number by the assembler. The program\n\
        does that with what the register holds, by NEG or SUB.",
        "x IS 7-$2",
        " NEG $3,7,$2",
    ),
    (
        Topic::Source(17),
        "",
        "A symbol has to be known here, and no line up to this one defines it. Look\n\
        for a misspelling, for a register without its $, for a comment that was\n\
        taken for operands because these are missing, and for a prefix that is still\n\
        in force. Only a whole relative address and a whole operand of OCTA may be\n\
        known later; for LDA of a later label take GETA.",
        " BYTE later",
        "later IS 5; BYTE later",
    ),
    (
        Topic::Source(18),
        "",
        "More than 255 parentheses are open at once.",
        "256 open parentheses",
        "give a part of the expression a name by IS, and write that name",
    ),
    (
        Topic::Source(19),
        "",
        "A string has at least one byte. A text without bytes, as Fputs wants it, is\n\
        the zero byte alone.",
        " BYTE \"\"",
        " BYTE 0",
    ),
    (
        Topic::Source(21),
        "",
        "Registers are $0 to $255, and this comes to another number.",
        "x IS $256",
        "x IS $255",
    ),
];

/// Faults of a statement.
pub(crate) static STATEMENTS: [Entry; 8] = [
    (
        Topic::Source(30),
        "",
        "A symbol is defined once, and an earlier line has defined this one, maybe\n\
        under the same prefix. A label for a short way is better a local one, as 1H.",
        "x IS 1;x IS 2",
        "x IS 1;y IS 2",
    ),
    (
        Topic::Source(31),
        "",
        "MMIXAL defines this name itself, as it does rA, Halt and StdOut. The command\n\
        mmixview explain lists all of them. Under a prefix the name is free.",
        "Halt IS 0",
        "Stop IS 0",
    ),
    (
        Topic::Source(33),
        "",
        "A name with its prefix has more than 1,024 bytes.",
        "a label of 1,024 letters",
        "take a shorter one",
    ),
    (
        Topic::Source(39),
        "",
        "There is no operation of this name. Operations are in capitals. A label\n\
        begins in the first column: a word after a blank is an operation. A\n\
        semicolon begins the next statement, and no comment. If the name is that of\n\
        another machine, as MOV, ask mmixview explain what MMIX has in its place.",
        " SUBTRACT $0,$0,1",
        " SUB $0,$0,1",
    ),
    (
        Topic::Source(40),
        "",
        "The operation takes another number of operands, or operands of another form.\n\
        The command mmixview explain, with the name of the operation, shows its\n\
        form.",
        " ADD $1,$2",
        " ADD $1,$1,$2",
    ),
    (
        Topic::Source(41),
        "",
        "A register is wanted, and this is a number. Registers have a $ in front, or\n\
        are the symbol of an IS or GREG that gave them a name.",
        " ADD $1,2,3",
        " ADD $1,$2,3",
    ),
    (
        Topic::Source(42),
        "",
        "A number is wanted, and this is a register. What a register holds is known\n\
        to the program only when it runs, and to the assembler never.",
        " BYTE $1",
        " BYTE 1",
    ),
    (
        Topic::Source(43),
        "",
        "A number does not fit its place. Z of most instructions has room for 0 to\n\
        255, and SET for 16 bits, 0 to 65535; no instruction takes a negative\n\
        number. Put a larger one into a register first: by SET, by SETML and INCL,\n\
        or by a GREG; and one below 0 by NEG.",
        " ADD $0,$0,1000",
        " SET $1,1000; ADD $0,$0,$1",
    ),
];

/// Faults of addresses and labels.
pub(crate) static PLACES: [Entry; 6] = [
    (
        Topic::Source(44),
        "",
        "An address in memory is reached from a register that holds one at most 255\n\
        below it, and no GREG so far gives such a register. Write GREG @ right in\n\
        front of the data, after their LOC, and another one for every 256 bytes. The\n\
        address of a text in the program itself is put into a register by GETA. A\n\
        number alone is an address, too: SET $1,5 makes the number 5.",
        " LDO $0,Data_Segment",
        " LOC Data_Segment; GREG @;k OCTA 5; LOC #100; LDO $0,k",
    ),
    (
        Topic::Source(45),
        "",
        "A branch reaches from 65,536 instructions before to 65,535 after its own\n\
        place, and this target is further away. JMP reaches 256 times as far, so\n\
        branch around one on the opposite condition; GO reaches everything. GETA\n\
        reaches as far as a branch. For the address of data that are further away\n\
        use LDA, with GREG @ in front of the data.",
        " BZ $0,@+4*65536",
        " BNZ $0,@+8; JMP @+4*65535",
    ),
    (
        Topic::Source(46),
        "",
        "Branches, JMP, PUSHJ and GETA count distances in tetras, and this target is\n\
        no multiple of 4 away. Bring it there, as by a TETRA in front of a text; or\n\
        take LDA with a base.",
        " GETA $0,@+2",
        " GETA $0,@+4",
    ),
    (
        Topic::Source(47),
        "",
        "GREG gives the registers from $254 downwards, and the last one, $32, is\n\
        given. A GREG shares a register with an earlier one of the same nonzero\n\
        value.",
        "224 lines ` GREG 0`",
        "let addresses that lie near each other share a base",
    ),
    (
        Topic::Source(48),
        "",
        "PREFIX and LOCAL define nothing, so that they take no label.",
        "x PREFIX y:",
        " PREFIX y:",
    ),
    (
        Topic::Source(49),
        "",
        "A byte would lie at #6000000000000000 or above. Those addresses are the\n\
        register stack's, and the machine's own.",
        " LOC Stack_Segment; BYTE 1",
        " LOC Data_Segment; BYTE 1",
    ),
];

/// Faults of a source as a whole.
pub(crate) static SOURCES: [Entry; 11] = [
    (
        Topic::Source(80),
        "",
        "A name is used, and no line of the whole source defines it. Look for a\n\
        misspelling, for another prefix, and for a colon after the label: the colon\n\
        is a letter, so that Later: is another name than Later.",
        "Main JMP Later",
        "Main JMP Later;Later TRAP 0,Halt,0",
    ),
    (
        Topic::Source(81),
        "",
        "An operand such as 1F means the next 1H after its line, and there is none.\n\
        The last one before it is 1B.",
        "Main JMP 1F",
        "Main JMP 1F;1H TRAP 0,Halt,0",
    ),
    (
        Topic::Source(82),
        "",
        "A program starts at the label Main, and no line has it. Small letters are\n\
        others: main is another name. So is Main: with a colon, which is a letter.\n\
        Under a prefix it is written as :Main.",
        " SWYM 0",
        "Main SWYM 0",
    ),
    (
        Topic::Source(83),
        "",
        "Main is the place where the program starts, and here it is a register.",
        "Main IS $0",
        "Main SWYM 0",
    ),
    (
        Topic::Source(84),
        "",
        "An earlier line refers to this name as an address, and now it is a register.\n\
        Define registers above the lines that use them.",
        "Main JMP x;x IS $1",
        "x IS $1;Main GO $0,x",
    ),
    (
        Topic::Source(85),
        "",
        "An earlier line branches to this label, and it is further away than a branch\n\
        reaches: 65,535 instructions ahead. Branch around a JMP, which reaches 256\n\
        times as far. If it is GETA that takes the address of data, put the data\n\
        above this line, with GREG @ in front of them, and use LDA.",
        "Main BZ $0,x; LOC 4*65536;x SWYM 0",
        "Main BNZ $0,@+8; JMP x; LOC 4*65536;x SWYM 0",
    ),
    (
        Topic::Source(86),
        "",
        "An object holds the names of the source in 65,535 tetras, and these take\n\
        more.",
        "some 100,000 long names",
        "use local labels, as 1H, which are not in the object",
    ),
    (
        Topic::Source(87),
        "",
        "LOCAL asks that a register stays below those that GREG gives, and a GREG has\n\
        been given it, or one below it.",
        " LOCAL $254; GREG 0;Main SWYM 0",
        " LOCAL $253; GREG 0;Main SWYM 0",
    ),
    (
        Topic::Source(88),
        "",
        "A source may have 4,194,304 bytes, and the lines up to this one have more.",
        "a source of 5 MB",
        "cut comments, or make the data when the program runs",
    ),
    (
        Topic::Source(89),
        "",
        "An earlier line branches to this label, or takes its address by GETA, and\n\
        the distance is no multiple of 4.",
        "Main BZ $0,x;x IS 2",
        "Main BZ $0,x;x IS 4",
    ),
    (
        Topic::Source(90),
        "",
        "The program places bytes on more than 65,536 pages of 4,096 bytes, which are\n\
        all that the machine has. Only run and gen ask for that; asm does not.",
        "65,537 places far apart",
        "place them closer",
    ),
];
