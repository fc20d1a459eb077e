//! Special registers.

use crate::row::{Entry, Topic};

/// Special registers.
pub(crate) static REGISTERS: [Entry; 16] = [
    (
        Topic::Symbol,
        "rB",
        "The bootstrap register of trips. A trip keeps $255 here, and its handler\n\
        puts it back by GET $255,rB in front of RESUME 0.",
        " GET $255,rB",
        "",
    ),
    (
        Topic::Symbol,
        "rD",
        "The dividend register: the high octa of what DIVU divides. It is 0 unless\n\
        you set it.",
        " PUT rD,0",
        "",
    ),
    (
        Topic::Symbol,
        "rE",
        "The epsilon register of FCMPE, FUNE and FEQLE. This machine keeps it and\n\
        never uses it.",
        "",
        "",
    ),
    (
        Topic::Symbol,
        "rH",
        "The himult register: MULU leaves the high octa of the product here.",
        " MULU $0,$1,$2; GET $3,rH",
        "",
    ),
    (
        Topic::Symbol,
        "rJ",
        "The return-jump register: PUSHJ and PUSHGO put the address of the next\n\
        instruction here, and POP goes there. A subroutine that calls another keeps\n\
        it and puts it back.",
        " GET $0,rJ; PUSHJ $1,Sub; PUT rJ,$0; POP 0,0;Sub POP 0,0",
        "",
    ),
    (
        Topic::Symbol,
        "rM",
        "The multiplex mask of MUX: its ones choose $Y, its zeros $Z.",
        " PUT rM,$3; MUX $0,$1,$2",
        "",
    ),
    (
        Topic::Symbol,
        "rR",
        "The remainder register: DIV and DIVU leave the remainder here.",
        " DIV $0,$1,10; GET $2,rR",
        "",
    ),
    (
        Topic::Symbol,
        "rBB",
        "The bootstrap register of traps. A file trap leaves its result here and in\n\
        $255.",
        "",
        "",
    ),
    (
        Topic::Symbol,
        "rC",
        "The cycle counter: how many steps were made before this one. PUT cannot\n\
        change it.",
        " GET $0,rC",
        "",
    ),
    (
        Topic::Symbol,
        "rN",
        "The serial number of the machine, #0100000000000000. It is fixed.",
        "",
        "",
    ),
    (
        Topic::Symbol,
        "rO",
        "The register stack offset: where the next hidden register goes in memory.",
        "",
        "",
    ),
    (
        Topic::Symbol,
        "rS",
        "The register stack pointer: the register stack below it lies in memory. A\n\
        program that looks at it sees the size of the ring.",
        "",
        "",
    ),
    (
        Topic::Symbol,
        "rI",
        "The interval counter of an operating system. Here it is 0 and fixed.",
        "",
        "",
    ),
    (
        Topic::Symbol,
        "rT",
        "The trap address register of an operating system. Here it is fixed.",
        "",
        "",
    ),
    (
        Topic::Symbol,
        "rTT",
        "The dynamic trap address register of an operating system. Here it is fixed.",
        "",
        "",
    ),
    (
        Topic::Symbol,
        "rK",
        "The interrupt mask of an operating system. Here all its bits are 1, and it\n\
        is fixed.",
        "",
        "",
    ),
];

/// More special registers.
pub(crate) static MORE_REGISTERS: [Entry; 16] = [
    (
        Topic::Symbol,
        "rQ",
        "The interrupt request register of an operating system. Here it is 0 and\n\
        fixed.",
        "",
        "",
    ),
    (
        Topic::Symbol,
        "rU",
        "The usage counter of an operating system. Here it is 0 and fixed.",
        "",
        "",
    ),
    (
        Topic::Symbol,
        "rV",
        "The virtual translation register of an operating system. Here it is fixed.",
        "",
        "",
    ),
    (
        Topic::Symbol,
        "rG",
        "The global threshold G: registers from $G on are global. GREG lowers it\n\
        before the program starts, and PUT takes 32 to 255, and nothing below L.",
        " GET $0,rG",
        "",
    ),
    (
        Topic::Symbol,
        "rL",
        "The local threshold L: registers below $L are local, and those between L and\n\
        G read as 0. To write one of these raises L; PUT can only lower it.",
        " PUT rL,0",
        "",
    ),
    (
        Topic::Symbol,
        "rA",
        "The arithmetic status register. Its low byte has a bit for each event that\n\
        happened, D_BIT down to X_BIT; the byte above it has the same bits, which\n\
        make an event trip.",
        " PUT rA,0",
        "",
    ),
    (
        Topic::Symbol,
        "rF",
        "The failure location register of the hardware. This machine keeps it and\n\
        never uses it.",
        "",
        "",
    ),
    (
        Topic::Symbol,
        "rP",
        "The prediction register: what CSWAP expects in memory, and what it found\n\
        otherwise.",
        " PUT rP,$3; CSWAP $0,$1,$2",
        "",
    ),
    (
        Topic::Symbol,
        "rW",
        "The where-interrupted register of trips: RESUME 0 goes back to this address.",
        "",
        "",
    ),
    (
        Topic::Symbol,
        "rX",
        "The execution register of trips. Its low tetra is the instruction that\n\
        tripped, and its top bit is 1; where that is 0, RESUME 0 performs the\n\
        instruction there.",
        "",
        "",
    ),
    (
        Topic::Symbol,
        "rY",
        "The Y operand of the instruction that tripped; for a store it is the\n\
        address.",
        "",
        "",
    ),
    (
        Topic::Symbol,
        "rZ",
        "The Z operand of the instruction that tripped; for a store it is what is\n\
        stored.",
        "",
        "",
    ),
    (
        Topic::Symbol,
        "rWW",
        "The where-interrupted register of traps: the address after the TRAP.",
        "",
        "",
    ),
    (
        Topic::Symbol,
        "rXX",
        "The execution register of traps: the TRAP in its low tetra, and the top bit\n\
        is 1.",
        "",
        "",
    ),
    (
        Topic::Symbol,
        "rYY",
        "The Y operand of a TRAP: what was in its register $Y.",
        "",
        "",
    ),
    (
        Topic::Symbol,
        "rZZ",
        "The Z operand of a TRAP: what was in its register $Z.",
        "",
        "",
    ),
];
