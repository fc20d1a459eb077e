//! Instructions on bits, bytes and wydes.

use mx_explain::{Entry, Topic};

/// Instructions on bits.
pub(crate) static BITS: [Entry; 8] = [
    (
        Topic::Operation,
        "OR",
        "v($X) <- v($Y) or v($Z)\n\
        Each bit is 1 where one of both is 1, or both are.",
        " OR $0,$1,$2",
        "",
    ),
    (
        Topic::Operation,
        "ORN",
        "v($X) <- v($Y) or not v($Z)\n\
        Each bit is 1 where that of $Y is 1, or that of $Z is 0.",
        " ORN $0,$1,$2",
        "",
    ),
    (
        Topic::Operation,
        "NOR",
        "v($X) <- not (v($Y) or v($Z))\n\
        Each bit is 1 where both are 0. With 0 for $Z it is the complement of $Y.",
        " NOR $0,$0,0",
        "",
    ),
    (
        Topic::Operation,
        "XOR",
        "v($X) <- v($Y) xor v($Z)\n\
        Each bit is 1 where the two differ.",
        " XOR $0,$0,1",
        "",
    ),
    (
        Topic::Operation,
        "AND",
        "v($X) <- v($Y) and v($Z)\n\
        Each bit is 1 where both are 1. So it cuts out a part, or tests a bit.",
        " AND $0,$1,7              $1 mod 8",
        "",
    ),
    (
        Topic::Operation,
        "ANDN",
        "v($X) <- v($Y) and not v($Z)\n\
        Each bit is that of $Y, and 0 where that of $Z is 1: it clears bits.",
        " ANDN $0,$0,7",
        "",
    ),
    (
        Topic::Operation,
        "NAND",
        "v($X) <- not (v($Y) and v($Z))\n\
        Each bit is 0 where both are 1.",
        " NAND $0,$1,$2",
        "",
    ),
    (
        Topic::Operation,
        "NXOR",
        "v($X) <- not (v($Y) xor v($Z))\n\
        Each bit is 1 where the two are the same.",
        " NXOR $0,$1,$2",
        "",
    ),
];

/// Instructions on bytes and single bits.
pub(crate) static BYTES: [Entry; 8] = [
    (
        Topic::Operation,
        "BDIF",
        "b($X) <- max(0, b($Y) - b($Z)), for each of the eight bytes b\n\
        Subtracts byte by byte, unsigned; a byte that would be negative is 0.",
        " BDIF $0,$1,$2",
        "",
    ),
    (
        Topic::Operation,
        "WDIF",
        "w($X) <- max(0, w($Y) - w($Z)), for each of the four wydes w\n\
        Subtracts wyde by wyde, unsigned; a wyde that would be negative is 0.",
        " WDIF $0,$1,$2",
        "",
    ),
    (
        Topic::Operation,
        "TDIF",
        "t($X) <- max(0, t($Y) - t($Z)), for both tetras t\n\
        Subtracts tetra by tetra, unsigned; a tetra that would be negative is 0.",
        " TDIF $0,$1,$2",
        "",
    ),
    (
        Topic::Operation,
        "ODIF",
        "u($X) <- max(0, u($Y) - u($Z))\n\
        Subtracts unsigned numbers; a difference that would be negative is 0. With\n\
        ADDU it gives the greater of two numbers, and with SUBU the lesser.",
        " ODIF $0,$1,$2; ADDU $0,$0,$2",
        "",
    ),
    (
        Topic::Operation,
        "MUX",
        "v($X) <- (v($Y) and v(rM)) or (v($Z) and not v(rM))\n\
        Takes each bit from $Y where rM has 1, and from $Z where rM has 0.",
        " PUT rM,$3; MUX $0,$1,$2",
        "",
    ),
    (
        Topic::Operation,
        "SADD",
        "s($X) <- the number of ones in v($Y) and not v($Z)\n\
        Counts the bits that are 1 in $Y and 0 in $Z. With 0 for $Z it counts those\n\
        of $Y.",
        " SADD $0,$1,0",
        "",
    ),
    (
        Topic::Operation,
        "MOR",
        "m($X) <- m($Z) m($Y), with or for +, and and for *\n\
        Takes $Y and $Z as matrices of 8 times 8 bits: byte i of $X is the or of\n\
        those bytes k of $Y for which bit k of byte i of $Z is 1. It moves bytes and\n\
        bits about.",
        " MOR $0,$1,$2",
        "",
    ),
    (
        Topic::Operation,
        "MXOR",
        "m($X) <- m($Z) m($Y), with xor for +, and and for *\n\
        Takes $Y and $Z as matrices of 8 times 8 bits: byte i of $X is the xor of\n\
        those bytes k of $Y for which bit k of byte i of $Z is 1.",
        " MXOR $0,$1,$2",
        "",
    ),
];

/// Instructions on wydes.
pub(crate) static WYDES: [Entry; 16] = [
    (
        Topic::Operation,
        "SETH",
        "u($X) <- YZ * 2^48\n\
        Sets the high wyde of $X, and all other bits to 0.",
        " SETH $0,#2000            Data_Segment",
        "",
    ),
    (
        Topic::Operation,
        "SETMH",
        "u($X) <- YZ * 2^32\n\
        Sets the second wyde of $X, and all other bits to 0.",
        " SETMH $0,1",
        "",
    ),
    (
        Topic::Operation,
        "SETML",
        "u($X) <- YZ * 2^16\n\
        Sets the third wyde of $X, and all other bits to 0. With INCL it gives any\n\
        number of 32 bits.",
        " SETML $0,100000>>16; INCL $0,100000&#ffff",
        "",
    ),
    (
        Topic::Operation,
        "SETL",
        "u($X) <- YZ\n\
        Sets the low wyde of $X, and all other bits to 0. SET with a number is SETL.",
        " SETL $0,1000",
        "",
    ),
    (
        Topic::Operation,
        "INCH",
        "u($X) <- (u($X) + YZ * 2^48) mod 2^64\n\
        Adds to the high wyde of $X. It has no event.",
        " INCH $0,1",
        "",
    ),
    (
        Topic::Operation,
        "INCMH",
        "u($X) <- (u($X) + YZ * 2^32) mod 2^64\n\
        Adds to $X from its second wyde on. It has no event.",
        " INCMH $0,1",
        "",
    ),
    (
        Topic::Operation,
        "INCML",
        "u($X) <- (u($X) + YZ * 2^16) mod 2^64\n\
        Adds to $X from its third wyde on. It has no event.",
        " INCML $0,1",
        "",
    ),
    (
        Topic::Operation,
        "INCL",
        "u($X) <- (u($X) + YZ) mod 2^64\n\
        Adds a number of 16 bits, 0 to 65535, to $X. It has no event.",
        " INCL $0,1000",
        "",
    ),
    (
        Topic::Operation,
        "ORH",
        "v($X) <- v($X) or v(YZ * 2^48)\n\
        Sets bits of the high wyde of $X to 1.",
        " ORH $0,#8000             the sign",
        "",
    ),
    (
        Topic::Operation,
        "ORMH",
        "v($X) <- v($X) or v(YZ * 2^32)\n\
        Sets bits of the second wyde of $X to 1.",
        " ORMH $0,1",
        "",
    ),
    (
        Topic::Operation,
        "ORML",
        "v($X) <- v($X) or v(YZ * 2^16)\n\
        Sets bits of the third wyde of $X to 1.",
        " ORML $0,1",
        "",
    ),
    (
        Topic::Operation,
        "ORL",
        "v($X) <- v($X) or v(YZ)\n\
        Sets bits of the low wyde of $X to 1.",
        " ORL $0,1",
        "",
    ),
    (
        Topic::Operation,
        "ANDNH",
        "v($X) <- v($X) and not v(YZ * 2^48)\n\
        Sets bits of the high wyde of $X to 0: those that are 1 in YZ.",
        " ANDNH $0,#8000           the sign",
        "",
    ),
    (
        Topic::Operation,
        "ANDNMH",
        "v($X) <- v($X) and not v(YZ * 2^32)\n\
        Sets bits of the second wyde of $X to 0: those that are 1 in YZ.",
        " ANDNMH $0,1",
        "",
    ),
    (
        Topic::Operation,
        "ANDNML",
        "v($X) <- v($X) and not v(YZ * 2^16)\n\
        Sets bits of the third wyde of $X to 0: those that are 1 in YZ.",
        " ANDNML $0,1",
        "",
    ),
    (
        Topic::Operation,
        "ANDNL",
        "v($X) <- v($X) and not v(YZ)\n\
        Sets bits of the low wyde of $X to 0: those that are 1 in YZ.",
        " ANDNL $0,1",
        "",
    ),
];
