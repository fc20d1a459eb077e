//! Instructions on numbers.

use mx_explain::{Entry, Topic};

/// Instructions on numbers.
pub(crate) static ARITHMETIC: [Entry; 12] = [
    (
        Topic::Operation,
        "MUL",
        "s($X) <- s($Y) * s($Z)\n\
        Multiplies two signed numbers. A product outside -2^63 to 2^63-1 is an\n\
        overflow, the event V; $X then has its low 64 bits.",
        " MUL $0,$0,10",
        "",
    ),
    (
        Topic::Operation,
        "MULU",
        "u(rH $X) <- u($Y) * u($Z)\n\
        Multiplies two unsigned numbers. The product has 128 bits: the high 64 go to\n\
        rH.",
        " MULU $0,$1,$2; GET $3,rH",
        "",
    ),
    (
        Topic::Operation,
        "DIV",
        "s($X) <- floor(s($Y) / s($Z)), s(rR) <- s($Y) mod s($Z)\n\
        Divides two signed numbers, down to the next whole number; rR has the\n\
        remainder, which has the sign of the divisor. Division by 0 is the event D:\n\
        $X is 0, and rR is $Y.",
        " DIV $0,$1,10; GET $2,rR",
        "",
    ),
    (
        Topic::Operation,
        "DIVU",
        "u($X) <- floor(u(rD $Y) / u($Z)), u(rR) <- u(rD $Y) mod u($Z)\n\
        Divides an unsigned number of 128 bits, rD and $Y, where $Z is above rD.\n\
        Otherwise the quotient has no room: $X is rD, and rR is $Y.",
        " PUT rD,0; DIVU $0,$1,10",
        "",
    ),
    (
        Topic::Operation,
        "ADD",
        "s($X) <- s($Y) + s($Z)\n\
        Adds two signed numbers. A sum outside -2^63 to 2^63-1 is an overflow, the\n\
        event V; $X then has its low 64 bits.",
        " ADD $0,$0,1",
        "",
    ),
    (
        Topic::Operation,
        "ADDU",
        "u($X) <- (u($Y) + u($Z)) mod 2^64\n\
        Adds two unsigned numbers, as addresses are. It has no event.",
        " ADDU $0,$1,$2",
        "",
    ),
    (
        Topic::Operation,
        "SUB",
        "s($X) <- s($Y) - s($Z)\n\
        Subtracts signed numbers. A difference outside -2^63 to 2^63-1 is an\n\
        overflow, the event V; $X then has its low 64 bits.",
        " SUB $0,$0,1",
        "",
    ),
    (
        Topic::Operation,
        "SUBU",
        "u($X) <- (u($Y) - u($Z)) mod 2^64\n\
        Subtracts unsigned numbers. It has no event.",
        " SUBU $0,$1,$2",
        "",
    ),
    (
        Topic::Operation,
        "2ADDU",
        "u($X) <- (u($Y) * 2 + u($Z)) mod 2^64\n\
        Doubles $Y and adds $Z: the address of wyde $Y of a table at $Z.",
        " 2ADDU $0,$1,$2",
        "",
    ),
    (
        Topic::Operation,
        "4ADDU",
        "u($X) <- (u($Y) * 4 + u($Z)) mod 2^64\n\
        Takes $Y four times and adds $Z: the address of tetra $Y of a table at $Z.",
        " 4ADDU $0,$0,$0           five times $0",
        "",
    ),
    (
        Topic::Operation,
        "8ADDU",
        "u($X) <- (u($Y) * 8 + u($Z)) mod 2^64\n\
        Takes $Y eight times and adds $Z: the address of octa $Y of a table at $Z.",
        " 8ADDU $0,$1,$2",
        "",
    ),
    (
        Topic::Operation,
        "16ADDU",
        "u($X) <- (u($Y) * 16 + u($Z)) mod 2^64\n\
        Takes $Y sixteen times and adds $Z: hexadecimal digits are put together so.",
        " 16ADDU $0,$0,$1",
        "",
    ),
];

/// Comparisons, negations, shifts and copies.
pub(crate) static COMPARISONS: [Entry; 10] = [
    (
        Topic::Operation,
        "CMP",
        "s($X) <- [s($Y) > s($Z)] - [s($Y) < s($Z)]\n\
        Compares two signed numbers: $X is -1 where $Y is less, 0 where they are\n\
        equal, and 1 where $Y is greater. A branch on $X follows.",
        " CMP $0,$1,$2; BN $0,@+8; SWYM 0",
        "",
    ),
    (
        Topic::Operation,
        "CMPU",
        "s($X) <- [u($Y) > u($Z)] - [u($Y) < u($Z)]\n\
        Compares two unsigned numbers: $X is -1 where $Y is less, 0 where they are\n\
        equal, and 1 where $Y is greater.",
        " CMPU $0,$1,$2",
        "",
    ),
    (
        Topic::Operation,
        "NEG",
        "s($X) <- Y - s($Z)\n\
        Negates a signed number, or subtracts it from the number Y, which is 0 where\n\
        it is left out. So it gives numbers below 0. A result outside -2^63 to\n\
        2^63-1 is the event V.",
        " NEG $0,1                 $0 is -1",
        "",
    ),
    (
        Topic::Operation,
        "NEGU",
        "u($X) <- (Y - u($Z)) mod 2^64\n\
        Negates an unsigned number, or subtracts it from the number Y, which is 0\n\
        where it is left out. It has no event.",
        " NEGU $0,$1",
        "",
    ),
    (
        Topic::Operation,
        "SL",
        "s($X) <- s($Y) * 2^u($Z)\n\
        Shifts left: each place doubles the number. A result outside -2^63 to 2^63-1\n\
        is an overflow, the event V; $X then has its low 64 bits.",
        " SL $0,$0,3               eight times $0",
        "",
    ),
    (
        Topic::Operation,
        "SLU",
        "u($X) <- (u($Y) * 2^u($Z)) mod 2^64\n\
        Shifts left, with zeros from the right. What leaves the octa is lost,\n\
        without an event.",
        " SLU $0,$0,8",
        "",
    ),
    (
        Topic::Operation,
        "SR",
        "s($X) <- floor(s($Y) / 2^u($Z))\n\
        Shifts right, with copies of the sign from the left: each place halves the\n\
        number.",
        " SR $0,$0,1",
        "",
    ),
    (
        Topic::Operation,
        "SRU",
        "u($X) <- floor(u($Y) / 2^u($Z))\n\
        Shifts right, with zeros from the left.",
        " SRU $0,$0,8",
        "",
    ),
    (
        Topic::Operation,
        "LDA",
        "u($X) <- A, or u($X) <- (u($Y) + u($Z)) mod 2^64\n\
        Loads an address, not what is there. It is ADDU with the operands of a load:\n\
        A is at most 255 above the value of a GREG. GETA does it for addresses near\n\
        the program.",
        " LOC Data_Segment; GREG @;t BYTE \"hi\",0; LOC #100; LDA $255,t",
        "",
    ),
    (
        Topic::Operation,
        "SET",
        "v($X) <- v($Y), or u($X) <- YZ\n\
        Copies a register, or puts a number of 16 bits, 0 to 65535, into one. It is\n\
        ORI $X,$Y,0, or SETL $X,YZ.",
        " SET $0,1000; SET $1,$0",
        "",
    ),
];
