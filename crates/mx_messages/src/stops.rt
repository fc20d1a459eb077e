//! The reasons of a stop.

use mx_explain::{Entry, Topic};

/// Reasons of a stop.
pub(crate) static STOPS: [Entry; 9] = [
    (
        Topic::Stop(110),
        "",
        "An instruction on floating-point numbers, which this machine does not\n\
        perform. If the source has no such line, data may have run as instructions,\n\
        or a store hit the program.",
        "Main FADD $0,$1,$2",
        "Main ADD $0,$1,$2; TRAP 0,Halt,0",
    ),
    (
        Topic::Stop(111),
        "",
        "The fields X, Y and Z of the instruction are not allowed: for instance, GET\n\
        with a special register above 31, PUT of a value that the register cannot\n\
        take, or a RESUME that would insert what cannot be inserted. If the source\n\
        has no such line, data ran as instructions.",
        "Main GET $0,32",
        "Main GET $0,31; TRAP 0,Halt,0",
    ),
    (
        Topic::Stop(112),
        "",
        "An instruction, or a special register in PUT, that only an operating system\n\
        may use: rC, rI, rK, rQ, rT, rTT, rU and rV, SYNC 4 to 7, and LDVTS.",
        "Main PUT rK,0",
        "leave it out",
    ),
    (
        Topic::Stop(113),
        "",
        "An address is 2^63 or more, which is a negative number: that of the\n\
        instruction itself, of what it loads or stores, or one that a file trap\n\
        uses. Look at the register with the address; it may have gone below 0, or\n\
        hold data.",
        "Main SETH $0,#8000; LDO $0,$0",
        "Main SETH $0,#2000; LDO $0,$0; TRAP 0,Halt,0",
    ),
    (
        Topic::Stop(114),
        "",
        "The registers that are local or hidden by PUSHJ would be more than\n\
        1,048,576. A recursion does not end, or a subroutine is left without POP.",
        "Main PUSHJ $255,Main",
        "Main PUSHJ $0,Sub; TRAP 0,Halt,0;Sub POP 0,0",
    ),
    (
        Topic::Stop(115),
        "",
        "POP brings back what PUSHJ has hidden, and there is nothing. A subroutine\n\
        was reached without PUSHJ, or returns twice; or one that calls another did\n\
        not keep rJ before that PUSHJ, and put it back after it.",
        "Main POP 0,0",
        "Main PUSHJ $0,Sub; TRAP 0,Halt,0;Sub POP 0,0",
    ),
    (
        Topic::Stop(116),
        "",
        "UNSAVE wants the address that SAVE gave. This one is outside the stack area,\n\
        or there is no frame.",
        "Main UNSAVE $0",
        "Main SAVE $255,0; UNSAVE $255; TRAP 0,Halt,0",
    ),
    (
        Topic::Stop(117),
        "",
        "A trip jumps to its handler: at 0 for TRIP, at 16 for a division by zero, at\n\
        32 for an overflow. There the program has nothing, a tetra of zeros. Place a\n\
        handler, or do not enable the event in rA.",
        " LOC #100;Main TRIP 0,0,0",
        " LOC 0; RESUME 0; LOC #100;Main TRIP 0,0,0; TRAP 0,Halt,0",
    ),
    (
        Topic::Stop(118),
        "",
        "Every store, also of zero, makes its page of 4,096 bytes, and there are\n\
        65,536. The program stores on one more, or the arguments at the start lie on\n\
        it. Look at the loop that fills memory.",
        "a loop that stores without end",
        "let the loop end, or store closer",
    ),
];

/// Reasons of a stop of RESUME or TRAP.
pub(crate) static TRAPS: [Entry; 5] = [
    (
        Topic::Stop(120),
        "",
        "RESUME 0 goes back to rW where the top bit of rX is 1, as a trip leaves it.\n\
        Here it is 0, so that RESUME inserts an instruction; and that is a TRAP, or\n\
        it would set a register with further bits in rX.",
        "Main RESUME 0",
        "Main SETH $0,#8000; PUT rX,$0; GETA $0,@+12; PUT rW,$0; RESUME 0; TRAP 0,Halt,0",
    ),
    (
        Topic::Stop(121),
        "",
        "Fgetws and Fputws, on texts of two bytes a letter, are left out.",
        "Main TRAP 0,Fgetws,StdIn",
        " LOC #100;A OCTA Data_Segment,9;Main GETA $255,A; TRAP 0,Fgets,StdIn; TRAP 0,Halt,0",
    ),
    (
        Topic::Stop(122),
        "",
        "A file trap would move more than 16,777,216 bytes. For Fread, Fgets and\n\
        Fwrite $255 has the address of two octas, the buffer and its size, and not\n\
        that of the buffer. A text of Fputs may have lost the zero byte at its end.",
        " LOC #100;A OCTA 0,#1000001;Main GETA $255,A; TRAP 0,Fread,StdIn",
        " LOC #100;A OCTA Data_Segment,8;Main GETA $255,A; TRAP 0,Fread,StdIn; TRAP 0,Halt,0",
    ),
    (
        Topic::Stop(123),
        "",
        "A file trap stores what it has read, and this needs a page of 4,096 bytes\n\
        beyond the 65,536 that there are. The bytes before it stay.",
        "an Fread beyond the last page",
        "read less, or read to a buffer that is used again",
    ),
    (
        Topic::Stop(124),
        "",
        "TRAP 0,Y,Z calls the service Y, and there are Halt, 0, up to Ftell, 10. Here\n\
        X is not 0, Y is above 10, or the Z of Halt is not 0. If the source has no\n\
        such line, data ran as instructions: look where the program went, or for a\n\
        missing TRAP 0,Halt,0.",
        "Main TRAP 0,11,0",
        "Main TRAP 0,Halt,0",
    ),
];
