//! Predefined symbols other than registers.

use crate::row::{Entry, Topic};

/// Bits and handlers of events.
pub(crate) static EVENTS: [Entry; 16] = [
    (
        Topic::Symbol,
        "D_BIT",
        "The bit of rA for a division by zero. 256 times as much enables its trip.",
        " SET $0,D_BIT<<8; PUT rA,$0",
        "",
    ),
    (
        Topic::Symbol,
        "V_BIT",
        "The bit of rA for an overflow of whole numbers. 256 times as much enables\n\
        its trip.",
        " SET $0,V_BIT<<8; PUT rA,$0",
        "",
    ),
    (
        Topic::Symbol,
        "W_BIT",
        "The bit of rA for a float that does not fit a whole number. Here no\n\
        instruction sets it.",
        "",
        "",
    ),
    (
        Topic::Symbol,
        "I_BIT",
        "The bit of rA for an invalid operation on floats. Here no instruction sets\n\
        it.",
        "",
        "",
    ),
    (
        Topic::Symbol,
        "O_BIT",
        "The bit of rA for an overflow of floats. Here no instruction sets it.",
        "",
        "",
    ),
    (
        Topic::Symbol,
        "U_BIT",
        "The bit of rA for an underflow of floats. Here no instruction sets it.",
        "",
        "",
    ),
    (
        Topic::Symbol,
        "Z_BIT",
        "The bit of rA for a float divided by zero. Here no instruction sets it.",
        "",
        "",
    ),
    (
        Topic::Symbol,
        "X_BIT",
        "The bit of rA for an inexact float. Here no instruction sets it.",
        "",
        "",
    ),
    (
        Topic::Symbol,
        "D_Handler",
        "The address where a division by zero goes to, if D_BIT<<8 in rA enables the\n\
        trip. There is room for four instructions, up to the next handler.",
        " LOC D_Handler; PUSHJ $255,Fix; PUT rJ,$255; GET $255,rB; RESUME 0;Fix POP 0,0",
        "",
    ),
    (
        Topic::Symbol,
        "V_Handler",
        "The address where an overflow goes to, if V_BIT<<8 in rA enables the trip.\n\
        There is room for four instructions, up to the next handler.",
        " LOC V_Handler; PUSHJ $255,Fix; PUT rJ,$255; GET $255,rB; RESUME 0;Fix POP 0,0",
        "",
    ),
    (
        Topic::Symbol,
        "W_Handler",
        "The address for a float that does not fit a whole number. Here nothing goes\n\
        there.",
        "",
        "",
    ),
    (
        Topic::Symbol,
        "I_Handler",
        "The address for an invalid operation on floats. Here nothing goes there.",
        "",
        "",
    ),
    (
        Topic::Symbol,
        "O_Handler",
        "The address for an overflow of floats. Here nothing goes there.",
        "",
        "",
    ),
    (
        Topic::Symbol,
        "U_Handler",
        "The address for an underflow of floats. Here nothing goes there.",
        "",
        "",
    ),
    (
        Topic::Symbol,
        "Z_Handler",
        "The address for a float that is divided by zero. Here nothing goes there.",
        "",
        "",
    ),
    (
        Topic::Symbol,
        "X_Handler",
        "The address for an inexact float. Here nothing goes there.",
        "",
        "",
    ),
];

/// Handles and modes of files.
pub(crate) static FILES: [Entry; 8] = [
    (
        Topic::Symbol,
        "StdIn",
        "The handle of standard input, which is open at the start: Z of a TRAP that\n\
        reads.",
        " TRAP 0,Fgets,StdIn",
        "",
    ),
    (
        Topic::Symbol,
        "StdOut",
        "The handle of standard output, which is open at the start: Z of a TRAP that\n\
        writes.",
        " TRAP 0,Fputs,StdOut",
        "",
    ),
    (
        Topic::Symbol,
        "StdErr",
        "The handle of standard error, which is open at the start: Z of a TRAP that\n\
        writes.",
        " TRAP 0,Fputs,StdErr",
        "",
    ),
    (
        Topic::Symbol,
        "TextRead",
        "The mode of Fopen for a text that is read. The file has to be there.",
        "Args OCTA Name,TextRead;Name BYTE \"in.txt\",0",
        "",
    ),
    (
        Topic::Symbol,
        "TextWrite",
        "The mode of Fopen for a text that is written. The file is made, or emptied.",
        "Args OCTA Name,TextWrite;Name BYTE \"out.txt\",0",
        "",
    ),
    (
        Topic::Symbol,
        "BinaryRead",
        "The mode of Fopen for bytes that are read. Fseek and Ftell work on the file.",
        "Args OCTA Name,BinaryRead;Name BYTE \"in.bin\",0",
        "",
    ),
    (
        Topic::Symbol,
        "BinaryWrite",
        "The mode of Fopen for bytes that are written. The file is made, or emptied;\n\
        Fseek and Ftell work on it.",
        "Args OCTA Name,BinaryWrite;Name BYTE \"out.bin\",0",
        "",
    ),
    (
        Topic::Symbol,
        "BinaryReadWrite",
        "The mode of Fopen for bytes that are written and read. The file is made, or\n\
        emptied; Fseek and Ftell work on it.",
        "Args OCTA Name,BinaryReadWrite;Name BYTE \"new.bin\",0",
        "",
    ),
];

/// Services of TRAP.
pub(crate) static SERVICES: [Entry; 11] = [
    (
        Topic::Symbol,
        "Halt",
        "The service that ends the program: Y of a TRAP, whose Z is 0. The status is\n\
        the low byte of $255.",
        " SET $255,0; TRAP 0,Halt,0",
        "",
    ),
    (
        Topic::Symbol,
        "Fopen",
        "The service that opens a file on the handle Z. $255 has the address of two\n\
        octas: that of the name, a text with a zero byte, and the mode. The result\n\
        in $255 is 0, or -1.",
        " GETA $255,Args; TRAP 0,Fopen,3",
        "",
    ),
    (
        Topic::Symbol,
        "Fclose",
        "The service that closes the handle Z. The result in $255 is 0, or -1.",
        " TRAP 0,Fclose,3",
        "",
    ),
    (
        Topic::Symbol,
        "Fread",
        "The service that reads bytes from the handle Z. $255 has the address of two\n\
        octas: that of a buffer, and how many bytes it takes. The result in $255 is\n\
        0 if all were read, and less by 1 for every byte that was not; it is -1 less\n\
        that many where the call failed.",
        " GETA $255,Args; TRAP 0,Fread,StdIn",
        "",
    ),
    (
        Topic::Symbol,
        "Fgets",
        "The service that reads a line from the handle Z. $255 has the address of two\n\
        octas: that of a buffer, and its size. The line ends with its newline, if it\n\
        has room, and a zero byte. The result in $255 is the number of bytes that\n\
        were read, or -1.",
        " GETA $255,Args; TRAP 0,Fgets,StdIn",
        "",
    ),
    (
        Topic::Symbol,
        "Fgetws",
        "The service that reads a line of letters of two bytes. It is left out: a\n\
        TRAP with it stops the run.",
        "",
        "",
    ),
    (
        Topic::Symbol,
        "Fwrite",
        "The service that writes bytes to the handle Z. $255 has the address of two\n\
        octas: that of the bytes, and their number. The result in $255 is 0 if all\n\
        were written, and less by 1 for every byte that was not.",
        " GETA $255,Args; TRAP 0,Fwrite,StdOut",
        "",
    ),
    (
        Topic::Symbol,
        "Fputs",
        "The service that writes a text to the handle Z. $255 has the address of the\n\
        text, which ends at its zero byte. The result in $255 is the number of\n\
        bytes, or -1.",
        " GETA $255,Text; TRAP 0,Fputs,StdOut",
        "",
    ),
    (
        Topic::Symbol,
        "Fputws",
        "The service that writes a text of letters of two bytes. It is left out: a\n\
        TRAP with it stops the run.",
        "",
        "",
    ),
    (
        Topic::Symbol,
        "Fseek",
        "The service that moves to a place in the file of the handle Z, which is open\n\
        in a binary mode. $255 has the place from 0, or counts back from -1, the\n\
        end. The result is 0, or -1.",
        " SET $255,0; TRAP 0,Fseek,3",
        "",
    ),
    (
        Topic::Symbol,
        "Ftell",
        "The service that gives the place in the file of the handle Z, which is open\n\
        in a binary mode. The result in $255 is the place, or -1.",
        " TRAP 0,Ftell,3",
        "",
    ),
];

/// Other predefined symbols.
pub(crate) static OTHERS: [Entry; 9] = [
    (
        Topic::Symbol,
        "Data_Segment",
        "Where the memory begins that the program changes. GREG @ there makes a base.",
        " LOC Data_Segment; GREG @;k OCTA 5",
        "",
    ),
    (
        Topic::Symbol,
        "Pool_Segment",
        "Where the memory begins that holds the arguments: the first free address,\n\
        and from the next octa on the pointers to them. At the start $1 has the\n\
        address of these pointers.",
        " SETH $0,Pool_Segment>>48; LDO $0,$0,8",
        "",
    ),
    (
        Topic::Symbol,
        "Stack_Segment",
        "Where the memory of the register stack begins. A program places nothing\n\
        there.",
        "",
        "",
    ),
    (
        Topic::Symbol,
        "ROUND_CURRENT",
        "The rounding mode that rA has, as an operand of FIX, FINT, FSQRT and FLOT.",
        "",
        "",
    ),
    (
        Topic::Symbol,
        "ROUND_OFF",
        "The rounding mode toward zero, as an operand of FIX, FINT, FSQRT and FLOT.",
        " FIX $1,ROUND_OFF,$2",
        "",
    ),
    (
        Topic::Symbol,
        "ROUND_UP",
        "The rounding mode up, as an operand of FIX, FINT, FSQRT and FLOT.",
        " FIX $1,ROUND_UP,$2",
        "",
    ),
    (
        Topic::Symbol,
        "ROUND_DOWN",
        "The rounding mode down, as an operand of FIX, FINT, FSQRT and FLOT.",
        " FIX $1,ROUND_DOWN,$2",
        "",
    ),
    (
        Topic::Symbol,
        "ROUND_NEAR",
        "The rounding mode to the nearest number, as an operand of FIX, FINT, FSQRT\n\
        and FLOT.",
        " FIX $1,ROUND_NEAR,$2",
        "",
    ),
    (
        Topic::Symbol,
        "Inf",
        "The octa that is infinity as a floating-point number.",
        " GREG Inf",
        "",
    ),
];
