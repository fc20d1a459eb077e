//! Instructions on control.

use mx_explain::{Entry, Topic};

/// Jumps, subroutines and special registers.
pub(crate) static JUMPS: [Entry; 8] = [
    (
        Topic::Operation,
        "GO",
        "u($X) <- @ + 4, then @ <- A, where A = $Y + $Z\n\
        Goes to any address, and leaves in $X the one after its own, by which a\n\
        second GO can come back.",
        " GETA $1,Sub; GO $0,$1,0; TRAP 0,Halt,0;Sub GO $0,$0,0",
        "",
    ),
    (
        Topic::Operation,
        "PUSHGO",
        "push(X), rJ <- @ + 4, then @ <- A, where A = $Y + $Z\n\
        Calls a subroutine anywhere, as PUSHJ does one that is near: registers $0 to\n\
        $X are hidden, and those after $X are the subroutine's $0 and on.",
        " GETA $0,Sub; PUSHGO $1,$0,0; TRAP 0,Halt,0;Sub POP 0,0",
        "",
    ),
    (
        Topic::Operation,
        "JMP",
        "@ <- a\n\
        Goes to the address a, at most 2^24 instructions away.",
        " JMP @-4",
        "",
    ),
    (
        Topic::Operation,
        "PUSHJ",
        "push(X), rJ <- @ + 4, then @ <- a\n\
        Calls a subroutine. $0 to $(X-1) are hidden and come back unchanged; the\n\
        registers after $X are its $0 and on, which are its arguments. $X gets the\n\
        result of its POP.",
        " SET $1,5; PUSHJ $0,Sub; TRAP 0,Halt,0;Sub ADD $0,$0,1; POP 1,0",
        "",
    ),
    (
        Topic::Operation,
        "GETA",
        "u($X) <- a\n\
        Gets an address near this instruction, at most 65,536 tetras away, which may\n\
        be that of a later label. The address has to be a multiple of 4 away.",
        " GETA $255,Text; TRAP 0,Fputs,StdOut; TRAP 0,Halt,0;Text BYTE \"hi\",0",
        "",
    ),
    (
        Topic::Operation,
        "PUT",
        "u(g[X]) <- u($Z), where g[X] is the special register X\n\
        Puts a value into a special register; X is its name or its number. Some\n\
        cannot be put.",
        " PUT rJ,$0",
        "",
    ),
    (
        Topic::Operation,
        "GET",
        "u($X) <- u(g[Z]), where g[Z] is the special register Z\n\
        Gets the value of a special register; Z is its name or its number.",
        " GET $0,rJ",
        "",
    ),
    (
        Topic::Operation,
        "POP",
        "pop(X), then @ <- rJ + 4 * YZ\n\
        Returns from a subroutine with X results, $0 to $(X-1): $(X-1) is the main\n\
        one, which the $X of the PUSHJ gets, and the others come after it. Where YZ\n\
        is 0, it goes on after the PUSHJ. What PUSHJ has hidden comes back.",
        " POP 1,0",
        "",
    ),
];

/// Trips, traps and the state.
pub(crate) static SYSTEM: [Entry; 7] = [
    (
        Topic::Operation,
        "RESUME",
        "@ <- rW, where the top bit of rX is 1\n\
        Returns from the handler of a trip, for XYZ = 0. Where the top bit of rX is\n\
        0, it performs the instruction in the low half of rX.",
        " GET $255,rB; RESUME 0",
        "",
    ),
    (
        Topic::Operation,
        "SAVE",
        "u($X) <- the address of what is saved\n\
        Saves all registers in the register stack: the locals, which are gone then,\n\
        the globals and the special ones. $X is global, and the address is for\n\
        UNSAVE. Z is 0.",
        " SAVE $255,0; UNSAVE $255",
        "",
    ),
    (
        Topic::Operation,
        "UNSAVE",
        "all registers <- what is saved at u($Z)\n\
        Brings back what SAVE has saved, by the address that it gave.",
        " SAVE $255,0; UNSAVE $255",
        "",
    ),
    (
        Topic::Operation,
        "SYNC",
        "Waits until earlier instructions are done in a way that XYZ says, 0 to 3. It\n\
        does nothing here; 4 to 7 are for operating systems.",
        " SYNC 0",
        "",
    ),
    (
        Topic::Operation,
        "SWYM",
        "Does nothing: sympathize with your machinery. Its fields X, Y and Z are free\n\
        for notes.",
        " SWYM 0",
        "",
    ),
    (
        Topic::Operation,
        "TRIP",
        "rB <- $255, $255 <- rJ, rW <- @ + 4, rX <- the instruction, rY <- $Y, rZ <- $Z, @ <- 0\n\
        Trips: it goes to the handler at address 0, from which RESUME 0 comes back.",
        " LOC 0; RESUME 0; LOC #100; TRIP 0,1,2",
        "",
    ),
    (
        Topic::Operation,
        "TRAP",
        "$255 <- the result of the service Y on the handle Z\n\
        Calls the system. TRAP 0,Y,Z is for the service Y, Halt to Ftell, on the\n\
        handle Z; most of these have their arguments at the address in $255.\n\
        mmixview explain tells each, as Fputs.",
        " TRAP 0,Halt,0",
        "",
    ),
];
