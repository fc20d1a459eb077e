//! Instructions on memory.

use mx_explain::{Entry, Topic};

/// Loads.
pub(crate) static LOADS: [Entry; 11] = [
    (
        Topic::Operation,
        "LDB",
        "s($X) <- s(M1[A]), where A = $Y + $Z\n\
        Loads a signed byte from memory, -128 to 127.",
        " LDB $0,$1,0",
        "",
    ),
    (
        Topic::Operation,
        "LDBU",
        "u($X) <- u(M1[A]), where A = $Y + $Z\n\
        Loads an unsigned byte from memory, 0 to 255.",
        " LDBU $0,$1,0",
        "",
    ),
    (
        Topic::Operation,
        "LDW",
        "s($X) <- s(M2[A]), where A = $Y + $Z\n\
        Loads a signed wyde from memory, -32768 to 32767. The address is lowered to\n\
        a multiple of 2.",
        " LDW $0,$1,0",
        "",
    ),
    (
        Topic::Operation,
        "LDWU",
        "u($X) <- u(M2[A]), where A = $Y + $Z\n\
        Loads an unsigned wyde from memory, 0 to 65535. The address is lowered to a\n\
        multiple of 2.",
        " LDWU $0,$1,0",
        "",
    ),
    (
        Topic::Operation,
        "LDT",
        "s($X) <- s(M4[A]), where A = $Y + $Z\n\
        Loads a signed tetra from memory, -2^31 to 2^31-1. The address is lowered to\n\
        a multiple of 4.",
        " LDT $0,$1,0",
        "",
    ),
    (
        Topic::Operation,
        "LDTU",
        "u($X) <- u(M4[A]), where A = $Y + $Z\n\
        Loads an unsigned tetra from memory, 0 to 2^32-1. The address is lowered to\n\
        a multiple of 4.",
        " LDTU $0,$1,0",
        "",
    ),
    (
        Topic::Operation,
        "LDO",
        "s($X) <- s(M8[A]), where A = $Y + $Z\n\
        Loads an octa from memory. The address is lowered to a multiple of 8.",
        " LDO $0,$1,8",
        "",
    ),
    (
        Topic::Operation,
        "LDOU",
        "u($X) <- u(M8[A]), where A = $Y + $Z\n\
        Loads an octa from memory, as LDO does.",
        " LDOU $0,$1,8",
        "",
    ),
    (
        Topic::Operation,
        "LDHT",
        "u($X) <- u(M4[A]) * 2^32, where A = $Y + $Z\n\
        Loads a tetra from memory into the high half of $X; its low half is 0.",
        " LDHT $0,$1,0",
        "",
    ),
    (
        Topic::Operation,
        "LDUNC",
        "u($X) <- u(M8[A]), where A = $Y + $Z\n\
        Loads an octa past the cache. This machine has none: it is as LDO.",
        " LDUNC $0,$1,0",
        "",
    ),
    (
        Topic::Operation,
        "LDVTS",
        "Loads the state of a translated address. Only an operating system may use\n\
        it: the run stops with 112 Privileged.",
        " LDVTS $0,$1,0",
        "",
    ),
];

/// Stores.
pub(crate) static STORES: [Entry; 12] = [
    (
        Topic::Operation,
        "STB",
        "s(M1[A]) <- s($X), where A = $Y + $Z\n\
        Stores the low byte of $X in memory. If $X as a signed number has no room\n\
        there, that is the event V; it is stored all the same.",
        " STB $0,$1,0",
        "",
    ),
    (
        Topic::Operation,
        "STBU",
        "u(M1[A]) <- u($X) mod 2^8, where A = $Y + $Z\n\
        Stores the low byte of $X in memory, without an event.",
        " STBU $0,$1,0",
        "",
    ),
    (
        Topic::Operation,
        "STW",
        "s(M2[A]) <- s($X), where A = $Y + $Z\n\
        Stores the low wyde of $X in memory. The address is lowered to a multiple of\n\
        2. If $X as a signed number has no room there, that is the event V; it is\n\
        stored all the same.",
        " STW $0,$1,0",
        "",
    ),
    (
        Topic::Operation,
        "STWU",
        "u(M2[A]) <- u($X) mod 2^16, where A = $Y + $Z\n\
        Stores the low wyde of $X in memory, without an event. The address is\n\
        lowered to a multiple of 2.",
        " STWU $0,$1,0",
        "",
    ),
    (
        Topic::Operation,
        "STT",
        "s(M4[A]) <- s($X), where A = $Y + $Z\n\
        Stores the low tetra of $X in memory. The address is lowered to a multiple\n\
        of 4. If $X as a signed number has no room there, that is the event V; it is\n\
        stored all the same.",
        " STT $0,$1,0",
        "",
    ),
    (
        Topic::Operation,
        "STTU",
        "u(M4[A]) <- u($X) mod 2^32, where A = $Y + $Z\n\
        Stores the low tetra of $X in memory, without an event. The address is\n\
        lowered to a multiple of 4.",
        " STTU $0,$1,0",
        "",
    ),
    (
        Topic::Operation,
        "STO",
        "s(M8[A]) <- s($X), where A = $Y + $Z\n\
        Stores an octa in memory. The address is lowered to a multiple of 8.",
        " STO $0,$1,8",
        "",
    ),
    (
        Topic::Operation,
        "STOU",
        "u(M8[A]) <- u($X), where A = $Y + $Z\n\
        Stores an octa in memory, as STO does.",
        " STOU $0,$1,8",
        "",
    ),
    (
        Topic::Operation,
        "STHT",
        "u(M4[A]) <- floor(u($X) / 2^32), where A = $Y + $Z\n\
        Stores the high tetra of $X in memory.",
        " STHT $0,$1,0",
        "",
    ),
    (
        Topic::Operation,
        "STCO",
        "u(M8[A]) <- X, where A = $Y + $Z\n\
        Stores a number from 0 to 255, the field X, as an octa in memory.",
        " STCO 1,$1,0",
        "",
    ),
    (
        Topic::Operation,
        "STUNC",
        "u(M8[A]) <- u($X), where A = $Y + $Z\n\
        Stores an octa past the cache. This machine has none: it is as STO.",
        " STUNC $0,$1,0",
        "",
    ),
    (
        Topic::Operation,
        "CSWAP",
        "if M8[A] = rP, M8[A] <- $X and $X <- 1; else rP <- M8[A] and $X <- 0\n\
        Compares and swaps in one step, which no other processor can part: where\n\
        memory has what rP expects, $X is stored there. $X then says whether it was.",
        " PUT rP,$3; CSWAP $0,$1,0",
        "",
    ),
];

/// Hints to the cache.
pub(crate) static HINTS: [Entry; 5] = [
    (
        Topic::Operation,
        "PRELD",
        "Says that X + 1 bytes from A on may be loaded soon. It does nothing here.",
        " PRELD 63,$1,0",
        "",
    ),
    (
        Topic::Operation,
        "PREGO",
        "Says that X + 1 bytes from A on may be performed soon. It does nothing here.",
        " PREGO 63,$1,0",
        "",
    ),
    (
        Topic::Operation,
        "PREST",
        "Says that X + 1 bytes from A on will be stored before they are loaded. It\n\
        does nothing here.",
        " PREST 63,$1,0",
        "",
    ),
    (
        Topic::Operation,
        "SYNCD",
        "Brings X + 1 bytes from A on from the cache to memory. It does nothing here.",
        " SYNCD 63,$1,0",
        "",
    ),
    (
        Topic::Operation,
        "SYNCID",
        "Makes X + 1 bytes from A on that were stored fit to be performed. It does\n\
        nothing here: what is stored is performed.",
        " SYNCID 63,$1,0",
        "",
    ),
];
