//! Instructions that choose.

use mx_explain::{Entry, Topic};

/// Branches.
pub(crate) static BRANCHES: [Entry; 16] = [
    (
        Topic::Operation,
        "BN",
        "if s($X) < 0, @ <- a\n\
        Goes to the address a where $X is negative; else it goes on after the\n\
        branch. PBN does the same, and costs less where that is probable.",
        " BN $0,@+8; SWYM 0",
        "",
    ),
    (
        Topic::Operation,
        "BZ",
        "if s($X) = 0, @ <- a\n\
        Goes to the address a where $X is zero; else it goes on after the branch.\n\
        PBZ does the same, and costs less where that is probable.",
        " BZ $0,@+8; SWYM 0",
        "",
    ),
    (
        Topic::Operation,
        "BP",
        "if s($X) > 0, @ <- a\n\
        Goes to the address a where $X is positive; else it goes on after the\n\
        branch. PBP does the same, and costs less where that is probable.",
        " BP $0,@+8; SWYM 0",
        "",
    ),
    (
        Topic::Operation,
        "BOD",
        "if s($X) mod 2 = 1, @ <- a\n\
        Goes to the address a where $X is odd; else it goes on after the branch.\n\
        PBOD does the same, and costs less where that is probable.",
        " BOD $0,@+8; SWYM 0",
        "",
    ),
    (
        Topic::Operation,
        "BNN",
        "if s($X) >= 0, @ <- a\n\
        Goes to the address a where $X is not negative; else it goes on after the\n\
        branch. PBNN does the same, and costs less where that is probable.",
        " BNN $0,@+8; SWYM 0",
        "",
    ),
    (
        Topic::Operation,
        "BNZ",
        "if s($X) != 0, @ <- a\n\
        Goes to the address a where $X is not zero; else it goes on after the\n\
        branch. PBNZ does the same, and costs less where that is probable.",
        " BNZ $0,@+8; SWYM 0",
        "",
    ),
    (
        Topic::Operation,
        "BNP",
        "if s($X) <= 0, @ <- a\n\
        Goes to the address a where $X is not positive; else it goes on after the\n\
        branch. PBNP does the same, and costs less where that is probable.",
        " BNP $0,@+8; SWYM 0",
        "",
    ),
    (
        Topic::Operation,
        "BEV",
        "if s($X) mod 2 = 0, @ <- a\n\
        Goes to the address a where $X is even; else it goes on after the branch.\n\
        PBEV does the same, and costs less where that is probable.",
        " BEV $0,@+8; SWYM 0",
        "",
    ),
    (
        Topic::Operation,
        "PBN",
        "if s($X) < 0, @ <- a\n\
        Goes to the address a where $X is negative, as BN does, but costs less where\n\
        it goes there: it is for the end of a loop.",
        " PBN $0,@-4",
        "",
    ),
    (
        Topic::Operation,
        "PBZ",
        "if s($X) = 0, @ <- a\n\
        Goes to the address a where $X is zero, as BZ does, but costs less where it\n\
        goes there: it is for the end of a loop.",
        " PBZ $0,@-4",
        "",
    ),
    (
        Topic::Operation,
        "PBP",
        "if s($X) > 0, @ <- a\n\
        Goes to the address a where $X is positive, as BP does, but costs less where\n\
        it goes there: it is for the end of a loop.",
        " PBP $0,@-4",
        "",
    ),
    (
        Topic::Operation,
        "PBOD",
        "if s($X) mod 2 = 1, @ <- a\n\
        Goes to the address a where $X is odd, as BOD does, but costs less where it\n\
        goes there: it is for the end of a loop.",
        " PBOD $0,@-4",
        "",
    ),
    (
        Topic::Operation,
        "PBNN",
        "if s($X) >= 0, @ <- a\n\
        Goes to the address a where $X is not negative, as BNN does, but costs less\n\
        where it goes there: it is for the end of a loop.",
        " PBNN $0,@-4",
        "",
    ),
    (
        Topic::Operation,
        "PBNZ",
        "if s($X) != 0, @ <- a\n\
        Goes to the address a where $X is not zero, as BNZ does, but costs less\n\
        where it goes there: it is for the end of a loop.",
        " PBNZ $0,@-4",
        "",
    ),
    (
        Topic::Operation,
        "PBNP",
        "if s($X) <= 0, @ <- a\n\
        Goes to the address a where $X is not positive, as BNP does, but costs less\n\
        where it goes there: it is for the end of a loop.",
        " PBNP $0,@-4",
        "",
    ),
    (
        Topic::Operation,
        "PBEV",
        "if s($X) mod 2 = 0, @ <- a\n\
        Goes to the address a where $X is even, as BEV does, but costs less where it\n\
        goes there: it is for the end of a loop.",
        " PBEV $0,@-4",
        "",
    ),
];

/// Registers that are set by a condition.
pub(crate) static SETS: [Entry; 16] = [
    (
        Topic::Operation,
        "CSN",
        "if s($Y) < 0, v($X) <- v($Z)\n\
        Sets $X to $Z where $Y is negative; else $X stays as it is.",
        " CSN $0,$1,$2",
        "",
    ),
    (
        Topic::Operation,
        "CSZ",
        "if s($Y) = 0, v($X) <- v($Z)\n\
        Sets $X to $Z where $Y is zero; else $X stays as it is.",
        " CSZ $0,$1,$2",
        "",
    ),
    (
        Topic::Operation,
        "CSP",
        "if s($Y) > 0, v($X) <- v($Z)\n\
        Sets $X to $Z where $Y is positive; else $X stays as it is.",
        " CSP $0,$1,$2",
        "",
    ),
    (
        Topic::Operation,
        "CSOD",
        "if s($Y) mod 2 = 1, v($X) <- v($Z)\n\
        Sets $X to $Z where $Y is odd; else $X stays as it is.",
        " CSOD $0,$1,$2",
        "",
    ),
    (
        Topic::Operation,
        "CSNN",
        "if s($Y) >= 0, v($X) <- v($Z)\n\
        Sets $X to $Z where $Y is not negative; else $X stays as it is.",
        " CSNN $0,$1,$2",
        "",
    ),
    (
        Topic::Operation,
        "CSNZ",
        "if s($Y) != 0, v($X) <- v($Z)\n\
        Sets $X to $Z where $Y is not zero; else $X stays as it is.",
        " CSNZ $0,$1,$2",
        "",
    ),
    (
        Topic::Operation,
        "CSNP",
        "if s($Y) <= 0, v($X) <- v($Z)\n\
        Sets $X to $Z where $Y is not positive; else $X stays as it is.",
        " CSNP $0,$1,$2",
        "",
    ),
    (
        Topic::Operation,
        "CSEV",
        "if s($Y) mod 2 = 0, v($X) <- v($Z)\n\
        Sets $X to $Z where $Y is even; else $X stays as it is.",
        " CSEV $0,$1,$2",
        "",
    ),
    (
        Topic::Operation,
        "ZSN",
        "v($X) <- v($Z) [s($Y) < 0]\n\
        Sets $X to $Z where $Y is negative, and to 0 where it is not.",
        " ZSN $0,$1,1",
        "",
    ),
    (
        Topic::Operation,
        "ZSZ",
        "v($X) <- v($Z) [s($Y) = 0]\n\
        Sets $X to $Z where $Y is zero, and to 0 where it is not.",
        " ZSZ $0,$1,1",
        "",
    ),
    (
        Topic::Operation,
        "ZSP",
        "v($X) <- v($Z) [s($Y) > 0]\n\
        Sets $X to $Z where $Y is positive, and to 0 where it is not.",
        " ZSP $0,$1,1",
        "",
    ),
    (
        Topic::Operation,
        "ZSOD",
        "v($X) <- v($Z) [s($Y) mod 2 = 1]\n\
        Sets $X to $Z where $Y is odd, and to 0 where it is not.",
        " ZSOD $0,$1,1",
        "",
    ),
    (
        Topic::Operation,
        "ZSNN",
        "v($X) <- v($Z) [s($Y) >= 0]\n\
        Sets $X to $Z where $Y is not negative, and to 0 where it is not.",
        " ZSNN $0,$1,1",
        "",
    ),
    (
        Topic::Operation,
        "ZSNZ",
        "v($X) <- v($Z) [s($Y) != 0]\n\
        Sets $X to $Z where $Y is not zero, and to 0 where it is not.",
        " ZSNZ $0,$1,1",
        "",
    ),
    (
        Topic::Operation,
        "ZSNP",
        "v($X) <- v($Z) [s($Y) <= 0]\n\
        Sets $X to $Z where $Y is not positive, and to 0 where it is not.",
        " ZSNP $0,$1,1",
        "",
    ),
    (
        Topic::Operation,
        "ZSEV",
        "v($X) <- v($Z) [s($Y) mod 2 = 0]\n\
        Sets $X to $Z where $Y is even, and to 0 where it is not.",
        " ZSEV $0,$1,1",
        "",
    ),
];
