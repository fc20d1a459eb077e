//! Instructions that the machine does not perform.

use mx_explain::{Entry, Topic};

/// Instructions on floating-point numbers.
pub(crate) static FLOATS: [Entry; 11] = [
    (
        Topic::Unperformed,
        "FCMP",
        "s($X) <- [f($Y) > f($Z)] - [f($Y) < f($Z)]\n\
        Compares floating-point numbers. The run stops with 110.",
        " FCMP $1,$2,$3",
        "",
    ),
    (
        Topic::Unperformed,
        "FUN",
        "s($X) <- [f($Y) and f($Z) are unordered]\n\
        Tests whether one of two floating-point numbers is no number. The run stops\n\
        with 110.",
        " FUN $1,$2,$3",
        "",
    ),
    (
        Topic::Unperformed,
        "FEQL",
        "s($X) <- [f($Y) = f($Z)]\n\
        Tests whether floating-point numbers are equal. The run stops with 110.",
        " FEQL $1,$2,$3",
        "",
    ),
    (
        Topic::Unperformed,
        "FADD",
        "f($X) <- f($Y) + f($Z)\n\
        Adds floating-point numbers. The run stops with 110; ADD is for whole\n\
        numbers.",
        " FADD $1,$2,$3",
        "",
    ),
    (
        Topic::Unperformed,
        "FIX",
        "s($X) <- int f($Z)\n\
        Turns a floating-point number into a whole one, signed. The run stops with\n\
        110.",
        " FIX $1,ROUND_UP,$2",
        "",
    ),
    (
        Topic::Unperformed,
        "FSUB",
        "f($X) <- f($Y) - f($Z)\n\
        Subtracts floating-point numbers. The run stops with 110; SUB is for whole\n\
        numbers.",
        " FSUB $1,$2,$3",
        "",
    ),
    (
        Topic::Unperformed,
        "FIXU",
        "u($X) <- (int f($Z)) mod 2^64\n\
        Turns a floating-point number into a whole one, unsigned. The run stops with\n\
        110.",
        " FIXU $1,$2",
        "",
    ),
    (
        Topic::Unperformed,
        "FLOT",
        "f($X) <- s($Z)\n\
        Turns a signed whole number into a floating-point one. The run stops with\n\
        110.",
        " FLOT $1,2",
        "",
    ),
    (
        Topic::Unperformed,
        "FLOTU",
        "f($X) <- u($Z)\n\
        Turns an unsigned whole number into a floating-point one. The run stops with\n\
        110.",
        " FLOTU $1,$2",
        "",
    ),
    (
        Topic::Unperformed,
        "SFLOT",
        "f($X) <- f(T) <- s($Z)\n\
        Turns a signed whole number into a short floating-point one. The run stops\n\
        with 110.",
        " SFLOT $1,$2",
        "",
    ),
    (
        Topic::Unperformed,
        "SFLOTU",
        "f($X) <- f(T) <- u($Z)\n\
        Turns an unsigned whole number into a short floating-point one. The run\n\
        stops with 110.",
        " SFLOTU $1,$2",
        "",
    ),
];

/// More instructions on floating-point numbers.
pub(crate) static MORE_FLOATS: [Entry; 10] = [
    (
        Topic::Unperformed,
        "FMUL",
        "f($X) <- f($Y) * f($Z)\n\
        Multiplies floating-point numbers. The run stops with 110; MUL is for whole\n\
        numbers.",
        " FMUL $1,$2,$3",
        "",
    ),
    (
        Topic::Unperformed,
        "FCMPE",
        "s($X) <- [f($Y) > f($Z) beyond rE] - [f($Y) < f($Z) beyond rE]\n\
        Compares floating-point numbers, of which those that differ by less than rE\n\
        says are equal. The run stops with 110.",
        " FCMPE $1,$2,$3",
        "",
    ),
    (
        Topic::Unperformed,
        "FUNE",
        "s($X) <- [f($Y) and f($Z) are unordered with rE]\n\
        Tests whether floating-point numbers cannot be compared with rE. The run\n\
        stops with 110.",
        " FUNE $1,$2,$3",
        "",
    ),
    (
        Topic::Unperformed,
        "FEQLE",
        "s($X) <- [f($Y) = f($Z) with rE]\n\
        Tests whether floating-point numbers are equal but for what rE says. The run\n\
        stops with 110.",
        " FEQLE $1,$2,$3",
        "",
    ),
    (
        Topic::Unperformed,
        "FDIV",
        "f($X) <- f($Y) / f($Z)\n\
        Divides floating-point numbers. The run stops with 110; DIV is for whole\n\
        numbers.",
        " FDIV $1,$2,$3",
        "",
    ),
    (
        Topic::Unperformed,
        "FSQRT",
        "f($X) <- the square root of f($Z)\n\
        Takes the square root of a floating-point number. The run stops with 110.",
        " FSQRT $1,$2",
        "",
    ),
    (
        Topic::Unperformed,
        "FREM",
        "f($X) <- f($Y) rem f($Z)\n\
        Takes the remainder of floating-point numbers. The run stops with 110.",
        " FREM $1,$2,$3",
        "",
    ),
    (
        Topic::Unperformed,
        "FINT",
        "f($X) <- int f($Z)\n\
        Rounds a floating-point number to a whole one. The run stops with 110.",
        " FINT $1,$2",
        "",
    ),
    (
        Topic::Unperformed,
        "LDSF",
        "f($X) <- f(M4[A]), where A = $Y + $Z\n\
        Loads a short floating-point number. The run stops with 110.",
        " LDSF $0,$1,0",
        "",
    ),
    (
        Topic::Unperformed,
        "STSF",
        "f(M4[A]) <- f($X), where A = $Y + $Z\n\
        Stores a short floating-point number. The run stops with 110.",
        " STSF $0,$1,0",
        "",
    ),
];
