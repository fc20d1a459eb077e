//! Numbers that no message has.

use mx_explain::{Entry, Topic};

/// Numbers inside the program.
pub(crate) static INSIDE: [Entry; 4] = [
    (
        Topic::Inside(100),
        "",
        "The number of the crate mx_registers for what the program prints as 114\n\
        StackFull.",
        "",
        "",
    ),
    (
        Topic::Inside(101),
        "",
        "The number of the crate mx_registers for what the program prints as 115\n\
        Underflow.",
        "",
        "",
    ),
    (
        Topic::Inside(102),
        "",
        "The number of the crate mx_registers for what the program prints as 116\n\
        BadFrame.",
        "",
        "",
    ),
    (
        Topic::Inside(140),
        "",
        "The answer of the crate mx_back where no step is kept that could be taken\n\
        back. The program asks only for steps that are kept, so it never prints\n\
        it.",
        "",
        "",
    ),
];
