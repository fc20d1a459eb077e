//! Command-line errors.

use mx_explain::{Entry, Topic};

/// Command-line errors.
pub(crate) static KINDS: [Entry; 9] = [
    (
        Topic::Kind(1),
        "",
        "There are no words after the name of the program. The first one is the\n\
        command: run, asm, sim, gen, type or multi. The program itself answers by\n\
        its usage, as it does --help.",
        "",
        "",
    ),
    (
        Topic::Kind(2),
        "",
        "The first word is no command. It comes before the options.",
        "mmixware go",
        "mmixware run hello.mms",
    ),
    (
        Topic::Kind(3),
        "",
        "A word before the file begins with a dash and is no option of this command.\n\
        run and sim have all options; multi has --ring, --steps and --dump; gen has\n\
        --ring; asm and type have none. A file whose name begins with a dash is\n\
        written as ./-x.",
        "mmixware run -x a.mms",
        "mmixware run ./-x",
    ),
    (
        Topic::Kind(4),
        "",
        "The options --ring, --steps and --last take a value, which is the next word.",
        "mmixware run --steps",
        "mmixware run --steps 1000 a.mms",
    ),
    (
        Topic::Kind(5),
        "",
        "A value has 1 to 13 decimal digits and a range: --steps takes 1 to\n\
        1000000000000, --last 1 to 1024, and gen 1 to 10000.",
        "mmixware run --steps 0 a.mms",
        "mmixware run --steps 1 a.mms",
    ),
    (
        Topic::Kind(6),
        "",
        "A ring has a power of two of registers, from 256 to 65536.",
        "mmixware run --ring 300 a.mms",
        "mmixware run --ring 512 a.mms",
    ),
    (
        Topic::Kind(7),
        "",
        "A file, or the number of gen, is missing. asm and multi take two files.",
        "mmixware asm a.mms",
        "mmixware asm a.mms a.mmo",
    ),
    (
        Topic::Kind(8),
        "",
        "A word follows the last one of asm, gen, type or multi. Only run and sim\n\
        pass further words on, to the program.",
        "mmixware asm a b c",
        "mmixware asm a b",
    ),
    (
        Topic::Kind(10),
        "",
        "One command has two of -i, --report and --last, which do not go together.",
        "mmixware run -i --report a.mms",
        "mmixware run --report a.mms",
    ),
];
