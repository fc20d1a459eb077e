//! Words that are no orders, row by row.

use crate::orders::read_order;

/// Words with one blank between two of them, and their fault.
static FAULTS: [(&str, u16, usize); 79] = [
    // no word
    ("", 1, 0),
    // the command
    ("go", 2, 0),
    ("RUN a.mms", 2, 0),
    ("--dump run a.mms", 2, 0),
    // a file or a number is missing
    ("run", 7, 1),
    ("run --dump", 7, 2),
    ("sim -i", 7, 2),
    ("sim --ring 512", 7, 3),
    ("asm", 7, 1),
    ("asm a.mms", 7, 2),
    ("gen", 7, 1),
    ("gen --ring 256", 7, 3),
    ("type", 7, 1),
    ("multi", 7, 1),
    ("multi s", 7, 2),
    ("multi --dump s", 7, 3),
    // options that the command does not have
    ("run -x a.mms", 3, 1),
    ("run - a.mms", 3, 1),
    ("run -I a.mms", 3, 1),
    ("run --dumps a.mms", 3, 1),
    ("run --dump -x a.mms", 3, 2),
    ("sim --ring 512 --reports a.mmo", 3, 3),
    ("asm --report a.mms a.mmo", 3, 1),
    ("gen --report 1", 3, 1),
    ("type --report a.mmo", 3, 1),
    ("asm --last 5 a.mms a.mmo", 3, 1),
    ("gen --last 5 1", 3, 1),
    ("type --last 5 a.mmo", 3, 1),
    ("multi --last 5 s a.mmo", 3, 1),
    ("asm --ring 256 a.mms a.mmo", 3, 1),
    ("asm -x", 3, 1),
    ("gen --steps 5 5", 3, 1),
    ("gen --dump 5", 3, 1),
    ("gen -i 5", 3, 1),
    ("asm -i a.mms a.mmo", 3, 1),
    ("gen -5", 3, 1),
    ("type --ring 256 a.mmo", 3, 1),
    ("type -i a.mmo", 3, 1),
    ("type -", 3, 1),
    ("multi -i a b", 3, 1),
    ("multi --report a b", 3, 1),
    ("multi --dump -x a", 3, 2),
    // a value is missing
    ("run --steps", 4, 2),
    ("run --dump --ring", 4, 3),
    ("gen --ring", 4, 2),
    ("multi --steps", 4, 2),
    ("run --last", 4, 2),
    // no number, or out of its range
    ("run --steps 0 a.mms", 5, 2),
    ("run --steps 1000000000001 a.mms", 5, 2),
    ("run --steps 00000000000001 a.mms", 5, 2),
    ("run --steps +5 a.mms", 5, 2),
    ("run --steps -5 a.mms", 5, 2),
    ("run --steps  a.mms", 5, 2),
    ("run --ring 25x a.mms", 5, 2),
    ("gen 0", 5, 1),
    ("gen 10001", 5, 1),
    ("gen x 5", 5, 1),
    ("multi --steps 0 s a.mmo", 5, 2),
    ("run --last 0 a.mms", 5, 2),
    ("sim --last 1025 a.mmo", 5, 2),
    ("run --last x a.mms", 5, 2),
    // no size of a ring; the first fault counts
    ("run --ring 300 a.mms", 6, 2),
    ("run --ring 131072 a.mms", 6, 2),
    ("gen --ring 4294967552 --dump", 6, 2),
    ("multi --ring 300 s a.mmo", 6, 2),
    // too many words
    ("asm a b c", 8, 3),
    ("gen 5 6", 8, 2),
    ("type a.mmo b.mmo", 8, 2),
    ("type a.mmo -x", 8, 2),
    ("multi a b c", 8, 3),
    ("multi --dump a -b c", 8, 4),
    // two of the console, reports and steps taken back in one order: the later word
    ("run -i --report x", 10, 2),
    ("run --report --dump -i x", 10, 3),
    ("sim --report -i", 10, 2),
    ("run -i --last x a.mms", 10, 2),
    ("run --last 5 -i a.mms", 10, 3),
    ("run --report --last 5 a.mms", 10, 2),
    ("sim --last 5 --report a.mmo", 10, 3),
    ("run -i --last", 10, 2),
];

#[test]
fn faults(rt: HostRuntime) {
    for (line, kind, word) in &FAULTS {
        assert_eq!(rt; read_order(rt.alloc(), line), Err((*kind, *word)), "{line}");
    }
}
