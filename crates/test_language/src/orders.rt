//! Words that are orders, row by row.

use mx_words::{Command, Order, read};
use std::alloc::{AllocError, Global};

/// An order by its command, ring, steps, interactive, dump, file, rest, number, report, last and schedule.
pub type Fields = (
    Command,
    u32,
    u64,
    bool,
    bool,
    usize,
    usize,
    u64,
    bool,
    u64,
    usize,
);

/// Words with one blank between two of them, and their order.
static ORDERS: [(&str, Fields); 25] = [
    (
        "run a.mms",
        (
            Command::Run,
            256,
            1_000_000_000,
            false,
            false,
            1,
            2,
            0,
            false,
            0,
            0,
        ),
    ),
    (
        "sim a.mmo x -y",
        (
            Command::Sim,
            256,
            1_000_000_000,
            false,
            false,
            1,
            2,
            0,
            false,
            0,
            0,
        ),
    ),
    (
        "run ",
        (
            Command::Run,
            256,
            1_000_000_000,
            false,
            false,
            1,
            2,
            0,
            false,
            0,
            0,
        ),
    ),
    (
        "run --dump a.mms",
        (
            Command::Run,
            256,
            1_000_000_000,
            false,
            true,
            2,
            3,
            0,
            false,
            0,
            0,
        ),
    ),
    (
        "run a.mms --dump",
        (
            Command::Run,
            256,
            1_000_000_000,
            false,
            false,
            1,
            2,
            0,
            false,
            0,
            0,
        ),
    ),
    (
        "sim --steps 1 --ring 65536 --dump a.mmo",
        (Command::Sim, 65_536, 1, false, true, 6, 7, 0, false, 0, 0),
    ),
    (
        "run --steps 1000000000000 a.mms",
        (
            Command::Run,
            256,
            1_000_000_000_000,
            false,
            false,
            3,
            4,
            0,
            false,
            0,
            0,
        ),
    ),
    (
        "run --steps 0000000000010 a.mms",
        (Command::Run, 256, 10, false, false, 3, 4, 0, false, 0, 0),
    ),
    // the console, once or more often
    (
        "run -i a.mms",
        (
            Command::Run,
            256,
            1_000_000_000,
            true,
            false,
            2,
            3,
            0,
            false,
            0,
            0,
        ),
    ),
    (
        "sim -i --dump -i --steps 9 a.mmo -i",
        (Command::Sim, 256, 9, true, true, 6, 7, 0, false, 0, 0),
    ),
    (
        "run a.mms -i",
        (
            Command::Run,
            256,
            1_000_000_000,
            false,
            false,
            1,
            2,
            0,
            false,
            0,
            0,
        ),
    ),
    // reports, once or more often
    (
        "run --report a.mms",
        (
            Command::Run,
            256,
            1_000_000_000,
            false,
            false,
            2,
            3,
            0,
            true,
            0,
            0,
        ),
    ),
    (
        "sim --report --dump --report a.mmo -i",
        (
            Command::Sim,
            256,
            1_000_000_000,
            false,
            true,
            4,
            5,
            0,
            true,
            0,
            0,
        ),
    ),
    (
        "run -i a.mms --report",
        (
            Command::Run,
            256,
            1_000_000_000,
            true,
            false,
            2,
            3,
            0,
            false,
            0,
            0,
        ),
    ),
    // the last option counts
    (
        "run --ring 512 --steps 7 --ring 1024 --steps 8 a",
        (Command::Run, 1024, 8, false, false, 9, 10, 0, false, 0, 0),
    ),
    (
        "asm a.mms a.mmo",
        (
            Command::Asm,
            256,
            1_000_000_000,
            false,
            false,
            1,
            2,
            0,
            false,
            0,
            0,
        ),
    ),
    (
        "asm a.mms -x",
        (
            Command::Asm,
            256,
            1_000_000_000,
            false,
            false,
            1,
            2,
            0,
            false,
            0,
            0,
        ),
    ),
    (
        "gen 1",
        (
            Command::Gen,
            256,
            1_000_000_000,
            false,
            false,
            0,
            0,
            1,
            false,
            0,
            0,
        ),
    ),
    (
        "gen 10000",
        (
            Command::Gen,
            256,
            1_000_000_000,
            false,
            false,
            0,
            0,
            10_000,
            false,
            0,
            0,
        ),
    ),
    (
        "gen --ring 4096 010",
        (
            Command::Gen,
            4096,
            1_000_000_000,
            false,
            false,
            0,
            0,
            10,
            false,
            0,
            0,
        ),
    ),
    // the place after the object has no word
    (
        "type a.mmo",
        (
            Command::Show,
            256,
            1_000_000_000,
            false,
            false,
            1,
            2,
            0,
            false,
            0,
            0,
        ),
    ),
    // the object after the schedule may begin with a dash
    (
        "multi s -x",
        (
            Command::Multi,
            256,
            1_000_000_000,
            false,
            false,
            2,
            3,
            0,
            false,
            0,
            1,
        ),
    ),
    (
        "multi --ring 512 --steps 5 --dump s a.mmo",
        (Command::Multi, 512, 5, false, true, 7, 8, 0, false, 0, 6),
    ),
    // the last one counts, and it goes with the dump
    (
        "run --last 3 --last 1 a.mms",
        (
            Command::Run,
            256,
            1_000_000_000,
            false,
            false,
            5,
            6,
            0,
            false,
            1,
            0,
        ),
    ),
    (
        "sim --last 1024 --dump a.mmo",
        (
            Command::Sim,
            256,
            1_000_000_000,
            false,
            true,
            4,
            5,
            0,
            false,
            1024,
            0,
        ),
    ),
];

/// The words of a line; an empty line has none.
fn words(alloc: Global, line: &str) -> Result<Vec<String>, AllocError> {
    let mut words = Vec::new(alloc);
    if line.is_empty() {
        return Ok(words);
    }
    for word in line.split(' ') {
        words.push(String::from_str(alloc, word)?)?;
    }
    Ok(words)
}

/// The fields of an order.
fn fields(order: &Order) -> Fields {
    (
        order.command,
        order.ring.registers(),
        order.steps,
        order.interactive,
        order.dump,
        order.file,
        order.rest,
        order.number,
        order.report,
        order.last,
        order.schedule,
    )
}

/// What the words of a line order, or the kind and the word of their fault; 0 where there is no memory.
pub fn read_order(alloc: Global, line: &str) -> Result<Fields, (u16, usize)> {
    let Ok(words) = words(alloc, line) else {
        return Err((0, 0));
    };
    match read(words.as_slice()) {
        Ok(order) => Ok(fields(&order)),
        Err(fault) => Err((fault.kind, fault.word)),
    }
}

#[test]
fn orders(rt: HostRuntime) {
    for (line, order) in &ORDERS {
        assert_eq!(rt; read_order(rt.alloc(), line), Ok(*order), "{line}");
    }
}
