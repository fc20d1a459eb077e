//! Lines of the console: what they ask for.

use mx_cmd::{Breaks, Command, Subject, parse_command};
use mx_text::Form;

const BASE: u64 = 0x6000_0000_0000_0000;

/// Lines, and the commands that they are.
static LINES: [(&str, Option<Command>); 40] = [
    ("", Some(Command::Step)),
    ("n", Some(Command::Step)),
    ("c", Some(Command::Continue)),
    ("q", Some(Command::Quit)),
    ("s", Some(Command::State)),
    ("B", Some(Command::Flags)),
    // nothing follows them
    ("nn", None),
    ("c ", None),
    // subjects and forms; leading zeros do not count
    (
        "$007",
        Some(Command::Show(Subject::Register(Some(7)), Form::Hex)),
    ),
    (
        "$1!",
        Some(Command::Show(Subject::Register(Some(1)), Form::Decimal)),
    ),
    (
        "g255#",
        Some(Command::Show(Subject::Global(Some(255)), Form::Hex)),
    ),
    (
        "rA\"",
        Some(Command::Show(Subject::Special(Some(21)), Form::Chars)),
    ),
    (
        "rZZ",
        Some(Command::Show(Subject::Special(Some(31)), Form::Hex)),
    ),
    ("M20", Some(Command::Show(Subject::Memory(0x20), Form::Hex))),
    (
        "M#aB!",
        Some(Command::Show(Subject::Memory(0xab), Form::Decimal)),
    ),
    ("$1?", None),
    ("$1!!", None),
    ("$", None),
    ("r", None),
    ("r1", None),
    ("M", None),
    ("M#", None),
    ("M#10000000000000000", None),
    // a name that no register has, and a number of 2^64
    (
        "rQQ",
        Some(Command::Show(Subject::Special(None), Form::Hex)),
    ),
    (
        "$18446744073709551616",
        Some(Command::Show(Subject::Register(None), Form::Hex)),
    ),
    // values
    (
        "$1=5",
        Some(Command::Change(Subject::Register(Some(1)), Some(5))),
    ),
    (
        "$1=-1",
        Some(Command::Change(Subject::Register(Some(1)), Some(u64::MAX))),
    ),
    (
        "$1=-9223372036854775808",
        Some(Command::Change(Subject::Register(Some(1)), Some(1 << 63))),
    ),
    (
        "$1=-9223372036854775809",
        Some(Command::Change(Subject::Register(Some(1)), None)),
    ),
    (
        "$1=#00000000000000000ff",
        Some(Command::Change(Subject::Register(Some(1)), Some(255))),
    ),
    (
        "$1=#10000000000000000",
        Some(Command::Change(Subject::Register(Some(1)), None)),
    ),
    ("$1=", None),
    ("$1=- 5", None),
    // the next octas, addresses and flags
    ("+3!", Some(Command::ShowMore(Some(3), Form::Decimal))),
    ("@#104", Some(Command::GoTo(0x104))),
    (
        "b#104",
        Some(Command::Break(
            Breaks {
                r: false,
                w: false,
                x: false,
            },
            0x104,
        )),
    ),
    (
        "bxrx104",
        Some(Command::Break(
            Breaks {
                r: true,
                w: false,
                x: true,
            },
            0x104,
        )),
    ),
    ("bt104", None),
    ("t104", Some(Command::Trace(0x104))),
    ("u#6000000000000000", Some(Command::Untrace(BASE))),
];

#[test]
fn lines_are_commands(rt: HostRuntime) {
    for (line, command) in &LINES {
        assert_eq!(rt; parse_command(line.as_bytes()), *command, "{line}");
    }
}
