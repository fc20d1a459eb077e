//! Tries from outside: those of the format's worked objects, and small ones made by hand from its
//! description.

use mx_stab::{StabFault, read, write};
use mx_word::{Bytes, NoMemory, Symbol, Symbols, Value};
use std::alloc::Global;

/// A list of symbols.
fn symbols(alloc: Global, of: &[(&[u8], Value, u32)]) -> Result<Symbols, NoMemory> {
    let mut symbols = Symbols::new(alloc);
    for (name, value, serial) in of {
        symbols.push(Symbol {
            name: Bytes::copy(alloc, name)?,
            value: *value,
            serial: *serial,
        })?;
    }
    Ok(symbols)
}

/// Whether these bytes are read as these symbols.
fn is_read(alloc: Global, bytes: &[u8], of: &[(&[u8], Value, u32)]) -> bool {
    match read(alloc, bytes) {
        Ok(symbols) => {
            symbols.as_slice().len() == of.len()
                && symbols.as_slice().iter().zip(of).all(|(s, (name, value, serial))| {
                    s.name.as_slice() == *name && s.value == *value && s.serial == *serial
                })
        }
        Err(_) => false,
    }
}

/// Whether these symbols are written as these bytes, and read from them.
fn is_written(alloc: Global, of: &[(&[u8], Value, u32)], want: &[u8]) -> bool {
    match symbols(alloc, of) {
        Ok(symbols) => match write(alloc, &symbols) {
            Ok(bytes) => bytes.as_slice() == want && is_read(alloc, want, of),
            Err(_) => false,
        },
        Err(_) => false,
    }
}

/// A symbol's name, value and serial number.
type Row = (&'static [u8], Value, u32);

/// Symbols, their trie, and what the row shows.
static WRITTEN: [(&[Row], &[u8], &str); 6] = [
    (&[], b"", "no symbols"),
    (
        &[
            (b":Main", Value::Pure(0x100), 2),
            (b":String", Value::Pure(0x114), 3),
            (b":argv", Value::Reg(1), 1),
        ],
        &[
            0x20, 0x3a, 0x30, 0x4d, 0x20, 0x61, 0x20, 0x69, 0x02, 0x6e, 0x01, 0x00, 0x82, 0x30,
            0x53, 0x20, 0x74, 0x20, 0x72, 0x20, 0x69, 0x20, 0x6e, 0x02, 0x67, 0x01, 0x14, 0x83,
            0x20, 0x61, 0x20, 0x72, 0x20, 0x67, 0x0f, 0x76, 0x01, 0x81,
        ],
        "the symbols of the worked object of `hello.mms`",
    ),
    (
        &[
            (b":Main", Value::Pure(0x104), 2),
            (b":Text", Value::Pure(0x100), 1),
        ],
        &[
            0x20, 0x3a, 0x30, 0x4d, 0x20, 0x61, 0x20, 0x69, 0x02, 0x6e, 0x01, 0x04, 0x82, 0x20,
            0x54, 0x20, 0x65, 0x20, 0x78, 0x02, 0x74, 0x01, 0x00, 0x81,
        ],
        "the symbols of the worked object of `first.mms`",
    ),
    (
        &[
            (b":", Value::Reg(255), 4),
            (b":a", Value::Pure(0xff), 3),
            (b":ab", Value::Pure(0x100), 2),
            (b":b", Value::Pure(0x100_0000), 1),
        ],
        &[
            0x2f, 0x3a, 0xff, 0x84, 0x31, 0x61, 0xff, 0x83, 0x02, 0x62, 0x01, 0x00, 0x82, 0x04,
            0x62, 0x01, 0x00, 0x00, 0x00, 0x81,
        ],
        "names that go on",
    ),
    (
        &[
            (b":a", Value::Pure(0x1fff_ffff_ffff_ffff), 1),
            (b":b", Value::Pure(0x2000_0000_0000_0000), 2),
            (b":c", Value::Pure(0x2000_ffff_ffff_ffff), 128),
            (b":d", Value::Pure(0x2001_0000_0000_0000), 0xffff_ffff),
        ],
        &[
            0x20, 0x3a, 0x18, 0x61, 0x1f, 0xff, 0xff, 0xff, 0xff, 0xff, 0xff, 0xff, 0x81, 0x19,
            0x62, 0x00, 0x82, 0x1e, 0x63, 0xff, 0xff, 0xff, 0xff, 0xff, 0xff, 0x01, 0x80, 0x08,
            0x64, 0x20, 0x01, 0x00, 0x00, 0x00, 0x00, 0x00, 0x00, 0x0f, 0x7f, 0x7f, 0x7f, 0xff,
        ],
        "values beside 2^61, long serials",
    ),
    (
        &[(b":\xc3\xa9", Value::Pure(5), 1)],
        &[0x20, 0x3a, 0x20, 0xc3, 0x01, 0xa9, 0x05, 0x81],
        "a character of UTF-8 byte by byte",
    ),
];

#[test]
fn symbols_are_written(rt: HostRuntime) {
    for (symbols, trie, what) in &WRITTEN {
        assert!(rt; is_written(rt.alloc(), symbols, trie), "{what}");
    }
}

/// Characters of two bytes, and the symbol of a colon and one of them.
static WIDE: [([u8; 2], &[u8]); 7] = [
    ([0x00, 0x80], &[0x3a, 0xc2, 0x80]),
    ([0x00, 0xe9], &[0x3a, 0xc3, 0xa9]),
    ([0x07, 0xff], &[0x3a, 0xdf, 0xbf]),
    ([0x08, 0x00], &[0x3a, 0xe0, 0xa0, 0x80]),
    ([0xd7, 0xff], &[0x3a, 0xed, 0x9f, 0xbf]),
    ([0xe0, 0x00], &[0x3a, 0xee, 0x80, 0x80]),
    ([0xff, 0xff], &[0x3a, 0xef, 0xbf, 0xbf]),
];

/// Whether a trie of a colon and a character of two bytes is read as a symbol of this name.
fn is_read_wide(alloc: Global, character: &[u8; 2], name: &[u8]) -> bool {
    let [high, low] = character;
    let bytes = [0x20, 0x3a, 0x81, *high, *low, 5, 0x81, 0];
    is_read(alloc, &bytes, &[(name, Value::Pure(5), 1)])
}

/// Tries, their symbols, and what the row shows.
static READ: [(&[u8], &[Row], &str); 4] = [
    (&[0, 0, 0, 0], &[], "one node with no symbol, padded"),
    (
        &[
            0x20, 0x3a, 0x40, 0x40, 0x10, 0x40, 0x40, 0x20, 0x4d, 0x20, 0x61, 0x20, 0x69, 0x01,
            0x6e, 0x00, 0x81, 0x00, 0x00, 0x00,
        ],
        &[(b":Main", Value::Pure(0), 1)],
        "nodes without a character",
    ),
    (
        &[
            0x51, 0x01, 0x62, 0x00, 0x00, 0x81, 0x61, 0x08, 0x82, 0x08, 0x63, 0x01, 0x02, 0x03,
            0x04, 0x05, 0x06, 0x07, 0x08, 0x0f, 0x7f, 0x7f, 0x7f, 0xff, 0x00,
        ],
        &[
            (b"b", Value::Pure(0), 1),
            (b"a", Value::Pure(8), 2),
            (b"c", Value::Pure(0x0102_0304_0506_0708), 0xffff_ffff),
        ],
        "left before right, names out of order, serials with zeros",
    ),
    (
        &[
            0x29, 0x3a, 0x00, 0x80, 0x1e, 0x61, 0xff, 0xff, 0xff, 0xff, 0xff, 0xff, 0x83, 0x0f,
            0x62, 0xff, 0x84,
        ],
        &[
            (b":", Value::Pure(0x2000_0000_0000_0000), 0),
            (b":a", Value::Pure(0x2000_ffff_ffff_ffff), 3),
            (b":b", Value::Reg(255), 4),
        ],
        "values from 2^61 on, and a register",
    ),
];

#[test]
fn tries_are_read(rt: HostRuntime) {
    let alloc = rt.alloc();
    for (trie, symbols, what) in &READ {
        assert!(rt; is_read(alloc, trie, symbols), "{what}");
    }
    for (character, name) in &WIDE {
        assert!(rt; is_read_wide(alloc, character, name), "{character:?}");
    }
}

/// Tries, and the fault that is met first.
static FAULTY: [(&[u8], StabFault); 19] = [
    // nodes without a character, cut off before the serial number, and with one more byte, which is not 0
    (
        &[
            0x20, 0x3a, 0x40, 0x40, 0x10, 0x40, 0x40, 0x20, 0x4d, 0x20, 0x61, 0x20, 0x69, 0x01,
            0x6e, 0x00,
        ],
        StabFault::Truncated(16),
    ),
    (
        &[
            0x20, 0x3a, 0x40, 0x40, 0x10, 0x40, 0x40, 0x20, 0x4d, 0x20, 0x61, 0x20, 0x69, 0x01,
            0x6e, 0x00, 0x81, 0x00, 0x00, 0x01,
        ],
        StabFault::Padding(17),
    ),
    (&[0x20], StabFault::Truncated(1)),
    (&[0x08, 0x3a, 1, 2, 3], StabFault::Truncated(5)),
    (&[0x01, 0x3a, 0, 1, 2], StabFault::Truncated(5)),
    (&[0x81, 0xd8], StabFault::Truncated(2)),
    (&[0x01, 0x3a, 0, 0x81, 0, 0, 0, 0], StabFault::Padding(4)),
    (&[0xc0, 0x80], StabFault::Wide(0)),
    (&[0x40, 0x80], StabFault::Wide(1)),
    (&[0x81, 0x00, 0x7f], StabFault::Wide(0)),
    (
        &[0x20, 0x3a, 0x81, 0xd8, 0x00, 5, 0x81, 0],
        StabFault::Wide(2),
    ),
    (&[0x81, 0xdf, 0xff], StabFault::Wide(0)),
    (&[0xc1, 0x01, 0x61, 0, 0x81, 0xdf, 0xff], StabFault::Wide(0)),
    (&[0xc1, 0x80, 0xdf, 0xff], StabFault::Wide(1)),
    (
        &[0x11, 0x3a, 0, 0x81, 0x01, 0x3a, 0, 0x82],
        StabFault::Twice(4),
    ),
    (
        &[0x41, 0x01, 0x3a, 0, 0x81, 0x3a, 0, 0x82],
        StabFault::Twice(0),
    ),
    (
        &[
            0x11, 0x62, 0, 0x81, 0x11, 0x61, 0, 0x82, 0x01, 0x62, 0, 0x83,
        ],
        StabFault::Twice(8),
    ),
    (
        &[0x91, 0x00, 0xe9, 0, 0x81, 0x20, 0xc3, 0x01, 0xa9, 0, 0x82],
        StabFault::Twice(7),
    ),
    (
        &[0x11, 0x3a, 0, 0x81, 0x01, 0x3a, 0, 0x10, 0, 0, 0, 0x80],
        StabFault::BadSerial(4),
    ),
];

/// The fault for which a trie is refused, if it is.
fn fault_of(alloc: Global, bytes: &[u8]) -> Option<StabFault> {
    read(alloc, bytes).err()
}

#[test]
fn faults_are_met_in_their_order(rt: HostRuntime) {
    for (bytes, fault) in &FAULTY {
        assert_eq!(rt; fault_of(rt.alloc(), bytes), Some(*fault));
    }
}

/// What reading many of the same bytes, and some after them, answers.
fn of_many(alloc: Global, bytes: &[u8], times: u32, following: &[u8]) -> Option<StabFault> {
    let mut all = Vec::new(alloc);
    for _turn in 0..times {
        if all.extend_from_slice(bytes).is_err() {
            return Some(StabFault::OutOfMemory);
        }
    }
    if all.extend_from_slice(following).is_err() {
        return Some(StabFault::OutOfMemory);
    }
    read(alloc, all.as_slice()).err()
}

/// Bytes this many times, bytes after them, and the fault.
static LONG: [(&[u8], u32, &[u8], Option<StabFault>); 7] = [
    (&[0x40], 262_140, &[], Some(StabFault::Truncated(262_140))),
    (&[0x70], 262_140, &[], Some(StabFault::Truncated(262_140))),
    (&[0x20, 0x61], 1024, &[], Some(StabFault::Truncated(2048))),
    (&[0x20, 0x61], 1025, &[], Some(StabFault::TooLong(2048))),
    (&[0x20, 0x61], 1022, &[0x81, 0x00, 0xe9, 0, 0x81], None),
    (
        &[0x20, 0x61],
        1023,
        &[0x81, 0x00, 0xe9, 0, 0x81],
        Some(StabFault::TooLong(2046)),
    ),
    (
        &[0x20, 0x61],
        1024,
        &[0x81, 0xd8, 0x00, 0, 0x81],
        Some(StabFault::Wide(2048)),
    ),
];

#[test]
fn long_tries_are_read(rt: HostRuntime) {
    for (bytes, times, following, fault) in &LONG {
        assert_eq!(rt;
            of_many(rt.alloc(), bytes, *times, following),
            *fault,
            "{times} times"
        );
    }
}
