//! Values from outside.

use mx_word::{
    Awaited, Bytes, Symbol, Symbols, Value, Wait, WaitKind, Waits, is_digit, is_hexadecimal,
    is_letter, is_name_byte, octa_bytes, octa_of, product, quotient, signed, tetra_bytes, tetra_of,
};
use std::alloc::Global;
use std::process::Abort;

/// Factors, and the halves of their product: at the edges, and one of mixed digits.
static PRODUCTS: [(u64, u64, (u64, u64)); 3] = [
    (0, u64::MAX, (0, 0)),
    (u64::MAX, u64::MAX, (0xffff_ffff_ffff_fffe, 1)),
    (
        0x0123_4567_89ab_cdef,
        0xfedc_ba98_7654_3210,
        (0x0121_fa00_ad77_d742, 0x2236_d88f_e561_8cf0),
    ),
];

/// The halves of a dividend, a divisor, and the quotient and the remainder: the divisor at, below and above
/// the high half.
static QUOTIENTS: [(u64, u64, u64, Option<(u64, u64)>); 5] = [
    (1, 0, 2, Some((1 << 63, 0))),
    (2, 0, 2, None),
    (0, 0, 0, None),
    (0, 7, 2, Some((3, 1))),
    (5, 7, 11, Some((8_384_883_669_867_978_007, 10))),
];

#[test]
fn products(rt: HostRuntime) {
    for (x, y, want) in &PRODUCTS {
        assert_eq!(rt; product(*x, *y), *want, "{x} times {y}");
    }
}

#[test]
fn quotients(rt: HostRuntime) {
    for (d, y, z, want) in &QUOTIENTS {
        assert_eq!(rt; quotient(*d, *y, *z), *want, "{d} and {y} by {z}");
    }
}

/// A byte, and whether it is a digit, a hexadecimal digit, a letter, a letter or a digit.
static KINDS: [(u8, bool, bool, bool, bool); 15] = [
    (b'/', false, false, false, false),
    (b'0', true, true, false, true),
    (b'9', true, true, false, true),
    (b':', false, false, true, true),
    (b'@', false, false, false, false),
    (b'F', false, true, true, true),
    (b'G', false, false, true, true),
    (b'[', false, false, false, false),
    (b'_', false, false, true, true),
    (b'f', false, true, true, true),
    (b'g', false, false, true, true),
    (b'{', false, false, false, false),
    (126, false, false, false, false),
    (127, false, false, true, true),
    (255, false, false, true, true),
];

#[test]
fn kinds_of_bytes(rt: HostRuntime) {
    for (byte, digit, hexadecimal, letter, word) in &KINDS {
        assert_eq!(rt;
            (
                is_digit(*byte),
                is_hexadecimal(*byte),
                is_letter(*byte),
                is_name_byte(*byte)
            ),
            (*digit, *hexadecimal, *letter, *word),
            "byte {byte}"
        );
    }
}

/// Octas, and the numbers that they are with a sign.
static SIGNED: [(u64, i64); 4] = [
    (5, 5),
    (u64::MAX, -1),
    (1 << 63, i64::MIN),
    ((1 << 63) - 1, i64::MAX),
];

/// An octa and a tetra, and their bytes.
static WORDS: ([u8; 8], u64, [u8; 4], u32) = (
    [1, 2, 3, 4, 5, 6, 7, 0xf8],
    0x0102_0304_0506_07f8,
    [0xf5, 0xff, 0xff, 1],
    0xf5ff_ff01,
);

#[test]
fn bytes_of_words(rt: HostRuntime) {
    let (eight, octa, four, tetra) = &WORDS;
    assert_eq!(rt;
        (
            octa_bytes(*octa),
            octa_of(*eight),
            tetra_bytes(*tetra),
            tetra_of(*four)
        ),
        WORDS
    );
}

#[test]
fn signed_octas(rt: HostRuntime) {
    for (x, want) in &SIGNED {
        assert_eq!(rt; signed(*x), *want, "{x}");
    }
}

/// A copy of bytes.
fn copy(rt: &impl Abort, alloc: Global, bytes: &[u8]) -> Bytes {
    Bytes::copy(alloc, bytes).expect(rt, "memory")
}

/// A list of bytes, built by each of its calls.
fn bytes(rt: &impl Abort, alloc: Global) -> Bytes {
    let mut bytes = copy(rt, alloc, b"ab");
    bytes.push(99).expect(rt, "memory");
    bytes.extend(b"de").expect(rt, "memory");
    bytes.overwrite(7, b"z").expect(rt, "memory");
    bytes
}

/// A list of one symbol.
fn symbols(rt: &impl Abort, alloc: Global) -> Symbols {
    let mut symbols = Symbols::new(alloc);
    let symbol = Symbol {
        name: copy(rt, alloc, b":a"),
        value: Value::Reg(1),
        serial: 1,
    };
    symbols.push(symbol).expect(rt, "memory");
    symbols
}

/// A list of one reference.
fn waits(rt: &impl Abort, alloc: Global) -> Waits {
    let mut waits = Waits::new(alloc);
    let wait = Wait {
        who: Awaited::Local(2),
        at: 256,
        line: 3,
        kind: WaitKind::Near,
    };
    waits.push(wait).expect(rt, "memory");
    waits
}

/// The only symbol of a list.
fn only_symbol(symbols: &Symbols) -> Option<(&[u8], Value, u32)> {
    match symbols.as_slice() {
        [symbol] => Some((symbol.name.as_slice(), symbol.value, symbol.serial)),
        _ => None,
    }
}

/// The name of the last symbol, taken out of its list.
fn taken_name(rt: &impl Abort, symbols: Symbols) -> Bytes {
    symbols.into_vec().pop().expect(rt, "a symbol").name
}

/// The only reference of a list, without what it waits for.
fn only_wait(waits: &Waits) -> Option<(u64, u32, WaitKind)> {
    match waits.as_slice() {
        [wait] => Some((wait.at, wait.line, wait.kind)),
        _ => None,
    }
}

/// Whether the only reference of a list waits for local labels 2 and 3, and for a name.
fn waits_for(waits: &Waits, name: Bytes) -> [bool; 3] {
    match waits.as_slice() {
        [wait] => [
            wait.who.is_same(&Awaited::Local(2)),
            wait.who.is_same(&Awaited::Local(3)),
            wait.who.is_same(&Awaited::Name(name)),
        ],
        _ => [false; 3],
    }
}

/// The bytes, the symbol, the reference, and what it waits for.
type Lists<'a> = (
    &'a [u8],
    Option<(&'a [u8], Value, u32)>,
    Option<(u64, u32, WaitKind)>,
    [bool; 3],
);

static LISTS: Lists<'static> = (
    b"abcde\0\0z",
    Some((b":a", Value::Reg(1), 1)),
    Some((256, 3, WaitKind::Near)),
    [true, false, false],
);

/// Compares the lists with `LISTS`.
fn lists_are(
    rt: &impl Abort,
    bytes: &Bytes,
    symbols: &Symbols,
    waits: &Waits,
    waits_for: [bool; 3],
) {
    assert_eq!(rt;
        (
            bytes.as_slice(),
            only_symbol(symbols),
            only_wait(waits),
            waits_for
        ),
        LISTS
    );
}

#[test]
fn lists_with_ample_memory(rt: HostRuntime) {
    let alloc = rt.alloc();
    let waits = waits(&rt, alloc);
    let kinds = waits_for(&waits, taken_name(&rt, symbols(&rt, alloc)));
    lists_are(&rt, &bytes(&rt, alloc), &symbols(&rt, alloc), &waits, kinds);
}
