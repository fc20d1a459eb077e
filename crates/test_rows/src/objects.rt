//! Objects that are written and run. Their tetras were put together by hand from the table of the
//! format.

use crate::rows::{
    Due, FIRST, HELLO, comes_from, comes_to, due_done, due_refused, due_stopped, file, host,
    outcome_over,
};
use mx_top::Outcome;
use std::alloc::Global;
use std::test::Fail;

/// The object of the program that prints its own name.
const HELLO_OBJECT: [u32; 31] = [
    // pre; file 0, ".mms"; loc #100, line 3
    0x9809_0101,
    0,
    0x9806_0001,
    0x2e6d_6d73,
    0x9801_0001,
    0x0000_0100,
    0x9807_0003,
    0x8fff_0100,
    0x0000_0701,
    0xf4ff_0000,
    0x0000_0701,
    0x0000_0000,
    // fixr 3, for String at #114; then its bytes
    0x9804_0003,
    0x2c20_776f,
    0x726c_640a,
    0x0000_0000,
    // post, stab and the trie, end
    0x980a_00ff,
    0x0000_0000,
    0x0000_0100,
    0x980b_0000,
    0x203a_304d,
    0x2061_2069,
    0x026e_0100,
    0x8230_5320,
    0x7420_7220,
    0x6920_6e02,
    0x6701_1483,
    0x2061_2072,
    0x2067_0f76,
    0x0181_0000,
    0x980c_000a,
];

/// The object of the first program.
const FIRST_OBJECT: [u32; 22] = [
    0x9809_0101,
    0,
    0x9806_0001,
    0x2e6d_6d73,
    0x9801_0001,
    0x0000_0100,
    0x9807_0002,
    0x6869_0a00,
    0xf5ff_ffff,
    0x0000_0701,
    0x0000_0000,
    0x980a_00ff,
    0x0000_0000,
    0x0000_0104,
    0x980b_0000,
    0x203a_304d,
    0x2061_2069,
    0x026e_0104,
    0x8220_5420,
    0x6520_7802,
    0x7401_0081,
    0x980c_0006,
];

/// The bytes of tetras, and some more after them.
pub(crate) fn bytes(alloc: Global, tetras: &[u32], more: &[u8]) -> Result<Vec<u8>, Fail> {
    let mut made = Vec::new(alloc);
    for tetra in tetras {
        made.extend_from_slice(&tetra.to_be_bytes())?;
    }
    made.extend_from_slice(more)?;
    Ok(made)
}

/// Whether `sim a.mmo` comes to what is due of an object.
fn sim(alloc: Global, object: &[u8], due: Due) -> Result<bool, Fail> {
    comes_from(alloc, file("a.mmo", object), &["sim", "a.mmo"], due)
}

pub(crate) fn bad<'a>(place: u64, fault: u16, errors: &'a [u8]) -> Due<'a> {
    Due {
        outcome: Outcome::BadObject { place, fault },
        output: b"",
        errors,
    }
}

/// Whether `asm hello.mms hello.mmo` comes to what is due of a source, and leaves these tetras.
fn assembles(alloc: Global, source: &str, due: Due, tetras: &[u32]) -> Result<bool, Fail> {
    let left = bytes(alloc, tetras, b"")?;
    let mut host = host(alloc, file("hello.mms", source.as_bytes()))?;
    let is_due = comes_to(alloc, &mut host, &["asm", "hello.mms", "hello.mmo"], due)?;
    Ok(is_due && host.file(b"hello.mmo") == Some(left.as_slice()))
}

/// Sources, and their objects.
static ASSEMBLED: [(&str, &[u32]); 3] = [
    (HELLO, &HELLO_OBJECT),
    (FIRST, &FIRST_OBJECT),
    // a source without its last newline has the same object
    (
        " LOC #100\nText BYTE 104,105,10,0\nMain GETA $255,Text\n TRAP 0,7,1\n TRAP 0,0,0",
        &FIRST_OBJECT,
    ),
];

#[test]
fn sources_become_objects(rt: HostRuntime) -> Result<(), Fail> {
    for (source, tetras) in &ASSEMBLED {
        assert!(rt; assembles(rt.alloc(), source, due_done(0, b""), tetras)?);
    }
    Ok(())
}

#[test]
fn objects_run_as_their_sources(rt: HostRuntime) -> Result<(), Fail> {
    let alloc = rt.alloc();
    let object = bytes(alloc, &HELLO_OBJECT, b"")?;
    let given = file("hello.mmo", object.as_slice());
    let due = due_done(8, b"hello, world\n");
    assert!(rt; comes_from(alloc, given, &["sim", "hello.mmo"], due)?);
    Ok(())
}

/// The items of the statements before a faulty one.
static BEFORE: [u32; 8] = [
    0x9809_0101,
    0,
    0x9806_0001,
    0x2e6d_6d73,
    0x9801_0001,
    0x0000_0100,
    0x9807_0002,
    0xfd00_0000,
];

#[test]
fn refused_sources_leave_what_was_there(rt: HostRuntime) -> Result<(), Fail> {
    let due = due_refused(3, 39, 0, b"line 3: 39 UnknownOpcode\n");
    assert!(rt; assembles(rt.alloc(), " LOC #100\nMain SWYM\n FROB", due, &BEFORE)?);
    Ok(())
}

/// A source of 2,000 tetras.
fn two_thousand(alloc: Global) -> Result<Vec<u8>, Fail> {
    let mut source = Vec::from_slice(alloc, b"Main TRAP 0,0,0\n")?;
    for _line in 1..2000u32 {
        source.extend_from_slice(b" TRAP 0,0,0\n")?;
    }
    Ok(source)
}

/// How many calls of its host assembling a source takes, if it is assembled.
fn calls(alloc: Global, source: &[u8]) -> Result<Option<u64>, Fail> {
    let mut host = host(alloc, file("b.mms", source))?;
    let is_done = comes_to(
        alloc,
        &mut host,
        &["asm", "b.mms", "b.mmo"],
        due_done(0, b""),
    )?;
    Ok(if is_done { Some(host.calls()) } else { None })
}

#[test]
fn objects_in_pieces(rt: HostRuntime) -> Result<(), Fail> {
    let source = two_thousand(rt.alloc())?;
    // open, six pieces and close of the source; open, two pieces and close of the object
    assert_eq!(rt; calls(rt.alloc(), source.as_slice())?, Some(12));
    Ok(())
}

/// The outcome of `sim a.mmo`.
fn outcome_of(alloc: Global, object: &[u8]) -> Result<Outcome, Fail> {
    let mut host = host(alloc, file("a.mmo", object))?;
    outcome_over(alloc, &mut host, &["sim", "a.mmo"])
}

/// How many bytes the first front of an object has that is not refused where its bytes are left over, or at its end.
fn first_other_front(alloc: Global, object: &[u8]) -> Result<Option<usize>, Fail> {
    for count in 0..object.len() {
        let left = count % 4;
        let due = Outcome::BadObject {
            place: (count - left) as u64,
            fault: if left == 0 { 64 } else { 60 },
        };
        if outcome_of(alloc, &object[..count])? != due {
            return Ok(Some(count));
        }
    }
    Ok(None)
}

#[test]
fn cut_objects(rt: HostRuntime) -> Result<(), Fail> {
    let object = bytes(rt.alloc(), &HELLO_OBJECT, b"")?;
    assert_eq!(rt; first_other_front(rt.alloc(), object.as_slice())?, None);
    Ok(())
}

/// The tetras of an object, bytes after them, the place and the number of the fault, and the message.
static BAD: [(&[u32], &[u8], u64, u16, &[u8]); 11] = [
    // a lopcode that does not exist
    (
        &[0x9809_0101, 0, 0x980d_0000],
        b"",
        8,
        62,
        b"byte 8: 62 BadLop\n",
    ),
    // no bytes; no `pre`; a byte that is no tetra
    (&[], b"", 0, 64, b"byte 0: 64 Truncated\n"),
    (&[0], b"", 0, 61, b"byte 0: 61 NoPre\n"),
    (&[0x9809_0101, 0], b"\x98", 8, 60, b"byte 8: 60 NotTetras\n"),
    // a count of the trie that is wrong
    (
        &[
            0x9809_0101,
            0,
            0x980a_00ff,
            0,
            0x100,
            0x980b_0000,
            0x980c_0001,
        ],
        b"",
        24,
        63,
        b"byte 24: 63 BadFields\n",
    ),
    // a trie whose node has the mark of a wide character, but no character; one with more than padding after it
    (
        &[
            0x9809_0101,
            0,
            0x980a_00ff,
            0,
            0x100,
            0x980b_0000,
            0x8000_0000,
            0x980c_0001,
        ],
        b"",
        24,
        72,
        b"byte 24: 72 Wide\n",
    ),
    (
        &[
            0x9809_0101,
            0,
            0x980a_00ff,
            0,
            0x100,
            0x980b_0000,
            0x0040_4040,
            0x980c_0001,
        ],
        b"",
        25,
        71,
        b"byte 25: 71 Padding\n",
    ),
    // a tetra in the stack segment: the place is the tetra's
    (
        &[0x9809_0101, 0, 0x9801_6001, 0, 1, 0x980d_0000],
        b"",
        16,
        95,
        b"byte 16: 95 BadPlace\n",
    ),
    // the same after a fault of reading, which comes first
    (
        &[0x9809_0101, 0, 0x980d_0000, 0x9801_6001, 0, 1],
        b"",
        8,
        62,
        b"byte 8: 62 BadLop\n",
    ),
    // a tetra after the end, and a second end
    (
        &HELLO_OBJECT,
        b"\0\0\0\0",
        128,
        64,
        b"byte 128: 64 Truncated\n",
    ),
    (
        &HELLO_OBJECT,
        b"\x98\x0c\0\x0a",
        124,
        63,
        b"byte 124: 63 BadFields\n",
    ),
];

#[test]
fn bad_objects(rt: HostRuntime) -> Result<(), Fail> {
    for (tetras, more, place, fault, told) in &BAD {
        let object = bytes(rt.alloc(), tetras, more)?;
        assert!(rt; sim(rt.alloc(), object.as_slice(), bad(*place, *fault, told))?);
    }
    Ok(())
}

/// Objects that are run, to a halt at #100.
static HALTING: [&[u32]; 2] = [
    // of another tool: a time in `pre`, a file that is never named, a trie with left branches
    &[
        0x9809_0101,
        0x36f4_a363,
        0x9801_0001,
        0x0000_0100,
        0,
        0x980a_00ff,
        0,
        0x100,
        0x980b_0000,
        0x203a_4040,
        0x1040_4020,
        0x4d20_6120,
        0x6901_6e00,
        0x8100_0000,
        0x980c_0005,
    ],
    // a trie with no symbol, and the padding after it
    &[
        0x9809_0101,
        0,
        0x980a_00ff,
        0,
        0x100,
        0x980b_0000,
        0,
        0x980c_0001,
    ],
];

#[test]
fn objects_that_are_run(rt: HostRuntime) -> Result<(), Fail> {
    for tetras in &HALTING {
        let object = bytes(rt.alloc(), tetras, b"")?;
        assert!(rt; sim(rt.alloc(), object.as_slice(), due_done(0, b""))?);
    }
    Ok(())
}

#[test]
fn objects_that_are_too_long(rt: HostRuntime) -> Result<(), Fail> {
    let mut object = Vec::new(rt.alloc());
    object.resize((1 << 26) + 1, 0)?;
    // more than 2^26 bytes come before any other fault
    let due = bad(1 << 26, 65, b"byte 67108864: 65 TooLong\n");
    assert!(rt; sim(rt.alloc(), object.as_slice(), due)?);
    Ok(())
}

/// An object with a tetra on this many pages.
fn on_pages(alloc: Global, pages: u32) -> Result<Vec<u8>, Fail> {
    let mut object = bytes(alloc, &[0x9809_0101, 0], b"")?;
    for page in 0..pages {
        let address = page.wrapping_mul(4096);
        object.extend_from_slice(&bytes(alloc, &[0x9801_0001, address, 0], b"")?)?;
    }
    let end = [0x980a_00ff, 0, 0x100, 0x980b_0000, 0x980c_0000];
    object.extend_from_slice(&bytes(alloc, &end, b"")?)?;
    Ok(object)
}

/// Whether an object with a tetra on this many pages comes to what is due.
fn pages_give(alloc: Global, pages: u32, due: Due) -> Result<bool, Fail> {
    let object = on_pages(alloc, pages)?;
    sim(alloc, object.as_slice(), due)
}

#[test]
fn full_pages(rt: HostRuntime) -> Result<(), Fail> {
    // with 65,535 pages the arguments have the last one
    assert!(rt; pages_give(rt.alloc(), 65535, due_done(0, b""))?);
    // with 65,536 there is none for them
    let due = due_stopped(0x100, 118, b"#0000000000000100: 118 PagesFull\n");
    assert!(rt; pages_give(rt.alloc(), 65536, due)?);
    // one more is a fault of the object, at the tetra that needs it
    let due = bad(786_448, 90, b"byte 786448: 90 PagesFull\n");
    assert!(rt; pages_give(rt.alloc(), 65537, due)?);
    Ok(())
}
