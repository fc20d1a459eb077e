//! Objects that are listed. Their tetras were put together by hand from the table of the format, and
//! their lines from that of the lines.

use crate::objects::{bad, bytes};
use crate::rows::{Due, Given, comes_from, comes_to, due_done, file, host};
use mx_top::Outcome;
use std::alloc::Global;
use std::test::Fail;

/// An object with a time and a trie that has left subtries.
static TIMED: [u32; 15] = [
    0x9809_0101,
    0x36f4_a363,
    0x9801_0001,
    0x100,
    0,
    0x980a_00ff,
    0,
    0x100,
    0x980b_0000,
    0x203a_4040,
    0x1040_4020,
    0x4d20_6120,
    0x6901_6e00,
    0x8100_0000,
    0x980c_0005,
];

static TIMED_LINES: &str = "pre 36f4a363
loc #0000000000000100
#0000000000000100 00000000 TRAP 0,0,0
post 255 #0000000000000100
stab 203a4040104040204d20612069016e0081000000
symbol :Main #0000000000000000 1
";

/// Objects in tetras, and their listings.
static LISTED: [(&[u32], &str); 3] = [
    // a tetra in the stack segment, and a line of no file: these are faults only where the object is run
    (
        &[
            0x9809_0101,
            0,
            0x9801_6001,
            0,
            1,
            0x9807_0005,
            0x980a_00ff,
            0,
            0x100,
            0x980b_0000,
            0x980c_0000,
        ],
        "pre 00000000
loc #6000000000000000
#6000000000000000 00000001 TRAP 0,0,1
line 5
post 255 #0000000000000100
stab
",
    ),
    // a jump to the tetra before it; after `skip` the address is lowered for the tetra alone
    (
        &[
            0x9809_0101,
            0,
            0x9801_0001,
            0x100,
            0xf1ff_ffff,
            0x9802_0006,
            0xfd00_0000,
            0x980a_00ff,
            0,
            0x100,
            0x980b_0000,
            0x980c_0000,
        ],
        "pre 00000000
loc #0000000000000100
#0000000000000100 f1ffffff JMP #00000000000000fc
skip 6
#0000000000000108 fd000000 SWYM 0,0,0
post 255 #0000000000000100
stab
",
    ),
    // a spec, whose tetras are not shown; a wide character, a blank with a register, and a value after 2^61
    (
        &[
            0x9809_0100,
            0x9808_0007,
            0x1234_5678,
            0x980a_00fe,
            0,
            1,
            0,
            0x100,
            0x980b_0000,
            0x203a_9103,
            0xb105_811f,
            0x20fe_8209,
            0x7e10_02ac,
            0x980c_0004,
        ],
        "pre
spec 7
post 254 #0000000000000001 #0000000000000100
stab 203a9103b105811f20fe82097e1002ac
symbol :.. #0000000000000005 1
symbol :. $254 2
symbol :~ #2000000000000010 300
",
    ),
];

/// Whether `type a.mmo` comes to what is due of an object.
fn lists(alloc: Global, object: &[u8], due: Due) -> Result<bool, Fail> {
    comes_from(alloc, file("a.mmo", object), &["type", "a.mmo"], due)
}

#[test]
fn objects_are_listed(rt: HostRuntime) -> Result<(), Fail> {
    for (tetras, lines) in &LISTED {
        let object = bytes(rt.alloc(), tetras, b"")?;
        assert!(rt; lists(rt.alloc(), object.as_slice(), due_done(0, lines.as_bytes()))?);
    }
    Ok(())
}

/// How many calls of its host listing an object takes, if this is its listing.
fn calls(alloc: Global, tetras: &[u32], lines: &str) -> Result<Option<u64>, Fail> {
    let object = bytes(alloc, tetras, b"")?;
    let mut host = host(alloc, file("a.mmo", object.as_slice()))?;
    let is_due = comes_to(
        alloc,
        &mut host,
        &["type", "a.mmo"],
        due_done(0, lines.as_bytes()),
    )?;
    Ok(if is_due { Some(host.calls()) } else { None })
}

#[test]
fn each_line_is_one_write(rt: HostRuntime) -> Result<(), Fail> {
    // open, one piece and close of the object; six lines
    assert_eq!(rt; calls(rt.alloc(), &TIMED, TIMED_LINES)?, Some(9));
    Ok(())
}

/// The call that fails, and the lines before it.
static FAILING: [(u64, &[u8]); 3] = [
    (3, b""),
    (5, b"pre 36f4a363\nloc #0000000000000100\n"),
    // the line of the trie
    (
        7,
        b"pre 36f4a363\nloc #0000000000000100\n#0000000000000100 00000000 TRAP 0,0,0\npost 255 #0000000000000100\n",
    ),
];

/// Whether a listing in which a call fails ends at this line.
fn ends(alloc: Global, call: u64, lines: &[u8]) -> Result<bool, Fail> {
    let object = bytes(alloc, &TIMED, b"")?;
    let given = Given {
        failing: &[call],
        ..file("a.mmo", object.as_slice())
    };
    let due = Due {
        outcome: Outcome::HostFault,
        output: lines,
        errors: b"host fault\n",
    };
    comes_from(alloc, given, &["type", "a.mmo"], due)
}

#[test]
fn a_line_that_is_not_written_ends_it(rt: HostRuntime) -> Result<(), Fail> {
    for (call, lines) in &FAILING {
        assert!(rt; ends(rt.alloc(), *call, lines)?);
    }
    Ok(())
}

/// The tetras of an object, bytes after them, the lines, the place and the number of the fault, and the message.
static BAD: [(&[u32], &[u8], &[u8], u64, u16, &[u8]); 5] = [
    // a lopcode that does not exist
    (
        &[0x9809_0101, 0, 0x980d_0000],
        b"",
        b"pre 00000000\n",
        8,
        62,
        b"byte 8: 62 BadLop\n",
    ),
    // no bytes; a byte that is no tetra
    (&[], b"", b"", 0, 64, b"byte 0: 64 Truncated\n"),
    (
        &[0x9809_0101, 0, 0x980a_00ff, 0, 0x100, 0x980b_0000],
        b"\x98",
        b"pre 00000000\npost 255 #0000000000000100\n",
        24,
        60,
        b"byte 24: 60 NotTetras\n",
    ),
    // a node of the trie with the mark of a wide character, but no character; a count of the trie that is wrong
    (
        &[
            0x9809_0101,
            0,
            0x980a_00ff,
            0,
            0x100,
            0x980b_0000,
            0x8000_0000,
            0x980c_0001,
        ],
        b"",
        b"pre 00000000\npost 255 #0000000000000100\n",
        24,
        72,
        b"byte 24: 72 Wide\n",
    ),
    (
        &[
            0x9809_0101,
            0,
            0x980a_00ff,
            0,
            0x100,
            0x980b_0000,
            0x980c_0001,
        ],
        b"",
        b"pre 00000000\npost 255 #0000000000000100\n",
        24,
        63,
        b"byte 24: 63 BadFields\n",
    ),
];

#[test]
fn bad_objects_are_listed_up_to_their_fault(rt: HostRuntime) -> Result<(), Fail> {
    for (tetras, more, lines, place, fault, told) in &BAD {
        let object = bytes(rt.alloc(), tetras, more)?;
        let due = Due {
            output: lines,
            ..bad(*place, *fault, told)
        };
        assert!(rt; lists(rt.alloc(), object.as_slice(), due)?);
    }
    Ok(())
}

#[test]
fn no_line_of_too_many_bytes(rt: HostRuntime) -> Result<(), Fail> {
    let mut object = bytes(rt.alloc(), &TIMED, b"")?;
    object.resize((1 << 26) + 1, 0)?;
    let due = bad(1 << 26, 65, b"byte 67108864: 65 TooLong\n");
    assert!(rt; lists(rt.alloc(), object.as_slice(), due)?);
    Ok(())
}
