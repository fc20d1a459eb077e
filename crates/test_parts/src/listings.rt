//! Listings, row by row. The rows are worked out by hand from the tables of lines and of lopcodes.

use mx_mmo::{MmoFault, Object, Reader, read};
use mx_type::{Lister, listing};
use mx_word::{Bytes, NoMemory, tetra_bytes};
use std::alloc::Global;

/// An object in tetras, and its listing.
type Row = (&'static [u32], &'static str);

/// An object with a time and a trie that has left subtries.
static TIMED: [u32; 15] = [
    0x9809_0101,
    0x36f4_a363,
    0x9801_0001,
    0x100,
    0,
    0x980a_00ff,
    0,
    0x100,
    0x980b_0000,
    0x203a_4040,
    0x1040_4020,
    0x4d20_6120,
    0x6901_6e00,
    0x8100_0000,
    0x980c_0005,
];

/// An object with each lopcode. Its trie has a character of two bytes, a blank with a register, and a
/// value after 2^61.
static EACH: [u32; 39] = [
    // pre, with two tetras
    0x9809_0102,
    0,
    0x2a,
    // a file with a name, loc by a tetra, line
    0x9806_0001,
    0x2e6d_6d73,
    0x9801_0001,
    0x102,
    0x9807_0003,
    // a quoted tetra, and a jump one tetra back
    0x9800_0001,
    0x9800_0001,
    0xf1ff_ffff,
    // skip, and a tetra at the lowered address
    0x9802_0006,
    0xfd00_0000,
    // the three fixes, the last one twice
    0x9803_2001,
    8,
    0x9804_0003,
    0x9805_0010,
    0x0100_ffc0,
    0x9805_0018,
    5,
    // a file without a name, loc by an octa
    0x9806_0000,
    0x9801_0002,
    0xffff_ffff,
    0xffff_fffe,
    // the last tetra of all addresses, and the first
    0,
    0x0000_0701,
    // spec, with a tetra that is skipped
    0x9808_0007,
    0x1234_5678,
    // post
    0x980a_00fe,
    0,
    1,
    0,
    0x100,
    // stab, the trie and end
    0x980b_0000,
    0x203a_9103,
    0xb105_811f,
    0x20fe_8209,
    0x7e10_02ac,
    0x980c_0004,
];

/// An object with neither a tetra nor a symbol.
static BARE: [u32; 6] = [
    0x9809_0100,
    0x980a_00ff,
    0xffff_ffff,
    0xffff_ffff,
    0x980b_0000,
    0x980c_0000,
];

/// Their listings.
static TIMED_LINES: &str = "pre 36f4a363
loc #0000000000000100
#0000000000000100 00000000 TRAP 0,0,0
post 255 #0000000000000100
stab 203a4040104040204d20612069016e0081000000
symbol :Main #0000000000000000 1
";

static EACH_LINES: &str = "pre 00000000 0000002a
file 0 2e6d6d73
loc #0000000000000102
line 3
#0000000000000100 98000001 LDVTS $0,$0,$1
#0000000000000104 f1ffffff JMP #0000000000000100
skip 6
#000000000000010c fd000000 SWYM 0,0,0
fixo #2000000000000008
fixr 3
fixrx 16 0100ffc0
fixrx 24 00000005
file 0
loc #fffffffffffffffe
#fffffffffffffffc 00000000 TRAP 0,0,0
#0000000000000000 00000701 TRAP 0,7,1
spec 7
post 254 #0000000000000001 #0000000000000100
stab 203a9103b105811f20fe82097e1002ac
symbol :.. #0000000000000005 1
symbol :. $254 2
symbol :~ #2000000000000010 300
";

static BARE_LINES: &str = "pre
post 255 #ffffffffffffffff
stab
";

/// The bytes of tetras.
fn bytes_of(alloc: Global, tetras: &[u32]) -> Result<Bytes, NoMemory> {
    let mut bytes = Bytes::new(alloc);
    for tetra in tetras {
        bytes.extend(&tetra_bytes(*tetra))?;
    }
    Ok(bytes)
}

/// The object in tetras.
fn object_of(alloc: Global, tetras: &[u32]) -> Option<Object> {
    let bytes = bytes_of(alloc, tetras).ok()?;
    read(alloc, &[bytes]).ok()
}

/// The listing of an object.
fn listed(alloc: Global, object: &Object) -> Option<Bytes> {
    let symbols = mx_stab::read(alloc, object.tail.trie.as_slice()).ok()?;
    listing(alloc, &object.items, &object.tail.trie, &symbols).ok()
}

/// What a lister gives for the items of an object, joined.
fn lines_of(lister: &mut Lister, object: &Object, text: &mut Bytes) -> Result<(), NoMemory> {
    for item in object.items.as_slice() {
        let line = lister.item(item)?;
        text.extend(line.as_slice())?;
    }
    Ok(())
}

/// What a lister gives for an object, joined.
fn joined(alloc: Global, object: &Object) -> Option<Bytes> {
    let symbols = mx_stab::read(alloc, object.tail.trie.as_slice()).ok()?;
    let mut lister = Lister::new(alloc);
    let mut text = Bytes::new(alloc);
    lines_of(&mut lister, object, &mut text).ok()?;
    let tail = lister.tail(&object.tail.trie, &symbols).ok()?;
    text.extend(tail.as_slice()).ok()?;
    Some(text)
}

/// Whether a text is this one.
fn is_text(text: &Option<Bytes>, want: &[u8]) -> bool {
    match text {
        Some(text) => text.as_slice() == want,
        None => false,
    }
}

/// Whether the object in tetras has this listing, as a whole and item by item.
fn is_listed(alloc: Global, tetras: &[u32], want: &str) -> bool {
    let Some(object) = object_of(alloc, tetras) else {
        return false;
    };
    is_text(&listed(alloc, &object), want.as_bytes())
        && is_text(&joined(alloc, &object), want.as_bytes())
}

#[test]
fn timed(rt: HostRuntime) {
    assert!(rt; is_listed(rt.alloc(), &TIMED, TIMED_LINES));
}

#[test]
fn each_lopcode(rt: HostRuntime) {
    assert!(rt; is_listed(rt.alloc(), &EACH, EACH_LINES));
}

#[test]
fn nothing_but_the_ends(rt: HostRuntime) {
    assert!(rt; is_listed(rt.alloc(), &BARE, BARE_LINES));
}

/// The line of the first item of an object that has a fault after it, and the fault.
fn begun(alloc: Global, tetras: &[u32]) -> Option<(Bytes, MmoFault)> {
    let bytes = bytes_of(alloc, tetras).ok()?;
    let mut reader = Reader::new(alloc);
    reader.feed(bytes.as_slice()).ok()?;
    let item = reader.next().ok()??;
    let line = Lister::new(alloc).item(&item).ok()?;
    Some((line, reader.next().err()?))
}

/// Whether these are the line and the fault.
fn is_begun(alloc: Global, tetras: &[u32], want: &str, fault: MmoFault) -> bool {
    match begun(alloc, tetras) {
        Some((line, found)) => line.as_slice() == want.as_bytes() && found == fault,
        None => false,
    }
}

#[test]
fn unknown_lopcode(rt: HostRuntime) {
    assert!(rt;
        is_begun(
            rt.alloc(),
            &[0x9809_0101, 0, 0x980d_0000],
            "pre 00000000\n",
            MmoFault::BadLop(8)
        )
    );
}
