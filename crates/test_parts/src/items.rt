//! Objects from outside: those of three programs, and one as other tools write them.

mod objects;

ghost use Rattle.std.specs.Prelude.{◌<◌};

use mx_mmo::{Item, MmoFault, Object, Reader, Tail, Writer, read};
use mx_word::{Bytes, NoMemory, tetra_bytes};
use objects::{FIRST, HELLO, OTHER, OTHER_WRITTEN, TIMED};
use std::alloc::Global;

/// The bytes of tetras, and some bytes after them.
fn object(alloc: Global, tetras: &[u32], more: &[u8]) -> Result<Bytes, NoMemory> {
    let mut bytes = Bytes::new(alloc);
    for tetra in tetras {
        bytes.extend(&tetra_bytes(*tetra))?;
    }
    bytes.extend(more)?;
    Ok(bytes)
}

/// Bytes cut into pieces of a size.
fn pieces(alloc: Global, bytes: &[u8], size: usize) -> Result<Vec<Bytes>, NoMemory>
    requires { 0 < size }
{
    let mut pieces = Vec::new(alloc);
    for piece in bytes.chunks(size) {
        pieces.push(Bytes::copy(alloc, piece)?)?;
    }
    Ok(pieces)
}

/// Gives the items that are whole to a writer.
fn put_items(reader: &mut Reader, writer: &mut Writer, most: usize) -> Result<(), MmoFault> {
    for _ in 0..most {
        match reader.next()? {
            Some(item) => writer.put(&item)?,
            None => return Ok(()),
        }
    }
    Ok(())
}

/// Feeds a piece to a reader, and gives the items that are whole then to a writer.
fn put_piece(
    reader: &mut Reader,
    writer: &mut Writer,
    piece: &[u8],
    most: usize,
) -> Result<(), MmoFault> {
    reader.feed(piece)?;
    put_items(reader, writer, most)
}

/// The object of a writer, ended with the trie of a tail.
fn ended(writer: Writer, tail: &Tail) -> Result<Bytes, MmoFault> {
    let trie = tail.trie.as_slice();
    if trie.len() % 4 != 0 || trie.len() / 4 >= 1 << 16 {
        return Err(MmoFault::Truncated(tail.place));
    }
    writer.end(trie)
}

/// The object of bytes that come in pieces of a size, written again.
fn written_again(alloc: Global, bytes: &[u8], size: usize) -> Result<Bytes, MmoFault>
    requires { 0 < size }
{
    let mut reader = Reader::new(alloc);
    let mut writer = Writer::new(alloc);
    for piece in bytes.chunks(size) {
        put_piece(&mut reader, &mut writer, piece, bytes.len())?;
    }
    let tail = reader.finish()?;
    ended(writer, &tail)
}

/// The first size of pieces in which an object is not written as it should be, if there is one.
fn size_written_otherwise(
    alloc: Global,
    tetras: &[u32],
    want: &[u32],
) -> Result<Option<usize>, NoMemory> {
    let bytes = object(alloc, tetras, &[])?;
    let want = object(alloc, want, &[])?;
    for size in [1000, 1, 7] {
        let found = written_again(alloc, bytes.as_slice(), size);
        if !found.is_ok_and(|found| found.as_slice() == want.as_slice()) {
            return Ok(Some(size));
        }
    }
    Ok(None)
}

#[test]
fn read_and_written(rt: HostRuntime) {
    let rows: [(&[u32], &[u32]); 4] = [
        (&FIRST, &FIRST),
        (&HELLO, &HELLO),
        (&TIMED, &TIMED),
        (&OTHER, &OTHER_WRITTEN),
    ];
    for (tetras, want) in rows {
        assert_eq!(rt; size_written_otherwise(rt.alloc(), tetras, want), Ok(None));
    }
}

/// What an item should be.
enum Due {
    Load(u32),
    Loc(u64),
    FixNear(u16),
    /// With its name, and with a name of this many bytes.
    File(u8, &'static [u8]),
    Named(u8, usize),
    Line(u16),
    Spec(u16),
    Pre(&'static [u32]),
    Post(u8, &'static [u64]),
    Stab,
}

/// The items of `first.mms`.
static FIRST_ITEMS: [Due; 10] = [
    Due::Pre(&[0]),
    Due::File(0, b".mms"),
    Due::Loc(0x100),
    Due::Line(2),
    Due::Load(0x6869_0a00),
    Due::Load(0xf5ff_ffff),
    Due::Load(0x0000_0701),
    Due::Load(0),
    Due::Post(255, &[0x104]),
    Due::Stab,
];

/// Whether an item is what it should be.
fn is_due(item: &Item, due: &Due) -> bool {
    match (item, due) {
        (Item::Load(t), Due::Load(want)) => t == want,
        (Item::Loc(a), Due::Loc(want)) => a == want,
        (Item::FixNear(n), Due::FixNear(want)) => n == want,
        (Item::Line(n), Due::Line(want)) => n == want,
        (Item::Spec(n), Due::Spec(want)) => n == want,
        (
            Item::File {
                number,
                name: Some(name),
            },
            Due::File(want, text),
        ) => number == want && name.as_slice() == *text,
        (
            Item::File {
                number,
                name: Some(name),
            },
            Due::Named(want, length),
        ) => number == want && name.as_slice().len() == *length,
        (Item::Pre(words), Due::Pre(want)) => words.as_slice() == *want,
        (Item::Post { g, values }, Due::Post(want, octas)) => {
            g == want && values.as_slice() == *octas
        }
        (Item::Stab, Due::Stab) => true,
        _ => false,
    }
}

/// Whether an object is that of `first.mms`.
fn is_first(object: &Object) -> bool {
    let items = object.items.as_slice();
    items.len() == FIRST_ITEMS.len()
        && items
            .iter()
            .zip(&FIRST_ITEMS)
            .all(|(item, due)| is_due(item, due))
        && object.tail.place == 60
        && object.tail.trie.as_slice().len() == 24
}

/// The object that is read from tetras in pieces of a size.
fn read_in_pieces(alloc: Global, tetras: &[u32], size: usize) -> Option<Object>
    requires { 0 < size }
{
    let bytes = object(alloc, tetras, &[]).ok()?;
    let pieces = pieces(alloc, bytes.as_slice(), size).ok()?;
    read(alloc, pieces.as_slice()).ok()
}

/// The first size of pieces in which the object of `first.mms` is read otherwise, if there is one.
fn first_otherwise(alloc: Global) -> Option<usize> {
    for size in [88, 1, 7] {
        if !read_in_pieces(alloc, &FIRST, size).is_some_and(|object| is_first(&object)) {
            return Some(size);
        }
    }
    None
}

#[test]
fn first_in_pieces(rt: HostRuntime) {
    assert_eq!(rt; first_otherwise(rt.alloc()), None);
}

/// What reading refuses: the fault's number and place.
fn refusal(alloc: Global, bytes: &[u8], size: usize) -> Result<Option<(u16, Option<u64>)>, NoMemory>
    requires { 0 < size }
{
    match read(alloc, pieces(alloc, bytes, size)?.as_slice()) {
        Ok(_) => Ok(None),
        Err(MmoFault::OutOfMemory) => Err(NoMemory),
        Err(fault) => Ok(Some((fault.number(), fault.place()))),
    }
}

/// The tetra of a `pre` without a time.
const PRE: u32 = 0x9809_0100;

/// Tetras of objects that are refused, and bytes after them; the number of the fault, and its place.
static REFUSED: [(&[u32], &[u8], u16, u64); 24] = [
    // no bytes; a first tetra that is no `pre`; one with Y = 2; `post` before `pre`
    (&[], &[], 64, 0),
    (&[0], &[], 61, 0),
    (&[0x9809_0200], &[], 61, 0),
    (&[0x980a_00ff], &[], 61, 0),
    // a lopcode that does not exist; a second `pre`; `stab` and `end` before `post`
    (&[0x9809_0101, 0, 0x980d_0000], &[], 62, 8),
    (&[PRE, PRE], &[], 62, 4),
    (&[PRE, 0x980b_0000], &[], 62, 4),
    (&[PRE, 0x980c_0000], &[], 62, 4),
    // wrong fields: of addresses, a quote, far fixes, `post` and `stab`
    (&[PRE, 0x9801_0003], &[], 63, 4),
    (&[PRE, 0x9803_0000], &[], 63, 4),
    (&[PRE, 0x9800_0002], &[], 63, 4),
    (&[PRE, 0x9805_0011], &[], 63, 4),
    (&[PRE, 0x9805_0110], &[], 63, 4),
    (&[PRE, 0x980a_001f], &[], 63, 4),
    (&[PRE, 0x980a_00ff, 0, 0, 0x980b_0001], &[], 63, 16),
    // a far fix whose tetra begins with 2, and one without its tetra
    (&[PRE, 0x9805_0010, 0x0200_0000], &[], 63, 4),
    (&[PRE, 0x9805_0010], &[], 64, 8),
    // a name of zeros, and one that is cut off
    (&[PRE, 0x9806_0002, 0, 0], &[], 63, 4),
    (&[PRE, 0x9806_0002, 0], &[], 64, 12),
    // a spec that a quote with YZ = 2 ends, and one that nothing ends
    (&[PRE, 0x9808_0000, 1, 0x9800_0002], &[], 63, 12),
    (&[PRE, 0x9808_0000, 0x9800_0001, 0x980b_0000], &[], 64, 16),
    // a byte over; an item that is cut off; a tetra after `end`
    (&[0x9809_0101, 0], &[0x98], 60, 8),
    (&[PRE, 0x980a_00ff, 0], &[], 64, 12),
    (
        &[PRE, 0x980a_00ff, 0, 0, 0x980b_0000, 0x980c_0000, 0],
        &[],
        64,
        28,
    ),
];

/// The first size of pieces in which an object is not refused for a fault at a place, if there is one.
fn size_taken_otherwise(
    alloc: Global,
    tetras: &[u32],
    more: &[u8],
    fault: (u16, u64),
) -> Result<Option<usize>, NoMemory> {
    let (number, place) = fault;
    let bytes = object(alloc, tetras, more)?;
    for size in [200, 1, 7] {
        if refusal(alloc, bytes.as_slice(), size)? != Some((number, Some(place))) {
            return Ok(Some(size));
        }
    }
    Ok(None)
}

/// The fault and the place of the first row that is not refused so, and the size of its pieces, if there is one.
fn row_taken_otherwise(alloc: Global) -> Result<Option<(u16, u64, usize)>, NoMemory> {
    for (tetras, more, number, place) in &REFUSED {
        if let Some(size) = size_taken_otherwise(alloc, tetras, more, (*number, *place))? {
            return Ok(Some((*number, *place, size)));
        }
    }
    Ok(None)
}

#[test]
fn first_faults(rt: HostRuntime) {
    assert_eq!(rt; row_taken_otherwise(rt.alloc()), Ok(None));
}

/// The fault that is due where an object is cut off after this many bytes, and its place: that of the
/// tetra that is cut, or the end.
fn due_of_cut(n: usize) -> (u16, Option<u64>) {
    if n % 4 == 0 {
        (64, Some(n as u64))
    } else {
        (60, Some((4 * (n / 4)) as u64))
    }
}

/// The first length to which the 124 bytes of `hello.mms` can be cut without the fault that is due, if there is one.
fn cut_taken_otherwise(alloc: Global) -> Result<Option<usize>, NoMemory> {
    let bytes = object(alloc, &HELLO, &[])?;
    for n in 0..124usize {
        let front = bytes.as_slice().get(..n).unwrap_or(&[]);
        if refusal(alloc, front, 200)? != Some(due_of_cut(n)) {
            return Ok(Some(n));
        }
    }
    Ok(None)
}

/// Bytes after the object of `hello.mms`, and the fault that is met.
static AFTER: [(&[u8], (u16, u64)); 2] = [
    (&[0, 0, 0, 0], (64, 128)),
    (&[0x98, 12, 0, 10], (63, 124)),
];

/// An object that is cut off anywhere, or that goes on after its end.
#[test]
fn cut_objects(rt: HostRuntime) {
    let alloc = rt.alloc();
    assert_eq!(rt; cut_taken_otherwise(alloc), Ok(None));
    for (more, fault) in &AFTER {
        assert_eq!(rt; size_taken_otherwise(alloc, &HELLO, more, *fault), Ok(None));
    }
    // a count that is wrong by one
    assert_eq!(rt;
        size_taken_otherwise(alloc, &TIMED[..14], &[0x98, 12, 0, 4], (63, 56)),
        Ok(None)
    );
}

/// Pieces of an object; the items that are whole with each, and their places.
static PIECES: [(&[u8], &[(Due, u64)]); 4] = [
    // half an item is none yet; its place is told once it is whole
    (b"\x98\x09\x01\x01", &[]),
    (
        b"\0\0\0\0\x98\x01\x20\x01\0\0\0\x08",
        &[(Due::Pre(&[0]), 0), (Due::Loc(0x2000_0000_0000_0008), 8)],
    ),
    // a spec is whole with the lopcode that ends it, and a quote is none
    (b"\x98\x08\0\x50\x98\0\0\x01\x98\x04\0\x07\x98\x04\0", &[]),
    (b"\x02", &[(Due::Spec(80), 16), (Due::FixNear(2), 28)]),
];

/// Whether a reader gives this item next, and tells this place.
fn gives_next(reader: &mut Reader, due: &Due, place: u64) -> Result<bool, MmoFault> {
    match reader.next()? {
        Some(item) => Ok(is_due(&item, due) && reader.place() == place),
        None => Ok(false),
    }
}

/// Whether a reader gives these items next, with their places, and then none.
fn gives(reader: &mut Reader, items: &[(Due, u64)]) -> Result<bool, MmoFault> {
    for (due, place) in items {
        if !gives_next(reader, due, *place)? {
            return Ok(false);
        }
    }
    Ok(reader.next()?.is_none())
}

/// The same once a piece was fed.
fn gives_after(reader: &mut Reader, piece: &[u8], items: &[(Due, u64)]) -> Result<bool, MmoFault> {
    reader.feed(piece)?;
    gives(reader, items)
}

/// The first piece after which a reader gives other items, if there is one.
fn piece_otherwise(reader: &mut Reader) -> Result<Option<&'static [u8]>, MmoFault> {
    for (piece, items) in &PIECES {
        if !gives_after(reader, piece, items)? {
            return Ok(Some(*piece));
        }
    }
    Ok(None)
}

/// The faults that a reader answers where its input ends, and at the calls after that.
fn last_faults(reader: &mut Reader) -> (Option<MmoFault>, Option<MmoFault>, Option<MmoFault>) {
    (
        reader.finish().err(),
        reader.next().err(),
        reader.feed(&[]).err(),
    )
}

#[test]
fn reads_item_by_item(rt: HostRuntime) {
    let mut reader = Reader::new(rt.alloc());
    assert_eq!(rt; piece_otherwise(&mut reader), Ok(None));
    // an input that ends before `stab`, and the same fault at each later call
    let cut = Some(MmoFault::Truncated(32));
    assert_eq!(rt; last_faults(&mut reader), (cut, cut, cut));
}

/// An object that stops after a name of 255 tetras.
fn longest_named(alloc: Global) -> Result<Bytes, NoMemory> {
    let mut bytes = object(alloc, &[0x9809_0100, 0x9806_00ff], &[])?;
    for _ in 0..255 {
        bytes.extend(b"aaaa")?;
    }
    Ok(bytes)
}

/// Its items.
static LONGEST: [(Due, u64); 2] = [(Due::Pre(&[]), 0), (Due::Named(0, 1020), 4)];

/// A name of 1,020 bytes, in an object that stops after it.
#[test]
fn longest_name(rt: HostRuntime) {
    let bytes = longest_named(rt.alloc()).expect(&rt, "memory");
    let mut reader = Reader::new(rt.alloc());
    assert_eq!(rt;
        gives_after(&mut reader, bytes.as_slice(), &LONGEST),
        Ok(true)
    );
}

#[test]
fn written_so_far(rt: HostRuntime) {
    let mut writer = Writer::new(rt.alloc());
    assert!(rt; writer.put(&Item::Load(0x9800_0000)).is_ok());
    let bytes = writer.so_far();
    assert!(rt; bytes.as_slice() == b"\x98\0\0\x01\x98\0\0\0".as_slice());
}
