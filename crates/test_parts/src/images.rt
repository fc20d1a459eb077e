//! Items with what they come to; octas and addresses were worked out by hand from the format's rules.

ghost use Rattle.std.specs.Prelude.{◌≡◌, ◌∷◌, [], IfSome};
ghost use Rattle.mx_mmo.specs.Valid.{Fits};

use mx_load::{Image, LoadFault, Loader, load};
use mx_mmo::{Item, Octas, Words};
use mx_word::{Bytes, Symbol, Symbols, Value};
use std::alloc::Global;

/// An item of a row.
enum Row {
    Load(u32),
    Loc(u64),
    Skip(u16),
    FixOcta(u64),
    FixNear(u16),
    /// Of 16 and of 24 bits.
    Fix16(u32),
    Fix24(u32),
    /// A file without a name, and one with a name.
    File(u8),
    Named(u8),
    Line(u16),
    Spec(u16),
    Pre,
    /// The values of $254 and $255.
    Post(u64, u64),
    Stab,
}

use Row::*;

/// The item of a row; nothing where there is no memory, or where the word of a far fix is too big.
fn item_of(alloc: Global, row: &Row) -> Option<Item>
    ensures { IfSome result Fits }
{
    Some(match row {
        Load(t) => Item::Load(*t),
        Loc(a) => Item::Loc(*a),
        Skip(n) => Item::Skip(*n),
        FixOcta(a) => Item::FixOcta(*a),
        FixNear(n) => Item::FixNear(*n),
        Fix16(word) if *word < 1 << 25 => Item::FixFar {
            bits: 16,
            word: *word,
        },
        Fix24(word) if *word < 1 << 25 => Item::FixFar {
            bits: 24,
            word: *word,
        },
        Fix16(_) | Fix24(_) => return None,
        File(number) => Item::File {
            number: *number,
            name: None,
        },
        Named(number) => {
            let name = Bytes::copy(alloc, b"a").ok()?;
            Item::File {
                number: *number,
                name: Some(name),
            }
        }
        Line(n) => Item::Line(*n),
        Spec(n) => Item::Spec(*n),
        Pre => Item::Pre(Words::new(alloc)),
        Post(x, y) => Item::Post {
            g: 254,
            values: two(alloc, *x, *y)?,
        },
        Stab => Item::Stab,
    })
}

/// A list of two octas.
fn two(alloc: Global, x: u64, y: u64) -> Option<Octas>
    ensures { IfSome result (λ octas. octas ≡ x ∷ y ∷ []) }
{
    let mut octas = Octas::new(alloc);
    octas.push(x).ok()?;
    octas.push(y).ok()?;
    Some(octas)
}

/// What a loader answers to a row.
fn take_row(alloc: Global, loader: &mut Loader, row: &Row) -> Result<(), LoadFault> {
    match item_of(alloc, row) {
        Some(item) => loader.take(&item),
        None => Err(LoadFault::OutOfMemory),
    }
}

/// The image of rows.
fn image_of_rows(alloc: Global, rows: &[Row]) -> Result<Image, LoadFault> {
    let mut loader = Loader::new(alloc);
    for row in rows {
        take_row(alloc, &mut loader, row)?;
    }
    loader.finish(Symbols::new(alloc))
}

/// The image of `first.mms`, with a shorter name of its file: `hi` and a newline at #100, and three
/// instructions.
fn small(alloc: Global) -> Option<Image> {
    let mut values = Octas::new(alloc);
    values.push(0x104).ok()?;
    let mut symbols = Symbols::new(alloc);
    let name = Bytes::copy(alloc, b":Main").ok()?;
    let file = item_of(alloc, &Named(0))?;
    symbols
        .push(Symbol {
            name,
            value: Value::Pure(0x104),
            serial: 1,
        })
        .ok()?;
    let items = [
        Item::Pre(Words::new(alloc)),
        file,
        Item::Loc(0x100),
        Item::Line(2),
        Item::Load(0x6869_0a00),
        Item::Load(0xf5ff_ffff),
        Item::Load(0x0000_0701),
        Item::Load(0),
        Item::Post { g: 255, values },
        Item::Stab,
    ];
    load(alloc, &items, symbols).ok()
}

/// Whether the only symbol has the value of the small program's Main.
fn is_main(symbols: &[Symbol]) -> bool {
    match symbols {
        [symbol] => symbol.value == Value::Pure(0x104),
        _ => false,
    }
}

/// The first address where an image has another octa, if there is one.
fn other_octa(image: &Image, octas: &[(u64, u64)]) -> Option<u64> {
    for (a, x) in octas {
        if *a >= 1 << 63 || image.memory().load(*a) != *x {
            return Some(*a);
        }
    }
    None
}

/// The first address where an image has another line, if there is one.
fn other_line(image: &Image, lines: &[(u64, u32)]) -> Option<u64> {
    for (a, line) in lines {
        if image.line_of(*a) != *line {
            return Some(*a);
        }
    }
    None
}

/// The first address where an image has another octa, the number of its pages, and the first address
/// where it has another line.
type Seen = (Option<u64>, u32, Option<u64>);

/// What is seen of an image that should have these octas and lines.
fn seen(image: &Image, octas: &[(u64, u64)], lines: &[(u64, u32)]) -> Seen {
    (
        other_octa(image, octas),
        image.memory().pages(),
        other_line(image, lines),
    )
}

/// The number of the first global register, and the values of the last three.
fn globals(image: &Image) -> (u8, [u64; 3]) {
    (
        image.g(),
        [image.global(253), image.global(254), image.global(255)],
    )
}

/// The octas of the small program.
static SMALL_OCTAS: [(u64, u64); 2] = [
    (0x100, 0x6869_0a00_f5ff_ffff),
    (0x108, 0x0000_0701_0000_0000),
];

/// Its lines.
static SMALL_LINES: [(u64, u32); 5] = [(0xff, 0), (0x100, 2), (0x107, 3), (0x10c, 5), (0x110, 0)];

/// What is seen of the small program, its registers, whether it has the symbol, and its last octa.
fn small_seen(alloc: Global) -> Option<(Seen, (u8, [u64; 3]), bool, u64)> {
    let image = small(alloc)?;
    Some((
        seen(&image, &SMALL_OCTAS, &SMALL_LINES),
        globals(&image),
        is_main(image.symbols().as_slice()),
        image.into_memory().load(0x10f),
    ))
}

#[test]
fn small_program(rt: HostRuntime) {
    assert_eq!(rt;
        small_seen(rt.alloc()),
        Some((
            (None, 1, None),
            (255, [0, 0, 0x104]),
            true,
            0x0000_0701_0000_0000
        ))
    );
}

/// Items; octas by their addresses; the number of pages; lines by addresses.
static IMAGES: [(&[Row], &[(u64, u64)], u32, &[(u64, u32)]); 14] = [
    // tetras at one place are joined, and after an odd place the next tetra is loaded
    (
        &[
            Loc(0x2000_0000_0000_0001),
            Load(0x0100_0000),
            Loc(0x2000_0000_0000_0002),
            Load(0x0300_0000),
            Load(0xff),
        ],
        &[(0x2000_0000_0000_0000, 0x0200_0000_0000_00ff)],
        1,
        &[],
    ),
    (
        &[Loc(0xfff), Load(1), Load(2), Skip(9), Load(3)],
        &[(0xff8, 1), (0x1000, 0x2_0000_0000), (0x1008, 3)],
        2,
        &[],
    ),
    // lambda, as an octa, at a tetra and the next
    (
        &[Loc(0x1234_5678_9abc_def0), FixOcta(0x106)],
        &[(0x100, 0x1234_5678), (0x108, 0x9abc_def0_0000_0000)],
        1,
        &[],
    ),
    // a fix changes neither lambda nor the lines
    (
        &[Named(1), Line(7), Loc(0x110), FixOcta(0x100), Load(5)],
        &[(0x100, 0x110), (0x110, 0x5_0000_0000)],
        1,
        &[(0x100, 0), (0x104, 0), (0x110, 7)],
    ),
    // two tetras back; three back; one ahead; two ahead; ahead over the end of all addresses
    (
        &[Loc(0x110), FixNear(2)],
        &[(0x108, 0x2_0000_0000), (0x110, 0)],
        1,
        &[],
    ),
    (&[Loc(0x110), Fix24(3)], &[(0x100, 3)], 1, &[]),
    (
        &[Loc(0x100), Fix24(0x01ff_ffff)],
        &[(0x100, 0x01ff_ffff)],
        1,
        &[],
    ),
    (
        &[Loc(0x100), Fix16(0x0100_fffe)],
        &[(0x108, 0x0100_fffe_0000_0000)],
        1,
        &[],
    ),
    (
        &[Loc(0xffff_ffff_ffff_fff8), Fix24(0x01ff_fffe)],
        &[(0, 0x01ff_fffe_0000_0000)],
        1,
        &[],
    ),
    // the line in force grows by 1 with each tetra; line 0 is none
    (
        &[
            Named(1),
            Line(5),
            Loc(0x102),
            Load(1),
            Load(2),
            Line(0),
            Load(3),
        ],
        &[(0x100, 0x1_0000_0002), (0x108, 0x3_0000_0000)],
        1,
        &[
            (0xff, 0),
            (0x100, 5),
            (0x103, 5),
            (0x104, 6),
            (0x107, 6),
            (0x108, 0),
        ],
    ),
    // the last line of a tetra counts, and no line keeps the one before
    (
        &[
            Named(1),
            Line(5),
            Load(1),
            Loc(0),
            Line(9),
            Load(2),
            Loc(0),
            Line(0),
            Load(4),
        ],
        &[(0, 0x7_0000_0000)],
        1,
        &[(0, 9)],
    ),
    // a file that was named is selected again; a tetra of 0 begins its page
    (
        &[Named(3), Named(4), File(3), Line(1), Load(0)],
        &[(0, 0)],
        1,
        &[(0, 1)],
    ),
    // items that change nothing
    (&[Pre, Spec(80), Stab], &[], 0, &[]),
    // the last tetra below the stack segment
    (
        &[
            Loc(0x5fff_ffff_ffff_ffff),
            Load(1),
            FixOcta(0x5fff_ffff_ffff_fff8),
        ],
        &[(0x5fff_ffff_ffff_fff8, 0x6000_0000_0000_0001)],
        1,
        &[],
    ),
];

/// What is seen of the image of rows that should have these octas and lines.
fn rows_seen(
    alloc: Global,
    rows: &[Row],
    octas: &[(u64, u64)],
    lines: &[(u64, u32)],
) -> Result<Seen, LoadFault> {
    let image = image_of_rows(alloc, rows)?;
    Ok(seen(&image, octas, lines))
}

/// The number of the first row whose image is otherwise, and what is seen of it, if there is one.
fn image_otherwise(alloc: Global) -> Option<(usize, Result<Seen, LoadFault>)> {
    for (number, (rows, octas, pages, lines)) in IMAGES.iter().enumerate() {
        let found = rows_seen(alloc, rows, octas, lines);
        if found != Ok((None, *pages, None)) {
            return Some((number, found));
        }
    }
    None
}

#[test]
fn images(rt: HostRuntime) {
    assert_eq!(rt; image_otherwise(rt.alloc()), None);
}

/// The registers of the image of rows.
fn rows_globals(alloc: Global, rows: &[Row]) -> Result<(u8, [u64; 3]), LoadFault> {
    let image = image_of_rows(alloc, rows)?;
    Ok(globals(&image))
}

#[test]
fn registers(rt: HostRuntime) {
    assert_eq!(rt;
        rows_globals(rt.alloc(), &[Post(7, 0x100)]),
        Ok((254, [0, 7, 0x100]))
    );
}

/// Items that are refused, and the number of the fault.
static REFUSED: [(&[Row], u16); 9] = [
    // in the stack segment: at its first tetra, loaded after the last tetra below it, by half
    // of an octa, and at the end of all addresses
    (&[Loc(0x6000_0000_0000_0000), Load(0)], 95),
    (&[Loc(0x5fff_ffff_ffff_ffff), Load(1), Load(2)], 95),
    (&[FixOcta(0x5fff_ffff_ffff_fffc)], 95),
    (&[FixOcta(0xffff_ffff_ffff_ffff)], 95),
    (&[FixNear(1)], 95),
    // a line before any file; a file that was never named
    (&[Line(1), Named(1)], 96),
    (&[Line(0)], 96),
    (&[File(0)], 96),
    (&[Named(1), File(2)], 96),
];

/// The number of the fault for which rows are refused; nothing where they have an image.
fn fault_of(alloc: Global, rows: &[Row]) -> Option<u16> {
    match image_of_rows(alloc, rows) {
        Ok(_) => None,
        Err(fault) => Some(fault.number()),
    }
}

#[test]
fn faults(rt: HostRuntime) {
    for (rows, number) in &REFUSED {
        assert_eq!(rt; fault_of(rt.alloc(), rows), Some(*number));
    }
    assert_eq!(rt;
        (
            LoadFault::PagesFull.number(),
            LoadFault::OutOfMemory.number()
        ),
        (90, 0)
    );
}

/// Gives a loader a tetra on each of as many pages as there may be.
fn fill(loader: &mut Loader) -> Result<(), LoadFault> {
    for page in 0..65536 {
        loader.take(&Item::Loc(page * 4096))?;
        loader.take(&Item::Load(1))?;
    }
    Ok(())
}

/// A loader whose memory has as many pages as there may be.
fn full(alloc: Global) -> Result<Loader, LoadFault> {
    let mut loader = Loader::new(alloc);
    fill(&mut loader)?;
    Ok(loader)
}

/// A row, and what is answered to it.
type Turn = (Row, Result<(), LoadFault>);

/// What a loader answers in turn whose memory is full, and the fault that it ends with.
static FULL: [(&[Turn], LoadFault); 2] = [
    (
        &[
            (Load(2), Ok(())),
            (Loc(1 << 40), Ok(())),
            (Load(0), Err(LoadFault::PagesFull)),
            // the fault is answered again
            (Loc(0), Err(LoadFault::PagesFull)),
            (Line(1), Err(LoadFault::PagesFull)),
        ],
        LoadFault::PagesFull,
    ),
    // an octa that would lie in the stack segment by half is refused for that
    (
        &[(FixOcta(0x5fff_ffff_ffff_fffc), Err(LoadFault::BadPlace))],
        LoadFault::BadPlace,
    ),
];

/// The first turn at which a loader answers otherwise, if there is one.
fn turn_otherwise(alloc: Global, loader: &mut Loader, turns: &[Turn]) -> Option<usize> {
    for (turn, (row, answer)) in turns.iter().enumerate() {
        if take_row(alloc, loader, row) != *answer {
            return Some(turn);
        }
    }
    None
}

/// The first turn at which a loader whose memory is full answers otherwise, and the fault that it ends with.
fn full_otherwise(
    alloc: Global,
    turns: &[Turn],
) -> Result<(Option<usize>, Option<LoadFault>), LoadFault> {
    let mut loader = full(alloc)?;
    let turn = turn_otherwise(alloc, &mut loader, turns);
    Ok((turn, loader.finish(Symbols::new(alloc)).err()))
}

#[test]
fn full_memory(rt: HostRuntime) {
    for (turns, fault) in &FULL {
        assert_eq!(rt; full_otherwise(rt.alloc(), turns), Ok((None, Some(*fault))));
    }
}
