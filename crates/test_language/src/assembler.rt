//! Whole sources: the items that they give, and their refusals.

use mx_asm::{Assembler, Refused};
use mx_line::cut_line;
use mx_mmo::{Item, Items};
use std::alloc::Global;

/// An item as the number of its kind and a number.
fn told(item: &Item) -> (u8, u64) {
    match item {
        Item::Load(tetra) => (255, u64::from(*tetra)),
        Item::Loc(address) => (1, *address),
        Item::Skip(count) => (2, u64::from(*count)),
        Item::FixOcta(address) => (3, *address),
        Item::FixNear(count) => (4, u64::from(*count)),
        Item::FixFar { bits, word } => (*bits, u64::from(*word)),
        Item::File { number, .. } => (6, u64::from(*number)),
        Item::Line(line) => (7, u64::from(*line)),
        Item::Spec(number) => (8, u64::from(*number)),
        Item::Pre(tetras) => (9, tetras.as_slice().len() as u64),
        Item::Post { g, .. } => (10, u64::from(*g)),
        Item::Stab => (11, 0),
    }
}

/// Takes the first line of a text, where there is one, and gives the lines after it.
fn take_line<'a>(
    assembler: &mut Assembler,
    text: &'a [u8],
    items: &mut Items,
) -> Result<&'a [u8], Refused> {
    if text.is_empty() {
        return Ok(text);
    }
    let (line, rest) = cut_line(text);
    assembler.line(line, items)?;
    Ok(rest)
}

/// Takes the lines of a source in turn; it has no more of them than bytes.
fn take_lines(assembler: &mut Assembler, source: &[u8], items: &mut Items) -> Result<(), Refused> {
    let mut rest = source;
    for _line in source {
        rest = take_line(assembler, rest, items)?;
    }
    Ok(())
}

/// Takes a whole source.
fn take(assembler: &mut Assembler, source: &[u8], items: &mut Items) -> Result<(), Refused> {
    take_lines(assembler, source, items)?;
    assembler.finish(items)?;
    Ok(())
}

/// The items of a source.
fn assembled(alloc: Global, source: &[u8]) -> Result<Items, Refused> {
    let mut assembler = Assembler::new(alloc)?;
    let mut items = Items::new(alloc);
    take(&mut assembler, source, &mut items)?;
    Ok(items)
}

/// Whether these are the items in their order.
fn are(items: &[Item], want: &[(u8, u64)]) -> bool {
    if items.len() != want.len() {
        return false;
    }
    for (item, want) in items.iter().zip(want) {
        if told(item) != *want {
            return false;
        }
    }
    true
}

/// Whether the items of a source are these, after the first two and before the last two.
fn gives(alloc: Global, source: &[u8], want: &[(u8, u64)]) -> bool {
    match assembled(alloc, source) {
        Ok(items) => match items.as_slice() {
            [_, _, middle @ .., _, _] => are(middle, want),
            _ => false,
        },
        Err(_) => false,
    }
}

/// The line, the number and the line of the reference of a refusal; zeros without one.
fn refusal(alloc: Global, source: &[u8]) -> (u32, u16, u32) {
    match assembled(alloc, source) {
        Ok(_) => (0, 0, 0),
        Err(refused) => (refused.line, refused.fault.number(), refused.from_line),
    }
}

/// Sources, and their items between the first two and the last two.
static ITEMS: [(&str, &[(u8, u64)]); 6] = [
    // a forward reference, lines that count by themselves, and a register as a symbol
    (
        "argv IS $1\n LOC #100\nMain LDOU $255,argv,0\n TRAP 0,Fputs,StdOut\n GETA $255,String\n TRAP 0,Fputs,StdOut\n TRAP 0,Halt,0\nString BYTE \", world\",#a,0\n",
        &[
            (1, 0x100),
            (7, 3),
            (255, 0x8fff_0100),
            (255, 0x701),
            (255, 0xf4ff_0000),
            (255, 0x701),
            (255, 0),
            (4, 3),
            (255, 0x2c20_776f),
            (255, 0x726c_640a),
            (255, 0),
        ],
    ),
    // the longest way ahead, at which no tetra is between
    (
        "Main BZ $0,x\n LOC Main+4*65535\nx TRAP 0,Halt,0",
        &[
            (7, 1),
            (255, 0x4200_0000),
            (1, 0x3_fffc),
            (4, 65535),
            (7, 3),
            (255, 0),
        ],
    ),
    // a way back, by the long record
    (
        " LOC #200\nMain BZ $0,x\n LOC #100\nx TRAP 0,Halt,0",
        &[
            (1, 0x200),
            (7, 2),
            (255, 0x4200_0000),
            (1, 0x100),
            (16, 0x100_ffc0),
            (7, 4),
            (255, 0),
        ],
    ),
    // a label 2H is none of its own statement
    (
        "Main SWYM\n2H JMP 2F\n2H JMP 2B",
        &[
            (7, 1),
            (255, 0xfd00_0000),
            (255, 0xf000_0000),
            (4, 1),
            (255, 0xf1ff_ffff),
        ],
    ),
    // bytes on one another
    (
        "Main BYTE 1\n LOC 0\n BYTE 3\n TETRA #98000000",
        &[
            (7, 1),
            (255, 0x100_0000),
            (1, 0),
            (7, 3),
            (255, 0x300_0000),
            (255, 0x9800_0000),
        ],
    ),
    // an octa that waits for an address
    (
        " LOC Data_Segment\n GREG @\nArgs OCTA Buf,8\nBuf OCTA 0\n LOC #100\nMain LDA $255,Args\n TRAP 0,Fgets,StdIn\n TRAP 0,Halt,0",
        &[
            (1, 0x2000_0000_0000_0000),
            (7, 3),
            (255, 0),
            (255, 0),
            (255, 0),
            (255, 8),
            (3, 0x2000_0000_0000_0000),
            (7, 4),
            (255, 0),
            (255, 0),
            (1, 0x100),
            (255, 0x23ff_fe00),
            (255, 0x400),
            (255, 0),
        ],
    ),
];

#[test]
fn items(rt: HostRuntime) {
    for (source, want) in &ITEMS {
        assert!(rt;
            gives(rt.alloc(), source.as_bytes(), want),
            "{} items",
            want.len()
        );
    }
}

/// Sources, and their refusals.
static REFUSALS: [(&str, (u32, u16, u32)); 18] = [
    // nothing, so no Main
    ("", (1, 82, 0)),
    ("Main SWYM", (0, 0, 0)),
    // the first reference to what is never defined
    ("Main SWYM\n SWYM\n JMP x\n SWYM\n JMP x", (3, 80, 0)),
    ("1H OCTA 1F,x", (1, 81, 0)),
    // a label out of reach, a register, and no multiple of 4
    (
        "Main BZ $0,x\n LOC Main+4*65536\nx TRAP 0,Halt,0",
        (3, 85, 1),
    ),
    ("Main JMP x\n BZ $0,x\n BZ $0,x\nx IS #80000", (4, 85, 2)),
    ("Main JMP x\nx IS $1", (2, 84, 1)),
    ("Main JMP x\nx IS 6", (2, 89, 1)),
    // an unknown symbol with a prefix, a predefined one, and one that is there twice
    (" PREFIX p:\n:Main TRAP 0,Halt,0", (2, 17, 0)),
    ("Halt IS 0", (1, 31, 0)),
    ("x IS 1\nx IS 2", (2, 30, 0)),
    ("Main IS $1", (1, 83, 0)),
    // LOCAL at the lowest global register
    ("Main SWYM\n LOCAL $254", (0, 0, 0)),
    ("Main SWYM\n LOCAL $254\n GREG 0\n", (3, 87, 0)),
    // lines
    ("2X SWYM", (1, 3, 0)),
    ("a", (1, 7, 0)),
    (" FROB", (1, 39, 0)),
    (" BYTE 256", (1, 43, 0)),
];

#[test]
fn refusals(rt: HostRuntime) {
    for (source, want) in &REFUSALS {
        assert_eq!(rt; refusal(rt.alloc(), source.as_bytes()), *want);
    }
}
