//! Objects that are listed, asked for an address, and counted. The tetras of the first two are those of docs/OBJECTS.md, the rows
//! and the sums are worked out by hand.

use mx_begin::collect_arguments;
use mx_host::MemHost;
use mx_load::ObjectFault;
use mx_object::{
    count_object, find_tetra, format_found, format_listing, format_sheet, is_object, list_object,
};
use mx_outcome::Outcome;
use mx_word::{Bytes, tetra_bytes};
use mx_words::read;
use std::alloc::Global;

/// The first object of the document: a text, and a program that prints it.
pub static PRINTS: [u32; 22] = [
    0x9809_0101,
    0,
    0x9806_0001,
    0x2e6d_6d73,
    0x9801_0001,
    0x100,
    0x9807_0002,
    0x6869_0a00,
    0xf5ff_ffff,
    0x0000_0701,
    0,
    0x980a_00ff,
    0,
    0x104,
    0x980b_0000,
    0x203a_304d,
    0x2061_2069,
    0x026e_0104,
    0x8220_5420,
    0x6520_7802,
    0x7401_0081,
    0x980c_0006,
];

/// The second one, with two fixes, without lines and symbols.
static FIXED: [u32; 16] = [
    0x9809_0101,
    0,
    0x9801_0001,
    0x100,
    0x4200_0000,
    0xf4ff_0000,
    0x0000_0701,
    0x9804_0003,
    0,
    0x9804_0003,
    0x6869_0a00,
    0x980a_00ff,
    0,
    0x100,
    0x980b_0000,
    0x980c_0000,
];

/// A tetra at a higher address, then a jump to an address where nothing is loaded. Its symbol is the third byte of
/// the first tetra, `:Text`.
pub static JUMPS: [u32; 16] = [
    0x9809_0101,
    0,
    0x9801_0001,
    0x180,
    0x0102_0304,
    0x9801_0001,
    0x100,
    0xf000_0040,
    0x980a_00ff,
    0,
    0x100,
    0x980b_0000,
    0x203a_2054,
    0x2065_2078,
    0x0274_0182,
    0x8100_0000,
];

/// An object that ends before its globals.
pub static CUT: [u32; 5] = [0x9809_0101, 0, 0x9801_0001, 0x100, 0];

/// The bytes of tetras, and of one more that ends the object with a trie.
pub fn bytes_of(alloc: Global, tetras: &[u32], end: Option<u32>) -> Option<Bytes> {
    let mut bytes = Bytes::new(alloc);
    for tetra in tetras {
        bytes.extend(&tetra_bytes(*tetra)).ok()?;
    }
    if let Some(end) = end {
        bytes.extend(&tetra_bytes(end)).ok()?;
    }
    Some(bytes)
}

/// Whether the listing of an object is this text.
fn is_listed(alloc: Global, tetras: &[u32], end: Option<u32>, due: &str) -> Option<bool> {
    let bytes = bytes_of(alloc, tetras, end)?;
    let listed = list_object(alloc, bytes.as_slice()).ok()?;
    let text = format_listing(alloc, &listed).ok()?;
    Some(text.as_slice() == due.as_bytes())
}

#[test]
fn labels_lines_and_symbols(rt: HostRuntime) {
    let due = "Text:
#0000000000000100: 68690a00      2: CSNN $105,$10,$0
Main:
#0000000000000104: f5ffffff      3: GETA $255,#0000000000000100
#0000000000000108: 00000701      4: TRAP 0,7,1
#000000000000010c: 00000000      5: TRAP 0,0,0

symbol :Main #0000000000000104 2
symbol :Text #0000000000000100 1
";
    assert_eq!(rt; is_listed(rt.alloc(), &PRINTS, None, due), Some(true));
}

#[test]
fn fixed_tetras_of_an_object_without_lines(rt: HostRuntime) {
    let due = "#0000000000000100: 42000003  BZ $0,#000000000000010c
#0000000000000104: f4ff0003  GETA $255,#0000000000000110
#0000000000000108: 00000701  TRAP 0,7,1
#000000000000010c: 00000000  TRAP 0,0,0
#0000000000000110: 68690a00  CSNN $105,$10,$0

";
    assert_eq!(rt; is_listed(rt.alloc(), &FIXED, None, due), Some(true));
}

#[test]
fn addresses_ascend_and_a_label_is_within_a_tetra(rt: HostRuntime) {
    let due = "#0000000000000100: f0000040  JMP #0000000000000200
Text: byte 2
#0000000000000180: 01020304  FCMP $2,$3,$4

symbol :Text #0000000000000182 1
";
    let due = due.as_bytes();
    let got = listed_jumps(rt.alloc());
    assert_eq!(rt; got.as_ref().map(|text| text.as_slice() == due), Some(true));
}

/// The listing of the object that jumps.
fn listed_jumps(alloc: Global) -> Option<Bytes> {
    let bytes = bytes_of(alloc, &JUMPS, Some(0x980c_0004))?;
    let listed = list_object(alloc, bytes.as_slice()).ok()?;
    format_listing(alloc, &listed).ok()
}

/// Why an object is refused.
fn refused(alloc: Global, tetras: &[u32]) -> Option<ObjectFault> {
    let bytes = bytes_of(alloc, tetras, None)?;
    list_object(alloc, bytes.as_slice()).err()
}

#[test]
fn a_refused_object(rt: HostRuntime) {
    let truncated = ObjectFault::Bad {
        place: 20,
        fault: 64,
    };
    assert_eq!(rt; refused(rt.alloc(), &CUT), Some(truncated));
}

#[test]
fn objects_begin_with_pre(rt: HostRuntime) {
    let object = is_object(&[0x98, 9, 1, 0]);
    let other = is_object(&[0x98, 9, 2, 0]);
    assert_eq!(rt;
        (object, other, is_object(b"Main SWYM\n"), is_object(b"")),
        (true, false, false, false)
    );
}

/// What is told of an address of the first object.
fn found(alloc: Global, address: u64) -> Option<Bytes> {
    let bytes = bytes_of(alloc, &PRINTS, None)?;
    let found = find_tetra(alloc, bytes.as_slice(), address).ok()?;
    format_found(alloc, &found).ok()
}

/// Whether this is told of an address of the first object.
fn is_found(alloc: Global, address: u64, due: &str) -> Option<bool> {
    Some(found(alloc, address)?.as_slice() == due.as_bytes())
}

#[test]
fn the_tetra_that_holds_an_address(rt: HostRuntime) {
    let due = "Main+2:\n#0000000000000104: f5ffffff      3: GETA $255,#0000000000000100\n";
    assert_eq!(rt; is_found(rt.alloc(), 0x106, due), Some(true));
}

#[test]
fn the_tetra_of_a_label(rt: HostRuntime) {
    let due = "Text:\n#0000000000000100: 68690a00      2: CSNN $105,$10,$0\n";
    assert_eq!(rt; is_found(rt.alloc(), 0x100, due), Some(true));
}

#[test]
fn no_tetra(rt: HostRuntime) {
    assert_eq!(rt; is_found(rt.alloc(), 0x110, ""), Some(true));
}

/// The words of a run of the object in a file.
fn words(alloc: Global) -> Option<Vec<String>> {
    let mut words = Vec::new(alloc);
    words.push(String::from_str(alloc, "sim").ok()?).ok()?;
    words.push(String::from_str(alloc, "a.mmo").ok()?).ok()?;
    Some(words)
}

/// The outcome of an object that is run and counted, and its sheet; no bytes where there is none.
fn counted(alloc: Global, object: &Bytes) -> Option<(Outcome, Bytes)> {
    let mut host = MemHost::new(alloc, Vec::new(alloc), Vec::new(alloc)).ok()?;
    let words = words(alloc)?;
    let order = read(words.as_slice()).ok()?;
    let given = collect_arguments(alloc, words.as_slice(), &order).ok()?;
    let counted = count_object(
        alloc,
        &mut host,
        &order,
        object.as_slice(),
        given.as_slice(),
    );
    match &counted.sheet {
        Some(sheet) => Some((counted.outcome, format_sheet(alloc, sheet).ok()?)),
        None => Some((counted.outcome, Bytes::new(alloc))),
    }
}

/// The outcome, and whether the sheet is this after its heading.
fn comes_to(alloc: Global, tetras: &[u32], end: Option<u32>, due: &str) -> Option<(Outcome, bool)> {
    let bytes = bytes_of(alloc, tetras, end)?;
    let (outcome, sheet) = counted(alloc, &bytes)?;
    Some((outcome, sheet.as_slice().ends_with(due.as_bytes())))
}

#[test]
fn a_run_by_parts_and_tetras(rt: HostRuntime) {
    let due = "
      times       away       oops       mems
          3          0         11          0 Main:
          1          0          1          0  #0000000000000104: f5ffffff      3: GETA $255,#0000000000000100
          1          0          5          0  #0000000000000108: 00000701      4: TRAP 0,7,1
          1          0          5          0  #000000000000010c: 00000000      5: TRAP 0,0,0
          0          0          0          0  elsewhere
          3          0         11          0  all steps
";
    let got = comes_to(rt.alloc(), &PRINTS, None, due);
    assert_eq!(rt; got, Some((Outcome::Done(3), true)));
}

#[test]
fn a_run_that_leaves_the_object(rt: HostRuntime) {
    let due = "
      times       away       oops       mems
          1          1          1          0  #0000000000000100: f0000040  JMP #0000000000000200
          1          0          5          0  elsewhere
          2          1          6          0  all steps
";
    let got = comes_to(rt.alloc(), &JUMPS, Some(0x980c_0004), due);
    assert_eq!(rt; got, Some((Outcome::Done(0), true)));
}

#[test]
fn a_refused_object_is_not_counted(rt: HostRuntime) {
    let bad = Outcome::BadObject {
        place: 20,
        fault: 64,
    };
    assert_eq!(rt; comes_to(rt.alloc(), &CUT, None, ""), Some((bad, true)));
}
