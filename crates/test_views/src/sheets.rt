//! Sheets of traces made by hand. The sums are worked out by hand.

use mx_core::Trace;
use mx_count::{Counts, format_sheet, make_sheet};
use mx_word::Bytes;
use std::alloc::Global;

/// A trace: the address and the tetra of its instruction, and the address that follows.
type Row = (u64, u32, u64);

/// A loop of three turns, a line that is not reached, and two lines in one tetra, which is then carried out.
static SOURCE: &str = " LOC #100
Main SETL $0,3
Loop SUB $0,$0,1
 PBNZ $0,Loop
 SWYM 0
 BYTE #fd; BYTE 0
 WYDE 0
";

static TURNS: [Row; 8] = [
    (0x100, 0xe300_0003, 0x104),
    (0x104, 0x2500_0001, 0x108),
    (0x108, 0x5b00_ffff, 0x104),
    (0x104, 0x2500_0001, 0x108),
    (0x108, 0x5b00_ffff, 0x104),
    (0x104, 0x2500_0001, 0x108),
    (0x108, 0x5b00_ffff, 0x110),
    (0x110, 0xfd00_0000, 0x114),
];

static COUNTED: &str = "
--------------------------------------------------------
      times       away       oops       mems
                                                 1:  LOC #100
          1          0          1          0     2: Main SETL $0,3
          3          0          3          0     3: Loop SUB $0,$0,1
          3          3          3          0     4:  PBNZ $0,Loop
          -                                      5:  SWYM 0
          1          0          1          0     6:  BYTE #fd; BYTE 0
          1          0          1          0     7:  WYDE 0
          8          3          8          0  all steps
";

/// Addresses that no line loads, and many of them, so that the places that are remembered are taken again.
static FAR: [Row; 4] = [
    (0x100, 0xe300_0003, 0x1100),
    (0x1100, 0x8d00_0000, 0x104),
    (0x1100, 0x8d00_0000, 0x100),
    (0x100, 0xe300_0003, 0x104),
];

static FAR_COUNTED: &str = "
--------------------------------------------------------
      times       away       oops       mems
                                                 1:  LOC #100
          2          1          2          0     2: Main SETL $0,3
          4          3          4          2  all steps
";

/// The row of a line whose number has five digits.
static FAR_DOWN: &str = "
          1          0          1          0 10000: Main SWYM 0
          1          0          1          0  all steps
";

/// The counts of traces.
fn counts_of(alloc: Global, rows: &[Row]) -> Option<Counts> {
    let mut counts = Counts::new(alloc);
    for row in rows {
        let trace = Trace {
            pc: row.0,
            word: row.1,
            dest: None,
            reads: None,
            writes: None,
            next: row.2,
        };
        counts.add_step(&trace).ok()?;
    }
    Some(counts)
}

/// The sheet of a source and traces.
fn sheet_of(alloc: Global, source: &[u8], rows: &[Row]) -> Option<Bytes> {
    let counts = counts_of(alloc, rows)?;
    let sheet = make_sheet(alloc, source, counts.as_slice()).ok()?;
    format_sheet(alloc, &sheet).ok()
}

/// Whether this is the sheet.
fn is_sheet(sheet: Option<Bytes>, text: &str) -> bool {
    match sheet {
        Some(sheet) => sheet.as_slice() == text.as_bytes(),
        None => false,
    }
}

#[test]
fn lines_have_the_steps_of_their_tetras(rt: HostRuntime) {
    assert!(rt; is_sheet(sheet_of(rt.alloc(), SOURCE.as_bytes(), &TURNS), COUNTED));
}

#[test]
fn steps_elsewhere_are_in_the_sum(rt: HostRuntime) {
    assert!(rt;
        is_sheet(
            sheet_of(rt.alloc(), b" LOC #100\nMain SETL $0,3\n", &FAR),
            FAR_COUNTED
        )
    );
}

/// A source of this line after this many empty ones.
fn far_down(alloc: Global, empty: usize, line: &str) -> Option<Bytes> {
    let mut source = Bytes::new(alloc);
    for _line in 0..empty {
        source.extend(b"\n").ok()?;
    }
    source.extend(line.as_bytes()).ok()?;
    Some(source)
}

/// One step at 0.
static ONE_STEP: [Row; 1] = [(0, 0xfd00_0000, 4)];

/// Whether the sheet of a step at line 10,000 ends so.
fn ends_with(alloc: Global, last: &str) -> Option<bool> {
    let source = far_down(alloc, 9999, "Main SWYM 0\n")?;
    let sheet = sheet_of(alloc, source.as_slice(), &ONE_STEP)?;
    Some(sheet.as_slice().ends_with(last.as_bytes()))
}

#[test]
fn numbers_of_lines_are_apart(rt: HostRuntime) {
    assert_eq!(rt; ends_with(rt.alloc(), FAR_DOWN), Some(true));
}
