//! The costs of instructions, row by row, from the book's table (TAOCP 1, Fascicle 1, Table 1).

use mx_core::Trace;
use mx_count::{Counts, format_sheet, make_sheet};
use mx_word::Bytes;
use std::alloc::Global;

/// The tetra of an instruction, the address that follows it at #100, and its υ and μ.
type Row = (u32, u64, u64, u64);

/// Instructions that go on to the next address.
static COSTS: [Row; 22] = [
    (0x2000_0000, 0x104, 1, 0), // ADD
    (0x1800_0000, 0x104, 10, 0), // MUL
    (0x1b00_0000, 0x104, 10, 0), // MULU with a byte
    (0x1c00_0000, 0x104, 60, 0), // DIV
    (0x1f00_0000, 0x104, 60, 0), // DIVU with a byte
    (0x3f00_0000, 0x104, 1, 0), // SRU with a byte
    (0x6000_0000, 0x104, 1, 0), // CSN
    (0x8000_0000, 0x104, 1, 1), // LDB
    (0x9300_0000, 0x104, 1, 1), // LDHT with a byte
    (0x9400_0000, 0x104, 2, 2), // CSWAP
    (0x9600_0000, 0x104, 1, 1), // LDUNC
    (0x9800_0000, 0x104, 1, 0), // LDVTS
    (0xa000_0000, 0x104, 1, 1), // STB
    (0xb700_0000, 0x104, 1, 1), // STUNC with a byte
    (0xb800_0000, 0x104, 1, 0), // SYNCD
    (0x0000_0701, 0x104, 5, 0), // TRAP 0,Fputs,StdOut
    (0xf700_0000, 0x104, 1, 0), // PUT with a byte
    (0xfa00_0000, 0x104, 1, 20), // SAVE
    (0xfb00_0000, 0x104, 1, 20), // UNSAVE
    (0xfc00_0000, 0x104, 1, 0), // SYNC
    (0xfd00_0000, 0x104, 1, 0), // SWYM
    (0xfe00_0000, 0x104, 1, 0), // GET
];

/// Instructions that do not, but for branches that go on.
static WAYS: [Row; 14] = [
    (0x4000_0002, 0x104, 1, 0), // BN goes on
    (0x4000_0002, 0x108, 3, 0), // and jumps
    (0x4f00_0000, 0x104, 1, 0), // BEV backward goes on
    (0x4f00_0000, 0x80, 3, 0), // and jumps
    (0x5000_0002, 0x104, 3, 0), // PBN goes on
    (0x5000_0002, 0x108, 1, 0), // and jumps
    (0x5f00_0000, 0x104, 3, 0), // PBEV backward goes on
    (0x5f00_0000, 0x80, 1, 0), // and jumps
    (0x9e00_0000, 0x200, 3, 0), // GO
    (0xbf00_0000, 0x200, 3, 0), // PUSHGO with a byte
    (0xf000_0002, 0x108, 1, 0), // JMP
    (0xf200_0002, 0x108, 1, 0), // PUSHJ
    (0xf800_0000, 0x200, 3, 0), // POP
    (0xf900_0000, 0x200, 5, 0), // RESUME
];

/// The trace of a row.
fn trace_of(row: &Row) -> Trace {
    Trace {
        pc: 0x100,
        word: row.0,
        dest: None,
        reads: None,
        writes: None,
        next: row.1,
    }
}

/// The sheet of an empty source and a step.
fn sheet_of(alloc: Global, row: &Row) -> Option<Bytes> {
    let mut counts = Counts::new(alloc);
    counts.add_step(&trace_of(row)).ok()?;
    let sheet = make_sheet(alloc, b"", counts.as_slice()).ok()?;
    format_sheet(alloc, &sheet).ok()
}

/// The last row of the sheet that is due.
fn last_row(alloc: Global, row: &Row) -> Option<String> {
    let away = u64::from(row.1 != 0x104);
    let (oops, mems) = (row.2, row.3);
    format!(in alloc; "          1{away:>11}{oops:>11}{mems:>11}  all steps\n").ok()
}

/// Whether the sheet of a row ends with the row that is due.
fn is_cost(alloc: Global, row: &Row) -> bool {
    match (sheet_of(alloc, row), last_row(alloc, row)) {
        (Some(sheet), Some(due)) => sheet.as_slice().ends_with(due.as_bytes()),
        _ => false,
    }
}

/// The first row whose cost is another one.
fn find_cost_mismatch(alloc: Global, rows: &[Row]) -> Option<u32> {
    for row in rows {
        if !is_cost(alloc, row) {
            return Some(row.0);
        }
    }
    None
}

#[test]
fn costs_are_those_of_the_table(rt: HostRuntime) {
    assert_eq!(rt; find_cost_mismatch(rt.alloc(), &COSTS), None);
}

#[test]
fn branches_cost_by_their_way(rt: HostRuntime) {
    assert_eq!(rt; find_cost_mismatch(rt.alloc(), &WAYS), None);
}
