//! Rows of faults that are found one after another.

use mx_view::{ToldFault, tell_faults};
use std::alloc::Global;

/// A source and its faults: the lines at fault and their numbers, and zeros for what is none.
struct Row {
    shows: &'static str,
    source: &'static str,
    faults: [(u32, u16); 4],
}

const NONE: (u32, u16) = (0, 0);

static ROWS: [Row; 13] = [
    Row {
        shows: "the label of a faulty line is known later",
        source: "x BYTE 256\nMain JMP x\n BYTE 257\n",
        faults: [(1, 43), (3, 43), NONE, NONE],
    },
    Row {
        shows: "the first line is faulty",
        source: " FOO\nMain SWYM 0\n",
        faults: [(1, 39), NONE, NONE, NONE],
    },
    Row {
        shows: "the last line is faulty, and has no newline",
        source: "Main SWYM 0\n FOO",
        faults: [(2, 39), NONE, NONE, NONE],
    },
    Row {
        shows: "the second statement of a line is faulty, and its label stays",
        source: "x SWYM 0; FOO\nMain JMP x\n BYTE 256\n",
        faults: [(1, 39), (3, 43), NONE, NONE],
    },
    Row {
        shows: "the second statement of a later line is faulty",
        source: " FOO\nMain SWYM 0\nx SWYM 0; BYTE 256\n JMP x\n",
        faults: [(1, 39), (3, 43), NONE, NONE],
    },
    Row {
        shows: "labels that are defined already",
        source: "Main SWYM 0\nMain BYTE 256\nMain SWYM 1\n FOO\n",
        faults: [(2, 43), (3, 30), (4, 39), NONE],
    },
    Row {
        shows: "a reference of a line with such a label is none",
        source: "Main JMP a\nMain JMP nowhere\na SWYM 0\n",
        faults: [(2, 30), NONE, NONE, NONE],
    },
    Row {
        shows: "a label that is one of the language",
        source: "Main SWYM 0\nHalt BYTE 256\nPut IS 1\n",
        faults: [(2, 43), NONE, NONE, NONE],
    },
    Row {
        shows: "a fault at an earlier line, between others",
        source: "Main BZ $0,x\n FOO\nx IS $1\n BYTE 256\n",
        faults: [(1, 84), (2, 39), (4, 43), NONE],
    },
    Row {
        shows: "names that are never defined, before and after others",
        source: "Main JMP nowhere\n BYTE 256\n JMP 1F\n FOO\n",
        faults: [(1, 80), (2, 43), (3, 81), (4, 39)],
    },
    Row {
        shows: "a local label of a faulty line",
        source: "2H BYTE 256\nMain JMP 2B\n JMP 2F\n",
        faults: [(1, 43), (3, 81), NONE, NONE],
    },
    Row {
        shows: "a fault of the source as a whole, after one of a line",
        source: " FOO\nx SWYM 0\n",
        faults: [(1, 39), (2, 82), NONE, NONE],
    },
    Row {
        shows: "no fault",
        source: "Main SWYM 0\n",
        faults: [NONE, NONE, NONE, NONE],
    },
];

/// The line at fault and the number of a fault, if there are this many.
fn place(faults: &[ToldFault], index: usize) -> (u32, u16) {
    match faults.get(index) {
        Some(fault) => (fault.at_line, fault.refused.fault),
        None => NONE,
    }
}

/// The first four faults of a source, which has no more lines at fault than are told.
fn places(alloc: Global, source: &str) -> Option<[(u32, u16); 4]> {
    let told = tell_faults(alloc, source.as_bytes()).ok()?;
    if told.is_cut {
        return None;
    }
    let faults = told.faults.as_slice();
    Some([
        place(faults, 0),
        place(faults, 1),
        place(faults, 2),
        place(faults, 3),
    ])
}

/// What the first row shows that is not so.
fn find_search_mismatch(alloc: Global, rows: &'static [Row]) -> Option<&'static str> {
    for row in rows {
        if places(alloc, row.source) != Some(row.faults) {
            return Some(row.shows);
        }
    }
    None
}

#[test]
fn faults_are_found_one_after_another(rt: HostRuntime) {
    assert_eq!(rt; find_search_mismatch(rt.alloc(), &ROWS), None);
}
