//! Views as data. The tetras are worked out by hand, as in the texts.

use mx_view::{Cell, ListedLine, ToldFault, Wanted, list_source, tell_faults};
use std::alloc::{AllocError, Global};

/// Two lines that place bytes in one tetra, and the second in a further one.
static SHARED: &str = " LOC #102
Main BYTE 1
 BYTE 2,3
";

/// A faulty operation, and no Main.
static FAULTY: &str = " SWYM 0
x\tFOO 1
";

/// Whether a line has this number, this text and these tetras.
fn is_line(line: &ListedLine, number: u32, text: &str, cells: &[Cell]) -> bool {
    line.number == number
        && line.text.as_slice() == text.as_bytes()
        && line.cells.as_slice() == cells
}

/// Whether the lines that are listed are one without a tetra, one with one, and one with two.
fn is_listed(alloc: Global) -> Option<bool> {
    let low = Cell {
        address: 0x100,
        tetra: 0x102,
    };
    let high = Cell {
        address: 0x104,
        tetra: 0x0300_0000,
    };
    let listed = list_source(alloc, Wanted::All, SHARED.as_bytes()).ok()?;
    let [first, second, third] = listed.lines.as_slice() else {
        return None;
    };
    Some(
        is_line(first, 1, " LOC #102", &[])
            && is_line(second, 2, "Main BYTE 1", &[low])
            && is_line(third, 3, " BYTE 2,3", &[low, high]),
    )
}

/// How many lines are listed of an address, how many symbols there are, and whether the source is refused.
fn counts(alloc: Global, address: u64, source: &str) -> Option<(usize, usize, bool)> {
    let listed = list_source(alloc, Wanted::Holding(address), source.as_bytes()).ok()?;
    Some((
        listed.lines.as_slice().len(),
        listed.symbols.as_slice().len(),
        listed.refused.is_some(),
    ))
}

/// The line of a fault, whether it has a text, and its place.
fn place(fault: &ToldFault) -> (u32, bool, Option<usize>) {
    (fault.at_line, fault.line.is_some(), fault.caret)
}

/// The places of two faults.
fn places(alloc: Global, source: &str) -> Option<[(u32, bool, Option<usize>); 2]> {
    let told = tell_faults(alloc, source.as_bytes()).ok()?;
    match told.faults.as_slice() {
        [first, second] => Some([place(first), place(second)]),
        _ => None,
    }
}

#[test]
fn lines_have_their_tetras(rt: HostRuntime) {
    assert_eq!(rt; is_listed(rt.alloc()), Some(true));
}

#[test]
fn lines_of_an_address_and_symbols(rt: HostRuntime) {
    assert_eq!(rt; counts(rt.alloc(), 0x106, SHARED), Some((1, 1, false)));
}

#[test]
fn no_symbols_of_a_refused_source(rt: HostRuntime) {
    assert_eq!(rt; counts(rt.alloc(), 0, FAULTY), Some((1, 0, true)));
}

#[test]
fn faults_have_their_places(rt: HostRuntime) {
    let due = [(2, true, Some(2)), (2, false, None)];
    assert_eq!(rt; places(rt.alloc(), FAULTY), Some(due));
}

/// A text this many times, and then another one.
fn repeated(alloc: Global, text: &str, count: u32, last: &str) -> Result<String, AllocError> {
    let mut source = String::new(alloc);
    for _ in 0..count {
        source.push_str(text)?;
    }
    source.push_str(last)?;
    Ok(source)
}

/// The places of two faults of such a text.
fn places_of_repeated(
    alloc: Global,
    text: &str,
    count: u32,
    last: &str,
) -> Option<[(u32, bool, Option<usize>); 2]> {
    let source = repeated(alloc, text, count, last).ok()?;
    places(alloc, source.as_str())
}

/// A line of 4,097 bytes and a faulty operation.
#[test]
fn a_line_that_is_too_long_is_told_once(rt: HostRuntime) {
    let due = [(1, true, None), (2, true, Some(1))];
    assert_eq!(rt;
        places_of_repeated(rt.alloc(), " ", 4097, "\n FOO\nMain SWYM\n"),
        Some(due)
    );
}

/// A byte on each of 65,537 pages.
fn far_apart(alloc: Global) -> Result<String, AllocError> {
    repeated(alloc, " LOC @+4095\n BYTE 1\n", 65537, "Main SWYM\n")
}

/// The line and the number of the only fault.
fn only_fault(alloc: Global) -> Option<(u32, u16)> {
    let source = far_apart(alloc).ok()?;
    let told = tell_faults(alloc, source.as_bytes()).ok()?;
    match told.faults.as_slice() {
        [fault] => Some((fault.refused.line, fault.refused.fault)),
        _ => None,
    }
}

/// The line and the number of the refusal of a listing.
fn refused_listing(alloc: Global) -> Option<(u32, u16)> {
    let source = far_apart(alloc).ok()?;
    let listed = list_source(alloc, Wanted::Holding(0), source.as_bytes()).ok()?;
    let refused = listed.refused?;
    Some((refused.line, refused.fault))
}

/// Page 65,537 is refused at its line, as in a run.
#[test]
fn too_many_pages_are_a_fault(rt: HostRuntime) {
    assert_eq!(rt; only_fault(rt.alloc()), Some((131_074, 90)));
}

#[test]
fn too_many_pages_refuse_a_listing(rt: HostRuntime) {
    assert_eq!(rt; refused_listing(rt.alloc()), Some((131_074, 90)));
}

/// How many faults are told of a text this many times, and whether there are more.
fn told_of_repeated(alloc: Global, text: &str, count: u32) -> Option<(usize, bool)> {
    let source = repeated(alloc, text, count, "Main SWYM\n").ok()?;
    let told = tell_faults(alloc, source.as_bytes()).ok()?;
    Some((told.faults.as_slice().len(), told.is_cut))
}

#[test]
fn a_hundred_lines_are_all(rt: HostRuntime) {
    assert_eq!(rt;
        told_of_repeated(rt.alloc(), " FOO\n", 100),
        Some((100, false))
    );
}

/// Each of these is refused twice: for its operands, and with its label alone, which is defined before.
#[test]
fn of_a_hundred_and_one_lines_there_are_more(rt: HostRuntime) {
    assert_eq!(rt;
        told_of_repeated(rt.alloc(), "Main BYTE 256\n", 101),
        Some((100, true))
    );
}
