//! Rows from the rules of the language.

use mx_line::{Cut, LineFault, Span, cut_line, next_statement, one_list, slice_span};
use std::alloc::Global;

/// A span, by its two places.
fn span(places: &(usize, usize)) -> Span {
    Span {
        from: places.0,
        to: places.1,
    }
}

/// Texts, each of them what the one above leaves, their first lines and what these leave: a last newline
/// begins no line.
static TEXTS: [(&str, &str, &str); 3] = [
    ("ab\n\nc\n", "ab", "\nc\n"),
    ("\nc\n", "", "c\n"),
    ("c\n", "c", ""),
];

/// Whether a text has this first line and leaves this.
fn begins_with(text: &str, line: &str, rest: &str) -> bool {
    if text.is_empty() {
        return false;
    }
    cut_line(text.as_bytes()) == (line.as_bytes(), rest.as_bytes())
}

#[test]
fn lines_and_parts(rt: HostRuntime) {
    for (text, line, rest) in &TEXTS {
        assert!(rt; begins_with(text, line, rest), "{text}");
    }
    let operation = slice_span(b"Main BYTE 1", Span { from: 5, to: 9 });
    assert_eq!(rt; operation, b"BYTE".as_slice());
}

/// What is found from a place of a line on; nothing where the line has no such place.
fn found(line: &str, at: usize) -> Option<Result<Option<Cut>, LineFault>> {
    if at > line.len() {
        return None;
    }
    Some(next_statement(line.as_bytes(), at))
}

/// The statement of a row.
fn cut(row: &Row) -> Cut {
    let (_, _, label, op, operands, next) = row;
    Cut {
        label: label.as_ref().map(span),
        op: span(op),
        operands: span(operands),
        next: *next,
    }
}

/// A line, a place in it, and the statement that is found from there on: its label, operation and
/// operands by their first place and the place after them, and the place after it.
type Row = (
    &'static str,
    usize,
    Option<(usize, usize)>,
    (usize, usize),
    (usize, usize),
    usize,
);

/// Two statements, and a third that has no operation.
const TWO: &str = "a SET 1;b SET 2 ;c";

/// Statements of lines.
static STATEMENTS: [Row; 6] = [
    // two statements, each before a `;`
    (TWO, 0, Some((0, 1)), (2, 5), (6, 7), 8),
    (TWO, 8, Some((8, 9)), (10, 13), (14, 15), 17),
    // a string and character constants hold blanks, `;` and quotes
    (" BYTE \"a; b\",1;x", 0, None, (1, 5), (6, 14), 15),
    (" BYTE ';',' ','\"',''' y", 0, None, (1, 5), (6, 21), 23),
    // after the operands a comment
    ("2H SWYM 1,2 note", 0, Some((0, 2)), (3, 7), (8, 11), 16),
    // bytes above 126 are letters, and 13 is a blank
    (
        "\u{7f}\u{e9}:_9\rOP\r5\r",
        0,
        Some((0, 6)),
        (7, 9),
        (10, 11),
        12,
    ),
];

#[test]
fn statements_of_lines(rt: HostRuntime) {
    for row in &STATEMENTS {
        let (line, at, ..) = row;
        assert_eq!(rt;
            found(line, *at),
            Some(Ok(Some(cut(row)))),
            "{line} at {at}"
        );
    }
    one_list();
}

/// Lines whose first statement has no operands, and the place after it.
static BARE: [(&str, usize); 4] = [
    (" SWYM", 5),
    (" SWYM;SWYM", 6),
    (" SWYM  ; SWYM", 8),
    // the rest is no statement
    (" SWYM; ;SWYM", 6),
];

/// Lines, and places from which on there is no statement.
static EMPTY: [(&str, usize); 9] = [
    ("", 0),
    ("* note", 0),
    ("  ", 0),
    (" ;SWYM", 0),
    (" *", 0),
    ("# line 3", 0),
    (" SWYM;;SWYM", 6),
    (" SWYM; ;SWYM", 6),
    (" SWYM;", 6),
];

/// The place after a first statement whose operation ends at place 5 and that has no operands.
fn after_bare(line: &str) -> Option<usize> {
    match found(line, 0) {
        Some(Ok(Some(cut))) if cut.op.to == 5 && cut.operands.from == cut.operands.to => Some(
            cut.next,
        ),
        _ => None,
    }
}

#[test]
fn statements_without_operands(rt: HostRuntime) {
    for (line, next) in &BARE {
        assert_eq!(rt; after_bare(line), Some(*next), "{line}");
    }
}

#[test]
fn lines_without_statements(rt: HostRuntime) {
    for (line, at) in &EMPTY {
        assert_eq!(rt; found(line, *at), Some(Ok(None)), "{line} at {at}");
    }
}

/// Lines, places, the fault that is found from there on, and its number.
static FAULTY: [(&str, usize, LineFault, u16); 15] = [
    ("a;", 0, LineFault::BadLabel, 2),
    ("2H, SWYM", 0, LineFault::BadLabel, 2),
    ("2X SWYM", 0, LineFault::BadLocal, 3),
    ("2X, SWYM", 0, LineFault::BadLocal, 3),
    ("22H SWYM", 0, LineFault::BadLocal, 3),
    (" SWYM+ \"", 0, LineFault::BadOpcode, 4),
    (" SWYM \"x", 0, LineFault::OpenString, 5),
    (" SWYM \"x;'", 0, LineFault::OpenString, 5),
    (" SWYM isn't", 0, LineFault::OpenChar, 6),
    (" SWYM 'x", 0, LineFault::OpenChar, 6),
    (" SWYM '\"x", 0, LineFault::OpenChar, 6),
    ("a", 0, LineFault::NoOpcode, 7),
    ("a *x", 0, LineFault::NoOpcode, 7),
    ("a ;", 0, LineFault::NoOpcode, 7),
    ("a SET 1;b SET 2 ;c", 17, LineFault::NoOpcode, 7),
];

#[test]
fn faulty_lines(rt: HostRuntime) {
    for (line, at, fault, number) in &FAULTY {
        assert_eq!(rt;
            (found(line, *at), fault.number()),
            (Some(Err(*fault)), *number),
            "{line} at {at}"
        );
    }
}

/// The answer for a line of this many stars, with ample memory.
fn stars(alloc: Global, count: usize) -> Option<Result<Option<Cut>, LineFault>> {
    match vec![in alloc; 42; count] {
        Ok(line) => Some(next_statement(line.as_slice(), 0)),
        Err(_) => None,
    }
}

#[test]
fn long_lines(rt: HostRuntime) {
    assert_eq!(rt;
        (
            stars(rt.alloc(), 4096),
            stars(rt.alloc(), 4097),
            LineFault::TooLong.number()
        ),
        (Some(Ok(None)), Some(Err(LineFault::TooLong)), 1)
    );
}
