//! Which sentence is said of a fault, where its number has several.

ghost use Rattle.std.specs.Prelude.{◌≡◌, ◌≤◌, IfSome, length};
ghost use Rattle.std.specs.List.{list_any};
ghost use Rattle.mx_sentences.specs.Choices as spec;
ghost use Rattle.mx_advice.specs.Rows.{shown};

use mx_advice::{
    Row, address_row, ahead_row, byte_row, colon_row, comma_row, comment_row, data_byte_row,
    data_wyde_row, end_row, far_row, foreign_row, hexadecimal_row, indented_row, later_code_row,
    later_row, match_row, nowhere_row, other_main_row, point_row, quote_row, remark_row, row_of,
    set_row, sum_row, tetra_row, wyde_row,
};
use mx_foreign::advice_on;
use mx_marks::{
    Field, Likeness, Room, cut_leading_word, find_similar_label, from_field, is_code_label,
    is_label, is_read_through, operands_at, operation_at, room_at, skip_past_comma,
};
use mx_ops::find;
use mx_word::is_letter;

/// What a word is that is no operation.
#[derive(Clone, Copy)]
pub(crate) enum Unknown {
    /// A label that is not in the first column.
    Indented,
    /// The first word of a comment after a `;`.
    Remark,
    /// An operation of other machines.
    Foreign,
    /// Any other word.
    Misspelled,
}

/// Whether a name is a label of a source.
pub(crate) fn is_defined(source: &[u8], name: &[u8]) -> bool
    ensures { result ≡ spec.is_defined source.now name.now }
{
    is_label(name, u32::MAX, source)
}

/// The row for operands whose parts can follow each other: they end too early, or parentheses do not match.
fn read_row(marked: &[u8]) -> Row
    ensures { shown result ≡ spec.read_row marked.now }
{
    if marked.is_empty() {
        match_row()
    } else {
        end_row()
    }
}

/// Whether operands are a comment after an operation without operands.
fn starts_with_comment(operands: &[u8]) -> bool
    ensures { result ≡ spec.begins_comment operands.now }
{
    match operands {
        [] => false,
        [b, ..] => *b == b'!' || *b == b'%' || *b == b'*' || *b == b'/' || *b == b';',
    }
}

/// Whether a byte is a double quote.
fn is_quote(b: u8) -> bool
    ensures { result ≡ spec.is_quote b }
{
    b == b'"'
}

/// Whether operands have a double quote.
fn has_quote(operands: &[u8]) -> bool
    ensures { result ≡ list_any spec.is_quote operands.now }
{
    operands.iter().any(|b| is_quote(*b))
}

/// The row for operands that cease to be expressions at this byte.
fn byte_stop_row(b: u8, operands: &[u8]) -> Row
    ensures { shown result ≡ spec.byte_stop_row b operands.now }
{
    if b == b'.' {
        point_row()
    } else if b == b',' {
        comma_row()
    } else if b == b'x' || b == b'X' {
        hexadecimal_row()
    } else if b == b'H' {
        ahead_row()
    } else if has_quote(operands) {
        quote_row()
    } else {
        row_of(10)
    }
}

/// The row for operands that cease to be expressions at this text.
fn stop_row(marked: &[u8], operands: &[u8]) -> Row
    ensures { shown result ≡ spec.stop_row marked.now operands.now }
{
    if starts_with_comment(operands) {
        return comment_row();
    }
    match marked {
        [] => row_of(10),
        [b, ..] => byte_stop_row(*b, operands),
    }
}

/// The row for operands that are no expressions, of which this text is marked.
fn syntax_row(marked: &[u8], operands: &[u8]) -> Row
    ensures { shown result ≡ spec.syntax_row marked.now operands.now }
{
    if is_read_through(operands) {
        read_row(marked)
    } else {
        stop_row(marked, operands)
    }
}

/// Whether GETA does where LDA has a name that is defined further down.
fn is_geta_better(source: &[u8], name: &[u8], line: &[u8], place: usize) -> bool
    ensures { result ≡ spec.gives_way source.now name.now line.now place }
{
    operation_at(line, place) == b"LDA".as_slice()
        && skip_past_comma(operands_at(line, place)) == name
        && is_code_label(name, source)
}

/// The row for a name without a value.
fn early_row(source: &[u8], name: &[u8], line: &[u8], place: usize) -> Row
    requires { place ≤ length line.now }
    ensures { shown result ≡ spec.early_row source.now name.now line.now place }
{
    if !is_defined(source, name) {
        row_of(17)
    } else if is_geta_better(source, name, line, place) {
        later_code_row()
    } else {
        later_row()
    }
}

/// Whether a text begins with a capital.
fn starts_with_capital(text: &[u8]) -> bool
    ensures { result ≡ spec.begins_capital text.now }
{
    match text {
        [] => false,
        [b, ..] => *b >= b'A' && *b <= b'Z',
    }
}

/// Whether a word is the first one of a comment after a `;`.
fn is_remark(marked: &[u8], place: usize) -> bool
    ensures { result ≡ spec.is_remark marked.now place }
{
    place != 0 && !starts_with_capital(marked)
}

/// Whether the operation of the statement at a place is a label that is not in the first column.
fn is_indented(line: &[u8], place: usize) -> bool
    requires { place ≤ length line.now }
    ensures { result ≡ spec.is_indented line.now place }
{
    let statement = &line[place..];
    cut_leading_word(statement).is_empty()
        && find(cut_leading_word(from_field(Field::Operands, statement))).is_some()
}

/// What the word is that the statement at a place has for an operation.
pub(crate) fn unknown_kind(marked: &[u8], line: &[u8], place: usize) -> Unknown
    requires { place ≤ length line.now }
    ensures { result ≡ spec.unknown_kind marked.now line.now place }
{
    if is_remark(marked, place) {
        Unknown::Remark
    } else if is_indented(line, place) {
        Unknown::Indented
    } else if advice_on(marked).as_bytes().is_empty() {
        Unknown::Misspelled
    } else {
        Unknown::Foreign
    }
}

/// The row for a word that is no operation.
fn operation_row(kind: Unknown, marked: &[u8]) -> Row
    ensures { shown result ≡ spec.operation_row kind marked.now }
{
    match kind {
        Unknown::Indented => indented_row(),
        Unknown::Remark => remark_row(),
        Unknown::Foreign => foreign_row(advice_on(marked)),
        Unknown::Misspelled => row_of(39),
    }
}

/// The row for a number that has no room.
fn room_row(room: Room) -> Row
    ensures { shown result ≡ spec.room_row room }
{
    match room {
        Room::Byte => byte_row(),
        Room::Wyde => wyde_row(),
        Room::Tetra => tetra_row(),
        Room::DataByte => data_byte_row(),
        Room::DataWyde => data_wyde_row(),
    }
}

/// Whether an operation adds or subtracts.
fn is_sum(operation: &[u8]) -> bool
    ensures { result ≡ spec.is_sum operation.now }
{
    operation == b"ADD".as_slice()
        || operation == b"SUB".as_slice()
        || operation == b"ADDU".as_slice()
        || operation == b"SUBU".as_slice()
}

/// Whether an operation puts a wyde into a register.
pub(crate) fn is_set(operation: &[u8]) -> bool
    ensures { result ≡ spec.is_set operation.now }
{
    operation == b"SET".as_slice() || operation == b"SETL".as_slice()
}

/// The row for a value that has no room, where this text is marked.
fn fit_row(marked: &[u8], line: &[u8], place: usize) -> Row
    ensures { shown result ≡ spec.fit_row marked.now line.now place }
{
    let [b, ..] = marked else {
        return room_row(room_at(line, place));
    };
    if is_letter(*b) {
        address_row()
    } else if *b == b'-' && is_sum(operation_at(line, place)) {
        sum_row()
    } else if is_set(operation_at(line, place)) {
        set_row()
    } else {
        room_row(room_at(line, place))
    }
}

/// The row for a local label with `F` that is nowhere further down.
fn local_row(source: &[u8], marked: &[u8]) -> Row
    ensures { shown result ≡ spec.local_row source.now marked.now }
{
    let [d, ..] = marked else {
        return row_of(81);
    };
    if is_defined(source, &[*d, b'H']) {
        row_of(81)
    } else {
        nowhere_row()
    }
}

/// Whether the statement at a place is GETA.
pub(crate) fn is_geta(line: &[u8], place: usize) -> bool
    ensures { result ≡ spec.is_geta line.now place }
{
    operation_at(line, place) == b"GETA".as_slice()
}

/// The row for a target that is too far away.
fn reach_row(fault: u16, line: &[u8], place: usize) -> Row
    ensures { shown result ≡ spec.reach_row fault line.now place }
{
    if is_geta(line, place) {
        far_row()
    } else {
        row_of(fault)
    }
}

/// A label that is like Main, where none is the same; else no text.
pub(crate) fn like_main(source: &[u8]) -> &[u8]
    ensures { result.now ≡ spec.like_main source.now }
{
    if is_defined(source, b"Main") {
        &[]
    } else {
        find_similar_label(Likeness::Alike, b"Main", u32::MAX, source)
    }
}

/// Whether this label is Main with a colon.
pub(crate) fn has_colon(source: &[u8]) -> bool
    ensures { result ≡ spec.has_colon source.now }
{
    like_main(source) == b"Main:".as_slice()
}

/// The row of a fault, where this text is marked in the statement at a place.
pub(crate) fn row_with(
    fault: u16,
    source: &[u8],
    marked: &[u8],
    line: &[u8],
    place: Option<usize>,
) -> Row
    requires { IfSome place (λ p. p ≤ length line.now) }
    ensures { shown result ≡ spec.row_with fault source.now marked.now line.now place }
{
    let Some(place) = place else {
        return row_of(fault);
    };
    match fault {
        10 => syntax_row(marked, operands_at(line, place)),
        17 => early_row(source, marked, line, place),
        39 => operation_row(unknown_kind(marked, line, place), marked),
        43 => fit_row(marked, line, place),
        45 | 85 => reach_row(fault, line, place),
        81 => local_row(source, marked),
        _ => row_of(fault),
    }
}

/// The row for a source without Main.
fn main_row(source: &[u8]) -> Row
    ensures { shown result ≡ spec.main_row source.now }
{
    if has_colon(source) {
        colon_row()
    } else if like_main(source).is_empty() {
        row_of(82)
    } else {
        other_main_row()
    }
}

/// The row of a fault of the source as a whole.
pub(crate) fn whole_row(fault: u16, source: &[u8]) -> Row
    ensures { shown result ≡ spec.whole_row fault source.now }
{
    if fault == 82 {
        main_row(source)
    } else {
        row_of(fault)
    }
}
