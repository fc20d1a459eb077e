//! Loads and stores of an octa at a label of wydes or tetras.

ghost use Rattle.std.specs.Prelude.{◌≡◌};
ghost use Rattle.mx_warn.specs.Widths as spec;

use mx_slips::{Mark, Piece, SourceLine, Statement, Token, mark_of};

/// Whether an operation loads or stores an octa.
fn is_octa_access(op: &[u8]) -> bool
    ensures { result ≡ spec.is_octa_access op.now }
{
    op == b"LDO".as_slice()
        || op == b"LDOU".as_slice()
        || op == b"STO".as_slice()
        || op == b"STOU".as_slice()
}

/// Whether an operation places wydes or tetras.
fn is_narrow(op: &[u8]) -> bool
    ensures { result ≡ spec.is_narrow op.now }
{
    op == b"WYDE".as_slice() || op == b"TETRA".as_slice()
}

/// Whether a label has this name.
fn is_name(name: &[u8], label: &Option<Piece>) -> bool
    ensures { result ≡ spec.is_name name.now label.now }
{
    match label {
        None => false,
        Some(label) => name == label.text.as_slice(),
    }
}

/// Whether a statement places wydes or tetras at a label of this name.
fn labels_narrow(name: &[u8], statement: &Statement) -> bool
    ensures { result ≡ spec.labels_narrow name.now statement.now }
{
    is_narrow(statement.op.text.as_slice()) && is_name(name, &statement.label)
}

/// Whether a line has such a statement.
fn is_narrow_line(name: &[u8], line: &SourceLine) -> bool
    ensures { result ≡ spec.line_narrow name.now line.now }
{
    let statements = line.statements.as_slice();
    statements
        .iter()
        .any(|statement| labels_narrow(name, statement))
}

/// The number of the first such line.
fn narrow_line(lines: &[SourceLine], name: &[u8]) -> Option<u32>
    ensures { result ≡ spec.narrow_line lines.now name.now }
{
    match lines.iter().find(|line| is_narrow_line(name, line)) {
        Some(line) => Some(line.number),
        None => None,
    }
}

/// The mark of a name after a comma, if it is a label of wydes or tetras.
fn name_mark(lines: &[SourceLine], comma: &Token, name: &Token) -> Option<Mark>
    ensures { result ≡ spec.name_mark lines.now comma.now name.now }
{
    if comma.text.as_slice() != b",".as_slice() {
        return None;
    }
    let text = name.text.as_slice();
    match narrow_line(lines, text) {
        Some(number) => Some(mark_of(name.from, text, number)),
        None => None,
    }
}

/// The second of two operands, if it is a label of wydes or tetras.
fn second_mark(lines: &[SourceLine], tokens: &[Token]) -> Option<Mark>
    ensures { result ≡ spec.second_mark lines.now tokens.now }
{
    match tokens {
        [_, comma, name] => name_mark(lines, comma, name),
        [_, _, comma, name] => name_mark(lines, comma, name),
        _ => None,
    }
}

/// The operand of a load or store of an octa that is a label of wydes or tetras.
#[tactic(auto, unfolding(crate::specs::Widths::narrow_label))]
pub(crate) fn find_narrow_label(lines: &[SourceLine], statement: &Statement) -> Option<Mark>
    ensures { result ≡ spec.narrow_label lines.now statement.now }
{
    if is_octa_access(statement.op.text.as_slice()) {
        second_mark(lines, statement.tokens.as_slice())
    } else {
        None
    }
}
