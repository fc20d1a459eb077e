//! Statements are read from the fields of a line.

ghost use Rattle.std.specs.Prelude.{◌≡◌, ◌≢◌, ℕ, length, IfSome, IfOk, IfErr, Ok, Err};
ghost use Rattle.mx_word.specs.Results.{map_ok};
ghost use Rattle.mx_stmt.specs.Encoding.{StatementTree, statement_tree};
ghost use Rattle.mx_stmt.specs.Reading as spec;
ghost use Rattle.mx_stmt.specs.declared.faults.StmtFault.{StmtFault};

use crate::{Label, Statement, StmtFault};
use mx_expr::parse_list;
use mx_line::{Cut, Span, slice_span};
use mx_ops::{Op, Pseudo, find};
use mx_word::{Bytes, NoMemory, is_digit};
use std::alloc::Global;

/// The label that a label field spells.
fn label_of(alloc: Global, text: &[u8]) -> Result<Label, NoMemory>
    ensures label { IfOk result (λ label. label ≡ spec.label_of text.now) }
    ensures digit { IfOk result spec.LabelHasDigit }
{
    match text {
        [d, ..] if is_digit(*d) => Ok(Label::Local(*d - b'0')),
        _ => Ok(Label::Name(Bytes::copy(alloc, text)?)),
    }
}

/// The label of a statement, where it has one.
fn label_at(alloc: Global, text: &[u8], span: Option<Span>) -> Result<Option<Label>, NoMemory>
    requires { IfSome span (spec.SpanWithin (length text.now)) }
    ensures label { IfOk result (λ label. label ≡ spec.label_in text.now span) }
    ensures digit { IfOk result (λ label. IfSome label spec.LabelHasDigit) }
{
    match span {
        None => Ok(None),
        Some(span) => Ok(Some(label_of(alloc, slice_span(text, span))?)),
    }
}

/// Whether an operation takes a label.
fn is_label_allowed(op: Op) -> bool
    ensures { result ≡ spec.takes_label op }
{
    !matches!(op, Op::Pseudo(Pseudo::Prefix) | Op::Pseudo(Pseudo::Local))
}

/// The operation of a name, where a label is before it or none.
fn operation_for(labelled: bool, name: &[u8]) -> Result<Op, StmtFault>
    ensures { result ≡ spec.operation_for labelled name.now }
{
    match find(name) {
        None => Err(StmtFault::UnknownOpcode),
        Some(op) => {
            if labelled && !is_label_allowed(op) {
                Err(StmtFault::LabelNotAllowed)
            } else {
                Ok(op)
            }
        }
    }
}

/// Reads the statement that was cut from a line, in which the spans of the cut lie: its label, its
/// operation and its operands.
///
/// It is refused with UnknownOpcode, then LabelNotAllowed, then the first fault of the operand list.
pub fn read_statement(
    alloc: Global,
    text: &[u8],
    cut: &Cut,
    line: u32,
) -> Result<Statement, StmtFault>
    requires { spec.CutWithin (length text.now) cut.now }
    ensures read { IfOk result (λ s. spec.IsRead (spec.fields_of text.now cut.now) line (statement_tree s)) }
    ensures only { (s : StatementTree) →
        spec.IsRead (spec.fields_of text.now cut.now) line s → spec.ReadsAs result (Ok s) }
    ensures fault { IfErr result (λ fault. fault ≢ StmtFault.OutOfMemory →
        spec.IsFault (spec.fields_of text.now cut.now) fault) }
    ensures first { (fault : StmtFault) →
        spec.IsFault (spec.fields_of text.now cut.now) fault → spec.ReadsAs result (Err fault) }
    ensures digits { IfOk result spec.StatementHasDigits }
{
    let op = operation_for(cut.label.is_some(), slice_span(text, cut.op))?;
    let operands = match parse_list(alloc, slice_span(text, cut.operands)) {
        Ok(operands) => operands,
        Err(fault) => return Err(StmtFault::of(fault)),
    };
    let label = label_at(alloc, text, cut.label)?;
    Ok(Statement {
        line,
        label,
        op,
        operands,
    })
}
