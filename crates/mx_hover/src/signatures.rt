//! How the operation at a place is written.

ghost use Rattle.std.specs.Prelude.{◌≡◌, IfOk, option_copied};
ghost use Rattle.mx_ops.specs.Opcodes.{operation_of};
ghost use Rattle.mx_hover.specs.Signatures as spec;

use crate::meaning::meaning;
use crate::statement::statement_at;
use mx_json::add_string;
use mx_marks::line_text;
use mx_ops::find;
use mx_slips::{Statement, read_lines};
use mx_word::{Bytes, NoMemory};
use std::alloc::Global;

/// A line without the two blanks at its front.
fn without_indent(line: &[u8]) -> &[u8]
    ensures { result.now ≡ spec.without_indent line.now }
{
    match line {
        [a, b, form @ ..] => { if *a == b' ' && *b == b' ' { form } else { line } }
        _ => line,
    }
}

/// How an operation is written, with its operands.
#[tactic(auto, unfolding(crate::specs::Signatures::form_shown))]
fn form_shown(alloc: Global, name: &[u8]) -> Result<Bytes, NoMemory>
    ensures { IfOk result (λ text. text ≡ spec.form_shown (spec.form_of name.now)) }
{
    let meant = meaning(alloc, name)?;
    let form = without_indent(line_text(2, meant.as_slice()));
    let mut text = Bytes::new(alloc);
    add_string(alloc, &mut text, b"{\"signatures\":[{\"label\":", form)?;
    text.extend(b"}],\"activeSignature\":0}")?;
    Ok(text)
}

/// How a name is written with its operands, if it is one of an operation.
fn show_if(alloc: Global, name: &[u8]) -> Result<Bytes, NoMemory>
    ensures { IfOk result (λ text. text ≡ spec.shown_if name.now (operation_of name.now)) }
{
    match find(name) {
        None => Bytes::copy(alloc, b"null"),
        Some(_) => form_shown(alloc, name),
    }
}

/// How the operation of a statement is written, unless a place is before it.
fn statement_form(
    alloc: Global,
    from: usize,
    statement: Option<&Statement>,
) -> Result<Bytes, NoMemory>
    ensures { IfOk result (λ text. text ≡ spec.statement_form from (option_copied statement.entry)) }
{
    match statement {
        None => Bytes::copy(alloc, b"null"),
        Some(statement) => {
            if from < statement.op.from {
                return Bytes::copy(alloc, b"null");
            }
            show_if(alloc, statement.op.text.as_slice())
        }
    }
}

/// How the operation of the statement at a place is written, where the number of the line is counted from 1.
pub fn signature(alloc: Global, number: u32, from: usize, source: &[u8]) -> Result<Bytes, NoMemory>
    ensures { IfOk result (λ text. text ≡ spec.signature number from source.now) }
{
    let lines = read_lines(alloc, source)?;
    statement_form(alloc, from, statement_at(lines.as_slice(), number, from))
}
