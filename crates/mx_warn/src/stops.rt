//! Instructions that a run does not get past: a jump to itself, and one on floating-point numbers.

ghost use Rattle.std.specs.Prelude.{◌≡◌};
ghost use Rattle.mx_warn.specs.Stops as spec;

use mx_ops::{Op, find};
use mx_slips::{Mark, Piece, Statement, Token, mark_of};

/// Whether a text is the label of its statement.
fn is_own(text: &[u8], label: &Option<Piece>) -> bool
    ensures { result ≡ spec.is_own text.now label.now }
{
    match label {
        None => false,
        Some(label) => text == label.text.as_slice(),
    }
}

/// Whether a text is the address of its own statement.
fn is_itself(text: &[u8], label: &Option<Piece>) -> bool
    ensures { result ≡ spec.is_itself text.now label.now }
{
    text == b"@".as_slice() || is_own(text, label)
}

/// The only operand, if it is the address of its own statement.
fn target_mark(tokens: &[Token], label: &Option<Piece>) -> Option<Mark>
    ensures { result ≡ spec.target_mark tokens.now label.now }
{
    match tokens {
        [token] if is_itself(token.text.as_slice(), label) => {
            Some(mark_of(token.from, token.text.as_slice(), 0))
        }
        _ => None,
    }
}

/// The operand of JMP that jumps to itself.
#[tactic(auto, unfolding(crate::specs::Stops::endless_jump))]
pub(crate) fn find_endless_jump(statement: &Statement) -> Option<Mark>
    ensures { result ≡ spec.endless_jump statement.now }
{
    if statement.op.text.as_slice() == b"JMP".as_slice() {
        target_mark(statement.tokens.as_slice(), &statement.label)
    } else {
        None
    }
}

/// Whether a code is that of an instruction on floating-point numbers.
fn is_float_code(code: u8) -> bool
    ensures { result ≡ spec.is_float_code code }
{
    matches!(code, 0x01..=0x17 | 0x90 | 0x91 | 0xb0 | 0xb1)
}

/// Whether an operation is on floating-point numbers.
fn is_float(operation: Option<Op>) -> bool
    ensures { result ≡ spec.is_float operation }
{
    match operation {
        Some(Op::Code(code)) => is_float_code(code),
        _ => false,
    }
}

/// The operation of a statement, if it is on floating-point numbers.
#[tactic(auto, unfolding(crate::specs::Stops::float_instruction))]
pub(crate) fn find_float(statement: &Statement) -> Option<Mark>
    ensures { result ≡ spec.float_instruction statement.now }
{
    let text = statement.op.text.as_slice();
    if is_float(find(text)) {
        Some(mark_of(statement.op.from, text, 0))
    } else {
        None
    }
}
