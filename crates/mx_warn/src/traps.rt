//! TRAP that calls a service by other operands than 0, the service and its handle.

ghost use Rattle.std.specs.Prelude.{◌≡◌};
ghost use Rattle.mx_warn.specs.Traps as spec;

use mx_slips::{Mark, Statement, Token, mark_of};
use mx_word::is_digit;

/// Whether a name is that of a service with a handle.
fn is_service(text: &[u8]) -> bool
    ensures { result ≡ spec.is_service text.now }
{
    text == b"Fopen".as_slice()
        || text == b"Fclose".as_slice()
        || text == b"Fread".as_slice()
        || text == b"Fgets".as_slice()
        || text == b"Fwrite".as_slice()
        || text == b"Fputs".as_slice()
        || text == b"Fseek".as_slice()
        || text == b"Ftell".as_slice()
}

/// Whether a name is that of a service.
fn is_call(text: &[u8]) -> bool
    ensures { result ≡ spec.is_call text.now }
{
    is_service(text) || text == b"Halt".as_slice()
}

/// Whether a text is a number other than 0.
fn is_other_number(text: &[u8]) -> bool
    ensures { result ≡ spec.is_other_number text.now }
{
    match text {
        [] => false,
        [b, ..] => is_digit(*b) && text != b"0".as_slice(),
    }
}

/// Whether tokens begin with a comma and a service.
fn starts_with_call(tokens: &[Token]) -> bool
    ensures { result ≡ spec.begins_call tokens.now }
{
    match tokens {
        [comma, name, ..] => {
            comma.text.as_slice() == b",".as_slice() && is_call(name.text.as_slice())
        }
        _ => false,
    }
}

/// Whether these are 0, a comma and a service.
fn is_alone(zero: &Token, comma: &Token, name: &Token) -> bool
    ensures { result ≡ spec.is_alone zero.now comma.now name.now }
{
    zero.text.as_slice() == b"0".as_slice()
        && comma.text.as_slice() == b",".as_slice()
        && is_service(name.text.as_slice())
}

/// The service of two operands.
fn second_of_two(zero: &Token, tokens: &[Token]) -> Option<Mark>
    ensures { result ≡ spec.second_of_two zero.now tokens.now }
{
    match tokens {
        [comma, name] if is_alone(zero, comma, name) => {
            Some(mark_of(name.from, name.text.as_slice(), 0))
        }
        _ => None,
    }
}

/// Whether the first operand is a service, or a number other than 0 in front of one.
fn is_wrong_first(token: &Token, more: &[Token]) -> bool
    ensures { result ≡ spec.is_wrong_first token.now more.now }
{
    let text = token.text.as_slice();
    is_service(text) || (is_other_number(text) && starts_with_call(more))
}

/// The operand of TRAP that is not in its place.
fn wrong_operand(tokens: &[Token]) -> Option<Mark>
    ensures { result ≡ spec.wrong_operand tokens.now }
{
    let [token, more @ ..] = tokens else {
        return None;
    };
    if is_wrong_first(token, more) {
        Some(mark_of(token.from, token.text.as_slice(), 0))
    } else {
        second_of_two(token, more)
    }
}

/// The operand that is not in its place, if a statement is TRAP.
#[tactic(auto, unfolding(crate::specs::Traps::trap_operand))]
pub(crate) fn find_trap_operand(statement: &Statement) -> Option<Mark>
    ensures { result ≡ spec.trap_operand statement.now }
{
    if statement.op.text.as_slice() == b"TRAP".as_slice() {
        wrong_operand(statement.tokens.as_slice())
    } else {
        None
    }
}
