//! An operator after the blank that ends the operands.

ghost use Rattle.std.specs.Prelude.{◌≡◌, ◌<◌, ◌^◌, length};
ghost use Rattle.mx_word.specs.Kinds as kinds;
ghost use Rattle.mx_line.specs.Bytes as bytes;
ghost use Rattle.mx_slips.specs.Afters as spec;

use crate::marks::{Mark, mark_of};
use crate::pieces::drop_front;
use crate::sources::Statement;
use crate::tokens::hexadecimal_count;
use mx_word::is_digit;

/// Whether a byte is an operator.
fn is_operator(b: u8) -> bool
    ensures { result ≡ spec.is_operator b }
{
    matches!(b, b'+' | b'-' | b'*' | b'/' | b'%' | b'&' | b'|' | b'^')
}

/// Whether an operator of two bytes has this byte twice.
fn is_doubled(b: u8) -> bool
    ensures { result ≡ spec.is_doubled b }
{
    matches!(b, b'/' | b'<' | b'>')
}

/// Whether a text begins with a byte.
pub fn starts_with_byte(b: u8, text: &[u8]) -> bool
    ensures { result ≡ spec.begins_with b text.now }
{
    match text {
        [] => false,
        [first, ..] => *first == b,
    }
}

/// How many bytes the operator at the front of a text has.
fn operator_length(text: &[u8]) -> usize
    ensures { result ≡ spec.operator_length text.now }
{
    let [b, more @ ..] = text else {
        return 0;
    };
    if is_doubled(*b) && starts_with_byte(*b, more) {
        2
    } else if is_operator(*b) {
        1
    } else {
        0
    }
}

/// Whether a byte is a blank.
fn is_blank(b: u8) -> bool
    ensures { result ≡ bytes.is_blank b }
{
    b == b'\t' || b == 11 || b == 12 || b == b'\r' || b == b' '
}

/// How many blanks are at the front of a text.
fn blank_count(text: &[u8]) -> usize
    ensures { result ≡ length (bytes.run bytes.is_blank text.now) }
{
    text.iter().take_while(|b| is_blank(**b)).count()
}

/// A text without the blanks at its front.
fn past_blanks(text: &[u8]) -> &[u8]
    ensures { result.now ≡ bytes.past bytes.is_blank text.now }
{
    drop_front(text, blank_count(text))
}

/// How many decimal digits are at the front of a text.
fn digit_count(text: &[u8]) -> usize
    ensures { result ≡ length (bytes.run kinds.is_digit text.now) }
{
    text.iter().take_while(|b| is_digit(**b)).count()
}

/// How many bytes this many digits have with the sign before them.
fn measure_signed(count: usize) -> usize
    requires { count < 2 ^ 63 }
    ensures { result ≡ spec.signed_length count }
{
    if count == 0 { 0 } else { count + 1 }
}

/// How many bytes a character constant has, by what follows its apostrophe.
fn constant_length(bytes: &[u8]) -> usize
    ensures { result ≡ spec.constant_length bytes.now }
{
    if starts_with_byte(b'\'', drop_front(bytes, 1)) {
        3
    } else {
        0
    }
}

/// How many bytes the operand at the front of a text has.
fn operand_length(text: &[u8]) -> usize
    ensures { result ≡ spec.operand_length text.now }
{
    let [b, more @ ..] = text else {
        return 0;
    };
    match *b {
        b if is_digit(b) => digit_count(text),
        b'#' => measure_signed(hexadecimal_count(more)),
        b'$' => measure_signed(digit_count(more)),
        b'\'' => constant_length(more),
        _ => 0,
    }
}

/// Whether nothing follows but what may follow an operand.
fn ends_operand(text: &[u8]) -> bool
    ensures { result ≡ spec.ends_operand text.now }
{
    match text {
        [] => true,
        [b, ..] => is_operator(*b) || *b == b',' || *b == b';',
    }
}

/// Whether a text begins with an operand that ends.
fn starts_with_operand(text: &[u8]) -> bool
    ensures { result ≡ spec.begins_operand text.now }
{
    let count = operand_length(text);
    count > 0 && ends_operand(past_blanks(drop_front(text, count)))
}

/// Whether a text begins with a blank.
fn starts_with_blank(text: &[u8]) -> bool
    ensures { result ≡ spec.begins_blank text.now }
{
    match text {
        [] => false,
        [b, ..] => is_blank(*b),
    }
}

/// Whether a text goes on after an operator of this many bytes.
fn continues_after(count: usize, text: &[u8]) -> bool
    ensures { result ≡ spec.continues_after count text.now }
{
    let rest = drop_front(text, count);
    count > 0 && starts_with_blank(rest) && starts_with_operand(past_blanks(rest))
}

/// Whether the operands go on after the blank.
fn continues(text: &[u8]) -> bool
    ensures { result ≡ spec.continues text.now }
{
    if starts_with_byte(b',', text) {
        starts_with_operand(past_blanks(drop_front(text, 1)))
    } else {
        continues_after(operator_length(text), text)
    }
}

/// Whether what follows the operands goes on with them.
fn goes_on(text: &[u8]) -> bool
    ensures { result ≡ spec.goes_on text.now }
{
    starts_with_byte(b' ', text) && continues(drop_front(text, 1))
}

/// The blank after the operands and what follows it, if operands go on there.
#[tactic(auto, unfolding(crate::specs::Afters::operator_after_blank))]
pub fn find_operator_after_blank(statement: &Statement) -> Option<Mark>
    ensures { result ≡ spec.operator_after_blank statement.now }
{
    let rest = statement.rest.text.as_slice();
    if goes_on(rest) {
        Some(mark_of(statement.rest.from, rest, 0))
    } else {
        None
    }
}
