//! Operand fields.

ghost use Rattle.std.specs.Prelude.{◌≡◌, ◌≤◌, ◌+◌, ◌==◌, ◌∷◌, length, IfOk};
ghost use Rattle.mx_line.specs.Bytes.{is_blank};
ghost use Rattle.mx_line.specs.Fields as spec;

use crate::LineFault;
use crate::kinds::is_blank;
use crate::pieces::first_piece_length;

/// Whether a byte ends an operand field, and an opcode.
fn is_field_end_byte(b: u8) -> bool
    ensures { result ≡ spec.ends_field b }
{
    is_blank(b) || b == b';'
}

/// Whether an operand field or an opcode ends before a text.
pub fn is_field_end(rest: &[u8]) -> bool
    ensures { result ≡ spec.ends_here rest.now }
{
    match rest {
        [] => true,
        [b, ..] => is_field_end_byte(*b),
    }
}

/// How many bytes a string has that opens before a text.
#[tactic(auto, using(crate::proofs::FieldLemmas::strings))]
fn string_length(rest: &[u8]) -> Result<usize, LineFault>
    ensures within { IfOk result (λ count. count ≤ length rest.now + 1) }
    ensures field { spec.field_length (34 ∷ rest.now) ≡ spec.after_first (34 ∷ rest.now) result }
{
    let count = first_piece_length(b'"', rest);
    if count < rest.len() {
        Ok(count + 2)
    } else {
        Err(LineFault::OpenString)
    }
}

/// How many bytes a character constant has that opens before a text.
#[tactic(auto, using(crate::proofs::FieldLemmas::constants))]
fn constant_length(rest: &[u8]) -> Result<usize, LineFault>
    ensures within { IfOk result (λ count. count ≤ length rest.now + 1) }
    ensures field { spec.field_length (39 ∷ rest.now) ≡ spec.after_first (39 ∷ rest.now) result }
{
    match rest {
        [_, close, ..] => {
            if *close == b'\'' {
                Ok(3)
            } else {
                Err(LineFault::OpenChar)
            }
        }
        _ => Err(LineFault::OpenChar),
    }
}

/// How many bytes are first in a field, by its first byte.
#[tactic(auto, using(crate::proofs::FieldLemmas::firsts))]
fn part_from(b: u8, rest: &[u8]) -> Result<usize, LineFault>
    ensures within { IfOk result (λ count. count ≤ length rest.now + 1) }
    ensures field { spec.field_length (b ∷ rest.now) ≡ spec.after_first (b ∷ rest.now) result }
{
    if b == b'"' {
        string_length(rest)
    } else if b == b'\'' {
        constant_length(rest)
    } else if is_field_end_byte(b) {
        Ok(0)
    } else {
        Ok(1)
    }
}

/// How many bytes are first in a field: those of a string, of a character constant, or one
/// other; none where the field ends.
#[tactic(auto, using(crate::proofs::FieldLemmas::firsts))]
fn part_length(text: &[u8]) -> Result<usize, LineFault>
    ensures within { IfOk result (λ count. count ≤ length text.now) }
    ensures field { spec.field_length text.now ≡ spec.after_first text.now result }
{
    match text {
        [] => Ok(0),
        [b, rest @ ..] => part_from(*b, rest),
    }
}

/// How many bytes the operand field at the front of a text has.
#[tactic(auto, using(crate::proofs::FieldLemmas::fields))]
pub fn field_length(text: &[u8]) -> Result<usize, LineFault>
    ensures within { IfOk result (λ count. count ≤ length text.now) }
    ensures field { result ≡ spec.field_length text.now }
{
    let mut count = 0;
    'field: loop {
        let (_, rest) = text.split_at(count);
        match part_length(rest)? {
            0 => return Ok(count),
            more => count += more,
        }
    }
}
