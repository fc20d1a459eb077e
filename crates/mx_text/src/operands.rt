//! Operands as they are shown.

ghost use Rattle.std.specs.Prelude.{◌≡◌, ◌++◌, ◌∷◌, [], OnOk};
ghost use Rattle.mx_text.specs.Instructions as spec;

use crate::numbers::{add_decimal, byte_digits, octa_hex};
use mx_word::{Bytes, NoMemory};

/// An operand as a text shows it.
#[derive(Clone, Copy)]
pub(crate) enum Operand {
    /// A register, by its number.
    Register(u8),
    /// A pure number.
    Number(u32),
    /// The target of a relative address.
    Address(u64),
}

/// Adds a register.
#[tactic(auto, using(crate::proofs::Digits::registers))]
fn add_register(text: &mut Bytes, k: u8) -> Result<(), NoMemory>
    ensures { OnOk result (text.new ≡ text.old ++ spec.operand_text (Operand.Register k)) }
{
    let [a, b, c] = byte_digits(k);
    if k < 10 {
        return text.extend(&[b'$', c]);
    }
    if k < 100 {
        return text.extend(&[b'$', b, c]);
    }
    text.extend(&[b'$', a, b, c])
}

/// Adds a register with a comma before it.
#[tactic(auto, using(crate::proofs::Digits::registers))]
fn add_next_register(text: &mut Bytes, k: u8) -> Result<(), NoMemory>
    ensures { OnOk result (text.new ≡ text.old ++ spec.next_text (Operand.Register k)) }
{
    let [a, b, c] = byte_digits(k);
    if k < 10 {
        return text.extend(&[b',', b'$', c]);
    }
    if k < 100 {
        return text.extend(&[b',', b'$', b, c]);
    }
    text.extend(&[b',', b'$', a, b, c])
}

/// Adds an operand.
#[inline(always)]
pub(crate) fn add_operand(text: &mut Bytes, operand: Operand) -> Result<(), NoMemory>
    ensures { OnOk result (text.new ≡ text.old ++ spec.operand_text operand) }
{
    match operand {
        Operand::Register(k) => add_register(text, k),
        Operand::Number(n) => add_decimal(text, u64::from(n)),
        Operand::Address(a) => text.extend(&octa_hex(a)),
    }
}

/// Adds an operand with a comma before it.
#[inline(always)]
fn add_next(text: &mut Bytes, operand: Operand) -> Result<(), NoMemory>
    ensures { OnOk result (text.new ≡ text.old ++ spec.next_text operand) }
{
    if let Operand::Register(k) = operand {
        return add_next_register(text, k);
    }
    text.push(b',')?;
    add_operand(text, operand)
}

/// Adds two operands with a comma between them.
#[inline(always)]
#[tactic(auto, using(crate::proofs::Joined::joining))]
pub(crate) fn add_two(text: &mut Bytes, first: Operand, second: Operand) -> Result<(), NoMemory>
    ensures { OnOk result (text.new ≡ text.old ++ spec.operands_text (first ∷ second ∷ [])) }
{
    add_operand(text, first)?;
    add_next(text, second)
}

/// Adds three operands with commas between them.
#[inline(always)]
#[tactic(auto, using(crate::proofs::Joined::joining))]
pub(crate) fn add_three(
    text: &mut Bytes,
    first: Operand,
    second: Operand,
    third: Operand,
) -> Result<(), NoMemory>
    ensures { OnOk result (text.new ≡ text.old ++ spec.operands_text (first ∷ second ∷ third ∷ [])) }
{
    add_operand(text, first)?;
    add_next(text, second)?;
    add_next(text, third)
}
