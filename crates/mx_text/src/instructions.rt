//! The text of an instruction.

ghost use Rattle.std.specs.Prelude.{◌≡◌, ◌++◌, ◌^◌, ◌*◌, ◌≤◌, IfOk, OnOk};
ghost use Rattle.mx_text.specs.Instructions as spec;

use crate::fields::{code, x, xyz, y, yz, z};
use crate::operands::Operand::{Address, Number, Register};
use crate::operands::{Operand, add_operand, add_three, add_two};
use mx_ops::{Shape, is_backward, is_immediate, name, shape_of};
use mx_word::{Bytes, NoMemory};
use std::alloc::Global;

/// The text of the tetra `word` at the address `pc`: the name of its code, a blank, and its operands
/// with commas between them. Every tetra has a text. Numbers are decimal, and a relative address is
/// shown as its target.
pub fn instruction(alloc: Global, word: u32, pc: u64) -> Result<Bytes, NoMemory>
    ensures { IfOk result (λ text. text ≡ spec.instruction_text word pc) }
{
    let mut text = Bytes::copy(alloc, name(code(word)).as_bytes())?;
    text.push(b' ')?;
    add_shown(&mut text, word, pc)?;
    Ok(text)
}

/// Adds the text of the tetra `word` at the address `pc`.
pub fn add_instruction(text: &mut Bytes, word: u32, pc: u64) -> Result<(), NoMemory>
    ensures { OnOk result (text.new ≡ text.old ++ spec.instruction_text word pc) }
{
    text.extend(name(code(word)).as_bytes())?;
    text.push(b' ')?;
    add_shown(text, word, pc)
}

/// Adds the operands that are shown.
fn add_shown(text: &mut Bytes, word: u32, pc: u64) -> Result<(), NoMemory>
    ensures { OnOk result (text.new ≡ text.old ++ spec.operands_text (spec.shown_operands word pc)) }
{
    let (x, y, z) = (x(word), y(word), z(word));
    match shape_of(code(word)) {
        Shape::Three | Shape::Mem => add_three(text, Register(x), Register(y), last(word)),
        Shape::Regs => add_three(text, Register(x), Register(y), Register(z)),
        Shape::Round | Shape::Neg => add_three(text, Register(x), number(y), last(word)),
        Shape::MemPure => add_three(text, number(x), Register(y), last(word)),
        Shape::Rel => add_two(text, Register(x), near(word, pc)),
        Shape::Jump => add_operand(text, far(word, pc)),
        Shape::Wyde => add_two(text, Register(x), Number(yz(word))),
        Shape::Put => add_two(text, number(x), last(word)),
        Shape::Get | Shape::Save => add_two(text, Register(x), number(z)),
        Shape::Pop => add_two(text, number(x), Number(yz(word))),
        Shape::One => add_operand(text, Number(xyz(word))),
        Shape::Unsave => add_two(text, number(x), Register(z)),
        Shape::Free => add_three(text, number(x), number(y), number(z)),
    }
}

/// A byte as a number.
fn number(byte: u8) -> Operand
    ensures { result ≡ Operand.Number byte }
{
    Number(u32::from(byte))
}

/// $Z, or the byte Z at an immediate code.
fn last(word: u32) -> Operand
    ensures { result ≡ spec.last (spec.field_code word) (spec.field_z word) }
{
    if is_immediate(code(word)) {
        return number(z(word));
    }
    Register(z(word))
}

/// The target of a relative address in YZ.
fn near(word: u32, pc: u64) -> Operand
    ensures { result ≡ Operand.Address (spec.target (spec.field_code word) pc (spec.field_yz word) (2 ^ 16)) }
{
    Address(target(word, pc, yz(word), 0x1_0000))
}

/// The target of a relative address in XYZ.
fn far(word: u32, pc: u64) -> Operand
    ensures { result ≡ Operand.Address (spec.target (spec.field_code word) pc (spec.field_xyz word) (2 ^ 24)) }
{
    Address(target(word, pc, xyz(word), 0x100_0000))
}

/// The target of a relative address in a field that has this many values.
fn target(word: u32, pc: u64, n: u32, values: u32) -> u64
    requires { values ≤ 2 ^ 24 }
    ensures { result ≡ spec.target (spec.field_code word) pc n values }
{
    let ahead = pc.wrapping_add(4 * u64::from(n));
    if is_backward(code(word)) {
        return ahead.wrapping_sub(4 * u64::from(values));
    }
    ahead
}
