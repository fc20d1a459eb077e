//! What the tables say of an operation or a symbol.

ghost use Rattle.std.specs.Prelude.{◌≡◌, ◌++◌, IfOk, OnOk};
ghost use Rattle.mx_explain.specs.Facts as spec;

use mx_costs::{mems, oops};
use mx_ops::{Op, find, is_backward, is_immediate, predefined};
use mx_text::{add_decimal, byte_hex, octa_hex};
use mx_word::{Bytes, NoMemory};
use std::alloc::Global;

/// Adds a code.
fn add_code(text: &mut Bytes, code: u8) -> Result<(), NoMemory>
    ensures { OnOk result (text.new ≡ text.old ++ spec.code_text code) }
{
    text.push(b'#')?;
    text.extend(&byte_hex(code))
}

/// Adds the code after the code of an instruction, if it is a second one of the same name.
fn add_second(text: &mut Bytes, code: u8) -> Result<(), NoMemory>
    ensures { OnOk result (text.new ≡ text.old ++ spec.second_text code) }
{
    if is_immediate(code) {
        text.extend(b", and ")?;
        add_code(text, code)?;
        return text.extend(b" with Z as a number");
    }
    if is_backward(code) {
        text.extend(b", and ")?;
        add_code(text, code)?;
        return text.extend(b" for an address before its own");
    }
    Ok(())
}

/// Adds the line of the codes of an instruction.
#[tactic(auto, unfolding(crate::specs::Facts::codes_line))]
fn add_codes(text: &mut Bytes, code: u8) -> Result<(), NoMemory>
    ensures { OnOk result (text.new ≡ text.old ++ spec.codes_line code) }
{
    text.extend(b"  Opcode:   ")?;
    add_code(text, code)?;
    add_second(text, code.wrapping_add(1))?;
    text.push(b'\n')
}

/// Adds a number of υ.
fn add_oops(text: &mut Bytes, oops: u64) -> Result<(), NoMemory>
    ensures { OnOk result (text.new ≡ text.old ++ spec.oops_text oops) }
{
    add_decimal(text, oops)?;
    text.extend("υ".as_bytes())
}

/// Adds a number of μ, if it is not 0.
fn add_mems(text: &mut Bytes, mems: u64) -> Result<(), NoMemory>
    ensures { OnOk result (text.new ≡ text.old ++ spec.mems_text mems) }
{
    if mems == 0 {
        return Ok(());
    }
    text.extend(b" + ")?;
    add_decimal(text, mems)?;
    text.extend("μ".as_bytes())
}

/// Adds what a branch costs that is taken, if it is not what it costs otherwise.
fn add_taken(text: &mut Bytes, taken: u64, otherwise: u64) -> Result<(), NoMemory>
    ensures { OnOk result (text.new ≡ text.old ++ spec.taken_text taken otherwise) }
{
    if taken == otherwise {
        return Ok(());
    }
    text.extend(b", and ")?;
    add_oops(text, taken)?;
    text.extend(b" where the branch is taken")
}

/// Adds the line of what an instruction costs.
#[tactic(auto, unfolding(crate::specs::Facts::cost_line))]
fn add_cost(text: &mut Bytes, code: u8) -> Result<(), NoMemory>
    ensures { OnOk result (text.new ≡ text.old ++ spec.cost_line code) }
{
    text.extend(b"  Cost:     ")?;
    add_oops(text, oops(code, false))?;
    add_mems(text, mems(code))?;
    add_taken(text, oops(code, true), oops(code, false))?;
    text.push(b'\n')
}

/// Adds the codes of an operation that has some.
pub(crate) fn add_operation_codes(text: &mut Bytes, name: &str) -> Result<(), NoMemory>
    ensures { OnOk result (text.new ≡ text.old ++ spec.operation_codes name.now) }
{
    match find(name.as_bytes()) {
        Some(Op::Code(code)) => add_codes(text, code),
        _ => Ok(()),
    }
}

/// Adds the cost of an operation that has one.
pub(crate) fn add_operation_cost(text: &mut Bytes, name: &str) -> Result<(), NoMemory>
    ensures { OnOk result (text.new ≡ text.old ++ spec.operation_cost name.now) }
{
    match find(name.as_bytes()) {
        Some(Op::Code(code)) => add_cost(text, code),
        _ => Ok(()),
    }
}

/// Adds a value: a number of one byte in decimal digits, and each greater one in hexadecimal digits.
#[tactic(auto, unfolding(crate::specs::Facts::number_text))]
fn add_number(text: &mut Bytes, value: u64) -> Result<(), NoMemory>
    ensures { OnOk result (text.new ≡ text.old ++ spec.number_text value) }
{
    if value < 256 {
        return add_decimal(text, value);
    }
    text.extend(&octa_hex(value))
}

/// Adds the line of a value, if there is one.
fn add_value_line(text: &mut Bytes, value: Option<u64>) -> Result<(), NoMemory>
    ensures { OnOk result (text.new ≡ text.old ++ spec.value_line value) }
{
    let Some(value) = value else {
        return Ok(());
    };
    text.extend(b"  Value:    ")?;
    add_number(text, value)?;
    text.push(b'\n')
}

/// The value of a predefined symbol by its name without a colon.
fn value_of(alloc: Global, name: &str) -> Result<Option<u64>, NoMemory>
    ensures { IfOk result (λ value. value ≡ spec.value_of name.now) }
{
    let mut full = Bytes::copy(alloc, b":")?;
    full.extend(name.as_bytes())?;
    Ok(predefined(full.as_slice()))
}

/// Adds the value of a predefined symbol, by its name without a colon.
pub(crate) fn add_symbol_value(alloc: Global, text: &mut Bytes, name: &str) -> Result<(), NoMemory>
    ensures { OnOk result (text.new ≡ text.old ++ spec.value_line (spec.value_of name.now)) }
{
    let value = value_of(alloc, name)?;
    add_value_line(text, value)
}
