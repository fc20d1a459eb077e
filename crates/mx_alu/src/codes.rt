//! Instructions and conditions by their codes.

ghost use Rattle.std.specs.Prelude.{◌≡◌, ◌<◌, ◌≤◌, IsTrue};
ghost use Rattle.mx_alu.specs.Alu as spec;
ghost use Rattle.mx_alu.specs.Answers.{lone_value};
ghost use Rattle.mx_alu.specs.Names as names;
ghost use Rattle.mx_alu.specs.Truth as conditions;
ghost use Rattle.mx_alu.specs.Wydes as rows;

use crate::names::{ARITHMETIC, Arithmetic, BITWISE, Bitwise, CONDITIONS, Condition, WYDES, Wyde};
use crate::{Answer, Extra, arithmetic, bitwise, wydes};
use mx_word::signed;

/// What the instruction of a code gives. The code is one from #18 to #3f or from #c0 to #ef. y and z are $Y and $Z or
/// Z; at NEG and NEGU y is the byte Y; from #e0 on y is the old $X and z is YZ.
#[tactic(auto, unfolding(crate::specs::Alu::alu))]
#[inline(always)]
pub fn alu(code: u8, y: u64, z: u64, extra: Extra) -> Answer
    requires { IsTrue (spec.is_alu code) }
    ensures { result ≡ spec.alu code y z extra }
{
    if code < 0xc0 {
        arithmetic::perform(arithmetic_name(code), y, z, extra.d)
    } else if code < 0xe0 {
        Answer::alone(bitwise::perform(bitwise_name(code), y, z, extra.m))
    } else {
        let (name, place) = wyde_name(code);
        Answer::alone(wydes::perform(name, y, z, place))
    }
}

/// The result of the instruction of a code, where it gives nothing else: no rH, no rR and no event. The code is one
/// from #18 to #3f or from #c0 to #df. It is `alu` without the rest, for the step of every day.
#[tactic(auto, unfolding(crate::specs::Alu::alu))]
#[inline(always)]
pub fn lone_result(code: u8, y: u64, z: u64, extra: Extra) -> Option<u64>
    requires alu { IsTrue (spec.is_alu code) }
    requires other { code < 0xe0 }
    ensures { result ≡ lone_value (spec.alu code y z extra) }
{
    if code < 0xc0 {
        arithmetic::perform_alone(arithmetic_name(code), y, z)
    } else {
        Some(bitwise::perform(bitwise_name(code), y, z, extra.m))
    }
}

/// The new $X of the instruction of a code from #e0 to #ef, from the old $X and a wyde v that is at its place in
/// an octa of zeros.
#[inline(always)]
pub fn wyde(code: u8, x: u64, v: u64) -> u64
    requires low { 0xe0 ≤ code }
    requires high { code ≤ 0xef }
    ensures { result ≡ rows.wyde (names.wyde_of code).0 x v }
{
    wydes::perform(wyde_name(code).0, x, v, 0)
}

/// The name of a code from #18 to #3f.
#[inline(always)]
fn arithmetic_name(code: u8) -> Arithmetic
    requires low { 0x18 ≤ code }
    requires high { code ≤ 0x3f }
    ensures { result ≡ names.arithmetic_of code }
{
    ARITHMETIC[usize::from(code - 0x18) / 2]
}

/// The name of a code from #c0 to #df.
#[inline(always)]
fn bitwise_name(code: u8) -> Bitwise
    requires low { 0xc0 ≤ code }
    requires high { code ≤ 0xdf }
    ensures { result ≡ names.bitwise_of code }
{
    BITWISE[usize::from(code - 0xc0) / 2]
}

/// The name of a code from #e0 to #ef without the wyde that it means, and that wyde's lowest bit.
#[inline(always)]
fn wyde_name(code: u8) -> (Wyde, u32)
    requires low { 0xe0 ≤ code }
    requires high { code ≤ 0xef }
    ensures name { result ≡ names.wyde_of code }
    ensures place { result.1 < 64 }
{
    let wyde = WYDES[usize::from(code - 0xe0) / 4];
    (wyde, 48 - 16 * u32::from(code % 4))
}

/// The condition of a code from #40 to #7f.
#[inline(always)]
fn condition(code: u8) -> Condition
    requires low { 0x40 ≤ code }
    requires high { code ≤ 0x7f }
    ensures { result ≡ names.condition_of code }
{
    CONDITIONS[usize::from(code / 2 % 8)]
}

/// Whether the condition of a code, which is one from #40 to #7f, holds of the signed value of an octa.
#[tactic(auto, unfolding(crate::specs::Truth::truth))]
#[inline(always)]
pub fn truth(code: u8, x: u64) -> bool
    requires low { 0x40 ≤ code }
    requires high { code ≤ 0x7f }
    ensures { result ≡ conditions.truth code x }
{
    match condition(code) {
        Condition::Negative => signed(x) < 0,
        Condition::Zero => x == 0,
        Condition::Positive => signed(x) > 0,
        Condition::Odd => x % 2 == 1,
        Condition::NotNegative => signed(x) >= 0,
        Condition::NotZero => x != 0,
        Condition::NotPositive => signed(x) <= 0,
        Condition::Even => x % 2 == 0,
    }
}
