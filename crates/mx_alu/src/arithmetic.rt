//! Sums, products, quotients, comparisons and shifts.

ghost use Rattle.std.specs.Prelude.{ℕ, ◌≡◌, ◌≢◌, ◌+◌, ◌*◌, ◌/◌, ◌%◌, ◌^◌, ◌<◌, ◌≤◌};
ghost use Rattle.std.specs.Prelude.{pos, unsigned_abs, ◌+ℤ◌, ◌-ℤ◌, ◌*ℤ◌};
ghost use Rattle.mx_word.specs.Words.{signed_value};
ghost use Rattle.mx_alu.specs.Arithmetic as spec;
ghost use Rattle.mx_alu.specs.Answers.{checked_answer, lone_value};
ghost use Rattle.mx_alu.specs.Numbers.{octa, floor_by, floor_quotient};

use crate::answer::{fit_signed, lone, overflow, wrap};
use crate::names::Arithmetic;
use crate::{Answer, Event};
use mx_word::{product, quotient, signed};
use std::cmp::Ordering;

/// What the instruction of this name gives; d is rD.
#[inline(always)]
pub(crate) fn perform(name: Arithmetic, y: u64, z: u64, d: u64) -> Answer
    ensures { result ≡ spec.arithmetic name y z d }
{
    match name {
        Arithmetic::Mul => Answer::from_signed(multiply_signed(y, z)),
        Arithmetic::Mulu => multiply(y, z),
        Arithmetic::Div => divide(y, z),
        Arithmetic::Divu => divide_long(d, y, z),
        Arithmetic::Add => Answer::from_signed(add_signed(y, z)),
        Arithmetic::Addu => Answer::alone(y.wrapping_add(z)),
        Arithmetic::Sub => Answer::from_signed(subtract_signed(y, z)),
        Arithmetic::Subu => Answer::alone(subtract(y, z)),
        Arithmetic::TwoAddu => Answer::alone((y << 1).wrapping_add(z)),
        Arithmetic::FourAddu => Answer::alone((y << 2).wrapping_add(z)),
        Arithmetic::EightAddu => Answer::alone((y << 3).wrapping_add(z)),
        Arithmetic::SixteenAddu => Answer::alone((y << 4).wrapping_add(z)),
        Arithmetic::Cmp => Answer::alone(sign(signed(y).cmp(&signed(z)))),
        Arithmetic::Cmpu => Answer::alone(sign(y.cmp(&z))),
        Arithmetic::Neg => Answer::from_signed(less_signed(y, z)),
        Arithmetic::Negu => Answer::alone(subtract(y, z)),
        Arithmetic::Sl => shift_left_signed(y, z),
        Arithmetic::Slu => Answer::alone(shift_left(y, z)),
        Arithmetic::Sr => Answer::alone(shift_right_signed(y, z)),
        Arithmetic::Sru => Answer::alone(shift_right(y, z)),
    }
}

/// The result of the instruction of this name, where it gives nothing else.
#[inline(always)]
pub(crate) fn perform_alone(name: Arithmetic, y: u64, z: u64) -> Option<u64>
    ensures { (d : ℕ) → result ≡ lone_value (spec.arithmetic name y z d) }
{
    match name {
        Arithmetic::Addu => Some(y.wrapping_add(z)),
        Arithmetic::Subu => Some(subtract(y, z)),
        Arithmetic::TwoAddu => Some((y << 1).wrapping_add(z)),
        Arithmetic::FourAddu => Some((y << 2).wrapping_add(z)),
        Arithmetic::EightAddu => Some((y << 3).wrapping_add(z)),
        Arithmetic::SixteenAddu => Some((y << 4).wrapping_add(z)),
        Arithmetic::Cmp => Some(sign(signed(y).cmp(&signed(z)))),
        Arithmetic::Cmpu => Some(sign(y.cmp(&z))),
        Arithmetic::Negu => Some(subtract(y, z)),
        Arithmetic::Slu => Some(shift_left(y, z)),
        Arithmetic::Sr => Some(shift_right_signed(y, z)),
        Arithmetic::Sru => Some(shift_right(y, z)),
        Arithmetic::Add => add_checked(y, z),
        Arithmetic::Sub => subtract_checked(y, z),
        Arithmetic::Mul => lone(&perform(Arithmetic::Mul, y, z, 0)),
        Arithmetic::Neg => fit_signed(less_signed(y, z)),
        Arithmetic::Sl => lone(&shift_left_signed(y, z)),
        Arithmetic::Mulu => None,
        Arithmetic::Div => None,
        Arithmetic::Divu => None,
    }
}

/// The signed value of an octa, in a word that holds sums and products of two of them.
#[inline(always)]
fn value(x: u64) -> i128
    ensures { result ≡ signed_value x }
{
    i128::from(signed(x))
}

/// The sum of two signed octas.
#[inline(always)]
fn add_signed(y: u64, z: u64) -> i128
    ensures { result ≡ signed_value y +ℤ signed_value z }
{
    value(y) + value(z)
}

/// The sum of two signed octas, where it is one.
#[inline(always)]
fn add_checked(y: u64, z: u64) -> Option<u64>
    ensures { result ≡ lone_value (checked_answer (signed_value y +ℤ signed_value z)) }
{
    match signed(y).checked_add(signed(z)) {
        Some(sum) => Some(sum.cast_unsigned()),
        None => None,
    }
}

/// The difference of two signed octas, where it is one.
#[inline(always)]
fn subtract_checked(y: u64, z: u64) -> Option<u64>
    ensures { result ≡ lone_value (checked_answer (signed_value y -ℤ signed_value z)) }
{
    match signed(y).checked_sub(signed(z)) {
        Some(difference) => Some(difference.cast_unsigned()),
        None => None,
    }
}

/// The difference of two signed octas.
#[inline(always)]
fn subtract_signed(y: u64, z: u64) -> i128
    ensures { result ≡ signed_value y -ℤ signed_value z }
{
    value(y) - value(z)
}

/// The product of two signed octas.
#[inline(always)]
fn multiply_signed(y: u64, z: u64) -> i128
    ensures { result ≡ signed_value y *ℤ signed_value z }
{
    value(y) * value(z)
}

/// A number less a signed octa.
#[inline(always)]
fn less_signed(y: u64, z: u64) -> i128
    ensures { result ≡ pos y -ℤ signed_value z }
{
    i128::from(y) - value(z)
}

/// The low half of a product of unsigned octas, with the high half in rH.
fn multiply(y: u64, z: u64) -> Answer
    ensures { result ≡ spec.whole_product y z }
{
    let (high, x) = product(y, z);
    Answer {
        x,
        h: Some(high),
        r: None,
        event: None,
    }
}

/// The floor of a signed quotient, with the remainder in rR.
fn divide(y: u64, z: u64) -> Answer
    ensures { result ≡ spec.signed_quotient y z }
{
    if z == 0 {
        return Answer {
            x: 0,
            h: None,
            r: Some(y),
            event: Some(Event::Divide),
        };
    }
    let q = floor(y, z);
    Answer {
        x: wrap(q),
        h: None,
        r: Some(wrap(remainder(y, z, q))),
        event: overflow(q),
    }
}

/// A signed octa less another that is taken this many times.
#[inline(always)]
fn remainder(y: u64, z: u64, q: i128) -> i128
    requires { unsigned_abs q ≤ 2 ^ 63 }
    ensures { result ≡ signed_value y -ℤ signed_value z *ℤ q }
{
    value(y) - value(z) * q
}

/// The floor of a signed quotient. A negative divisor and its dividend change their signs together.
#[tactic(auto, using(crate::proofs::Floors::floors))]
fn floor(y: u64, z: u64) -> i128
    requires { z ≢ 0 }
    ensures floor { result ≡ floor_quotient (signed_value y) (signed_value z) }
    ensures most { unsigned_abs result ≤ 2 ^ 63 }
{
    let a = value(y);
    let b = value(z);
    if b < 0 {
        (-a).div_euclid(-b)
    } else {
        a.div_euclid(b)
    }
}

/// The quotient of the long dividend of rD and y, with the remainder in rR, where the quotient is
/// an octa; else rD, with y in rR.
fn divide_long(d: u64, y: u64, z: u64) -> Answer
    ensures { result ≡ spec.long_quotient d y z }
{
    let (x, r) = quotient(d, y, z).unwrap_or((d, y));
    Answer {
        x,
        h: None,
        r: Some(r),
        event: None,
    }
}

/// A difference modulo 2^64.
#[inline(always)]
fn subtract(y: u64, z: u64) -> u64
    ensures { result ≡ octa (pos y -ℤ pos z) }
{
    y.wrapping_sub(z)
}

/// -1, 0 or 1 as an octa.
#[inline(always)]
fn sign(order: Ordering) -> u64
    ensures { result ≡ octa (spec.sign order) }
{
    match order {
        Ordering::Less => 0xffff_ffff_ffff_ffff,
        Ordering::Equal => 0,
        Ordering::Greater => 1,
    }
}

/// A signed octa times 2^z, whole.
#[inline(always)]
fn shift_signed(y: u64, z: u64) -> i128
    requires { z < 64 }
    ensures { result ≡ signed_value y *ℤ pos (2 ^ z) }
{
    value(y) * i128::from(1u64 << z)
}

/// A signed octa times 2^z, as an octa.
#[tactic(auto, using(crate::proofs::Shifts::signed_left))]
#[inline(always)]
fn shift_left_signed(y: u64, z: u64) -> Answer
    ensures { result ≡ checked_answer (signed_value y *ℤ pos (2 ^ z)) }
{
    if z < 64 {
        return Answer::from_signed(shift_signed(y, z));
    }
    Answer {
        x: 0,
        h: None,
        r: None,
        event: if y == 0 { None } else { Some(Event::Overflow) },
    }
}

/// An octa times 2^z, modulo 2^64.
#[tactic(auto, using(crate::proofs::Shifts::high))]
#[inline(always)]
fn shift_left(y: u64, z: u64) -> u64
    ensures { result ≡ octa (pos (y * 2 ^ z)) }
{
    if z < 64 { y << z } else { 0 }
}

/// The floor of a signed octa by 2^z, as an octa.
#[tactic(auto, using(crate::proofs::Shifts::signed_right))]
#[inline(always)]
fn shift_right_signed(y: u64, z: u64) -> u64
    ensures { result ≡ octa (floor_by (signed_value y) (2 ^ z)) }
{
    (signed(y) >> z.min(63)).cast_unsigned()
}

/// The floor of an octa by 2^z.
#[tactic(auto, using(crate::proofs::Shifts::high))]
#[inline(always)]
fn shift_right(y: u64, z: u64) -> u64
    ensures { result ≡ octa (pos (y / 2 ^ z)) }
{
    if z < 64 { y >> z } else { 0 }
}
