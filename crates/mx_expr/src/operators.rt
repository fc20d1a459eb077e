//! Operators on values.

ghost use Rattle.std.specs.Prelude.{◌≡◌, ◌+◌, ◌-◌, ◌*◌, ◌/◌, ◌%◌, ◌^◌};
ghost use Rattle.mx_expr.specs.Value as spec;
ghost use Rattle.mx_word.specs.Words.{difference as difference_of};

use crate::{BinOp, ExprFault, UnOp};
use mx_word::{Value, quotient};

/// What a unary operator makes of a value.
pub(crate) fn apply(op: UnOp, x: Value) -> Result<Value, ExprFault>
    ensures { result ≡ spec.unary_value op x }
{
    match (op, x) {
        (UnOp::Plus, x) => Ok(x),
        (UnOp::Minus, Value::Pure(x)) => Ok(Value::Pure(difference(0, x))),
        (UnOp::Not, Value::Pure(x)) => Ok(Value::Pure(!x)),
        (UnOp::Register, Value::Pure(x)) => register(x),
        (_, Value::Reg(_)) => Err(ExprFault::PureOnly),
    }
}

/// The register of this number.
fn register(x: u64) -> Result<Value, ExprFault>
    ensures { result ≡ spec.register x }
{
    if x <= 255 {
        Ok(Value::Reg(x as u8))
    } else {
        Err(ExprFault::RegisterNumber)
    }
}

/// What a binary operator makes of two values.
pub(crate) fn combine(op: BinOp, x: Value, y: Value) -> Result<Value, ExprFault>
    ensures { result ≡ spec.binary_value op x y }
{
    match op {
        BinOp::Add => add(x, y),
        BinOp::Sub => subtract(x, y),
        _ => match (x, y) {
            (Value::Pure(x), Value::Pure(y)) => pure(op, x, y),
            _ => Err(ExprFault::PureOnly),
        },
    }
}

/// A sum. One side of it may be a register.
fn add(x: Value, y: Value) -> Result<Value, ExprFault>
    ensures { result ≡ spec.binary_value BinOp.Add x y }
{
    match (x, y) {
        (Value::Pure(x), Value::Pure(y)) => Ok(Value::Pure(x.wrapping_add(y))),
        (Value::Reg(x), Value::Pure(y)) => register(u64::from(x).wrapping_add(y)),
        (Value::Pure(x), Value::Reg(y)) => register(x.wrapping_add(u64::from(y))),
        (Value::Reg(_), Value::Reg(_)) => Err(ExprFault::TwoRegisters),
    }
}

/// A difference. That of two registers is pure.
fn subtract(x: Value, y: Value) -> Result<Value, ExprFault>
    ensures { result ≡ spec.binary_value BinOp.Sub x y }
{
    match (x, y) {
        (Value::Pure(x), Value::Pure(y)) => Ok(Value::Pure(difference(x, y))),
        (Value::Reg(x), Value::Pure(y)) => register(difference(u64::from(x), y)),
        (Value::Reg(x), Value::Reg(y)) => {
            Ok(Value::Pure(difference(u64::from(x), u64::from(y))))
        }
        (Value::Pure(_), Value::Reg(_)) => Err(ExprFault::RegisterFromPure),
    }
}

/// A difference modulo 2^64.
fn difference(x: u64, y: u64) -> u64
    ensures { result ≡ difference_of x y }
{
    x.wrapping_sub(y)
}

/// What the other operators make of two pure values.
fn pure(op: BinOp, x: u64, y: u64) -> Result<Value, ExprFault>
    ensures { result ≡ spec.pure_value op x y }
{
    match op {
        BinOp::Mul => Ok(Value::Pure(x.wrapping_mul(y))),
        BinOp::Div if y == 0 => Err(ExprFault::DivZero),
        BinOp::Div => Ok(Value::Pure(x / y)),
        BinOp::Fraction => fraction(x, y),
        BinOp::Rem if y == 0 => Err(ExprFault::DivZero),
        BinOp::Rem => Ok(Value::Pure(x % y)),
        BinOp::Left => Ok(Value::Pure(shift_left(x, y))),
        BinOp::Right => Ok(Value::Pure(shift_right(x, y))),
        BinOp::And => Ok(Value::Pure(x & y)),
        BinOp::Add => Ok(Value::Pure(x.wrapping_add(y))),
        BinOp::Sub => Ok(Value::Pure(difference(x, y))),
        BinOp::Or => Ok(Value::Pure(x | y)),
        BinOp::Xor => Ok(Value::Pure(x ^ y)),
    }
}

/// The octa of a fraction below 1: the floor of 2^64 x / y.
fn fraction(x: u64, y: u64) -> Result<Value, ExprFault>
    ensures { result ≡ spec.pure_value BinOp.Fraction x y }
{
    match quotient(x, 0, y) {
        None => Err(ExprFault::FractionTooBig),
        Some((whole, _)) => Ok(Value::Pure(whole)),
    }
}

/// A shift to the left; 0 where it is by 64 or more.
fn shift_left(x: u64, y: u64) -> u64
    ensures { result ≡ spec.left_shift x y }
{
    if y < 64 { x << y } else { 0 }
}

/// A shift to the right; 0 where it is by 64 or more.
fn shift_right(x: u64, y: u64) -> u64
    ensures { result ≡ spec.right_shift x y }
{
    if y < 64 { x >> y } else { 0 }
}
