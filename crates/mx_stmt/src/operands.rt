//! Operands of a statement, as values and as future references.

ghost use Rattle.std.specs.Prelude.{◌≡◌, ◌≢◌, ◌≤◌, ◌^◌, Ok, Err};
ghost use Rattle.mx_expr.specs.Tree.{tree_of, HasDigits};
ghost use Rattle.mx_stmt.specs.Operands as spec;
ghost use Rattle.mx_stmt.specs.Operands.{known_of};
ghost use Rattle.mx_stmt.specs.Steps.{Answers};

use crate::{Env, StmtFault};
use mx_expr::{Expr, value};
use mx_names::NameFault;
use mx_word::{Awaited, Value};

/// An operand that is a pure number, or a future reference.
#[derive(Drop)]
pub(crate) enum Target {
    Known(u64),
    Future(Awaited),
}

/// An operand that is a register, or a pure number of 8 bits.
#[derive(Clone, Copy)]
pub(crate) enum RegisterOrByte {
    Register(u8),
    Byte(u8),
}

/// The value of an operand.
pub(crate) fn operand_value(env: &Env, e: &Expr) -> Result<Value, StmtFault>
    requires { HasDigits (tree_of e.now) }
    ensures { Answers result (spec.operand_value (known_of env.now) (tree_of e.now)) }
{
    match value(env.alloc, e, env) {
        Ok(value) => Ok(value),
        Err(fault) => Err(StmtFault::of(fault)),
    }
}

/// The number of a register that is an operand.
pub(crate) fn register_at(env: &Env, e: &Expr) -> Result<u8, StmtFault>
    requires { HasDigits (tree_of e.now) }
    ensures { Answers result (spec.register_at (known_of env.now) (tree_of e.now)) }
{
    match operand_value(env, e)? {
        Value::Reg(r) => Ok(r),
        Value::Pure(_) => Err(StmtFault::NotRegister),
    }
}

/// A pure operand.
pub(crate) fn pure_at(env: &Env, e: &Expr) -> Result<u64, StmtFault>
    requires { HasDigits (tree_of e.now) }
    ensures { Answers result (spec.pure_at (known_of env.now) (tree_of e.now)) }
{
    match operand_value(env, e)? {
        Value::Pure(n) => Ok(n),
        Value::Reg(_) => Err(StmtFault::NotPure),
    }
}

/// A number that fits a field of 16 bits.
pub(crate) fn wyde_number(n: u64) -> Result<u16, StmtFault>
    ensures { result ≡ spec.number_below (2 ^ 16) n }
{
    if n < 0x1_0000 {
        Ok(n as u16)
    } else {
        Err(StmtFault::Fit)
    }
}

/// A pure operand of 8 bits.
pub(crate) fn byte_at(env: &Env, e: &Expr) -> Result<u8, StmtFault>
    requires { HasDigits (tree_of e.now) }
    ensures { Answers result (spec.field_at 256 (known_of env.now) (tree_of e.now)) }
{
    let n = pure_at(env, e)?;
    if n < 256 {
        Ok(n as u8)
    } else {
        Err(StmtFault::Fit)
    }
}

/// A pure operand of 16 bits.
pub(crate) fn wyde_at(env: &Env, e: &Expr) -> Result<u16, StmtFault>
    requires { HasDigits (tree_of e.now) }
    ensures { Answers result (spec.field_at (2 ^ 16) (known_of env.now) (tree_of e.now)) }
{
    let n = pure_at(env, e)?;
    wyde_number(n)
}

/// A pure operand of 24 bits.
pub(crate) fn whole_at(env: &Env, e: &Expr) -> Result<u32, StmtFault>
    requires { HasDigits (tree_of e.now) }
    ensures { Answers result (spec.field_at (2 ^ 24) (known_of env.now) (tree_of e.now)) }
{
    let n = pure_at(env, e)?;
    if n < 0x100_0000 {
        Ok(n as u32)
    } else {
        Err(StmtFault::Fit)
    }
}

/// An operand that is a register, or pure and of 8 bits.
pub(crate) fn register_or_byte_at(env: &Env, e: &Expr) -> Result<RegisterOrByte, StmtFault>
    requires { HasDigits (tree_of e.now) }
    ensures { Answers result (spec.register_or_byte_at (known_of env.now) (tree_of e.now)) }
{
    match operand_value(env, e)? {
        Value::Reg(r) => Ok(RegisterOrByte::Register(r)),
        Value::Pure(n) if n < 256 => Ok(RegisterOrByte::Byte(n as u8)),
        Value::Pure(_) => Err(StmtFault::Fit),
    }
}

/// What an operand waits for, if it is a future reference.
fn reference_of(env: &Env, e: &Expr) -> Result<Option<Awaited>, StmtFault>
    ensures { Answers result (Ok (spec.reference_of (known_of env.now) (tree_of e.now))) }
{
    match e {
        Expr::Name(text) => find_awaited_name(env, text.as_slice()),
        Expr::Ahead(d) => Ok(Some(Awaited::Local(*d))),
        _ => Ok(None),
    }
}

/// The complete name that a symbol waits for, if it is not known.
fn find_awaited_name(env: &Env, text: &[u8]) -> Result<Option<Awaited>, StmtFault>
    ensures { Answers result (Ok (spec.awaited_name env.now.names.now.names (spec.symbol_form env.now.names.now.names text.now))) }
{
    match env.names.resolve(text) {
        Ok(full) => match env.names.lookup(full.as_slice()) {
            Some(_) => Ok(None),
            None => Ok(Some(Awaited::Name(full))),
        },
        Err(NameFault::OutOfMemory) => Err(StmtFault::OutOfMemory),
        Err(_) => Ok(None),
    }
}

/// An operand that is pure, or a future reference.
pub(crate) fn target_at(env: &Env, e: &Expr) -> Result<Target, StmtFault>
    requires { HasDigits (tree_of e.now) }
    ensures { Answers result (spec.target_at (known_of env.now) (tree_of e.now)) }
{
    if let Some(who) = reference_of(env, e)? {
        return Ok(Target::Future(who));
    }
    let n = pure_at(env, e)?;
    Ok(Target::Known(n))
}
