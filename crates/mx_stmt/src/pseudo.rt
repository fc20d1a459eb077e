//! Pseudo-operations, and statements as what they place.

ghost use Rattle.std.specs.Prelude.{◌≡◌, ◌≢◌, ◌<◌, ◌^◌, ◌∷◌, [], IfOk};
ghost use Rattle.mx_expr.specs.Tree.{tree_of, trees_of, HasDigits};
ghost use Rattle.mx_stmt.specs.Encoding as spec;
ghost use Rattle.mx_stmt.specs.Operands.{known_of, no_targets};
ghost use Rattle.mx_stmt.specs.Reading.{OperandsHaveDigits};
ghost use Rattle.mx_stmt.specs.Steps.{Answers};

use crate::data::Data;
use crate::operands::{operand_value, pure_at, register_at};
use crate::{Effect, Env, Label, Placed, StmtFault};
use mx_expr::{Expr, ExprFault};
use mx_names::NameFault;
use mx_ops::Pseudo;
use mx_word::{Bytes, STACK_SEGMENT, Value, Waits};

/// The value of a label, where there is one.
fn label_value(label: &Option<Label>, value: Value) -> Option<Value>
    ensures { result ≡ spec.label_value label.now value }
{
    match label {
        None => None,
        Some(_) => Some(value),
    }
}

/// A statement that places no bytes.
fn without_bytes(
    env: &Env,
    label: &Option<Label>,
    value: Value,
    effect: Effect,
    next: u64,
) -> Result<Placed, StmtFault>
    ensures { result ≡ spec.without_bytes (known_of env.now) label.now value effect next }
{
    Ok(Placed {
        start: env.at,
        bytes: Bytes::new(env.alloc),
        waits: Waits::new(env.alloc),
        label: label_value(label, value),
        effect,
        after: next,
    })
}

/// Bytes at the place, where none lies in the stack segment or above.
pub(crate) fn with_bytes(
    env: &Env,
    label: &Option<Label>,
    content: Data,
) -> Result<Placed, StmtFault>
    ensures placed { result ≡ spec.with_bytes (known_of env.now) label.now content }
    ensures effect { IfOk result (λ placed. spec.IsPossible env.now.gregs.now placed.effect) }
{
    let count = content.bytes.as_slice().len() as u64;
    if env.at > STACK_SEGMENT || count > STACK_SEGMENT - env.at {
        return Err(StmtFault::BadPlace);
    }
    Ok(Placed {
        start: env.at,
        bytes: content.bytes,
        waits: content.waits,
        label: label_value(label, Value::Pure(env.at)),
        effect: Effect::Plain,
        after: env.at + count,
    })
}

/// IS: the label gets the value of the operand.
fn is_form(env: &Env, label: &Option<Label>, e: &Expr) -> Result<Placed, StmtFault>
    requires { HasDigits (tree_of e.now) }
    ensures placed { Answers result (spec.is_form (known_of env.now) label.now (tree_of e.now)) }
    ensures effect { IfOk result (λ placed. spec.IsPossible env.now.gregs.now placed.effect) }
{
    let value = operand_value(env, e)?;
    without_bytes(env, label, value, Effect::Plain, env.at)
}

/// LOC: the place becomes the operand; the label gets what it was before.
fn loc_form(env: &Env, label: &Option<Label>, e: &Expr) -> Result<Placed, StmtFault>
    requires { HasDigits (tree_of e.now) }
    ensures placed { Answers result (spec.loc_form (known_of env.now) label.now (tree_of e.now)) }
    ensures effect { IfOk result (λ placed. spec.IsPossible env.now.gregs.now placed.effect) }
{
    let next = pure_at(env, e)?;
    without_bytes(env, label, Value::Pure(env.at), Effect::Plain, next)
}

/// The complete form of a symbol as it is written.
fn complete_form(env: &Env, text: &[u8]) -> Result<Bytes, StmtFault>
    ensures { Answers result (spec.complete_symbol (known_of env.now) text.now) }
{
    match env.names.resolve(text) {
        Ok(full) => Ok(full),
        Err(NameFault::OutOfMemory) => Err(StmtFault::OutOfMemory),
        Err(_) => Err(StmtFault::Expr(ExprFault::NameTooLong)),
    }
}

/// PREFIX: the complete form of the operand, which is a symbol, becomes the prefix.
fn prefix_form(env: &Env, label: &Option<Label>, e: &Expr) -> Result<Placed, StmtFault>
    ensures placed { Answers result (spec.prefix_form (known_of env.now) label.now (tree_of e.now)) }
    ensures effect { IfOk result (λ placed. spec.IsPossible env.now.gregs.now placed.effect) }
{
    match e {
        Expr::Name(text) => {
            let full = complete_form(env, text.as_slice())?;
            without_bytes(
                env,
                label,
                Value::Pure(env.at),
                Effect::Prefix(full),
                env.at,
            )
        }
        _ => Err(StmtFault::Operands),
    }
}

/// GREG: the label gets the register of the operand's value.
fn greg_form(env: &Env, label: &Option<Label>, e: &Expr) -> Result<Placed, StmtFault>
    requires { HasDigits (tree_of e.now) }
    ensures placed { Answers result (spec.greg_form (known_of env.now) label.now (tree_of e.now)) }
    ensures effect { IfOk result (λ placed. spec.IsPossible env.now.gregs.now placed.effect) }
{
    let value = pure_at(env, e)?;
    let reg = env
        .gregs
        .register_for(value)
        .ok_or(StmtFault::TooManyGregs)?;
    without_bytes(
        env,
        label,
        Value::Reg(reg),
        Effect::Greg { reg, value },
        env.at,
    )
}

/// LOCAL: the operand is a register that has to stay below the global ones.
fn local_form(env: &Env, label: &Option<Label>, e: &Expr) -> Result<Placed, StmtFault>
    requires { HasDigits (tree_of e.now) }
    ensures placed { Answers result (spec.local_form (known_of env.now) label.now (tree_of e.now)) }
    ensures effect { IfOk result (λ placed. spec.IsPossible env.now.gregs.now placed.effect) }
{
    let reg = register_at(env, e)?;
    without_bytes(env, label, Value::Pure(env.at), Effect::Local(reg), env.at)
}

/// A pseudo-operation that takes one operand.
fn one_form(env: &Env, label: &Option<Label>, pseudo: Pseudo, e: &Expr) -> Result<Placed, StmtFault>
    requires { HasDigits (tree_of e.now) }
    ensures placed { Answers result (spec.one_form (known_of env.now) label.now pseudo (tree_of e.now)) }
    ensures effect { IfOk result (λ placed. spec.IsPossible env.now.gregs.now placed.effect) }
{
    match pseudo {
        Pseudo::Is => is_form(env, label, e),
        Pseudo::Loc => loc_form(env, label, e),
        Pseudo::Prefix => prefix_form(env, label, e),
        Pseudo::Greg => greg_form(env, label, e),
        Pseudo::Local => local_form(env, label, e),
        _ => Err(StmtFault::Operands),
    }
}

/// A pseudo-operation that takes one operand, by its list of operands.
pub(crate) fn one_operand(
    env: &Env,
    label: &Option<Label>,
    pseudo: Pseudo,
    operands: &[Expr],
) -> Result<Placed, StmtFault>
    requires { OperandsHaveDigits operands.now }
    ensures placed { Answers result (spec.one_operand (known_of env.now) label.now pseudo (trees_of operands.now)) }
    ensures effect { IfOk result (λ placed. spec.IsPossible env.now.gregs.now placed.effect) }
{
    match operands {
        [e] => one_form(env, label, pseudo, e),
        _ => Err(StmtFault::Operands),
    }
}
