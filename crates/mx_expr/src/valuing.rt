//! The value of an expression, found with a list of what is left to do in place of recursion.

ghost use Rattle.std.specs.Prelude.{◌≡◌, ◌≢◌, ◌+◌, ◌<◌, ◌≤◌, [], ◌∷◌, ◌++◌, Result, Ok, Err, IfOk, IfErr, OnOk};
ghost use Rattle.std.specs.Prelude.{MatchResult};
ghost use Rattle.mx_expr.specs.Tree.{tree_of, HasDigits};
ghost use Rattle.mx_expr.specs.Value.{Knowledge, value_of, known_by, of_symbol};
ghost use Rattle.mx_expr.specs.Frames.{GoesDown, value_after, nodes, nodes_left, AllHaveDigits, Goes, LeftBy, NextHasDigits};

use crate::operators::{apply, combine};
use crate::{BinOp, Expr, ExprFault, Known, UnOp};
use mx_word::{Bytes, Value};
use std::alloc::Global;

/// What is left to do once the part before it has a value.
#[derive(Clone, Copy)]
enum Frame<'a> {
    /// An operator takes the value.
    Operand(UnOp),
    /// The value is the left side of an operator, whose right side comes next.
    Left(BinOp, &'a Expr),
    /// The value is the right side of an operator; this is the left one.
    Right(BinOp, Value),
}

/// What comes next after a value.
#[derive(Clone, Copy)]
enum Next<'a> {
    Done(Value),
    Right(&'a Expr),
}

/// The value of an expression (MMIXware, "MMIXAL"), whose local labels have digits of 0 to 9, as those
/// of a field that was read do. A fault of the left side comes first, then one of the right side, then
/// one of the operator; out of memory may come at any place.
#[tactic(auto, using(crate::proofs::FrameLaws::frames))]
pub fn value<E: Known>(alloc: Global, e: &Expr, env: &E) -> Result<Value, ExprFault>
    requires { HasDigits (tree_of e.now) }
    ensures { result ≢ Err ExprFault.OutOfMemory →
        result ≡ value_of (known_by E.symbols E.backs E.at env.now) (tree_of e.now) }
{
    let mut frames = Vec::new(alloc);
    let mut at = e;
    loop {
        let first = down(&mut frames, at, env)?;
        match up(&mut frames, first)? {
            Next::Done(value) => return Ok(value),
            Next::Right(right) => at = right,
        }
    }
}

/// Goes down the left sides to a leaf, and gives its value.
#[tactic(auto, using(crate::proofs::FrameLaws::frames))]
fn down<'a, E: Known>(frames: &mut Vec<Frame<'a>>, e: &'a Expr, env: &E) -> Result<Value, ExprFault>
    requires digits { HasDigits (tree_of e.now) }
    requires all_digits { AllHaveDigits frames.old.items }
    ensures value { GoesDown (known_by E.symbols E.backs E.at env.now) frames.old.items frames.new.items
        (tree_of e.now) result }
    ensures digits { AllHaveDigits frames.new.items }
    ensures less { nodes_left frames.new.items < nodes_left frames.old.items + nodes (tree_of e.now) }
{
    let mut at = e;
    loop {
        match at {
            Expr::Unary(op, operand) => {
                frames.push(Frame::Operand(*op))?;
                at = operand;
            }
            Expr::Binary(op, left, right) => {
                frames.push(Frame::Left(*op, right))?;
                at = left;
            }
            Expr::Number(n) => return Ok(Value::Pure(*n)),
            Expr::Name(name) => return symbol(name, env),
            Expr::Back(d) => return Ok(env.back(*d)),
            Expr::Ahead(_) => return Err(ExprFault::Future),
            Expr::Here => return Ok(Value::Pure(env.place())),
        }
    }
}

/// The value of a symbol.
fn symbol<E: Known>(name: &Bytes, env: &E) -> Result<Value, ExprFault>
    ensures { result ≢ Err ExprFault.OutOfMemory → result ≡ of_symbol (E.symbols env.now name.now) }
{
    match env.symbol(name.as_slice())? {
        Some(value) => Ok(value),
        None => Err(ExprFault::Future),
    }
}

/// Passes a value on, until it is the whole expression's or a right side comes next.
#[tactic(auto, using(crate::proofs::FrameLaws::frames))]
fn up<'a>(frames: &mut Vec<Frame<'a>>, first: Value) -> Result<Next<'a>, ExprFault>
    requires all_digits { AllHaveDigits frames.old.items }
    ensures value { (known : Knowledge) →
        Goes known frames.new.items result (value_after known frames.old.items (Ok first)) }
    ensures digits { NextHasDigits result × AllHaveDigits frames.new.items }
    ensures left { LeftBy frames.new.items result (nodes_left frames.old.items) }
{
    let mut value = first;
    while let Some(frame) = frames.pop() {
        match frame {
            Frame::Operand(op) => value = apply(op, value)?,
            Frame::Left(op, right) => {
                frames.push(Frame::Right(op, value))?;
                return Ok(Next::Right(right));
            }
            Frame::Right(op, left) => value = combine(op, left, value)?,
        }
    }
    Ok(Next::Done(value))
}
