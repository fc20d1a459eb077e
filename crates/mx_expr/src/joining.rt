//! Expressions are joined with the operators that wait for them.

ghost use Rattle.std.specs.Prelude.{◌≡◌, ◌≢◌, Ok, Err, IfErr, IfOk, MatchResult};
ghost use Rattle.mx_expr.specs.Tree.{tree_of, unary, binary};
ghost use Rattle.mx_expr.specs.Reading as spec;
ghost use Rattle.mx_expr.specs.Machine.{settled_as, all_waiting};

use crate::waiting::Stack;
use crate::{BinOp, Expr, ExprFault, UnOp};
use std::alloc::Global;

/// A primary with the unary operators that wait for it, and the strong operator before them.
pub(crate) fn settle(alloc: Global, waiting: &mut Stack, primary: Expr) -> Result<Expr, ExprFault>
    ensures { result ≢ Err ExprFault.OutOfMemory →
        settled_as result waiting.new ≡ Ok (spec.with_strong (all_waiting waiting.old) (tree_of primary)) }
{
    let mut e = primary;
    while let Some(op) = waiting.pop_sign() {
        e = unary(alloc, op, e)?;
    }
    match waiting.pop_strong() {
        Some((op, left)) => binary(alloc, op, left, e),
        None => Ok(e),
    }
}

/// A product with the weak operator that waits for it.
pub(crate) fn sum(alloc: Global, waiting: &mut Stack, product: Expr) -> Result<Expr, ExprFault>
    ensures { result ≢ Err ExprFault.OutOfMemory →
        settled_as result waiting.new ≡ Ok (spec.with_weak (all_waiting waiting.old) (tree_of product)) }
{
    match waiting.pop_weak() {
        Some((op, left)) => binary(alloc, op, left, product),
        None => Ok(product),
    }
}

/// An operator with its operand.
fn unary(alloc: Global, op: UnOp, e: Expr) -> Result<Expr, ExprFault>
    ensures { MatchResult result (λ x. tree_of x ≡ unary op (tree_of e)) (λ f. f ≡ ExprFault.OutOfMemory) }
{
    Ok(Expr::Unary(op, Box::new(alloc, e)?))
}

/// An operator with its operands.
fn binary(alloc: Global, op: BinOp, left: Expr, right: Expr) -> Result<Expr, ExprFault>
    ensures { MatchResult result
        (λ x. tree_of x ≡ binary op (tree_of left) (tree_of right)) (λ f. f ≡ ExprFault.OutOfMemory) }
{
    let left = Box::new(alloc, left)?;
    Ok(Expr::Binary(op, left, Box::new(alloc, right)?))
}
