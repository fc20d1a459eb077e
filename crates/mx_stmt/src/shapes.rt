//! Instructions, by the shape and the number of their operands.

ghost use Rattle.std.specs.Prelude.{◌≡◌, ◌≢◌, ◌<◌, [], ◌∷◌, IsTrue};
ghost use Rattle.mx_expr.specs.Tree.{tree_of, trees_of, HasDigits};
ghost use Rattle.mx_ops.specs.Shapes.{shapes_of};
ghost use Rattle.mx_stmt.specs.Forms as spec;
ghost use Rattle.mx_stmt.specs.Forms.{form};
ghost use Rattle.mx_stmt.specs.Operands.{known_of, no_targets};
ghost use Rattle.mx_stmt.specs.Reading.{OperandsHaveDigits};
ghost use Rattle.mx_stmt.specs.Steps.{Answers};

use crate::forms::{
    Tetra, address_form, branch_form, byte_form, free_at, free_form, jump_form, last_after_mode,
    last_form, last_register, last_two, set_to, whole_form, wyde_form,
};
use crate::operands::{byte_at, register_at};
use crate::{Env, StmtFault};
use mx_expr::Expr;
use mx_ops::{Shape, shape_of};

/// An instruction with one operand.
fn one_operand(env: &Env, shape: Shape, code: u8, n: &Expr) -> Result<Tetra, StmtFault>
    requires digits { HasDigits (tree_of n.now) }
    requires second { IsTrue (spec.has_second shape) → code < 254 }
    ensures { Answers result (
        form no_targets (known_of env.now) shape code (tree_of n.now ∷ [])) }
{
    match shape {
        Shape::Jump => jump_form(env, code, n),
        Shape::Pop | Shape::One | Shape::Free => whole_form(env, code, n),
        Shape::Unsave => last_register(env, code, 0, 0, n),
        _ => Err(StmtFault::Operands),
    }
}

/// An instruction with two operands.
fn two_operands(
    env: &Env,
    shape: Shape,
    code: u8,
    first: &Expr,
    last: &Expr,
) -> Result<Tetra, StmtFault>
    requires digits_first { HasDigits (tree_of first.now) }
    requires digits_last { HasDigits (tree_of last.now) }
    requires second { IsTrue (spec.has_second shape) → code < 254 }
    ensures { Answers result (
        form no_targets (known_of env.now) shape code (tree_of first.now ∷ tree_of last.now ∷ [])) }
{
    match shape {
        Shape::Round => {
            let x = register_at(env, first)?;
            last_after_mode(env, code, x, 0, last)
        }
        Shape::Neg => {
            let x = register_at(env, first)?;
            last_form(env, code, x, 0, last)
        }
        Shape::Rel => {
            let x = register_at(env, first)?;
            branch_form(env, code, x, last)
        }
        Shape::Mem => {
            let x = register_at(env, first)?;
            address_form(env, code, x, last)
        }
        Shape::MemPure => {
            let x = byte_at(env, first)?;
            address_form(env, code, x, last)
        }
        Shape::Wyde => {
            let x = register_at(env, first)?;
            wyde_form(env, code, x, last)
        }
        Shape::Put => {
            let x = byte_at(env, first)?;
            last_form(env, code, x, 0, last)
        }
        Shape::Get | Shape::Save => {
            let x = register_at(env, first)?;
            byte_form(env, code, x, last)
        }
        Shape::Pop => {
            let x = byte_at(env, first)?;
            wyde_form(env, code, x, last)
        }
        Shape::Unsave => {
            let x = byte_at(env, first)?;
            last_register(env, code, x, 0, last)
        }
        Shape::Free => {
            let x = free_at(env, first)?;
            wyde_form(env, code, x, last)
        }
        _ => Err(StmtFault::Operands),
    }
}

/// An instruction with three operands.
fn three_operands(
    env: &Env,
    shape: Shape,
    code: u8,
    x: &Expr,
    y: &Expr,
    z: &Expr,
) -> Result<Tetra, StmtFault>
    requires digits_x { HasDigits (tree_of x.now) }
    requires digits_y { HasDigits (tree_of y.now) }
    requires digits_z { HasDigits (tree_of z.now) }
    requires second { IsTrue (spec.has_second shape) → code < 254 }
    ensures { Answers result (
        form no_targets (known_of env.now) shape code (tree_of x.now ∷ tree_of y.now ∷ tree_of z.now ∷ [])) }
{
    match shape {
        Shape::Three | Shape::Mem => {
            let x = register_at(env, x)?;
            last_two(env, code, x, y, z)
        }
        Shape::MemPure => {
            let x = byte_at(env, x)?;
            last_two(env, code, x, y, z)
        }
        Shape::Regs => {
            let x = register_at(env, x)?;
            let y = register_at(env, y)?;
            last_register(env, code, x, y, z)
        }
        Shape::Round => {
            let x = register_at(env, x)?;
            let y = byte_at(env, y)?;
            last_after_mode(env, code, x, y, z)
        }
        Shape::Neg => {
            let x = register_at(env, x)?;
            let y = byte_at(env, y)?;
            last_form(env, code, x, y, z)
        }
        Shape::Free => free_form(env, code, x, y, z),
        _ => Err(StmtFault::Operands),
    }
}

/// An instruction by the shape of its operands.
pub(crate) fn instruction(
    env: &Env,
    shape: Shape,
    code: u8,
    operands: &[Expr],
) -> Result<Tetra, StmtFault>
    requires digits { OperandsHaveDigits operands.now }
    requires second { IsTrue (spec.has_second shape) → code < 254 }
    ensures { Answers result (
        form no_targets (known_of env.now) shape code (trees_of operands.now)) }
{
    match operands {
        [n] => one_operand(env, shape, code, n),
        [first, last] => two_operands(env, shape, code, first, last),
        [x, y, z] => three_operands(env, shape, code, x, y, z),
        _ => Err(StmtFault::Operands),
    }
}

/// An instruction by its code.
pub(crate) fn encode_instruction(env: &Env, code: u8, operands: &[Expr]) -> Result<Tetra, StmtFault>
    requires { OperandsHaveDigits operands.now }
    ensures { Answers result (
        spec.form_by no_targets (known_of env.now) (shapes_of code) code (trees_of operands.now)) }
{
    instruction(env, shape_of(code), code, operands)
}

/// SET.
pub(crate) fn set_form(env: &Env, operands: &[Expr]) -> Result<Tetra, StmtFault>
    requires { OperandsHaveDigits operands.now }
    ensures { Answers result (spec.set_form (known_of env.now) (trees_of operands.now)) }
{
    match operands {
        [x, y] => {
            let x = register_at(env, x)?;
            set_to(env, x, y)
        }
        _ => Err(StmtFault::Operands),
    }
}
