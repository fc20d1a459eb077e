//! The forms of the operands of instructions, and the tetras that they give.

ghost use Rattle.std.specs.Prelude.{◌≡◌, ◌≢◌, ◌<◌, ◌+◌, ◌^◌, [], ◌∷◌};
ghost use Rattle.mx_expr.specs.Tree.{tree_of, trees_of, HasDigits};
ghost use Rattle.mx_stmt.specs.Forms as spec;
ghost use Rattle.mx_stmt.specs.Operands.{known_of, no_targets};
ghost use Rattle.mx_stmt.specs.Reading.{OperandsHaveDigits};
ghost use Rattle.mx_stmt.specs.Steps.{Answers};

use crate::operands::{
    RegisterOrByte, Target, byte_at, operand_value, register_at, register_or_byte_at, target_at,
    whole_at, wyde_at, wyde_number,
};
use crate::relative::relative_word;
use crate::{Env, StmtFault};
use mx_expr::Expr;
use mx_names::Base;
use mx_ops::Shape;
use mx_word::{Awaited, Value, WaitKind};

/// The tetra of an instruction, and the reference that its relative address waits for.
#[derive(Drop)]
pub(crate) struct Tetra {
    pub(crate) word: u32,
    pub(crate) wait: Option<(Awaited, WaitKind)>,
}

/// The tetra of a code and three bytes.
fn tetra_xyz(code: u8, x: u8, y: u8, z: u8) -> u32
    ensures { result ≡ spec.tetra_xyz code x y z }
{
    u32::from(code) * 0x100_0000 + u32::from(x) * 0x1_0000 + u32::from(y) * 0x100 + u32::from(z)
}

/// The tetra of a code, a byte and a wyde.
fn tetra_wyde(code: u8, x: u8, yz: u16) -> u32
    ensures { result ≡ spec.tetra_wyde code x yz }
{
    u32::from(code) * 0x100_0000 + u32::from(x) * 0x1_0000 + u32::from(yz)
}

/// The tetra of a code and 24 bits.
fn tetra_whole(code: u8, xyz: u32) -> u32
    requires { xyz < 2 ^ 24 }
    ensures { result ≡ spec.tetra_whole code xyz }
{
    u32::from(code) * 0x100_0000 + xyz
}

/// An instruction with no reference.
fn plain_tetra(word: u32) -> Result<Tetra, StmtFault>
    ensures { result ≡ spec.plain_tetra word }
{
    Ok(Tetra { word, wait: None })
}

/// `$Z|n`: a register, or a byte with the second code.
pub(crate) fn last_form(env: &Env, code: u8, x: u8, y: u8, z: &Expr) -> Result<Tetra, StmtFault>
    requires digits { HasDigits (tree_of z.now) }
    requires second { code < 255 }
    ensures { Answers result (spec.last_form (known_of env.now) code x y (tree_of z.now)) }
{
    match register_or_byte_at(env, z)? {
        RegisterOrByte::Register(z) => plain_tetra(tetra_xyz(code, x, y, z)),
        RegisterOrByte::Byte(n) => plain_tetra(tetra_xyz(code + 1, x, y, n)),
    }
}

/// `$Z`.
pub(crate) fn last_register(env: &Env, code: u8, x: u8, y: u8, z: &Expr) -> Result<Tetra, StmtFault>
    requires { HasDigits (tree_of z.now) }
    ensures { Answers result (spec.last_register (known_of env.now) code x y (tree_of z.now)) }
{
    let z = register_at(env, z)?;
    plain_tetra(tetra_xyz(code, x, y, z))
}

/// `$Y,$Z|n`.
pub(crate) fn last_two(env: &Env, code: u8, x: u8, y: &Expr, z: &Expr) -> Result<Tetra, StmtFault>
    requires digits_y { HasDigits (tree_of y.now) }
    requires digits_z { HasDigits (tree_of z.now) }
    requires second { code < 255 }
    ensures { Answers result (spec.last_two (known_of env.now) code x (tree_of y.now) (tree_of z.now)) }
{
    let y = register_at(env, y)?;
    last_form(env, code, x, y, z)
}

/// The last operand after a rounding mode: `$Z|n` of FLOT and its like, `$Z` of FIX and its like.
pub(crate) fn last_after_mode(
    env: &Env,
    code: u8,
    x: u8,
    y: u8,
    z: &Expr,
) -> Result<Tetra, StmtFault>
    requires { HasDigits (tree_of z.now) }
    ensures { Answers result (spec.rounded_last (known_of env.now) code x y (tree_of z.now)) }
{
    if 0x08 <= code && code <= 0x0f {
        last_form(env, code, x, y, z)
    } else {
        last_register(env, code, x, y, z)
    }
}

/// `$Y`, which means `$Y,0`, or a pure address, which means a base and the difference from
/// it.
pub(crate) fn address_form(env: &Env, code: u8, x: u8, a: &Expr) -> Result<Tetra, StmtFault>
    requires digits { HasDigits (tree_of a.now) }
    requires second { code < 255 }
    ensures { Answers result (spec.address_form (known_of env.now) code x (tree_of a.now)) }
{
    match operand_value(env, a)? {
        Value::Reg(y) => plain_tetra(tetra_xyz(code + 1, x, y, 0)),
        Value::Pure(a) => {
            let Base { reg, above } = env.gregs.base_for(a).ok_or(StmtFault::NoBase)?;
            plain_tetra(tetra_xyz(code + 1, x, reg, above as u8))
        }
    }
}

/// The tetra with a relative address, or a future reference, which has zero in its place.
fn relative_form(
    head: u32,
    reach: u32,
    place: u64,
    kind: WaitKind,
    target: Target,
) -> Result<Tetra, StmtFault>
    requires { head + 2 ^ 24 + reach < 2 ^ 32 }
    ensures { result ≡ spec.relative_form no_targets head reach place kind target }
{
    match target {
        Target::Known(n) => {
            let word = relative_word(head, reach, place, n)?;
            plain_tetra(word)
        }
        Target::Future(who) => Ok(Tetra {
            word: head,
            wait: Some((who, kind)),
        }),
    }
}

/// `a` after `$X`.
pub(crate) fn branch_form(env: &Env, code: u8, x: u8, a: &Expr) -> Result<Tetra, StmtFault>
    requires digits { HasDigits (tree_of a.now) }
    requires second { code < 254 }
    ensures { Answers result (spec.branch_form no_targets (known_of env.now) code x (tree_of a.now)) }
{
    let target = target_at(env, a)?;
    relative_form(
        tetra_wyde(code, x, 0),
        0x1_0000,
        env.at,
        WaitKind::Near,
        target,
    )
}

/// `a` alone.
pub(crate) fn jump_form(env: &Env, code: u8, a: &Expr) -> Result<Tetra, StmtFault>
    requires digits { HasDigits (tree_of a.now) }
    requires second { code < 254 }
    ensures { Answers result (spec.jump_form no_targets (known_of env.now) code (tree_of a.now)) }
{
    let target = target_at(env, a)?;
    relative_form(
        tetra_whole(code, 0),
        0x100_0000,
        env.at,
        WaitKind::Far,
        target,
    )
}

/// `n` of 16 bits after X.
pub(crate) fn wyde_form(env: &Env, code: u8, x: u8, n: &Expr) -> Result<Tetra, StmtFault>
    requires { HasDigits (tree_of n.now) }
    ensures { Answers result (spec.wyde_form (known_of env.now) code x (tree_of n.now)) }
{
    let n = wyde_at(env, n)?;
    plain_tetra(tetra_wyde(code, x, n))
}

/// `n` of 24 bits alone.
pub(crate) fn whole_form(env: &Env, code: u8, n: &Expr) -> Result<Tetra, StmtFault>
    requires { HasDigits (tree_of n.now) }
    ensures { Answers result (spec.whole_form (known_of env.now) code (tree_of n.now)) }
{
    let n = whole_at(env, n)?;
    plain_tetra(tetra_whole(code, n))
}

/// `n` of 8 bits as Z.
pub(crate) fn byte_form(env: &Env, code: u8, x: u8, z: &Expr) -> Result<Tetra, StmtFault>
    requires { HasDigits (tree_of z.now) }
    ensures { Answers result (spec.byte_form (known_of env.now) code x (tree_of z.now)) }
{
    let z = byte_at(env, z)?;
    plain_tetra(tetra_xyz(code, x, 0, z))
}

/// A byte that may be the number of a register.
pub(crate) fn free_at(env: &Env, e: &Expr) -> Result<u8, StmtFault>
    requires { HasDigits (tree_of e.now) }
    ensures { Answers result (spec.free_at (known_of env.now) (tree_of e.now)) }
{
    match register_or_byte_at(env, e)? {
        RegisterOrByte::Register(r) => Ok(r),
        RegisterOrByte::Byte(n) => Ok(n),
    }
}

/// Three bytes, each of which may be a register.
pub(crate) fn free_form(
    env: &Env,
    code: u8,
    x: &Expr,
    y: &Expr,
    z: &Expr,
) -> Result<Tetra, StmtFault>
    requires digits_x { HasDigits (tree_of x.now) }
    requires digits_y { HasDigits (tree_of y.now) }
    requires digits_z { HasDigits (tree_of z.now) }
    ensures { Answers result (spec.free_form (known_of env.now) code (tree_of x.now) (tree_of y.now) (tree_of z.now)) }
{
    let x = free_at(env, x)?;
    let y = free_at(env, y)?;
    let z = free_at(env, z)?;
    plain_tetra(tetra_xyz(code, x, y, z))
}

/// SET of a register is ORI with 0, SET of a number of 16 bits is SETL.
pub(crate) fn set_to(env: &Env, x: u8, y: &Expr) -> Result<Tetra, StmtFault>
    requires { HasDigits (tree_of y.now) }
    ensures { Answers result (spec.set_to_operand (known_of env.now) x (tree_of y.now)) }
{
    match operand_value(env, y)? {
        Value::Reg(y) => plain_tetra(tetra_xyz(0xc1, x, y, 0)),
        Value::Pure(n) => {
            let n = wyde_number(n)?;
            plain_tetra(tetra_wyde(0xe3, x, n))
        }
    }
}
