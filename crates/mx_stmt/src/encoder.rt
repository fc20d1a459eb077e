//! A statement becomes bytes.

ghost use Rattle.std.specs.Prelude.{◌≡◌, ◌≢◌, ◌<◌, ◌≤◌, IfOk};
ghost use Rattle.mx_expr.specs.Tree.{trees_of};
ghost use Rattle.mx_stmt.specs.Data.{data_form, size_bytes};
ghost use Rattle.mx_stmt.specs.Encoding as spec;
ghost use Rattle.mx_stmt.specs.Operands.{known_of, no_targets};
ghost use Rattle.mx_stmt.specs.Reading.{OperandsHaveDigits};
ghost use Rattle.mx_stmt.specs.Steps.{Answers};

use crate::data::{Data, Size, data_form};
use crate::forms::Tetra;
use crate::pseudo::{one_operand, with_bytes};
use crate::shapes::{encode_instruction, instruction, set_form};
use crate::{Env, Label, Placed, Statement, StmtFault};
use mx_expr::Expr;
use mx_ops::{Op, Pseudo, Shape};
use mx_word::{Awaited, Bytes, NoMemory, Wait, WaitKind, Waits, tetra_bytes};

/// The reference of an instruction as a list.
fn tetra_waits(env: &Env, line: u32, wait: Option<(Awaited, WaitKind)>) -> Result<Waits, NoMemory>
    ensures { IfOk result (λ waits. waits ≡ spec.tetra_waits line env.now.at wait) }
{
    let mut waits = Waits::new(env.alloc);
    if let Some((who, kind)) = wait {
        waits.push(Wait {
            who,
            at: env.at,
            line,
            kind,
        })?;
    }
    Ok(waits)
}

/// An instruction as bytes and references.
fn tetra_data(env: &Env, line: u32, tetra: Tetra) -> Result<Data, NoMemory>
    ensures { IfOk result (λ content. content ≡ spec.tetra_data line env.now.at tetra) }
{
    let bytes = Bytes::copy(env.alloc, &tetra_bytes(tetra.word))?;
    let waits = tetra_waits(env, line, tetra.wait)?;
    Ok(Data { bytes, waits })
}

/// The tetra of an instruction at the place.
fn with_tetra(
    env: &Env,
    line: u32,
    label: &Option<Label>,
    tetra: Tetra,
) -> Result<Placed, StmtFault>
    ensures placed { Answers result (spec.with_tetra (known_of env.now) line label.now (Ok tetra)) }
    ensures effect { IfOk result (λ placed. spec.IsPossible env.now.gregs.now placed.effect) }
{
    let data = tetra_data(env, line, tetra)?;
    with_bytes(env, label, data)
}

/// Data of a size at the place.
fn with_data(
    env: &Env,
    line: u32,
    label: &Option<Label>,
    size: Size,
    operands: &[Expr],
) -> Result<Placed, StmtFault>
    requires { OperandsHaveDigits operands.now }
    ensures placed { Answers result (
        spec.with_data (known_of env.now) label.now
        (data_form no_targets (known_of env.now) line (size_bytes size) (trees_of operands.now))) }
    ensures effect { IfOk result (λ placed. spec.IsPossible env.now.gregs.now placed.effect) }
{
    let data = data_form(env, line, size, operands)?;
    with_bytes(env, label, data)
}

/// A pseudo-operation.
fn pseudo_form(
    env: &Env,
    line: u32,
    label: &Option<Label>,
    pseudo: Pseudo,
    operands: &[Expr],
) -> Result<Placed, StmtFault>
    requires { OperandsHaveDigits operands.now }
    ensures placed { Answers result (
        spec.pseudo_form no_targets (known_of env.now) line label.now pseudo (trees_of operands.now)) }
    ensures effect { IfOk result (λ placed. spec.IsPossible env.now.gregs.now placed.effect) }
{
    match pseudo {
        Pseudo::Byte => with_data(env, line, label, Size::Byte, operands),
        Pseudo::Wyde => with_data(env, line, label, Size::Wyde, operands),
        Pseudo::Tetra => with_data(env, line, label, Size::Tetra, operands),
        Pseudo::Octa => with_data(env, line, label, Size::Octa, operands),
        _ => one_operand(env, label, pseudo, operands),
    }
}

/// An instruction, LDA or SET as a tetra, or a pseudo-operation.
fn op_form(
    env: &Env,
    line: u32,
    label: &Option<Label>,
    op: Op,
    operands: &[Expr],
) -> Result<Placed, StmtFault>
    requires { OperandsHaveDigits operands.now }
    ensures placed { Answers result (
        spec.op_form no_targets (known_of env.now) line label.now op (trees_of operands.now)) }
    ensures effect { IfOk result (λ placed. spec.IsPossible env.now.gregs.now placed.effect) }
{
    let tetra = match op {
        Op::Pseudo(pseudo) => return pseudo_form(env, line, label, pseudo, operands),
        Op::Code(code) => encode_instruction(env, code, operands)?,
        Op::Lda => instruction(env, Shape::Mem, 0x22, operands)?,
        Op::Set => set_form(env, operands)?,
    };
    with_tetra(env, line, label, tetra)
}

/// The multiple to which the place is raised before a statement.
fn alignment(op: Op) -> u64
    ensures multiple { result ≡ spec.alignment op }
    ensures least { 1 ≤ result }
{
    match op {
        Op::Pseudo(Pseudo::Wyde) => 2,
        Op::Pseudo(Pseudo::Tetra) => 4,
        Op::Pseudo(Pseudo::Octa) => 8,
        Op::Pseudo(_) => 1,
        Op::Code(_) | Op::Lda | Op::Set => 4,
    }
}

/// The place raised to a multiple, modulo 2^64.
fn place_at(multiple: u64, at: u64) -> u64
    requires { 1 ≤ multiple }
    ensures { result ≡ spec.place_at multiple at }
{
    let place = u128::from(at).div_ceil(u128::from(multiple)) * u128::from(multiple);
    (place & 0xffff_ffff_ffff_ffff) as u64
}

/// What a statement places, with zero for each future reference, and these references in order; its
/// label's value, its effect and the next place. The environment has the place before the
/// statement; the operands and the label see it aligned. The local labels in its operands have one
/// digit, as those of `read_statement` have.
///
/// It is refused with the first fault of the operands, one after another, and then with the first of
/// NotMultiple, TooFar, NoBase, TooManyGregs and BadPlace.
pub fn encode(s: &Statement, env: &Env) -> Result<Placed, StmtFault>
    requires { OperandsHaveDigits s.now.operands }
    ensures placed { Answers result (spec.encoding no_targets (known_of env.now) (spec.statement_tree s.now)) }
    ensures effect { IfOk result (λ placed. spec.IsPossible env.now.gregs.now placed.effect) }
{
    let env = Env {
        at: place_at(alignment(s.op), env.at),
        ..*env
    };
    op_form(&env, s.line, &s.label, s.op, s.operands.as_slice())
}
