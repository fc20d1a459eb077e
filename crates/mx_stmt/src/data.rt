//! The operands of BYTE, WYDE, TETRA and OCTA.

ghost use Rattle.std.specs.Prelude.{◌≡◌, ◌≢◌, ◌≤◌, ◌<◌, ◌++◌, ◌+◌, OnOk, ℕ};
ghost use Rattle.mx_expr.specs.Tree.{tree_of, trees_of, HasDigits};
ghost use Rattle.mx_stmt.specs.Data as spec;
ghost use Rattle.mx_stmt.specs.Operands.{known_of, no_targets};
ghost use Rattle.mx_stmt.specs.Reading.{OperandsHaveDigits};
ghost use Rattle.mx_stmt.specs.Steps.{Answers};

use crate::operands::{Target, pure_at, target_at};
use crate::{Env, StmtFault};
use mx_expr::Expr;
use mx_word::{Bytes, NoMemory, Wait, WaitKind, Waits, octa_bytes};
use std::alloc::Global;

/// What operands place: bytes, and the references in them.
#[derive(Drop)]
pub(crate) struct Data {
    pub(crate) bytes: Bytes,
    pub(crate) waits: Waits,
}

/// The size of a datum: 1, 2, 4 or 8 bytes.
#[derive(Clone, Copy)]
pub(crate) enum Size {
    Byte,
    Wyde,
    Tetra,
    Octa,
}

impl Size {
    /// The number of bytes.
    pub(crate) fn bytes(self) -> usize
        ensures { result ≡ spec.size_bytes self }
    {
        match self {
            Size::Byte => 1,
            Size::Wyde => 2,
            Size::Tetra => 4,
            Size::Octa => 8,
        }
    }

    /// A number that fits in this many bytes, as it is or as a negative number modulo 2^64.
    fn number(self, n: u64) -> Result<u64, StmtFault>
        ensures { result ≡ spec.data_number (spec.size_bytes self) n }
    {
        let fits = match self {
            Size::Byte => n < 1 << 8 || n >= 0xffff_ffff_ffff_ff80,
            Size::Wyde => n < 1 << 16 || n >= 0xffff_ffff_ffff_8000,
            Size::Tetra => n < 1 << 32 || n >= 0xffff_ffff_8000_0000,
            Size::Octa => true,
        };
        if fits { Ok(n) } else { Err(StmtFault::Fit) }
    }
}

impl Data {
    /// Nothing.
    fn new(alloc: Global) -> Data
        ensures { result ≡ spec.no_data }
    {
        Data {
            bytes: Bytes::new(alloc),
            waits: Waits::new(alloc),
        }
    }

    /// Adds what an operand places at an address.
    fn push(&mut self, line: u32, size: Size, place: u64, target: Target) -> Result<(), NoMemory>
        ensures { OnOk result (
            self.new ≡ spec.joined_data self.old (spec.datum no_targets line (spec.size_bytes size) place target)) }
    {
        match target {
            Target::Known(n) => self.bytes.extend(&octa_bytes(n)[8 - size.bytes()..]),
            Target::Future(who) => {
                self.bytes.extend(&[0; 8])?;
                self.waits.push(Wait {
                    who,
                    at: place,
                    line,
                    kind: WaitKind::Octa,
                })
            }
        }
    }
}

/// An operand of this size; that of OCTA may be a future reference.
fn data_target(env: &Env, size: Size, e: &Expr) -> Result<Target, StmtFault>
    requires { HasDigits (tree_of e.now) }
    ensures { Answers result (spec.data_target (known_of env.now) (spec.size_bytes size) (tree_of e.now)) }
{
    match size {
        Size::Octa => target_at(env, e),
        _ => {
            let n = pure_at(env, e)?;
            let n = size.number(n)?;
            Ok(Target::Known(n))
        }
    }
}

/// The bytes and the references of operands of this size.
pub(crate) fn data_form(
    env: &Env,
    line: u32,
    size: Size,
    operands: &[Expr],
) -> Result<Data, StmtFault>
    requires { OperandsHaveDigits operands.now }
    ensures { Answers result (
        spec.data_form no_targets (known_of env.now) line (spec.size_bytes size) (trees_of operands.now)) }
{
    if operands.is_empty() {
        return Err(StmtFault::Operands);
    }
    let mut data = Data::new(env.alloc);
    let mut place = env.at;
    for e in operands {
        let target = data_target(env, size, e)?;
        data.push(line, size, place, target)?;
        place = place.wrapping_add(size.bytes() as u64);
    }
    Ok(data)
}
