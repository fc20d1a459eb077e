//! Operand fields are read into lists of expressions.

ghost use Rattle.std.specs.Prelude.{◌≡◌, ◌≢◌, List, [], Ok, Err, IfOk, IfErr};
ghost use Rattle.std.specs.List.{All};
ghost use Rattle.mx_expr.specs.declared.faults.ExprFault.{ExprFault};
ghost use Rattle.mx_expr.specs.Tree.{ReadsAs, Tree, tree_of, trees_of, HasDigits};
ghost use Rattle.mx_expr.specs.Reading.{reading};
ghost use Rattle.mx_expr.specs.Spelling.{IsList, Spells, Faultless, IsFirst};

use crate::reader::{Mode, Reader};
use crate::{Expr, ExprFault, Exprs};
use std::alloc::Global;

/// Reads an operand field (MMIXware, "MMIXAL", expressions) into the list of expressions that it spells. A
/// string means its bytes, and an empty field for `0`.
///
/// Where the field is not spelled as a list, or passes a bound, the answer is its first fault from
/// the left: `Syntax` where no list is spelled, at the last byte of the shortest front that begins
/// none, or at the end; `TooWide`, `TooDeep` and `EmptyString` at the first byte of the constant,
/// the parenthesis and the string. At one place `Syntax` comes first.
pub fn parse_list(alloc: Global, field: &[u8]) -> Result<Exprs, ExprFault>
    ensures list { IfOk result (λ es. IsList field.now (trees_of es)) }
    ensures spelled { (list : List Tree) → Spells field.now list → Faultless field.now → ReadsAs result (Ok list) }
    ensures fault { IfErr result (λ f. f ≢ ExprFault.OutOfMemory → IsFirst field.now f) }
    ensures first { (f : ExprFault) → IsFirst field.now f → ReadsAs result (Err f) }
    ensures digits { IfOk result (λ es. All (λ e. HasDigits (tree_of e)) es) }
{
    read(alloc, field)
}

/// The list of a field, or its first fault.
#[tactic(auto, using(crate::proofs::StepLaws::bytes))]
fn read(alloc: Global, field: &[u8]) -> Result<Exprs, ExprFault>
    ensures { ReadsAs result (reading field.now) }
{
    if field.is_empty() {
        return zero(alloc);
    }
    let mut reader = Reader::new(alloc);
    let mut mode = Mode::Operand;
    for b in field {
        mode = match reader.step(mode, *b) {
            Ok(next) => next,
            Err(fault) => return Err(fault),
        };
    }
    reader.finish(mode)
}

/// The list of an empty field.
fn zero(alloc: Global) -> Result<Exprs, ExprFault>
    ensures { ReadsAs result (reading []) }
{
    let mut list = Exprs::new(alloc);
    list.push(Expr::Number(0))?;
    Ok(list)
}
