//! The tetras that each line of a source loads.

ghost use Rattle.std.specs.Prelude.{◌≡◌, ◌++◌, ◌∷◌, [], Ok, IfOk, OnOk};
ghost use Rattle.mx_asm.specs.OnePass.{beginning};
ghost use Rattle.mx_line.specs.Lines.{lines_of};
ghost use Rattle.mx_type.specs.Lambda as lambdas;
ghost use Rattle.mx_view.specs.InTurn as turns;
ghost use Rattle.mx_view.specs.Loads as spec;

use crate::cells::{Cells, Wanted, cells_of, lambda_following};
use mx_asm::Assembler;
use mx_line::cut_line;
use mx_mmo::Items;
use mx_walk::take_line;
use mx_word::{NoMemory, Sequence};
use std::alloc::Global;

/// Lists of tetras, one for each line.
pub type LineCells = Sequence<Cells>;

/// Takes a line, adds the tetras that it loads, and moves lambda.
fn add_load(
    alloc: Global,
    assembler: &mut Assembler,
    loads: &mut LineCells,
    lambda: &mut u64,
    line: &[u8],
) -> Result<(), NoMemory>
    ensures load { OnOk result (
        loads.new ≡ loads.old ++ spec.load_at lambda.old assembler.old line.now ∷ []) }
    ensures lambda { OnOk result (
        lambda.new ≡ lambdas.lambda_following lambda.old (turns.items_at assembler.old line.now)) }
    ensures status { OnOk result (assembler.new ≡ turns.status_at assembler.old line.now) }
{
    let mut items = Items::new(alloc);
    take_line(assembler, &mut items, line)?;
    let cells = cells_of(alloc, Wanted::All, *lambda, items.as_slice())?;
    loads.push(cells)?;
    *lambda = lambda_following(*lambda, items.as_slice());
    Ok(())
}

/// Adds the tetras of the lines of a source.
#[tactic(auto, using(crate::proofs::LineLoads::turns))]
fn add_loads(
    alloc: Global,
    assembler: &mut Assembler,
    loads: &mut LineCells,
    source: &[u8],
) -> Result<(), NoMemory>
    ensures { OnOk result (
        loads.new ≡ loads.old ++ spec.loads_in_turn 0 assembler.old (lines_of source.now)) }
{
    let mut rest = source;
    let mut lambda = 0;
    while !rest.is_empty() {
        let (line, others) = cut_line(rest);
        add_load(alloc, assembler, loads, &mut lambda, line)?;
        rest = others;
    }
    Ok(())
}

/// The tetras that each line of a source loads, line after line. A line after one that is refused loads none.
#[tactic(auto, using(crate::proofs::LineLoads::whole))]
pub fn cells_by_line(alloc: Global, source: &[u8]) -> Result<LineCells, NoMemory>
    ensures { IfOk result (λ loads. loads ≡ spec.loads_of source.now) }
{
    let mut assembler = Assembler::new(alloc)?;
    let mut loads = LineCells::new(alloc);
    add_loads(alloc, &mut assembler, &mut loads, source)?;
    Ok(loads)
}
