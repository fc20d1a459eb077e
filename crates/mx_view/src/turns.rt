//! The lines of a source, taken one after another.

ghost use Rattle.std.specs.Prelude.{◌≡◌, ◌++◌, true, IfOk, OnOk};
ghost use Rattle.std.specs.Result.{is_ok};
ghost use Rattle.mx_line.specs.Lines.{lines_of};
ghost use Rattle.mx_type.specs.Lambda as lambdas;
ghost use Rattle.mx_view.specs.InTurn as spec;
ghost use Rattle.mx_view.specs.Rows.{meaning_in};

use crate::cells::{Wanted, cells_of, lambda_following};
use crate::lines::{ListedLines, Meaning, add_listed};
use mx_asm::Assembler;
use mx_line::cut_line;
use mx_mmo::Items;
use mx_walk::take_line;
use mx_word::NoMemory;
use std::alloc::Global;

/// Takes a line with this number, adds it if it is listed, and moves lambda. Whether it was taken and not refused.
fn add_line(
    alloc: Global,
    assembler: &mut Assembler,
    lines: &mut ListedLines,
    meaning: &Meaning,
    wanted: Wanted,
    number: u32,
    lambda: &mut u64,
    line: &[u8],
) -> Result<bool, NoMemory>
    ensures listed { OnOk result (lines.new ≡ lines.old
        ++ spec.listed_at (meaning_in meaning.now) wanted number lambda.old assembler.old line.now) }
    ensures lambda { OnOk result (
        lambda.new ≡ lambdas.lambda_following lambda.old (spec.items_at assembler.old line.now)) }
    ensures status { OnOk result (assembler.new ≡ spec.status_at assembler.old line.now) }
    ensures open { IfOk result (λ is. is ≡ is_ok assembler.new) }
{
    let mut items = Items::new(alloc);
    let open = take_line(assembler, &mut items, line)?;
    let cells = cells_of(alloc, wanted, *lambda, items.as_slice())?;
    add_listed(
        alloc,
        lines,
        meaning,
        wanted,
        number,
        line,
        cells.as_slice(),
    )?;
    *lambda = lambda_following(*lambda, items.as_slice());
    Ok(open)
}

/// Takes the lines of a source up to one that is refused, and adds those that are listed.
#[tactic(auto, using(crate::proofs::LineTurns::turns))]
pub(crate) fn add_lines(
    alloc: Global,
    assembler: &mut Assembler,
    lines: &mut ListedLines,
    meaning: &Meaning,
    wanted: Wanted,
    source: &[u8],
) -> Result<(), NoMemory>
    requires open { is_ok assembler.old ≡ true }
    ensures listed { OnOk result (lines.new ≡ lines.old
        ++ spec.listed_in_turn (meaning_in meaning.now) wanted 1 0 assembler.old (lines_of source.now)) }
    ensures status { OnOk result (
        assembler.new ≡ spec.status_after_lines assembler.old (lines_of source.now)) }
{
    let mut rest = source;
    let mut number = 1u32;
    let mut lambda = 0;
    while !rest.is_empty() {
        let (line, others) = cut_line(rest);
        let open = add_line(
            alloc,
            assembler,
            lines,
            meaning,
            wanted,
            number,
            &mut lambda,
            line,
        )?;
        if !open {
            return Ok(());
        }
        number = match number.checked_add(1) {
            Some(next) => next,
            None => return Err(NoMemory),
        };
        rest = others;
    }
    Ok(())
}
