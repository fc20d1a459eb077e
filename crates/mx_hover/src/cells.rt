//! The tetras that a line loads, as an editor is told of them.

ghost use Rattle.std.specs.Prelude.{◌≡◌, ◌++◌, OnOk, take};
ghost use Rattle.std.specs.List.{flat_map};
ghost use Rattle.mx_explain.specs.Facts as facts;
ghost use Rattle.mx_text.specs.Instructions.{field_code};
ghost use Rattle.mx_hover.specs.Loads as spec;

use mx_costs::{mems, oops};
use mx_ops::Op;
use mx_text::{add_decimal, instruction, octa_hex, tetra_hex};
use mx_view::{Cell, ListedLine};
use mx_word::{Bytes, NoMemory};
use std::alloc::Global;

/// How many tetras of a line are told.
const MOST: usize = 16;

/// The code of a tetra.
fn code_of(tetra: u32) -> u8
    ensures { result ≡ field_code tetra }
{
    (tetra >> 24) as u8
}

/// Adds a number of υ.
fn add_oops(text: &mut Bytes, oops: u64) -> Result<(), NoMemory>
    ensures { OnOk result (text.new ≡ text.old ++ facts.oops_text oops) }
{
    add_decimal(text, oops)?;
    text.extend("υ".as_bytes())
}

/// Adds a number of μ, if it is not 0.
fn add_mems(text: &mut Bytes, mems: u64) -> Result<(), NoMemory>
    ensures { OnOk result (text.new ≡ text.old ++ facts.mems_text mems) }
{
    if mems == 0 {
        return Ok(());
    }
    text.extend(b" + ")?;
    add_decimal(text, mems)?;
    text.extend("μ".as_bytes())
}

/// Adds what an instruction costs.
#[tactic(auto, unfolding(crate::specs::Loads::cost))]
fn add_cost(text: &mut Bytes, code: u8) -> Result<(), NoMemory>
    ensures { OnOk result (text.new ≡ text.old ++ spec.cost code) }
{
    text.extend(b"  ")?;
    add_oops(text, oops(code, false))?;
    add_mems(text, mems(code))
}

/// Whether an operation makes instructions.
pub(crate) fn is_instruction(op: Option<Op>) -> bool
    ensures { result ≡ spec.is_instruction op }
{
    match op {
        None => false,
        Some(Op::Pseudo(_)) => false,
        Some(_) => true,
    }
}

/// Adds a tetra as an instruction.
#[tactic(auto, unfolding(crate::specs::Loads::instruction_of))]
fn add_instruction(alloc: Global, text: &mut Bytes, cell: Cell) -> Result<(), NoMemory>
    ensures { OnOk result (text.new ≡ text.old ++ spec.instruction_of cell) }
{
    let shown = instruction(alloc, cell.tetra, cell.address)?;
    text.extend(b"  ")?;
    text.extend(shown.as_slice())?;
    add_cost(text, code_of(cell.tetra))
}

/// Adds a tetra as an instruction, if it is one.
fn add_instruction_if(
    alloc: Global,
    text: &mut Bytes,
    cell: Cell,
    is_code: bool,
) -> Result<(), NoMemory>
    ensures { OnOk result (text.new ≡ text.old ++ spec.instruction_if is_code cell) }
{
    if is_code {
        add_instruction(alloc, text, cell)
    } else {
        Ok(())
    }
}

/// Adds a tetra that a line loads: its address, its bytes, and its instruction, if it is one.
#[tactic(auto, unfolding(crate::specs::Loads::cell_text))]
fn add_cell(alloc: Global, text: &mut Bytes, cell: Cell, is_code: bool) -> Result<(), NoMemory>
    ensures { OnOk result (text.new ≡ text.old ++ spec.cell_text is_code cell) }
{
    text.extend(&octa_hex(cell.address))?;
    text.extend(b": ")?;
    text.extend(&tetra_hex(cell.tetra))?;
    add_instruction_if(alloc, text, cell, is_code)?;
    text.extend(b"\n")
}

/// The first tetras of a line.
#[tactic(auto, using(crate::proofs::Fronts::fronts))]
fn first_cells(cells: &[Cell]) -> &[Cell]
    ensures { result.now ≡ take 16 cells.now }
{
    if cells.len() > MOST {
        &cells[..MOST]
    } else {
        cells
    }
}

/// Adds tetras.
fn add_cells(alloc: Global, text: &mut Bytes, cells: &[Cell], is_code: bool) -> Result<(), NoMemory>
    ensures { OnOk result (text.new ≡ text.old ++ flat_map (spec.cell_text is_code) cells.now) }
{
    for cell in cells {
        add_cell(alloc, text, *cell, is_code)?;
    }
    Ok(())
}

/// Adds what a line loads, if it has this number.
fn add_line(
    alloc: Global,
    text: &mut Bytes,
    number: u32,
    line: &ListedLine,
    is_code: bool,
) -> Result<(), NoMemory>
    ensures { OnOk result (text.new ≡ text.old ++ spec.line_loads is_code number line.now) }
{
    if line.number == number {
        return add_cells(alloc, text, first_cells(line.cells.as_slice()), is_code);
    }
    Ok(())
}

/// Adds what the line of this number loads.
pub(crate) fn add_loads(
    alloc: Global,
    text: &mut Bytes,
    lines: &[ListedLine],
    number: u32,
    is_code: bool,
) -> Result<(), NoMemory>
    ensures { OnOk result (text.new ≡ text.old ++ spec.loads is_code number lines.now) }
{
    for line in lines {
        add_line(alloc, text, number, line, is_code)?;
    }
    Ok(())
}
