//! The tetras that a program loads, and the lines that they come from.

ghost use Rattle.std.specs.Prelude.{◌≡◌, ◌++◌, IfOk, OnOk, map};
ghost use Rattle.std.specs.List.{flat_map};
ghost use Rattle.mx_book.specs.Loads as spec;

use mx_object::ListedTetra;
use mx_ops::{Op, find};
use mx_slips::{SourceLine, Statement};
use mx_view::Cell;
use mx_word::{Bytes, NoMemory, Sequence};
use std::alloc::Global;

/// A tetra that a program loads: its address, a multiple of 4, the number of the line that it came from, or 0 where that is
/// not known, and whether it is an instruction.
#[derive(Clone, Copy)]
pub struct Load {
    pub address: u64,
    pub line: u32,
    pub is_code: bool,
}

/// A list of such tetras.
pub type Loads = Sequence<Load>;

/// Whether a statement is an instruction.
fn is_instruction(statement: &Statement) -> bool
    ensures { result ≡ spec.is_instruction statement.now }
{
    match find(statement.op.text.as_slice()) {
        None | Some(Op::Pseudo(_)) => false,
        Some(Op::Code(_) | Op::Lda | Op::Set) => true,
    }
}

/// Whether a line has an instruction.
fn has_code(line: &SourceLine) -> bool
    ensures { result ≡ spec.has_code line.now }
{
    let statements = line.statements.as_slice();
    statements.iter().any(|statement| is_instruction(statement))
}

/// Adds the tetras of a line with this number.
fn add_cells(loads: &mut Loads, number: u32, is_code: bool, cells: &[Cell]) -> Result<(), NoMemory>
    ensures { OnOk result (loads.new ≡ loads.old ++ map (spec.load_with number is_code) cells.now) }
{
    for cell in cells {
        loads.push(Load {
            address: cell.address,
            line: number,
            is_code,
        })?;
    }
    Ok(())
}

/// Adds the tetras that a line of a source loads.
fn add_line(loads: &mut Loads, line: &SourceLine) -> Result<(), NoMemory>
    ensures { OnOk result (loads.new ≡ loads.old ++ spec.line_loads line.now) }
{
    add_cells(loads, line.number, has_code(line), line.cells.as_slice())
}

/// The tetras that the lines of a source load.
pub(crate) fn source_loads(alloc: Global, lines: &[SourceLine]) -> Result<Loads, NoMemory>
    ensures { IfOk result (λ loads. loads ≡ flat_map spec.line_loads lines.now) }
{
    let mut loads = Loads::new(alloc);
    for line in lines {
        add_line(&mut loads, line)?;
    }
    Ok(loads)
}

/// The texts of the lines of a source.
pub(crate) fn texts_of(alloc: Global, lines: &[SourceLine]) -> Result<Sequence<Bytes>, NoMemory>
    ensures { IfOk result (λ texts. texts ≡ map spec.text_of lines.now) }
{
    let mut texts = Sequence::new(alloc);
    for line in lines {
        texts.push(Bytes::copy(alloc, line.text.as_slice())?)?;
    }
    Ok(texts)
}

/// The first address of the data segment.
const DATA_SEGMENT: u64 = 1 << 61;

/// A tetra of an object, which is an instruction where it is before the data segment.
fn load_of(tetra: &ListedTetra) -> Load
    ensures { result ≡ spec.load_of tetra.now }
{
    Load {
        address: tetra.address,
        line: tetra.line.unwrap_or(0),
        is_code: tetra.address < DATA_SEGMENT,
    }
}

/// The tetras that an object loads.
pub(crate) fn object_loads(alloc: Global, tetras: &[ListedTetra]) -> Result<Loads, NoMemory>
    ensures { IfOk result (λ loads. loads ≡ map spec.load_of tetras.now) }
{
    let mut loads = Loads::new(alloc);
    for tetra in tetras {
        loads.push(load_of(tetra))?;
    }
    Ok(loads)
}
