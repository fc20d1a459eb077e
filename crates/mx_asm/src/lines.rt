//! The statements of a line, one after another.

ghost use Rattle.std.specs.Prelude.{◌≡◌, ◌≢◌, ◌+◌, ◌<◌, ◌≤◌, ◌++◌, Result, Ok, Err, IfOk, IfErr, OnOk};
ghost use Rattle.std.specs.Prelude.{true, false, length};
ghost use Rattle.std.specs.Prelude.{map};
ghost use Rattle.mx_word.specs.Results.{map_ok};
ghost use Rattle.mx_line.specs.Source.{item_of};
ghost use Rattle.mx_stmt.specs.Encoding.{statement_tree};
ghost use Rattle.mx_stmt.specs.Reading.{CutWithin, StatementHasDigits};
ghost use Rattle.mx_asm.specs.Entries as entries;
ghost use Rattle.mx_asm.specs.Faults.{is_early, no_memory};
ghost use Rattle.mx_asm.specs.Fitting.{AreFit, GrowsFit};
ghost use Rattle.mx_asm.specs.Fronts.{IsFront};
ghost use Rattle.mx_asm.specs.OnePass as spec;

use crate::assembly::Assembly;
use crate::{AsmFault, Refused};
use mx_line::{Cut, next_statement};
use mx_mmo::Items;
use mx_stmt::{Statement, StmtFault, read_statement};
use mx_word::NoMemory;
use std::alloc::Global;

/// Adds items to others. Where there is no memory, a front of them is added.
#[tactic(auto, using(crate::proofs::Fitting::growing))]
fn append(out: &mut Items, items: Items) -> Result<(), NoMemory>
    ensures all { OnOk result (out.new ≡ out.old ++ items) }
    ensures front { IsFront out.new (out.old ++ items) }
    ensures fits { AreFit items → GrowsFit out.old out.new }
{
    for item in items.into_vec() {
        out.push(item)?;
    }
    Ok(())
}

/// The statement that was cut from a line with this number.
#[tactic(auto, using(crate::proofs::ReadEntries::reads))]
fn read(alloc: Global, text: &[u8], cut: &Cut, line: u32) -> Result<Statement, Refused>
    requires { CutWithin (length text.now) cut.now }
    ensures entry { result ≢ Err no_memory →
        map_ok statement_tree result ≡ entries.entry_of (item_of line text.now (Ok cut.now)) }
    ensures digits { IfOk result StatementHasDigits }
{
    match read_statement(alloc, text, cut, line) {
        Ok(s) => Ok(s),
        Err(StmtFault::OutOfMemory) => Err(Refused::no_memory()),
        Err(fault) => Err(Refused::at(line, AsmFault::Stmt(fault))),
    }
}

/// Takes the statement that was cut from a line with this number, and adds its items.
#[tactic(auto, using(crate::proofs::Fronts::fronts, crate::proofs::Fitting::growing))]
fn take_cut(
    alloc: Global,
    assembly: &mut Assembly,
    out: &mut Items,
    text: &[u8],
    cut: &Cut,
    line: u32,
) -> Result<(), Refused>
    requires { CutWithin (length text.now) cut.now }
    ensures taken { result ≢ Err no_memory → (out.new, spec.status_after result assembly.new) ≡
        spec.cut_taken line text.now cut.now out.old assembly.old }
    ensures front { IsFront out.new (spec.cut_taken line text.now cut.now out.old assembly.old).0 }
    ensures early { IfErr result (λ refused. is_early refused.fault ≡ true → assembly.new ≡ assembly.old) }
    ensures fits { GrowsFit out.old out.new }
{
    let statement = read(alloc, text, cut, line)?;
    let items = assembly.take(&statement)?;
    append(out, items)?;
    Ok(())
}

/// What a line is line_answer that is refused at a place: nothing of it was taken where the fault is an
/// early one of its first statement.
fn refuse_at(at: usize, refused: Refused) -> Result<Result<(), Refused>, Refused>
    ensures answer { spec.line_answer result ≡ Err refused }
    ensures first { IfOk result (λ answer. (at ≡ 0) × (is_early refused.fault ≡ true)) }
{
    match at {
        0 if refused.fault.is_early() => Ok(Err(refused)),
        _ => Err(refused),
    }
}

/// Takes the statements of a line with this number; none of them where a refusal is within an `Ok`.
#[tactic(auto, using(crate::proofs::Fronts::entering, crate::proofs::Fitting::growing))]
pub(crate) fn take_statements(
    alloc: Global,
    assembly: &mut Assembly,
    out: &mut Items,
    text: &[u8],
    line: u32,
) -> Result<Result<(), Refused>, Refused>
    ensures taken { spec.line_answer result ≢ Err no_memory → (out.new, spec.status_after (spec.line_answer result) assembly.new) ≡
        spec.entries_taken (entries.line_entries line text.now) out.old assembly.old }
    ensures kept { IfOk result (λ answer. IfErr answer (λ refused. assembly.new ≡ assembly.old)) }
    ensures front { IsFront out.new (spec.entries_taken (entries.line_entries line text.now) out.old assembly.old).0 }
    ensures sparing { entries.holds_statement text.now ≡ false → spec.line_answer result ≢ Err no_memory }
    ensures fits { GrowsFit out.old out.new }
{
    let mut at = 0;
    'statements: loop {
        match next_statement(text, at) {
            Ok(None) => return Ok(Ok(())),
            Err(fault) => return refuse_at(at, Refused::at(line, AsmFault::Line(fault))),
            Ok(Some(cut)) => {
                if let Err(refused) = take_cut(alloc, assembly, out, text, &cut, line) {
                    return refuse_at(at, refused);
                }
                at = cut.next;
            }
        }
    }
}
