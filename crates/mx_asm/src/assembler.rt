//! The assembler, which takes one line after another.

ghost use Rattle.std.specs.Prelude.{◌≡◌, ◌≢◌, ◌+◌, ◌<◌, ◌≤◌, ◌^◌, ◌++◌, ◌∷◌, ℕ, List, [], Bool, true, false, Result};
ghost use Rattle.std.specs.Prelude.{Ok, Err, IfOk, IfErr, OnOk, OnErr, length};
ghost use Rattle.mx_word.specs.Results.{map_ok};
ghost use Rattle.mx_asm.specs.Faults.{IsTold, no_memory};
ghost use Rattle.mx_asm.specs.Fitting.{AreFit, AreWritable, GrowsFit, IsPadded};
ghost use Rattle.mx_asm.specs.Fronts.{IsFront};
ghost use Rattle.mx_asm.specs.Entries.{holds_statement};
ghost use Rattle.mx_asm.specs.OnePass as spec;
ghost use Rattle.mx_asm.specs.Whole.{AddsEnd, AddsLine, HasTaken, OnTaken, assembled_lines, lines_items};

use crate::Refused;
use crate::assembly::Assembly;
use crate::lines::take_statements;
use mx_mmo::Items;
use mx_word::{Bytes, NoMemory};
use std::alloc::Global;
use std::marker::Model;

/// The assembler: a source goes in line by line, and the items of its object come out (MMIXware,
/// "MMIXAL"). Each statement's items come with its line; a reference to what a later statement
/// defines is set right by a record when that comes.
#[derive(Drop)]
pub struct Assembler {
    alloc: Global,
    assembly: Assembly,
    refused: Option<Refused>,
}

impl Model for Assembler {
    ghost use Rattle.std.specs.Option.{IfSome};
    ghost use Rattle.mx_asm.specs.Faults.{IsTold};
    ghost use Rattle.mx_asm.specs.OnePass.{Status, status_unless};

    ghost Value = { Status };

    ghost view = { λ a. status_unless a.assembly a.refused };

    ghost invariant = { λ a. IfSome a.refused IsTold };
}

impl Assembler {
    /// Before the first line.
    #[tactic(auto, using(crate::proofs::InTurn::turns))]
    pub fn new(alloc: Global) -> Result<Assembler, NoMemory>
        ensures start { IfOk result (λ a. a ≡ Ok spec.beginning) }
        ensures none { IfOk result (λ a. HasTaken [] a) }
    {
        Ok(Assembler {
            alloc,
            assembly: Assembly::new(alloc)?,
            refused: None,
        })
    }

    /// Takes the next line, a text without a newline byte, and adds the items of its statements to any
    /// list: what is there stays, out of memory too. The first call of `line`, `try_line` or `finish`
    /// adds what is first in an object. After a refusal every later call answers it again, and the
    /// items that were added are those of the statements before the faulty one. From `new` on, items and
    /// refusals are those of two passes over the lines so far. After a line that was taken, one that holds
    /// no statement takes no memory.
    #[tactic(auto, using(crate::proofs::Fitting::grown, crate::proofs::Fronts::fronts))]
    pub fn line(&mut self, text: &[u8], out: &mut Items) -> Result<(), Refused>
        ensures answer { result ≡ map_ok (λ _. tt) self.new }
        ensures taken { result ≢ Err no_memory → (out.new, self.new) ≡ spec.line_following out.old self.old text.now }
        ensures lines { OnTaken self.old
            (λ lines. result ≢ Err no_memory → HasTaken (lines ++ text.now ∷ []) self.new) }
        ensures items { OnTaken self.old
            (λ lines. result ≢ Err no_memory → AddsLine lines text.now out.old out.new) }
        ensures open { OnOk result (spec.is_open self.new ≡ true) }
        ensures told { IfErr result IsTold }
        ensures sparing { spec.is_open self.old ≡ true → holds_statement text.now ≡ false → result ≢ Err no_memory }
        ensures front { IsFront out.old out.new × IsFront out.new (spec.line_following out.old self.old text.now).0 }
        ensures fits { AreFit out.old → AreFit out.new }
        ensures refusal_again { OnErr self.old ((out.new ≡ out.old) × (self.new ≡ self.old)) }
    {
        match self.try_line(text, out) {
            Ok(Ok(())) => Ok(()),
            Ok(Err(refused)) => {
                self.refused = Some(refused);
                Err(refused)
            }
            Err(refused) => Err(refused),
        }
    }

    /// Takes the next line as `line` does. A refusal within an `Ok` leaves the line out: the assembler is as
    /// it was, but that what is first in an object was added. Such is each refusal for an early fault of
    /// the first statement of a line, or for too many bytes. Any other one stays.
    #[tactic(auto, using(crate::proofs::Fitting::grown, crate::proofs::Fronts::fronts))]
    pub fn try_line(&mut self, text: &[u8], out: &mut Items) -> Result<Result<(), Refused>, Refused>
        ensures taken { spec.TriesLine result out.old out.new self.old self.new text.now }
        ensures kept { IfOk result (λ answer. IfErr answer (λ refused. self.new ≡ map_ok spec.opened self.old)) }
        ensures stays { IfErr result (λ refused. self.new ≡ Err refused) }
        ensures open { OnOk (spec.line_answer result) (spec.is_open self.new ≡ true) }
        ensures told { IfErr (spec.line_answer result) IsTold }
        ensures sparing { spec.is_open self.old ≡ true → holds_statement text.now ≡ false → spec.line_answer result ≢ Err no_memory }
        ensures front { IsFront out.old out.new × IsFront out.new (spec.line_following out.old self.old text.now).0 }
        ensures fits { AreFit out.old → AreFit out.new }
        ensures refusal_again { OnErr self.old ((out.new ≡ out.old) × (self.new ≡ self.old)) }
        ensures closed { IfErr self.old (λ refused. result ≡ Err refused) }
    {
        if let Some(refused) = self.refused {
            return Err(refused);
        }
        let tried = take_line(self.alloc, &mut self.assembly, out, text);
        if let Err(refused) = tried {
            self.refused = Some(refused);
        }
        tried
    }

    /// Ends the source: adds the global registers to any list, which keeps what it has, and gives the
    /// symbol trie with the zeros that complete its last tetra. After a refusal every later call answers
    /// it again, and the items that were added are those of all statements, or of those before a faulty
    /// one. From `new` on, items, trie and refusal are those of two passes over all lines, and an object
    /// can be written from items and trie.
    #[tactic(auto, using(crate::proofs::Fitting::grown, crate::proofs::Fronts::fronts))]
    pub fn finish(&mut self, out: &mut Items) -> Result<Bytes, Refused>
        ensures ended { result ≢ Err no_memory → (out.new, result) ≡ spec.end_following out.old self.old }
        ensures whole { OnTaken self.old (λ lines. result ≢ Err no_memory → result ≡ (assembled_lines lines).1) }
        ensures items { OnTaken self.old (λ lines. result ≢ Err no_memory → AddsEnd lines out.old out.new) }
        ensures refused { IfErr result (λ refused. self.new ≡ Err refused) }
        ensures told { IfErr result IsTold }
        ensures accepted { OnOk result (self.new ≡ map_ok spec.opened self.old) }
        ensures front { IsFront out.old out.new × IsFront out.new (spec.end_following out.old self.old).0 }
        ensures fits { AreFit out.old → AreFit out.new }
        ensures object { OnTaken self.old
            (λ lines. AreFit (lines_items lines) → IfOk result (AreWritable (assembled_lines lines).0)) }
        ensures refusal_again { OnErr self.old ((out.new ≡ out.old) × (self.new ≡ self.old)) }
    {
        if let Some(refused) = self.refused {
            return Err(refused);
        }
        match end(&mut self.assembly, out) {
            Ok(trie) => Ok(trie),
            Err(refused) => {
                self.refused = Some(refused);
                Err(refused)
            }
        }
    }
}

/// Ends a source, after what is first in an object.
fn end(assembly: &mut Assembly, out: &mut Items) -> Result<Bytes, Refused>
    ensures ended { result ≢ Err no_memory → (out.new, result) ≡ spec.end_following out.old (Ok assembly.old) }
    ensures opened { OnOk result (assembly.new ≡ spec.opened assembly.old) }
    ensures told { IfErr result IsTold }
    ensures front { IsFront out.new (spec.end_following out.old (Ok assembly.old)).0 }
    ensures fits { GrowsFit out.old out.new }
    ensures trie { IfOk result IsPadded }
{
    assembly.open(out)?;
    assembly.end(out)
}

/// Takes a line, after what is first in an object. After a refusal that is within an `Ok` nothing
/// of the line was taken.
fn take_line(
    alloc: Global,
    assembly: &mut Assembly,
    out: &mut Items,
    text: &[u8],
) -> Result<Result<(), Refused>, Refused>
    ensures taken { let answer = spec.line_answer result in spec.TakesLine
        answer out.old out.new (Ok assembly.old) (spec.status_after answer assembly.new) text.now }
    ensures kept { IfOk result (λ answer. IfErr answer (λ refused. assembly.new ≡ spec.opened assembly.old)) }
    ensures sparing { assembly.old.opened ≡ true → holds_statement text.now ≡ false → spec.line_answer result ≢ Err no_memory }
    ensures told { IfErr (spec.line_answer result) IsTold }
    ensures front { IsFront out.new (spec.line_following out.old (Ok assembly.old) text.now).0 }
    ensures fits { GrowsFit out.old out.new }
{
    assembly.open(out)?;
    match assembly.count(text) {
        Ok(line) => {
            let tried = take_statements(alloc, assembly, out, text, line);
            if let Ok(Err(_)) = tried {
                assembly.uncount(text);
            }
            tried
        }
        Err(refused) => Ok(Err(refused)),
    }
}
