//! What the assembler carries from statement to statement.

ghost use Rattle.std.specs.Prelude.{◌≡◌, ◌≢◌, ◌+◌, ◌<◌, ◌≤◌, ◌^◌, ◌++◌, Ok, Err, IfOk, IfErr, OnOk, OnErr, IfSome};
ghost use Rattle.std.specs.Prelude.{true, false, length};
ghost use Rattle.std.specs.Result.{result_err};
ghost use Rattle.mx_names.specs.Names.{AreNames};
ghost use Rattle.mx_stmt.specs.Encoding.{statement_tree};
ghost use Rattle.mx_stmt.specs.Reading.{LabelHasDigit, StatementHasDigits};
ghost use Rattle.mx_asm.specs.Effects.{IsEffect, IsPlaced};
ghost use Rattle.mx_asm.specs.Emission.{opening, piece_items, piece_head};
ghost use Rattle.mx_asm.specs.Faults.{is_early, no_memory};
ghost use Rattle.mx_asm.specs.Fitting.{AreFit, GrowsFit, IsPadded};
ghost use Rattle.mx_asm.specs.Fronts.{IsFront};
ghost use Rattle.mx_asm.specs.Fixes.{awaited_value};
ghost use Rattle.mx_asm.specs.TwoPass.{with_effect};
ghost use Rattle.mx_asm.specs.OnePass as spec;

use crate::ending::{close, main_fault, make_padded_trie, make_undefined_fault};
use crate::fixes::fix_items;
use crate::head::Head;
use crate::{AsmFault, Refused, labels};
use mx_mmo::{Item, Items, Words};
use mx_names::{Gregs, Names};
use mx_stmt::{Effect, Env, Label, Placed, Statement, StmtFault, encode};
use mx_word::{Bytes, NoMemory, Value, Wait, Waits};
use std::alloc::Global;
use std::marker::Model;

/// The bytes that the lines of a source and the newlines between them may have.
const SOURCE_LIMIT: usize = 4_194_304;

/// The most tetras of a symbol trie.
const MOST_TETRAS: usize = 65_535;

/// The names with the references that wait, the place `@`, the global registers, how far the
/// object has come, the greatest register that LOCAL named, and how much of the source there was.
#[derive(Drop)]
pub(crate) struct Assembly {
    alloc: Global,
    names: Names,
    at: u64,
    gregs: Gregs,
    head: Head,
    locals: u16,
    lines: u32,
    size: usize,
    opened: bool,
    /// At least the number of symbols that are defined.
    defined: u32,
}

impl Model for Assembly {
    ghost use Rattle.std.specs.Prelude.{◌≤◌, ◌+◌, ◌^◌, length};
    ghost use Rattle.mx_names.specs.Names.{AreNames};
    ghost use Rattle.mx_asm.specs.OnePass.{Assembly};

    ghost Value = { Assembly };

    ghost view = { λ a. record {
      known = record { names = a.names.names; at = a.at; gregs = a.gregs };
      waiting = a.names.waiting;
      head = a.head;
      locals = a.locals;
      lines = a.lines;
      size = a.size;
      opened = a.opened;
    } };

    ghost invariant = { λ a. AreNames a.names.names × (length a.gregs ≤ 223) × (a.lines ≤ a.size) × (a.size ≤ 2 ^ 22 + 1)
        × (length a.names.names.symbols ≤ a.defined) };
}

impl Assembly {
    /// Before the first line.
    pub(crate) fn new(alloc: Global) -> Result<Assembly, NoMemory>
        ensures { IfOk result (λ a. a ≡ spec.beginning) }
    {
        Ok(Assembly {
            alloc,
            names: Names::new(alloc)?,
            at: 0,
            gregs: Gregs::new(),
            head: Head { lambda: 0, line: 0 },
            locals: 0,
            lines: 0,
            size: 0,
            opened: false,
            defined: 0,
        })
    }

    /// Adds what is first in an object, unless it is there.
    #[tactic(auto, using(crate::proofs::Fitting::growing))]
    pub(crate) fn open(&mut self, out: &mut Items) -> Result<(), NoMemory>
        ensures out { OnOk result (out.new ≡ spec.with_opening self.old.opened out.old) }
        ensures opened { OnOk result (self.new ≡ spec.opened self.old) }
        ensures front { IsFront out.new (spec.with_opening self.old.opened out.old) }
        ensures sparing { OnErr result (self.old.opened ≡ false) }
        ensures fits { GrowsFit out.old out.new }
    {
        if !self.opened {
            push_opening(self.alloc, out)?;
            self.opened = true;
        }
        Ok(())
    }

    /// Counts a line, and gives its number. It is refused where the source has too many bytes.
    pub(crate) fn count(&mut self, text: &[u8]) -> Result<u32, Refused>
        ensures fault { result_err result ≡ spec.count_fault self.old text.now }
        ensures number { IfOk result (λ line. line ≡ self.old.lines + 1) }
        ensures counted { OnOk result (self.new ≡ spec.counted self.old text.now) }
        ensures bound { OnOk result (self.new.lines + length text.now ≤ self.new.size) }
        ensures same { OnErr result (self.new ≡ self.old) }
        ensures sparing { result ≢ Err no_memory }
    {
        let line = self.lines + 1;
        if text.len() > SOURCE_LIMIT || self.size > SOURCE_LIMIT - text.len() {
            return Err(Refused::at(line, AsmFault::SourceTooLong));
        }
        self.lines = line;
        self.size += text.len() + 1;
        Ok(line)
    }

    /// Takes back that a line was counted.
    pub(crate) fn uncount(&mut self, text: &[u8])
        requires counted { 0 < self.old.lines }
        requires bound { self.old.lines + length text.now ≤ self.old.size }
        ensures { self.new ≡ spec.uncounted self.old text.now }
    {
        self.lines -= 1;
        self.size -= text.len() + 1;
    }

    /// Ends the source: adds the global registers, and gives the symbol trie.
    #[tactic(auto, using(crate::proofs::Fitting::growing))]
    pub(crate) fn end(&self, out: &mut Items) -> Result<Bytes, Refused>
        ensures ended { result ≢ Err no_memory → (out.new, result) ≡ spec.ended out.old self.now }
        ensures front { IsFront out.new (spec.ended out.old self.now).0 }
        ensures fits { GrowsFit out.old out.new }
        ensures trie { IfOk result IsPadded }
    {
        if let Some(wait) = self.names.first_waiting() {
            return Err(Refused::at(wait.line, make_undefined_fault(&wait.who)));
        }
        let last = self.lines.max(1);
        if let Some(fault) = main_fault(&self.names, self.gregs.lowest(), self.locals) {
            return Err(Refused::at(last, fault));
        }
        let trie = make_padded_trie(self.alloc, &self.names)?;
        if trie.as_slice().len() / 4 > MOST_TETRAS {
            return Err(Refused::at(last, AsmFault::SymbolsTooMany));
        }
        close(self.alloc, out, &self.names, &self.gregs)?;
        Ok(trie)
    }

    /// Defines the label of a statement, and takes the references that wait for it.
    fn define(
        &mut self,
        label: &Option<Label>,
        value: Option<Value>,
        waits: Waits,
    ) -> Result<Waits, AsmFault>
        requires digit { IfSome label.now LabelHasDigit }
        ensures labelled { spec.Labels result (spec.naming_of self.new)
            (spec.labelled (spec.naming_of self.old) label.now value waits) }
        ensures rest { OnOk result (self.new ≡
            record self.old { known = record self.old.known { names = self.new.known.names }; waiting = self.new.waiting }) }
        ensures early { IfErr result (λ fault. is_early fault ≡ true → self.new ≡ self.old) }
    {
        let Some(defined) = self.defined.checked_add(1) else {
            return Err(AsmFault::OutOfMemory);
        };
        self.defined = defined;
        labels::define(self.alloc, &mut self.names, label, value, waits)
    }

    /// Gives a statement its effect.
    fn give_effect(&mut self, effect: Effect) -> Result<(), NoMemory>
        requires { IsEffect self.old.known.gregs effect }
        ensures { OnOk result (self.new ≡ record self.old {
          known = with_effect self.old.known effect;
          locals = spec.with_local self.old.locals effect;
        }) }
    {
        match effect {
            Effect::Plain => {}
            Effect::Prefix(full) => {
                let Ok(()) = self.names.set_prefix(full.as_slice()) else {
                    return Err(NoMemory);
                };
            }
            Effect::Greg { reg, value } => self.gregs.set(reg, value),
            Effect::Local(reg) => self.locals = self.locals.max(u16::from(reg) + 1),
        }
        Ok(())
    }

    /// The items of bytes of a line from an address on, after the records of the references that
    /// wait for a label with this value.
    fn items(
        &mut self,
        line: u32,
        value: Value,
        start: u64,
        bytes: &[u8],
        waits: &[Wait],
    ) -> Result<Items, Refused>
        requires { 0 < length bytes.now → start + length bytes.now ≤ 2 ^ 63 }
        ensures items { result ≢ Err no_memory →
            result ≡ piece_items self.old.head line value start bytes.now waits.now }
        ensures late { IfErr result (λ refused. is_early refused.fault ≡ false) }
        ensures fits { IfOk result AreFit }
        ensures head { OnOk result
            (self.new ≡ record self.old { head = piece_head self.old.head line value start bytes.now waits.now }) }
    {
        let mut items = fix_items(self.alloc, self.head.lambda, line, value, waits)?;
        let head = self.head.at_fixes(value, waits);
        head.place(self.alloc, &mut items, line, start, bytes)?;
        self.head = head.at_bytes(line, start, bytes);
        Ok(items)
    }

    /// Takes what a statement comes to, and gives its items.
    fn settle(&mut self, line: u32, label: &Option<Label>, placed: Placed) -> Result<Items, Refused>
        requires digit { IfSome label.now LabelHasDigit }
        requires placed { IsPlaced self.old.known.gregs placed }
        ensures taken { result ≢ Err no_memory →
            spec.taken_after result self.new ≡ spec.taken_placed self.old line label.now placed }
        ensures early { IfErr result (λ refused. is_early refused.fault ≡ true → self.new ≡ self.old) }
        ensures fits { IfOk result AreFit }
    {
        let value = placed.label.unwrap_or(Value::Pure(0));
        let waits = match self.define(label, placed.label, placed.waits) {
            Ok(waits) => waits,
            Err(AsmFault::OutOfMemory) => return Err(Refused::no_memory()),
            Err(fault) => return Err(Refused::at(line, fault)),
        };
        let bytes = placed.bytes.as_slice();
        let items = self.items(line, value, placed.start, bytes, waits.as_slice())?;
        self.at = placed.after;
        self.give_effect(placed.effect)?;
        Ok(items)
    }

    /// Takes a statement, and gives its items.
    pub(crate) fn take(&mut self, s: &Statement) -> Result<Items, Refused>
        requires { StatementHasDigits s.now }
        ensures taken { result ≢ Err no_memory →
            spec.taken_after result self.new ≡ spec.statement_taken self.old (statement_tree s.now) }
        ensures early { IfErr result (λ refused. is_early refused.fault ≡ true → self.new ≡ self.old) }
        ensures fits { IfOk result AreFit }
    {
        let env = Env {
            alloc: self.alloc,
            names: &self.names,
            at: self.at,
            gregs: &self.gregs,
        };
        match encode(s, &env) {
            Ok(placed) => self.settle(s.line, &s.label, placed),
            Err(StmtFault::OutOfMemory) => Err(Refused::no_memory()),
            Err(fault) => Err(Refused::at(s.line, AsmFault::Stmt(fault))),
        }
    }
}

/// Adds a time of 0, and the file.
#[tactic(auto, using(crate::proofs::Fitting::fitting, crate::proofs::Fitting::growing))]
fn push_opening(alloc: Global, out: &mut Items) -> Result<(), NoMemory>
    ensures all { OnOk result (out.new ≡ out.old ++ opening) }
    ensures front { IsFront out.new (out.old ++ opening) }
    ensures fits { GrowsFit out.old out.new }
{
    let mut tetras = Words::new(alloc);
    tetras.push(0)?;
    let name = Bytes::copy(alloc, b".mms")?;
    out.push(Item::Pre(tetras))?;
    out.push(Item::File {
        number: 0,
        name: Some(name),
    })?;
    Ok(())
}
