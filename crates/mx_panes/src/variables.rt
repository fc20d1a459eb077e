//! What scopes have: registers, hidden frames and symbols.

ghost use Rattle.std.specs.Prelude.{◌≡◌, ◌≤◌, ◌+◌, IfOk};
ghost use Rattle.mx_core.specs.Kept.{state_of};
ghost use Rattle.mx_panes.specs.Registers as spec;
ghost use Rattle.mx_panes.specs.Registers.{ShowGlobals, ShowLocals, ShowRegisters, ShowsValue};
ghost use Rattle.mx_ring.specs.Stack.{register};

use crate::frames::{frame_address, locals_reference};
use crate::scene::Scene;
use crate::values::{add_reference, is_data, value_text};
use mx_adapter::{Answer, number_at};
use mx_book::Thing;
use mx_cmd::special_name;
use mx_json::{add_number, add_string};
use mx_replay::Frame;
use mx_tell::{add_label, add_thing};
use mx_text::add_decimal;
use mx_wire::{Values, add_array};
use mx_word::{Bytes, NoMemory, Symbol, Value as SymbolValue};
use serde_json::Value;
use std::alloc::Global;

/// A name without the colon that it begins with.
fn short_name(name: &[u8]) -> &[u8] {
    match name {
        [b':', others @ ..] => others,
        _ => name,
    }
}

/// The rows from one on, this many, or all where the number is 0.
fn window(rows: &[Bytes], start: u64, count: u64) -> &[Bytes] {
    let start = usize::try_from(start).unwrap_or(usize::MAX).min(rows.len());
    let rest = rows.split_at(start).1;
    if count == 0 {
        return rest;
    }
    let count = usize::try_from(count).unwrap_or(usize::MAX).min(rest.len());
    rest.split_at(count).0
}

/// The answer to `variables`, with those of some rows that it asks for.
pub fn list_variables(alloc: Global, rows: &Values, message: &Value) -> Result<Answer, NoMemory> {
    let start = number_at(message, "/arguments/start").unwrap_or(0);
    let count = number_at(message, "/arguments/count").unwrap_or(0);
    let mut text = Bytes::copy(alloc, b"{\"variables\":")?;
    add_array(&mut text, window(rows.as_slice(), start, count))?;
    text.extend(b"}")?;
    Ok(Answer::Done(text))
}

/// A row: its name, the text of its value, and what is after it.
#[tactic(auto, unfolding(crate::specs::Registers::row_text))]
fn row_text(alloc: Global, name: &[u8], value: &[u8], rest: &[u8]) -> Result<Bytes, NoMemory>
    ensures { IfOk result (λ row. row ≡ spec.row_text name.now value.now rest.now) }
{
    let mut text = Bytes::new(alloc);
    add_string(alloc, &mut text, b"{\"name\":", name)?;
    add_string(alloc, &mut text, b",\"value\":", value)?;
    text.extend(rest)?;
    Ok(text)
}

impl Scene<'_> {
    /// What a row has after its value: what `evaluate` takes for it, which may be nothing, and where it leads.
    fn row_end(&self, asked: &[u8], value: u64) -> Result<Bytes, NoMemory> {
        let mut text = Bytes::new(self.alloc);
        if !asked.is_empty() {
            add_string(self.alloc, &mut text, b",\"evaluateName\":", asked)?;
        }
        if is_data(value) {
            add_reference(&mut text, b",\"memoryReference\":", value)?;
        }
        text.extend(b",\"variablesReference\":0}")?;
        Ok(text)
    }

    /// The row of a variable: its name, what `evaluate` takes for it, which may be nothing, and its value.
    #[tactic(auto, using(crate::proofs::Shown::showing))]
    fn row(&self, name: &[u8], asked: &[u8], value: u64) -> Result<Bytes, NoMemory>
        ensures { IfOk result (ShowsValue value) }
    {
        let shown = value_text(self.alloc, self.book, value)?;
        let end = self.row_end(asked, value)?;
        let row = row_text(self.alloc, name, shown.as_slice(), end.as_slice())?;
        Ok(row)
    }

    /// The row of a register with this value.
    fn register_row(&self, k: u8, value: u64, is_now: bool) -> Result<Bytes, NoMemory>
        ensures { IfOk result (ShowsValue value) }
    {
        let mut name = Bytes::new(self.alloc);
        add_thing(&mut name, self.book, Thing::Register(k))?;
        let mut asked = Bytes::new(self.alloc);
        if is_now {
            asked.extend(b"$")?;
            add_decimal(&mut asked, u64::from(k))?;
        }
        self.row(name.as_slice(), asked.as_slice(), value)
    }

    /// The row of a register as it is.
    #[tactic(auto, using(crate::proofs::Shown::equal_values))]
    fn row_now(&self, k: u8) -> Result<Bytes, NoMemory>
        ensures { IfOk result (ShowsValue (register (state_of self.now.machine.now).stack k)) }
    {
        let value = self.machine.register(k);
        let row = self.register_row(k, value, true)?;
        Ok(row)
    }

    /// The rows of so many registers from one on.
    #[tactic(auto, using(crate::proofs::Shown::listing))]
    fn register_rows(&self, first: usize, count: usize) -> Result<Values, NoMemory>
        requires { first + count ≤ 256 }
        ensures { IfOk result (ShowRegisters (state_of self.now.machine.now) first count) }
    {
        let mut rows = Values::new(self.alloc);
        for i in 0..count {
            let k = (first + i) as u8;
            let row = self.row_now(k)?;
            rows.push(row)?;
        }
        Ok(rows)
    }

    /// The rows of registers with these values, which another step has.
    pub fn rows_of(&self, values: &[u64]) -> Result<Values, NoMemory> {
        let mut rows = Values::new(self.alloc);
        for (k, value) in values.iter().enumerate() {
            rows.push(self.register_row((k % 256) as u8, *value, false)?)?;
        }
        Ok(rows)
    }

    /// The rows of the special registers.
    pub fn special_rows(&self) -> Result<Values, NoMemory> {
        let mut rows = Values::new(self.alloc);
        for code in 0..32u8 {
            let name = special_name(code).as_bytes();
            rows.push(self.row(name, name, self.machine.special(code))?)?;
        }
        Ok(rows)
    }

    /// The rows of the local registers.
    #[tactic(auto, using(crate::proofs::Shown::listed))]
    pub fn local_rows(&self) -> Result<Values, NoMemory>
        ensures { IfOk result (ShowLocals (state_of self.now.machine.now)) }
    {
        let count = usize::from(self.machine.l());
        let rows = self.register_rows(0, count)?;
        Ok(rows)
    }

    /// The rows of the global registers.
    #[tactic(auto, using(crate::proofs::Shown::listed))]
    pub fn global_rows(&self) -> Result<Values, NoMemory>
        ensures { IfOk result (ShowGlobals (state_of self.now.machine.now)) }
    {
        let first = usize::from(self.machine.g());
        let rows = self.register_rows(first, 256 - first)?;
        Ok(rows)
    }

    /// The row of a frame that is not the innermost one.
    fn make_hidden_row(&self, frame: usize, address: u64) -> Result<Bytes, NoMemory> {
        let mut name = Bytes::new(self.alloc);
        add_decimal(&mut name, frame as u64)?;
        name.extend(b"  ")?;
        add_label(&mut name, self.book, address)?;
        let mut text = Bytes::new(self.alloc);
        add_string(self.alloc, &mut text, b"{\"name\":", name.as_slice())?;
        add_number(
            &mut text,
            b",\"value\":\"\",\"variablesReference\":",
            locals_reference(frame),
        )?;
        text.extend(b"}")?;
        Ok(text)
    }

    /// The rows of the frames but the innermost one.
    pub fn make_hidden_rows(&self, frames: &[Frame]) -> Result<Values, NoMemory> {
        let mut rows = Values::new(self.alloc);
        for frame in 1..frames.len().saturating_add(1) {
            if let Some(address) = frame_address(frames, self.machine.pc(), frame) {
                rows.push(self.make_hidden_row(frame, address)?)?;
            }
        }
        Ok(rows)
    }

    /// The row of a symbol.
    fn symbol_row(&self, symbol: &Symbol) -> Result<Bytes, NoMemory> {
        let name = short_name(symbol.name.as_slice());
        let value = match symbol.value {
            SymbolValue::Pure(x) => x,
            SymbolValue::Reg(k) => self.machine.register(k),
        };
        self.row(name, name, value)
    }

    /// The rows of the symbols.
    pub fn symbol_rows(&self) -> Result<Values, NoMemory> {
        let mut rows = Values::new(self.alloc);
        for symbol in self.book.symbols.as_slice() {
            rows.push(self.symbol_row(symbol)?)?;
        }
        Ok(rows)
    }
}
