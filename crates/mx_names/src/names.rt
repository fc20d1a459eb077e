//! The table of names.

ghost use Rattle.std.specs.Prelude.{◌≡◌, ◌≢◌, ◌+◌, ◌<◌, ◌≤◌, ℕ, List, [], ◌∷◌, ◌++◌, length, is_some, IfOk, IfErr};
ghost use Rattle.std.specs.Prelude.{OnOk, OnErr, IsTrue, bytes_eq, slice_set, if◌then◌else◌};
ghost use Rattle.mx_word.specs.Results.{map_ok};
ghost use Rattle.mx_names.specs.Names as spec;
ghost use Rattle.mx_word.specs.Symbols.{InByteOrder, IsNamed};
ghost use Rattle.mx_names.specs.Entries.{IsInRange, symbol_of};
ghost use Rattle.mx_names.specs.Waiting.{first_of, waits_for, waits_for_others};
ghost use Rattle.std.specs.List.{AllByRecursion};
ghost use Rattle.std.specs.Option.{option_copied};

use crate::NameFault;
use crate::full::{copy_of, is_complete, name_with_prefix};
use crate::waiting::Waiting;
use mx_ops::predefined;
use mx_word::{Awaited, Bytes, NoMemory, Symbol, Symbols, Value, Wait, Waits};
use std::alloc::Global;
use std::collections::BTreeMap;
use std::marker::Model;

/// The value of a defined name, and its number in order of definition.
#[derive(Clone, Copy)]
struct Definition {
    value: Value,
    serial: u32,
}

/// The symbol of a name and its definition.
fn symbol_for(alloc: Global, name: &[u8], definition: Definition) -> Result<Symbol, NoMemory>
    ensures symbol { IfOk result (λ symbol. symbol ≡ symbol_of name.now definition) }
    ensures ranges { IfOk result (λ symbol. IsInRange symbol) }
{
    Ok(Symbol {
        name: Bytes::copy(alloc, name)?,
        value: definition.value,
        serial: definition.serial,
    })
}

/// The names of a source: a map from complete names to values, the prefix, the values of the last
/// local labels, and the references that wait (MMIXware, "MMIXAL": symbols, PREFIX, local symbols and
/// future references).
#[derive(Drop)]
pub struct Names {
    defined: BTreeMap<Vec<u8>, Definition>,
    prefix: Bytes,
    backs: [Value; 10],
    waiting: Waiting,
    alloc: Global,
}

impl Model for Names {
    ghost use Rattle.std.specs.Prelude.{map};
    ghost use Rattle.mx_names.specs.Names.{AreNames, Naming};
    ghost use Rattle.mx_names.specs.Entries.{symbol_of};

    ghost Value = { Naming };

    ghost view = { λ n. record {
      names = record {
        symbols = map (λ e. symbol_of e.0.items e.1) n.defined.entries;
        prefix = n.prefix;
        backs = n.backs;
      };
      waiting = n.waiting;
    } };

    ghost invariant = { λ n. AreNames (record {
      symbols = map (λ e. symbol_of e.0.items e.1) n.defined.entries;
      prefix = n.prefix;
      backs = n.backs;
    }) };
}

impl Names {
    /// No symbol is defined, the prefix is a colon, each local label is pure 0, and no reference
    /// waits.
    pub fn new(alloc: Global) -> Result<Names, NoMemory>
        ensures { IfOk result (λ names. names ≡ spec.naming_at_start) }
    {
        Ok(Names {
            defined: BTreeMap::new(alloc),
            prefix: Bytes::copy(alloc, b":")?,
            backs: [Value::Pure(0); 10],
            waiting: Waiting::new(alloc),
            alloc,
        })
    }

    /// The complete form of a symbol: one that begins with a colon is complete, any other means
    /// the prefix followed by it. It is refused where it has more than 1,024 bytes.
    pub fn resolve(&self, name: &[u8]) -> Result<Bytes, NameFault>
        ensures answer { result ≢ Err NameFault.OutOfMemory →
            result ≡ spec.symbol_form self.now.names name.now }
        ensures full { IfOk result (λ full. spec.IsFullName full) }
    {
        if is_complete(name) {
            copy_of(self.alloc, name)
        } else {
            name_with_prefix(self.alloc, self.prefix.as_slice(), name)
        }
    }

    /// Makes the complete form of a symbol the prefix. A refusal, which is that of `resolve`,
    /// changes nothing.
    pub fn set_prefix(&mut self, name: &[u8]) -> Result<(), NameFault>
        ensures answer { result ≢ Err NameFault.OutOfMemory →
            result ≡ map_ok (λ _. tt) (spec.symbol_form self.old.names name.now) }
        ensures ok { OnOk result (self.new ≡ spec.with_prefix self.old (spec.full_form self.old.names name.now)) }
        ensures err { OnErr result (self.new ≡ self.old) }
        ensures kept { spec.AreNames self.new.names }
    {
        self.prefix = self.resolve(name)?;
        Ok(())
    }

    /// Gives a symbol its value. The name is a complete one, with its colon and at most 1,024 bytes, and fewer
    /// than 2^32 - 1 symbols are defined. It is refused where the name is predefined or defined already; a
    /// refusal changes nothing.
    pub fn define(&mut self, full: Bytes, v: Value) -> Result<(), NameFault>
        requires full { spec.IsFullName full }
        requires room { length self.old.names.symbols < 0xffff_ffff }
        ensures answer { result ≢ Err NameFault.OutOfMemory → result ≡ spec.define_answer self.old.names full }
        ensures ok { OnOk result (self.new ≡ record self.old { names = spec.with_symbol self.old.names full v }) }
        ensures count { OnOk result (length self.new.names.symbols ≡ length self.old.names.symbols + 1) }
        ensures looked_up { OnOk result (spec.KnowsAlso self.old.names self.new.names full v) }
        ensures err { OnErr result (self.new ≡ self.old) }
        ensures kept { spec.AreNames self.new.names }
    {
        let is_defined = self.is_defined(full.as_slice());
        if predefined(full.as_slice()).is_some() {
            return Err(NameFault::Predefined);
        }
        if is_defined {
            return Err(NameFault::Twice);
        }
        self.put(full, v)?;
        Ok(())
    }

    /// Whether a complete name is defined.
    fn is_defined(&self, full: &[u8]) -> bool
        ensures found { result ≡ is_some (spec.value_in full.now self.now.names.symbols) }
        ensures known { spec.AreNames self.now.names }
    {
        self.defined.contains_key(full)
    }

    /// Defines a complete name that is not defined. Where there is no memory, nothing changes.
    fn put(&mut self, full: Bytes, value: Value) -> Result<(), NoMemory>
        requires full { spec.IsFullName full }
        requires room { length self.old.names.symbols < 0xffff_ffff }
        requires absent { spec.value_in full self.old.names.symbols ≡ None }
        ensures ok { OnOk result (self.new ≡ record self.old { names = spec.with_symbol self.old.names full value }) }
        ensures err { OnErr result (self.new ≡ self.old) }
        ensures kept { spec.AreNames self.new.names }
    {
        let serial = self.defined.len() as u32 + 1;
        let definition = Definition { value, serial };
        self.defined.insert(full.into_vec(), definition)?;
        Ok(())
    }

    /// The value of a complete name that is defined or predefined; nothing where the name is neither.
    pub fn lookup(&self, full: &[u8]) -> Option<Value>
        ensures { result ≡ spec.value_of_name self.now.names full.now }
    {
        match self.defined.get(full) {
            Some(definition) => Some(definition.value),
            None => match predefined(full) {
                Some(value) => Some(Value::Pure(value)),
                None => None,
            },
        }
    }

    /// Makes this the value of the last local label dH, for a digit d from 0 to 9.
    pub fn define_local(&mut self, d: u8, v: Value)
        requires { d ≤ 9 }
        ensures changed { self.new ≡ record self.old { names = record self.old.names { backs = slice_set self.old.names.backs d v } } }
        ensures kept { spec.AreNames self.new.names }
    {
        self.backs[usize::from(d)] = v;
    }

    /// The value of the last local label dH, for a digit d from 0 to 9: what dB means, or pure 0 before any.
    pub fn local_back(&self, d: u8) -> Value
        requires { d ≤ 9 }
        ensures { result ≡ spec.back_of self.now.names d }
    {
        self.backs[usize::from(d)]
    }

    /// Adds a reference to those that wait. Nothing changes where there is no memory.
    pub fn wait_for(&mut self, w: Wait) -> Result<(), NoMemory>
        ensures ok { OnOk result (self.new ≡ record self.old { waiting = self.old.waiting ++ w ∷ [] }) }
        ensures err { OnErr result (self.new ≡ self.old) }
        ensures kept { spec.AreNames self.new.names }
    {
        self.waiting.push(w)
    }

    /// Gives and removes the references that wait for one name or local label, in the order of their
    /// making. Nothing changes where there is no memory.
    pub fn take_waiting(&mut self, who: &Awaited) -> Result<Waits, NoMemory>
        ensures taken { IfOk result (λ waits. waits ≡ waits_for who.now self.old.waiting) }
        ensures left { OnOk result
            (self.new ≡ record self.old { waiting = waits_for_others who.now self.old.waiting }) }
        ensures err { OnErr result (self.new ≡ self.old) }
        ensures kept { spec.AreNames self.new.names }
    {
        self.waiting.take(who)
    }

    /// The earliest reference that waits; nothing where none does.
    pub fn first_waiting(&self) -> Option<&Wait>
        ensures { option_copied result ≡ first_of self.now.waiting }
    {
        self.waiting.first()
    }

    /// The defined symbols, without the predefined ones, in byte order of their names.
    pub fn sorted(&self) -> Result<Symbols, NoMemory>
        ensures symbols { IfOk result (λ symbols. symbols ≡ self.now.names.symbols) }
        ensures order { IfOk result (λ symbols. InByteOrder symbols) }
        ensures named { IfOk result (λ symbols. AllByRecursion IsNamed symbols) }
        ensures known { spec.AreNames self.now.names }
    {
        let mut symbols = Symbols::new(self.alloc);
        for (name, definition) in &self.defined {
            let symbol = symbol_for(self.alloc, name.as_slice(), *definition)?;
            symbols.push(symbol)?;
        }
        Ok(symbols)
    }
}
