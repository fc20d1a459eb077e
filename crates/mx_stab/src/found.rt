//! The symbols that were read, and how a name is found among them.

ghost use Rattle.std.specs.Prelude.{◌≡◌, ℕ, List, [], ◌∷◌, ◌++◌, ◌||◌, IfOk, OnOk, OnErr, bytes_eq};
ghost use Rattle.mx_stab.specs.Names.{HasNames, is_above, is_key};
ghost use Rattle.mx_stab.specs.Reading.{is_among};

use mx_word::{Bytes, NoMemory, Symbol, Symbols, Value};
use std::alloc::Global;
use std::collections::BTreeSet;
use std::marker::Model;

/// Symbols, in which a name is found. While the names ascend, as those of a trie do whose subtries
/// are in order, the last one serves for that; from the first that does not, a set of all names.
/// Contracts see the list of symbols.
#[derive(Drop)]
pub struct Found {
    symbols: Symbols,
    names: Option<BTreeSet<Vec<u8>>>,
    alloc: Global,
}

impl Model for Found {
    ghost use Rattle.std.specs.Prelude.{List};
    ghost use Rattle.std.specs.Option.{ForNone, ForSome};
    ghost use Rattle.mx_word.specs.declared.symbols.Symbol.{Symbol};
    ghost use Rattle.mx_stab.specs.Names.{HasNames};
    ghost use Rattle.mx_word.specs.Symbols.{InByteOrder};

    ghost Value = { List Symbol };

    ghost view = { λ f. f.symbols };

    ghost invariant = { λ f.
        ForNone f.names (InByteOrder f.symbols) × ForSome f.names (λ names. HasNames names f.symbols) };
}

/// Whether a name is above the last of these symbols, in byte order.
fn is_above(symbols: &[Symbol], name: &[u8]) -> bool
    ensures { result ≡ is_above name.now symbols.now }
{
    match symbols {
        [.., last] => last.name.as_slice().cmp(name).is_lt(),
        [] => true,
    }
}

/// Whether a symbol has this name.
fn is_among(symbols: &[Symbol], name: &[u8]) -> bool
    ensures { result ≡ is_among name.now symbols.now }
{
    let mut rest = symbols;
    while let [first, more @ ..] = rest {
        if name == first.name.as_slice() {
            return true;
        }
        rest = more;
    }
    false
}

/// Adds a copy of a name to a set.
fn add(alloc: Global, names: &mut BTreeSet<Vec<u8>>, name: &[u8]) -> Result<(), NoMemory>
    ensures { OnOk result (
        (q : List ℕ) → is_key q names.new ≡ (is_key q names.old || bytes_eq q name.now)) }
{
    names.insert(Vec::from_slice(alloc, name)?)?;
    Ok(())
}

/// The set of the names of these symbols.
fn names_of(alloc: Global, symbols: &[Symbol]) -> Result<BTreeSet<Vec<u8>>, NoMemory>
    ensures { IfOk result (λ names. HasNames names symbols.now) }
{
    let mut names = BTreeSet::new(alloc);
    for symbol in symbols {
        add(alloc, &mut names, symbol.name.as_slice())?;
    }
    Ok(names)
}

/// Adds a symbol at the end, and its name to the set of all names.
fn push_named(
    alloc: Global,
    names: &mut BTreeSet<Vec<u8>>,
    symbols: &mut Symbols,
    symbol: Symbol,
) -> Result<(), NoMemory>
    ensures names { HasNames names.old symbols.old → OnOk result (HasNames names.new symbols.new) }
    ensures ok { OnOk result (symbols.new ≡ symbols.old ++ symbol ∷ []) }
    ensures err { OnErr result (symbols.new ≡ symbols.old) }
{
    add(alloc, names, symbol.name.as_slice())?;
    symbols.push(symbol)
}

/// Adds a symbol at the end, and gives the set of all names.
fn with_names(
    alloc: Global,
    symbols: &mut Symbols,
    symbol: Symbol,
) -> Result<BTreeSet<Vec<u8>>, NoMemory>
    ensures names { IfOk result (λ names. HasNames names symbols.new) }
    ensures ok { OnOk result (symbols.new ≡ symbols.old ++ symbol ∷ []) }
    ensures err { OnErr result (symbols.new ≡ symbols.old) }
{
    let mut names = names_of(alloc, symbols.as_slice())?;
    push_named(alloc, &mut names, symbols, symbol)?;
    Ok(names)
}

impl Found {
    /// No symbols.
    pub fn new(alloc: Global) -> Found
        ensures { result ≡ [] }
    {
        Found {
            symbols: Symbols::new(alloc),
            names: None,
            alloc,
        }
    }

    /// Whether a symbol has this name.
    pub fn has(&self, name: &[u8]) -> bool
        ensures { result ≡ is_among name.now self.now }
    {
        match &self.names {
            Some(names) => names.contains(name),
            None => {
                !is_above(self.symbols.as_slice(), name) && is_among(self.symbols.as_slice(), name)
            }
        }
    }

    /// Adds a symbol at the end. Out of memory, nothing is kept.
    pub fn push(&mut self, name: &[u8], value: Value, serial: u32) -> Result<(), NoMemory>
        ensures { OnOk result (
            self.new ≡ self.old ++ record { name = name.now; value = value; serial = serial } ∷ []) }
    {
        let symbol = Symbol {
            name: Bytes::copy(self.alloc, name)?,
            value,
            serial,
        };
        match &mut self.names {
            None => {
                if is_above(self.symbols.as_slice(), name) {
                    return self.symbols.push(symbol);
                }
                self.names = Some(with_names(self.alloc, &mut self.symbols, symbol)?);
                Ok(())
            }
            Some(names) => {
                if push_named(self.alloc, names, &mut self.symbols, symbol).is_err() {
                    *self = Found::new(self.alloc);
                    return Err(NoMemory);
                }
                Ok(())
            }
        }
    }

    /// The symbols.
    pub fn into_symbols(self) -> Symbols
        ensures { result ≡ self }
    {
        let Found { symbols, .. } = self;
        symbols
    }
}
