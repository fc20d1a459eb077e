//! The listing of an object, item by item and as a whole.

ghost use Rattle.std.specs.Prelude.{◌≡◌, ◌++◌, ◌∷◌, [], List, ℕ, IfOk, OnErr, OnOk};
ghost use Rattle.mx_mmo.specs.declared.items.Item.{Item};
ghost use Rattle.mx_stab.specs.Grammar.{IsTrie};
ghost use Rattle.mx_type.specs.Lambda.{lambda_after};
ghost use Rattle.mx_type.specs.Lines.{ended, stab_line, symbol_line};
ghost use Rattle.mx_type.specs.Listing.{EndsListing, HasListed, IsListing, ListsItem};
ghost use Rattle.mx_type.specs.Texts.{item_text, items_text, listing_text, tail_text};

use crate::lines::{add_item, lambda_after};
use crate::symbols::{add_symbol, add_tail, add_trie};
use mx_mmo::{Item, Items};
use mx_word::{Bytes, NoMemory, Symbol, Symbols};
use std::alloc::Global;
use std::marker::Model;
use std::mem;

/// Most lines of items have no more bytes than these.
const USUAL_LINE: usize = 64;

/// Lists the items of an object, one after another. Contracts see lambda after those that were
/// listed.
#[derive(Drop)]
pub struct Lister {
    alloc: Global,
    lambda: u64,
}

impl Model for Lister {
    ghost use Rattle.std.specs.Prelude.{ℕ};

    ghost Value = { ℕ };

    ghost view = { λ l. l.lambda };
}

/// Takes all bytes away, and keeps their memory.
fn clear(alloc: Global, bytes: &mut Bytes)
    ensures { bytes.new ≡ [] }
{
    let mut kept = mem::replace(bytes, Bytes::new(alloc)).into_vec();
    kept.clear();
    *bytes = Bytes::from_vec(kept);
}

impl Lister {
    /// A lister that no item was given to. It takes no memory.
    pub fn new(alloc: Global) -> Lister
        ensures lambda { result ≡ 0 }
        ensures none { HasListed result [] [] }
    {
        Lister { alloc, lambda: 0 }
    }

    /// The line of the next item with its newline; no bytes for `stab`. Out of memory, the lister is
    /// as it was.
    pub fn item(&mut self, item: &Item) -> Result<Bytes, NoMemory>
        ensures text { IfOk result (λ text. text ≡ item_text self.old item.now) }
        ensures lambda { OnOk result (self.new ≡ lambda_after self.old item.now) }
        ensures joined { IfOk result (ListsItem self.old self.new item.now) }
        ensures err { OnErr result (self.new ≡ self.old) }
    {
        let mut line = Bytes::from_vec(Vec::with_capacity(self.alloc, USUAL_LINE)?);
        self.item_into(&mut line, item)?;
        Ok(line)
    }

    /// Puts the line of the next item with its newline in place of the bytes of `line`, whose memory
    /// it uses; no bytes for `stab`. Out of memory, the lister is as it was.
    pub fn item_into(&mut self, line: &mut Bytes, item: &Item) -> Result<(), NoMemory>
        ensures text { OnOk result (line.new ≡ item_text self.old item.now) }
        ensures lambda { OnOk result (self.new ≡ lambda_after self.old item.now) }
        ensures joined { OnOk result (ListsItem self.old self.new item.now line.new) }
        ensures err { OnErr result (self.new ≡ self.old) }
    {
        clear(self.alloc, line);
        add_item(line, self.lambda, item)?;
        self.lambda = lambda_after(self.lambda, item);
        Ok(())
    }

    /// The line of the trie with its newline, which follows those of all items.
    pub fn trie_line(&self, trie: &[u8]) -> Result<Bytes, NoMemory>
        ensures { IfOk result (λ text. text ≡ ended (stab_line trie.now)) }
    {
        let mut text = Bytes::new(self.alloc);
        add_trie(&mut text, trie)?;
        Ok(text)
    }

    /// The line of a symbol with its newline. Those of all symbols, in the order of the trie, come
    /// after that of the trie.
    pub fn symbol_line(&self, symbol: &Symbol) -> Result<Bytes, NoMemory>
        ensures { IfOk result (λ text. text ≡ ended (symbol_line symbol.now)) }
    {
        let mut text = Bytes::from_vec(Vec::with_capacity(self.alloc, USUAL_LINE)?);
        add_symbol(&mut text, symbol)?;
        Ok(text)
    }

    /// The lines that follow those of all items, from that of the trie on. The symbols have to
    /// be those of the trie.
    pub fn tail(&self, trie: &Bytes, symbols: &Symbols) -> Result<Bytes, NoMemory>
        requires { IsTrie trie.now symbols.now }
        ensures text { IfOk result (λ text. text ≡ tail_text trie.now symbols.now) }
        ensures joined { IfOk result (EndsListing self.now trie.now) }
    {
        let mut text = Bytes::new(self.alloc);
        add_tail(&mut text, trie.as_slice(), symbols.as_slice())?;
        Ok(text)
    }
}

/// Adds the lines of items, where lambda is an address before the first of them.
fn add_items(text: &mut Bytes, items: &[Item]) -> Result<(), NoMemory>
    ensures { OnOk result (text.new ≡ text.old ++ items_text 0 items.now) }
{
    let mut lambda = 0;
    for item in items {
        add_item(text, lambda, item)?;
        lambda = lambda_after(lambda, item);
    }
    Ok(())
}

/// The listing of items and of a trie, whose symbols have to be these.
pub fn listing(
    alloc: Global,
    items: &Items,
    trie: &Bytes,
    symbols: &Symbols,
) -> Result<Bytes, NoMemory>
    requires { IsTrie trie.now symbols.now }
    ensures listing { IfOk result (λ text. IsListing text items.now trie.now) }
    // It is what a lister gives for the items and at the end, joined.
    ensures joined { IfOk result (λ text. text ≡ listing_text items.now trie.now symbols.now) }
{
    let mut text = Bytes::new(alloc);
    add_items(&mut text, items.as_slice())?;
    add_tail(&mut text, trie.as_slice(), symbols.as_slice())?;
    Ok(text)
}
