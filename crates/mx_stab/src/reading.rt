//! The symbols of a trie.

ghost use Rattle.std.specs.Prelude.{◌≡◌, ◌≢◌, ◌≤◌, ◌<◌, ◌+◌, [], ◌∷◌, ◌++◌, List, length, drop, take};
ghost use Rattle.std.specs.Prelude.{Err, Ok, Some, IfErr, IfOk, IfNone, IfSome, OnOk, OnSome};
ghost use Rattle.std.specs.List.{AllByRecursion};
ghost use Rattle.mx_word.specs.Results.{map_ok};
ghost use Rattle.mx_word.specs.declared.symbols.Symbol.{Symbol};
ghost use Rattle.mx_stab.specs.Characters.{wide_character, wide_number};
ghost use Rattle.mx_stab.specs.Due.{after_all, after_character, after_due, and_next, due_weight};
ghost use Rattle.mx_stab.specs.Due.{longer_path, next_point, weight, with_path, LeadsTo};
ghost use Rattle.mx_stab.specs.FaultTable.{FaultOf};
ghost use Rattle.mx_stab.specs.Grammar.{AreDistinct, IsTrie};
ghost use Rattle.mx_word.specs.Symbols.{IsNamed};
ghost use Rattle.mx_stab.specs.Reading as spec;

use crate::StabFault;
use crate::due::{Due, has, has_character, note_node, note_subtrie, note_symbol};
use crate::found::Found;
use crate::values::{TOO_LARGE, split_serial, value_of_kind, value_size};
use mx_word::{Symbols, Value};
use std::alloc::Global;
use std::marker::Model;

/// The most bytes of a path.
const LONGEST: usize = 1024;

/// How far reading has come: the place of the next byte, the bytes from there on, the path to what
/// is read next, and the symbols so far.
#[derive(Drop)]
struct Reader<'a> {
    at: u64,
    rest: &'a [u8],
    path: Vec<u8>,
    found: Found,
}

impl<'a> Model for Reader<'a> {
    ghost use Rattle.std.specs.Prelude.{◌+◌, ◌<◌, ◌^◌, length};
    ghost use Rattle.mx_stab.specs.Due.{Point};

    ghost Value = { Point };

    ghost view = { λ r. record {
      path = r.path.items;
      reading = record { at = r.at; rest = r.rest.now; found = r.found };
    } };

    ghost invariant = { λ r. r.at + length r.rest.now < 2 ^ 63 };
}

/// Whether the byte m marks a character of two bytes where there is none.
fn is_wide_bare(m: u8) -> bool
    ensures { result ≡ spec.is_wide_bare m }
{
    has(0x80, m) && !has_character(m)
}

/// The character of two bytes, high byte first.
fn wide_character(high: u8, low: u8) -> Option<char>
    ensures { result ≡ wide_character (wide_number high low) }
{
    let code = u32::from(high) * 256 + u32::from(low);
    if code < 0x80 {
        return None;
    }
    char::from_u32(code)
}

impl<'a> Reader<'a> {
    /// The place after the last byte.
    fn end(&self) -> u64
        ensures { result ≡ spec.end_of self.now.reading }
    {
        self.at + self.rest.len() as u64
    }

    /// The place of the next byte.
    fn place(&self) -> u64
        ensures { result ≡ self.now.reading.at }
    {
        self.at
    }

    /// Leaves this many bytes of the path.
    fn shorten(&mut self, depth: usize)
        ensures { self.new ≡ record self.old { path = take depth self.old.path } }
    {
        self.path.truncate(depth);
    }

    /// How many bytes the path has.
    fn depth(&self) -> usize
        ensures { result ≡ length self.now.path }
    {
        self.path.len()
    }

    /// Takes the next byte; nothing changes where there is none.
    fn next_byte(&mut self) -> Option<u8>
        ensures byte { IfSome result (λ b. self.old.reading.rest ≡ b ∷ drop 1 self.old.reading.rest) }
        ensures some { OnSome result (self.new ≡ next_point self.old) }
        ensures none { IfNone result ((self.new ≡ self.old) × (self.old.reading.rest ≡ [])) }
    {
        let bytes = self.rest;
        let [b, rest @ ..] = bytes else {
            return None;
        };
        self.at += 1;
        self.rest = rest;
        Some(*b)
    }

    /// Reads the byte m of a node, and notes what follows it.
    fn take_node(&mut self, due: &mut Vec<Due>) -> Result<(), StabFault>
        ensures same { LeadsTo result (after_all due.new.items self.new)
            (and_next (after_all due.old.items) (after_due Due.Subtrie self.old)) }
        ensures less { OnOk result (weight self.new due.new.items ≤ weight self.old due.old.items) }
    {
        let node = self.place();
        let Some(m) = self.next_byte() else {
            return Err(StabFault::Truncated(node));
        };
        if is_wide_bare(m) {
            return Err(StabFault::Wide(node));
        }
        note_node(due, node, m)?;
        Ok(())
    }

    /// Adds bytes to the path.
    fn lengthen(&mut self, name: &[u8]) -> Result<(), StabFault>
        ensures ok { OnOk result (self.new ≡ record self.old { path = self.old.path ++ name.now }) }
        ensures memory { IfErr result (λ fault. fault ≡ StabFault.OutOfMemory) }
    {
        if self.path.extend_from_slice(name).is_err() {
            return Err(StabFault::OutOfMemory);
        }
        Ok(())
    }

    /// Reads a character of one byte into the path.
    fn take_byte(&mut self) -> Result<(), StabFault>
        ensures same { LeadsTo result (Ok self.new)
            (longer_path self.old.path (spec.one_byte_of self.old.reading)) }
        ensures fewer { OnOk result (length self.new.reading.rest < length self.old.reading.rest) }
    {
        let Some(c) = self.next_byte() else {
            return Err(StabFault::Truncated(self.place()));
        };
        self.lengthen(&[c])
    }

    /// Reads a character of two bytes into the path, in its UTF-8 form.
    fn take_wide(&mut self, node: u64) -> Result<(), StabFault>
        ensures same { LeadsTo result (Ok self.new)
            (longer_path self.old.path (spec.two_bytes_of node self.old.reading)) }
        ensures fewer { OnOk result (length self.new.reading.rest < length self.old.reading.rest) }
    {
        let bytes = self.rest;
        let [high, low, rest @ ..] = bytes else {
            return Err(StabFault::Truncated(self.end()));
        };
        let Some(c) = wide_character(*high, *low) else {
            return Err(StabFault::Wide(node));
        };
        self.at += 2;
        self.rest = rest;
        self.lengthen(c.encode_utf8(&mut [0; 4]).as_bytes())
    }

    /// Reads the character of a node into the path.
    fn take_character(&mut self, node: u64, m: u8) -> Result<(), StabFault>
        ensures same { LeadsTo result (Ok self.new)
            (longer_path self.old.path (spec.character_of node m self.old.reading)) }
        ensures fewer { OnOk result (length self.new.reading.rest < length self.old.reading.rest) }
    {
        if has(0x80, m) {
            self.take_wide(node)
        } else {
            self.take_byte()
        }
    }

    /// Reads what is in a node after its left subtrie, and notes its other subtries.
    fn take_rest(&mut self, due: &mut Vec<Due>, node: u64, m: u8) -> Result<(), StabFault>
        ensures same { LeadsTo result (after_all due.new.items self.new)
            (and_next (after_all due.old.items) (after_due (Due.Rest node m) self.old)) }
        ensures less { OnOk result (weight self.new due.new.items ≤ weight self.old due.old.items + 1) }
    {
        if !has_character(m) {
            note_subtrie(due, has(0x10, m))?;
            return Ok(());
        }
        let depth = self.depth();
        self.take_character(node, m)?;
        self.take_named(due, depth, node, m)
    }

    /// Reads the symbol that ends with the path's last character, and notes the middle and the right
    /// subtrie of its node.
    fn take_named(
        &mut self,
        due: &mut Vec<Due>,
        depth: usize,
        node: u64,
        m: u8,
    ) -> Result<(), StabFault>
        ensures same { LeadsTo result (after_all due.new.items self.new)
            (and_next (after_all due.old.items) (after_character depth node m self.old)) }
        ensures less { OnOk result (weight self.new due.new.items ≤ weight self.old due.old.items + 3) }
    {
        if self.depth() > LONGEST {
            return Err(StabFault::TooLong(node));
        }
        self.take_symbol(node, m % 16)?;
        note_symbol(due, depth, m)?;
        Ok(())
    }

    /// Reads a value with its serial number, where a symbol ends.
    fn take_symbol(&mut self, node: u64, kind: u8) -> Result<(), StabFault>
        requires { kind < 16 }
        ensures same { LeadsTo result (Ok self.new)
            (with_path self.old.path (spec.symbol kind node self.old.path self.old.reading)) }
        ensures fewer { length self.new.reading.rest ≤ length self.old.reading.rest }
    {
        if kind == 0 {
            return Ok(());
        }
        let bytes = self.rest;
        let size = value_size(kind);
        if bytes.len() < size {
            return Err(StabFault::Truncated(self.end()));
        }
        let (told, more) = bytes.split_at(size);
        match split_serial(more) {
            None => Err(StabFault::Truncated(self.end())),
            Some((serial, rest)) => self.add(node, value_of_kind(kind, told), serial, rest),
        }
    }

    /// Adds the symbol whose name is the path, and goes on after it.
    fn add(&mut self, node: u64, value: Value, serial: u64, rest: &'a [u8]) -> Result<(), StabFault>
        requires { length rest.now ≤ length self.old.reading.rest }
        ensures same { LeadsTo result (Ok self.new)
            (with_path self.old.path
            (spec.symbol_with node self.old.path value self.old.reading (Some (serial, rest.now)))) }
        ensures fewer { length self.new.reading.rest ≤ length self.old.reading.rest }
    {
        if serial >= TOO_LARGE {
            return Err(StabFault::BadSerial(node));
        }
        if self.found.has(self.path.as_slice()) {
            return Err(StabFault::Twice(node));
        }
        self.found.push(self.path.as_slice(), value, serial as u32)?;
        self.at += (self.rest.len() - rest.len()) as u64;
        self.rest = rest;
        Ok(())
    }

    /// Reads what is due next.
    fn take(&mut self, due: &mut Vec<Due>, next: Due) -> Result<(), StabFault>
        ensures same { LeadsTo result (after_all due.new.items self.new)
            (and_next (after_all due.old.items) (after_due next self.old)) }
        ensures less { OnOk result (weight self.new due.new.items < weight self.old due.old.items + due_weight next) }
    {
        match next {
            Due::Subtrie => self.take_node(due),
            Due::Rest { node, m } => self.take_rest(due, node, m),
            Due::Right { depth, m } => {
                self.shorten(depth);
                note_subtrie(due, has(0x10, m))?;
                Ok(())
            }
        }
    }

    /// The symbols, where at most three zeros are left.
    fn finish(self) -> Result<Symbols, StabFault>
        ensures { result ≡ spec.symbols_at_end (Ok self.entry.reading) }
    {
        if self.rest.len() <= 3 && are_zeros(self.rest) {
            Ok(self.found.into_symbols())
        } else {
            Err(StabFault::Padding(self.at))
        }
    }
}

/// Whether bytes are zeros.
fn are_zeros(bytes: &[u8]) -> bool
    ensures { result ≡ spec.are_zeros bytes.now }
{
    let mut rest = bytes;
    while let [b, more @ ..] = rest {
        if *b != 0 {
            return false;
        }
        rest = more;
    }
    true
}

/// Reads the whole trie.
fn read_all<'a>(alloc: Global, bytes: &'a [u8]) -> Result<Reader<'a>, StabFault>
    ensures { result ≢ Err StabFault.OutOfMemory →
        map_ok (λ p. p.reading) result ≡ spec.next_subtrie [] (spec.start bytes.now) }
{
    let mut reader = Reader {
        at: 0,
        rest: bytes,
        path: Vec::new(alloc),
        found: Found::new(alloc),
    };
    let mut due = Vec::new(alloc);
    note_subtrie(&mut due, true)?;
    while let Some(next) = due.pop() {
        reader.take(&mut due, next)?;
    }
    Ok(reader)
}

/// The symbols of a trie; no bytes give none.
fn symbols_of(alloc: Global, bytes: &[u8]) -> Result<Symbols, StabFault>
    ensures { result ≢ Err StabFault.OutOfMemory → result ≡ spec.trie_answer bytes.now }
{
    if bytes.is_empty() {
        return Ok(Symbols::new(alloc));
    }
    read_all(alloc, bytes)?.finish()
}

/// The symbols of a trie, in its order: first those of a left subtrie, then a node's own, then
/// those of its middle and of its right subtrie. No bytes give no symbols. A character of two bytes
/// adds its UTF-8 form to the names. It is not recursive, and notes one part for each node that is
/// not read to its end.
///
/// Errors: the first fault that is met where the bytes are read from the left. A node is refused as
/// `Wide` at its byte m or at its character, then as `TooLong`, and as `BadSerial` and then as
/// `Twice` at the end of its serial number; a missing byte is `Truncated` at once, and what follows
/// the trie is `Padding` last. `OutOfMemory` is the one free answer.
pub fn read(alloc: Global, bytes: &[u8]) -> Result<Symbols, StabFault>
    ensures answer { result ≢ Err StabFault.OutOfMemory → result ≡ spec.trie_answer bytes.now }
    ensures grammar { IfOk result (λ symbols. IsTrie bytes.now symbols) }
    ensures only { result ≢ Err StabFault.OutOfMemory →
        (symbols : List Symbol) → IsTrie bytes.now symbols → result ≡ Ok symbols }
    ensures names { IfOk result (λ symbols. AreDistinct symbols × AllByRecursion IsNamed symbols) }
    ensures table { IfErr result (λ fault. fault ≢ StabFault.OutOfMemory → FaultOf bytes.now fault) }
{
    symbols_of(alloc, bytes)
}
