//! The trie of symbols.

ghost use Rattle.std.specs.Prelude.{◌≡◌, ◌≤◌, ◌<◌, ◌+◌, [], ◌∷◌, ◌++◌, length, IfOk, IfErr, OnOk};
ghost use Rattle.mx_stab.specs.Trie as spec;
ghost use Rattle.mx_stab.specs.Writing as writing;
ghost use Rattle.mx_stab.specs.Writing.{bytes_due};
ghost use Rattle.mx_stab.specs.Grammar.{IsTrie};
ghost use Rattle.mx_word.specs.Symbols.{InByteOrder, IsNamed};
ghost use Rattle.std.specs.List.{AllByRecursion};

use crate::numbers::{append_serial, append_value, kind};
use mx_word::{Bytes, NoMemory, Symbol, Symbols};
use std::alloc::Global;

/// The most bytes of a name, so that nothing is deeper.
const LONGEST: usize = 1024;

/// Symbols whose names agree up to a place, and whose trie is still to be written.
#[derive(Clone, Copy)]
struct Pending<'a> {
    symbols: &'a [Symbol],
    at: usize,
}

/// The byte of a name at a place; a name that ends before has none, which counts as 0.
fn next_byte(at: usize, symbol: &Symbol) -> u8
    ensures { result ≡ spec.next_byte at symbol.now }
{
    match symbol.name.as_slice().get(at) {
        Some(byte) => *byte,
        None => 0,
    }
}

/// Whether a name ends with its byte at a place.
fn is_last_byte(at: usize, symbol: &Symbol) -> bool
    requires { at ≤ 1024 }
    ensures { result ≡ spec.is_last_byte at symbol.now }
{
    symbol.name.as_slice().len() <= at + 1
}

/// How many symbols are in front whose next byte is this one.
fn run_length(symbols: &[Symbol], at: usize, byte: u8) -> usize
    ensures value { result ≡ writing.run_length at byte symbols.now }
    ensures within { result ≤ length symbols.now }
{
    let mut rest = symbols;
    let mut count = 0;
    while let [first, others @ ..] = rest {
        if next_byte(at, first) != byte {
            return count;
        }
        count += 1;
        rest = others;
    }
    count
}

/// How many symbols the first group has.
fn group_size(at: usize, symbols: &[Symbol]) -> usize
    ensures value { result ≡ writing.group_size at symbols.now }
    ensures within { result ≤ length symbols.now }
{
    match symbols {
        [] => 0,
        [first, more @ ..] => 1 + run_length(more, at, next_byte(at, first)),
    }
}

/// The symbols of a group whose names go on.
fn symbols_below(at: usize, group: &[Symbol]) -> &[Symbol]
    requires { at ≤ 1024 }
    ensures { result.now ≡ spec.symbols_below at group.now }
{
    match group {
        [first, more @ ..] if is_last_byte(at, first) => more,
        _ => group,
    }
}

/// Whether there is any symbol.
fn has_symbols(symbols: &[Symbol]) -> bool
    ensures { result ≡ spec.has_symbols symbols.now }
{
    !symbols.is_empty()
}

/// Adds a byte at the end.
fn append_byte(bytes: &mut Vec<u8>, byte: u8) -> Result<(), NoMemory>
    ensures { OnOk result (bytes.new.items ≡ bytes.old.items ++ byte ∷ []) }
{
    bytes.push(byte)?;
    Ok(())
}

/// The bit of a byte m that tells of a subtrie.
fn bit(weight: u8, is: bool) -> u8
    ensures { result ≡ spec.bit weight is }
{
    if is { weight } else { 0 }
}

/// Adds the front of a node: its byte m, the character, and the value and the serial number where
/// the name ends here.
fn append_front_of(
    bytes: &mut Vec<u8>,
    at: usize,
    first: &Symbol,
    goes_on: bool,
    others: bool,
) -> Result<(), NoMemory>
    requires { at ≤ 1024 }
    ensures { OnOk result (bytes.new.items ≡ bytes.old.items ++ spec.front_of at first.now goes_on others) }
{
    let links = bit(0x20, goes_on) + bit(0x10, others);
    if is_last_byte(at, first) {
        append_byte(bytes, links + kind(first.value))?;
        append_byte(bytes, next_byte(at, first))?;
        append_value(bytes, first.value)?;
        append_serial(bytes, first.serial)
    } else {
        append_byte(bytes, links)?;
        append_byte(bytes, next_byte(at, first))
    }
}

/// Adds the front of a group's node.
fn append_front(
    bytes: &mut Vec<u8>,
    at: usize,
    group: &[Symbol],
    others: bool,
) -> Result<(), NoMemory>
    requires { at ≤ 1024 }
    ensures { OnOk result (bytes.new.items ≡ bytes.old.items ++ spec.node_front at group.now others) }
{
    match group {
        [] => Ok(()),
        [first, ..] => append_front_of(
            bytes,
            at,
            first,
            has_symbols(symbols_below(at, group)),
            others,
        ),
    }
}

/// Notes symbols whose trie is to be written before what was noted so far.
fn note<'a>(
    pending: &mut Vec<Pending<'a>>,
    at: usize,
    symbols: &'a [Symbol],
) -> Result<(), NoMemory>
    ensures due { OnOk result (
        bytes_due pending.new.items ≡ spec.trie_from at symbols.now ++ bytes_due pending.old.items) }
    ensures more { OnOk result (length pending.new.items ≡ length pending.old.items + 1) }
{
    pending.push(Pending { symbols, at })?;
    Ok(())
}

/// Adds the front of the first node, and notes what follows it. No more is noted than is
/// written.
fn take_node<'a>(
    bytes: &mut Vec<u8>,
    pending: &mut Vec<Pending<'a>>,
    at: usize,
    symbols: &'a [Symbol],
) -> Result<(), NoMemory>
    ensures same { OnOk result (bytes.new.items ++ bytes_due pending.new.items ≡
        bytes.old.items ++ spec.trie_from at symbols.now ++ bytes_due pending.old.items) }
    ensures noted { OnOk result (
        length pending.new.items + length bytes.old.items ≤ length pending.old.items + length bytes.new.items) }
{
    if LONGEST <= at {
        return Ok(());
    }
    if symbols.is_empty() {
        return Ok(());
    }
    let (group, others) = symbols.split_at(group_size(at, symbols));
    append_front(bytes, at, group, has_symbols(others))?;
    note(pending, at, others)?;
    note(pending, at + 1, symbols_below(at, group))?;
    Ok(())
}

/// The trie of symbols that are in the order of their names, each of 1 to 1,024 bytes: no left
/// subtries, right subtries in ascending order of their characters, and the fewest bytes for each
/// value and serial number.
pub fn write(alloc: Global, symbols: &Symbols) -> Result<Bytes, NoMemory>
    ensures trie { IfOk result (λ bytes. bytes ≡ spec.trie_of symbols.now) }
    ensures grammar { InByteOrder symbols.now → AllByRecursion IsNamed symbols.now →
        IfOk result (λ bytes. IsTrie bytes symbols.now) }
{
    Ok(Bytes::from_vec(write_all(alloc, symbols.as_slice())?))
}

/// The bytes of a trie.
fn write_all(alloc: Global, symbols: &[Symbol]) -> Result<Vec<u8>, NoMemory>
    ensures { IfOk result (λ bytes. bytes.items ≡ spec.trie_of symbols.now) }
{
    let mut bytes = Vec::new(alloc);
    let mut pending = Vec::new(alloc);
    note(&mut pending, 0, symbols)?;
    while let Some(next) = pending.pop() {
        take_node(&mut bytes, &mut pending, next.at, next.symbols)?;
    }
    Ok(bytes)
}
