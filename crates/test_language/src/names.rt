//! Names, prefixes and local labels, in the order in which a source gives them.

ghost use Rattle.std.specs.Prelude.{◌+◌, ◌<◌, ◌≤◌, length, IfOk, IsTrue};
ghost use Rattle.mx_names.specs.Names.{IsFullName};

use mx_names::{Awaited, NameFault, Names, Wait, WaitKind};
use mx_word::{Bytes, NoMemory, Symbol, Value};
use std::alloc::Global;

/// A complete name of this length: a colon, and then letters.
fn long_name(alloc: Global, length: usize) -> Result<Bytes, NoMemory> {
    let mut name = Bytes::copy(alloc, b":")?;
    for _ in 1..length {
        name.push(b'a')?;
    }
    Ok(name)
}

/// The complete form, or the number of the fault.
fn resolved(names: &Names, name: &[u8], want: Result<&[u8], u16>) -> bool {
    match (names.resolve(name), want) {
        (Ok(full), Ok(want)) => full.as_slice() == want,
        (Err(fault), Err(want)) => fault.number() == want,
        _ => false,
    }
}

/// Prefixes that are set in turn, where there is one; a name then, and its complete form.
static PREFIXES: [(Option<&str>, &str, &str); 5] = [
    // the prefix is a colon
    (None, "a", ":a"),
    // after the prefix
    (Some("p:"), "a", ":p:a"),
    // complete
    (None, ":a", ":a"),
    // a prefix after a prefix
    (Some("q"), "a", ":p:qa"),
    // a complete prefix
    (Some(":"), "a", ":a"),
];

/// Whether the prefix of a row can be set, where there is one, and its name then has its complete form.
fn resolves(names: &mut Names, row: &(Option<&str>, &str, &str)) -> bool {
    let (prefix, name, full) = row;
    if let Some(prefix) = prefix {
        if names.set_prefix(prefix.as_bytes()).is_err() {
            return false;
        }
    }
    resolved(names, name.as_bytes(), Ok(full.as_bytes()))
}

#[test]
fn prefixes(rt: HostRuntime) {
    let mut names = Names::new(rt.alloc()).expect(&rt, "memory");
    for row in &PREFIXES {
        assert!(rt; resolves(&mut names, row), "{} is {}", row.1, row.2);
    }
}

/// Whether a name of 1,024 bytes is complete, and one of 1,025 too long.
fn are_at_the_limit(names: &Names, most: &[u8], more: &[u8]) -> (bool, bool) {
    (
        resolved(names, most, Ok(most)),
        resolved(names, more, Err(33)),
    )
}

/// Whether a name of 1,025 bytes is refused as a prefix, and the prefix stays.
fn is_refused(names: &mut Names, more: &[u8]) -> (bool, bool) {
    let is_refused = names.set_prefix(more) == Err(NameFault::NameTooLong);
    (is_refused, resolved(names, b"a", Ok(b":a")))
}

/// Whether a name of 1,024 bytes is taken as a prefix, one byte after it is too many, and nothing after it
/// is not.
fn is_taken(names: &mut Names, most: &[u8]) -> (bool, bool, bool) {
    let is_taken = names.set_prefix(most).is_ok();
    (
        is_taken,
        resolved(names, b"a", Err(33)),
        resolved(names, b"", Ok(most)),
    )
}

/// What holds of names of 1,024 and of 1,025 bytes, and then of them as prefixes.
type Limits = ((bool, bool), (bool, bool), (bool, bool, bool));

/// What holds of a name of 1,025 bytes, and of the one without its last byte.
fn limits_of(names: &mut Names, more: &[u8]) -> Limits {
    let most = &more[..more.len().saturating_sub(1)];
    (
        are_at_the_limit(names, most, more),
        is_refused(names, more),
        is_taken(names, most),
    )
}

/// What holds of the longest name and of one that is too long.
fn limits(alloc: Global) -> Result<Limits, NameFault> {
    let more = long_name(alloc, 1025)?;
    let mut names = Names::new(alloc)?;
    Ok(limits_of(&mut names, more.as_slice()))
}

#[test]
fn long_names(rt: HostRuntime) {
    let all = ((true, true), (true, true), (true, true, true));
    assert_eq!(rt; limits(rt.alloc()), Ok(all));
}

/// Defines a name given by its text.
fn put(alloc: Global, names: &mut Names, text: &[u8], v: Value) -> Result<(), NameFault>
    requires full { IsFullName text.now }
    requires room { length names.old.names.symbols < 100 }
    ensures { length names.new.names.symbols ≤ length names.old.names.symbols + 1 }
{
    match Bytes::copy(alloc, text) {
        Ok(full) => names.define(full, v),
        Err(_) => Err(NameFault::OutOfMemory),
    }
}

/// Whether a symbol has this name, value and serial.
fn is(symbol: &Symbol, want: &(&str, Value, u32)) -> bool {
    let (name, value, serial) = want;
    symbol.name.as_slice() == name.as_bytes() && symbol.value == *value && symbol.serial == *serial
}

/// Whether the defined symbols are these.
fn sorted_as(names: &Names, want: &[(&str, Value, u32)]) -> bool {
    let Ok(symbols) = names.sorted() else {
        return false;
    };
    let symbols = symbols.as_slice();
    if symbols.len() != want.len() {
        return false;
    }
    for (symbol, want) in symbols.iter().zip(want) {
        if !is(symbol, want) {
            return false;
        }
    }
    true
}

/// `:b`, `:a` and `:aa` are defined, in this order.
fn three_names(alloc: Global) -> Result<Names, NameFault>
    ensures { IfOk result (λ names. length names.names.symbols ≤ 3) }
{
    let mut names = Names::new(alloc)?;
    put(alloc, &mut names, b":b", Value::Pure(7))?;
    put(alloc, &mut names, b":a", Value::Reg(254))?;
    put(alloc, &mut names, b":aa", Value::Pure(u64::MAX))?;
    Ok(names)
}

/// The answers where `:b` is defined again and where `:rA` is, and what `:b` then is.
type Refusals = (Result<(), NameFault>, Result<(), NameFault>, Option<Value>);

/// The answers where a name is defined again and where a predefined one is.
fn defined_again(alloc: Global) -> Result<Refusals, NameFault> {
    let mut names = three_names(alloc)?;
    let twice = put(alloc, &mut names, b":b", Value::Pure(8));
    let predefined = put(alloc, &mut names, b":rA", Value::Pure(9));
    Ok((twice, predefined, names.lookup(b":b")))
}

#[test]
fn definitions_refused(rt: HostRuntime) {
    // the value is that of the first definition
    let want = (
        Err(NameFault::Twice),
        Err(NameFault::Predefined),
        Some(Value::Pure(7)),
    );
    assert_eq!(rt; defined_again(rt.alloc()), Ok(want));
}

/// The three names in byte order, with the serials of the order of definition.
static SORTED: [(&str, Value, u32); 3] = [
    (":a", Value::Reg(254), 2),
    (":aa", Value::Pure(u64::MAX), 3),
    (":b", Value::Pure(7), 1),
];

/// What `:rA` and `:c` are beside the three names, and whether these are sorted.
fn looked_up(alloc: Global) -> Result<(Option<Value>, Option<Value>, bool), NameFault> {
    let names = three_names(alloc)?;
    Ok((
        names.lookup(b":rA"),
        names.lookup(b":c"),
        sorted_as(&names, &SORTED),
    ))
}

#[test]
fn lookups(rt: HostRuntime) {
    // one is predefined, the other not defined
    let want = (Some(Value::Pure(21)), None, true);
    assert_eq!(rt; looked_up(rt.alloc()), Ok(want));
}

#[test]
fn numbers_of_faults(rt: HostRuntime) {
    let numbers = (
        NameFault::Twice.number(),
        NameFault::Predefined.number(),
        NameFault::NameTooLong.number(),
        NameFault::OutOfMemory.number(),
    );
    assert_eq!(rt; numbers, (30, 31, 33, 0));
}

/// The values of 3B before any 3H, of 3B after a second 3H, and of 4B after a 4H.
fn local_values(alloc: Global) -> Result<(Value, Value, Value), NameFault> {
    let mut names = Names::new(alloc)?;
    let before = names.local_back(3);
    names.define_local(3, Value::Pure(256));
    names.define_local(4, Value::Pure(260));
    names.define_local(3, Value::Reg(17));
    Ok((before, names.local_back(3), names.local_back(4)))
}

#[test]
fn local_labels(rt: HostRuntime) {
    let want = (Value::Pure(0), Value::Reg(17), Value::Pure(260));
    assert_eq!(rt; local_values(rt.alloc()), Ok(want));
}

/// A reference in an octa at this address, on line 1.
fn octa_wait(who: Awaited, at: u64) -> Wait {
    Wait {
        who,
        at,
        line: 1,
        kind: WaitKind::Octa,
    }
}

/// A complete name of a number.
fn numbered(alloc: Global, n: u32) -> Result<Awaited, NameFault> {
    let mut full = Bytes::copy(alloc, b":")?;
    full.extend(&n.to_be_bytes())?;
    Ok(Awaited::Name(full))
}

/// The address of the earliest reference.
fn first_place(names: &Names) -> Option<u64> {
    match names.first_waiting() {
        Some(wait) => Some(wait.at),
        None => None,
    }
}

/// The addresses of the references to one name or label, which wait no longer.
fn places(names: &mut Names, who: &Awaited, want: &[u64]) -> Result<bool, NameFault> {
    let waits = names.take_waiting(who)?;
    let waits = waits.as_slice();
    Ok(waits.len() == want.len() && waits.iter().zip(want).all(|(wait, at)| wait.at == *at))
}

/// Adds a reference to the name of a number at an address.
fn wait_for_number(names: &mut Names, alloc: Global, n: u32, at: u64) -> Result<(), NameFault> {
    let name = numbered(alloc, n)?;
    names.wait_for(octa_wait(name, at))?;
    Ok(())
}

/// Adds a reference to a local label at an address, and one to a name at another.
fn wait_for_both(names: &mut Names, alloc: Global, at: u64, other: u64) -> Result<(), NameFault> {
    names.wait_for(octa_wait(Awaited::Local(2), at))?;
    wait_for_number(names, alloc, 7, other)
}

/// Makes references to a name and to a local label by turns.
fn wait_by_turns(names: &mut Names, alloc: Global) -> Result<(), NameFault> {
    for (at, other) in [(0, 8), (16, 24), (32, 40)] {
        wait_for_both(names, alloc, at, other)?;
    }
    Ok(())
}

/// References to a name and to a local label, made by turns.
fn waiting_by_turns(alloc: Global) -> Result<Names, NameFault> {
    let mut names = Names::new(alloc)?;
    wait_by_turns(&mut names, alloc)?;
    Ok(names)
}

/// A local label, or the name to which references are made by turns.
fn awaited(alloc: Global, label: Option<u8>) -> Result<Awaited, NameFault> {
    match label {
        Some(digit) => Ok(Awaited::Local(digit)),
        None => numbered(alloc, 7),
    }
}

/// The address of the earliest reference, and whether those to a label or the name, which are then taken,
/// are at these addresses.
fn taken(
    names: &mut Names,
    alloc: Global,
    label: Option<u8>,
    want: &[u64],
) -> Result<(Option<u64>, bool), NameFault> {
    let first = first_place(names);
    let who = awaited(alloc, label)?;
    Ok((first, places(names, &who, want)?))
}

/// Labels, or the name, that are taken in turn, the earliest address before, and the addresses taken.
static TURNS: [(Option<u8>, Option<u64>, &[u64]); 4] = [
    // another label, the label, the name, and the name once more
    (Some(3), Some(0), &[]),
    (Some(2), Some(0), &[0, 16, 32]),
    (None, Some(8), &[8, 24, 40]),
    (None, None, &[]),
];

#[test]
fn references_by_turns(rt: HostRuntime) {
    let mut names = waiting_by_turns(rt.alloc()).expect(&rt, "memory");
    for (label, first, places) in &TURNS {
        let taken = taken(&mut names, rt.alloc(), *label, places);
        assert_eq!(rt; taken, Ok((*first, true)), "{label:?}");
    }
}

/// The earliest reference where none was made.
fn first_of_none(alloc: Global) -> Result<Option<u64>, NameFault> {
    let names = Names::new(alloc)?;
    Ok(first_place(&names))
}

#[test]
fn no_references(rt: HostRuntime) {
    assert_eq!(rt; first_of_none(rt.alloc()), Ok(None));
}

/// This many references to as many names, each taken.
fn many(alloc: Global, count: u32) -> Result<bool, NameFault> {
    let mut names = Names::new(alloc)?;
    for n in 0..count {
        names.wait_for(octa_wait(numbered(alloc, n)?, u64::from(n)))?;
    }
    for n in 0..count {
        if !places(&mut names, &numbered(alloc, n)?, &[u64::from(n)])? {
            return Ok(false);
        }
    }
    Ok(first_place(&names) == None)
}

#[test]
fn many_references(rt: HostRuntime) {
    assert_eq!(rt; many(rt.alloc(), 100_000), Ok(true));
}
