//! What is looked up in a book.

ghost use Rattle.std.specs.Prelude.{◌≡◌};
ghost use Rattle.std.specs.Option.{option_map};
ghost use Rattle.mx_object.specs.Labels as places;
ghost use Rattle.mx_object.specs.Rows as rows;
ghost use Rattle.mx_type.specs.Lines as lines;
ghost use Rattle.mx_book.specs.Lookups as spec;

use crate::book::Book;
use crate::loads::Load;
use crate::things::{Thing, thing_with};
use mx_object::Label;
use mx_word::{Symbol, Value};

/// A name without the colon that it begins with, if it does.
fn short_name(name: &[u8]) -> &[u8]
    ensures { result.now ≡ rows.short_name name.now }
{
    match name {
        [first, others @ ..] if *first == b':' => others,
        _ => name,
    }
}

/// Whether a symbol has this name, with or without a colon in front.
fn is_named(name: &[u8], symbol: &Symbol) -> bool
    ensures { result ≡ spec.is_named name.now symbol.now }
{
    short_name(symbol.name.as_slice()) == short_name(name)
}

/// The first symbol with this name.
fn find_symbol<'a>(symbols: &'a [Symbol], name: &[u8]) -> Option<&'a Symbol>
    ensures { option_map (λ s. s.now) result ≡ spec.symbol_named symbols.now name.now }
{
    symbols.iter().find(|symbol| is_named(name, symbol))
}

/// Whether an address is at or before another in its segment.
fn is_at_or_before(a: u64, b: u64) -> bool
    ensures { result ≡ places.precedes a b }
{
    a <= b && a >> 61 == b >> 61
}

/// The address of a label, if it is at or before this one in its segment.
fn address_before(address: u64, label: &Label) -> Option<u64>
    ensures { result ≡ spec.address_before address label.now }
{
    if is_at_or_before(label.address, address) {
        Some(label.address)
    } else {
        None
    }
}

/// The greater of two addresses.
fn greater(first: Option<u64>, second: Option<u64>) -> Option<u64>
    ensures { result ≡ spec.greater first second }
{
    match (first, second) {
        (None, other) => other,
        (Some(a), None) => Some(a),
        (Some(a), Some(b)) => { if a < b { Some(b) } else { Some(a) } }
    }
}

/// The greatest address of a label at or before this one in its segment.
fn nearest_address(labels: &[Label], address: u64) -> Option<u64>
    ensures { result ≡ spec.nearest_address address labels.now }
{
    let mut best = None;
    for label in labels {
        best = greater(best, address_before(address, label));
    }
    best
}

/// The first label at an address.
fn label_at(labels: &[Label], address: u64) -> Option<&Label>
    ensures { option_map (λ l. l.now) result ≡ spec.label_at labels.now address }
{
    labels.iter().find(|label| label.address == address)
}

/// The address of the tetra that holds an address.
fn tetra_address(a: u64) -> u64
    ensures { result ≡ lines.tetra_address a }
{
    4 * (a / 4)
}

/// Whether a tetra holds an address, and its line is known.
fn has_known_line(address: u64, load: &Load) -> bool
    ensures { result ≡ spec.tells_line address load.now }
{
    load.address == tetra_address(address) && load.line != 0
}

/// The first of tetras that holds an address and whose line is known.
fn find_load(loads: &[Load], address: u64) -> Option<&Load>
    ensures { option_map (λ l. l.now) result ≡ spec.telling loads.now address }
{
    loads.iter().find(|load| has_known_line(address, load))
}

/// An instruction, if its line is this one or a later one.
fn from_line(line: u32, load: Load) -> Option<Load>
    ensures { result ≡ spec.from_line line load }
{
    if load.is_code && line <= load.line {
        Some(load)
    } else {
        None
    }
}

/// The one of two instructions whose line is earlier; of two on one line, the first.
fn earlier(first: Option<Load>, second: Option<Load>) -> Option<Load>
    ensures { result ≡ spec.earlier first second }
{
    match (first, second) {
        (None, other) => other,
        (Some(load), None) => Some(load),
        (Some(load), Some(other)) => {
            if other.line < load.line {
                Some(other)
            } else {
                Some(load)
            }
        }
    }
}

/// The first instruction of the earliest line from this one on.
fn earliest(loads: &[Load], line: u32) -> Option<Load>
    ensures { result ≡ spec.earliest line loads.now }
{
    let mut best = None;
    for load in loads {
        best = earlier(best, from_line(line, *load));
    }
    best
}

/// What is looked up.
#[tactic(auto, unfolding(crate::specs::Lookups::nearest))]
impl Book {
    /// What a name means. The colon that complete names begin with may be missing.
    pub fn look_up_symbol(&self, name: &[u8]) -> Option<Value>
        ensures { result ≡ spec.symbol self.now name.now }
    {
        match find_symbol(self.symbols.as_slice(), name) {
            Some(symbol) => Some(symbol.value),
            None => None,
        }
    }

    /// What is shown where this name is written: a register, or a number, which may be an address.
    pub fn look_up_thing(&self, name: &[u8]) -> Option<Thing>
        ensures { result ≡ spec.thing self.now name.now }
    {
        match self.look_up_symbol(name) {
            Some(value) => Some(thing_with(value)),
            None => None,
        }
    }

    /// The label nearest to an address, at or before it in its segment. Of labels with one address it is the first.
    pub fn nearest_label(&self, address: u64) -> Option<&Label>
        ensures { option_map (λ l. l.now) result ≡ spec.nearest self.now address }
    {
        match nearest_address(self.labels.as_slice(), address) {
            Some(a) => label_at(self.labels.as_slice(), a),
            None => None,
        }
    }

    /// The number of the line that loads the tetra that holds an address.
    pub fn line_at(&self, address: u64) -> Option<u32>
        ensures { result ≡ spec.line_at self.now address }
    {
        match find_load(self.loads.as_slice(), address) {
            Some(load) => Some(load.line),
            None => None,
        }
    }

    /// The first instruction of the first line, from this one on, that loads an instruction.
    pub fn address_of_line(&self, line: u32) -> Option<Load>
        ensures { result ≡ spec.address_of_line self.now line }
    {
        earliest(self.loads.as_slice(), line)
    }
}
