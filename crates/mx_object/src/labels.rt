//! The labels of tetras, and the symbol that is nearest to an address.

ghost use Rattle.std.specs.Prelude.{◌≡◌, ◌++◌, IfOk, OnOk};
ghost use Rattle.mx_object.specs.Addresses.{with_all};
ghost use Rattle.mx_object.specs.Labels as spec;

use crate::addresses::Addresses;
use crate::joining::tetra_address;
use mx_word::{Bytes, NoMemory, Sequence, Symbol, Value};
use std::alloc::Global;

/// A symbol whose value is an address of a tetra: its name and its value.
#[derive(Drop)]
pub struct Label {
    pub name: Bytes,
    pub address: u64,
}

/// A list of labels.
pub type Labels = Sequence<Label>;

/// Where an address is: this many bytes after the address that a symbol has.
#[derive(Drop)]
pub struct Place {
    pub name: Bytes,
    pub offset: u64,
}

/// Adds the label that a symbol is of the tetra at an address, if it is one.
fn add_label(
    alloc: Global,
    labels: &mut Labels,
    address: u64,
    symbol: &Symbol,
) -> Result<(), NoMemory>
    ensures { OnOk result (labels.new ≡ labels.old ++ spec.label_of address symbol.now) }
{
    let Value::Pure(a) = symbol.value else {
        return Ok(());
    };
    if tetra_address(a) != address {
        return Ok(());
    }
    let name = Bytes::copy(alloc, symbol.name.as_slice())?;
    labels.push(Label { name, address: a })
}

/// The labels of the tetra at an address.
fn labels_among(alloc: Global, address: u64, symbols: &[Symbol]) -> Result<Labels, NoMemory>
    ensures { IfOk result (λ labels. labels ≡ spec.labels_at address symbols.now) }
{
    let mut labels = Labels::new(alloc);
    for symbol in symbols {
        add_label(alloc, &mut labels, address, symbol)?;
    }
    Ok(labels)
}

/// Adds the address of the tetra that a value is in, if it is an address.
#[tactic(auto, using(crate::proofs::AddressLists::more))]
fn add_tetra(addresses: &mut Addresses, value: Value) -> Result<(), NoMemory>
    ensures { OnOk result (addresses.new ≡ with_all addresses.old (spec.value_tetra value)) }
{
    match value {
        Value::Pure(a) => addresses.add(tetra_address(a)),
        Value::Reg(_) => Ok(()),
    }
}

/// The addresses of the tetras that have labels.
pub(crate) fn collect_labelled(alloc: Global, symbols: &[Symbol]) -> Result<Addresses, NoMemory>
    ensures { IfOk result (λ addresses. addresses ≡ spec.labelled symbols.now) }
{
    let mut addresses = Addresses::new(alloc);
    for symbol in symbols {
        add_tetra(&mut addresses, symbol.value)?;
    }
    Ok(addresses)
}

/// The labels of the tetra at an address, where `collect_labelled` has the addresses of the tetras that have any.
#[tactic(auto, using(crate::proofs::LabelLists::none))]
pub(crate) fn labels_at(
    alloc: Global,
    address: u64,
    symbols: &[Symbol],
    labelled: &Addresses,
) -> Result<Labels, NoMemory>
    requires { labelled.now ≡ spec.labelled symbols.now }
    ensures { IfOk result (λ labels. labels ≡ spec.labels_at address symbols.now) }
{
    if !labelled.has(address) {
        return Ok(Labels::new(alloc));
    }
    labels_among(alloc, address, symbols)
}

/// Whether an address is at or before another in its segment.
fn is_at_or_before(a: u64, b: u64) -> bool
    ensures { result ≡ spec.precedes a b }
{
    a <= b && a >> 61 == b >> 61
}

/// A symbol as a place before an address, if it is one.
fn place_of(alloc: Global, address: u64, symbol: &Symbol) -> Result<Option<Place>, NoMemory>
    ensures { IfOk result (λ place. place ≡ spec.place_of address symbol.now) }
{
    let Value::Pure(a) = symbol.value else {
        return Ok(None);
    };
    if !is_at_or_before(a, address) {
        return Ok(None);
    }
    let name = Bytes::copy(alloc, symbol.name.as_slice())?;
    Ok(Some(Place {
        name,
        offset: address - a,
    }))
}

/// The nearer of two places; of two that are equally near, the first.
fn nearer(first: Option<Place>, second: Option<Place>) -> Option<Place>
    ensures { result ≡ spec.nearer first second }
{
    match (first, second) {
        (None, place) => place,
        (Some(place), None) => Some(place),
        (Some(near), Some(other)) => {
            if other.offset < near.offset {
                Some(other)
            } else {
                Some(near)
            }
        }
    }
}

/// The nearest symbol at or before an address in its segment, as the place of this address.
pub(crate) fn nearest(
    alloc: Global,
    address: u64,
    symbols: &[Symbol],
) -> Result<Option<Place>, NoMemory>
    ensures { IfOk result (λ place. place ≡ spec.nearest address symbols.now) }
{
    let mut best = None;
    for symbol in symbols {
        let place = place_of(alloc, address, symbol)?;
        best = nearer(best, place);
    }
    Ok(best)
}
