//! What is shown of an object.

ghost use Rattle.std.specs.Prelude.{◌≡◌, ◌≢◌, ◌≤◌, ◌^◌, ◌++◌, ◌∷◌, [], Err, IfOk, OnOk, length};
ghost use Rattle.mx_load.specs.Kept.{image_of};
ghost use Rattle.mx_object.specs.Listing as spec;

use crate::joining::tetra_address;
use crate::labels::{collect_labelled, nearest};
use crate::reading::addresses_in;
use crate::tetras::{FoundTetra, ListedTetras, tetra_at, tetras_at};
use mx_load::{Image, ObjectFault, load_object};
use mx_word::{Bytes, NoMemory, Symbol, Symbols};
use std::alloc::Global;

/// What is listed of an object, as data: the tetras that it loads, in the order of their addresses, and its symbols, in the
/// order of their names.
#[derive(Drop)]
pub struct ListedObject {
    pub tetras: ListedTetras,
    pub symbols: Symbols,
}

/// Whether bytes begin as an object does, and no source: with the lopcode `lop_pre` of version 1.
pub fn is_object(bytes: &[u8]) -> bool
    ensures { result ≡ spec.begins_as_object bytes.now }
{
    match bytes {
        [escape, code, version, ..] => *escape == 0x98 && *code == 9 && *version == 1,
        _ => false,
    }
}

/// A symbol like another.
fn copy_symbol(alloc: Global, symbol: &Symbol) -> Result<Symbol, NoMemory>
    ensures { IfOk result (λ copy. copy ≡ symbol.now) }
{
    let name = Bytes::copy(alloc, symbol.name.as_slice())?;
    Ok(Symbol {
        name,
        value: symbol.value,
        serial: symbol.serial,
    })
}

/// Symbols like these.
fn copy_symbols(alloc: Global, symbols: &[Symbol]) -> Result<Symbols, NoMemory>
    ensures { IfOk result (λ copies. copies ≡ symbols.now) }
{
    let mut copies = Symbols::new(alloc);
    for symbol in symbols {
        copies.push(copy_symbol(alloc, symbol)?)?;
    }
    Ok(copies)
}

/// The tetras that an object loads whose image this is.
pub(crate) fn tetras_of(
    alloc: Global,
    image: &Image,
    bytes: &[u8],
) -> Result<ListedTetras, NoMemory>
    requires { length bytes.now ≤ 2 ^ 26 }
    ensures { IfOk result (λ tetras. tetras
        ≡ (spec.listed_of (image_of image.now) image.now.symbols bytes.now).tetras) }
{
    let labelled = collect_labelled(alloc, image.symbols().as_slice())?;
    let addresses = addresses_in(alloc, bytes)?;
    let list = addresses.list(alloc)?;
    tetras_at(alloc, image, &labelled, list.as_slice())
}

/// What is listed of an object whose image this is.
fn list_image(alloc: Global, image: &Image, bytes: &[u8]) -> Result<ListedObject, NoMemory>
    requires { length bytes.now ≤ 2 ^ 26 }
    ensures { IfOk result (λ listed. listed ≡ spec.listed_of (image_of image.now) image.now.symbols bytes.now) }
{
    let tetras = tetras_of(alloc, image, bytes)?;
    let symbols = copy_symbols(alloc, image.symbols().as_slice())?;
    Ok(ListedObject { tetras, symbols })
}

/// What is listed of the object that bytes are.
///
/// Errors: the fault with its byte place for which `mmixware sim` refuses the object; out of memory.
#[tactic(auto, using(crate::proofs::ShortObjects::short))]
pub fn list_object(alloc: Global, bytes: &[u8]) -> Result<ListedObject, ObjectFault>
    ensures { result ≢ Err ObjectFault.OutOfMemory → spec.answer_in result ≡ spec.object_listed bytes.now }
{
    match load_object(alloc, bytes) {
        Ok(image) => match list_image(alloc, &image, bytes) {
            Ok(listed) => Ok(listed),
            Err(_) => Err(ObjectFault::OutOfMemory),
        },
        Err(fault) => Err(fault),
    }
}

/// The tetra at an address with the place of the address.
fn tetra_in_image(alloc: Global, image: &Image, address: u64) -> Result<FoundTetra, NoMemory>
    ensures { IfOk result (λ found. found ≡ spec.found_in (image_of image.now) image.now.symbols address) }
{
    let labelled = collect_labelled(alloc, image.symbols().as_slice())?;
    let tetra = tetra_at(alloc, image, &labelled, tetra_address(address))?;
    let place = nearest(alloc, address, image.symbols().as_slice())?;
    Ok(FoundTetra { tetra, place })
}

/// The tetra that holds an address of an object whose image this is, if it loads one.
fn find_tetra_in(
    alloc: Global,
    image: &Image,
    bytes: &[u8],
    address: u64,
) -> Result<Option<FoundTetra>, NoMemory>
    requires { length bytes.now ≤ 2 ^ 26 }
    ensures { IfOk result (λ found. found
        ≡ spec.found_of (image_of image.now) image.now.symbols bytes.now address) }
{
    let addresses = addresses_in(alloc, bytes)?;
    if !addresses.has(tetra_address(address)) {
        return Ok(None);
    }
    let found = tetra_in_image(alloc, image, address)?;
    Ok(Some(found))
}

/// The tetra that holds an address, among those that the object loads which bytes are; nothing where it loads none there.
///
/// Errors: as `list_object`.
#[tactic(auto, using(crate::proofs::ShortObjects::short))]
pub fn find_tetra(
    alloc: Global,
    bytes: &[u8],
    address: u64,
) -> Result<Option<FoundTetra>, ObjectFault>
    ensures { result ≢ Err ObjectFault.OutOfMemory →
        spec.answer_in result ≡ spec.object_found bytes.now address }
{
    match load_object(alloc, bytes) {
        Ok(image) => match find_tetra_in(alloc, &image, bytes, address) {
            Ok(found) => Ok(found),
            Err(_) => Err(ObjectFault::OutOfMemory),
        },
        Err(fault) => Err(fault),
    }
}
