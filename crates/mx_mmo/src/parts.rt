//! What follows a lopcode: tetras, octas, addresses and names.

ghost use Rattle.std.specs.Prelude.{◌≡◌, ◌≢◌, ◌+◌, IfOk, length};
ghost use Rattle.mx_mmo.specs.Reading as spec;

use crate::{Item, MmoFault, Octas, Words};
use mx_word::{Bytes, NoMemory, octa_of, tetra_of};
use std::alloc::Global;

/// An item with how many bytes it takes; nothing where it is not whole yet.
pub type Due = Result<Option<(Item, usize)>, MmoFault>;

/// The tetras of bytes; one to three bytes at the end give none.
fn tetras_of(alloc: Global, bytes: &[u8]) -> Result<Words, NoMemory>
    ensures { IfOk result (λ tetras. tetras ≡ spec.tetras_of bytes.now) }
{
    let mut tetras = Words::new(alloc);
    let mut rest = bytes;
    while let [a, b, c, d, others @ ..] = rest {
        tetras.push(tetra_of([*a, *b, *c, *d]))?;
        rest = others;
    }
    Ok(tetras)
}

/// The octas of bytes; one to seven bytes at the end give none.
fn octas_of(alloc: Global, bytes: &[u8]) -> Result<Octas, NoMemory>
    ensures { IfOk result (λ octas. octas ≡ spec.octas_of bytes.now) }
{
    let mut octas = Octas::new(alloc);
    let mut rest = bytes;
    while let [a, b, c, d, e, f, g, h, others @ ..] = rest {
        octas.push(octa_of([*a, *b, *c, *d, *e, *f, *g, *h]))?;
        rest = others;
    }
    Ok(octas)
}

/// Bytes without the zeros at their end.
fn trim_zeros(bytes: &[u8]) -> &[u8]
    ensures { result.now ≡ spec.trimmed bytes.now }
{
    let mut name = bytes;
    while let [front @ .., last] = name {
        if *last != 0 {
            return name;
        }
        name = front;
    }
    name
}

/// `pre` with this many tetras after it.
pub fn read_pre(alloc: Global, z: u8, more: &[u8]) -> Due
    ensures { result ≢ Err MmoFault.OutOfMemory → result ≡ spec.pre_item z more.now }
{
    let size = 4 * usize::from(z);
    if more.len() < size {
        return Ok(None);
    }
    let tetras = tetras_of(alloc, &more[..size])?;
    Ok(Some((Item::Pre(tetras), 4 + size)))
}

/// A tetra after a quote.
pub fn read_quote(more: &[u8]) -> Due
    ensures { result ≡ spec.on_tetra spec.quoted_tetra more.now }
{
    match more {
        [a, b, c, d, ..] => Ok(Some((Item::Load(tetra_of([*a, *b, *c, *d])), 8))),
        _ => Ok(None),
    }
}

/// An address whose high byte is given, with a tetra after it.
fn short_address(y: u8, more: &[u8]) -> Result<Option<(u64, usize)>, MmoFault>
    ensures { result ≡ spec.on_tetra (spec.short_address y) more.now }
{
    match more {
        [a, b, c, d, ..] => {
            let low = u64::from(tetra_of([*a, *b, *c, *d]));
            Ok(Some((u64::from(y) * (1 << 56) + low, 8)))
        }
        _ => Ok(None),
    }
}

/// An address in an octa, to which the high byte is added; addresses are modulo 2^64.
fn long_address(y: u8, more: &[u8]) -> Result<Option<(u64, usize)>, MmoFault>
    ensures { result ≡ spec.on_octa (spec.long_address y) more.now }
{
    match more {
        [a, b, c, d, e, f, g, h, ..] => {
            let octa = octa_of([*a, *b, *c, *d, *e, *f, *g, *h]);
            Ok(Some(((u64::from(y) * (1 << 56)).wrapping_add(octa), 12)))
        }
        _ => Ok(None),
    }
}

/// An address, with how many bytes it takes together with its lopcode.
fn address_due(at: u64, y: u8, z: u8, more: &[u8]) -> Result<Option<(u64, usize)>, MmoFault>
    ensures { result ≡ spec.address_due at y z more.now }
{
    match z {
        1 => short_address(y, more),
        2 => long_address(y, more),
        _ => Err(MmoFault::BadFields(at)),
    }
}

/// A new address for lambda.
pub fn read_loc(at: u64, y: u8, z: u8, more: &[u8]) -> Due
    ensures { result ≡ spec.item_due (λ a. Item.Loc a) (spec.address_due at y z more.now) }
{
    match address_due(at, y, z, more)? {
        Some((address, size)) => Ok(Some((Item::Loc(address), size))),
        None => Ok(None),
    }
}

/// An address where lambda is joined.
pub fn read_fixo(at: u64, y: u8, z: u8, more: &[u8]) -> Due
    ensures { result ≡ spec.item_due (λ a. Item.FixOcta a) (spec.address_due at y z more.now) }
{
    match address_due(at, y, z, more)? {
        Some((address, size)) => Ok(Some((Item::FixOcta(address), size))),
        None => Ok(None),
    }
}

/// A far fix of this many bits, whose tetra begins with 0 or 1.
pub fn read_far_fix(at: u64, bits: u8, more: &[u8]) -> Due
    ensures { result ≡ spec.on_tetra (spec.far_tetra at bits) more.now }
{
    match more {
        [a, b, c, d, ..] => {
            let word = tetra_of([*a, *b, *c, *d]);
            if word < 1 << 25 {
                Ok(Some((Item::FixFar { bits, word }, 8)))
            } else {
                Err(MmoFault::BadFields(at))
            }
        }
        _ => Ok(None),
    }
}

/// A file whose name is in these bytes, with zeros after it.
fn read_file_name(alloc: Global, at: u64, number: u8, bytes: &[u8]) -> Due
    ensures { result ≢ Err MmoFault.OutOfMemory →
        result ≡ spec.named_file at number (4 + length bytes.now) (spec.trimmed bytes.now) }
{
    let name = trim_zeros(bytes);
    if name.is_empty() {
        return Err(MmoFault::BadFields(at));
    }
    let name = Some(Bytes::copy(alloc, name)?);
    Ok(Some((Item::File { number, name }, 4 + bytes.len())))
}

/// A file with this many tetras of its name after it.
pub fn read_file(alloc: Global, at: u64, number: u8, z: u8, more: &[u8]) -> Due
    ensures { result ≢ Err MmoFault.OutOfMemory → result ≡ spec.file_item at number z more.now }
{
    if z == 0 {
        return Ok(Some((Item::File { number, name: None }, 4)));
    }
    let size = 4 * usize::from(z);
    if more.len() < size {
        return Ok(None);
    }
    read_file_name(alloc, at, number, &more[..size])
}

/// `post` with the values of $g to $255 after it.
pub fn read_post(alloc: Global, g: u8, more: &[u8]) -> Due
    ensures { result ≢ Err MmoFault.OutOfMemory → result ≡ spec.post_item g more.now }
{
    let size = 8 * (256 - usize::from(g));
    if more.len() < size {
        return Ok(None);
    }
    let values = octas_of(alloc, &more[..size])?;
    Ok(Some((Item::Post { g, values }, 4 + size)))
}
