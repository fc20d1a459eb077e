//! The arguments of a program in the pool segment.

ghost use Rattle.std.specs.Prelude.{◌≡◌, ◌<◌, ◌^◌, ◌+◌, ◌-◌, ◌*◌, ◌++◌, IfOk, OnOk, length, replicate};
ghost use Rattle.std.specs.List.{flat_map};
ghost use Rattle.mx_mmo.specs.Reading.{octas_of};
ghost use Rattle.mx_start.specs.Pool.{as_octa, places_of, pool_list};
ghost use Rattle.mx_start.specs.Start as spec;

use mx_mmo::Octas;
use mx_word::{Bytes, NoMemory, octa_of};
use std::alloc::Global;

/// Where the pool segment begins.
pub(crate) const POOL: u64 = 0x4000_0000_0000_0000;

/// How many bytes a text takes, with at least one zero byte after it, in whole octas.
fn text_size(text: &[u8]) -> u64
    ensures { result ≡ spec.text_size text.now }
{
    8 * (text.len() as u64 / 8 + 1)
}

/// Where the first text is; nothing where that is no octa.
fn first_text(texts: &[Bytes]) -> Option<u64>
    ensures { result ≡ as_octa (spec.first_text texts.now) }
{
    match 8_u64.checked_mul(texts.len() as u64 + 2) {
        Some(size) => size.checked_add(POOL),
        None => None,
    }
}

/// Where texts from an address on end; nothing where that is no octa.
fn texts_end(at: u64, texts: &[Bytes]) -> Option<u64>
    ensures { result ≡ as_octa (spec.texts_end at texts.now) }
{
    let mut end = at;
    let mut rest = texts;
    while let [text, others @ ..] = rest {
        match end.checked_add(text_size(text.as_slice())) {
            Some(next) => end = next,
            None => return None,
        }
        rest = others;
    }
    Some(end)
}

/// Adds the addresses of texts that are one after the other.
fn append_addresses(octas: &mut Octas, at: u64, texts: &[Bytes]) -> Result<(), NoMemory>
    requires { spec.texts_end at texts.now < 2 ^ 64 }
    ensures { OnOk result (octas.new ≡ octas.old ++ spec.text_addresses at texts.now) }
{
    let mut next = at;
    let mut rest = texts;
    while let [text, others @ ..] = rest {
        octas.push(next)?;
        next += text_size(text.as_slice());
        rest = others;
    }
    Ok(())
}

/// Adds the octas of bytes; one to seven bytes at the end of them give none.
fn append_octas(octas: &mut Octas, bytes: &[u8]) -> Result<(), NoMemory>
    ensures { OnOk result (octas.new ≡ octas.old ++ octas_of bytes.now) }
{
    let mut rest = bytes;
    while let [a, b, c, d, e, f, g, h, others @ ..] = rest {
        octas.push(octa_of([*a, *b, *c, *d, *e, *f, *g, *h]))?;
        rest = others;
    }
    Ok(())
}

/// A text with a zero byte after it, and more zeros up to a whole octa.
fn pad_to_octa(alloc: Global, text: &[u8]) -> Result<Bytes, NoMemory>
    ensures { IfOk result (λ bytes. bytes ≡ text.now ++ replicate (spec.text_size text.now - length text.now) 0) }
{
    let zeros = [0; 8];
    let mut bytes = Bytes::copy(alloc, text)?;
    bytes.extend(&zeros[..8 - text.len() % 8])?;
    Ok(bytes)
}

/// Adds the octas of a text.
fn append_text(alloc: Global, octas: &mut Octas, text: &[u8]) -> Result<(), NoMemory>
    ensures { OnOk result (octas.new ≡ octas.old ++ spec.text_octas text.now) }
{
    let bytes = pad_to_octa(alloc, text)?;
    append_octas(octas, bytes.as_slice())
}

/// Adds the octas of texts.
fn append_texts(alloc: Global, octas: &mut Octas, texts: &[Bytes]) -> Result<(), NoMemory>
    ensures { OnOk result (octas.new ≡ octas.old ++ flat_map spec.text_octas texts.now) }
{
    let mut rest = texts;
    while let [text, others @ ..] = rest {
        append_text(alloc, octas, text.as_slice())?;
        rest = others;
    }
    Ok(())
}

/// The octas of texts from an address on, which end at another.
fn octas_between(alloc: Global, first: u64, end: u64, texts: &[Bytes]) -> Result<Octas, NoMemory>
    requires first { first ≡ spec.first_text texts.now }
    requires end { end ≡ spec.texts_end first texts.now }
    ensures { IfOk result (λ octas. octas ≡ spec.pool_octas texts.now) }
{
    let mut octas = Octas::new(alloc);
    octas.push(end)?;
    append_addresses(&mut octas, first, texts)?;
    octas.push(0)?;
    append_texts(alloc, &mut octas, texts)?;
    Ok(octas)
}

/// Where the first text is and where the last one ends; nothing where that is no octa.
fn places(texts: &[Bytes]) -> Option<(u64, u64)>
    ensures { result ≡ places_of texts.now }
{
    match first_text(texts) {
        Some(first) => match texts_end(first, texts) {
            Some(end) => Some((first, end)),
            None => None,
        },
        None => None,
    }
}

/// The octas of the pool; nothing where their addresses go past 2^64.
pub(crate) fn pool_octas(alloc: Global, texts: &[Bytes]) -> Result<Option<Octas>, NoMemory>
    ensures { IfOk result (λ octas. octas ≡ pool_list texts.now) }
{
    match places(texts) {
        Some((first, end)) => Ok(Some(octas_between(alloc, first, end, texts)?)),
        None => Ok(None),
    }
}
