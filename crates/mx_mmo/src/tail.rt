//! What follows the items of an object.

ghost use Rattle.std.specs.Prelude.{◌≡◌, ◌≢◌, ◌≤◌, ◌+◌, ◌^◌, length};
ghost use Rattle.mx_mmo.specs.Replies as spec;

use crate::due::Phase;
use crate::{MmoFault, Tail};
use mx_word::Bytes;
use std::alloc::Global;

/// The count in the lopcode `end`, where the last tetra is one.
fn end_count(last: &[u8]) -> Option<u16>
    ensures { result ≡ spec.end_count last.now }
{
    match last {
        [0x98, 12, y, z] => Some(256 * u16::from(*y) + u16::from(*z)),
        _ => None,
    }
}

/// The trie, which has `size` bytes and begins at `at`, where the last tetra counts its tetras.
fn read_counted_tail(
    alloc: Global,
    at: u64,
    rest: &[u8],
    size: usize,
    count: u16,
) -> Result<Tail, MmoFault>
    requires most { at + length rest.now ≤ 2 ^ 26 }
    requires whole { size + 4 ≡ length rest.now }
    ensures { result ≢ Err MmoFault.OutOfMemory → result ≡ spec.counted_tail at rest.now (Some count) }
{
    if usize::from(count) != rest.len() / 4 - 1 {
        return Err(MmoFault::BadFields(at + size as u64));
    }
    let trie = Bytes::copy(alloc, &rest[..size])?;
    Ok(Tail { trie, place: at })
}

/// What follows `stab`: the trie and the lopcode `end`.
fn tail_after(alloc: Global, at: u64, rest: &[u8]) -> Result<Tail, MmoFault>
    requires { at + length rest.now ≤ 2 ^ 26 }
    ensures { result ≢ Err MmoFault.OutOfMemory → result ≡ spec.tail_after Phase.Ended at rest.now }
{
    let end = at + rest.len() as u64;
    if rest.len() < 4 {
        return Err(MmoFault::Truncated(end));
    }
    let size = rest.len() - 4;
    match end_count(&rest[size..]) {
        Some(count) => read_counted_tail(alloc, at, rest, size, count),
        None => Err(MmoFault::Truncated(end)),
    }
}

/// What follows the items that were given, where no more comes.
pub fn read_tail(alloc: Global, phase: Phase, at: u64, rest: &[u8]) -> Result<Tail, MmoFault>
    requires { at + length rest.now ≤ 2 ^ 26 }
    ensures { result ≢ Err MmoFault.OutOfMemory → result ≡ spec.tail_of phase at rest.now }
{
    let end = at + rest.len() as u64;
    let left = rest.len() % 4;
    if left != 0 {
        return Err(MmoFault::NotTetras(end - left as u64));
    }
    match phase {
        Phase::Ended => tail_after(alloc, at, rest),
        _ => Err(MmoFault::Truncated(end)),
    }
}
