//! The arguments of a program.

ghost use Rattle.std.specs.Prelude.{◌≡◌, ◌≤◌, ◌<◌, ◌+◌, ◌*◌, ◌∷◌, IfOk, length, map};
ghost use Rattle.std.specs.Prelude.{string_bytes, true};
ghost use Rattle.mx_start.specs.Start.{pool, pool_octas};
ghost use Rattle.mx_ring.specs.Stack.{stack_address};
ghost use Rattle.mx_begin.specs.Arguments as spec;

use mx_word::{Bytes, NoMemory};
use mx_words::Order;
use std::alloc::Global;

/// The bytes that a pool may have: less than a segment.
const POOL_LIMIT: u64 = 1 << 60;

/// The last four bytes of a word.
fn suffix(word: &[u8]) -> &[u8]
    ensures { result.now ≡ spec.suffix word.now }
{
    &word[word.len().saturating_sub(4)..]
}

/// Argument 0: the word that names the file, without a last `.mms` or `.mmo`.
fn program_name(word: &[u8]) -> &[u8]
    ensures { result.now ≡ spec.program_name word.now }
{
    if suffix(word) == b".mms".as_slice() || suffix(word) == b".mmo".as_slice() {
        &word[..word.len().saturating_sub(4)]
    } else {
        word
    }
}

/// The bytes of the word at a place.
pub fn word_bytes(words: &[String], place: usize) -> &[u8]
    requires { place < length words.now }
    ensures { result.now ≡ spec.word_at (map string_bytes words.now) place }
{
    words[place].as_bytes()
}

/// The words after the file as arguments.
fn copy_words(alloc: Global, words: &[String], first: Bytes) -> Result<Vec<Bytes>, NoMemory>
    ensures { IfOk result (λ arguments. arguments.items ≡ first ∷ map string_bytes words.now) }
{
    let mut arguments = Vec::new(alloc);
    arguments.push(first)?;
    for word in words {
        arguments.push(Bytes::copy(alloc, word.as_bytes())?)?;
    }
    Ok(arguments)
}

/// The arguments of a program that the words order to run: argument 0, and the words after the file.
/// They fit the pool segment.
pub fn collect_arguments(
    alloc: Global,
    words: &[String],
    order: &Order,
) -> Result<Vec<Bytes>, NoMemory>
    requires file { order.now.file < length words.now }
    requires rest { order.now.rest ≤ length words.now }
    ensures value { IfOk result (λ arguments. arguments.items ≡ spec.arguments (map string_bytes words.now) order.now) }
    ensures fits { IfOk result (λ arguments. pool + 8 * length (pool_octas arguments.items) ≤ stack_address 0) }
{
    let name = Bytes::copy(alloc, program_name(words[order.file].as_bytes()))?;
    let arguments = copy_words(alloc, &words[order.rest..], name)?;
    if !is_within_pool(arguments.as_slice()) {
        return Err(NoMemory);
    }
    Ok(arguments)
}

/// Whether arguments take less than the limit of the pool. No memory holds others.
#[tactic(auto, using(crate::proofs::Pools::pooling))]
fn is_within_pool(arguments: &[Bytes]) -> bool
    ensures { result ≡ true → pool + 8 * length (pool_octas arguments.now) ≤ stack_address 0 }
{
    let mut size = 16u64;
    for argument in arguments {
        size = size
            .saturating_add(16)
            .saturating_add(argument.as_slice().len() as u64);
    }
    size < POOL_LIMIT
}
