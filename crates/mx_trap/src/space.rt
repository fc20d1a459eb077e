//! Bytes between a space and a buffer.

ghost use Rattle.std.specs.Prelude.{◌≡◌, ◌≢◌, ◌≤◌, ◌<◌, ◌+◌, ◌^◌, length, Ok, Err, IfOk, IfErr};
ghost use Rattle.mx_plan.specs.Clauses.{ComesOnSpace};
ghost use Rattle.mx_trap.specs.Clauses.{StopsByPages};
ghost use Rattle.mx_trap.specs.Moves as spec;
ghost use Rattle.mx_trap.specs.Requests.{bytes_from, AreInBounds};

use crate::answer::{TrapAnswer, TrapStop};
use mx_mem::{Space, SpaceFault};
use mx_plan::put;
use mx_word::{Bytes, NoMemory};
use std::alloc::Global;

/// Fills a buffer with the bytes from an address on.
#[tactic(auto, using(crate::proofs::Buffers::filling))]
pub fn fill<M: Space>(memory: &M, at: u64, buffer: &mut [u8])
    requires { AreInBounds at (length buffer.old) }
    ensures { buffer.new ≡ bytes_from (M.contents memory.now).bytes at (length buffer.old) }
{
    for place in 0..buffer.len() {
        buffer[place] = byte_or_zero(memory, at + place as u64);
    }
}

/// The bytes from an address on.
#[tactic(auto, using(crate::proofs::Buffers::sizing))]
pub fn bytes_at<M: Space>(alloc: Global, memory: &M, at: u64, size: u64) -> Result<Bytes, NoMemory>
    requires { AreInBounds at size }
    ensures { IfOk result (λ bytes. bytes ≡ bytes_from (M.contents memory.now).bytes at size) }
{
    let mut bytes: Vec<u8> = Vec::new(alloc);
    bytes.resize(size as usize, 0)?;
    fill(memory, at, bytes.as_mut_slice());
    Ok(Bytes::from_vec(bytes))
}

/// Stores bytes at an address and those that follow it, up to the first one that is refused.
#[tactic(auto, using(mx_plan::proofs::Plans::plans, crate::proofs::Storing::storing))]
pub fn store_bytes<M: Space>(memory: &mut M, at: u64, bytes: &[u8]) -> Result<(), TrapAnswer>
    requires { AreInBounds at (length bytes.now) }
    ensures told { ComesOnSpace M.contents memory.old memory.new (Err TrapAnswer.OutOfMemory) result
        (spec.bytes_stored bytes.now at) }
    ensures stops { IfErr result StopsByPages }
    ensures rest { (M.contents memory.new).rest ≡ (M.contents memory.old).rest }
{
    for (place, b) in bytes.iter().enumerate() {
        store_byte(memory, at + place as u64, *b)?;
    }
    Ok(())
}

/// Stores a byte. What it answers where that is refused is the answer of the trap.
#[tactic(auto, using(mx_plan::proofs::Plans::plans), unfolding(crate::specs::Moves::byte_stored))]
pub fn store_byte<M: Space>(memory: &mut M, at: u64, b: u8) -> Result<(), TrapAnswer>
    requires { at < 2 ^ 63 }
    ensures told { ComesOnSpace M.contents memory.old memory.new (Err TrapAnswer.OutOfMemory) result
        (spec.byte_stored at b) }
    ensures stops { IfErr result StopsByPages }
    ensures rest { (M.contents memory.new).rest ≡ (M.contents memory.old).rest }
{
    match put(memory, at, b) {
        Ok(()) => Ok(()),
        Err(SpaceFault::Negative) => Err(TrapAnswer::Stopped(TrapStop::Negative)),
        Err(SpaceFault::PagesFull) => Err(TrapAnswer::Stopped(TrapStop::TrapPagesFull)),
        Err(SpaceFault::OutOfMemory) => Err(TrapAnswer::OutOfMemory),
    }
}

/// The byte at an address below 2^63.
fn byte_or_zero<M: Space>(memory: &M, a: u64) -> u8
    requires { a < 2 ^ 63 }
    ensures { result ≡ (M.contents memory.now).bytes a }
{
    match memory.byte_at(a) {
        Ok(b) => b,
        Err(_) => 0,
    }
}
