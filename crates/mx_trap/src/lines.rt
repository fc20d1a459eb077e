//! Reading a line of a slot into a space: Fgets.

ghost use Rattle.std.specs.Prelude.{◌≡◌, ◌≢◌, ◌≤◌, ◌<◌, ◌+◌, ◌^◌, length, Ok, Err, IfErr};
ghost use Rattle.mx_plan.specs.Clauses.{ComesOnSpace, KeepsHost};
ghost use Rattle.mx_trap.specs.Clauses.{CarriesOutTrap, CarriesOutTrapPart, StopsByPages};
ghost use Rattle.mx_trap.specs.Moves as spec;
ghost use Rattle.mx_trap.specs.Requests.{AreInBounds};

use crate::answer::TrapAnswer;
use crate::files::MINUS_ONE;
use crate::space::store_byte;
use mx_host::{Host, HostFault};
use mx_mem::Space;
use mx_plan::read;

/// Reads a line into a buffer and puts a zero byte after it.
#[tactic(auto, using(mx_plan::proofs::Plans::plans, mx_plan::proofs::Plans::lifting, crate::proofs::LineBytes::lining), unfolding(crate::specs::Moves::fgets))]
pub fn fgets<M: Space, H: Host>(
    memory: &mut M,
    host: &mut H,
    slot: u16,
    at: u64,
    size: u64,
) -> TrapAnswer
    requires slot { slot ≤ 255 }
    requires bounds { AreInBounds at size }
    ensures told { CarriesOutTrap M.contents H.told memory.old memory.new host.old host.new result
        (spec.fgets slot at size) }
    ensures stops { StopsByPages result }
    ensures rest { (M.contents memory.new).rest ≡ (M.contents memory.old).rest }
    ensures keeps { KeepsHost (H.told host.old) (H.told host.new) (H.faults host.old) (H.faults host.new) }
{
    if size == 0 {
        return TrapAnswer::Value(MINUS_ONE);
    }
    for count in 0..size - 1 {
        match line_byte(memory, host, slot, at + count) {
            Ok(true) => return end_line(memory, at, count + 1),
            Ok(false) => {}
            Err(answer) => return answer,
        }
    }
    end_line(memory, at, size - 1)
}

/// Reads and stores one byte of a line, and says whether it is the newline.
#[tactic(auto, using(mx_plan::proofs::Plans::plans, mx_plan::proofs::Plans::lifting), unfolding(crate::specs::Moves::line_byte))]
fn line_byte<M: Space, H: Host>(
    memory: &mut M,
    host: &mut H,
    slot: u16,
    at: u64,
) -> Result<bool, TrapAnswer>
    requires slot { slot ≤ 255 }
    requires below { at < 2 ^ 63 }
    ensures told { CarriesOutTrapPart M.contents H.told memory.old memory.new host.old host.new result
        (spec.line_byte slot at) }
    ensures rest { (M.contents memory.new).rest ≡ (M.contents memory.old).rest }
    ensures stops { IfErr result StopsByPages }
    ensures keeps { KeepsHost (H.told host.old) (H.told host.new) (H.faults host.old) (H.faults host.new) }
{
    let mut byte = [0u8; 1];
    match read(host, slot, &mut byte) {
        Ok(0) => Err(TrapAnswer::Value(MINUS_ONE)),
        Ok(_) => put_byte(memory, at, byte[0]),
        Err(HostFault::OutOfMemory) => Err(TrapAnswer::OutOfMemory),
        Err(_) => Err(TrapAnswer::Value(MINUS_ONE)),
    }
}

/// Stores one byte of a line, and says whether it is the newline.
#[tactic(auto, using(mx_plan::proofs::Plans::plans), unfolding(crate::specs::Moves::byte_put))]
fn put_byte<M: Space>(memory: &mut M, at: u64, b: u8) -> Result<bool, TrapAnswer>
    requires { at < 2 ^ 63 }
    ensures told { ComesOnSpace M.contents memory.old memory.new (Err TrapAnswer.OutOfMemory) result
        (spec.byte_put at b) }
    ensures stops { IfErr result StopsByPages }
    ensures rest { (M.contents memory.new).rest ≡ (M.contents memory.old).rest }
{
    store_byte(memory, at, b)?;
    Ok(b == b'\n')
}

/// Puts the zero byte after a line of `count` bytes.
#[tactic(auto, using(mx_plan::proofs::Plans::plans), unfolding(crate::specs::Moves::line_end))]
fn end_line<M: Space>(memory: &mut M, at: u64, count: u64) -> TrapAnswer
    requires { at + count < 2 ^ 63 }
    ensures told { ComesOnSpace M.contents memory.old memory.new TrapAnswer.OutOfMemory result
        (spec.line_end at count) }
    ensures stops { StopsByPages result }
    ensures rest { (M.contents memory.new).rest ≡ (M.contents memory.old).rest }
{
    match store_byte(memory, at + count, 0) {
        Ok(()) => TrapAnswer::Value(count),
        Err(answer) => answer,
    }
}
