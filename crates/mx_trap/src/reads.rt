//! Reading bytes of a slot into a space, piece by piece: Fread.

ghost use Rattle.std.specs.Prelude.{◌≡◌, ◌≢◌, ◌≤◌, ◌<◌, ◌+◌, ◌^◌, length, Ok, Err, IfOk, IfErr};
ghost use Rattle.mx_plan.specs.Clauses.{KeepsHost};
ghost use Rattle.mx_trap.specs.Clauses.{CarriesOutTrap, CarriesOutTrapPart, StopsByPages};
ghost use Rattle.mx_trap.specs.Moves as spec;
ghost use Rattle.mx_trap.specs.Requests.{AreInBounds};

use crate::answer::TrapAnswer;
use crate::files::MINUS_ONE;
use crate::space::store_bytes;
use mx_host::{Host, HostFault};
use mx_mem::Space;
use mx_plan::read;

/// Reads into a buffer, in pieces of 4,096 bytes, up to one that comes short.
#[tactic(auto, using(mx_plan::proofs::Plans::plans, crate::proofs::Readings::reading))]
pub fn fread<M: Space, H: Host>(
    memory: &mut M,
    host: &mut H,
    slot: u16,
    at: u64,
    size: u64,
) -> TrapAnswer
    requires slot { slot ≤ 255 }
    requires bounds { AreInBounds at size }
    ensures told { CarriesOutTrap M.contents H.told memory.old memory.new host.old host.new result
        (spec.fread slot at size) }
    ensures rest { (M.contents memory.new).rest ≡ (M.contents memory.old).rest }
    ensures stops { StopsByPages result }
    ensures keeps { KeepsHost (H.told host.old) (H.told host.new) (H.faults host.old) (H.faults host.new) }
{
    let mut buffer = [0u8; 4096];
    let mut moved = 0;
    while size - moved > 4096 {
        match read_piece(memory, host, slot, at + moved, size, &mut buffer) {
            Ok(count) => {
                if count < 4096 {
                    return TrapAnswer::Value((moved + count).wrapping_sub(size));
                }
                moved += 4096;
            }
            Err(answer) => return answer,
        }
    }
    let rest = (size - moved) as usize;
    match read_piece(memory, host, slot, at + moved, size, &mut buffer[..rest]) {
        Ok(count) => TrapAnswer::Value((moved + count).wrapping_sub(size)),
        Err(answer) => answer,
    }
}

/// Reads one piece, of as many bytes as the buffer has, and stores it. It gives the number of bytes
/// that came, or the answer of the trap, which reads `size` bytes in all.
#[tactic(auto, using(mx_plan::proofs::Plans::plans, mx_plan::proofs::Plans::lifting), unfolding(crate::specs::Moves::read_piece))]
fn read_piece<M: Space, H: Host>(
    memory: &mut M,
    host: &mut H,
    slot: u16,
    at: u64,
    size: u64,
    buffer: &mut [u8],
) -> Result<u64, TrapAnswer>
    requires slot { slot ≤ 255 }
    requires bounds { AreInBounds at (length buffer.old) }
    ensures told { CarriesOutTrapPart M.contents H.told memory.old memory.new host.old host.new result
        (spec.read_piece slot at (length buffer.old) size) }
    ensures count { IfOk result (λ n. n ≤ length buffer.old) }
    ensures length { length buffer.new ≡ length buffer.old }
    ensures rest { (M.contents memory.new).rest ≡ (M.contents memory.old).rest }
    ensures stops { IfErr result StopsByPages }
    ensures keeps { KeepsHost (H.told host.old) (H.told host.new) (H.faults host.old) (H.faults host.new) }
{
    match read(host, slot, buffer) {
        Ok(count) => {
            store_bytes(memory, at, &buffer[..count])?;
            Ok(count as u64)
        }
        Err(HostFault::OutOfMemory) => Err(TrapAnswer::OutOfMemory),
        Err(_) => Err(TrapAnswer::Value(MINUS_ONE - size)),
    }
}
