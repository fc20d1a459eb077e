//! Writing bytes of a space to a slot, piece by piece: Fwrite and Fputs.

ghost use Rattle.std.specs.Prelude.{◌≡◌, ◌≢◌, ◌≤◌, ◌<◌, ◌+◌, ◌^◌, length, Ok, Err};
ghost use Rattle.mx_plan.specs.Clauses.{CarriesOutOnHost, KeepsHost};
ghost use Rattle.mx_trap.specs.Clauses.{DoesService};
ghost use Rattle.mx_trap.specs.Moves as spec;
ghost use Rattle.mx_trap.specs.Requests.{bytes_held, AreInBounds};

use crate::answer::TrapAnswer;
use crate::files::MINUS_ONE;
use crate::space::fill;
use mx_host::{Host, HostFault};
use mx_mem::Space;
use mx_plan::write;

/// What came of bytes that were to be written.
#[derive(Clone, Copy)]
pub enum Written {
    /// All were written.
    Whole,
    /// A piece was not written, and the pieces before it have this many bytes.
    Short(u64),
    /// The host found no memory.
    OutOfMemory,
}

/// Writes the bytes of a buffer.
#[tactic(auto, using(mx_plan::proofs::Plans::plans, crate::proofs::Buffers::sizing), unfolding(crate::specs::Moves::fwrite))]
pub fn fwrite<M: Space, H: Host>(
    memory: &M,
    host: &mut H,
    slot: u16,
    at: u64,
    size: u64,
) -> TrapAnswer
    requires slot { slot ≤ 255 }
    requires bounds { AreInBounds at size }
    ensures { DoesService H.told H.faults host.old host.new result
        (spec.fwrite slot (bytes_held M.contents memory.now at size)) }
{
    match write_pieces(memory, host, slot, at, size) {
        Written::Whole => TrapAnswer::Value(0),
        Written::Short(count) => TrapAnswer::Value(count.wrapping_sub(size)),
        Written::OutOfMemory => TrapAnswer::OutOfMemory,
    }
}

/// Writes a text.
#[tactic(auto, using(mx_plan::proofs::Plans::plans, crate::proofs::Buffers::sizing), unfolding(crate::specs::Moves::fputs))]
pub fn fputs<M: Space, H: Host>(
    memory: &M,
    host: &mut H,
    slot: u16,
    at: u64,
    size: u64,
) -> TrapAnswer
    requires slot { slot ≤ 255 }
    requires bounds { AreInBounds at size }
    ensures { DoesService H.told H.faults host.old host.new result
        (spec.fputs slot (bytes_held M.contents memory.now at size)) }
{
    match write_pieces(memory, host, slot, at, size) {
        Written::Whole => TrapAnswer::Value(size),
        Written::Short(_) => TrapAnswer::Value(MINUS_ONE),
        Written::OutOfMemory => TrapAnswer::OutOfMemory,
    }
}

/// Writes bytes in pieces of 4,096, up to one that is not written.
#[tactic(auto, using(mx_plan::proofs::Plans::plans, crate::proofs::Pieces::writing))]
fn write_pieces<M: Space, H: Host>(
    memory: &M,
    host: &mut H,
    slot: u16,
    at: u64,
    size: u64,
) -> Written
    requires slot { slot ≤ 255 }
    requires bounds { AreInBounds at size }
    ensures told { CarriesOutOnHost (H.told host.old) (H.told host.new) Written.OutOfMemory result
        (spec.written slot (bytes_held M.contents memory.now at size)) }
    ensures keeps { KeepsHost (H.told host.old) (H.told host.new) (H.faults host.old) (H.faults host.new) }
{
    let mut buffer = [0u8; 4096];
    let mut moved = 0;
    while size - moved > 4096 {
        match write_piece(memory, host, slot, at + moved, moved, &mut buffer) {
            Written::Whole => moved += 4096,
            Written::Short(count) => return Written::Short(count),
            Written::OutOfMemory => return Written::OutOfMemory,
        }
    }
    write_piece(
        memory,
        host,
        slot,
        at + moved,
        moved,
        &mut buffer[..(size - moved) as usize],
    )
}

/// Writes one piece, as many bytes as the buffer has, after others that were written.
#[tactic(auto, using(mx_plan::proofs::Plans::plans, crate::proofs::Buffers::sizing), unfolding(crate::specs::Moves::write_piece))]
fn write_piece<M: Space, H: Host>(
    memory: &M,
    host: &mut H,
    slot: u16,
    at: u64,
    moved: u64,
    buffer: &mut [u8],
) -> Written
    requires slot { slot ≤ 255 }
    requires bounds { AreInBounds at (length buffer.old) }
    ensures told { CarriesOutOnHost (H.told host.old) (H.told host.new) Written.OutOfMemory result
        (spec.write_piece slot (bytes_held M.contents memory.now at (length buffer.old)) moved) }
    ensures length { length buffer.new ≡ length buffer.old }
    ensures keeps { KeepsHost (H.told host.old) (H.told host.new) (H.faults host.old) (H.faults host.new) }
{
    fill(memory, at, buffer);
    match write(host, slot, buffer) {
        Ok(()) => Written::Whole,
        Err(HostFault::OutOfMemory) => Written::OutOfMemory,
        Err(_) => Written::Short(moved),
    }
}
