//! A file trap as a whole.

ghost use Rattle.std.specs.Prelude.{◌≡◌, ◌≢◌, ◌≤◌, IfErr};
ghost use Rattle.mx_host.specs.Keeping.{Keeps};
ghost use Rattle.mx_plan.specs.Clauses.{KeepsHost};
ghost use Rattle.mx_trap.specs.Clauses.{CarriesOutTrap, StopsByPages, StopsFirst};
ghost use Rattle.mx_trap.specs.FileTraps as spec;
ghost use Rattle.mx_trap.specs.Requests.{IsInBounds};

use crate::answer::TrapAnswer;
use crate::files::{fclose, fopen, fseek, ftell};
use crate::lines::fgets;
use crate::reads::fread;
use crate::requests::{Request, request_of};
use crate::writes::{fputs, fwrite};
use mx_alu::TrapCall;
use mx_host::Host;
use mx_mem::Space;
use std::alloc::Global;

/// Carries out a file trap on the bytes of a space and the slots of a host. Where there is no memory, the
/// bytes that it moved and the calls that it made stay, and nothing else changed.
///
/// Stops come before any call of the host, but for one page too many, which leaves the bytes stored
/// before. A call of the host that fails or is misused is no stop: the program sees -1 or a count.
#[tactic(auto, using(mx_plan::proofs::Plans::plans, mx_plan::proofs::Plans::looking), unfolding(crate::specs::FileTraps::trap_plan))]
pub fn trap<M: Space, H: Host>(
    alloc: Global,
    memory: &mut M,
    host: &mut H,
    call: &TrapCall,
) -> TrapAnswer
    ensures told { CarriesOutTrap M.contents H.told memory.old memory.new host.old host.new result
        (spec.trap_plan call.now) }
    ensures stops { StopsFirst M.contents memory.old memory.new host.old host.new call.now result }
    ensures rest { (M.contents memory.new).rest ≡ (M.contents memory.old).rest }
    ensures keeps { KeepsHost (H.told host.old) (H.told host.new) (H.faults host.old) (H.faults host.new) }
{
    let slot = (call.word % 256) as u16;
    match request_of(memory, call) {
        Ok(request) => do_request(alloc, memory, host, slot, request),
        Err(stop) => TrapAnswer::Stopped(stop),
    }
}

/// Carries out what is asked for.
#[tactic(auto, using(mx_plan::proofs::Plans::plans, mx_plan::proofs::Plans::lifting))]
fn do_request<M: Space, H: Host>(
    alloc: Global,
    memory: &mut M,
    host: &mut H,
    slot: u16,
    request: Request,
) -> TrapAnswer
    requires slot { slot ≤ 255 }
    requires bounds { IsInBounds request }
    ensures told { CarriesOutTrap M.contents H.told memory.old memory.new host.old host.new result
        (spec.carried_out slot (M.contents memory.old).bytes request) }
    ensures stops { StopsByPages result }
    ensures rest { (M.contents memory.new).rest ≡ (M.contents memory.old).rest }
    ensures keeps { KeepsHost (H.told host.old) (H.told host.new) (H.faults host.old) (H.faults host.new) }
{
    match request {
        Request::Ending => TrapAnswer::Halt,
        Request::Opening { at, size, mode } => { fopen(alloc, memory, host, slot, at, size, mode) },
        Request::Closing => fclose(host, slot),
        Request::Reading { at, size } => fread(memory, host, slot, at, size),
        Request::ReadingLine { at, size } => fgets(memory, host, slot, at, size),
        Request::Writing { at, size } => fwrite(memory, host, slot, at, size),
        Request::WritingText { at, size } => fputs(memory, host, slot, at, size),
        Request::Seeking { to } => fseek(host, slot, to),
        Request::Telling => ftell(host, slot),
    }
}
