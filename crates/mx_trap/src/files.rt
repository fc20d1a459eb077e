//! The services that move no bytes: opening, closing, and the place in a file.

ghost use Rattle.std.specs.Prelude.{◌≡◌, ◌≤◌};
ghost use Rattle.mx_plan.specs.Calls.{open_plan};
ghost use Rattle.mx_plan.specs.Plan.{bind};
ghost use Rattle.mx_trap.specs.Clauses.{DoesService};
ghost use Rattle.mx_trap.specs.Requests.{AreInBounds, bytes_held};
ghost use Rattle.mx_trap.specs.FileTraps as spec;

use crate::answer::TrapAnswer;
use crate::space::bytes_at;
use mx_host::{Host, HostFault, Mode, OpenFault};
use mx_mem::Space;
use mx_plan::{close, open, seek, tell};
use std::alloc::Global;

/// The octa -1, which tells that a call failed or was misused.
pub const MINUS_ONE: u64 = u64::MAX;

/// Opens the file whose name is at an address, in the mode of this number. It takes memory for
/// the name where there is such a mode.
#[tactic(auto, using(mx_plan::proofs::Plans::plans, mx_plan::proofs::Plans::needs), unfolding(crate::specs::FileTraps::fopen))]
pub fn fopen<M: Space, H: Host>(
    alloc: Global,
    memory: &M,
    host: &mut H,
    slot: u16,
    at: u64,
    size: u64,
    mode: u64,
) -> TrapAnswer
    requires slot { slot ≤ 255 }
    requires bounds { AreInBounds at size }
    ensures { DoesService H.told H.faults host.old host.new result
        (spec.fopen slot (bytes_held M.contents memory.now at size) mode) }
{
    let Some(mode) = mode_of(mode) else {
        return TrapAnswer::Value(MINUS_ONE);
    };
    let Ok(name) = bytes_at(alloc, memory, at, size) else {
        return TrapAnswer::OutOfMemory;
    };
    open_file(host, slot, name.as_slice(), mode)
}

/// Opens a file.
#[tactic(auto, using(mx_plan::proofs::Plans::plans))]
fn open_file<H: Host>(host: &mut H, slot: u16, name: &[u8], mode: Mode) -> TrapAnswer
    requires { slot ≤ 255 }
    ensures { DoesService H.told H.faults host.old host.new result
        (bind spec.done_value (open_plan slot name.now mode)) }
{
    match open(host, slot, name, mode) {
        Ok(()) => TrapAnswer::Value(0),
        Err(OpenFault::OutOfMemory) => TrapAnswer::OutOfMemory,
        Err(_) => TrapAnswer::Value(MINUS_ONE),
    }
}

/// The mode of this number.
fn mode_of(number: u64) -> Option<Mode>
    ensures { result ≡ spec.mode_of number }
{
    match number {
        0 => Some(Mode::TextRead),
        1 => Some(Mode::TextWrite),
        2 => Some(Mode::BinaryRead),
        3 => Some(Mode::BinaryWrite),
        4 => Some(Mode::BinaryReadWrite),
        _ => None,
    }
}

/// Closes a slot.
#[tactic(auto, using(mx_plan::proofs::Plans::plans), unfolding(crate::specs::FileTraps::fclose))]
pub fn fclose<H: Host>(host: &mut H, slot: u16) -> TrapAnswer
    requires { slot ≤ 255 }
    ensures { DoesService H.told H.faults host.old host.new result (spec.fclose slot) }
{
    match close(host, slot) {
        Ok(()) => TrapAnswer::Value(0),
        Err(HostFault::OutOfMemory) => TrapAnswer::OutOfMemory,
        Err(_) => TrapAnswer::Value(MINUS_ONE),
    }
}

/// Moves the place; a number below 0 counts from the end.
#[tactic(auto, using(mx_plan::proofs::Plans::plans), unfolding(crate::specs::FileTraps::fseek))]
pub fn fseek<H: Host>(host: &mut H, slot: u16, to: i64) -> TrapAnswer
    requires { slot ≤ 255 }
    ensures { DoesService H.told H.faults host.old host.new result (spec.fseek slot to) }
{
    match seek(host, slot, to) {
        Ok(()) => TrapAnswer::Value(0),
        Err(HostFault::OutOfMemory) => TrapAnswer::OutOfMemory,
        Err(HostFault::Failed) => TrapAnswer::Value(MINUS_ONE),
        Err(HostFault::Misused) => TrapAnswer::Value(MINUS_ONE),
    }
}

/// Tells the place.
#[tactic(auto, using(mx_plan::proofs::Plans::plans), unfolding(crate::specs::FileTraps::ftell))]
pub fn ftell<H: Host>(host: &mut H, slot: u16) -> TrapAnswer
    requires { slot ≤ 255 }
    ensures { DoesService H.told H.faults host.old host.new result (spec.ftell slot) }
{
    match tell(host, slot) {
        Ok(place) => TrapAnswer::Value(place),
        Err(HostFault::OutOfMemory) => TrapAnswer::OutOfMemory,
        Err(_) => TrapAnswer::Value(MINUS_ONE),
    }
}
