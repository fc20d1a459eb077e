//! The calls of a host and of a space, each as a plan.

ghost use Rattle.std.specs.Prelude.{◌≡◌, ◌≤◌, ◌^◌, Ok, Err, IfOk, length, take};
ghost use Rattle.mx_host.specs.HostModel.{Rose};
ghost use Rattle.mx_host.specs.Keeping.{ComesByFault, OnlyByFailure, bytes_read};
ghost use Rattle.mx_plan.specs.Calls.{close_plan, open_plan, put_plan, read_plan, seek_plan, tell_plan};
ghost use Rattle.mx_plan.specs.Calls.{write_plan};
ghost use Rattle.mx_plan.specs.Clauses.{CarriesOutCall, CarriesOutOnHost, ComesOnSpace, KeepsHost};
ghost use Rattle.mx_word.specs.Results.{map_ok};

use mx_host::{Host, HostFault, Mode, OpenFault};
use mx_mem::{Space, SpaceFault};

/// Opens a file on a slot from 0 to 257.
#[tactic(auto, unfolding(crate::specs::Calls::open_plan, crate::specs::Calls::host, crate::specs::Plan::end_of, crate::specs::Plan::Stops))]
pub fn open<H: Host>(host: &mut H, slot: u16, name: &[u8], mode: Mode) -> Result<(), OpenFault>
    requires { slot ≤ 257 }
    ensures told { CarriesOutOnHost (H.told host.old) (H.told host.new) (Err OpenFault.OutOfMemory) result
        (open_plan slot name.now mode) }
    ensures failed { result ≡ Err OpenFault.Failed → Rose (H.faults host.old) (H.faults host.new) }
    ensures absent { ComesByFault (H.told host.old) (Err OpenFault.Absent) result
        (H.faults host.old) (H.faults host.new) }
    ensures keeps { KeepsHost (H.told host.old) (H.told host.new) (H.faults host.old) (H.faults host.new) }
{
    host.open_file(slot, name, mode)
}

/// Closes a slot from 0 to 257.
#[tactic(auto, unfolding(crate::specs::Calls::close_plan, crate::specs::Calls::host, crate::specs::Plan::end_of, crate::specs::Plan::Stops))]
pub fn close<H: Host>(host: &mut H, slot: u16) -> Result<(), HostFault>
    requires { slot ≤ 257 }
    ensures told { CarriesOutOnHost (H.told host.old) (H.told host.new) (Err HostFault.OutOfMemory) result
        (close_plan slot) }
    ensures failed { result ≡ Err HostFault.Failed → Rose (H.faults host.old) (H.faults host.new) }
    ensures misused { ComesByFault (H.told host.old) (Err HostFault.Misused) result
        (H.faults host.old) (H.faults host.new) }
    ensures keeps { KeepsHost (H.told host.old) (H.told host.new) (H.faults host.old) (H.faults host.new) }
{
    host.close_slot(slot)
}

/// Puts the next bytes of a slot at the front of `into` and gives their number.
#[tactic(auto, unfolding(crate::specs::Calls::read_plan, crate::specs::Calls::host, crate::specs::Plan::end_of, crate::specs::Plan::Stops))]
pub fn read<H: Host>(host: &mut H, slot: u16, into: &mut [u8]) -> Result<usize, HostFault>
    requires { slot ≤ 260 }
    ensures told { CarriesOutCall H.told host.old host.new (bytes_read into.new result)
        (read_plan slot (length into.old)) }
    ensures count { IfOk result (λ n. n ≤ length into.old) }
    ensures length { length into.new ≡ length into.old }
    ensures failed { result ≡ Err HostFault.Failed → Rose (H.faults host.old) (H.faults host.new) }
    ensures misused { ComesByFault (H.told host.old) (Err HostFault.Misused) result
        (H.faults host.old) (H.faults host.new) }
    ensures served { slot ≡ 258 → OnlyByFailure (H.told host.old) (Err HostFault.Misused) result
        (H.faults host.old) (H.faults host.new) }
    ensures keeps { KeepsHost (H.told host.old) (H.told host.new) (H.faults host.old) (H.faults host.new) }
{
    host.read_slot(slot, into)
}

/// Writes all these bytes to a slot.
#[tactic(auto, unfolding(crate::specs::Calls::write_plan, crate::specs::Calls::host, crate::specs::Plan::end_of, crate::specs::Plan::Stops))]
pub fn write<H: Host>(host: &mut H, slot: u16, from: &[u8]) -> Result<(), HostFault>
    requires { slot ≤ 260 }
    ensures told { CarriesOutOnHost (H.told host.old) (H.told host.new) (Err HostFault.OutOfMemory) result
        (write_plan slot from.now) }
    ensures failed { result ≡ Err HostFault.Failed → Rose (H.faults host.old) (H.faults host.new) }
    ensures misused { ComesByFault (H.told host.old) (Err HostFault.Misused) result
        (H.faults host.old) (H.faults host.new) }
    ensures served { slot ≡ 259 → OnlyByFailure (H.told host.old) (Err HostFault.Misused) result
        (H.faults host.old) (H.faults host.new) }
    ensures keeps { KeepsHost (H.told host.old) (H.told host.new) (H.faults host.old) (H.faults host.new) }
{
    host.write_slot(slot, from)
}

/// Moves the place of a slot; a number below 0 counts from the end.
#[tactic(auto, unfolding(crate::specs::Calls::seek_plan, crate::specs::Calls::host, crate::specs::Plan::end_of, crate::specs::Plan::Stops))]
pub fn seek<H: Host>(host: &mut H, slot: u16, to: i64) -> Result<(), HostFault>
    requires { slot ≤ 260 }
    ensures told { CarriesOutOnHost (H.told host.old) (H.told host.new) (Err HostFault.OutOfMemory) result
        (seek_plan slot to) }
    ensures failed { result ≡ Err HostFault.Failed → Rose (H.faults host.old) (H.faults host.new) }
    ensures misused { ComesByFault (H.told host.old) (Err HostFault.Misused) result
        (H.faults host.old) (H.faults host.new) }
    ensures keeps { KeepsHost (H.told host.old) (H.told host.new) (H.faults host.old) (H.faults host.new) }
{
    host.seek_slot(slot, to)
}

/// Tells the place of a slot.
#[tactic(auto, unfolding(crate::specs::Calls::tell_plan, crate::specs::Calls::host, crate::specs::Plan::end_of, crate::specs::Plan::Stops))]
pub fn tell<H: Host>(host: &mut H, slot: u16) -> Result<u64, HostFault>
    requires { slot ≤ 260 }
    ensures told { CarriesOutOnHost (H.told host.old) (H.told host.new) (Err HostFault.OutOfMemory) result
        (tell_plan slot) }
    ensures failed { result ≡ Err HostFault.Failed → Rose (H.faults host.old) (H.faults host.new) }
    ensures misused { ComesByFault (H.told host.old) (Err HostFault.Misused) result
        (H.faults host.old) (H.faults host.new) }
    ensures keeps { KeepsHost (H.told host.old) (H.told host.new) (H.faults host.old) (H.faults host.new) }
{
    host.tell_slot(slot)
}

/// Puts a byte at an address of a space. It lacks memory only where the byte makes a page, and then nothing
/// changed.
#[tactic(auto, unfolding(crate::specs::Calls::put_plan, crate::specs::Calls::space, crate::specs::Plan::end_of, crate::specs::Plan::Stops))]
pub fn put<M: Space>(memory: &mut M, a: u64, b: u8) -> Result<(), SpaceFault>
    ensures told { ComesOnSpace M.contents memory.old memory.new (Err SpaceFault.OutOfMemory) result (put_plan a b) }
    ensures negative { result ≡ Err SpaceFault.Negative → 2 ^ 63 ≤ a }
    ensures rest { (M.contents memory.new).rest ≡ (M.contents memory.old).rest }
{
    memory.put_byte(a, b)
}
