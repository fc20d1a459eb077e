//! The machine at the start of a program.

ghost use Rattle.std.specs.Prelude.{◌≡◌, ◌≢◌, ◌≤◌, ◌<◌, ◌^◌, ◌+◌, Err, IfOk, OnOk, length};
ghost use Rattle.mx_load.specs.Kept.{image_of};
ghost use Rattle.mx_ring.specs.Stack.{windowed};
ghost use Rattle.mx_ring.specs.Window.{window_at_start};
ghost use Rattle.mx_core.specs.Bare.{bare, shared_in, with_shared};
ghost use Rattle.mx_core.specs.Kept.{state_of};
ghost use Rattle.mx_start.specs.Images.{globals_of};
ghost use Rattle.mx_start.specs.Start as spec;
ghost use Rattle.mx_start.specs.Started.{StartsAs, stored, stored_by};

use crate::StartFault;
use crate::globals::collect_globals;
use crate::pool::{POOL, pool_octas};
use mx_core::{Machine, SetFault};
use mx_load::Image;
use mx_mem::Memory;
use mx_ring::RingSize;
use mx_word::{Bytes, NoMemory};
use std::alloc::Global;

/// The machine at the start of a program, with the object's image, at least one argument, and a
/// ring of this size. $0 is the number of arguments, $1 leads to their pointers in the pool
/// segment, and the program begins at the address that $255 has.
///
/// Errors: `PagesFull`, exactly where the octas of the pool need page 65,537, and out of memory.
pub fn start(
    alloc: Global,
    image: Image,
    args: &[Bytes],
    r: RingSize,
) -> Result<Machine, StartFault>
    requires { 1 ≤ length args.now }
    ensures { StartsAs result (spec.start (image_of image) args.now (windowed (window_at_start r))) }
{
    let machine = load_machine(alloc, image, args.len() as u64, r)?;
    with_arguments(alloc, machine, args)
}

/// The machine with an image and this many arguments, which are not in the pool yet.
fn load_machine(alloc: Global, image: Image, count: u64, r: RingSize) -> Result<Machine, NoMemory>
    ensures { IfOk result (λ m. state_of m ≡ spec.loaded (image_of image) count (windowed (window_at_start r))) }
{
    let g = image.g();
    let machine = without_memory(alloc, &image, g, count, r)?;
    Ok(with_memory(machine, image.into_memory()))
}

/// The machine with the registers of an image and this many arguments, and with no memory.
fn without_memory(
    alloc: Global,
    image: &Image,
    g: u8,
    count: u64,
    r: RingSize,
) -> Result<Machine, NoMemory>
    requires bounds { 32 ≤ g }
    requires same { g ≡ image.now.g }
    ensures { let kept = image_of image.now in IfOk result (λ m. state_of m
        ≡ bare kept.g (globals_of kept) count (spec.pool + 8) (windowed (window_at_start r))) }
{
    let globals = collect_globals(alloc, image)?;
    Machine::bare(alloc, g, &globals, count, POOL + 8, r)
}

/// The machine with this memory in place of its own.
fn with_memory(machine: Machine, memory: Memory) -> Machine
    ensures { state_of result ≡ with_shared (shared_in memory) (state_of machine) }
{
    let mut machine = machine;
    let mut memory = memory;
    machine.swap_memory(&mut memory);
    machine
}

/// The machine with arguments in the pool.
fn with_arguments(alloc: Global, machine: Machine, args: &[Bytes]) -> Result<Machine, StartFault>
    ensures { StartsAs result (spec.with_octas (state_of machine) spec.pool (spec.pool_octas args.now)) }
{
    match pool_octas(alloc, args) {
        Ok(Some(octas)) => with_octas(machine, octas.as_slice()),
        Ok(None) => Err(StartFault::PagesFull),
        Err(_) => Err(StartFault::OutOfMemory),
    }
}

/// The machine with octas in the pool.
fn with_octas(machine: Machine, octas: &[u64]) -> Result<Machine, StartFault>
    ensures { StartsAs result (spec.with_octas (state_of machine) spec.pool octas.now) }
{
    let mut machine = machine;
    store_octas(&mut machine, POOL, octas)?;
    Ok(machine)
}

/// Stores octas one after the other from an address on, up to one that is refused.
fn store_octas(machine: &mut Machine, a: u64, octas: &[u64]) -> Result<(), StartFault>
    ensures { result ≢ Err StartFault.OutOfMemory →
        spec.with_octas (state_of machine.old) a octas.now ≡ stored_by result (state_of machine.new) }
{
    let mut at = a;
    let mut rest = octas;
    while let [x, others @ ..] = rest {
        store_next(machine, at, *x)?;
        at += 8;
        rest = others;
    }
    Ok(())
}

/// Stores an octa; no page begins at 2^63 or above.
fn store_next(machine: &mut Machine, a: u64, x: u64) -> Result<(), StartFault>
    ensures stored { result ≢ Err StartFault.OutOfMemory →
        stored (state_of machine.old) a x ≡ stored_by result (state_of machine.new) }
    ensures below { OnOk result (a < 2 ^ 63) }
{
    if a >= 1 << 63 {
        return Err(StartFault::PagesFull);
    }
    match machine.set_octa(a, x) {
        Ok(()) => Ok(()),
        Err(SetFault::NotAllowed) => Err(StartFault::PagesFull),
        Err(SetFault::OutOfMemory) => Err(StartFault::OutOfMemory),
    }
}
