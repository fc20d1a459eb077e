//! A machine at its start.

ghost use Rattle.std.specs.Prelude.{◌≡◌, ◌≢◌, ◌≤◌, ◌<◌, ◌+◌, ◌*◌, Err, IfOk, IfErr, false, length, map, string_bytes};
ghost use Rattle.mx_begin.specs.BeginPlans.{Begins};
ghost use Rattle.mx_begin.specs.Begun as spec;
ghost use Rattle.mx_begin.specs.Begun.{list_state_of};
ghost use Rattle.mx_files.specs.Failing.{PartFailsOnlyBy};
ghost use Rattle.mx_core.specs.Kept.{state_of};
ghost use Rattle.mx_load.specs.Kept.{image_of};
ghost use Rattle.mx_outcome.specs.Kinds.{is_usage};
ghost use Rattle.mx_ring.specs.Stack.{stack_address};
ghost use Rattle.mx_run.specs.WildRuns.{window_machine, list_machine};
ghost use Rattle.mx_start.specs.Start.{pool, pool_octas};
ghost use Rattle.mx_word.specs.Results.{map_ok};

use crate::argument::{collect_arguments, word_bytes};
use crate::images::{Form, read_image};
use mx_core::Machine;
use mx_host::Host;
use mx_load::Image;
use mx_outcome::Outcome;
use mx_ring::RingSize;
use mx_start::StartFault;
use mx_word::Bytes;
use mx_words::Order;
use std::alloc::Global;

/// The machine of an image with these arguments at its start, or the outcome where the pages are full.
#[tactic(auto, using(crate::proofs::StartedMachines::starting))]
pub fn start_machine(
    alloc: Global,
    image: Image,
    arguments: &[Bytes],
    ring: RingSize,
) -> Result<Machine, Outcome>
    requires not_empty { 1 ≤ length arguments.now }
    requires fits { pool + 8 * length (pool_octas arguments.now) ≤ stack_address 0 }
    ensures window { spec.StartsAs result state_of
        (spec.started window_machine ring (image_of image) arguments.now) }
    ensures list { spec.StartsAs result list_state_of
        (spec.started list_machine ring (image_of image) arguments.now) }
    ensures untouched { IfOk result (λ m. (state_of m).touched ≡ false) }
    ensures no_host_fault { result ≢ Err Outcome.HostFault }
    ensures no_missing_file { result ≢ Err Outcome.NoFile }
    ensures no_usage { IfErr result (λ outcome. is_usage outcome ≡ false) }
{
    let pc = image.global(255) / 4 * 4;
    match mx_start::start(alloc, image, arguments, ring) {
        Ok(machine) => Ok(machine),
        Err(StartFault::PagesFull) => Err(Outcome::Stopped { pc, reason: 118 }),
        Err(StartFault::OutOfMemory) => Err(Outcome::OutOfMemory),
    }
}

/// The machine that an order on these words begins with: that of the source, or of the object, in the file that they name,
/// at its start with the arguments after it.
///
/// Errors: the outcome where there is no such file, where it cannot be read or is refused, where the pages of the machine
/// are full, and out of memory.
pub fn begin<H: Host>(
    alloc: Global,
    host: &mut H,
    words: &[String],
    order: &Order,
    form: Form,
) -> Result<Machine, Outcome>
    requires file { order.now.file < length words.now }
    requires rest { order.now.rest ≤ length words.now }
    ensures window { Begins H.told host.old host.new (map_ok state_of result)
        window_machine (map string_bytes words.now) order.now form }
    ensures list { Begins H.told host.old host.new (map_ok list_state_of result)
        list_machine (map string_bytes words.now) order.now form }
    ensures untouched { IfOk result (λ machine. (state_of machine).touched ≡ false) }
    ensures causes { PartFailsOnlyBy H.told H.faults host.old host.new result }
{
    let arguments = collect_arguments(alloc, words, order)?;
    let image = read_image(alloc, host, form, word_bytes(words, order.file))?;
    start_machine(alloc, image, arguments.as_slice(), order.ring)
}
