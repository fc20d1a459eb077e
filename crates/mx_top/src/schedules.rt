//! An object that several processors run by a schedule.

ghost use Rattle.std.specs.Prelude.{◌≡◌, ◌≤◌, ◌+◌};
ghost use Rattle.mx_load.specs.Kept.{image_of};
ghost use Rattle.mx_mmo.specs.Image as mmo;
ghost use Rattle.mx_run.specs.WildRuns.{window_machine};
ghost use Rattle.mx_multi.specs.Joint.{NoneTouched, joint_of, processor_count};
ghost use Rattle.mx_multi.specs.Schedules.{AreNames};
ghost use Rattle.mx_files.specs.Schedules.{AreEight};
ghost use Rattle.mx_top.specs.Processors as spec;
ghost use Rattle.mx_begin.specs.Ends.{IsOfMachine};
ghost use Rattle.mx_top.specs.Product as page;
ghost use Rattle.mx_top.specs.Telling as tells;
ghost use Rattle.mx_top.specs.WorkClauses.{DoesNext, DoesProgram};

use crate::processors::put_all;
use mx_begin::{Form, read_image};
use mx_files::read_schedule;
use mx_host::Host;
use mx_load::Image;
use mx_multi::{Multi, MultiEnd, run_turns};
use mx_outcome::Outcome;
use mx_words::Order;
use std::alloc::Global;

/// The greatest byte of a schedule, and 0 where it has none.
#[tactic(auto, using(crate::proofs::CountedProcessors::counting))]
fn greatest(schedule: &[u8]) -> u8
    ensures { spec.counted_from 1 schedule.now ≡ result + 1 }
{
    let mut most = 0u8;
    for who in schedule {
        most = most.max(*who);
    }
    most
}

/// As many processors as the greatest byte of a schedule and one.
fn count_processors(schedule: &[u8]) -> u8
    requires { AreEight schedule.now }
    ensures value { result ≡ spec.processors_named schedule.now }
    ensures least { 1 ≤ result }
    ensures most { result ≤ 8 }
    ensures names { AreNames result schedule.now }
{
    greatest(schedule) + 1
}

/// The outcome of at most this many steps, by their end.
fn multi_outcome(steps: u64, end: MultiEnd) -> Outcome
    ensures value { result ≡ spec.multi_outcome steps end }
    ensures memory { result ≡ Outcome.OutOfMemory → end ≡ MultiEnd.OutOfMemory }
    ensures machine { IsOfMachine result }
{
    match end {
        MultiEnd::AllHalted => Outcome::Done(0),
        MultiEnd::Stopped { pc, reason, .. } => Outcome::Stopped { pc, reason },
        MultiEnd::Spent => Outcome::StepsSpent { steps },
        MultiEnd::OutOfMemory => Outcome::OutOfMemory,
    }
}

/// What follows turns: a line for each of this many processors, which are all, and the one memory, where a dump is asked for.
fn tell_turns<H: Host>(
    alloc: Global,
    host: &mut H,
    order: &Order,
    multi: &Multi,
    end: MultiEnd,
    count: u8,
) -> Outcome
    requires { processor_count multi.now ≡ count }
    ensures { DoesNext H.told H.faults host.old host.new (spec.multi_outcome order.now.steps end) result
        (tells.telling (spec.multi_outcome order.now.steps end)
        (spec.multi_lines order.now.dump end (joint_of multi.now))) }
{
    if let MultiEnd::OutOfMemory = end {
        return Outcome::OutOfMemory;
    }
    match put_all(alloc, host, multi, end, count, order.dump) {
        Ok(()) => multi_outcome(order.steps, end),
        Err(other) => other,
    }
}

/// Lets this many processors that were started, which are all, take their turns.
fn run_started<H: Host>(
    alloc: Global,
    host: &mut H,
    order: &Order,
    schedule: &[u8],
    multi: Multi,
    count: u8,
) -> Outcome
    requires count { processor_count multi ≡ count }
    requires names { AreNames count schedule.now }
    requires untouched { NoneTouched (joint_of multi).processors }
    ensures { (image : mmo.Image) → joint_of multi ≡ page.joint_at_start window_machine order.now.ring image schedule.now →
        DoesProgram H.told H.faults host.old host.new result (page.turns_from order.now schedule.now image) }
{
    let mut multi = multi;
    let end = run_turns(alloc, &mut multi, host, schedule, order.steps);
    tell_turns(alloc, host, order, &multi, end, count)
}

/// Runs an image on as many processors as a schedule needs.
fn run_image<H: Host>(
    alloc: Global,
    host: &mut H,
    order: &Order,
    schedule: &[u8],
    image: Image,
) -> Outcome
    requires { AreEight schedule.now }
    ensures { DoesProgram H.told H.faults host.old host.new result
        (page.turns_on order.now schedule.now (image_of image)) }
{
    let count = count_processors(schedule);
    match Multi::start(alloc, image, count, order.ring) {
        Ok(multi) => run_started(alloc, host, order, schedule, multi, count),
        Err(_) => Outcome::OutOfMemory,
    }
}

/// Runs the object in the file of this name by a schedule.
fn object_file<H: Host>(
    alloc: Global,
    host: &mut H,
    order: &Order,
    schedule: &[u8],
    name: &[u8],
) -> Outcome
    requires { AreEight schedule.now }
    ensures { DoesProgram H.told H.faults host.old host.new result
        (page.object_file order.now name.now schedule.now) }
{
    match read_image(alloc, host, Form::Object, name) {
        Ok(image) => run_image(alloc, host, order, schedule, image),
        Err(outcome) => outcome,
    }
}

/// Runs the object in a file by the schedule in another one, which is read first.
pub fn run_scheduled<H: Host>(
    alloc: Global,
    host: &mut H,
    order: &Order,
    schedule: &[u8],
    object: &[u8],
) -> Outcome
    ensures { DoesProgram H.told H.faults host.old host.new result
        (page.multi_file order.now schedule.now object.now) }
{
    match read_schedule(alloc, host, schedule) {
        Ok(bytes) => object_file(alloc, host, order, bytes.as_slice(), object),
        Err(outcome) => outcome,
    }
}
