//! What became of several processors, line by line.

ghost use Rattle.std.specs.Prelude.{◌≡◌, ◌<◌, ◌++◌, ◌^◌, IfOk, OnOk};
ghost use Rattle.mx_core.specs.Way.Search.{IsNextBetween};
ghost use Rattle.mx_files.specs.Clauses.{DoesPart};
ghost use Rattle.mx_files.specs.FilePlans.{lines_plan};
ghost use Rattle.mx_multi.specs.Joint.{joint_of, processor_count};
ghost use Rattle.mx_top.specs.Processors as spec;
ghost use Rattle.mx_dump.specs.Shown.{IsNextShown};

use mx_core::is_in_stack_area;
use mx_dump::put_octa;
use mx_files::write_line;
use mx_host::Host;
use mx_multi::{Multi, MultiEnd};
use mx_outcome::Outcome;
use mx_ring::AREA_END;
use mx_text::add_decimal;
use mx_word::{Bytes, NoMemory};
use std::alloc::Global;

/// The first address that no octa has.
const END: u64 = 1 << 63;

/// Adds what became of a processor that has not halted.
fn add_stop(text: &mut Bytes, who: u8, end: MultiEnd) -> Result<(), NoMemory>
    ensures { OnOk result (text.new ≡ text.old ++ spec.stop_text who end) }
{
    match end {
        MultiEnd::Stopped {
            processor,
            reason,
            ..
        } => {
            if who == processor {
                text.extend(b" stopped ")?;
                return add_decimal(text, u64::from(reason));
            }
            text.extend(b" running")
        }
        MultiEnd::AllHalted => text.extend(b" running"),
        MultiEnd::Spent => text.extend(b" running"),
        MultiEnd::OutOfMemory => text.extend(b" running"),
    }
}

/// Adds what became of a processor.
fn add_status(text: &mut Bytes, multi: &Multi, end: MultiEnd, who: u8) -> Result<(), NoMemory>
    requires { who < processor_count multi.now }
    ensures { OnOk result (text.new ≡ text.old ++ spec.status_text end (joint_of multi.now) who) }
{
    if multi.halted(who) {
        text.extend(b" halted ")?;
        return add_decimal(text, multi.processor(who).register(255) % 256);
    }
    add_stop(text, who, end)
}

/// The line of a processor.
fn processor_text(alloc: Global, multi: &Multi, end: MultiEnd, who: u8) -> Result<Bytes, NoMemory>
    requires { who < processor_count multi.now }
    ensures { IfOk result (λ text. text ≡ spec.processor_text end (joint_of multi.now) who) }
{
    let mut text = Bytes::copy(alloc, b"processor ")?;
    add_decimal(&mut text, u64::from(who))?;
    add_status(&mut text, multi, end, who)?;
    text.extend(b" steps ")?;
    add_decimal(&mut text, multi.processor(who).steps())?;
    text.extend(b"\n")?;
    Ok(text)
}

/// Writes the line of a processor.
fn put_processor<H: Host>(
    alloc: Global,
    host: &mut H,
    multi: &Multi,
    end: MultiEnd,
    who: u8,
) -> Result<(), Outcome>
    requires { who < processor_count multi.now }
    ensures { DoesPart H.told H.faults host.old host.new result
        (lines_plan (spec.processor_line end (joint_of multi.now) who)) }
{
    match processor_text(alloc, multi, end, who) {
        Ok(line) => write_line(host, line.as_slice()),
        Err(_) => Err(Outcome::OutOfMemory),
    }
}

/// Writes the lines of this many processors, which are all.
fn put_processors<H: Host>(
    alloc: Global,
    host: &mut H,
    multi: &Multi,
    end: MultiEnd,
    count: u8,
) -> Result<(), Outcome>
    requires { processor_count multi.now ≡ count }
    ensures { DoesPart H.told H.faults host.old host.new result
        (lines_plan (spec.processor_lines end (joint_of multi.now))) }
{
    for who in 0..count {
        match put_processor(alloc, host, multi, end, who) {
            Ok(()) => {}
            Err(outcome) => return Err(outcome),
        }
    }
    Ok(())
}

/// The first octa of the one memory other than 0 from an address on: its address and its value.
fn next_octa(multi: &Multi, from: u64) -> Option<(u64, u64)>
    ensures { IsNextBetween (joint_of multi.now).memory.octas from (2 ^ 63) result }
{
    if from >= END {
        return None;
    }
    match multi.next_nonzero(from) {
        Some((a, x)) => { if a < END { Some((a, x)) } else { None } }
        None => None,
    }
}

/// The first octa of the one memory that is shown, from an address on: its address and its value.
#[tactic(auto, using(crate::proofs::SharedDumps::sharing))]
fn next_shown(multi: &Multi, from: u64) -> Option<(u64, u64)>
    ensures { IsNextShown (spec.memory_alone (joint_of multi.now).memory) from result }
{
    match next_octa(multi, from) {
        Some((a, x)) => {
            if is_in_stack_area(a) {
                next_octa(multi, AREA_END)
            } else {
                Some((a, x))
            }
        }
        None => None,
    }
}

/// Writes the lines of the octas of the one memory.
fn put_memory<H: Host>(alloc: Global, host: &mut H, multi: &Multi) -> Result<(), Outcome>
    ensures { DoesPart H.told H.faults host.old host.new result
        (lines_plan (spec.memory_lines (joint_of multi.now).memory)) }
{
    let mut from = 0u64;
    while let Some((a, x)) = next_shown(multi, from) {
        match put_octa(alloc, host, a, x) {
            Ok(()) => {}
            Err(outcome) => return Err(outcome),
        }
        from = a + 8;
    }
    Ok(())
}

/// Writes the lines of this many processors, which are all, and those of the one memory where a dump is wanted.
pub fn put_all<H: Host>(
    alloc: Global,
    host: &mut H,
    multi: &Multi,
    end: MultiEnd,
    count: u8,
    dump: bool,
) -> Result<(), Outcome>
    requires { processor_count multi.now ≡ count }
    ensures { DoesPart H.told H.faults host.old host.new result
        (lines_plan (spec.multi_lines dump end (joint_of multi.now))) }
{
    match put_processors(alloc, host, multi, end, count) {
        Ok(()) => {}
        Err(outcome) => return Err(outcome),
    }
    if dump {
        return put_memory(alloc, host, multi);
    }
    Ok(())
}
