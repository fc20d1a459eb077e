//! The file that holds a schedule, as it is read.

ghost use Rattle.std.specs.Prelude.{◌≡◌, ◌≢◌, ◌≤◌, ◌<◌, ℕ, Err, IfOk, IfErr, false, get_or, length};
ghost use Rattle.std.specs.List.{position};
ghost use Rattle.mx_host.specs.Keeping.{Answers, KeepsOutput};
ghost use Rattle.mx_outcome.specs.Kinds.{is_usage};
ghost use Rattle.mx_files.specs.Failing.{PartFailsOnlyBy};
ghost use Rattle.mx_files.specs.Clauses.{DoesPart};
ghost use Rattle.mx_files.specs.Schedules as spec;

use crate::source::{SOURCE_PIECES, read_file};
use mx_host::Host;
use mx_outcome::Outcome;
use mx_word::Bytes;
use std::alloc::Global;

/// A schedule has at most this many bytes.
const LONGEST: usize = 1 << 22;

/// The greatest byte of a schedule, and 0 where it has none.
#[tactic(auto, using(crate::proofs::GreatestBytes::greatest))]
fn greatest(bytes: &[u8]) -> u8
    ensures { (place : ℕ) → place < length bytes.now → get_or bytes.now place 0 ≤ result }
{
    let mut most = 0u8;
    for b in bytes {
        most = most.max(*b);
    }
    most
}

/// The place of the first byte that names none of eight processors, which is looked for byte by byte.
fn find_unnamed(bytes: &[u8]) -> Option<usize>
    ensures { result ≡ position spec.is_unnamed bytes.now }
{
    bytes.iter().position(|b| 7 < *b)
}

/// The place of the first byte that names none of eight processors. Where the greatest byte names one, all do: this is
/// known in a tenth of the time.
#[tactic(auto, using(crate::proofs::GreatestBytes::greatest))]
fn find_first_unnamed(bytes: &[u8]) -> Option<usize>
    ensures { result ≡ position spec.is_unnamed bytes.now }
{
    if greatest(bytes) <= 7 {
        None
    } else {
        find_unnamed(bytes)
    }
}

/// The place at which a schedule of this many bytes is at fault by its length.
fn length_fault(count: usize) -> Option<usize>
    ensures { result ≡ spec.length_fault count }
{
    if count == 0 {
        Some(0)
    } else if LONGEST < count {
        Some(LONGEST)
    } else {
        None
    }
}

/// The first place at which a schedule is at fault.
fn schedule_fault(bytes: &[u8]) -> Option<usize>
    ensures { result ≡ spec.schedule_fault bytes.now }
{
    match find_first_unnamed(bytes) {
        Some(place) if place < LONGEST => Some(place),
        _ => length_fault(bytes.len()),
    }
}

/// A schedule that was read, or the outcome where it is at fault.
#[tactic(auto, unfolding(crate::specs::Schedules::schedule_in))]
fn check_schedule(bytes: Bytes) -> Result<Bytes, Outcome>
    ensures value { result ≡ spec.schedule_in bytes }
    ensures names { IfOk result spec.AreEight }
    ensures no_usage { IfErr result (λ e. is_usage e ≡ false) }
    ensures no_host_fault { result ≢ Err Outcome.HostFault }
    ensures no_missing_file { result ≢ Err Outcome.NoFile }
{
    match schedule_fault(bytes.as_slice()) {
        Some(place) => Err(Outcome::BadSchedule {
            place: place as u64,
        }),
        None => Ok(bytes),
    }
}

/// Reads the schedule in the file of this name: 1 to 2^22 bytes, each of which names one of eight processors. Where it is
/// none, the first place of its fault is told when the file was closed.
pub fn read_schedule<H: Host>(alloc: Global, host: &mut H, name: &[u8]) -> Result<Bytes, Outcome>
    ensures works { DoesPart H.told H.faults host.old host.new result (spec.schedule_plan name.now) }
    ensures told { Answers (H.told host.old) (H.told host.new) (Err Outcome.OutOfMemory) result
        (λ m. spec.schedule_bytes name.now m) }
    ensures names { IfOk result spec.AreEight }
    ensures output { KeepsOutput (H.told host.old) (H.told host.new) }
    ensures causes { PartFailsOnlyBy H.told H.faults host.old host.new result }
{
    let bytes = read_file(alloc, host, name, SOURCE_PIECES)?;
    check_schedule(bytes)
}
