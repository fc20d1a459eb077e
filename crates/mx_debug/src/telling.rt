//! What is shown of a step: what the program wrote on the way, where it is, and why it stopped there.

use crate::known::Known;
use mx_core::Machine;
use mx_pieces::{Written, add_meanwhile};
use mx_places::{find_known_value, note_of, thing_of_place};
use mx_replay::Replay;
use mx_run::End;
use mx_stops::{Seen, Watch, see};
use mx_tell::{add_end, add_stop, add_watched};
use mx_text::add_decimal;
use mx_word::{Bytes, NoMemory, Sequence};
use std::alloc::Global;

/// Adds the line of the step that is shown, after what the program wrote on the way.
pub(crate) fn add_step(
    out: &mut Bytes,
    replay: &Replay,
    known: &Known,
    since: Written,
) -> Result<(), NoMemory> {
    add_meanwhile(out, replay.host(), since)?;
    add_stop(out, &known.book, replay.step_number(), replay.machine())
}

/// Adds a line.
pub(crate) fn add_said(out: &mut Bytes, said: &[u8]) -> Result<(), NoMemory> {
    out.extend(said)?;
    out.extend(b"\n")
}

/// Whether a run has ended so.
pub(crate) fn is_over(end: End) -> bool {
    !matches!(end, End::Spent)
}

/// Adds that the start is reached, the end, or the last step that can be reached.
fn add_bounds(out: &mut Bytes, replay: &Replay, known: &Known) -> Result<(), NoMemory> {
    if is_over(replay.end()) {
        return add_end(out, &known.book, replay.end());
    }
    if replay.step_number() == 0 {
        return out.extend(b"at the start\n");
    }
    if replay.step_number() >= known.most {
        add_decimal(out, known.most)?;
        return out.extend(b" steps spent: --steps allows more\n");
    }
    Ok(())
}

/// Adds the numbers of the breaks that a machine is at.
fn add_breaks(out: &mut Bytes, machine: &Machine, known: &Known) -> Result<(), NoMemory> {
    for b in known.stops.breaks.as_slice() {
        if b.is_met(machine) {
            out.extend(b"break ")?;
            add_decimal(out, u64::from(b.number))?;
            out.extend(b"\n")?;
        }
    }
    Ok(())
}

/// Adds why a run stops at the step that is shown.
pub(crate) fn add_reasons(out: &mut Bytes, replay: &Replay, known: &Known) -> Result<(), NoMemory> {
    add_breaks(out, replay.machine(), known)?;
    add_bounds(out, replay, known)
}

/// What is seen of the places that are watched.
pub(crate) fn see_watched_values(
    alloc: Global,
    machine: &Machine,
    watches: &[Watch],
) -> Result<Sequence<Seen>, NoMemory> {
    let mut values = Sequence::new(alloc);
    for watch in watches {
        values.push(see(machine, watch.place))?;
    }
    Ok(values)
}

/// Adds what became of a value that is watched, if it changed.
fn add_if_changed(
    out: &mut Bytes,
    machine: &Machine,
    known: &Known,
    watch: &Watch,
    old: &Seen,
) -> Result<(), NoMemory> {
    let place = watch.place;
    let new = see(machine, place);
    if !old.is_change(&new, place) {
        return Ok(());
    }
    let note = note_of(known.alloc, place, &new)?;
    add_watched(
        out,
        &known.book,
        u64::from(watch.number),
        thing_of_place(place),
        find_known_value(place, old),
        new.value,
        note.as_slice(),
    )
}

/// Adds which of the values that are watched changed.
pub(crate) fn add_all_watched(
    out: &mut Bytes,
    machine: &Machine,
    known: &Known,
    values: &[Seen],
) -> Result<(), NoMemory> {
    for (watch, old) in known.stops.watches.as_slice().iter().zip(values) {
        add_if_changed(out, machine, known, watch, old)?;
    }
    Ok(())
}
