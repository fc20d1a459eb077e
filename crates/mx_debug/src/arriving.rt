//! Where a word leads to, with what is shown of it.

ghost use Rattle.std.specs.Prelude.{◌≡◌, ◌+◌, min, OnOk};
ghost use Rattle.mx_replay.specs.Programs.{IsReached};

use crate::known::Known;
use crate::telling::{add_all_watched, add_reasons, add_step, see_watched_values};
use mx_core::Trace;
use mx_pieces::Written;
use mx_places::add_overwritten;
use mx_replay::Replay;
use mx_tell::{Before, add_changes};
use mx_word::{Bytes, NoMemory};

/// Adds what a turn changed, if there is one.
fn add_turn(
    out: &mut Bytes,
    replay: &Replay,
    known: &Known,
    before: &Before,
    trace: Option<Trace>,
) -> Result<(), NoMemory> {
    match trace {
        Some(trace) => add_changes(out, &known.book, before, &trace, replay.machine()),
        None => Ok(()),
    }
}

/// Makes a turn, and tells of the step that it leads to and of what it changed.
fn make_last_turn(
    replay: &mut Replay,
    known: &Known,
    since: Written,
    out: &mut Bytes,
) -> Result<(), NoMemory>
    ensures program { replay.new.program ≡ replay.old.program }
    ensures reached { OnOk result (IsReached replay.old.program (replay.old.at + 1) replay.new.at) }
{
    let before = Before::of(replay.machine());
    let watches = known.stops.watches.as_slice();
    let values = see_watched_values(known.alloc, replay.machine(), watches)?;
    let trace = replay.step()?;
    add_step(out, replay, known, since)?;
    add_overwritten(out, replay)?;
    add_turn(out, replay, known, &before, trace)?;
    add_all_watched(out, replay.machine(), known, values.as_slice())?;
    add_reasons(out, replay, known)
}

/// Goes to the start, and tells of it.
fn go_to_start(
    replay: &mut Replay,
    known: &Known,
    since: Written,
    out: &mut Bytes,
) -> Result<(), NoMemory>
    ensures program { replay.new.program ≡ replay.old.program }
    ensures reached { OnOk result (IsReached replay.old.program 0 replay.new.at) }
{
    replay.go_to(0)?;
    add_step(out, replay, known, since)?;
    add_reasons(out, replay, known)
}

/// Goes to step k, or to the last one before it, and tells of it and of what the turn to it changed.
#[tactic(auto, using(crate::proofs::Reaching::reaching))]
pub(crate) fn arrive(
    replay: &mut Replay,
    known: &Known,
    since: Written,
    k: u64,
    out: &mut Bytes,
) -> Result<(), NoMemory>
    ensures program { replay.new.program ≡ replay.old.program }
    ensures reached { OnOk result (IsReached replay.old.program k replay.new.at) }
{
    if k == 0 {
        return go_to_start(replay, known, since, out);
    }
    replay.go_to(k - 1)?;
    make_last_turn(replay, known, since, out)
}

/// Goes to step k, but not past the one that is shown, and tells of it and of what the turn to it changed.
#[tactic(auto, using(crate::proofs::Reaching::reaching))]
pub(crate) fn arrive_back(
    replay: &mut Replay,
    known: &Known,
    since: Written,
    k: u64,
    out: &mut Bytes,
) -> Result<(), NoMemory>
    ensures program { replay.new.program ≡ replay.old.program }
    ensures back { OnOk result (replay.new.at ≡ min k replay.old.at) }
{
    let k = k.min(replay.step_number());
    arrive(replay, known, since, k, out)
}

/// Tells of the step that is shown, and of what the turn to it changed.
#[tactic(auto, using(crate::proofs::Reaching::reaching))]
pub(crate) fn arrive_here(
    replay: &mut Replay,
    known: &Known,
    since: Written,
    out: &mut Bytes,
) -> Result<(), NoMemory>
    ensures program { replay.new.program ≡ replay.old.program }
    ensures same { OnOk result (replay.new.at ≡ replay.old.at) }
{
    let here = replay.step_number();
    arrive_back(replay, known, since, here, out)
}
