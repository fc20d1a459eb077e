//! Watchers that are told the traces of steps.

ghost use Rattle.std.specs.Prelude.{◌≡◌, IfOk, OnOk, length, map};
ghost use Rattle.std.specs.List.{range_with_len};
ghost use Rattle.mx_watch.specs.Listening.{listening, starting, watched, watchers_left};

use crate::Watcher;
use crate::telling::{Reports, tell_all};
use mx_core::Trace;
use mx_word::NoMemory;
use std::alloc::Global;

/// Tells watchers the traces of steps, one after another and each to all of them in order. One that is full is told
/// nothing more: it leaves the list, and its report is kept, with the index that it had in the list at the start.
///
/// Errors: out of memory. Then those that are left were told some of the traces.
#[tactic(auto, using(crate::proofs::Heard::first_places))]
pub fn watch(
    alloc: Global,
    traces: &[Trace],
    watchers: &mut Vec<Box<dyn Watcher>>,
    kept: &mut Reports,
) -> Result<(), NoMemory>
    ensures left { OnOk result (map meaning watchers.new.items ≡
        watchers_left (watched traces.now (starting (map meaning watchers.old.items) kept.old))) }
    ensures kept { OnOk result (kept.new ≡
        (watched traces.now (starting (map meaning watchers.old.items) kept.old)).kept) }
{
    let mut places = first_places(alloc, watchers.len())?;
    watch_all(traces, watchers, &mut places, kept)?;
    Ok(())
}

/// The indices of this many watchers.
#[tactic(auto, using(crate::proofs::Heard::first_places))]
pub(crate) fn first_places(alloc: Global, count: usize) -> Result<Vec<usize>, NoMemory>
    ensures { IfOk result (λ places. places.items ≡ range_with_len 0 count) }
{
    let mut places = Vec::new(alloc);
    for place in 0..count {
        places.push(place)?;
    }
    Ok(places)
}

/// Tells watchers with these places the traces.
fn watch_all(
    traces: &[Trace],
    watchers: &mut Vec<Box<dyn Watcher>>,
    places: &mut Vec<usize>,
    kept: &mut Reports,
) -> Result<(), NoMemory>
    requires { length places.now.items ≡ length watchers.now.items }
    ensures heard { OnOk result (listening places.new.items (map meaning watchers.new.items) kept.new ≡
        watched traces.now (listening places.old.items (map meaning watchers.old.items) kept.old)) }
    ensures same { length places.new.items ≡ length watchers.new.items }
{
    for t in traces {
        tell_all(watchers, places, kept, t)?;
    }
    Ok(())
}
