//! What is looked for in a run.

ghost use Rattle.std.specs.Prelude.{◌≡◌};
ghost use Rattle.mx_core.specs.Kept.{state_of};
ghost use Rattle.mx_replay.specs.Marks as spec;

use mx_core::Machine;
use mx_stops::{Break, Place, Watch, depth};

/// What a step is looked for by.
#[derive(Clone, Copy)]
pub(crate) enum Sought<'a> {
    /// Its turn changes the value at a place.
    Change(Place),
    /// At most this many registers are hidden there.
    Shallow(u64),
    /// Its turn comes to one of these breaks, changes the value at a place that is watched, or leads to where at most this many
    /// registers are hidden, if that is asked.
    Stops(&'a [Break], &'a [Watch], Option<u64>),
}

/// Whether at most this many registers are hidden, if that is asked.
pub(crate) fn is_shallow_if(machine: &Machine, most: Option<u64>) -> bool
    ensures { result ≡ spec.is_at_most_if most (state_of machine.now) }
{
    match most {
        None => false,
        Some(most) => depth(machine) <= most,
    }
}

/// Whether the start of a run has a mark, by its machine.
pub(crate) fn has_mark_at_start(machine: &Machine, sought: Sought<'_>) -> bool
    ensures { result ≡ (spec.mark_of sought.entry).start (state_of machine.now) }
{
    match sought {
        Sought::Change(_) | Sought::Stops(_, _, _) => false,
        Sought::Shallow(most) => depth(machine) <= most,
    }
}
