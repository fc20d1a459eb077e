//! What holds of each machine, for proofs.

ghost use Rattle.mx_core.specs.Kept.{state_of};
ghost use Rattle.mx_run.specs.WildRuns.{HasWindow};

use mx_core::{Machine, machines_are_whole, machines_keep_the_invariant};

/// States that a machine is one over a window of octas. It does nothing.
#[tactic(auto, using(crate::proofs::Areas::windows))]
#[inline(always)]
pub fn know_window(machine: &Machine)
    ensures { HasWindow (state_of machine.now) }
{
    machines_keep_the_invariant(machine);
    machines_are_whole(machine);
}
