//! What holds of each runner, for proofs.

ghost use Rattle.std.specs.Prelude.{◌<◌, ◌^◌};
ghost use Rattle.mx_core.specs.Kept.{state_of};
ghost use Rattle.mx_run.specs.WildRuns.{HasWindow};

use mx_core::{machines_are_whole, machines_keep_the_invariant};
use mx_run::Runner;

/// States that a runner's machine is one over a window of octas. It does nothing.
#[tactic(auto, using(crate::proofs::ListedSessions::windows))]
#[inline(always)]
pub(crate) fn know_window(runner: &Runner)
    ensures { HasWindow (state_of runner.now.machine) }
{
    machines_keep_the_invariant(runner.machine());
    machines_are_whole(runner.machine());
}

/// States that a runner's count of steps is an octa. It does nothing.
#[inline(always)]
pub(crate) fn know_count(runner: &Runner)
    ensures { (state_of runner.now.machine).steps < 2 ^ 64 }
{
    let _count = runner.machine().steps();
}
