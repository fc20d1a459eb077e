//! The number of the calls of the host shows in no turn and in no run, nor does the list of those that fail.

ghost use Rattle.std.specs.Prelude.{◌≡◌, ℕ, Bool};
ghost use Rattle.mx_host.specs.HostModel.{HostModel};
ghost use Rattle.mx_plan.specs.Counts.{NoneFailed, unscheduled};
ghost use Rattle.mx_core.specs.State.{State};
ghost use Rattle.mx_run.specs.Counts.{end_host, end_unscheduled, turn_unscheduled};
ghost use Rattle.mx_run.specs.Runs.{FlagsOf};
ghost use Rattle.mx_run.specs.Turns.{turn};
ghost use Rattle.mx_run.specs.WildRuns.{MachineKind, host_after, run_by};

/// Where no call that is made fails, a turn and a run of either machine come to the same whatever number of
/// calls was made before, and whatever other calls are listed as failing; only that number and that list
/// differ in what they leave.
#[tactic(auto, using(crate::proofs::SteadyRuns::steady))]
pub fn runs_go_by_no_count()
    ensures turn { (s : State) (m n : HostModel) → unscheduled m ≡ unscheduled n →
        NoneFailed m (host_after (turn s m)) → NoneFailed n (host_after (turn s n)) →
        turn_unscheduled (turn s m) ≡ turn_unscheduled (turn s n) }
    ensures run { (kind : MachineKind) (most : ℕ) (f : FlagsOf) (pass : Bool) (s : State) (m n : HostModel)
        → unscheduled m ≡ unscheduled n → NoneFailed m (end_host (run_by kind most f pass s m)) →
        NoneFailed n (end_host (run_by kind most f pass s n)) →
        end_unscheduled (run_by kind most f pass s m) ≡ end_unscheduled (run_by kind most f pass s n) }
{}
