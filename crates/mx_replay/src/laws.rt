//! How the steps of a run follow each other.

ghost use Rattle.std.specs.Prelude.{◌≡◌, ◌≤◌, ◌+◌, ℕ, Ok, false};
ghost use Rattle.mx_host.specs.HostModel.{HostModel};
ghost use Rattle.mx_core.specs.State.{State};
ghost use Rattle.mx_run.specs.Runs.{ended, no_flags, run};
ghost use Rattle.mx_run.specs.declared.end.End.TheVariants.{Spent};
ghost use Rattle.mx_replay.specs.Programs.{GoesOn, HasEnded, step_of};
ghost use Rattle.mx_replay.specs.declared.program.Program.{Program};

/// What holds of all runs (`mx_run::laws::runs_follow_each_other`), told of the steps of a program: from a step at which the
/// run goes on, step i + j is what j turns come to from what step i left. Where the run has ended, all steps after it are the
/// same. Where it goes on, it went on at each step before.
#[tactic(auto, using(crate::proofs::Steps::following))]
pub fn steps_follow_each_other()
    ensures on { (p : Program) (i j : ℕ) (s : State) (m : HostModel) → step_of p i ≡ Ok (ended Spent s m)
        → step_of p (i + j) ≡ Ok (run j no_flags false s m) }
    ensures over { (p : Program) (i j : ℕ) → HasEnded p i → step_of p (i + j) ≡ step_of p i }
    ensures before { (p : Program) (i j : ℕ) → i ≤ j → GoesOn p j → GoesOn p i }
{}
