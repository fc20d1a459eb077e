//! What holds of runs over their definitions alone. A machine over a window and the one over the list
//! that its register stack represents go the same way, as long as nothing looks at rS or at the
//! memory of the register stack.

ghost use Rattle.std.specs.Prelude.{◌≡◌, ◌≢◌, ◌+◌, ◌&&◌, ◌==◌, ℕ, suc, Bool, true, false};
ghost use Rattle.mx_host.specs.HostModel.{HostModel};
ghost use Rattle.mx_plan.specs.Held.{KeepsStreams, OnlyAdds};
ghost use Rattle.mx_plan.specs.Plan.{Stops, end_of};
ghost use Rattle.mx_plan.specs.Wild.{meets_wild};
ghost use Rattle.mx_ring.specs.Window.{Window};
ghost use Rattle.mx_word.specs.Lists.{IsFront};
ghost use Rattle.mx_word.specs.Ranges.{AreOctas};
ghost use Rattle.mx_core.specs.Bounds.{IsMachine, as_list_state};
ghost use Rattle.mx_core.specs.State.{State};
ghost use Rattle.mx_run.specs.Laws.{TurnsAlike, free_run, plan_end};
ghost use Rattle.mx_run.specs.RunPlans.{RunPlan, RunWorld, ended_world, running};
ghost use Rattle.mx_run.specs.Runs.{Ended, FlagsOf, no_flags, ended, run, IsLater};
ghost use Rattle.mx_run.specs.Turns.{went_on, halts, stops, turn};
ghost use Rattle.mx_run.specs.declared.end.End.{End};
ghost use Rattle.mx_run.specs.declared.end.End.TheVariants.{Halted, Spent, Stopped};
ghost use Rattle.mx_code.specs.declared.trace.Trace.{Trace};
ghost use Rattle.mx_run.specs.WildRuns.{MachineKind, window_machine, ends_wild, run_by, run_ended};
ghost use Rattle.mx_run.specs.WildRuns.{turn_is_wild, state_after};

/// A turn that is not wild, where nothing was touched, comes to the same with the same trace and the
/// same host model, and leaves the list that the next state represents, and nothing touched. It is wild
/// for the one where it is for the other.
#[tactic(auto, using(crate::proofs::ListTurns::turns))]
pub fn turns_go_as_lists()
    ensures turn { (s : State) (w : Window) (m : HostModel) → IsMachine s w → AreOctas w.hidden.stack
        → s.touched ≡ false → turn_is_wild s ≡ false → TurnsAlike s m }
    ensures wild { (s : State) (w : Window) → IsMachine s w → s.touched ≡ false
        → turn_is_wild (as_list_state s) ≡ turn_is_wild s }
    ensures untouched { (s : State) (m : HostModel) → s.touched ≡ false → turn_is_wild s ≡ false
        → (state_after (turn s m)).touched ≡ false }
{}

/// The run of the machine over a window always ends.
#[tactic(auto, using(crate::proofs::BothMachines::windows))]
pub fn windows_are_never_wild()
    ensures { (n : ℕ) (f : FlagsOf) (p : Bool) (s : State) (m : HostModel)
        → run_by window_machine n f p s m ≡ run_ended (run n f p s m) }
{}

/// A run only adds to standard output.
#[tactic(auto, using(crate::proofs::Outputs::outputs))]
pub fn runs_add_to_output()
    ensures { (n : ℕ) (f : FlagsOf) (pass : Bool) (s : State) (m : HostModel)
        → IsFront m.output (run n f pass s m).host.output }
{}

/// A run without flags of either machine goes turn by turn. It meets something wild where the next turn is wild, and ends
/// where the program halts, where the machine stops, or after its last step.
#[tactic(auto, using(crate::proofs::FreeTurns::by_turns))]
pub fn runs_go_turn_by_turn()
    ensures spent { (kind : MachineKind) (s : State) (m : HostModel)
        → run_by kind 0 no_flags false s m ≡ run_ended (ended Spent s m) }
    ensures wild { (k : MachineKind) (n : ℕ) (s : State) (m : HostModel) → ends_wild k s ≡ true
        → free_run k (suc n) s m ≡ meets_wild (s, m) }
    ensures went { (kind : MachineKind) (n : ℕ) (s t : State) (m k : HostModel) (trace : Trace) → ends_wild kind s ≡ false
        → turn s m ≡ went_on t k trace → free_run kind (suc n) s m ≡ free_run kind n t k }
    ensures halted { (kind : MachineKind) (n status : ℕ) (s t : State) (m k : HostModel) → ends_wild kind s ≡ false
        → turn s m ≡ halts status t k
        → free_run kind (suc n) s m ≡ run_ended (ended (Halted status) t k) }
    ensures stopped { (kind : MachineKind) (n reason : ℕ) (s t : State) (m k : HostModel) → ends_wild kind s ≡ false
        → turn s m ≡ stops reason t k
        → free_run kind (suc n) s m ≡ run_ended (ended (Stopped s.pc reason) t k) }
{}

/// A run of i + j steps is that of i steps and, where all of these are made, that of j steps from where it led: of either
/// machine, with flags too. To pass a break before the first step is asked again only where no step was made. A run that
/// has ended otherwise, or met something wild, comes to the same however many more steps it may make.
#[tactic(auto, using(crate::proofs::Following::following))]
pub fn runs_follow_each_other()
    ensures on { (kind : MachineKind) (i j : ℕ) (f : FlagsOf) (pass : Bool) (s t : State) (m k : HostModel)
        → run_by kind i f pass s m ≡ run_ended (ended Spent t k)
        → run_by kind (i + j) f pass s m ≡ run_by kind j f (pass && i == 0) t k }
    ensures over { (kind : MachineKind) (i j : ℕ) (f : FlagsOf) (pass : Bool) (s : State) (m : HostModel) (e : Ended)
        → e.end ≢ Spent → run_by kind i f pass s m ≡ run_ended e → run_by kind (i + j) f pass s m ≡ run_ended e }
    ensures wild { (kind : MachineKind) (i j : ℕ) (f : FlagsOf) (pass : Bool) (s : State) (m : HostModel) (w : RunWorld)
        → run_by kind i f pass s m ≡ meets_wild w → run_by kind (i + j) f pass s m ≡ meets_wild w }
{}

/// A run is what its plan comes to. Where a plan over turns stops because memory runs out, it only added to
/// standard output, and what is there is a front of what would be there at its end; the slots of
/// the tool lead where they led.
#[tactic(auto, using(crate::proofs::HeldRuns::laws, crate::proofs::PlanEnds::ends))]
pub fn runs_are_their_plans()
    ensures ending { (n : ℕ) (f : FlagsOf) (p : Bool) (s : State) (m : HostModel)
        → plan_end n f p s m ≡ ended_world (run n f p s m) }
    ensures stopping { (p : RunPlan End) (v w : RunWorld) → Stops running v p w → KeepsStreams w.1 v.1 }
    ensures front { (p : RunPlan End) (v w : RunWorld) → Stops running v p w
        → OnlyAdds v.1 (end_of running p w).1.1 }
{}

/// A run of at most n steps adds at most n to the count of steps.
#[tactic(auto, using(crate::proofs::StepCounts::counts))]
pub fn runs_make_at_most()
    ensures { (n : ℕ) (f : FlagsOf) (pass : Bool) (s : State) (m : HostModel) → IsLater n s (run n f pass s m).state }
{}
