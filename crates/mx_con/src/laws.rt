//! What holds of sessions over their definitions alone.

ghost use Rattle.std.specs.Prelude.{◌≡◌, ℕ, true};
ghost use Rattle.mx_host.specs.HostModel.{HostModel};
ghost use Rattle.mx_plan.specs.Held.{KeepsStreams, OnlyAdds};
ghost use Rattle.mx_plan.specs.Plan.{Stops, end_of};
ghost use Rattle.mx_core.specs.State.{State};
ghost use Rattle.mx_run.specs.Runs.{FlagsOf};
ghost use Rattle.mx_run.specs.WildRuns.{MachineKind, window_machine};
ghost use Rattle.mx_con.specs.Session.{session, session_ended};
ghost use Rattle.mx_con.specs.SessionPlans.{SessionPlan, SessionWorld, conversing, most_input, session_plan};
ghost use Rattle.mx_con.specs.declared.end.SessionEnd.{SessionEnd};
ghost use Rattle.mx_con.specs.Taking.{TakesAtMost};
ghost use Rattle.mx_con.specs.Told.{is_told};

/// A session ends as the program, the machine, its bounds, the user or the host make it end, or meets
/// something wild; by its definition it is never out of memory. So that answer, which is free, means
/// nothing else.
#[tactic(auto, using(crate::proofs::ToldSessions::telling))]
pub fn sessions_end_by_themselves()
    ensures { (kind : MachineKind) (steps : ℕ) (s : State) (f : FlagsOf) (m : HostModel) →
        is_told (session kind steps s f m) ≡ true }
{}

/// A session is what its plan comes to. Where a plan over such calls stops because memory runs out, it only
/// added to standard output, and what is there is a front of what would be there at its end; the
/// slots of the tool lead where they led.
#[tactic(auto, using(crate::proofs::HeldSessions::laws, crate::proofs::SessionCourses::courses))]
pub fn sessions_are_their_plans()
    ensures ending { (steps : ℕ) (s : State) (f : FlagsOf) (m : HostModel)
        → session_ended (end_of conversing (session_plan steps) ((s, m), f)) ≡ session window_machine steps s f m }
    ensures stopping { (p : SessionPlan SessionEnd) (v w : SessionWorld) → Stops conversing v p w
        → KeepsStreams w.0.1 v.0.1 }
    ensures front { (p : SessionPlan SessionEnd) (v w : SessionWorld) → Stops conversing v p w
        → OnlyAdds v.0.1 (end_of conversing p w).1.0.1 }
{}

/// A session takes at most 2^32 bytes of the console's input, whatever the host answers to its calls.
pub fn sessions_take_at_most()
    ensures { (steps : ℕ) → TakesAtMost most_input (session_plan steps) }
{}
