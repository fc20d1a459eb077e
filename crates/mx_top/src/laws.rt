//! What holds of the program over its definitions alone.

ghost use Rattle.mx_plan.specs.Held.{KeepsStreams, OnlyAdds};
ghost use Rattle.mx_plan.specs.Plan.{Stops, end_of};
ghost use Rattle.mx_outcome.specs.declared.outcome.Outcome.{Outcome};
ghost use Rattle.mx_top.specs.Product.{ProgramPlan, ProgramWorld, program};

/// Where a plan of the program stops because memory runs out, it only added to standard output, and what is there is a
/// front of what would be there at its end; the slots of the tool lead where they led.
#[tactic(auto, using(crate::proofs::ProgramHeld::stopping))]
pub fn plans_stop_on_their_way()
    ensures stopping { (p : ProgramPlan Outcome) (v w : ProgramWorld) → Stops program v p w → KeepsStreams w.0 v.0 }
    ensures front { (p : ProgramPlan Outcome) (v w : ProgramWorld) → Stops program v p w →
        OnlyAdds v.0 (end_of program p w).1.0 }
{}
