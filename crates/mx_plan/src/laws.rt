//! What holds of every plan.

ghost use Rattle.std.specs.Prelude.{◌≡◌};
ghost use Rattle.mx_host.specs.HostModel.{HostModel};
ghost use Rattle.mx_plan.specs.Calls.{Both, BothPlan, both};
ghost use Rattle.mx_plan.specs.Counts.{NoneFailed, end_unscheduled, unscheduled};
ghost use Rattle.mx_plan.specs.Held.{KeepsStreams, Makes, NeverLacks, OnlyAdds};
ghost use Rattle.mx_plan.specs.Plan.{Stops, end_of};

use mx_mem::Space;

/// To its end, and to each world that it may stop with, a plan only adds to standard output, and leaves the slots of
/// the tool where they lead to their streams. What is there where memory runs out is a front of what would
/// be there at its end.
#[tactic(auto, using(crate::proofs::Streams::streaming))]
pub fn plans_keep_streams<M: Space, N: Space>()
    ensures ending { (p : BothPlan N.Rest) (w : Both M.Rest) → KeepsStreams w.1 (end_of both p w).1.1 }
    ensures stopping { (p : BothPlan N.Rest) (v w : Both M.Rest) → Stops both v p w → KeepsStreams w.1 v.1 }
    ensures front { (p : BothPlan N.Rest) (v w : Both M.Rest) → Stops both v p w → OnlyAdds v.1 (end_of both p w).1.1 }
{}

/// Where no call that a plan makes fails, it answers and leaves the same whatever number of calls was made before, and
/// whatever other calls are listed as failing; only that number and that list differ.
#[tactic(auto, using(crate::proofs::Spared::counting))]
pub fn plans_go_by_no_count<M: Space, N: Space>()
    ensures { (p : BothPlan N.Rest) (w : Both M.Rest) (n : HostModel) → unscheduled w.1 ≡ unscheduled n →
        NoneFailed w.1 (end_of both p w).1.1 → NoneFailed n (end_of both p (w.0, n)).1.1 →
        end_unscheduled (end_of both p w) ≡ end_unscheduled (end_of both p (w.0, n)) }
{}

/// Where none of the calls that a plan makes lacks memory, it stops nowhere.
#[tactic(auto, using(crate::proofs::HeldLaws::lacking))]
pub fn plans_stop_in_calls_alone<M: Space, N: Space>()
    ensures { (p : BothPlan N.Rest) (v w : Both M.Rest) → Makes both (NeverLacks both) p w → ¬ Stops both v p w }
{}
