//! What holds of the work on files over its definitions alone.

ghost use Rattle.std.specs.Prelude.{◌≡◌, ◌*◌, ℕ, List};
ghost use Rattle.mx_host.specs.HostModel.{HasStartSlots, HostModel};
ghost use Rattle.mx_plan.specs.Calls.{HostPlan, host};
ghost use Rattle.mx_plan.specs.Held.{KeepsStreams, Makes, OnlyAdds};
ghost use Rattle.mx_plan.specs.Plan.{Stops, end_of};
ghost use Rattle.mx_plan.specs.Taking.{TakesAtMost};
ghost use Rattle.mx_files.specs.Clauses.{HasToolSlots, Serves, part_of};
ghost use Rattle.mx_files.specs.FilePlans.{file_plan, input_slot, lines_plan, text_plan};
ghost use Rattle.mx_files.specs.Writing.{lines_put};
ghost use Rattle.mx_files.specs.ObjectPlans.{assemble_part, list_part};
ghost use Rattle.mx_files.specs.Writing.{put_text};
ghost use Rattle.mx_outcome.specs.declared.outcome.Outcome.{Outcome};

/// A text and lines are written, or they are not, and then that is a fault of the host: their plans come to nothing else.
#[tactic(auto, using(crate::proofs::FileEnds::ends))]
pub fn files_are_their_plans()
    ensures text { (slot : ℕ) (text : List ℕ) (m : HostModel) →
        end_of host (text_plan slot text) m ≡ part_of (put_text slot text m) }
    ensures lines { (lines : List (List ℕ)) (m : HostModel) →
        end_of host (lines_plan lines) m ≡ part_of (lines_put lines m) }
{}

/// Where a plan stops because memory runs out, it only added to standard output, and what is there is a front of what
/// would be there at its end; the slots of the tool lead where they led.
#[tactic(auto, using(crate::proofs::Rests::stopping))]
pub fn files_stop_in_front()
    ensures stopping { (p : HostPlan Outcome) (v w : HostModel) → Stops host v p w → KeepsStreams w v }
    ensures front { (p : HostPlan Outcome) (v w : HostModel) → Stops host v p w → OnlyAdds v (end_of host p w).1 }
{}

/// Where the slots of the tool's files are there, and that of its standard output leads to it, as at the start, each call
/// on a slot that is made for a file that is read, assembled or listed is on a slot that serves it.
#[tactic(auto, using(crate::proofs::Serving::serving))]
pub fn files_are_served()
    ensures start { (m : HostModel) → HasStartSlots m → HasToolSlots m }
    ensures read { (most : ℕ) (name : List ℕ) (m : HostModel) → HasToolSlots m →
        Makes host Serves (file_plan most name) m }
    ensures assembled { (source object : List ℕ) (m : HostModel) → HasToolSlots m →
        Makes host Serves (assemble_part source object) m }
    ensures listed { (name : List ℕ) (m : HostModel) → HasToolSlots m → Makes host Serves (list_part name) m }
{}

/// A file that is read in this many pieces takes at most 4,096 bytes for each, whatever the host answers to its calls: a source
/// at most 2^22 + 4,096, an object at most 2^26 + 4,096.
pub fn files_take_at_most()
    ensures { (most : ℕ) (name : List ℕ) → TakesAtMost input_slot (4096 * most) (file_plan most name) }
{}
