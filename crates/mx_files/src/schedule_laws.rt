//! What holds of schedules over their definitions alone.

ghost use Rattle.std.specs.Prelude.{◌≡◌, ◌↔◌, ℕ, Err, List, Ok};
ghost use Rattle.mx_files.specs.Schedules.{IsFaultless, IsLeastFault, schedule_in};
ghost use Rattle.mx_outcome.specs.declared.outcome.Outcome.TheVariants.{BadSchedule};

/// A schedule is refused exactly where it is at fault, at the least place of a fault.
#[tactic(auto, using(crate::proofs::LeastFaults::judging))]
pub fn schedules_are_judged()
    ensures refused { (bytes : List ℕ) (place : ℕ) →
        (schedule_in bytes ≡ Err (BadSchedule place)) ↔ IsLeastFault bytes place }
    ensures taken { (bytes : List ℕ) → (schedule_in bytes ≡ Ok bytes) ↔ IsFaultless bytes }
{}
