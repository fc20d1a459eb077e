//! What records say of a run.

ghost use Rattle.std.specs.Prelude.{◌≡◌, ◌≤◌, ◌+◌, ℕ, List, length, take};
ghost use Rattle.mx_replay.specs.declared.program.Program.{Program};
ghost use Rattle.mx_record.specs.Counts.{records_at, turns_at};
ghost use Rattle.mx_record.specs.Pictures.{Picture, picture_at};
ghost use Rattle.mx_record.specs.Records.{AreRecords, Leads, all_applied, applied};
ghost use Rattle.mx_record.specs.declared.changes.Record.{Record};

/// A record leads back from where it leads to.
#[tactic(auto, using(crate::proofs::Inverse::inverse))]
pub fn records_are_their_own_inverse()
    ensures twice { (r : Record) (p : Picture) → applied r (applied r p) ≡ p }
    ensures back { (r : Record) (p q : Picture) → Leads r p q → Leads r q p }
{}

/// The records of the turns after step k lead from its picture to those of the steps that follow, one after another.
#[tactic(auto, using(crate::proofs::States::states))]
pub fn states_follow_from_records()
    ensures { (p : Program) (k i : ℕ) (records : List Record) → AreRecords p k records → i ≤ length records
        → all_applied (take i records) (picture_at p k) ≡ picture_at p (k + i) }
{}

/// This many records of the turns after step k are made at an address as turns of the run are.
#[tactic(auto, using(crate::proofs::States::states))]
pub fn records_are_counted()
    ensures { (p : Program) (k a : ℕ) (records : List Record) → AreRecords p k records
        → records_at a records (picture_at p k) ≡ turns_at p a k (length records) }
{}
