//! What holds of dumps over their definitions alone.

ghost use Rattle.std.specs.Prelude.{◌≡◌, ◌≤◌, ◌<◌, ◌*◌, ◌+◌, ℕ, false};
ghost use Rattle.mx_core.specs.Bounds.{as_list_state};
ghost use Rattle.mx_core.specs.State.{State, octa};
ghost use Rattle.mx_dump.specs.Dump.{dump_lines, octa_lines};

/// Where nothing was touched, a machine over a window and the one over the list that it represents have
/// the same dump. Octas that are 0 have no line.
#[tactic(auto, using(crate::proofs::DumpLaws::dumping))]
pub fn dumps_show_what_programs_see()
    ensures list { (s : State) → s.touched ≡ false → dump_lines (as_list_state s) ≡ dump_lines s }
    ensures zeros { (s : State) (n k : ℕ) → ((i : ℕ) → n ≤ i → i < n + k → octa s (8 * i) ≡ 0)
        → octa_lines s (n + k) ≡ octa_lines s n }
{}
