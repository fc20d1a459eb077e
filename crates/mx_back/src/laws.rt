//! What steps taken back come to.

ghost use Rattle.std.specs.Prelude.{◌≡◌, ◌-◌, ◌≤◌, ℕ, suc, List, Some, length, slice_get};
ghost use Rattle.mx_back.specs.History.{Backed, states_before};
ghost use Rattle.mx_core.specs.State.{State};
ghost use Rattle.mx_core.specs.Undoing.{StateWas};

/// After j calls of `back` the machine's state is the j-th of those that were kept, the newest first, and as many less
/// are kept. As many are kept as there are notes.
pub fn states_come_back()
    ensures state { (j : ℕ) (kept left : List State) (s t : State) → Backed kept s (suc j) left t
        → slice_get kept j ≡ Some t }
    ensures count { (j : ℕ) (kept left : List State) (s t : State) → Backed kept s j left t
        → length left ≡ length kept - j }
    ensures most { (j : ℕ) (kept left : List State) (s t : State) → Backed kept s j left t → j ≤ length kept }
    ensures notes { (notes : List StateWas) (s : State) → length (states_before notes s) ≡ length notes }
{}
