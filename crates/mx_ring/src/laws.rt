//! What holds of the register stack over its definitions alone. A window and the list that it
//! represents go the same way: what a program sees does not depend on what was spilled.

ghost use Rattle.std.specs.Prelude.{◌≡◌, ◌≤◌, ◌<◌, ◌^◌, ℕ, true, false, length, take};
ghost use Rattle.mx_registers.specs.Bounds.{AreInBounds};
ghost use Rattle.mx_ring.specs.Bounds.{IsRing};
ghost use Rattle.mx_ring.specs.Laws.{BecomesRing, CanSave, CutsSpilled, EndsFrame, FitsLocals, GoesAsList, HasOcta};
ghost use Rattle.mx_ring.specs.Laws.{HidesUpTo, HidesWithCount, HidesWithZeros, IsAllSpilled, IsOutsideOrSpilled};
ghost use Rattle.mx_ring.specs.Laws.{IsGlobal, IsSpilled, SaveIsUndone};
ghost use Rattle.mx_ring.specs.RegisterList.{RegisterList};
ghost use Rattle.mx_registers.specs.Registers.{is_marginal};
ghost use Rattle.mx_ring.specs.Stack.{listed, windowed, list_of, visible, hidden_octas, local_count};
ghost use Rattle.mx_ring.specs.Stack.{spilled_count, register, set_overfills, with_register, cut_to, with_global_start};
ghost use Rattle.mx_ring.specs.Stack.{push_overfills, pushed, pop_underflows, popped, with_stack_octa};
ghost use Rattle.mx_ring.specs.Stack.{save_overfills, saved, unsave_refused, unsaved_specials, unsaved};
ghost use Rattle.mx_ring.specs.Window.{Window, as_list};
ghost use Rattle.mx_ring.specs.declared.saved.Saved.{Saved};

/// A ring and the list that it represents show the same registers, and hide the same octas.
pub fn lists_show_the_same()
    ensures visible { (w : Window) → visible (list_of w) ≡ visible (windowed w) }
    ensures hidden { (w : Window) → hidden_octas (list_of w) ≡ hidden_octas (windowed w) }
{}

/// A register has the same value, and writes to registers, L and G do the same, for a ring and for
/// the list that it represents.
pub fn writes_go_as_lists()
    ensures get { (w : Window) (k : ℕ) → register (list_of w) k ≡ register (windowed w) k }
    ensures set { (w : Window) (k x : ℕ) → IsRing w → GoesAsList w (λ s. with_register s k x) }
    ensures cut { (w : Window) (l : ℕ) → GoesAsList w (λ s. cut_to s l) }
    ensures globals { (w : Window) (g : ℕ) → GoesAsList w (λ s. with_global_start s g) }
{}

/// PUSH where it is not refused, and POP, do the same for a ring and for the list that it represents.
pub fn calls_go_as_lists()
    ensures push { (w : Window) (x : ℕ) → IsRing w → push_overfills (windowed w) x ≡ false
        → GoesAsList w (λ s. pushed s x) }
    ensures pop { (w : Window) (x : ℕ) → IsRing w → GoesAsList w (λ s. popped s x) }
{}

/// SAVE where it is not refused, and UNSAVE below the number of spilled octas, do the same for a ring and for the
/// list that it represents.
pub fn frames_go_as_lists()
    ensures save { (w : Window) (x : ℕ) (specials : Saved) → IsRing w → CanSave (windowed w)
        → GoesAsList w (λ s. saved s x specials) }
    ensures unsave { (w : Window) (i : ℕ) → IsRing w → IsSpilled w i → GoesAsList w (λ s. unsaved s i) }
    ensures specials { (w : Window) (i : ℕ) → IsRing w → IsSpilled w i
        → unsaved_specials (list_of w) i ≡ unsaved_specials (windowed w) i }
{}

/// A ring refuses what the list that it represents refuses; UNSAVE within the stack area below the
/// number of spilled octas.
pub fn refusals_are_those_of_lists()
    ensures set { (w : Window) (k : ℕ) → set_overfills (list_of w) k ≡ set_overfills (windowed w) k }
    ensures push { (w : Window) (x : ℕ) → push_overfills (list_of w) x ≡ push_overfills (windowed w) x }
    ensures pop { (w : Window) → pop_underflows (list_of w) ≡ pop_underflows (windowed w) }
    ensures save { (w : Window) → save_overfills (list_of w) ≡ save_overfills (windowed w) }
    ensures unsave { (w : Window) (a : ℕ) → IsRing w → IsOutsideOrSpilled w a
        → unsave_refused (list_of w) a ≡ unsave_refused (windowed w) a }
{}

/// Writes that are not refused keep what holds of a ring.
pub fn writes_keep_rings()
    ensures set { (w : Window) (k x : ℕ) → IsRing w → set_overfills (windowed w) k ≡ false
        → BecomesRing w (λ s. with_register s k x) }
    ensures cut { (w : Window) (l : ℕ) → IsRing w → l ≤ local_count (windowed w) → BecomesRing w (λ s. cut_to s l) }
    ensures globals { (w : Window) (g : ℕ) → IsRing w → FitsLocals w g → 32 ≤ g → g ≤ 255
        → BecomesRing w (λ s. with_global_start s g) }
    ensures stack_octa { (w : Window) (i x : ℕ) → IsRing w → BecomesRing w (λ s. with_stack_octa s i x) }
{}

/// PUSH and POP, where they are not refused, keep what holds of a ring.
pub fn calls_keep_rings()
    ensures push { (w : Window) (x : ℕ) → IsRing w → push_overfills (windowed w) x ≡ false
        → BecomesRing w (λ s. pushed s x) }
    ensures pop { (w : Window) (x : ℕ) → IsRing w → pop_underflows (windowed w) ≡ false
        → BecomesRing w (λ s. popped s x) }
{}

/// SAVE and UNSAVE, where they are not refused, keep what holds of a ring; the octa that UNSAVE reads first is below
/// 2^64, as each octa of a machine is.
pub fn frames_keep_rings()
    ensures save { (w : Window) (x : ℕ) (y : Saved) → IsRing w → IsGlobal w x → CanSave (windowed w)
        → BecomesRing w (λ s. saved s x y) }
    ensures unsave { (w : Window) (i : ℕ) → IsRing w → i < 2 ^ 20 → HasOcta w i → EndsFrame w i
        → BecomesRing w (λ s. unsaved s i) }
{}

/// How many octas are spilled: a write or PUSH never lowers the number, POP cuts it to the number of
/// hidden octas, and after SAVE and UNSAVE all hidden octas are spilled.
pub fn spilled_octas_are_counted()
    ensures set { (w : Window) (k x : ℕ)
        → spilled_count (windowed w) ≤ spilled_count (with_register (windowed w) k x) }
    ensures push { (w : Window) (x : ℕ) → spilled_count (windowed w) ≤ spilled_count (pushed (windowed w) x) }
    ensures pop { (w : Window) (x : ℕ) → IsRing w → CutsSpilled w (popped (windowed w) x) }
    ensures save { (w : Window) (x : ℕ) (specials : Saved) → IsRing w → CanSave (windowed w)
        → IsAllSpilled (saved (windowed w) x specials) }
    ensures unsave { (w : Window) (i : ℕ) → IsRing w → i < 2 ^ 20 → IsAllSpilled (unsaved (windowed w) i) }
{}

/// The first octas of the stack area, up to the number of spilled ones, are the first hidden octas.
pub fn spilled_octas_are_hidden()
    ensures { (w : Window) (m : ℕ) → IsRing w → m ≤ spilled_count (windowed w)
        → take m (as_list w).hidden ≡ take m w.hidden.stack }
{}

/// What SAVE hides comes back: UNSAVE at the last octa of the frame gives the same special registers,
/// and the stack that was saved, as a list.
pub fn frames_come_back()
    ensures ring { (w : Window) (x : ℕ) (y : Saved) → IsRing w → y.a < 2 ^ 18 → CanSave (windowed w)
        → SaveIsUndone (windowed w) x y }
    ensures list { (r : RegisterList) (x : ℕ) (y : Saved) → AreInBounds r.visible → y.a < 2 ^ 18
        → CanSave (listed r) → SaveIsUndone (listed r) x y }
{}

/// PUSH by the place of $X. A local one: the locals below it and X are hidden, and those above it
/// stay. One between L and G: the locals, zeros up to X octas, and X are hidden. A global one: the
/// locals and their number are hidden.
pub fn pushes_go_by_place()
    ensures local { (r : RegisterList) (x : ℕ) → AreInBounds r.visible → x < length r.visible.locals
        → HidesUpTo r x }
    ensures marginal { (r : RegisterList) (x : ℕ) → is_marginal r.visible x ≡ true
        → HidesWithZeros r x }
    ensures global { (r : RegisterList) (x : ℕ) → r.visible.first_global ≤ x → HidesWithCount r x }
{}
