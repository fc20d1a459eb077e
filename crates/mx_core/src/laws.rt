//! What holds of the machine over its definitions alone. A machine over a window and the one over the
//! list that its register stack represents go the same way: what a program sees does not depend on
//! what was spilled, as long as nothing looks at rS or at the memory of the register stack.

ghost use Rattle.std.specs.Prelude.{◌≡◌, ◌<◌, ◌≤◌, ◌^◌, ◌||◌, ◌==◌, ℕ, false, Ok};
ghost use Rattle.mx_core.specs.Bounds.{IsMachine, as_list_state, as_list_step};
ghost use Rattle.mx_core.specs.Deeds.{applied, with_destination};
ghost use Rattle.mx_core.specs.Effects.{Effect, moves_frames, specials_saved};
ghost use Rattle.mx_code.specs.declared.instruction.Instruction.{Instruction};
ghost use Rattle.mx_core.specs.Laws.{GoesAsList, GoesOrFailsAsList, HasFrameAddress, HaveSameList, StepAlike};
ghost use Rattle.mx_core.specs.Machines.{IsOverWindow};
ghost use Rattle.mx_core.specs.UserChanges.{register_changed, special_changed, octa_changed, at_address};
ghost use Rattle.mx_core.specs.State.{State, global_start, special_register, octa};
ghost use Rattle.mx_core.specs.Step.{went, calls, step};
ghost use Rattle.mx_core.specs.Traps.{trapped, halted, with_touch};
ghost use Rattle.mx_core.specs.Wild.{IsQuiet, is_wild};
ghost use Rattle.mx_code.specs.declared.operation.Operation.{Operation};
ghost use Rattle.mx_code.specs.declared.trace.Trace.{Trace};
ghost use Rattle.mx_ring.specs.Laws.{SaveIsUndone};
ghost use Rattle.mx_ring.specs.Stack.{visible, register, hidden_count, in_stack_area, save_overfills};
ghost use Rattle.mx_ring.specs.Window.{Window};
ghost use Rattle.mx_code.specs.SpecialRegisters.{rS};
ghost use Rattle.mx_alu.specs.declared.call.TrapCall.{TrapCall};

/// Both read the same: registers, G and L, special registers other than rS, and memory outside the
/// stack area.
pub fn lists_read_the_same()
    ensures visible { (s : State) → visible (as_list_state s).stack ≡ visible s.stack }
    ensures register { (s : State) (k : ℕ) → register (as_list_state s).stack k ≡ register s.stack k }
    ensures special { (s : State) (code : ℕ) → (code == rS) ≡ false
        → special_register (as_list_state s) code ≡ special_register s code }
    ensures octa { (s : State) (a : ℕ) → in_stack_area a ≡ false → octa (as_list_state s) a ≡ octa s a }
    ensures hidden { (s : State) → hidden_count (as_list_state s).stack ≡ hidden_count s.stack }
{}

/// A step that is not wild, where nothing was touched, has the same answer and the same trace, and
/// leaves the list that the next state represents. It is wild for the one where it is for the other. So
/// it reads no octa of the stack area that no list has: those from rS on.
pub fn steps_go_as_lists()
    ensures step { (s : State) (w : Window) → IsMachine s w → IsQuiet s
        → step (as_list_state s) ≡ as_list_step (step s) }
    ensures wild { (s : State) (w : Window) → IsMachine s w → is_wild (as_list_state s) ≡ is_wild s }
    ensures unread { (s t : State) (w x : Window) → IsMachine s w → IsMachine t x → IsQuiet s → IsQuiet t
        → HaveSameList s t → StepAlike s t }
{}

/// A step, wild or not, leaves a machine over a window, or gives a call with a tetra. Saved frames are
/// spilled until something is touched, and that is so exactly after a wild step.
pub fn steps_keep_machines()
    ensures machine { (s t : State) (trace : Trace) → IsOverWindow s → step s ≡ went t trace → IsOverWindow t }
    ensures call { (s : State) (call : TrapCall) → IsOverWindow s → step s ≡ calls call → call.word < 2 ^ 32 }
    ensures touched { (s t : State) (trace : Trace) → step s ≡ went t trace → t.touched ≡ (s.touched || is_wild s) }
{}

/// The mark, below which the saved frames lie, is moved by POP, SAVE and UNSAVE alone: PUSH, values that registers,
/// memory and special registers get, and trips leave it.
pub fn marks_move_with_frames()
    ensures left { (s : State) (i : Instruction) (k : ℕ) (e : Effect) → moves_frames e.move ≡ false
        → (applied s i k e).mark ≡ s.mark }
    ensures destination { (operation : Operation) (s : State) (i : Instruction)
        → (with_destination operation s i).mark ≡ s.mark }
{}

/// What SAVE X,0 keeps of a machine comes back: $X has the address of the frame's last octa, UNSAVE
/// there is not refused, and it gives back the special registers and the stack that was saved, as a
/// list.
pub fn frames_come_back()
    ensures address { (s : State) (x : ℕ) → IsOverWindow s → global_start s ≤ x → x < 256
        → HasFrameAddress s x }
    ensures frame { (s : State) (x : ℕ) → IsOverWindow s → save_overfills s.stack ≡ false
        → SaveIsUndone s.stack x (specials_saved s) }
{}

/// What a user changes outside the stack area does the same to both.
pub fn changes_go_as_lists()
    ensures register { (s : State) (w : Window) (k value : ℕ) → IsMachine s w
        → GoesOrFailsAsList (λ t. register_changed t k value) s }
    ensures special { (s : State) (w : Window) (code value : ℕ) → IsMachine s w
        → GoesOrFailsAsList (λ t. special_changed t code value) s }
    ensures octa { (s : State) (a x : ℕ) → in_stack_area a ≡ false
        → GoesOrFailsAsList (λ t. octa_changed t a x) s }
    ensures address { (s : State) (a : ℕ) → at_address (as_list_state s) a ≡ as_list_state (at_address s a) }
{}

/// What a user changes leaves a machine.
pub fn changes_keep_machines()
    ensures register { (s t : State) (k value : ℕ) → IsOverWindow s → value < 2 ^ 64
        → register_changed s k value ≡ Ok t → IsOverWindow t }
    ensures special { (s t : State) (code value : ℕ) → IsOverWindow s → value < 2 ^ 64
        → special_changed s code value ≡ Ok t → IsOverWindow t }
    ensures octa { (s t : State) (a x : ℕ) → IsOverWindow s → x < 2 ^ 64
        → octa_changed s a x ≡ Ok t → IsOverWindow t }
    ensures address { (s : State) (a : ℕ) → IsOverWindow s → IsOverWindow (at_address s a) }
{}

/// What a file trap changes does the same to both.
pub fn traps_go_as_lists()
    ensures trapped { (s : State) (w : Window) (call : TrapCall) (value : ℕ) → IsMachine s w
        → GoesAsList (λ t. trapped t call value) s }
    ensures halted { (s : State) → halted (as_list_state s) ≡ as_list_state (halted s) }
    ensures touch { (s : State) → with_touch (as_list_state s) ≡ as_list_state (with_touch s) }
{}

/// What a file trap changes leaves a machine.
pub fn traps_keep_machines()
    ensures trapped { (s : State) (c : TrapCall) (x : ℕ) → IsOverWindow s → c.word < 2 ^ 32 → x < 2 ^ 64
        → IsOverWindow (trapped s c x) }
    ensures halted { (s : State) → IsOverWindow s → IsOverWindow (halted s) }
    ensures touch { (s : State) → IsOverWindow s → IsOverWindow (with_touch s) }
{}
