//! What holds of the start over its definitions alone: what is in memory, that it is a machine, and that it is the
//! start of the list.

ghost use Rattle.std.specs.Prelude.{◌≡◌, ◌≤◌, ◌+◌, ◌*◌, ℕ, List, length, Some};
ghost use Rattle.std.specs.List.{AllByRecursion};
ghost use Rattle.std.specs.Option.{option_map};
ghost use Rattle.mx_mmo.specs.Image.{Image};
ghost use Rattle.mx_ring.specs.RegisterList.{list_at_start};
ghost use Rattle.mx_ring.specs.Stack.{Stack, listed, stack_address, windowed};
ghost use Rattle.mx_ring.specs.Window.{window_at_start};
ghost use Rattle.mx_word.specs.Ranges.{AreBytes};
ghost use Rattle.mx_core.specs.Bare.{bare, with_shared};
ghost use Rattle.mx_core.specs.Bounds.{as_list_state};
ghost use Rattle.mx_core.specs.Machines.{IsOverWindow};
ghost use Rattle.mx_start.specs.Images.{IsImage, globals_of, shared_at_start};
ghost use Rattle.mx_start.specs.MemoryAtStart.{octa_among};
ghost use Rattle.mx_start.specs.Start.{loaded, pool, pool_octas, start};
ghost use Rattle.mx_core.specs.State.{State};

/// At the start the octas of the arguments are in the pool segment, from its first address on, and
/// all else in memory is the image's; the arguments end below the stack segment.
#[tactic(auto, using(crate::proofs::MemoryAtStart::starting))]
pub fn arguments_are_in_the_pool()
    ensures { (image : Image) (arguments : List (List ℕ)) (stack : Stack) (s : State) (q : ℕ) →
        start image arguments stack ≡ Some s → pool + 8 * length (pool_octas arguments) ≤ stack_address 0 →
        s.octas q ≡ octa_among image.memory pool (pool_octas arguments) q }
{}

/// A start is a machine over a window that holds octas, where an object can set up the image, the arguments
/// are bytes that fit the pool segment, and the ring has a size that it may have.
#[tactic(auto, using(crate::proofs::StartedMachines::starting))]
pub fn starts_are_machines()
    ensures { (image : Image) (arguments : List (List ℕ)) (size : ℕ) (s : State) → IsImage image → 256 ≤ size →
        AllByRecursion AreBytes arguments → pool + 8 * length (pool_octas arguments) ≤ stack_address 0 →
        start image arguments (windowed (window_at_start size)) ≡ Some s → IsOverWindow s }
{}

/// A program starts over the list that the window at the start represents; its arguments end below the
/// stack area.
pub fn starts_go_as_lists()
    ensures { (image : Image) (arguments : List (List ℕ)) (size : ℕ)
        → pool + 8 * length (pool_octas arguments) ≤ stack_address 0
        → start image arguments (listed list_at_start)
        ≡ option_map as_list_state (start image arguments (windowed (window_at_start size))) }
{}

/// A machine that starts with arguments, before these are in the pool, is the one with no memory that has their number in
/// $0 and the address of their pointers in $1, with the memory of the image.
#[tactic(auto, using(crate::proofs::LoadedMachines::starting))]
pub fn bare_machines_start_as_others()
    ensures loaded { (image : Image) (count : ℕ) (stack : Stack) → image.g ≤ 255 → loaded image count stack
        ≡ with_shared (shared_at_start image) (bare image.g (globals_of image) count (pool + 8) stack) }
{}
