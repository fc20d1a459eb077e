//! What holds of each ring and of each machine, for proofs.

ghost use Rattle.std.specs.Prelude.{◌≡◌, ◌<◌, ◌^◌, ℕ, length, slice_index};
ghost use Rattle.mx_ring.specs.Bounds.{IsRing};
ghost use Rattle.mx_core.specs.Bounds.{IsMachine};
ghost use Rattle.mx_core.specs.Kept.{state_of};
ghost use Rattle.mx_core.specs.MachineSpace.{machine_contents, state_in, IsWholeSpace};
ghost use Rattle.mx_core.specs.Machines.{IsOverWindow};
ghost use Rattle.mx_core.specs.State.{State};

use crate::Machine;
use mx_ring::Ring;

/// States the bounds that each ring keeps. It does nothing: it reads no number of the ring, since what is read here is
/// read again at each step.
#[inline(always)]
pub(crate) fn know_bounds(ring: &Ring)
    ensures { IsRing ring.now }
{
    ring.know_stack_area();
}

/// Each machine keeps the bounds of its register stack, at most 65,536 pages, and a next address that
/// is a multiple of 4; and as long as nothing was touched, its saved frames are spilled.
#[tactic(auto, using(crate::proofs::Kept::Marks::machine_kept))]
#[inline(always)]
pub fn machines_keep_the_invariant(machine: &Machine)
    ensures { IsMachine (state_of machine.now) machine.now.ring }
{
    know_bounds(&machine.ring);
    know_count(&machine.special);
    let _ = machine.memory.pages();
}

/// States how many special registers there are. It does nothing.
#[inline(always)]
fn know_count(special: &[u64; 32])
    ensures { length special.now ≡ 32 }
{
    let _ = special;
}

/// Each machine is one over a window that holds octas: so what is said of such machines holds of it.
pub fn machines_hold_octas(machine: &Machine)
    ensures { IsOverWindow (state_of machine.now) }
{
    machines_keep_the_invariant(machine);
    machine.ring.know_octas();
    machine.memory.pages();
    know_octas(&machine.special);
    know_octa(machine.steps);
}

/// States that the count of steps is below 2^64. It does nothing.
#[tactic(auto, unfolding(crate::specs::Kept::state_of))]
#[inline(always)]
pub(crate) fn know_steps(machine: &Machine)
    ensures { (state_of machine.now).steps < 2 ^ 64 }
{
    know_octa(machine.steps);
}

/// States that each item of a slice of octas is below 2^64. It does nothing.
fn know_octas(octas: &[u64])
    ensures { (i : ℕ) → slice_index octas.now i < 2 ^ 64 }
{
    let _octas = octas;
}

/// States that an octa is below 2^64. It does nothing.
fn know_octa(octa: u64)
    ensures { octa < 2 ^ 64 }
{}

/// The contents of a machine as a space of bytes tell its whole state: memory by its bytes, the 2^20
/// octas of the stack area, and all else in the rest.
#[tactic(auto, using(crate::proofs::Spaces::States::told))]
pub fn contents_tell_the_state()
    ensures { (s : State) → IsWholeSpace s → state_in (machine_contents s) (2 ^ 20) ≡ s }
{}

/// Each machine's memory is one octa below 2^64 for each eight addresses, so that its contents tell
/// its state.
#[tactic(auto, using(crate::proofs::Spaces::Whole::wholes))]
#[inline(always)]
pub fn machines_are_whole(machine: &Machine)
    ensures { IsWholeSpace (state_of machine.now) }
{
    machine.ring.know_stack_area();
    machine.memory.pages();
}
