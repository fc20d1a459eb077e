//! A machine that has no memory of its own, at the start of a program; and the exchange of memory.

ghost use Rattle.std.specs.Prelude.{◌≡◌, ◌≤◌, ◌+◌, [], ◌∷◌, ℕ, IfOk, List, false, length, slice_index};
ghost use Rattle.mx_ring.specs.Stack.{set_overfills, windowed, with_register};
ghost use Rattle.mx_ring.specs.Window.{window_at_start};
ghost use Rattle.mx_code.specs.SpecialRegisters.{rA};
ghost use Rattle.mx_core.specs.Bare as spec;
ghost use Rattle.mx_core.specs.Bare.{bare_registers, shared_in, shared_of, window_with, with_shared};
ghost use Rattle.mx_core.specs.Laws.{StartsAsList};
ghost use Rattle.mx_core.specs.Kept.{state_of};

use crate::Machine;
use crate::bounds::know_bounds;
use mx_mem::Memory;
use mx_ring::{Ring, RingSize};
use mx_word::{NoMemory, Sequence};
use std::alloc::Global;

impl Machine {
    /// The machine at the start of a program that is in no memory yet: $0 and $1 have these values, $g to $255 those
    /// of the globals, and it begins at the address that $255 has. Its memory is empty.
    ///
    /// Errors: out of memory, for the ring and the stack area.
    #[tactic(auto, unfolding(crate::specs::Kept::state_of))]
    pub fn bare(
        alloc: Global,
        g: u8,
        globals: &Sequence<u64>,
        first: u64,
        second: u64,
        r: RingSize,
    ) -> Result<Machine, NoMemory>
        requires bounds { 32 ≤ g }
        requires count { length globals.now + g ≡ 256 }
        ensures { IfOk result (λ m.
            state_of m ≡ spec.bare g globals.now first second (windowed (window_at_start r))) }
    {
        let globals = globals.as_slice();
        match bare_ring(alloc, g, globals, first, second, r) {
            Ok(ring) => Ok(Machine {
                alloc,
                pc: globals[255 - usize::from(g)] / 4 * 4,
                ring,
                memory: Memory::new(alloc),
                special: special_at_start(),
                mark: 0,
                touched: false,
                steps: 0,
            }),
            Err(_) => Err(NoMemory),
        }
    }

    /// Exchanges the machine's memory, which is all but the stack area, with another. Nothing else changes. It takes no
    /// memory, and the same time for any memory.
    #[tactic(auto, unfolding(crate::specs::Kept::state_of))]
    pub fn swap_memory(&mut self, memory: &mut Memory)
        ensures state { state_of self.new ≡ with_shared (shared_in memory.old) (state_of self.old) }
        ensures memory { shared_in memory.new ≡ shared_of (state_of self.old) }
    {
        self.memory.exchange(memory);
    }

    /// Exchanges the machine's memory with that of another machine. Nothing else changes in either of them. It takes no
    /// memory, and the same time for any memory.
    #[tactic(auto, unfolding(crate::specs::Kept::state_of))]
    pub fn exchange_memory(&mut self, other: &mut Machine)
        ensures here { state_of self.new ≡ with_shared (shared_of (state_of other.old)) (state_of self.old) }
        ensures there { state_of other.new ≡ with_shared (shared_of (state_of self.old)) (state_of other.old) }
    {
        self.memory.exchange(&mut other.memory);
    }
}

/// The register stack at the start, with these registers.
fn bare_ring(
    alloc: Global,
    g: u8,
    globals: &[u64],
    first: u64,
    second: u64,
    r: RingSize,
) -> Result<Ring, NoMemory>
    requires bounds { 32 ≤ g }
    requires count { length globals.now + g ≡ 256 }
    ensures { IfOk result (λ w. w ≡ window_with r (bare_registers g globals.now first second)) }
{
    match Ring::with_size(alloc, r) {
        Ok(ring) => Ok(with_values(ring, g, globals, first, second)),
        Err(_) => Err(NoMemory),
    }
}

/// A ring at the start, with these registers.
fn with_values(ring: Ring, g: u8, globals: &[u64], first: u64, second: u64) -> Ring
    requires begun { ring ≡ window_at_start ring.size }
    requires bounds { 32 ≤ g }
    requires count { length globals.now + g ≡ 256 }
    ensures { result ≡ window_with ring.size (bare_registers g globals.now first second) }
{
    let mut ring = ring;
    fill_globals(&mut ring, g, globals);
    set_pair(&mut ring, first, second);
    ring
}

/// $g to $255 get their values.
fn fill_globals(ring: &mut Ring, g: u8, globals: &[u64])
    requires begun { ring.old ≡ window_at_start ring.old.size }
    requires bounds { 32 ≤ g }
    requires count { length globals.now + g ≡ 256 }
    ensures { ring.new ≡ window_with ring.old.size (record { locals = []; first_global = g; globals = globals.now }) }
{
    ring.set_global_start(g);
    for k in usize::from(g)..256 {
        set_surely(ring, k as u8, globals[k - usize::from(g)]);
    }
}

/// $0 and $1 get their values, where no register is local yet.
fn set_pair(ring: &mut Ring, first: u64, second: u64)
    requires { ring.old ≡ window_with ring.old.size (record ring.old.visible { locals = [] }) }
    ensures { ring.new ≡ window_with ring.old.size (record ring.old.visible { locals = first ∷ second ∷ [] }) }
{
    know_bounds(ring);
    set_surely(ring, 0, first);
    set_surely(ring, 1, second);
}

/// A register gets a value, where there is room for it.
#[inline(always)]
fn set_surely(ring: &mut Ring, k: u8, x: u64)
    requires { set_overfills (windowed ring.old) k ≡ false }
    ensures { windowed ring.new ≡ with_register (windowed ring.old) k x }
{
    match ring.set(k, x) {
        Ok(()) => {}
        Err(_) => {}
    }
}

/// The special registers by their codes: rN, rT, rTT, rK and rV have values.
#[tactic(auto, unfolding(crate::specs::Bare::special_at_start))]
fn special_at_start() -> [u64; 32]
    ensures value { result ≡ spec.special_at_start }
    ensures status { slice_index result rA ≡ 0 }
{
    let mut special = [0; 32];
    special[9] = 0x0100_0000_0000_0000;
    special[13] = 0x8000_0005_0000_0000;
    special[14] = 0x8000_0006_0000_0000;
    special[15] = u64::MAX;
    special[18] = 0x369c_2004_0000_0000;
    special
}

/// Over the list that the window at the start represents, the machine with no memory starts as that list.
#[tactic(auto, using(crate::proofs::BareStarts::starting))]
pub fn bare_machines_start_as_lists()
    ensures { (g first second size : ℕ) (globals : List ℕ)
        → StartsAsList g globals first second size }
{}
