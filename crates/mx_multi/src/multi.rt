//! Several processors on one memory: their start, and what is read of them.

ghost use Rattle.std.specs.Prelude.{◌≡◌, ◌≤◌, ◌<◌, ◌^◌, ◌+◌, IfOk, length, map, replicate, false};
ghost use Rattle.std.specs.List.{range_with_len};
ghost use Rattle.mx_load.specs.Kept.{image_of};
ghost use Rattle.mx_mem.specs.Memory.{IsNextNonzero};
ghost use Rattle.mx_ring.specs.Stack.{windowed};
ghost use Rattle.mx_ring.specs.Window.{window_at_start};
ghost use Rattle.mx_core.specs.Bare.{bare};
ghost use Rattle.mx_core.specs.Kept.{state_of};
ghost use Rattle.mx_multi.specs.Joint as spec;
ghost use Rattle.mx_multi.specs.Joint.{has_halted, joint_of, processor_count, started};

use crate::seats::Seats;
use mx_core::Machine;
use mx_load::Image;
use mx_mem::Memory;
use mx_mmo::Octas;
use mx_ring::RingSize;
use mx_start::collect_globals;
use mx_word::NoMemory;
use std::alloc::Global;
use std::marker::Model;

/// One to eight processors on one memory. Each has registers, a register stack with its stack area, special registers and
/// an address of its own; all else in memory is shared.
#[derive(Drop)]
pub struct Multi {
    pub(crate) alloc: Global,
    // While they take no turns, none of these has memory of its own.
    pub(crate) seats: Seats,
    pub(crate) memory: Memory,
}

impl Model for Multi {
    ghost use Rattle.mx_multi.specs.Joint.{Processors};

    ghost Value = { Processors };

    ghost use Rattle.mx_multi.specs.Parts.{kept_in, Holds};

    ghost view = { kept_in };

    ghost invariant = { Holds };
}

impl Multi {
    /// This many processors at the start of a program, on the memory of its image: each has their number in $0 and its own
    /// number, from 0, in $1, and nothing is in the pool.
    ///
    /// Errors: out of memory.
    pub fn start(alloc: Global, image: Image, count: u8, r: RingSize) -> Result<Multi, NoMemory>
        requires least { 1 ≤ count }
        requires most { count ≤ 8 }
        ensures state { IfOk result (λ p. joint_of p ≡ started (image_of image) count (windowed (window_at_start r))) }
        ensures count { IfOk result (λ p. processor_count p ≡ count) }
    {
        let globals = collect_globals(alloc, &image)?;
        let processors = bare_machines(alloc, image.g(), &globals, count, r)?;
        let halted = none_halted(alloc, count)?;
        let seats = Seats::new(processors, halted);
        Ok(Multi {
            alloc,
            seats,
            memory: image.into_memory(),
        })
    }

    /// A processor by itself: its memory outside the stack area is empty.
    pub fn processor(&self, who: u8) -> &Machine
        requires { who < processor_count self.now }
        ensures { state_of result.now ≡ spec.processor (joint_of self.now) who }
    {
        self.seats.machine(usize::from(who))
    }

    /// Whether a processor has halted. It takes no memory.
    pub fn halted(&self, who: u8) -> bool
        requires { who < processor_count self.now }
        ensures { result ≡ has_halted self.now.halted who }
    {
        self.seats.halted()[usize::from(who)]
    }

    /// The octa of the one memory that holds an address below the stack area; 0 where nothing was stored.
    pub fn octa(&self, a: u64) -> u64
        requires { a < 0x6000_0000_0000_0000 }
        ensures { result ≡ (joint_of self.now).memory.octas a }
    {
        self.memory.load(a)
    }

    /// The least octa of the one memory other than 0 whose address is at or above `from`, which is below 2^63: its address
    /// and its value. Nothing where there is none. It takes no memory.
    pub fn next_nonzero(&self, from: u64) -> Option<(u64, u64)>
        requires { from < 2 ^ 63 }
        ensures { IsNextNonzero (joint_of self.now).memory.octas from result }
    {
        self.memory.next_nonzero(from)
    }
}

/// This many machines with no memory of their own: each has their number in $0 and its own in $1.
#[tactic(auto, using(crate::proofs::Begun::growing))]
fn bare_machines(
    alloc: Global,
    g: u8,
    globals: &Octas,
    count: u8,
    r: RingSize,
) -> Result<Vec<Machine>, NoMemory>
    requires bounds { 32 ≤ g }
    requires count { length globals.now + g ≡ 256 }
    ensures { IfOk result (λ machines. map state_of machines.items
        ≡ map (λ who. bare g globals.now count who (windowed (window_at_start r))) (range_with_len 0 count)) }
{
    let mut machines = Vec::new(alloc);
    for who in 0..count {
        let machine = Machine::bare(alloc, g, globals, u64::from(count), u64::from(who), r)?;
        machines.push(machine)?;
    }
    Ok(machines)
}

/// That none of this many has halted.
#[tactic(auto, using(crate::proofs::Begun::growing))]
fn none_halted(alloc: Global, count: u8) -> Result<Vec<bool>, NoMemory>
    ensures { IfOk result (λ halted. halted.items ≡ replicate count false) }
{
    let mut halted = Vec::new(alloc);
    for _at in 0..count {
        halted.push(false)?;
    }
    Ok(halted)
}
