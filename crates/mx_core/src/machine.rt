//! The machine's state, and what is read and written of it.

ghost use Rattle.std.specs.Prelude.{◌≡◌, ◌≢◌, ◌<◌, ◌≤◌, ◌+◌, ◌^◌, ◌/◌, ◌%◌, Err, false, true};
ghost use Rattle.mx_mem.specs.Memory.{tetra_of};
ghost use Rattle.mx_ring.specs.Bounds.{IsRing};
ghost use Rattle.mx_ring.specs.Stack as stacks;
ghost use Rattle.mx_code.specs.SpecialRegisters.{rA};
ghost use Rattle.mx_core.specs.Way.Calls.{KeepsOnErr, Makes, MakesWithMemory, set_outcome, store_outcome};
ghost use Rattle.mx_core.specs.Deeds as deeds;
ghost use Rattle.mx_core.specs.Kept.{state_of};
ghost use Rattle.mx_core.specs.State as spec;
ghost use Rattle.mx_core.specs.Traps.{with_touch};
ghost use Rattle.mx_core.specs.Way.KeptPage.{KeepsPlace};

use crate::Reason;
use crate::bounds::know_bounds;
use mx_code::Stop;
use mx_mem::{MemFault, Memory, Part, with_part};
use mx_ring::{AREA_END, Ring, RingFault};
use mx_word::STACK_SEGMENT;
use std::alloc::Global;
use std::marker::Model;

/// The machine between two instructions.
#[derive(Drop)]
pub struct Machine {
    pub(crate) alloc: Global,
    pub(crate) pc: u64,
    pub(crate) ring: Ring,
    pub(crate) memory: Memory,
    pub(crate) special: [u64; 32],
    pub(crate) mark: u32,
    pub(crate) touched: bool,
    pub(crate) steps: u64,
}

impl Model for Machine {
    ghost use Rattle.mx_core.specs.Kept.{Kept};

    ghost Value = { Kept };

    ghost use Rattle.mx_core.specs.Way.Parts.{kept, Holds};

    ghost view = { kept };

    ghost invariant = { Holds };
}

#[tactic(auto)]
impl Machine {
    /// States the bounds that the register stack keeps. It does nothing.
    #[inline(always)]
    pub(crate) fn know_ring(&self)
        ensures { IsRing self.now.ring }
    {
        know_bounds(&self.ring);
    }
}

/// What is read.
#[tactic(auto, unfolding(crate::specs::Kept::state_of, crate::specs::State::special_register, crate::specs::State::octa))]
impl Machine {
    /// The address of the next instruction, a multiple of 4.
    #[inline(always)]
    pub fn pc(&self) -> u64
        ensures value { result ≡ (state_of self.now).pc }
        ensures aligned { result % 4 ≡ 0 }
    {
        self.pc
    }

    /// How many steps were made, modulo 2^64.
    #[inline(always)]
    pub fn steps(&self) -> u64
        ensures { result ≡ (state_of self.now).steps }
    {
        self.steps
    }

    /// L, the number of local registers.
    #[inline(always)]
    pub fn l(&self) -> u8
        ensures { result ≡ spec.locals (state_of self.now) }
    {
        self.ring.l()
    }

    /// G, the number of the first global register.
    #[inline(always)]
    pub fn g(&self) -> u8
        ensures { result ≡ spec.global_start (state_of self.now) }
    {
        self.ring.g()
    }

    /// Whether a program or a user looked at rS or at the memory of the register stack.
    pub fn touched(&self) -> bool
        ensures { result ≡ (state_of self.now).touched }
    {
        self.touched
    }

    /// What $k has; 0 where it is neither local nor global.
    #[inline(always)]
    pub fn register(&self, k: u8) -> u64
        ensures { result ≡ stacks.register (state_of self.now).stack k }
    {
        self.ring.get(k)
    }

    /// What the special register with a code below 32 has.
    pub fn special(&self, code: u8) -> u64
        requires { code < 32 }
        ensures { result ≡ spec.special_register (state_of self.now) code }
    {
        match code {
            8 => self.steps,
            10 => self.ring.ro(),
            11 => self.ring.rs(),
            19 => u64::from(self.ring.g()),
            20 => u64::from(self.ring.l()),
            _ => self.special[usize::from(code)],
        }
    }

    /// The octa that holds an address below 2^63; 0 where nothing was stored.
    #[inline(always)]
    pub fn octa(&self, a: u64) -> u64
        requires { a < 2 ^ 63 }
        ensures { result ≡ spec.octa (state_of self.now) a }
    {
        if is_in_stack_area(a) {
            self.ring.stack_octa(((a - STACK_SEGMENT) / 8) as u32)
        } else {
            self.memory.load(a)
        }
    }

    /// The tetra that holds an address below 2^63, as an instruction.
    #[inline(always)]
    pub(crate) fn tetra(&self, a: u64) -> u32
        requires { a < 2 ^ 63 }
        ensures { result ≡ spec.tetra (state_of self.now) a }
    {
        if is_in_stack_area(a) {
            half(self.ring.stack_octa(((a - STACK_SEGMENT) / 8) as u32), a)
        } else {
            self.memory.tetra(a)
        }
    }
}

/// What is written.
#[tactic(auto, unfolding(crate::specs::Kept::state_of, crate::specs::Way::Calls::set_outcome))]
impl Machine {
    /// The machine goes on at an address, one step later.
    #[inline(always)]
    pub(crate) fn go_to(&mut self, a: u64)
        ensures { state_of self.new ≡ deeds.onward (state_of self.old) a }
    {
        self.pc = a / 4 * 4;
        self.steps = self.steps.wrapping_add(1);
    }

    /// Keeps the page of the instruction that was fetched last, so that those after it are fetched quickly.
    #[inline(always)]
    pub(crate) fn keep_code(&mut self)
        ensures { state_of self.new ≡ state_of self.old }
    {
        self.memory.keep_code();
    }

    /// The machine goes on after the instruction at an address, one step later.
    #[inline(always)]
    pub(crate) fn go_on(&mut self, at: u64)
        requires aligned { at % 4 ≡ 0 }
        requires low { at < 0x6000_0000_0000_0000 }
        ensures { state_of self.new ≡ deeds.onward (state_of self.old) ((at + 4) % 2 ^ 64) }
    {
        self.pc = at + 4;
        self.steps = self.steps.wrapping_add(1);
    }

    /// Notes that a program or a user looked at rS or at the memory of the register stack.
    pub fn note_touch(&mut self)
        ensures { state_of self.new ≡ with_touch (state_of self.old) }
    {
        self.touched = true;
    }

    /// $k gets a value.
    #[inline(always)]
    pub(crate) fn set(&mut self, k: u8, x: u64) -> Result<(), Stop>
        ensures made { Makes (λ s. set_outcome s k x) result self.old self.new }
        ensures code { KeepsPlace self.old self.new }
    {
        match self.ring.set(k, x) {
            Ok(()) => Ok(()),
            Err(_) => Err(Stop::Stopped(Reason::StackFull)),
        }
    }

    /// A special register gets a value, one that is kept by itself, and not rA.
    #[inline(always)]
    pub(crate) fn put(&mut self, code: u8, x: u64)
        requires range { code < 32 }
        requires not_ra { code ≢ rA }
        ensures state { state_of self.new ≡ spec.with_special (state_of self.old) code x }
        ensures code { KeepsPlace self.old self.new }
    {
        self.special[usize::from(code)] = x;
    }

    /// rA gets a value.
    #[inline(always)]
    pub(crate) fn put_status(&mut self, x: u64)
        requires { x < 2 ^ 18 }
        ensures { state_of self.new ≡ spec.with_special (state_of self.old) rA x }
    {
        self.special[21] = x;
    }
}

/// What is stored.
#[tactic(auto, unfolding(crate::specs::Kept::state_of, crate::specs::State::octa, crate::specs::State::with_octa, crate::specs::Way::Calls::store_outcome))]
impl Machine {
    /// The low bytes of `x` are stored in the part that holds an address below 2^63. It takes memory
    /// only where that begins a page.
    ///
    /// Errors: `PagesFull` where the page would be one too many, and out of memory; then nothing
    /// changed.
    #[inline(always)]
    pub(crate) fn store(&mut self, a: u64, part: Part, x: u64) -> Result<(), Stop>
        requires { a < 2 ^ 63 }
        ensures answer { MakesWithMemory (λ s. store_outcome s a part x) result self.old self.new }
        ensures err { KeepsOnErr result self.old self.new }
        ensures lacks_memory { spec.begins_page (state_of self.old) a ≡ false → result ≢ Err Stop.OutOfMemory }
        ensures room { spec.is_page_refused (state_of self.old) a ≡ true → result ≢ Err Stop.OutOfMemory }
    {
        if a >= STACK_SEGMENT {
            return self.store_above(a, part, x);
        }
        match self.memory.store_part(a, part, x) {
            Ok(()) => Ok(()),
            Err(MemFault::PagesFull) => Err(Stop::Stopped(Reason::PagesFull)),
            Err(MemFault::OutOfMemory) => Err(Stop::OutOfMemory),
        }
    }

    /// The low bytes of `x` are stored in the part that holds an address of Stack_Segment.
    #[inline(never)]
    fn store_above(&mut self, a: u64, part: Part, x: u64) -> Result<(), Stop>
        requires least { 0x6000_0000_0000_0000 ≤ a }
        requires most { a < 2 ^ 63 }
        ensures answer { MakesWithMemory (λ s. store_outcome s a part x) result self.old self.new }
        ensures err { KeepsOnErr result self.old self.new }
        ensures lacks_memory { spec.begins_page (state_of self.old) a ≡ false → result ≢ Err Stop.OutOfMemory }
        ensures room { spec.is_page_refused (state_of self.old) a ≡ true → result ≢ Err Stop.OutOfMemory }
    {
        if is_in_stack_area(a) {
            let i = ((a - STACK_SEGMENT) / 8) as u32;
            self.ring
                .set_stack_octa(i, with_part(part, self.ring.stack_octa(i), a, x));
            self.touched = true;
            return Ok(());
        }
        match self.memory.store_part(a, part, x) {
            Ok(()) => {
                self.touched = true;
                Ok(())
            }
            Err(MemFault::PagesFull) => Err(Stop::Stopped(Reason::PagesFull)),
            Err(MemFault::OutOfMemory) => Err(Stop::OutOfMemory),
        }
    }
}

/// Whether an address lies in the stack area.
#[inline(always)]
pub fn is_in_stack_area(a: u64) -> bool
    ensures { result ≡ stacks.in_stack_area a }
{
    STACK_SEGMENT <= a && a < AREA_END
}

/// The tetra in the half of an octa where an address lies.
#[inline(always)]
fn half(octa: u64, a: u64) -> u32
    ensures { result ≡ tetra_of octa a }
{
    if a % 8 < 4 {
        (octa >> 32) as u32
    } else {
        (octa & 0xffff_ffff) as u32
    }
}
