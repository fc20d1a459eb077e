//! What a user changes: a register, a special register, an octa of memory, the next address.

ghost use Rattle.std.specs.Prelude.{◌≡◌, ◌≢◌, ◌<◌, ◌^◌, Err, OnErr, IsTrue, not};
ghost use Rattle.mx_core.specs.Way.Changed.{Changes, Stores};
ghost use Rattle.mx_core.specs.UserChanges as spec;
ghost use Rattle.mx_core.specs.Kept.{state_of};
ghost use Rattle.mx_core.specs.State.{begins_page, is_page_refused};
ghost use Rattle.mx_ring.specs.Bounds.{IsRing};

use crate::Machine;
use crate::bounds::know_bounds;
use crate::machine::is_in_stack_area;
use mx_code::{Put, may_put};
use mx_mem::MemFault;
use mx_word::STACK_SEGMENT;

/// Why a change is refused: it is not allowed, or out of memory.
#[derive(Clone, Copy, Debug, PartialEq, Eq)]
pub enum SetFault {
    NotAllowed,
    OutOfMemory,
}

impl Machine {
    /// Gives $k a value. A register that is neither local nor global becomes local. It takes no memory.
    ///
    /// Errors: `NotAllowed`, exactly where hidden and local registers would pass 2^20; then nothing
    /// changed.
    #[tactic(auto, unfolding(crate::specs::Kept::state_of))]
    pub fn set_register(&mut self, k: u8, x: u64) -> Result<(), SetFault>
        ensures { Changes (λ s. spec.register_changed s k x) result self.old self.new }
    {
        match self.ring.set(k, x) {
            Ok(()) => Ok(()),
            Err(_) => Err(SetFault::NotAllowed),
        }
    }

    /// Gives the special register with a code below 32 a value, as PUT does. It takes no memory.
    ///
    /// Errors: `NotAllowed`, exactly where PUT refuses the value; then nothing changed.
    pub fn set_special(&mut self, code: u8, x: u64) -> Result<(), SetFault>
        requires { code < 32 }
        ensures { Changes (λ s. spec.special_changed s code x) result self.old self.new }
    {
        match may_put(code, x, self.g(), self.l()) {
            Put::Store(x) => {
                self.put_stored(code, x);
                Ok(())
            }
            Put::Illegal | Put::Privileged => Err(SetFault::NotAllowed),
        }
    }

    /// Stores an octa in place of the one that holds an address below 2^63. It takes memory only for
    /// a page that is not there.
    ///
    /// Errors: `NotAllowed`, exactly where the store needs a page beyond 65,536, and out of memory;
    /// then nothing changed.
    pub fn set_octa(&mut self, a: u64, x: u64) -> Result<(), SetFault>
        requires { a < 2 ^ 63 }
        ensures ok { result ≢ Err SetFault.OutOfMemory →
            Changes (λ s. spec.octa_changed s a x) result self.old self.new }
        ensures err { OnErr result (state_of self.new ≡ state_of self.old) }
        ensures lacks_memory { IsTrue (not (begins_page (state_of self.old) a)) → result ≢ Err SetFault.OutOfMemory }
    {
        match self.store_octa(a, x) {
            Ok(()) => Ok(()),
            Err(MemFault::PagesFull) => Err(SetFault::NotAllowed),
            Err(MemFault::OutOfMemory) => Err(SetFault::OutOfMemory),
        }
    }

    /// The machine goes on at an address, lowered to a multiple of 4.
    #[tactic(auto, unfolding(crate::specs::Kept::state_of))]
    pub fn set_pc(&mut self, a: u64)
        ensures { state_of self.new ≡ spec.at_address (state_of self.old) a }
    {
        self.pc = a / 4 * 4;
    }

    /// Stores an octa in place of the one that holds an address.
    #[tactic(auto, unfolding(crate::specs::Kept::state_of, crate::specs::State::with_octa))]
    pub(crate) fn store_octa(&mut self, a: u64, x: u64) -> Result<(), MemFault>
        requires { a < 2 ^ 63 }
        ensures ok { result ≢ Err MemFault.OutOfMemory → Stores a x result self.old self.new }
        ensures err { OnErr result (state_of self.new ≡ state_of self.old) }
        ensures lacks_memory { IsTrue (not (begins_page (state_of self.old) a)) → result ≢ Err MemFault.OutOfMemory }
        ensures room { IsTrue (is_page_refused (state_of self.old) a) → result ≢ Err MemFault.OutOfMemory }
        ensures bounds { IsRing self.old.ring }
    {
        know_bounds(&self.ring);
        if is_in_stack_area(a) {
            self.ring
                .set_stack_octa(((a - STACK_SEGMENT) / 8) as u32, x);
            Ok(())
        } else {
            self.memory.store(a, x)
        }
    }
}
