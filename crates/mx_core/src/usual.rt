//! What frequent instructions do where nothing is unusual about them, and the memory that they read. What is not made so
//! changes nothing, and is made as any other step.

ghost use Rattle.std.specs.Prelude.{◌≡◌, ◌<◌, IfSome};
ghost use Rattle.mx_code.specs.LoadsAndStores.{loaded_value};
ghost use Rattle.mx_core.specs.Kept.{state_of};
ghost use Rattle.mx_core.specs.State as states;

use crate::Machine;
use mx_code::{Loading, extract_loaded, extract_loaded_tetra, part_of_load};
use mx_mem::Part;

/// What a usual instruction does: $X gets a value, and the machine goes on; the machine goes to the instruction that is so
/// many tetras after it, modulo 2^64, or to the next one; what only its code says; or it is no usual one.
pub(crate) enum Usual {
    Gives(u64),
    GoesBy(u64),
    GoesOn,
    Apart(u8),
    Other,
}

impl Machine {
    /// The tetra that holds an address, where it is below Stack_Segment and its page is that of the last instruction.
    #[tactic(auto, unfolding(crate::specs::Kept::state_of, crate::specs::State::octa))]
    #[inline(always)]
    pub(crate) fn near_tetra(&self, a: u64) -> Option<u32>
        ensures value { IfSome result (λ t. t ≡ states.tetra (state_of self.now) a) }
        ensures low { IfSome result (λ _. a < 0x6000_0000_0000_0000) }
    {
        self.memory.near_tetra(a)
    }

    /// The octa that holds an address, where it is below Stack_Segment and its page is near.
    #[tactic(auto, unfolding(crate::specs::Kept::state_of, crate::specs::State::octa))]
    #[inline(always)]
    pub(crate) fn near_octa(&self, a: u64) -> Option<u64>
        ensures value { IfSome result (λ x. x ≡ states.octa (state_of self.now) a) }
        ensures low { IfSome result (λ _. a < 0x6000_0000_0000_0000) }
    {
        self.memory.near_octa(a)
    }

    /// The tetra of data that holds an address, where it is below Stack_Segment and its page is near.
    #[tactic(auto, unfolding(crate::specs::Kept::state_of, crate::specs::State::octa))]
    #[inline(always)]
    fn near_data(&self, a: u64) -> Option<u32>
        ensures value { IfSome result (λ t. t ≡ states.tetra (state_of self.now) a) }
        ensures low { IfSome result (λ _. a < 0x6000_0000_0000_0000) }
    {
        self.memory.tetra_if_near(a)
    }

    /// The value that is loaded of an address, where it is below Stack_Segment and its page is near.
    #[inline(always)]
    pub(crate) fn load_if_near(&self, how: Loading, a: u64) -> Option<u64>
        ensures value { IfSome result (λ v. v ≡ loaded_value how (states.octa (state_of self.now) a) a) }
        ensures low { IfSome result (λ _. a < 0x6000_0000_0000_0000) }
    {
        match part_of_load(how) {
            Part::Octa => match self.near_octa(a) {
                Some(octa) => Some(extract_loaded(how, octa, a)),
                None => None,
            },
            _ => match self.near_data(a) {
                Some(t) => Some(extract_loaded_tetra(how, t, a)),
                None => None,
            },
        }
    }
}
