//! What PUT stores in special registers.

ghost use Rattle.std.specs.Prelude.{◌≡◌, ◌<◌};
ghost use Rattle.mx_core.specs.UserChanges.{with_put, IsPuttable};
ghost use Rattle.mx_core.specs.Kept.{state_of};

use crate::Machine;

#[tactic(auto, unfolding(crate::specs::Kept::state_of))]
impl Machine {
    /// The special register with a code gets a value that PUT stores there.
    pub(crate) fn put_stored(&mut self, code: u8, x: u64)
        requires range { code < 32 }
        requires bounds { IsPuttable (state_of self.old) code x }
        ensures { state_of self.new ≡ with_put (state_of self.old) code x }
    {
        match code {
            19 => self.ring.set_global_start(x as u8),
            20 => self.ring.cut_locals(x as u8),
            21 => self.put_status(x),
            _ => self.put(code, x),
        }
    }
}
