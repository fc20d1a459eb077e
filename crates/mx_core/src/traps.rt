//! The machine's part of a file trap.

ghost use Rattle.std.specs.Prelude.{◌≡◌};
ghost use Rattle.mx_core.specs.Kept.{state_of};
ghost use Rattle.mx_core.specs.Traps as spec;

use crate::{Machine, Trace};
use mx_alu::TrapCall;

impl Machine {
    /// Completes the step of a file trap with its result. rWW, rXX, rYY and rZZ tell the instruction,
    /// and rBB and $255 get the result; $Y and $Z are taken before $255 changes.
    ///
    /// The call is the one that `step` gave: its `pc` is the machine's next address, its `word` a
    /// TRAP, and its `arg` what $255 has, whatever the trap stored at `pc` since.
    #[tactic(auto, unfolding(crate::specs::Traps::trapped))]
    pub fn finish_trap(&mut self, call: &TrapCall, value: u64) -> Trace
        ensures state { state_of self.new ≡ spec.trapped (state_of self.old) call.now value }
        ensures trace { result ≡ spec.trap_trace (state_of self.old) call.now value }
    {
        self.tell_trap(call, value);
        self.set_last(value);
        self.go_to(call.pc.wrapping_add(4));
        Trace {
            pc: call.pc,
            word: call.word,
            dest: None,
            reads: None,
            writes: None,
            next: self.pc(),
        }
    }
}

#[tactic(auto, unfolding(crate::specs::Kept::state_of))]
impl Machine {
    /// Counts the step of a Halt, which changes nothing else.
    pub fn finish_halt(&mut self, _call: &TrapCall)
        ensures { state_of self.new ≡ spec.halted (state_of self.old) }
    {
        self.steps = self.steps.wrapping_add(1);
    }

    /// The special registers of a trap get their values.
    fn tell_trap(&mut self, call: &TrapCall, value: u64)
        ensures { state_of self.new ≡ spec.told_trap (state_of self.old) call.now value }
    {
        let y = self.register((call.word >> 8 & 0xff) as u8);
        let z = self.register((call.word & 0xff) as u8);
        self.special[28] = call.pc.wrapping_add(4);
        self.special[29] = (1 << 63) + u64::from(call.word);
        self.special[30] = y;
        self.special[31] = z;
        self.special[7] = value;
    }
}
