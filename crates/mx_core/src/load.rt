//! Loads.

ghost use Rattle.std.specs.Prelude.{◌≡◌, ◌<◌, ◌≤◌, ◌+◌, ◌%◌, ◌^◌};
ghost use Rattle.mx_core.specs.Way.Calls.{Performs};
ghost use Rattle.mx_core.specs.Effects.{data_address};
ghost use Rattle.mx_code.specs.Instructions.{operands_given};
ghost use Rattle.mx_core.specs.Kept.{state_of};
ghost use Rattle.mx_code.specs.Told.{answer_in};

use crate::machine::is_in_stack_area;
use crate::{Machine, Reason};
use mx_code::{Instruction, Loading, Operation, Stop, Told, extract_loaded};
use mx_word::STACK_SEGMENT;

impl Machine {
    /// LDB to LDUNC.
    #[tactic(auto, using(crate::proofs::Results::Loads::load_below))]
    #[inline(always)]
    pub(crate) fn load(&mut self, how: Loading, i: &Instruction) -> Result<(), Stop>
        ensures { Performs (Operation.Load how) i.now result self.old self.new }
    {
        let (y, z) = (self.y_operand(i), self.z_operand(i));
        let a = y.wrapping_add(z);
        if a >= STACK_SEGMENT {
            return self.load_apart(how, i.at, i.word, y, z).into_result();
        }
        self.settle(i, extract_loaded(how, self.octa(a), a), i.next())
    }

    /// A load from Stack_Segment on, for its operands. It is given words and no reference, so that the
    /// instruction need not be in memory.
    #[inline(never)]
    fn load_apart(&mut self, how: Loading, at: u64, word: u32, y: u64, z: u64) -> Told
        requires { 0x6000_0000_0000_0000 ≤ (y + z) % 2 ^ 64 }
        ensures { Performs (Operation.Load how) (operands_given at word y z) (answer_in result) self.old self.new }
    {
        let given = Some((y, z));
        let i = Instruction { at, word, given };
        Told::from_result(self.load_above(how, &i, y.wrapping_add(z)))
    }

    /// A load from Stack_Segment on.
    #[tactic(auto, using(crate::proofs::Results::Loads::load_negative, crate::proofs::Results::Loads::load_outside), unfolding(crate::specs::Way::Calls::settled))]
    fn load_above(&mut self, how: Loading, i: &Instruction, a: u64) -> Result<(), Stop>
        requires address { a ≡ data_address (state_of self.old) i.now }
        requires least { 0x6000_0000_0000_0000 ≤ a }
        ensures { Performs (Operation.Load how) i.now result self.old self.new }
    {
        if a >= 1 << 63 {
            return Err(Stop::Stopped(Reason::Negative));
        }
        if is_in_stack_area(a) {
            return self.load_spilled(how, i, a);
        }
        match self.settle(i, extract_loaded(how, self.octa(a), a), i.next()) {
            Ok(()) => {
                self.note_touch();
                Ok(())
            }
            Err(stop) => Err(stop),
        }
    }

    /// A load from the stack area, once the destination is local.
    #[tactic(auto, using(crate::proofs::Results::Loads::load_inside, crate::proofs::Results::Loads::local_settles), unfolding(crate::specs::Way::Calls::set_outcome))]
    fn load_spilled(&mut self, how: Loading, i: &Instruction, a: u64) -> Result<(), Stop>
        requires address { a ≡ data_address (state_of self.old) i.now }
        requires least { 0x6000_0000_0000_0000 ≤ a }
        requires most { a < 2 ^ 63 }
        ensures { Performs (Operation.Load how) i.now result self.old self.new }
    {
        match self.set(i.x(), self.x_register(i)) {
            Ok(()) => {
                let value = extract_loaded(how, self.octa(a), a);
                self.note_touch();
                self.settle(i, value, i.next())
            }
            Err(stop) => Err(stop),
        }
    }
}
