//! Instructions that go elsewhere: branches, jumps, calls and returns.

ghost use Rattle.std.specs.Prelude.{◌≡◌};
ghost use Rattle.mx_core.specs.Way.Calls as spec;
ghost use Rattle.mx_core.specs.Way.Calls.{Makes, Performs};
ghost use Rattle.mx_code.specs.Instructions.{operation_in};
ghost use Rattle.mx_core.specs.Kept.{state_of};
ghost use Rattle.mx_core.specs.Way.KeptPage.{KeepsPlace};

use crate::bounds::know_bounds;
use crate::{Machine, Reason};
use mx_code::{Instruction, Operation, Stop, is_condition_met};
use mx_ops::codes::RJ;

impl Machine {
    /// BN to PBEV.
    #[tactic(auto, using(crate::proofs::Results::Others::branch_outcome), unfolding(mx_code::specs::Operations::has_condition))]
    #[inline(always)]
    pub(crate) fn branch(&mut self, i: &Instruction) -> Result<(), Stop>
        requires { operation_in i.now ≡ Operation.Branch }
        ensures { Performs Operation.Branch i.now result self.old self.new }
    {
        let address = if is_condition_met(i, self.x_register(i)) {
            i.near_address()
        } else {
            i.next()
        };
        self.go_to(address);
        Ok(())
    }

    /// JMP.
    #[tactic(auto, using(crate::proofs::Results::Others::jump_outcome))]
    #[inline(always)]
    pub(crate) fn jump(&mut self, i: &Instruction) -> Result<(), Stop>
        ensures { Performs Operation.Jump i.now result self.old self.new }
    {
        self.go_to(i.far_address());
        Ok(())
    }

    /// PUSHJ.
    #[tactic(auto, using(crate::proofs::Results::Others::push_jump_outcome))]
    #[inline(always)]
    pub(crate) fn push_jump(&mut self, i: &Instruction) -> Result<(), Stop>
        ensures { Performs Operation.PushJump i.now result self.old self.new }
    {
        self.push_to(i, i.near_address())
    }

    /// PUSHGO.
    #[tactic(auto, using(crate::proofs::Results::Others::push_go_outcome))]
    #[inline(always)]
    pub(crate) fn push_go(&mut self, i: &Instruction) -> Result<(), Stop>
        ensures { Performs Operation.PushGo i.now result self.old self.new }
    {
        self.push_to(i, self.data_address(i))
    }

    /// Registers are hidden, and the machine goes to an address.
    #[inline(always)]
    pub(crate) fn push_to(&mut self, i: &Instruction, address: u64) -> Result<(), Stop>
        ensures { Makes (λ s. spec.push_outcome s i.now address) result self.old self.new }
    {
        match self.push(i.x()) {
            Ok(()) => {
                self.put(RJ, i.next());
                self.go_to(address);
                Ok(())
            }
            Err(stop) => Err(stop),
        }
    }

    /// The register stack's part of PUSHJ and PUSHGO.
    #[tactic(auto, unfolding(crate::specs::Kept::state_of))]
    #[inline(always)]
    pub(crate) fn push(&mut self, x: u8) -> Result<(), Stop>
        ensures made { Makes (λ s. spec.registers_pushed s x) result self.old self.new }
        ensures code { KeepsPlace self.old self.new }
    {
        match self.ring.push(x) {
            Ok(()) => Ok(()),
            Err(_) => Err(Stop::Stopped(Reason::StackFull)),
        }
    }

    /// POP.
    #[tactic(auto, using(crate::proofs::Results::Others::pop_outcome_is))]
    #[inline(always)]
    pub(crate) fn pop(&mut self, i: &Instruction) -> Result<(), Stop>
        ensures { Performs Operation.Pop i.now result self.old self.new }
    {
        let address = self.special(RJ).wrapping_add(4 * i.yz());
        match self.pop_registers(i.x()) {
            Ok(()) => {
                self.go_to(address);
                Ok(())
            }
            Err(stop) => Err(stop),
        }
    }

    /// The register stack's part of POP.
    #[tactic(auto, using(crate::proofs::Kept::Marks::pop_marks), unfolding(crate::specs::Kept::state_of))]
    #[inline(always)]
    pub(crate) fn pop_registers(&mut self, x: u8) -> Result<(), Stop>
        ensures made { Makes (λ s. spec.registers_popped s x) result self.old self.new }
        ensures code { KeepsPlace self.old self.new }
    {
        know_bounds(&self.ring);
        match self.ring.pop(x) {
            Ok(()) => {
                self.mark = self.mark.min(self.ring.hidden());
                Ok(())
            }
            Err(_) => Err(Stop::Stopped(Reason::Underflow)),
        }
    }
}
