//! The operands of instructions, and what they give their destination.

ghost use Rattle.std.specs.Prelude.{◌≡◌, ◌<◌};
ghost use Rattle.mx_core.specs.Way.Calls.{Makes, settled};
ghost use Rattle.mx_core.specs.Effects as spec;
ghost use Rattle.mx_code.specs.Instructions.{x_of};
ghost use Rattle.mx_core.specs.Kept.{state_of};

use crate::Machine;
use mx_code::{Instruction, Stop};
use mx_ops::is_immediate;

impl Machine {
    /// What $X has.
    #[inline(always)]
    pub(crate) fn x_register(&self, i: &Instruction) -> u64
        ensures { result ≡ spec.x_register (state_of self.now) i.now }
    {
        self.register(i.x())
    }

    /// The operand y.
    #[inline(always)]
    pub(crate) fn y_operand(&self, i: &Instruction) -> u64
        ensures { result ≡ spec.y_operand (state_of self.now) i.now }
    {
        match i.given {
            None => self.register(i.y()),
            Some((y, _)) => y,
        }
    }

    /// The operand z.
    #[inline(always)]
    pub(crate) fn z_operand(&self, i: &Instruction) -> u64
        ensures { result ≡ spec.z_operand (state_of self.now) i.now }
    {
        match i.given {
            None if is_immediate(i.code()) => u64::from(i.z()),
            None => self.register(i.z()),
            Some((_, z)) => z,
        }
    }

    /// The address that the operands give together.
    #[inline(always)]
    pub(crate) fn data_address(&self, i: &Instruction) -> u64
        ensures { result ≡ spec.data_address (state_of self.now) i.now }
    {
        self.y_operand(i).wrapping_add(self.z_operand(i))
    }

    /// $X gets a value, and the machine goes on at an address.
    #[tactic(auto, unfolding(crate::specs::Way::Calls::set_outcome, crate::specs::Way::Calls::settled))]
    #[inline(always)]
    pub(crate) fn settle(&mut self, i: &Instruction, x: u64, next: u64) -> Result<(), Stop>
        ensures { Makes (λ s. settled s (x_of i.now) x next) result self.old self.new }
    {
        match self.set(i.x(), x) {
            Ok(()) => {
                self.go_to(next);
                Ok(())
            }
            Err(stop) => Err(stop),
        }
    }
}
