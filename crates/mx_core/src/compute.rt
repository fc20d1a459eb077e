//! Instructions that give $X a value and do nothing else.

ghost use Rattle.std.specs.Prelude.{◌≡◌, IsTrue};
ghost use Rattle.mx_core.specs.Way.Calls.{Makes, Performs, answer_outcome};
ghost use Rattle.mx_core.specs.Effects as spec;
ghost use Rattle.mx_code.specs.Instructions.{code_of, instruction, operation_in};
ghost use Rattle.mx_core.specs.Kept.{state_of};
ghost use Rattle.mx_code.specs.Told.{answer_in};
ghost use Rattle.mx_alu.specs.Alu.{is_alu};

use crate::Machine;
use mx_alu::{Extra, alu, lone_result, wyde};
use mx_code::{Instruction, Operation, Stop, Told, is_condition_met, wyde_value};

impl Machine {
    /// MUL to SRU and OR to MXOR, but for NEG and NEGU. Mostly the result is all that they give.
    #[tactic(auto, using(crate::proofs::Results::Events::compute_outcome, crate::proofs::Results::Events::compute_alone, crate::proofs::Results::Plain::answer_plain, mx_code::proofs::Tables::computes, mx_code::proofs::Tables::computes_low))]
    #[inline(always)]
    pub(crate) fn compute(&mut self, i: &Instruction) -> Result<(), Stop>
        requires { operation_in i.now ≡ Operation.Compute }
        ensures { Performs Operation.Compute i.now result self.old self.new }
    {
        let (y, z) = (self.y_operand(i), self.z_operand(i));
        match lone_result(i.code(), y, z, self.extra()) {
            Some(x) => self.settle(i, x, i.next()),
            None => self.compute_wholly(i.at, i.word, y, z).into_result(),
        }
    }

    /// An instruction on whole numbers, of its operands, with what it gives besides the result. It is given
    /// words and no reference, so that the instruction need not be in memory.
    #[inline(never)]
    fn compute_wholly(&mut self, at: u64, word: u32, y: u64, z: u64) -> Told
        requires { IsTrue (is_alu (code_of (instruction at word))) }
        ensures { Makes (λ s. answer_outcome s (instruction at word) y z (spec.alu_answer s (instruction at word) y z))
            (answer_in result) self.old self.new }
    {
        let i = Instruction::new(at, word);
        let a = alu(i.code(), y, z, self.extra());
        Told::from_result(self.answer(&i, y, z, &a))
    }

    /// NEG and NEGU. Mostly the result is all that they give.
    #[tactic(auto, using(crate::proofs::Results::Events::negate_outcome, crate::proofs::Results::Events::negate_alone, crate::proofs::Results::Plain::answer_plain, mx_code::proofs::Tables::negates, mx_code::proofs::Tables::negates_low))]
    #[inline(always)]
    pub(crate) fn negate(&mut self, i: &Instruction) -> Result<(), Stop>
        requires { operation_in i.now ≡ Operation.Negate }
        ensures { Performs Operation.Negate i.now result self.old self.new }
    {
        let (y, z) = (u64::from(i.y()), self.z_operand(i));
        match lone_result(i.code(), y, z, self.extra()) {
            Some(x) => self.settle(i, x, i.next()),
            None => self.compute_wholly(i.at, i.word, y, z).into_result(),
        }
    }

    /// rD and rM, which divisions and MUX read.
    #[tactic(auto, unfolding(crate::specs::Kept::state_of, crate::specs::State::special_register))]
    #[inline(always)]
    pub(crate) fn extra(&self) -> Extra
        ensures { result ≡ spec.extra_of (state_of self.now) }
    {
        Extra {
            d: self.special[1],
            m: self.special[5],
        }
    }

    /// SETH to ANDNL.
    #[tactic(auto, using(crate::proofs::Results::Outcomes::wyde_outcome, mx_code::proofs::Tables::wyde_low, mx_code::proofs::Tables::wyde_high))]
    #[inline(always)]
    pub(crate) fn set_wyde(&mut self, i: &Instruction) -> Result<(), Stop>
        requires { operation_in i.now ≡ Operation.Wyde }
        ensures { Performs Operation.Wyde i.now result self.old self.new }
    {
        let value = match i.given {
            None => wyde(i.code(), self.x_register(i), wyde_value(i)),
            Some((y, z)) => wyde(i.code(), y, z),
        };
        self.settle(i, value, i.next())
    }

    /// CSN to CSEV.
    #[tactic(auto, using(crate::proofs::Results::Outcomes::conditional_outcome), unfolding(mx_code::specs::Operations::has_condition))]
    #[inline(always)]
    pub(crate) fn conditional_set(&mut self, i: &Instruction) -> Result<(), Stop>
        requires { operation_in i.now ≡ Operation.ConditionalSet }
        ensures { Performs Operation.ConditionalSet i.now result self.old self.new }
    {
        let value = if is_condition_met(i, self.y_operand(i)) {
            self.z_operand(i)
        } else {
            self.x_register(i)
        };
        self.settle(i, value, i.next())
    }

    /// ZSN to ZSEV.
    #[tactic(auto, using(crate::proofs::Results::Outcomes::zero_outcome), unfolding(mx_code::specs::Operations::has_condition))]
    #[inline(always)]
    pub(crate) fn zero_or_set(&mut self, i: &Instruction) -> Result<(), Stop>
        requires { operation_in i.now ≡ Operation.ZeroOrSet }
        ensures { Performs Operation.ZeroOrSet i.now result self.old self.new }
    {
        let value = if is_condition_met(i, self.y_operand(i)) {
            self.z_operand(i)
        } else {
            0
        };
        self.settle(i, value, i.next())
    }

    /// GETA.
    #[tactic(auto, using(crate::proofs::Results::Outcomes::address_outcome))]
    #[inline(always)]
    pub(crate) fn get_address(&mut self, i: &Instruction) -> Result<(), Stop>
        ensures { Performs Operation.Address i.now result self.old self.new }
    {
        self.settle(i, i.near_address(), i.next())
    }

    /// GO.
    #[tactic(auto, using(crate::proofs::Results::Outcomes::go_outcome))]
    #[inline(always)]
    pub(crate) fn go(&mut self, i: &Instruction) -> Result<(), Stop>
        ensures { Performs Operation.Go i.now result self.old self.new }
    {
        self.settle(i, i.next(), self.data_address(i))
    }
}
