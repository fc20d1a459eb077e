//! What usual instructions give, and where they go. Each is given with its code as a literal.

ghost use Rattle.std.specs.Prelude.{◌≡◌, ◌≢◌, ◌+◌, ◌*◌, ◌%◌, ◌^◌, IfSome, IsTrue, false};
ghost use Rattle.mx_core.specs.Way.Calls.{OnlyGoes, OnlySets};
ghost use Rattle.mx_code.specs.Instructions.{far_address, near_address, next_of, operation_in, z_of};
ghost use Rattle.mx_code.specs.SpecialRegisters.{rC};
ghost use Rattle.mx_core.specs.Kept.{state_of};
ghost use Rattle.mx_core.specs.Way.UsualDeeds.{IsUsual};

use crate::Machine;
use crate::usual::Usual;
use mx_alu::{lone_result, wyde};
use mx_code::{Instruction, Loading, Operation, is_condition_met, wyde_value};
use mx_ops::is_backward;

/// How many tetras after its instruction a backward address of 16 and of 24 bits begins, modulo 2^64.
const NEAR_BACK: u64 = 0xffff_ffff_ffff_0000;

const FAR_BACK: u64 = 0xffff_ffff_ff00_0000;

impl Machine {
    /// What MUL to SRU and OR to MXOR give $X, where it is all that they give.
    #[tactic(auto, using(crate::proofs::Results::Events::compute_alone, mx_code::proofs::Tables::computes, mx_code::proofs::Tables::computes_low))]
    #[inline(always)]
    fn compute_value(&self, i: &Instruction) -> Option<u64>
        requires { operation_in i.now ≡ Operation.Compute }
        ensures { IfSome result (λ x. OnlySets Operation.Compute i.now x self.now) }
    {
        lone_result(i.code(), self.y_operand(i), self.z_operand(i), self.extra())
    }

    /// The frequent step of MUL to SRU and OR to MXOR, where the code is one of theirs.
    #[inline(always)]
    pub(crate) fn usual_compute(&self, i: &Instruction) -> Usual
        ensures { IsUsual result (state_of self.now) i.now }
    {
        match i.operation() {
            Operation::Compute => match self.compute_value(i) {
                Some(x) => Usual::Gives(x),
                None => Usual::Other,
            },
            _ => Usual::Other,
        }
    }

    /// What NEG and NEGU give $X, where it is all that they give.
    #[tactic(auto, using(crate::proofs::Results::Events::negate_alone, mx_code::proofs::Tables::negates, mx_code::proofs::Tables::negates_low))]
    #[inline(always)]
    fn negate_value(&self, i: &Instruction) -> Option<u64>
        requires { operation_in i.now ≡ Operation.Negate }
        ensures { IfSome result (λ x. OnlySets Operation.Negate i.now x self.now) }
    {
        lone_result(i.code(), u64::from(i.y()), self.z_operand(i), self.extra())
    }

    /// The frequent step of NEG and NEGU, where the code is one of theirs.
    #[inline(always)]
    pub(crate) fn usual_negate(&self, i: &Instruction) -> Usual
        ensures { IsUsual result (state_of self.now) i.now }
    {
        match i.operation() {
            Operation::Negate => match self.negate_value(i) {
                Some(x) => Usual::Gives(x),
                None => Usual::Other,
            },
            _ => Usual::Other,
        }
    }

    /// What SETH to ANDNL give $X.
    #[tactic(auto, using(crate::proofs::Results::Outcomes::wyde_outcome, mx_code::proofs::Tables::wyde_low, mx_code::proofs::Tables::wyde_high))]
    #[inline(always)]
    fn with_wyde_value(&self, i: &Instruction) -> Option<u64>
        requires { operation_in i.now ≡ Operation.Wyde }
        ensures { IfSome result (λ x. OnlySets Operation.Wyde i.now x self.now) }
    {
        match i.given {
            None => Some(wyde(i.code(), self.x_register(i), wyde_value(i))),
            Some((y, z)) => Some(wyde(i.code(), y, z)),
        }
    }

    /// The frequent step of SETH to ANDNL, where the code is one of theirs.
    #[inline(always)]
    pub(crate) fn with_wyde(&self, i: &Instruction) -> Usual
        ensures { IsUsual result (state_of self.now) i.now }
    {
        match i.operation() {
            Operation::Wyde => match self.with_wyde_value(i) {
                Some(x) => Usual::Gives(x),
                None => Usual::Other,
            },
            _ => Usual::Other,
        }
    }

    /// What CSN to CSEV give $X.
    #[tactic(auto, using(crate::proofs::Results::Outcomes::conditional_outcome), unfolding(mx_code::specs::Operations::has_condition))]
    #[inline(always)]
    fn choose_value(&self, i: &Instruction) -> Option<u64>
        requires { operation_in i.now ≡ Operation.ConditionalSet }
        ensures { IfSome result (λ x. OnlySets Operation.ConditionalSet i.now x self.now) }
    {
        if is_condition_met(i, self.y_operand(i)) {
            Some(self.z_operand(i))
        } else {
            Some(self.x_register(i))
        }
    }

    /// The frequent step of CSN to CSEV, where the code is one of theirs.
    #[inline(always)]
    pub(crate) fn usual_choose(&self, i: &Instruction) -> Usual
        ensures { IsUsual result (state_of self.now) i.now }
    {
        match i.operation() {
            Operation::ConditionalSet => match self.choose_value(i) {
                Some(x) => Usual::Gives(x),
                None => Usual::Other,
            },
            _ => Usual::Other,
        }
    }

    /// What ZSN to ZSEV give $X.
    #[tactic(auto, using(crate::proofs::Results::Outcomes::zero_outcome), unfolding(mx_code::specs::Operations::has_condition))]
    #[inline(always)]
    fn zero_value(&self, i: &Instruction) -> u64
        requires { operation_in i.now ≡ Operation.ZeroOrSet }
        ensures { OnlySets Operation.ZeroOrSet i.now result self.now }
    {
        if is_condition_met(i, self.y_operand(i)) {
            self.z_operand(i)
        } else {
            0
        }
    }

    /// The frequent step of ZSN to ZSEV, where the code is one of theirs.
    #[inline(always)]
    pub(crate) fn usual_zero(&self, i: &Instruction) -> Usual
        ensures { IsUsual result (state_of self.now) i.now }
    {
        match i.operation() {
            Operation::ZeroOrSet => Usual::Gives(self.zero_value(i)),
            _ => Usual::Other,
        }
    }

    /// What LDB to LDUNC give $X below Stack_Segment, where the page is near.
    #[tactic(auto, using(crate::proofs::Results::Loads::load_below))]
    #[inline(always)]
    fn load_operand_if_near(&self, how: Loading, i: &Instruction) -> Option<u64>
        ensures { IfSome result (λ x. OnlySets (Operation.Load how) i.now x self.now) }
    {
        self.load_if_near(how, self.data_address(i))
    }

    /// The frequent step of LDB to LDUNC, where the code is one of theirs.
    #[inline(always)]
    pub(crate) fn usual_load(&self, i: &Instruction) -> Usual
        ensures { IsUsual result (state_of self.now) i.now }
    {
        match i.operation() {
            Operation::Load(how) => match self.load_operand_if_near(how, i) {
                Some(x) => Usual::Gives(x),
                None => Usual::Other,
            },
            _ => Usual::Other,
        }
    }

    /// What GETA gives $X.
    #[tactic(auto, using(crate::proofs::Results::Outcomes::address_outcome))]
    #[inline(always)]
    pub(crate) fn near_one(&self, i: &Instruction) -> Usual
        ensures { IsUsual result (state_of self.now) i.now }
    {
        match i.operation() {
            Operation::Address => Usual::Gives(i.near_address()),
            _ => Usual::Other,
        }
    }

    /// What GET gives $X, of rB to rBB, which have the codes below 8: rH, rJ and rR are the frequent ones.
    #[tactic(auto, using(crate::proofs::Results::Gets::get_alone), unfolding(crate::specs::Kept::state_of))]
    #[inline(always)]
    fn get_value(&self, i: &Instruction) -> Option<u64>
        ensures value { IfSome result (λ x. OnlySets Operation.Get i.now x self.now) }
        ensures other { IfSome result (λ _. z_of i.now ≢ rC) }
    {
        if i.y() != 0 || i.z() > 7 {
            return None;
        }
        Some(self.special[usize::from(i.z())])
    }

    /// The frequent step of GET, where the code is one of theirs.
    #[inline(always)]
    pub(crate) fn usual_get(&self, i: &Instruction) -> Usual
        ensures { IsUsual result (state_of self.now) i.now }
    {
        match i.operation() {
            Operation::Get => match self.get_value(i) {
                Some(x) => Usual::Gives(x),
                None => Usual::Other,
            },
            _ => Usual::Other,
        }
    }

    /// Whether BN to PBEV go to their address, and not on.
    #[tactic(auto, using(crate::proofs::Results::Others::branch_outcome), unfolding(mx_code::specs::Operations::has_condition))]
    #[inline(always)]
    fn takes_branch(&self, i: &Instruction) -> bool
        requires { operation_in i.now ≡ Operation.Branch }
        ensures taken { IsTrue result → OnlyGoes Operation.Branch i.now (near_address i.now) self.now }
        ensures passed { result ≡ false → OnlyGoes Operation.Branch i.now (next_of i.now) self.now }
    {
        is_condition_met(i, self.x_register(i))
    }

    /// The frequent step of BN to PBEV, where the code is one of theirs.
    #[inline(always)]
    pub(crate) fn usual_branch(&self, i: &Instruction) -> Usual
        ensures { IsUsual result (state_of self.now) i.now }
    {
        match i.operation() {
            Operation::Branch => {
                if self.takes_branch(i) {
                    Usual::GoesBy(measure_near(i))
                } else {
                    Usual::GoesOn
                }
            }
            _ => Usual::Other,
        }
    }

    /// The frequent step of SWYM, where the code is its own.
    #[tactic(auto, using(crate::proofs::Results::Others::nothing_outcome))]
    #[inline(always)]
    pub(crate) fn usual_pass(&self, i: &Instruction) -> Usual
        ensures { IsUsual result (state_of self.now) i.now }
    {
        match i.operation() {
            Operation::Nothing => Usual::GoesOn,
            _ => Usual::Other,
        }
    }

    /// The frequent step of JMP, where the code is one of theirs.
    #[tactic(auto, using(crate::proofs::Results::Others::jump_outcome))]
    #[inline(always)]
    pub(crate) fn usual_jump(&self, i: &Instruction) -> Usual
        ensures { IsUsual result (state_of self.now) i.now }
    {
        match i.operation() {
            Operation::Jump => Usual::GoesBy(measure_far(i)),
            _ => Usual::Other,
        }
    }
}

/// How many tetras after an instruction the address is that YZ means, modulo 2^64.
#[inline(always)]
pub(crate) fn measure_near(i: &Instruction) -> u64
    ensures { (i.now.at + 4 * result) % 2 ^ 64 ≡ near_address i.now }
{
    if is_backward(i.code()) {
        NEAR_BACK + i.yz()
    } else {
        i.yz()
    }
}

/// How many tetras after an instruction the address is that XYZ means, modulo 2^64.
#[inline(always)]
fn measure_far(i: &Instruction) -> u64
    ensures { (i.now.at + 4 * result) % 2 ^ 64 ≡ far_address i.now }
{
    if is_backward(i.code()) {
        FAR_BACK + i.xyz()
    } else {
        i.xyz()
    }
}
