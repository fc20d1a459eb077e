//! The conditions that instructions test.

ghost use Rattle.std.specs.Prelude.{◌≡◌, true};
ghost use Rattle.mx_code.specs.Instructions.{code_of, operation_in};
ghost use Rattle.mx_code.specs.Operations.{has_condition};
ghost use Rattle.mx_alu.specs.Truth as conditions;

use crate::instruction::Instruction;
use mx_alu::truth;

/// Whether the condition of an instruction that tests one (BN to PBEV, CSN to CSEV, ZSN to ZSEV) holds of an octa.
#[tactic(auto, using(crate::proofs::Tables::condition_low, crate::proofs::Tables::condition_high))]
#[inline(always)]
pub fn is_condition_met(i: &Instruction, x: u64) -> bool
    requires { has_condition (operation_in i.now) ≡ true }
    ensures { result ≡ conditions.truth (code_of i.now) x }
{
    truth(i.code(), x)
}
