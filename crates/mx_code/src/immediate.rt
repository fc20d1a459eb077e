//! The immediate wyde of SETH to ANDNL.

ghost use Rattle.std.specs.Prelude.{◌≡◌};
ghost use Rattle.mx_code.specs.Instructions as spec;
ghost use Rattle.mx_code.specs.Instructions.{operation_in};

use crate::instruction::Instruction;
use crate::operation::Operation;

/// The immediate wyde of SETH to ANDNL, in an octa at its place: YZ times 2^48, 2^32, 2^16 or 1.
#[tactic(auto, using(crate::proofs::Tables::wyde_low, crate::proofs::Tables::wyde_high))]
#[inline(always)]
pub fn wyde_value(i: &Instruction) -> u64
    requires { operation_in i.now ≡ Operation.Wyde }
    ensures { result ≡ spec.wyde_value i.now }
{
    i.yz() << (48 - 16 * (u32::from(i.code()) % 4))
}
