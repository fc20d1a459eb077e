//! The registers that instructions set.

ghost use Rattle.std.specs.Prelude.{◌≡◌};
ghost use Rattle.mx_code.specs.Instructions as spec;

use crate::instruction::Instruction;
use crate::operation::Operation;

/// The register that an instruction with this operation sets, which is X, where it has a destination.
#[inline]
pub fn destination(operation: Operation, i: &Instruction) -> Option<u8>
    ensures { result ≡ spec.destination_of operation i.now }
{
    match operation {
        Operation::Compute
        | Operation::Negate
        | Operation::Wyde
        | Operation::ConditionalSet
        | Operation::ZeroOrSet
        | Operation::Load(_)
        | Operation::CompareAndSwap
        | Operation::Address
        | Operation::Go
        | Operation::Get => Some(i.x()),
        _ => None,
    }
}
