//! Which code of its name a code is.

ghost use Rattle.std.specs.Prelude.{◌≡◌};
ghost use Rattle.mx_ops.specs.Opcodes as spec;

/// Whether Z is an immediate byte at the code: at the second codes of the rows from FLOT, MUL, CSN
/// and PUT on.
#[tactic(auto, using(crate::proofs::SecondCodes::immediates))]
#[inline(always)]
pub fn is_immediate(code: u8) -> bool
    ensures { result ≡ spec.is_immediate (spec.opcode_kind code) }
{
    code % 2 == 1 && matches!(code, 0x08..=0x0f | 0x18..=0x3f | 0x60..=0xdf | 0xf6..=0xf7)
}

/// Whether the code is for a backward address: at the second codes of branches, JMP, PUSHJ and GETA.
#[tactic(auto, using(crate::proofs::SecondCodes::backwards))]
#[inline]
pub fn is_backward(code: u8) -> bool
    ensures { result ≡ spec.is_backward (spec.opcode_kind code) }
{
    code % 2 == 1 && matches!(code, 0x40..=0x5f | 0xf0..=0xf5)
}
