//! Instructions as they are carried out.

ghost use Rattle.std.specs.Prelude.{◌≡◌, ◌<◌, ◌^◌};
ghost use Rattle.mx_code.specs.Instructions as spec;

use crate::codes::operation_of;
use crate::operation::Operation;
use mx_ops::is_backward;

/// How far a backward address of 16 and of 24 bits begins after its instruction, modulo 2^64.
const NEAR_BACK: u64 = 0xffff_ffff_fffc_0000;

const FAR_BACK: u64 = 0xffff_ffff_fc00_0000;

/// A tetra as an instruction, at the address where it is or, where RESUME inserts it, as if it
/// were there; with the operands y and z, where RESUME gives them.
#[derive(Clone, Copy)]
pub struct Instruction {
    pub at: u64,
    pub word: u32,
    pub given: Option<(u64, u64)>,
}

impl Instruction {
    /// An instruction of a program: any tetra, at any address.
    #[inline(always)]
    pub fn new(at: u64, word: u32) -> Instruction
        ensures { result ≡ spec.instruction at word }
    {
        Instruction {
            at,
            word,
            given: None,
        }
    }

    /// An instruction of a program, once its code is known: where that is a literal, what is done at it is settled
    /// when the program is compiled.
    #[inline(always)]
    pub fn with_code(at: u64, code: u8, word: u32) -> Instruction
        requires { code ≡ spec.code_of (spec.instruction at word) }
        ensures { result ≡ spec.instruction at word }
    {
        Instruction::new(at, (u32::from(code) << 24) + (word & 0xff_ffff))
    }

    /// The code OP.
    #[inline(always)]
    pub fn code(&self) -> u8
        ensures { result ≡ spec.code_of self.now }
    {
        (self.word >> 24 & 0xff) as u8
    }

    /// What it does.
    #[inline(always)]
    pub fn operation(&self) -> Operation
        ensures { result ≡ spec.operation_in self.now }
    {
        operation_of(self.code())
    }

    /// The field X.
    #[inline(always)]
    pub fn x(&self) -> u8
        ensures { result ≡ spec.x_of self.now }
    {
        (self.word >> 16 & 0xff) as u8
    }

    /// The field Y.
    #[inline(always)]
    pub fn y(&self) -> u8
        ensures { result ≡ spec.y_of self.now }
    {
        (self.word >> 8 & 0xff) as u8
    }

    /// The field Z.
    #[inline(always)]
    pub fn z(&self) -> u8
        ensures { result ≡ spec.z_of self.now }
    {
        (self.word & 0xff) as u8
    }

    /// The field YZ.
    #[inline(always)]
    pub fn yz(&self) -> u64
        ensures value { result ≡ spec.yz_of self.now }
        ensures range { result < 2 ^ 16 }
    {
        u64::from(self.word & 0xffff)
    }

    /// The field XYZ.
    #[inline(always)]
    pub fn xyz(&self) -> u64
        ensures value { result ≡ spec.xyz_of self.now }
        ensures range { result < 2 ^ 24 }
    {
        u64::from(self.word & 0xff_ffff)
    }

    /// The address of the instruction after it.
    #[inline(always)]
    pub fn next(&self) -> u64
        ensures { result ≡ spec.next_of self.now }
    {
        self.at.wrapping_add(4)
    }

    /// The address that YZ means, this many tetras from it.
    #[inline(always)]
    pub fn near_address(&self) -> u64
        ensures { result ≡ spec.near_address self.now }
    {
        if is_backward(self.code()) {
            self.at.wrapping_add(NEAR_BACK + 4 * self.yz())
        } else {
            self.at.wrapping_add(4 * self.yz())
        }
    }

    /// The address that XYZ means, this many tetras from it.
    #[inline(always)]
    pub fn far_address(&self) -> u64
        ensures { result ≡ spec.far_address self.now }
    {
        if is_backward(self.code()) {
            self.at.wrapping_add(FAR_BACK + 4 * self.xyz())
        } else {
            self.at.wrapping_add(4 * self.xyz())
        }
    }
}
