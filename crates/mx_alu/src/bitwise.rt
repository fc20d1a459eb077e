//! Logic, differences of fields, and matrices of bits.

ghost use Rattle.std.specs.Prelude.{◌≡◌, ◌+◌, ◌*◌, ◌/◌, ◌%◌, ◌^◌, ◌<◌, ◌≤◌, bit_or, bit_xor, if◌then◌else◌};
ghost use Rattle.mx_alu.specs.Bitwise as spec;
ghost use Rattle.mx_alu.specs.Numbers.{bit, field, fields};

use crate::names::Bitwise;

/// The octa that the instruction of this name gives; m is rM.
#[tactic(auto, using(crate::proofs::Logic::logic))]
#[inline(always)]
pub(crate) fn perform(name: Bitwise, y: u64, z: u64, m: u64) -> u64
    ensures { result ≡ spec.bitwise name y z m }
{
    match name {
        Bitwise::Or => y | z,
        Bitwise::Orn => y | !z,
        Bitwise::Nor => !(y | z),
        Bitwise::Xor => y ^ z,
        Bitwise::And => y & z,
        Bitwise::Andn => y & !z,
        Bitwise::Nand => !(y & z),
        Bitwise::Nxor => !(y ^ z),
        Bitwise::Bdif => differences(8, y, z),
        Bitwise::Wdif => differences(16, y, z),
        Bitwise::Tdif => differences(32, y, z),
        Bitwise::Odif => y.saturating_sub(z),
        Bitwise::Mux => (y & m) | (z & !m),
        Bitwise::Sadd => u64::from((y & !z).count_ones()),
        Bitwise::Mor => matrix_or(y, z),
        Bitwise::Mxor => matrix_xor(y, z),
    }
}

/// In each field of this many bits the difference, or 0 where it is negative.
#[tactic(auto, using(crate::proofs::Places::differ_steps))]
fn differences(width: u32, y: u64, z: u64) -> u64
    requires { spec.IsFieldWidth width }
    ensures { result ≡ spec.differences width y z }
{
    let mut x = 0;
    for i in 0..64 / width {
        let place = width * i;
        let difference = field(width, place, y).saturating_sub(field(width, place, z));
        x |= difference << place;
    }
    x
}

/// The field of this many bits that begins at a place.
#[tactic(auto, using(crate::proofs::Places::differ_steps))]
fn field(width: u32, place: u32, x: u64) -> u64
    requires positive { 0 < width }
    requires within { width ≤ 64 }
    requires start { place < 64 }
    ensures { result ≡ x / 2 ^ place % 2 ^ width }
{
    (x >> place) & (u64::MAX >> (64 - width))
}

/// Byte i is the or of the bytes k of y for which bit k of byte i of z is 1.
#[tactic(auto, using(crate::proofs::Places::matrix_steps))]
fn matrix_or(y: u64, z: u64) -> u64
    ensures { result ≡ spec.matrix bit_or y z }
{
    let mut x = 0;
    for k in 0..8 {
        x |= select_bytes(y, z, k);
    }
    x
}

/// Byte i is the exclusive or of the bytes k of y for which bit k of byte i of z is 1.
#[tactic(auto, using(crate::proofs::Places::matrix_steps))]
fn matrix_xor(y: u64, z: u64) -> u64
    ensures { result ≡ spec.matrix bit_xor y z }
{
    let mut x = 0;
    for k in 0..8 {
        x ^= select_bytes(y, z, k);
    }
    x
}

/// Byte k of y in each byte for which bit k of that byte of z is 1.
#[tactic(auto, using(crate::proofs::Places::matrix_steps))]
fn select_bytes(y: u64, z: u64, k: u32) -> u64
    requires { k < 8 }
    ensures { result ≡ fields 8 8 (λ i. if bit z (8 * i + k) then field 8 y k else 0) }
{
    let ones = (z >> k) & 0x0101_0101_0101_0101;
    ones * field(8, 8 * k, y)
}
