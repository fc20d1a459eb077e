//! The parts of an octa that are loaded and stored by themselves.

ghost use Rattle.std.specs.Prelude.{◌≡◌, ◌≢◌, ℕ, ◌<◌, ◌-◌, ◌*◌, ◌^◌, None, Some, if◌then◌else◌};
ghost use Rattle.mx_alu.specs.declared.answer.Event.TheVariants.{Overflow};
ghost use Rattle.mx_mem.specs.Memory.{tetra_of};
ghost use Rattle.mx_mem.specs.Parts.{size_of};
ghost use Rattle.mx_mem.specs.Parts as parts;
ghost use Rattle.mx_code.specs.LoadsAndStores as spec;

use crate::operation::{Loading, Storing};
use crate::trace::Touch;
use mx_mem::Part;

/// How many bytes a part has.
#[inline(always)]
fn size(part: Part) -> u64
    ensures value { result ≡ size_of part }
    ensures byte { result < 9 }
    ensures some { 0 < result }
{
    match part {
        Part::Byte => 1,
        Part::Wyde => 2,
        Part::Tetra => 4,
        Part::Octa => 8,
    }
}

/// The touch of the part that holds an address: its own address, a multiple of its size, and its size, from 1 to 8.
#[inline(always)]
pub fn touch_of(a: u64, part: Part) -> Touch
    ensures { result ≡ spec.touch a part }
{
    Touch {
        at: a / size(part) * size(part),
        size: size(part) as u8,
    }
}

/// The part of an octa where an address lies.
#[inline(always)]
fn part_of(part: Part, octa: u64, a: u64) -> u64
    ensures value { result ≡ parts.part_of part octa a }
    ensures range { result < 2 ^ (8 * size_of part) }
{
    octa >> part.bits_below(a) & part.mask()
}

/// The least number that is a negative one in a part.
#[inline(always)]
fn half(part: Part) -> u64
    ensures { result ≡ 2 ^ (8 * size_of part - 1) }
{
    match part {
        Part::Byte => 0x80,
        Part::Wyde => 0x8000,
        Part::Tetra => 0x8000_0000,
        Part::Octa => 0x8000_0000_0000_0000,
    }
}

/// A part as a signed number, in an octa.
#[inline(always)]
fn sign_extend(part: Part, v: u64) -> u64
    requires { v < 2 ^ (8 * size_of part) }
    ensures { result ≡ spec.sign_extended part v }
{
    match part {
        Part::Byte => ((v + 0x80) % 0x100).wrapping_sub(0x80),
        Part::Wyde => ((v + 0x8000) % 0x1_0000).wrapping_sub(0x8000),
        Part::Tetra => ((v + 0x8000_0000) % 0x1_0000_0000).wrapping_sub(0x8000_0000),
        Part::Octa => v,
    }
}

/// The part that is loaded.
#[inline(always)]
pub fn part_of_load(how: Loading) -> Part
    ensures { result ≡ spec.loaded_part how }
{
    match how {
        Loading::Signed(part) | Loading::Unsigned(part) => part,
        Loading::HighTetra => Part::Tetra,
    }
}

/// The value that is loaded of the octa that holds an address.
#[inline(always)]
pub fn extract_loaded(how: Loading, octa: u64, a: u64) -> u64
    ensures { result ≡ spec.loaded_value how octa a }
{
    match how {
        Loading::Signed(part) => sign_extend(part, part_of(part, octa, a)),
        Loading::Unsigned(part) => part_of(part, octa, a),
        Loading::HighTetra => part_of(Part::Tetra, octa, a) << 32,
    }
}

/// The value that a load of a byte, a wyde or a tetra takes of the tetra that holds the address.
#[tactic(auto, using(crate::proofs::Tetras::tetras))]
#[inline(always)]
pub fn extract_loaded_tetra(how: Loading, t: u32, a: u64) -> u64
    requires { spec.loaded_part how ≢ Part.Octa }
    ensures { (x : ℕ) → t ≡ tetra_of x a → result ≡ spec.loaded_value how x a }
{
    extract_loaded(how, u64::from(t), 4 + a % 4)
}

/// The part that is stored into.
#[inline(always)]
pub fn part_of_store(how: Storing) -> Part
    ensures { result ≡ spec.stored_part how }
{
    match how {
        Storing::Signed(part) | Storing::Unsigned(part) => part,
        Storing::HighTetra => Part::Tetra,
        Storing::Constant => Part::Octa,
    }
}

/// The value whose low bytes are stored, of $X and the byte X.
#[inline(always)]
pub fn convert_stored(how: Storing, x: u64, byte: u8) -> u64
    ensures { result ≡ spec.stored_value how x byte }
{
    match how {
        Storing::Signed(_) | Storing::Unsigned(_) => x,
        Storing::HighTetra => x >> 32,
        Storing::Constant => u64::from(byte),
    }
}

/// Whether a store loses a sign, which is an overflow.
#[inline(always)]
pub fn is_store_overflow(how: Storing, x: u64) -> bool
    ensures { spec.stored_event how x ≡ (if result then Some Overflow else None) }
{
    match how {
        Storing::Signed(part) => half(part) <= x && x < u64::MAX - half(part) + 1,
        _ => false,
    }
}
