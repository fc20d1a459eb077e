//! The parts of an octa that are stored by themselves.

ghost use Rattle.std.specs.Prelude.{◌≡◌, ◌≢◌, ◌<◌, ◌-◌, ◌*◌, ◌%◌, ◌^◌, ℕ};
ghost use Rattle.mx_mem.specs.Memory.{tetra_of};
ghost use Rattle.mx_mem.specs.Parts.{size_of, bits_below};
ghost use Rattle.mx_mem.specs.Parts as spec;

/// A part of an octa: 1, 2, 4 or 8 bytes, at a multiple of as many.
#[derive(Clone, Copy, Debug, PartialEq, Eq)]
pub enum Part {
    Byte,
    Wyde,
    Tetra,
    Octa,
}

impl Part {
    /// How many bits of an octa are below the part where an address lies: a multiple of 8.
    #[inline(always)]
    pub fn bits_below(self, a: u64) -> u64
        ensures value { result ≡ bits_below self a }
        ensures shift { result < 64 }
    {
        match self {
            Part::Byte => 8 * (7 - a % 8),
            Part::Wyde => 8 * (6 - a % 8 / 2 * 2),
            Part::Tetra => 8 * (4 - a % 8 / 4 * 4),
            Part::Octa => 0,
        }
    }

    /// The bits of the part, at the low end.
    #[inline(always)]
    pub fn mask(self) -> u64
        ensures { result ≡ 2 ^ (8 * size_of self) - 1 }
    {
        match self {
            Part::Byte => 0xff,
            Part::Wyde => 0xffff,
            Part::Tetra => 0xffff_ffff,
            Part::Octa => u64::MAX,
        }
    }
}

/// A tetra with the low bytes of `x` in place of the part where an address lies, which is within the tetra.
#[inline(always)]
pub(crate) fn tetra_with(part: Part, t: u32, a: u64, x: u64) -> u32
    requires { part ≢ Part.Octa }
    ensures { (octa : ℕ) → t ≡ tetra_of octa a →
        spec.with_part Part.Tetra octa a result ≡ spec.with_part part octa a x }
{
    low_tetra(with_part(part, u64::from(t), 4 + a % 4, x))
}

/// The low tetra of an octa.
#[inline(always)]
fn low_tetra(x: u64) -> u32
    ensures { result ≡ x % 2 ^ 32 }
{
    (x & 0xffff_ffff) as u32
}

/// An octa with the low bytes of `x` in place of the part where an address lies.
#[inline(always)]
pub fn with_part(part: Part, octa: u64, a: u64, x: u64) -> u64
    ensures { result ≡ spec.with_part part octa a x }
{
    let below = part.bits_below(a);
    let mask = part.mask();
    octa - ((octa >> below & mask) << below) + ((x & mask) << below)
}
