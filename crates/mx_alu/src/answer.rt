//! What an instruction is given besides its operands, and what it gives.

ghost use Rattle.std.specs.Prelude.{◌≡◌};
ghost use Rattle.mx_alu.specs.Answers as spec;
ghost use Rattle.mx_alu.specs.Numbers.{octa};

/// What an instruction raises: D where it divides by zero, or V where its result is no signed octa, from -2^63 to
/// 2^63 - 1.
#[derive(Clone, Copy, Debug, PartialEq, Eq)]
pub enum Event {
    Divide,
    Overflow,
}

/// The special registers that an instruction reads: the dividend's high half rD and the mask rM.
#[derive(Clone, Copy, Debug)]
pub struct Extra {
    pub d: u64,
    pub m: u64,
}

/// What an instruction gives: its result x, the new rH and rR where it sets them, and the event that it raises, if
/// any.
#[derive(Clone, Copy, Debug, PartialEq, Eq)]
pub struct Answer {
    pub x: u64,
    pub h: Option<u64>,
    pub r: Option<u64>,
    pub event: Option<Event>,
}

impl Answer {
    /// A result alone.
    #[inline(always)]
    pub(crate) fn alone(x: u64) -> Answer
        ensures { result ≡ spec.lone_answer x }
    {
        Answer {
            x,
            h: None,
            r: None,
            event: None,
        }
    }

    /// A result modulo 2^64, with overflow where it does not lie from -2^63 to 2^63 - 1.
    #[inline(always)]
    pub(crate) fn from_signed(v: i128) -> Answer
        ensures { result ≡ spec.checked_answer v }
    {
        Answer {
            x: wrap(v),
            h: None,
            r: None,
            event: overflow(v),
        }
    }
}

/// What is left of a number modulo 2^64.
#[inline(always)]
pub(crate) fn wrap(v: i128) -> u64
    ensures { result ≡ octa v }
{
    (v.cast_unsigned() & 0xffff_ffff_ffff_ffff) as u64
}

/// Overflow where a number does not lie from -2^63 to 2^63 - 1.
#[inline(always)]
pub(crate) fn overflow(v: i128) -> Option<Event>
    ensures { result ≡ spec.overflow v }
{
    match i64::try_from(v) {
        Ok(_) => None,
        Err(_) => Some(Event::Overflow),
    }
}

/// A result modulo 2^64, where it lies from -2^63 to 2^63 - 1.
#[inline(always)]
pub(crate) fn fit_signed(v: i128) -> Option<u64>
    ensures { result ≡ spec.lone_value (spec.checked_answer v) }
{
    match i64::try_from(v) {
        Ok(_) => Some(wrap(v)),
        Err(_) => None,
    }
}

/// The result of an answer that is a result alone.
#[inline(always)]
pub(crate) fn lone(a: &Answer) -> Option<u64>
    ensures { result ≡ spec.lone_value a.now }
{
    match (a.h, a.r, a.event) {
        (None, None, None) => Some(a.x),
        _ => None,
    }
}
