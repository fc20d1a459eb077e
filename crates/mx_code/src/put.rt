//! PUT to a special register.

ghost use Rattle.std.specs.Prelude.{◌≡◌, ◌<◌};
ghost use Rattle.mx_code.specs.Puts as spec;

use mx_ops::codes::{RA, RG, RL};

/// What PUT comes to: the value that the register gets; it is illegal, as no PUT changes the register
/// or it does not take the value; or it is privileged, as the register belongs to the operating system.
#[derive(Clone, Copy, Debug, PartialEq, Eq)]
pub enum Put {
    Store(u64),
    Illegal,
    Privileged,
}

/// What PUT of a value to the special register with a code below 32 comes to, where rL is l; no rule asks for rG,
/// which is _g. Codes 9 to 11 are illegal, and 8 and 12 to 18 privileged. rA takes at most #3ffff, and rG takes 32 to
/// 255 and not below rL; another value is illegal. rL takes the smaller of its own value and the new one. Every other
/// register takes any value.
pub fn may_put(code: u8, value: u64, _g: u8, l: u8) -> Put
    requires { code < 32 }
    ensures { result ≡ spec.put_of code value _g l }
{
    match code {
        9..=11 => Put::Illegal,
        8 | 12..=18 => Put::Privileged,
        _ if is_out_of_range(code, value, l) => Put::Illegal,
        RL => Put::Store(value.min(u64::from(l))),
        _ => Put::Store(value),
    }
}

/// Whether a register does not take a value, where rL is l.
fn is_out_of_range(code: u8, value: u64, l: u8) -> bool
    ensures { result ≡ spec.is_out_of_range code value l }
{
    match code {
        RA => value > 0x3_ffff,
        RG => value < 32 || value > 255 || value < u64::from(l),
        _ => false,
    }
}
