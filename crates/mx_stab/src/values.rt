//! Values and serial numbers as a reader finds them.

ghost use Rattle.std.specs.Prelude.{◌≡◌, ◌≤◌, ◌<◌, ◌+◌, ◌*◌, ◌^◌, length, IfSome};
ghost use Rattle.std.specs.Option.{option_map};
ghost use Rattle.mx_stab.specs.Due as notes;
ghost use Rattle.mx_stab.specs.Grammar as grammar;
ghost use Rattle.mx_stab.specs.Reading as spec;

use mx_word::Value;

/// Serial numbers from here on are too large.
pub const TOO_LARGE: u64 = 0x1_0000_0000;

/// How many bytes give a value of a kind.
pub fn value_size(kind: u8) -> usize
    requires { kind < 16 }
    ensures value { result ≡ spec.value_size kind }
    ensures most { result ≤ 8 }
{
    if kind == 15 {
        1
    } else if kind <= 8 {
        usize::from(kind)
    } else {
        usize::from(kind - 8)
    }
}

/// The number that one more byte gives.
fn with_byte(x: u64, b: u8) -> u64
    requires { x < 2 ^ 56 }
    ensures value { result ≡ x * 256 + b }
    ensures most { result < x * 256 + 256 }
{
    x * 256 + u64::from(b)
}

/// The number that bytes give.
fn number_of_bytes(bytes: &[u8]) -> u64
    requires { length bytes.now ≤ 8 }
    ensures value { result ≡ grammar.number 256 bytes.now }
    ensures most { result < 256 ^ length bytes.now }
{
    let mut x: u64 = 0;
    let mut rest = bytes;
    while let [b, more @ ..] = rest {
        x = with_byte(x, *b);
        rest = more;
    }
    x
}

/// The value of a kind that these bytes give.
pub fn value_of_kind(kind: u8, bytes: &[u8]) -> Value
    requires kind { kind < 16 }
    requires size { length bytes.now ≡ spec.value_size kind }
    ensures { result ≡ spec.value_of kind bytes.now }
{
    if kind == 15 {
        Value::Reg(bytes[0])
    } else if kind <= 8 {
        Value::Pure(number_of_bytes(bytes))
    } else {
        Value::Pure(0x2000_0000_0000_0000 + number_of_bytes(bytes))
    }
}

/// A serial number at the front of bytes, and the bytes after it. One from 2^32 on counts as 2^32.
pub fn split_serial(bytes: &[u8]) -> Option<(u64, &[u8])>
    ensures value { option_map (λ r. (r.0, r.1.now)) result ≡ notes.serial_cap (spec.serial_after 0 bytes.now) }
    ensures fewer { IfSome result (λ r. length r.1.now ≤ length bytes.now) }
{
    let mut x: u64 = 0;
    let mut rest = bytes;
    while let [b, more @ ..] = rest {
        rest = more;
        if *b >= 128 {
            return Some(((x * 128 + u64::from(*b - 128)).min(TOO_LARGE), rest));
        }
        x = (x * 128 + u64::from(*b)).min(TOO_LARGE);
    }
    None
}
