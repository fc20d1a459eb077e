//! What hexadecimal digits count.

ghost use Rattle.std.specs.Prelude.{◌≡◌, ◌<◌, IsTrue};
ghost use Rattle.mx_expr.specs.Bytes as spec;

use mx_word::is_digit;

/// What a hexadecimal digit counts.
pub(crate) fn digit_value(b: u8) -> u8
    requires { IsTrue (spec.is_hexadecimal b) }
    ensures value { result ≡ spec.digit_value b }
    ensures few { result < 16 }
{
    if is_digit(b) {
        b - b'0'
    } else if b'a' <= b && b <= b'f' {
        b - b'a' + 10
    } else {
        b - b'A' + 10
    }
}
