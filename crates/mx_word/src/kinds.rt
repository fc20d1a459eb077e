//! The kinds of bytes of the source language (MMIXware, MMIXAL, "The symbol table": letters and
//! digits).

ghost use Rattle.std.specs.Prelude.{◌≡◌};
ghost use Rattle.mx_word.specs.Kinds as spec;

/// Whether a byte is a decimal digit.
pub fn is_digit(b: u8) -> bool
    ensures { result ≡ spec.is_digit b }
{
    b'0' <= b && b <= b'9'
}

/// Whether a byte is a hexadecimal digit, in either case.
pub fn is_hexadecimal(b: u8) -> bool
    ensures { result ≡ spec.is_hexadecimal b }
{
    is_digit(b) || (b'a' <= b && b <= b'f') || (b'A' <= b && b <= b'F')
}

/// Whether a byte is a letter: `A` to `Z`, `a` to `z`, `:`, `_` or a byte above 126.
pub fn is_letter(b: u8) -> bool
    ensures { result ≡ spec.is_letter b }
{
    (b'A' <= b && b <= b'Z') || (b'a' <= b && b <= b'z') || b == b':' || b == b'_' || 126 < b
}

/// Whether a byte is a letter or a digit.
pub fn is_name_byte(b: u8) -> bool
    ensures { result ≡ spec.is_name_byte b }
{
    is_letter(b) || is_digit(b)
}
