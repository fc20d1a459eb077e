//! The fields of a tetra: the code, X, Y and Z, each a byte (MMIXware, section 1.1, "instructions").

ghost use Rattle.std.specs.Prelude.{◌≡◌};
ghost use Rattle.mx_text.specs.Instructions as spec;

/// The code.
pub(crate) fn code(word: u32) -> u8
    ensures { result ≡ spec.field_code word }
{
    (word >> 24) as u8
}

/// X.
pub(crate) fn x(word: u32) -> u8
    ensures { result ≡ spec.field_x word }
{
    ((word >> 16) % 256) as u8
}

/// Y.
pub(crate) fn y(word: u32) -> u8
    ensures { result ≡ spec.field_y word }
{
    ((word >> 8) % 256) as u8
}

/// Z.
pub(crate) fn z(word: u32) -> u8
    ensures { result ≡ spec.field_z word }
{
    (word % 256) as u8
}

/// Y and Z as one number.
pub(crate) fn yz(word: u32) -> u32
    ensures { result ≡ spec.field_yz word }
{
    word % 0x1_0000
}

/// X, Y and Z as one number.
pub(crate) fn xyz(word: u32) -> u32
    ensures { result ≡ spec.field_xyz word }
{
    word % 0x100_0000
}
