//! Octas and tetras as numbers and as bytes.

ghost use Rattle.std.specs.Prelude.{◌≡◌};
ghost use Rattle.mx_word.specs.Words as spec;

/// The signed value of an octa, from -2^63 to 2^63 - 1.
pub fn signed(x: u64) -> i64
    ensures { result ≡ spec.signed_value x }
{
    x.cast_signed()
}

/// The high and the low half of the product of two octas.
pub fn product(x: u64, y: u64) -> (u64, u64)
    ensures { result ≡ spec.product_halves x y }
{
    let whole = u128::from(x) * u128::from(y);
    ((whole >> 64) as u64, (whole & 0xffff_ffff_ffff_ffff) as u64)
}

/// The quotient and the remainder of 2^64 d + y by z; nothing where the quotient is no octa,
/// which is where z <= d.
pub fn quotient(d: u64, y: u64, z: u64) -> Option<(u64, u64)>
    ensures { result ≡ spec.quotient_of d y z }
{
    if z <= d {
        return None;
    }
    let whole = (u128::from(d) << 64) + u128::from(y);
    let z = u128::from(z);
    Some(((whole / z) as u64, (whole % z) as u64))
}

/// The eight bytes of an octa, from the high end.
pub fn octa_bytes(x: u64) -> [u8; 8]
    ensures { result ≡ spec.octa_to_bytes x }
{
    x.to_be_bytes()
}

/// The octa of eight bytes, from the high end.
pub fn octa_of(b: [u8; 8]) -> u64
    ensures { result ≡ spec.octa_from_bytes b }
{
    u64::from_be_bytes(b)
}

/// The four bytes of a tetra, from the high end.
pub fn tetra_bytes(x: u32) -> [u8; 4]
    ensures { result ≡ spec.tetra_to_bytes x }
{
    x.to_be_bytes()
}

/// The tetra of four bytes, from the high end.
pub fn tetra_of(b: [u8; 4]) -> u32
    ensures { result ≡ spec.tetra_from_bytes b }
{
    u32::from_be_bytes(b)
}
