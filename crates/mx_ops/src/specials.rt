//! The special registers by their names.

ghost use Rattle.std.specs.Prelude.{◌≡◌, ◌<◌, ◌∷◌, length, IfSome, position, bytes_eq};
ghost use Rattle.mx_ops.specs.Predefined as spec;

/// The names of the special registers, by their codes.
static SPECIAL_NAMES: [&str; 32] = [
    "rB", "rD", "rE", "rH", "rJ", "rM", "rR", "rBB", "rC", "rN", "rO", "rS", "rI", "rT", "rTT",
    "rK", "rQ", "rU", "rV", "rG", "rL", "rA", "rF", "rP", "rW", "rX", "rY", "rZ", "rWW", "rXX",
    "rYY", "rZZ",
];

/// The code of a special register by its name without the r; None where no register has the name.
pub fn special_code(bare: &[u8]) -> Option<u8>
    ensures { result ≡ spec.special_code bare.now }
{
    match place_of(SPECIAL_NAMES.as_slice(), bare) {
        Some(place) => Some(place as u8),
        None => None,
    }
}

/// The place of a name, which is given without the r.
fn place_of(names: &[&str], bare: &[u8]) -> Option<usize>
    ensures value { result ≡ position (λ own. bytes_eq own.now (114 ∷ bare.now)) names.now }
    ensures range { IfSome result (λ p. p < length names.now) }
{
    names.iter().position(|own| is_after_r(own, bare))
}

/// Whether a name is an r and then these bytes.
fn is_after_r(name: &str, bare: &[u8]) -> bool
    ensures { result ≡ bytes_eq name.now (114 ∷ bare.now) }
{
    match name.as_bytes() {
        [first, rest @ ..] => *first == b'r' && rest == bare,
        [] => false,
    }
}

/// The name of the special register with a code below 32: `rB` for 0, `rZZ` for 31.
pub fn special_name(code: u8) -> &'static str
    requires { code < 32 }
    ensures { result.now ≡ spec.special_name code }
{
    SPECIAL_NAMES.as_slice()[usize::from(code)]
}
