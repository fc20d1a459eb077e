//! The tetras that a spec skips.

ghost use Rattle.std.specs.Prelude.{◌≡◌, ◌≤◌, ◌-◌, ◌∷◌, [], true, false, Some, IfSome, length, take, drop};
ghost use Rattle.mx_mmo.specs.Skipping as spec;

/// How far the tetras after a spec were looked through, so that none is looked at twice: this many
/// bytes are skipped, and whether the tetra after them is quoted.
#[derive(Clone, Copy, Debug, PartialEq, Eq)]
pub struct Scan {
    pub size: usize,
    pub quoted: bool,
}

impl Scan {
    /// Nothing was looked at.
    pub fn new() -> Scan
        ensures size { result.size ≡ 0 }
        ensures quoted { result.quoted ≡ false }
    {
        Scan {
            size: 0,
            quoted: false,
        }
    }
}

/// Whether the tetra after this one is quoted; nothing where this one ends a spec.
fn quote_after(quoted: bool, a: u8, code: u8, y: u8, z: u8) -> Option<bool>
    ensures { result ≡ spec.quote_after quoted a code y z }
{
    if quoted || a != 0x98 {
        Some(false)
    } else if code == 0 && y == 0 && z == 1 {
        Some(true)
    } else {
        None
    }
}

/// How many bytes are before the lopcode that ends a spec, where it is there. What was looked at
/// before is not looked at again.
pub fn skip(scan: &mut Scan, more: &[u8]) -> Option<usize>
    requires within { scan.old.size ≤ length more.now }
    requires looked { spec.quoted_after false (take scan.old.size more.now) ≡ Some scan.old.quoted }
    ensures size { result ≡ spec.skipped false more.now }
    ensures there { IfSome result (λ size. size ≤ length more.now) }
    ensures within { scan.new.size ≤ length more.now }
    ensures looked { spec.quoted_after false (take scan.new.size more.now) ≡ Some scan.new.quoted }
{
    let mut rest = &more[scan.size..];
    while let [a, code, y, z, others @ ..] = rest {
        match quote_after(scan.quoted, *a, *code, *y, *z) {
            Some(quoted) => {
                scan.size += 4;
                scan.quoted = quoted;
            }
            None => return Some(scan.size),
        }
        rest = others;
    }
    None
}
