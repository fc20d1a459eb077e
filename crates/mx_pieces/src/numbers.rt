//! Numbers as they are shown.

ghost use Rattle.std.specs.Prelude.{◌≤◌};

use mx_text::{add_decimal, octa_hex};
use mx_word::{Bytes, NoMemory, octa_bytes};

/// Numbers with more decimal digits than this one are shown in hexadecimal digits.
const SHORT: u64 = 999_999_999_999;

/// Whether the signed value of an octa has few digits.
pub fn is_short(x: u64) -> bool {
    x <= SHORT || 0u64.wrapping_sub(x) <= SHORT
}

/// Adds the signed value of an octa in decimal digits.
pub fn add_signed(text: &mut Bytes, x: u64) -> Result<(), NoMemory> {
    if x < 1 << 63 {
        return add_decimal(text, x);
    }
    text.push(b'-')?;
    add_decimal(text, 0u64.wrapping_sub(x))
}

/// How many of the 16 hexadecimal digits of an octa are zeros that may be left out.
fn zeros_before(x: u64) -> usize
    ensures { result ≤ 15 }
{
    let zeros = x.leading_zeros() / 4;
    if zeros < 15 { zeros as usize } else { 15 }
}

/// Adds `#` and the hexadecimal digits of an octa without zeros in front.
pub fn add_short_hex(text: &mut Bytes, x: u64) -> Result<(), NoMemory> {
    let digits = octa_hex(x);
    text.push(b'#')?;
    text.extend(&digits[1 + zeros_before(x)..])
}

/// A byte as it is shown: itself from 32 to 126, otherwise a dot.
fn printable_byte(b: u8) -> u8 {
    if 32 <= b && b <= 126 { b } else { b'.' }
}

/// Adds the eight bytes of an octa between quotation marks.
pub fn add_octa_text(text: &mut Bytes, x: u64) -> Result<(), NoMemory> {
    text.push(b'"')?;
    text.extend(&octa_bytes(x).map(printable_byte))?;
    text.push(b'"')
}
