//! The texts of octas.

ghost use Rattle.std.specs.Prelude.{◌≡◌, ◌<◌, ◌≤◌, ◌+◌, ◌/◌, ◌^◌, ◌%◌, ◌∷◌, [], ◌++◌, IfOk, OnErr, OnOk, decimal, map};
ghost use Rattle.std.specs.Fmt.{signed_decimal};
ghost use Rattle.mx_word.specs.Words.{octa_to_bytes};
ghost use Rattle.mx_text.specs.Numbers as spec;

use itoa::Buffer;
use mx_word::{Bytes, NoMemory, octa_bytes, signed};
use std::alloc::Global;

/// The form in which an octa is shown.
#[derive(Clone, Copy, Debug, PartialEq, Eq)]
pub enum Form {
    /// The signed value, in decimal digits.
    Decimal,
    /// `#` and 16 hexadecimal digits.
    Hex,
    /// The eight bytes from the high end between double quotes, each outside 32 to 126 as a dot.
    Chars,
}

/// The two hexadecimal digits of each byte as one number, the first one in its high byte.
static PAIRS: [u16; 256] = [
    0x3030, 0x3031, 0x3032, 0x3033, 0x3034, 0x3035, 0x3036, 0x3037, 0x3038, 0x3039, 0x3061, 0x3062,
    0x3063, 0x3064, 0x3065, 0x3066, 0x3130, 0x3131, 0x3132, 0x3133, 0x3134, 0x3135, 0x3136, 0x3137,
    0x3138, 0x3139, 0x3161, 0x3162, 0x3163, 0x3164, 0x3165, 0x3166, 0x3230, 0x3231, 0x3232, 0x3233,
    0x3234, 0x3235, 0x3236, 0x3237, 0x3238, 0x3239, 0x3261, 0x3262, 0x3263, 0x3264, 0x3265, 0x3266,
    0x3330, 0x3331, 0x3332, 0x3333, 0x3334, 0x3335, 0x3336, 0x3337, 0x3338, 0x3339, 0x3361, 0x3362,
    0x3363, 0x3364, 0x3365, 0x3366, 0x3430, 0x3431, 0x3432, 0x3433, 0x3434, 0x3435, 0x3436, 0x3437,
    0x3438, 0x3439, 0x3461, 0x3462, 0x3463, 0x3464, 0x3465, 0x3466, 0x3530, 0x3531, 0x3532, 0x3533,
    0x3534, 0x3535, 0x3536, 0x3537, 0x3538, 0x3539, 0x3561, 0x3562, 0x3563, 0x3564, 0x3565, 0x3566,
    0x3630, 0x3631, 0x3632, 0x3633, 0x3634, 0x3635, 0x3636, 0x3637, 0x3638, 0x3639, 0x3661, 0x3662,
    0x3663, 0x3664, 0x3665, 0x3666, 0x3730, 0x3731, 0x3732, 0x3733, 0x3734, 0x3735, 0x3736, 0x3737,
    0x3738, 0x3739, 0x3761, 0x3762, 0x3763, 0x3764, 0x3765, 0x3766, 0x3830, 0x3831, 0x3832, 0x3833,
    0x3834, 0x3835, 0x3836, 0x3837, 0x3838, 0x3839, 0x3861, 0x3862, 0x3863, 0x3864, 0x3865, 0x3866,
    0x3930, 0x3931, 0x3932, 0x3933, 0x3934, 0x3935, 0x3936, 0x3937, 0x3938, 0x3939, 0x3961, 0x3962,
    0x3963, 0x3964, 0x3965, 0x3966, 0x6130, 0x6131, 0x6132, 0x6133, 0x6134, 0x6135, 0x6136, 0x6137,
    0x6138, 0x6139, 0x6161, 0x6162, 0x6163, 0x6164, 0x6165, 0x6166, 0x6230, 0x6231, 0x6232, 0x6233,
    0x6234, 0x6235, 0x6236, 0x6237, 0x6238, 0x6239, 0x6261, 0x6262, 0x6263, 0x6264, 0x6265, 0x6266,
    0x6330, 0x6331, 0x6332, 0x6333, 0x6334, 0x6335, 0x6336, 0x6337, 0x6338, 0x6339, 0x6361, 0x6362,
    0x6363, 0x6364, 0x6365, 0x6366, 0x6430, 0x6431, 0x6432, 0x6433, 0x6434, 0x6435, 0x6436, 0x6437,
    0x6438, 0x6439, 0x6461, 0x6462, 0x6463, 0x6464, 0x6465, 0x6466, 0x6530, 0x6531, 0x6532, 0x6533,
    0x6534, 0x6535, 0x6536, 0x6537, 0x6538, 0x6539, 0x6561, 0x6562, 0x6563, 0x6564, 0x6565, 0x6566,
    0x6630, 0x6631, 0x6632, 0x6633, 0x6634, 0x6635, 0x6636, 0x6637, 0x6638, 0x6639, 0x6661, 0x6662,
    0x6663, 0x6664, 0x6665, 0x6666,
];

/// A byte as two hexadecimal digits, in lower case and from the high end.
pub fn byte_hex(b: u8) -> [u8; 2]
    ensures { result ≡ spec.hex_digits 2 b }
{
    let digits = pair(b);
    [(digits / 256) as u8, (digits % 256) as u8]
}

/// The two hexadecimal digits of a byte as one number, the first one in its high byte.
fn pair(b: u8) -> u16
    ensures most { result < 2 ^ 16 }
    ensures digits { result / 256 ∷ result % 256 ∷ [] ≡ spec.hex_digits 2 b }
{
    PAIRS[usize::from(b)]
}

/// The eight hexadecimal digits of a tetra as the bytes of an octa.
fn digits(word: u32) -> u64
    ensures { octa_to_bytes result ≡ spec.hex_digits 8 word }
{
    u64::from(pair((word >> 24) as u8)) * (1 << 48)
        + u64::from(pair(((word >> 16) % 256) as u8)) * (1 << 32)
        + u64::from(pair(((word >> 8) % 256) as u8)) * (1 << 16)
        + u64::from(pair((word % 256) as u8))
}

/// A tetra as eight hexadecimal digits, in lower case and from the high end.
pub fn tetra_hex(word: u32) -> [u8; 8]
    ensures { result ≡ spec.hex_digits 8 word }
{
    octa_bytes(digits(word))
}

/// An octa as `#` and 16 hexadecimal digits, in lower case and from the high end.
pub fn octa_hex(x: u64) -> [u8; 17]
    ensures { result ≡ spec.hex_text x }
{
    let [a, b, c, d, e, f, g, h] = tetra_hex((x >> 32) as u32);
    let [i, j, k, l, m, n, o, p] = tetra_hex((x % (1 << 32)) as u32);
    [b'#', a, b, c, d, e, f, g, h, i, j, k, l, m, n, o, p]
}

/// Adds a number below 1000 in decimal digits.
fn add_short(text: &mut Bytes, n: u32) -> Result<(), NoMemory>
    requires { n < 1000 }
    ensures ok { OnOk result (text.new ≡ text.old ++ decimal n) }
    ensures err { OnErr result (text.new ≡ text.old) }
{
    if n < 10 {
        return text.extend(&one_digit(n));
    }
    if n < 100 {
        return text.extend(&two_digits(n));
    }
    text.extend(&three_digits(n))
}

/// Adds a number in decimal digits, and nothing where there is no memory.
pub fn add_decimal(text: &mut Bytes, n: u64) -> Result<(), NoMemory>
    ensures ok { OnOk result (text.new ≡ text.old ++ decimal n) }
    ensures err { OnErr result (text.new ≡ text.old) }
{
    if n < 1000 {
        return add_short(text, n as u32);
    }
    let mut buffer = Buffer::new();
    text.extend(buffer.format(n).as_bytes())
}

/// The three decimal digits of each byte, one byte after another.
static DECIMALS: [u8; 768] = *b"000001002003004005006007008009010011012013014015016017018019020021\
      022023024025026027028029030031032033034035036037038039040041042043\
      044045046047048049050051052053054055056057058059060061062063064065\
      066067068069070071072073074075076077078079080081082083084085086087\
      088089090091092093094095096097098099100101102103104105106107108109\
      110111112113114115116117118119120121122123124125126127128129130131\
      132133134135136137138139140141142143144145146147148149150151152153\
      154155156157158159160161162163164165166167168169170171172173174175\
      176177178179180181182183184185186187188189190191192193194195196197\
      198199200201202203204205206207208209210211212213214215216217218219\
      220221222223224225226227228229230231232233234235236237238239240241\
      242243244245246247248249250251252253254255";

/// The last decimal digit of a number.
fn last_digit(n: u32) -> u8
    ensures { result ≡ 48 + n % 10 }
{
    b'0' + (n % 10) as u8
}

/// The three decimal digits of a byte, from the high end, zeros at the front included.
#[tactic(auto, using(crate::proofs::Digits::counting))]
pub(crate) fn byte_digits(k: u8) -> [u8; 3]
    ensures { result ≡ (48 + k / 100 % 10) ∷ (48 + k / 10 % 10) ∷ (48 + k % 10) ∷ [] }
{
    let at = 3 * usize::from(k);
    [DECIMALS[at], DECIMALS[at + 1], DECIMALS[at + 2]]
}

/// The decimal digit of a number that has one.
#[tactic(auto, using(crate::proofs::Digits::counting))]
fn one_digit(n: u32) -> [u8; 1]
    requires { n < 10 }
    ensures { result ≡ decimal n }
{
    [last_digit(n)]
}

/// The decimal digits of a number that has two.
#[tactic(auto, using(crate::proofs::Digits::counting))]
fn two_digits(n: u32) -> [u8; 2]
    requires least { 10 ≤ n }
    requires most { n < 100 }
    ensures { result ≡ decimal n }
{
    [last_digit(n / 10), last_digit(n)]
}

/// The decimal digits of a number that has three.
#[tactic(auto, using(crate::proofs::Digits::counting))]
fn three_digits(n: u32) -> [u8; 3]
    requires least { 100 ≤ n }
    requires most { n < 1000 }
    ensures { result ≡ decimal n }
{
    [last_digit(n / 100), last_digit(n / 10), last_digit(n)]
}

/// The text of an octa in one of the forms. It refuses only where it is out of memory.
pub fn shown(alloc: Global, x: u64, form: Form) -> Result<Bytes, NoMemory>
    ensures { IfOk result (λ text. text ≡ spec.shown_text form x) }
{
    match form {
        Form::Decimal => decimal(alloc, x),
        Form::Hex => Bytes::copy(alloc, &octa_hex(x)),
        Form::Chars => chars(alloc, x),
    }
}

/// The signed value of an octa, in decimal digits.
fn decimal(alloc: Global, x: u64) -> Result<Bytes, NoMemory>
    ensures { IfOk result (λ text. text ≡ spec.decimal_text x) }
{
    let mut buffer = Buffer::new();
    Bytes::copy(alloc, buffer.format(signed(x)).as_bytes())
}

/// The eight bytes of an octa between double quotes.
fn chars(alloc: Global, x: u64) -> Result<Bytes, NoMemory>
    ensures { IfOk result (λ text. text ≡ spec.chars_text x) }
{
    let mut text = Bytes::copy(alloc, b"\"")?;
    text.extend(&octa_bytes(x).map(printable_byte))?;
    text.push(b'"')?;
    Ok(text)
}

/// A byte as it is shown: itself from 32 to 126, otherwise a dot.
fn printable_byte(b: u8) -> u8
    ensures { result ≡ spec.shown_byte b }
{
    if 32 <= b && b <= 126 { b } else { b'.' }
}
