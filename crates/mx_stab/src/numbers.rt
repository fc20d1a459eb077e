//! Values and serial numbers in the fewest bytes.

ghost use Rattle.std.specs.Prelude.{◌≡◌, ◌≤◌, ◌<◌, ◌++◌, length, OnOk};
ghost use Rattle.mx_stab.specs.Numbers as spec;

use mx_word::{NoMemory, Value, octa_bytes};

/// Digits without the zeros in front; the last digit stays.
fn fewest_digits(digits: &[u8]) -> &[u8]
    ensures value { result.now ≡ spec.fewest_digits digits.now }
    ensures fewer { length result.now ≤ length digits.now }
{
    let mut rest = digits;
    while let [first, _, ..] = rest {
        if *first != 0 {
            return rest;
        }
        rest = &rest[1..];
    }
    rest
}

/// Adds bytes at the end.
fn append(bytes: &mut Vec<u8>, from: &[u8]) -> Result<(), NoMemory>
    ensures { OnOk result (bytes.new.items ≡ bytes.old.items ++ from.now) }
{
    bytes.extend_from_slice(from)?;
    Ok(())
}

/// Whether a pure value is given by what it exceeds 2^61 by.
fn is_offset(x: u64) -> bool
    ensures { result ≡ spec.is_offset x }
{
    0x2000_0000_0000_0000 <= x && x < 0x2001_0000_0000_0000
}

/// How many bytes give an octa, from 1 to 8.
fn octa_size(x: u64) -> u8
    ensures value { result ≡ length (spec.octa_digits x) }
    ensures most { result ≤ 8 }
{
    fewest_digits(&octa_bytes(x)).len() as u8
}

/// The kind of a value, from 1 to 15.
pub fn kind(value: Value) -> u8
    ensures value { result ≡ spec.kind value }
    ensures most { result < 17 }
{
    match value {
        Value::Pure(x) => {
            if is_offset(x) {
                8 + octa_size(x - 0x2000_0000_0000_0000)
            } else {
                octa_size(x)
            }
        }
        Value::Reg(_) => 15,
    }
}

/// Adds the bytes of a value.
pub fn append_value(bytes: &mut Vec<u8>, value: Value) -> Result<(), NoMemory>
    ensures { OnOk result (bytes.new.items ≡ bytes.old.items ++ spec.value_bytes value) }
{
    match value {
        Value::Pure(x) => {
            if is_offset(x) {
                append(bytes, fewest_digits(&octa_bytes(x - 0x2000_0000_0000_0000)))
            } else {
                append(bytes, fewest_digits(&octa_bytes(x)))
            }
        }
        Value::Reg(k) => append(bytes, &[k]),
    }
}

/// Adds a serial number in base 128, with #80 added to its last digit.
pub fn append_serial(bytes: &mut Vec<u8>, x: u32) -> Result<(), NoMemory>
    ensures { OnOk result (bytes.new.items ≡ bytes.old.items ++ spec.serial_bytes x) }
{
    let digits = [
        (x / 0x1000_0000) as u8,
        (x / 0x20_0000 % 128) as u8,
        (x / 0x4000 % 128) as u8,
        (x / 128 % 128) as u8,
        (x % 128) as u8 + 128,
    ];
    append(bytes, fewest_digits(&digits))
}
