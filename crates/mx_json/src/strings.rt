//! Strings of bytes.

ghost use Rattle.std.specs.Prelude.{◌≡◌, ◌++◌, OnOk, IfOk, string_bytes};
ghost use Rattle.std.specs.List.{flat_map};
ghost use Rattle.std.specs.Str.{is_utf8};
ghost use Rattle.mx_json.specs.Json as spec;

use crate::values::add_between;
use mx_text::byte_hex;
use mx_word::{Bytes, NoMemory};
use std::alloc::Global;

/// Adds a control character.
fn add_control(text: &mut Bytes, b: u8) -> Result<(), NoMemory>
    ensures { OnOk result (text.new ≡ text.old ++ spec.control b) }
{
    if b == 8 {
        return text.extend(b"\\b");
    }
    if b == 9 {
        return text.extend(b"\\t");
    }
    if b == 10 {
        return text.extend(b"\\n");
    }
    if b == 12 {
        return text.extend(b"\\f");
    }
    if b == 13 {
        return text.extend(b"\\r");
    }
    text.extend(b"\\u00")?;
    text.extend(&byte_hex(b))
}

/// Adds a byte of UTF-8, escaped if it has to be.
fn add_escaped(text: &mut Bytes, b: u8) -> Result<(), NoMemory>
    ensures { OnOk result (text.new ≡ text.old ++ spec.escaped b) }
{
    if b == b'"' {
        return text.extend(b"\\\"");
    }
    if b == b'\\' {
        return text.extend(b"\\\\");
    }
    if b < 32 {
        return add_control(text, b);
    }
    text.push(b)
}

/// Adds bytes of UTF-8, escaped where they have to be.
fn add_all_escaped(text: &mut Bytes, bytes: &[u8]) -> Result<(), NoMemory>
    ensures { OnOk result (text.new ≡ text.old ++ flat_map spec.escaped bytes.now) }
{
    for b in bytes {
        add_escaped(text, *b)?;
    }
    Ok(())
}

/// Adds bytes of UTF-8 between quotation marks.
fn add_characters(text: &mut Bytes, bytes: &[u8]) -> Result<(), NoMemory>
    ensures { OnOk result (text.new ≡ text.old ++ spec.quoted (flat_map spec.escaped bytes.now)) }
{
    text.extend(b"\"")?;
    add_all_escaped(text, bytes)?;
    text.extend(b"\"")
}

/// Adds the string of bytes, with U+FFFD where they are no UTF-8.
#[tactic(auto, unfolding(crate::specs::Json::string))]
pub fn add_string(
    alloc: Global,
    text: &mut Bytes,
    front: &[u8],
    bytes: &[u8],
) -> Result<(), NoMemory>
    ensures { OnOk result (text.new ≡ text.old ++ front.now ++ spec.string bytes.now) }
{
    text.extend(front)?;
    let characters = String::from_utf8_lossy(alloc, bytes)?;
    add_characters(text, characters.as_bytes())
}

/// Adds the string of bytes, or `null` in its place.
#[tactic(auto, unfolding(crate::specs::Json::string_if))]
pub fn add_string_if(
    alloc: Global,
    text: &mut Bytes,
    front: &[u8],
    bytes: &Option<Bytes>,
) -> Result<(), NoMemory>
    ensures { OnOk result (text.new ≡ text.old ++ front.now ++ spec.string_if bytes.now) }
{
    match bytes {
        None => add_between(text, front, b"null", b""),
        Some(bytes) => add_string(alloc, text, front, bytes.as_slice()),
    }
}

/// Adds bytes as hexadecimal digits.
fn add_hex(text: &mut Bytes, bytes: &[u8]) -> Result<(), NoMemory>
    ensures { OnOk result (text.new ≡ text.old ++ spec.hex_of bytes.now) }
{
    for b in bytes {
        text.extend(&byte_hex(*b))?;
    }
    Ok(())
}

/// Whether bytes are UTF-8.
fn is_text(bytes: &[u8]) -> bool
    ensures { result ≡ is_utf8 bytes.now }
{
    match str::from_utf8(bytes) {
        Ok(_) => true,
        Err(_) => false,
    }
}

/// Begins an object that has these bytes as a text: where they are no UTF-8, it has them as hexadecimal digits, too, under the
/// name `bytes`.
#[tactic(auto, unfolding(crate::specs::Json::object_of))]
pub fn add_object(text: &mut Bytes, bytes: &[u8]) -> Result<(), NoMemory>
    ensures { OnOk result (text.new ≡ text.old ++ spec.object_of bytes.now) }
{
    if is_text(bytes) {
        return text.extend(b"{");
    }
    text.extend(b"{\"bytes\":\"")?;
    add_hex(text, bytes)?;
    text.extend(b"\",")
}
