//! Numbers, flags, and texts that need no escape.

ghost use Rattle.std.specs.Prelude.{◌≡◌, ◌++◌, OnOk, decimal};
ghost use Rattle.mx_json.specs.Json as spec;

use mx_text::add_decimal;
use mx_word::{Bytes, NoMemory};

/// Adds three texts, one after another.
pub fn add_between(
    text: &mut Bytes,
    front: &[u8],
    middle: &[u8],
    end: &[u8],
) -> Result<(), NoMemory>
    ensures { OnOk result (text.new ≡ text.old ++ front.now ++ middle.now ++ end.now) }
{
    text.extend(front)?;
    text.extend(middle)?;
    text.extend(end)
}

/// Adds a text between quotation marks. It has no character that is escaped.
pub fn add_quoted(text: &mut Bytes, front: &[u8], plain: &[u8]) -> Result<(), NoMemory>
    ensures { OnOk result (text.new ≡ text.old ++ front.now ++ spec.quoted plain.now) }
{
    text.extend(front)?;
    add_between(text, b"\"", plain, b"\"")
}

/// Adds a number.
pub fn add_number(text: &mut Bytes, front: &[u8], n: u64) -> Result<(), NoMemory>
    ensures { OnOk result (text.new ≡ text.old ++ front.now ++ decimal n) }
{
    text.extend(front)?;
    add_decimal(text, n)
}

/// Adds a number, or `null` in its place.
#[tactic(auto, unfolding(crate::specs::Json::number_if))]
pub fn add_number_if(text: &mut Bytes, front: &[u8], n: Option<u64>) -> Result<(), NoMemory>
    ensures { OnOk result (text.new ≡ text.old ++ front.now ++ spec.number_if n) }
{
    text.extend(front)?;
    match n {
        None => text.extend(b"null"),
        Some(n) => add_decimal(text, n),
    }
}

/// Adds `true` or `false`.
#[tactic(auto, unfolding(crate::specs::Json::flag))]
pub fn add_flag(text: &mut Bytes, front: &[u8], flag: bool) -> Result<(), NoMemory>
    ensures { OnOk result (text.new ≡ text.old ++ front.now ++ spec.flag flag) }
{
    text.extend(front)?;
    if flag {
        return text.extend(b"true");
    }
    text.extend(b"false")
}
