//! A text as a terminal may have it.

ghost use Rattle.std.specs.Prelude.{◌≡◌, ◌++◌, IfOk, OnOk};
ghost use Rattle.std.specs.List.{flat_map};
ghost use Rattle.mx_face.specs.Visible as spec;

use mx_text::byte_hex;
use mx_word::{Bytes, NoMemory};
use std::alloc::Global;

/// Whether a byte is a tab, a newline or a carriage return.
fn is_kept(b: u8) -> bool
    ensures { result ≡ spec.is_kept b }
{
    b == b'\t' || b == b'\n' || b == b'\r'
}

/// Whether a byte is another control character.
fn is_control(b: u8) -> bool
    ensures { result ≡ spec.is_control b }
{
    (b < 32 && !is_kept(b)) || b == 127
}

/// Adds a byte, by its number where it is a control character.
fn add_visible(text: &mut Bytes, b: u8) -> Result<(), NoMemory>
    ensures { OnOk result (text.new ≡ text.old ++ spec.visible b) }
{
    if is_control(b) {
        text.extend(b"\\x")?;
        return text.extend(&byte_hex(b));
    }
    text.push(b)
}

/// Adds bytes, control characters by their numbers.
fn add_all_visible(text: &mut Bytes, bytes: &[u8]) -> Result<(), NoMemory>
    ensures { OnOk result (text.new ≡ text.old ++ flat_map spec.visible bytes.now) }
{
    for b in bytes {
        add_visible(text, *b)?;
    }
    Ok(())
}

/// A text with control characters by their numbers, as `\x1b`, but for tabs, newlines and carriage returns: so none of them reaches a
/// terminal.
///
/// Errors: out of memory.
pub fn visible_text(alloc: Global, bytes: &[u8]) -> Result<Bytes, NoMemory>
    ensures { IfOk result (λ text. text ≡ spec.visible_text bytes.now) }
{
    let mut text = Bytes::new(alloc);
    add_all_visible(&mut text, bytes)?;
    Ok(text)
}
