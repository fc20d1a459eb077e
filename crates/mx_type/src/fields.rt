//! The fields of lines: words with a number after them, and lists of tetras, octas and bytes.

ghost use Rattle.std.specs.Prelude.{◌≡◌, ◌++◌, OnOk, decimal};
ghost use Rattle.std.specs.List.{flat_map};
ghost use Rattle.mx_text.specs.Numbers.{hex_digits, hex_text};
ghost use Rattle.mx_type.specs.Lines as spec;

use mx_text::{add_decimal, byte_hex, octa_hex, tetra_hex};
use mx_word::{Bytes, NoMemory};

/// Adds a line of a word and a number.
pub(crate) fn add_counted(text: &mut Bytes, word: &[u8], n: u16) -> Result<(), NoMemory>
    ensures { OnOk result (text.new ≡ text.old ++ spec.ended (word.now ++ decimal n)) }
{
    text.extend(word)?;
    add_decimal(text, u64::from(n))?;
    text.push(b'\n')
}

/// Adds a line of a word and an octa.
pub(crate) fn add_placed(text: &mut Bytes, word: &[u8], a: u64) -> Result<(), NoMemory>
    ensures { OnOk result (text.new ≡ text.old ++ spec.ended (word.now ++ hex_text a)) }
{
    text.extend(word)?;
    text.extend(&octa_hex(a))?;
    text.push(b'\n')
}

/// Adds a tetra after a blank.
pub(crate) fn add_tetra(text: &mut Bytes, word: u32) -> Result<(), NoMemory>
    ensures { OnOk result (text.new ≡ text.old ++ spec.next_tetra word) }
{
    text.push(b' ')?;
    text.extend(&tetra_hex(word))
}

/// Adds an octa after a blank.
fn add_octa(text: &mut Bytes, x: u64) -> Result<(), NoMemory>
    ensures { OnOk result (text.new ≡ text.old ++ spec.next_octa x) }
{
    text.push(b' ')?;
    text.extend(&octa_hex(x))
}

/// Adds tetras, each after a blank.
pub(crate) fn add_tetras(text: &mut Bytes, words: &[u32]) -> Result<(), NoMemory>
    ensures { OnOk result (text.new ≡ text.old ++ flat_map spec.next_tetra words.now) }
{
    for word in words {
        add_tetra(text, *word)?;
    }
    Ok(())
}

/// Adds octas, each after a blank.
pub(crate) fn add_octas(text: &mut Bytes, values: &[u64]) -> Result<(), NoMemory>
    ensures { OnOk result (text.new ≡ text.old ++ flat_map spec.next_octa values.now) }
{
    for x in values {
        add_octa(text, *x)?;
    }
    Ok(())
}

/// Adds bytes as two hexadecimal digits each.
pub(crate) fn add_bytes(text: &mut Bytes, bytes: &[u8]) -> Result<(), NoMemory>
    ensures { OnOk result (text.new ≡ text.old ++ spec.bytes_text bytes.now) }
{
    for b in bytes {
        text.extend(&byte_hex(*b))?;
    }
    Ok(())
}
