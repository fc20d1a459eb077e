//! The lines of the trie and of its symbols.

ghost use Rattle.std.specs.Prelude.{◌≡◌, ◌++◌, OnOk, map};
ghost use Rattle.std.specs.List.{flat_map};
ghost use Rattle.mx_type.specs.Lines as spec;
ghost use Rattle.mx_type.specs.Texts.{tail_text};

use crate::fields::add_bytes;
use mx_text::{add_decimal, octa_hex};
use mx_word::{Bytes, NoMemory, Symbol, Value};

/// Adds the line of the trie and those of its symbols.
pub(crate) fn add_tail(text: &mut Bytes, trie: &[u8], symbols: &[Symbol]) -> Result<(), NoMemory>
    ensures { OnOk result (text.new ≡ text.old ++ tail_text trie.now symbols.now) }
{
    add_trie(text, trie)?;
    add_symbols(text, symbols)
}

/// Adds the line of the trie.
pub(crate) fn add_trie(text: &mut Bytes, trie: &[u8]) -> Result<(), NoMemory>
    ensures { OnOk result (text.new ≡ text.old ++ spec.ended (spec.stab_line trie.now)) }
{
    if trie.is_empty() {
        return text.extend(b"stab\n");
    }
    text.extend(b"stab ")?;
    add_bytes(text, trie)?;
    text.push(b'\n')
}

/// Adds the lines of symbols.
fn add_symbols(text: &mut Bytes, symbols: &[Symbol]) -> Result<(), NoMemory>
    ensures { OnOk result (
        text.new ≡ text.old ++ flat_map (λ s. spec.ended (spec.symbol_line s)) symbols.now) }
{
    for symbol in symbols {
        add_symbol(text, symbol)?;
    }
    Ok(())
}

/// Adds the line of a symbol.
pub(crate) fn add_symbol(text: &mut Bytes, symbol: &Symbol) -> Result<(), NoMemory>
    ensures { OnOk result (text.new ≡ text.old ++ spec.ended (spec.symbol_line symbol.now)) }
{
    text.extend(b"symbol ")?;
    add_shown_name(text, symbol.name.as_slice())?;
    text.push(b' ')?;
    add_value(text, symbol.value)?;
    text.push(b' ')?;
    add_decimal(text, u64::from(symbol.serial))?;
    text.push(b'\n')
}

/// Adds a name as it is shown.
fn add_shown_name(text: &mut Bytes, name: &[u8]) -> Result<(), NoMemory>
    ensures { OnOk result (text.new ≡ text.old ++ map spec.name_byte name.now) }
{
    for b in name {
        text.push(name_byte(*b))?;
    }
    Ok(())
}

/// A byte of a name as it is shown: itself from 33 to 126, otherwise a dot.
fn name_byte(b: u8) -> u8
    ensures { result ≡ spec.name_byte b }
{
    if 33 <= b && b <= 126 { b } else { b'.' }
}

/// Adds a value: an octa as `#` and 16 digits, a register as `$` and its number.
fn add_value(text: &mut Bytes, value: Value) -> Result<(), NoMemory>
    ensures { OnOk result (text.new ≡ text.old ++ spec.value_text value) }
{
    match value {
        Value::Pure(x) => text.extend(&octa_hex(x)),
        Value::Reg(k) => {
            text.push(b'$')?;
            add_decimal(text, u64::from(k))
        }
    }
}
