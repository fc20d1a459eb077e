//! Why a text names nothing.

use crate::help::add_written;
use mx_word::{Bytes, NoMemory, is_letter, is_name_byte};

/// The name at the front of a text.
fn name_in(text: &[u8]) -> &[u8] {
    let count = text.iter().take_while(|b| is_name_byte(**b)).count();
    text.split_at(count).0
}

/// Whether a text is a name, or a name with a number added or taken away.
fn is_name(text: &[u8], name: &[u8]) -> bool {
    let begins = match name {
        [first, ..] => is_letter(*first),
        [] => false,
    };
    let rest = text.split_at(name.len().min(text.len())).1;
    begins
        && match rest {
            [] => true,
            [next, ..] => *next == b'+' || *next == b'-' || *next == b' ',
        }
}

/// Adds that a text names no symbol, or what is wanted in its place.
pub fn add_unnamed(out: &mut Bytes, text: &[u8], wanted: &[u8]) -> Result<(), NoMemory> {
    let name = name_in(text);
    if is_name(text, name) {
        out.extend(b"? no symbol ")?;
        add_written(out, name)?;
        return out.extend(b"\n");
    }
    out.extend(wanted)?;
    out.extend(b"\n")
}
