//! The bytes of items.

ghost use Rattle.std.specs.Prelude.{◌≡◌, [], ◌∷◌, ◌++◌, ◌+◌, ◌-◌, ◌*◌, ◌/◌, ◌%◌, ◌<◌, ◌≤◌, ◌^◌, length, take};
ghost use Rattle.std.specs.Prelude.{replicate, IfSome, OnOk, OnErr};
ghost use Rattle.std.specs.List.{flat_map};
ghost use Rattle.mx_word.specs.Words.{tetra_to_bytes, octa_to_bytes};
ghost use Rattle.mx_mmo.specs.Tetras.{lop, wide_lop, address, padded};
ghost use Rattle.mx_mmo.specs.Spelling.{bytes_of, loaded, file, ending};
ghost use Rattle.mx_mmo.specs.Valid.{Fits, IsName};

use crate::Item;
use mx_word::{Bytes, NoMemory, octa_bytes, tetra_bytes};

/// Adds bytes at the end. Nothing changes where there is no memory.
fn append(bytes: &mut Vec<u8>, from: &[u8]) -> Result<(), NoMemory>
    ensures ok { OnOk result (bytes.new.items ≡ bytes.old.items ++ from.now) }
    ensures err { OnErr result (bytes.new.items ≡ bytes.old.items) }
{
    match bytes.extend_from_slice(from) {
        Ok(()) => Ok(()),
        Err(_) => Err(NoMemory),
    }
}

/// Adds a lopcode.
fn append_lop(bytes: &mut Vec<u8>, code: u8, y: u8, z: u8) -> Result<(), NoMemory>
    ensures ok { OnOk result (bytes.new.items ≡ bytes.old.items ++ lop code y z) }
    ensures err { OnErr result (bytes.new.items ≡ bytes.old.items) }
{
    append(bytes, &[0x98, code, y, z])
}

/// Adds a lopcode whose bytes Y and Z are one number.
fn append_wide_lop(bytes: &mut Vec<u8>, code: u8, n: u16) -> Result<(), NoMemory>
    ensures ok { OnOk result (bytes.new.items ≡ bytes.old.items ++ wide_lop code n) }
    ensures err { OnErr result (bytes.new.items ≡ bytes.old.items) }
{
    append_lop(bytes, code, (n / 256) as u8, (n % 256) as u8)
}

/// Adds a tetra.
fn append_tetra(bytes: &mut Vec<u8>, t: u32) -> Result<(), NoMemory>
    ensures ok { OnOk result (bytes.new.items ≡ bytes.old.items ++ tetra_to_bytes t) }
    ensures err { OnErr result (bytes.new.items ≡ bytes.old.items) }
{
    append(bytes, &tetra_bytes(t))
}

/// Adds an octa.
fn append_octa(bytes: &mut Vec<u8>, x: u64) -> Result<(), NoMemory>
    ensures ok { OnOk result (bytes.new.items ≡ bytes.old.items ++ octa_to_bytes x) }
    ensures err { OnErr result (bytes.new.items ≡ bytes.old.items) }
{
    append(bytes, &octa_bytes(x))
}

/// Adds tetras. Where there is no memory, what was there before still is in front.
fn append_tetras(bytes: &mut Vec<u8>, tetras: &[u32]) -> Result<(), NoMemory>
    ensures ok { OnOk result (bytes.new.items ≡ bytes.old.items ++ flat_map tetra_to_bytes tetras.now) }
    ensures err { OnErr result (take (length bytes.old.items) bytes.new.items ≡ bytes.old.items) }
{
    for tetra in tetras {
        append_tetra(bytes, *tetra)?;
    }
    Ok(())
}

/// Adds octas. Where there is no memory, what was there before still is in front.
fn append_octas(bytes: &mut Vec<u8>, values: &[u64]) -> Result<(), NoMemory>
    ensures ok { OnOk result (bytes.new.items ≡ bytes.old.items ++ flat_map octa_to_bytes values.now) }
    ensures err { OnErr result (take (length bytes.old.items) bytes.new.items ≡ bytes.old.items) }
{
    for value in values {
        append_octa(bytes, *value)?;
    }
    Ok(())
}

/// Adds a lopcode and a tetra.
fn append_with_tetra(bytes: &mut Vec<u8>, code: u8, y: u8, z: u8, t: u32) -> Result<(), NoMemory>
    ensures ok { OnOk result (bytes.new.items ≡ bytes.old.items ++ (lop code y z ++ tetra_to_bytes t)) }
    ensures err { OnErr result (take (length bytes.old.items) bytes.new.items ≡ bytes.old.items) }
{
    append_lop(bytes, code, y, z)?;
    append_tetra(bytes, t)
}

/// Adds a lopcode and an octa.
fn append_with_octa(bytes: &mut Vec<u8>, code: u8, y: u8, z: u8, x: u64) -> Result<(), NoMemory>
    ensures ok { OnOk result (bytes.new.items ≡ bytes.old.items ++ (lop code y z ++ octa_to_bytes x)) }
    ensures err { OnErr result (take (length bytes.old.items) bytes.new.items ≡ bytes.old.items) }
{
    append_lop(bytes, code, y, z)?;
    append_octa(bytes, x)
}

/// Adds a tetra that is loaded, quoted where it begins with #98.
fn append_loaded(bytes: &mut Vec<u8>, t: u32) -> Result<(), NoMemory>
    ensures ok { OnOk result (bytes.new.items ≡ bytes.old.items ++ loaded t) }
    ensures err { OnErr result (take (length bytes.old.items) bytes.new.items ≡ bytes.old.items) }
{
    if t >> 24 == 0x98 {
        append_with_tetra(bytes, 0, 0, 1, t)
    } else {
        append_tetra(bytes, t)
    }
}

/// Adds a lopcode with an address, in a tetra where the top byte and a tetra give it.
fn append_address(bytes: &mut Vec<u8>, code: u8, a: u64) -> Result<(), NoMemory>
    ensures ok { OnOk result (bytes.new.items ≡ bytes.old.items ++ address code a) }
    ensures err { OnErr result (take (length bytes.old.items) bytes.new.items ≡ bytes.old.items) }
{
    if (a >> 32) % (1 << 24) == 0 {
        append_with_tetra(bytes, code, (a >> 56) as u8, 1, (a % (1 << 32)) as u32)
    } else {
        append_with_octa(bytes, code, 0, 2, a)
    }
}

/// Adds a name, and the zeros that complete its last tetra.
fn append_name(bytes: &mut Vec<u8>, name: &[u8]) -> Result<(), NoMemory>
    requires { length name.now ≤ 1020 }
    ensures ok { OnOk result (bytes.new.items ≡ bytes.old.items ++ padded name.now) }
    ensures err { OnErr result (take (length bytes.old.items) bytes.new.items ≡ bytes.old.items) }
{
    append(bytes, name)?;
    let zeros = 4 * ((name.len() + 3) / 4) - name.len();
    append_zeros(bytes, zeros)
}

/// Adds zeros.
fn append_zeros(bytes: &mut Vec<u8>, count: usize) -> Result<(), NoMemory>
    requires { count < 4 }
    ensures ok { OnOk result (bytes.new.items ≡ bytes.old.items ++ replicate count 0) }
    ensures err { OnErr result (bytes.new.items ≡ bytes.old.items) }
{
    match bytes.resize(bytes.len() + count, 0) {
        Ok(()) => Ok(()),
        Err(_) => Err(NoMemory),
    }
}

/// Adds a file that is selected, and its name where it has one.
fn append_file(bytes: &mut Vec<u8>, number: u8, name: &Option<Bytes>) -> Result<(), NoMemory>
    requires { IfSome name.now IsName }
    ensures ok { OnOk result (bytes.new.items ≡ bytes.old.items ++ file number name.now) }
    ensures err { OnErr result (take (length bytes.old.items) bytes.new.items ≡ bytes.old.items) }
{
    match name {
        None => append_lop(bytes, 6, number, 0),
        Some(name) => {
            let name = name.as_slice();
            append_lop(bytes, 6, number, ((name.len() + 3) / 4) as u8)?;
            append_name(bytes, name)
        }
    }
}

/// Adds a lopcode that is followed by tetras.
fn append_pre(bytes: &mut Vec<u8>, tetras: &[u32]) -> Result<(), NoMemory>
    requires { length tetras.now < 2 ^ 8 }
    ensures ok { OnOk result (bytes.new.items ≡
        bytes.old.items ++ (lop 9 1 (length tetras.now) ++ flat_map tetra_to_bytes tetras.now)) }
    ensures err { OnErr result (take (length bytes.old.items) bytes.new.items ≡ bytes.old.items) }
{
    append_lop(bytes, 9, 1, tetras.len() as u8)?;
    append_tetras(bytes, tetras)
}

/// Adds the values of the global registers from one on.
fn append_post(bytes: &mut Vec<u8>, g: u8, values: &[u64]) -> Result<(), NoMemory>
    ensures ok { OnOk result (bytes.new.items ≡
        bytes.old.items ++ (lop 10 0 g ++ flat_map octa_to_bytes values.now)) }
    ensures err { OnErr result (take (length bytes.old.items) bytes.new.items ≡ bytes.old.items) }
{
    append_lop(bytes, 10, 0, g)?;
    append_octas(bytes, values)
}

/// Adds the bytes of an item. Where there is no memory, what was there before still is in
/// front.
pub fn append_item(bytes: &mut Vec<u8>, item: &Item) -> Result<(), NoMemory>
    requires { Fits item.now }
    ensures ok { OnOk result (bytes.new.items ≡ bytes.old.items ++ bytes_of item.now) }
    ensures err { OnErr result (take (length bytes.old.items) bytes.new.items ≡ bytes.old.items) }
{
    match item {
        Item::Load(t) => append_loaded(bytes, *t),
        Item::Loc(a) => append_address(bytes, 1, *a),
        Item::Skip(n) => append_wide_lop(bytes, 2, *n),
        Item::FixOcta(a) => append_address(bytes, 3, *a),
        Item::FixNear(n) => append_wide_lop(bytes, 4, *n),
        Item::FixFar { bits, word } => append_with_tetra(bytes, 5, 0, *bits, *word),
        Item::File { number, name } => append_file(bytes, *number, name),
        Item::Line(n) => append_wide_lop(bytes, 7, *n),
        Item::Spec(n) => append_wide_lop(bytes, 8, *n),
        Item::Pre(tetras) => append_pre(bytes, tetras.as_slice()),
        Item::Post { g, values } => append_post(bytes, *g, values.as_slice()),
        Item::Stab => append_lop(bytes, 11, 0, 0),
    }
}

/// Adds the trie, and the lopcode that counts its tetras.
pub fn append_end(bytes: &mut Vec<u8>, trie: &[u8]) -> Result<(), NoMemory>
    requires { length trie.now / 4 < 2 ^ 16 }
    ensures { OnOk result (bytes.new.items ≡ bytes.old.items ++ ending trie.now) }
{
    append(bytes, trie)?;
    append_wide_lop(bytes, 12, (trie.len() / 4) as u16)
}
