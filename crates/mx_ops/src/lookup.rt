//! Look-ups in the tables.

ghost use Rattle.std.specs.Prelude.{◌≡◌, ◌<◌, ℕ, List, [], ◌∷◌, ◌++◌, IsTrue, Contains};
ghost use Rattle.mx_ops.specs.Opcodes.{IsLowestCode, chosen_operations, is_instruction, opcode_name, operation_of};
ghost use Rattle.mx_ops.specs.Opcodes.{pseudo_operations};
ghost use Rattle.mx_ops.specs.declared.op.Op.{Op};
ghost use Rattle.mx_ops.specs.Predefined.{predefined_names, predefined_value};
ghost use Rattle.mx_ops.specs.Shapes.{shapes_of};
ghost use Rattle.mx_ops.specs.Tables.{first_of};

use crate::op::{Op, Shape};
use crate::symbols::PREDEFINED;
use crate::table::{NAMES, OPERATIONS, SHAPES};

/// The operation of a name; nothing where no operation has the name. An instruction is given by the
/// lowest code of its name.
pub fn find(name: &[u8]) -> Option<Op>
    ensures value { result ≡ operation_of name.now }
    ensures lowest { (code : ℕ) → result ≡ Some (Op.Code code) → IsLowestCode name.now code }
    ensures instruction { (code : ℕ) → code < 256 → opcode_name code ≡ name.now → IsTrue (is_instruction result) }
    ensures pseudo { (op : Op) → Contains (pseudo_operations ++ chosen_operations) (name.now, op) → result ≡ Some op }
{
    let entries = OPERATIONS.as_slice();
    match entries.binary_search_by(|entry| entry.0.as_bytes().cmp(name)) {
        Ok(place) => Some(entries[place].1),
        Err(_) => None,
    }
}

/// Which operands the instruction of a code takes.
pub fn shape_of(code: u8) -> Shape
    ensures { shapes_of code ≡ result ∷ [] }
{
    SHAPES[usize::from(code)]
}

/// The name of the instruction of a code; the two codes of one name have the same one.
pub fn name(code: u8) -> &'static str
    ensures value { result.now ≡ opcode_name code }
    ensures found { IsTrue (is_instruction (operation_of result.now)) }
{
    NAMES.as_slice()[usize::from(code)]
}

/// The value of a predefined symbol, by its complete name, which begins with a colon; nothing where
/// no predefined symbol has the name.
pub fn predefined(name: &[u8]) -> Option<u64>
    ensures value { result ≡ predefined_value name.now }
    ensures listed { (bare : List ℕ) (v : ℕ) → name.now ≡ 58 ∷ bare → Contains predefined_names (bare, v) →
        result ≡ Some v }
{
    if name.is_empty() || name[0] != b':' {
        return None;
    }
    value_of(&name[1..])
}

/// The value of a predefined symbol, by its name without the colon.
fn value_of(bare: &[u8]) -> Option<u64>
    ensures { result ≡ first_of bare.now predefined_names }
{
    let entries = PREDEFINED.as_slice();
    match entries.binary_search_by(|entry| entry.0.as_bytes().cmp(bare)) {
        Ok(place) => Some(entries[place].1),
        Err(_) => None,
    }
}
