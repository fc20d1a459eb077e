//! What a reader of a trie notes on its way.

ghost use Rattle.std.specs.Prelude.{◌≡◌, ◌≤◌, ◌<◌, ◌+◌, ◌++◌, OnOk};
ghost use Rattle.mx_stab.specs.Due as notes;
ghost use Rattle.mx_stab.specs.Due.{all_weight};
ghost use Rattle.mx_stab.specs.Reading as spec;

use mx_word::NoMemory;

/// What is still to be read: a subtrie; what is in the node at a place, with its byte m, after
/// the left subtrie; or a right subtrie, if the byte m tells of one, whose path has this many bytes.
#[derive(Clone, Copy)]
pub enum Due {
    Subtrie,
    Rest { node: u64, m: u8 },
    Right { depth: usize, m: u8 },
}

/// Whether a byte m has a bit.
pub fn has(bit: u8, m: u8) -> bool
    requires { 0 < bit }
    ensures { result ≡ spec.has bit m }
{
    m / bit % 2 == 1
}

/// Whether a node has a character.
pub fn has_character(m: u8) -> bool
    ensures { result ≡ spec.has_character m }
{
    m % 16 != 0 || has(0x20, m)
}

/// Notes a subtrie before all that was noted so far, if there is one.
#[tactic(auto, using(crate::proofs::Weights::weights))]
pub fn note_subtrie(due: &mut Vec<Due>, is: bool) -> Result<(), NoMemory>
    ensures items { OnOk result (due.new.items ≡ due.old.items ++ notes.due_if is Due.Subtrie) }
    ensures weight { OnOk result (all_weight due.new.items ≤ all_weight due.old.items + 1) }
{
    if is {
        due.push(Due::Subtrie)?;
    }
    Ok(())
}

/// Notes what follows the byte m of a node, of which the left subtrie comes first.
#[tactic(auto, using(crate::proofs::Weights::weights))]
pub fn note_node(due: &mut Vec<Due>, node: u64, m: u8) -> Result<(), NoMemory>
    ensures items { OnOk result (due.new.items ≡ due.old.items ++ notes.node_due node m) }
    ensures weight { OnOk result (all_weight due.new.items ≤ all_weight due.old.items + 3) }
{
    due.push(Due::Rest { node, m })?;
    note_subtrie(due, has(0x40, m))
}

/// Notes what follows the symbol of a node, of which the middle subtrie comes first.
#[tactic(auto, using(crate::proofs::Weights::weights))]
pub fn note_symbol(due: &mut Vec<Due>, depth: usize, m: u8) -> Result<(), NoMemory>
    ensures items { OnOk result (due.new.items ≡ due.old.items ++ notes.symbol_due depth m) }
    ensures weight { OnOk result (all_weight due.new.items ≤ all_weight due.old.items + 3) }
{
    due.push(Due::Right { depth, m })?;
    note_subtrie(due, has(0x20, m))
}
