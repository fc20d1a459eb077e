//! A refusal as JSON.

ghost use Rattle.std.specs.Prelude.{◌≡◌, ◌++◌, OnOk};
ghost use Rattle.mx_face.specs.RefusalJson as spec;

use mx_files::Refusal;
use mx_json::{add_between, add_number, add_quoted};
use mx_outcome::fault_name;
use mx_word::{Bytes, NoMemory};

/// Adds the line of a reference that waited, if there is one.
#[tactic(auto, unfolding(crate::specs::RefusalJson::waiting_json))]
fn add_waiting(text: &mut Bytes, front: &[u8], from_line: u32) -> Result<(), NoMemory>
    ensures { OnOk result (text.new ≡ text.old ++ front.now ++ spec.waiting_json from_line) }
{
    if from_line == 0 {
        return add_between(text, front, b"null", b"");
    }
    add_number(text, front, u64::from(from_line))
}

/// Adds the name of a fault.
#[tactic(auto, unfolding(crate::specs::RefusalJson::name_json))]
fn add_name(text: &mut Bytes, front: &[u8], fault: u16) -> Result<(), NoMemory>
    ensures { OnOk result (text.new ≡ text.old ++ front.now ++ spec.name_json fault) }
{
    add_quoted(text, front, fault_name(fault).as_bytes())
}

/// The name of the line of a reference that waited.
#[tactic(auto, unfolding(crate::specs::RefusalJson::from_name))]
fn from_name() -> &'static [u8]
    ensures { result.now ≡ spec.from_name }
{
    b",\"from_line\":"
}

/// Adds the fault of a refusal, and the line of the reference that waited.
#[tactic(auto, unfolding(crate::specs::RefusalJson::fault_members))]
fn add_fault_members(text: &mut Bytes, refused: Refusal) -> Result<(), NoMemory>
    ensures { OnOk result (text.new ≡ text.old ++ spec.fault_members refused) }
{
    add_number(text, b"\"fault\":", u64::from(refused.fault))?;
    add_waiting(text, from_name(), refused.from_line)
}

/// Adds the line of a refusal, and the name of its fault.
#[tactic(auto, unfolding(crate::specs::RefusalJson::place_members))]
fn add_place_members(text: &mut Bytes, refused: Refusal) -> Result<(), NoMemory>
    ensures { OnOk result (text.new ≡ text.old ++ spec.place_members refused) }
{
    add_number(text, b",\"line\":", u64::from(refused.line))?;
    add_name(text, b",\"name\":", refused.fault)
}

/// Adds the members of the object of a refusal.
#[tactic(auto, unfolding(crate::specs::RefusalJson::refusal_members))]
pub fn add_refusal_members(text: &mut Bytes, refused: Refusal) -> Result<(), NoMemory>
    ensures { OnOk result (text.new ≡ text.old ++ spec.refusal_members refused) }
{
    add_fault_members(text, refused)?;
    add_place_members(text, refused)
}

/// Adds the object of a refusal, or `null` in its place.
#[tactic(auto, unfolding(crate::specs::RefusalJson::refusal_json))]
pub fn add_refusal(text: &mut Bytes, front: &[u8], refused: Option<Refusal>) -> Result<(), NoMemory>
    ensures { OnOk result (text.new ≡ text.old ++ front.now ++ spec.refusal_json refused) }
{
    match refused {
        None => add_between(text, front, b"null", b""),
        Some(refused) => {
            add_between(text, front, b"{", b"")?;
            add_refusal_members(text, refused)?;
            text.extend(b"}")
        }
    }
}
