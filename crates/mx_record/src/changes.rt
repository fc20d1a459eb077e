//! What a turn changed.

ghost use Rattle.std.specs.Prelude.{◌≡◌, OnOk};
ghost use Rattle.mx_record.specs.Records as spec;

use mx_word::{NoMemory, Sequence};

/// A place whose octa became another, and the exclusive or of both.
#[derive(Clone, Copy)]
pub struct Change {
    pub at: u64,
    pub by: u64,
}

/// What changes from one picture to another: the address of the next instruction, special registers by their codes, global
/// registers by their numbers, the registers of the register stack from the oldest on, and octas of memory by their
/// addresses divided by 8. Each change is an exclusive or.
#[derive(Drop)]
pub struct Record {
    pub next: u64,
    pub special: Sequence<Change>,
    pub global: Sequence<Change>,
    pub stacked: Sequence<Change>,
    pub octas: Sequence<Change>,
}

/// Adds what changed at a place, if it did.
pub(crate) fn note(
    changes: &mut Sequence<Change>,
    at: u64,
    old: u64,
    new: u64,
) -> Result<(), NoMemory>
    ensures { OnOk result (changes.new ≡ spec.noted changes.old at old new) }
{
    if old == new {
        return Ok(());
    }
    changes.push(Change { at, by: old ^ new })
}
