//! A register that is followed at its place of the register stack, as it is named at a step.

use mx_stops::{Place, Seen};
use mx_text::add_decimal;
use mx_word::{Bytes, NoMemory};
use std::alloc::Global;

/// The note on a place, where this is seen: nothing, or how the register is named there, if it has another number than where it was
/// asked for.
pub fn note_of(alloc: Global, place: Place, seen: &Seen) -> Result<Bytes, NoMemory> {
    let mut note = Bytes::new(alloc);
    if let Place::Stacked { at, number } = place {
        add_number(&mut note, at, u64::from(number), seen)?;
    }
    Ok(note)
}

/// Adds the number of the register at a place of the register stack, if it is not this one.
fn add_number(note: &mut Bytes, at: u64, number: u64, seen: &Seen) -> Result<(), NoMemory> {
    if seen.hides(at) {
        return note.extend(b", of an outer call");
    }
    let here = at - seen.depth;
    if here == number {
        return Ok(());
    }
    note.extend(b", here $")?;
    add_decimal(note, here)
}

/// The value that was seen at a place; nothing where the register is hidden.
pub fn find_known_value(place: Place, seen: &Seen) -> Option<u64> {
    match place {
        Place::Stacked { at, number: _ } if seen.hides(at) => None,
        _ => Some(seen.value),
    }
}
