//! The slots as a program starts with them.

ghost use Rattle.std.specs.Prelude.{◌≡◌, ◌++◌, IfOk, OnOk, replicate};
ghost use Rattle.mx_host.specs.HostModel.{standard_streams, start_slots};

use crate::slots::{Lead, Mode, Slot};
use mx_word::NoMemory;
use std::alloc::Global;

/// The standard streams on slots 0 to 2 and 258 to 260, and closed slots between.
pub(super) fn slots_at_start(alloc: Global) -> Result<Vec<Slot>, NoMemory>
    ensures { IfOk result (λ slots. slots.items ≡ start_slots) }
{
    let mut slots = Vec::new(alloc);
    add_streams(&mut slots)?;
    add_closed(&mut slots, 255)?;
    add_streams(&mut slots)?;
    Ok(slots)
}

/// Adds slots that lead to the standard streams.
fn add_streams(slots: &mut Vec<Slot>) -> Result<(), NoMemory>
    ensures { OnOk result (slots.new.items ≡ slots.old.items ++ standard_streams) }
{
    let streams = [
        stream(Lead::Input, Mode::TextRead),
        stream(Lead::Output, Mode::TextWrite),
        stream(Lead::Errors, Mode::TextWrite),
    ];
    slots.extend_from_slice(&streams)?;
    Ok(())
}

/// A slot on a stream.
fn stream(lead: Lead, mode: Mode) -> Slot
    ensures { result ≡ Slot.Open lead mode 0 }
{
    Slot::Open {
        lead,
        mode,
        place: 0,
    }
}

/// Adds this many closed slots.
fn add_closed(slots: &mut Vec<Slot>, count: usize) -> Result<(), NoMemory>
    ensures { OnOk result (slots.new.items ≡ slots.old.items ++ replicate count Slot.Closed) }
{
    for _at in 0..count {
        slots.push(Slot::Closed)?;
    }
    Ok(())
}
