//! Whether an event trips.

ghost use Rattle.std.specs.Prelude.{◌≡◌};
ghost use Rattle.mx_alu.specs.Trips as spec;

use crate::Event;

/// What an event comes to: a trip to the handler at an address, or the new rA, with the event's bit set.
#[derive(Clone, Copy, Debug, PartialEq, Eq)]
pub enum Trip {
    Taken(u64),
    Noted(u64),
}

/// Whether an event trips where rA is ra. Its bit is #80 for D and #40 for V, and the bit that enables
/// its trip is eight places higher. The handlers are at 16 for D and 32 for V.
pub fn decide(ra: u64, event: Event) -> Trip
    ensures { result ≡ spec.decided ra event }
{
    if ra & (event_bit(event) << 8) != 0 {
        return Trip::Taken(handler(event));
    }
    Trip::Noted(ra | event_bit(event))
}

/// The bit of rA that notes an event.
fn event_bit(event: Event) -> u64
    ensures { result ≡ spec.event_bit event }
{
    match event {
        Event::Divide => 0x80,
        Event::Overflow => 0x40,
    }
}

/// The address of the handler of an event.
fn handler(event: Event) -> u64
    ensures { result ≡ spec.handler event }
{
    match event {
        Event::Divide => 16,
        Event::Overflow => 32,
    }
}
