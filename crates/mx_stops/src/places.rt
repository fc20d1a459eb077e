//! Places that have values.

ghost use Rattle.std.specs.Prelude.{◌≡◌, ◌<◌, ◌^◌};
ghost use Rattle.mx_core.specs.Kept.{state_of};
ghost use Rattle.mx_stops.specs.Places as spec;

use mx_core::Machine;
use mx_word::STACK_SEGMENT;

/// A place that has a value.
#[derive(Clone, Copy, Debug, PartialEq, Eq)]
pub enum Place {
    /// The register that the program sees under this number.
    Register(u8),
    /// The register at a place of the register stack: of the hidden registers, the oldest first, and then the local ones. Its
    /// number is the one that it had where it was asked for.
    Stacked { at: u64, number: u8 },
    /// The octa that holds an address.
    Octa(u64),
    /// The special register of this code.
    Special(u8),
}

/// What is seen of a place: how many registers are hidden, and the value there.
#[derive(Clone, Copy, Debug, PartialEq, Eq)]
pub struct Seen {
    pub depth: u64,
    pub value: u64,
}

/// The code of rO.
const RO: u8 = 10;

/// How many registers are hidden.
#[tactic(auto, unfolding(mx_core::specs::State::special_register))]
pub fn depth(machine: &Machine) -> u64
    ensures value { result ≡ spec.depth (state_of machine.now) }
    ensures range { result < 2 ^ 61 }
{
    (machine.special(RO) - STACK_SEGMENT) / 8
}

/// What the register at a place of the register stack has, if it is local; else 0.
fn read_stacked_value(machine: &Machine, at: u64) -> u64
    ensures { result ≡ spec.stacked_value at (state_of machine.now) }
{
    let hidden = depth(machine);
    if hidden <= at && at - hidden < u64::from(machine.l()) {
        machine.register((at - hidden) as u8)
    } else {
        0
    }
}

/// The value at a place. Where there is no memory and no such register it is 0, and so it is while the register is hidden.
pub fn value_at(machine: &Machine, place: Place) -> u64
    ensures { result ≡ spec.value_at place (state_of machine.now) }
{
    match place {
        Place::Register(k) => machine.register(k),
        Place::Stacked { at, number: _ } => read_stacked_value(machine, at),
        Place::Octa(a) => { if a < 1 << 63 { machine.octa(a) } else { 0 } }
        Place::Special(code) => { if code < 32 { machine.special(code) } else { 0 } }
    }
}

/// What is seen of a place.
#[tactic(auto, unfolding(crate::specs::Places::seen))]
pub fn see(machine: &Machine, place: Place) -> Seen
    ensures { result ≡ spec.seen place (state_of machine.now) }
{
    Seen {
        depth: depth(machine),
        value: value_at(machine, place),
    }
}

/// The place by which a register is followed from here on: one that is not global at its place of the register stack.
#[tactic(auto, unfolding(crate::specs::Places::followed))]
pub fn followed(machine: &Machine, place: Place) -> Place
    ensures { result ≡ spec.followed (state_of machine.now) place }
{
    match place {
        Place::Register(k) if k < machine.g() => Place::Stacked {
            at: depth(machine) + u64::from(k),
            number: k,
        },
        place => place,
    }
}

impl Seen {
    /// Whether the register at a place of the register stack is hidden.
    pub fn hides(&self, at: u64) -> bool
        ensures { result ≡ spec.is_hidden_at at self.now }
    {
        at < self.depth
    }

    /// Whether a turn changes what is at a place, by what is seen before and after it: the register at a place of the register
    /// stack keeps its value while it is hidden, and a return makes that of its result.
    #[tactic(auto, unfolding(crate::specs::Places::is_change))]
    pub fn is_change(&self, after: &Seen, place: Place) -> bool
        ensures { result ≡ spec.is_change place self.now after.now }
    {
        match place {
            Place::Stacked { at, number: _ } if self.hides(at) || after.hides(at) => {
                after.depth < self.depth && at == self.depth - 1
            }
            _ => self.value != after.value,
        }
    }
}
