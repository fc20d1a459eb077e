//! Breaks and watches, at which a run is looked at.

ghost use Rattle.std.specs.Prelude.{◌≡◌};
ghost use Rattle.std.specs.List.{list_any};
ghost use Rattle.mx_core.specs.Kept.{state_of};
ghost use Rattle.mx_stops.specs.Stops as spec;

use crate::places::{Place, value_at};
use mx_core::Machine;
use mx_word::signed;

/// How two octas are compared, as signed numbers.
#[derive(Clone, Copy, Debug, PartialEq, Eq)]
pub enum Relation {
    Equal,
    Unequal,
    Less,
    AtMost,
    Greater,
    AtLeast,
}

/// What has to hold of the value at a place.
#[derive(Clone, Copy, Debug, PartialEq, Eq)]
pub struct Condition {
    pub place: Place,
    pub relation: Relation,
    pub number: u64,
}

/// A break with its number: at the instruction that holds an address, where a condition holds, if there is one.
#[derive(Clone, Copy, Debug, PartialEq, Eq)]
pub struct Break {
    pub number: u32,
    pub address: u64,
    pub condition: Option<Condition>,
}

/// A place that is watched, with its number.
#[derive(Clone, Copy, Debug, PartialEq, Eq)]
pub struct Watch {
    pub number: u32,
    pub place: Place,
}

/// Whether octas are so related.
fn is_related(relation: Relation, x: u64, y: u64) -> bool
    ensures { result ≡ spec.compares relation x y }
{
    match relation {
        Relation::Equal => x == y,
        Relation::Unequal => x != y,
        Relation::Less => signed(x) < signed(y),
        Relation::AtMost => !(signed(y) < signed(x)),
        Relation::Greater => signed(y) < signed(x),
        Relation::AtLeast => !(signed(x) < signed(y)),
    }
}

/// Whether a condition holds.
fn is_condition_met(machine: &Machine, condition: Option<Condition>) -> bool
    ensures { result ≡ spec.holds condition (state_of machine.now) }
{
    match condition {
        None => true,
        Some(c) => is_related(c.relation, value_at(machine, c.place), c.number),
    }
}

impl Break {
    /// Whether a machine is at a break: the instruction there comes next, and the condition holds.
    pub fn is_met(&self, machine: &Machine) -> bool
        ensures { result ≡ spec.is_met (state_of machine.now) self.now }
    {
        machine.pc() / 4 == self.address / 4 && is_condition_met(machine, self.condition)
    }
}

/// Whether a machine is at one of some breaks.
pub fn is_at_any_break(machine: &Machine, breaks: &[Break]) -> bool
    ensures { result ≡ list_any (spec.is_met (state_of machine.now)) breaks.now }
{
    breaks.iter().any(|b| b.is_met(machine))
}
