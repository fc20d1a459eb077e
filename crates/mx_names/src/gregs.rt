//! The allocated global registers.

ghost use Rattle.std.specs.Prelude.{◌≡◌, ◌+◌, ◌<◌, ◌≤◌, ◌==◌, ℕ, List, [], length, min, position};
ghost use Rattle.std.specs.Option.{IfSome};
ghost use Rattle.mx_names.specs.Gregs as spec;

use std::marker::Model;

/// The values of the allocated global registers $G to $254, which contracts see as their list.
#[derive(Drop)]
pub struct Gregs {
    values: [u64; 255],
    lowest: u8,
}

impl Model for Gregs {
    ghost use Rattle.std.specs.Prelude.{◌≤◌, ℕ, List, drop};

    ghost Value = { List ℕ };

    ghost view = { λ g. drop g.lowest g.values };

    ghost invariant = { λ g. 32 ≤ g.lowest };
}

/// A base register, and how far an address lies above its value, modulo 2^64.
#[derive(Clone, Copy)]
pub struct Base {
    pub reg: u8,
    pub above: u64,
}

impl Gregs {
    /// No register is allocated.
    pub fn new() -> Gregs
        ensures { result ≡ [] }
    {
        Gregs {
            values: [0; 255],
            lowest: 255,
        }
    }

    /// The lowest allocated register, or 255 before any is.
    pub fn lowest(&self) -> u8
        ensures lowest { result ≡ spec.lowest_of self.now }
        ensures least { 32 ≤ result }
    {
        self.lowest
    }

    /// The value of an allocated register, which is one of $G to $254.
    pub fn value_of(&self, reg: u8) -> u64
        requires allocated { spec.lowest_of self.now ≤ reg }
        requires global { reg < 255 }
        ensures { result ≡ spec.greg_value self.now reg }
    {
        self.values[usize::from(reg)]
    }

    /// Gives a register its value. It is allocated, or the next one downwards, and one of $32 to $254.
    pub fn set(&mut self, reg: u8, value: u64)
        requires { spec.IsAllocable self.old reg }
        ensures registers { self.new ≡ spec.with_greg self.old reg value }
        ensures lowest { spec.lowest_of self.new ≡ min (spec.lowest_of self.old) reg }
    {
        self.values[usize::from(reg)] = value;
        self.lowest = self.lowest.min(reg);
    }

    /// The register of a GREG with this value: the one that has it, if it is not 0, or the next one
    /// downwards. There is none where one more is wanted after $32.
    pub fn register_for(&self, value: u64) -> Option<u8>
        ensures register { result ≡ spec.register_for self.now value }
        ensures allocable { IfSome result (λ reg. spec.IsAllocable self.now reg) }
    {
        if value == 0 {
            return self.next_register();
        }
        match self.register_of(value) {
            Some(reg) => Some(reg),
            None => self.next_register(),
        }
    }

    /// The allocated register that has a value.
    fn register_of(&self, value: u64) -> Option<u8>
        ensures register { result ≡ spec.register_of_value self.now value }
        ensures allocable { IfSome result (λ reg. spec.IsAllocable self.now reg) }
    {
        match place_of(&self.values[usize::from(self.lowest)..], value) {
            Some(place) => Some(self.lowest + place as u8),
            None => None,
        }
    }

    /// The next register downwards, if there is one.
    fn next_register(&self) -> Option<u8>
        ensures register { result ≡ spec.next_register self.now }
        ensures allocable { IfSome result (λ reg. spec.IsAllocable self.now reg) }
    {
        if self.lowest <= 32 {
            None
        } else {
            Some(self.lowest - 1)
        }
    }

    /// The base of an address, if it lies at most 255 above the nearest one.
    pub fn base_for(&self, address: u64) -> Option<Base>
        ensures { result ≡ spec.base_for self.now address }
    {
        match self.nearest(address) {
            Some(base) if base.above < 256 => Some(base),
            _ => None,
        }
    }

    /// The nearest base for an address.
    fn nearest(&self, address: u64) -> Option<Base>
        ensures { result ≡ spec.nearest_base self.now address }
    {
        nearest_from(
            address,
            self.lowest,
            &self.values[usize::from(self.lowest)..],
        )
    }
}

/// The place of a value among others.
fn place_of(values: &[u64], value: u64) -> Option<usize>
    ensures value { result ≡ position (λ v. v == value) values.now }
    ensures within { IfSome result (λ place. place < length values.now) }
{
    values.iter().position(|v| *v == value)
}

/// The nearest base for an address among registers from a first one on with these values.
fn nearest_from(address: u64, first: u8, values: &[u64]) -> Option<Base>
    requires { first + length values.now ≤ 255 }
    ensures { result ≡ spec.nearest_from address first values.now }
{
    let mut nearest = None;
    for place in (0..values.len()).rev() {
        nearest = with_register(address, first + place as u8, values[place], nearest);
    }
    nearest
}

/// The nearer of a register with this value and perhaps another base.
fn with_register(address: u64, reg: u8, value: u64, others: Option<Base>) -> Option<Base>
    ensures { result ≡ spec.with_register address reg value others }
{
    if value == 0 {
        return others;
    }
    let base = Base {
        reg,
        above: address.wrapping_sub(value),
    };
    match others {
        Some(other) if other.above < base.above => Some(other),
        _ => Some(base),
    }
}
