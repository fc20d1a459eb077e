//! Future references that wait for a definition.

ghost use Rattle.std.specs.Prelude.{◌≡◌, ◌+◌, ℕ, List, [], ◌∷◌, ◌++◌, map, IfOk, OnOk, OnErr};
ghost use Rattle.std.specs.Option.{option_copied, option_map};
ghost use Rattle.mx_names.specs.Waiting as spec;

use mx_word::{Awaited, NoMemory, Wait, Waits};
use std::alloc::Global;
use std::collections::BTreeMap;
use std::marker::Model;

/// References to one name or label, each with its number in the order in which they were made.
#[derive(Drop)]
struct Group {
    numbers: Vec<u64>,
    waits: Waits,
}

impl Model for Group {
    ghost use Rattle.std.specs.Prelude.{◌≡◌, ℕ, List, length};
    ghost use Rattle.std.specs.List.{zip};
    ghost use Rattle.mx_word.specs.declared.waits.Wait.{Wait};

    ghost Value = { List (ℕ × Wait) };

    ghost view = { λ g. zip g.numbers.items g.waits };

    ghost invariant = { λ g. length g.numbers.items ≡ length g.waits };
}

impl Group {
    /// A group of one reference.
    fn one(alloc: Global, number: u64, wait: Wait) -> Result<Group, NoMemory>
        ensures { IfOk result (λ group. group ≡ (number, wait) ∷ []) }
    {
        let mut numbers = Vec::new(alloc);
        numbers.push(number)?;
        let mut waits = Waits::new(alloc);
        waits.push(wait)?;
        Ok(Group { numbers, waits })
    }

    /// Adds a reference at the end. Nothing changes where there is no memory.
    #[tactic(auto, using(crate::proofs::Groups::pairs))]
    fn push(&mut self, number: u64, wait: Wait) -> Result<(), NoMemory>
        ensures ok { OnOk result (self.new ≡ self.old ++ (number, wait) ∷ []) }
        ensures err { OnErr result (self.new ≡ self.old) }
    {
        self.numbers.push(number)?;
        if self.waits.push(wait).is_err() {
            let _ = self.numbers.pop();
            return Err(NoMemory);
        }
        Ok(())
    }

    /// The first reference, with its number.
    #[tactic(auto, using(crate::proofs::Groups::pairs))]
    fn first(&self) -> Option<(u64, &Wait)>
        ensures { spec.lent_wait result ≡ spec.first_of self.now }
    {
        match (self.numbers.as_slice(), self.waits.as_slice()) {
            ([number, ..], [wait, ..]) => Some((*number, wait)),
            _ => None,
        }
    }

    /// The references alone.
    #[tactic(auto, using(crate::proofs::Groups::pairs))]
    fn into_waits(self) -> Waits
        ensures { result ≡ spec.waits_of self }
    {
        self.waits
    }
}

/// The references that wait, which contracts see as one list in the order in which they were made.
#[derive(Drop)]
pub(crate) struct Waiting {
    groups: BTreeMap<Vec<u8>, Group>,
    made: u64,
    alloc: Global,
}

impl Model for Waiting {
    ghost use Rattle.std.specs.Prelude.{List};
    ghost use Rattle.mx_word.specs.declared.waits.Wait.{Wait};
    ghost use Rattle.mx_names.specs.Waiting.{all_in_order, waits_of, AreGroups};

    ghost Value = { List Wait };

    ghost view = { λ w. waits_of (all_in_order w.groups.entries) };

    ghost invariant = { λ w. AreGroups (λ k. k.items) w.made w.groups.entries };
}

/// The key of the group of a name or label.
fn key_of(alloc: Global, who: &Awaited) -> Result<Vec<u8>, NoMemory>
    ensures { IfOk result (λ key. key.items ≡ spec.key_of who.now) }
{
    let mut key = Vec::new(alloc);
    match who {
        Awaited::Name(full) => {
            key.push(0)?;
            key.extend_from_slice(full.as_slice())?;
        }
        Awaited::Local(d) => {
            key.push(1)?;
            key.push(*d)?;
        }
    }
    Ok(key)
}

/// Adds a reference to its group. Nothing changes where there is no memory.
fn add(
    alloc: Global,
    groups: &mut BTreeMap<Vec<u8>, Group>,
    key: Vec<u8>,
    number: u64,
    wait: Wait,
) -> Result<(), NoMemory>
    requires groups { spec.AreGroups (λ k. k.items) number groups.old.entries }
    requires key { key.items ≡ spec.key_of wait.who }
    ensures ok { OnOk result (spec.all_in_order groups.new.entries ≡
        spec.all_in_order groups.old.entries ++ (number, wait) ∷ []) }
    ensures groups { OnOk result (spec.AreGroups (λ k. k.items) (number + 1) groups.new.entries) }
    ensures err { OnErr result (groups.new.entries ≡ groups.old.entries) }
{
    if let Some(group) = groups.get_mut(key.as_slice()) {
        return group.push(number, wait);
    }
    let group = Group::one(alloc, number, wait)?;
    groups.insert(key, group)?;
    Ok(())
}

/// The earlier of two references that may be there.
fn earlier_of_two<'a>(
    first: Option<(u64, &'a Wait)>,
    other: Option<(u64, &'a Wait)>,
) -> Option<(u64, &'a Wait)>
    ensures { spec.lent_wait result ≡ spec.earlier_of_two (spec.lent_wait first.entry) (spec.lent_wait other.entry) }
{
    match (first, other) {
        (None, other) => other,
        (Some(first), None) => Some(first),
        (Some(first), Some(other)) => {
            if first.0 < other.0 {
                Some(first)
            } else {
                Some(other)
            }
        }
    }
}

impl Waiting {
    /// No reference waits.
    pub(crate) fn new(alloc: Global) -> Waiting
        ensures { result ≡ [] }
    {
        Waiting {
            groups: BTreeMap::new(alloc),
            made: 0,
            alloc,
        }
    }

    /// Adds a reference at the end. Nothing changes where there is no memory.
    pub(crate) fn push(&mut self, wait: Wait) -> Result<(), NoMemory>
        ensures ok { OnOk result (self.new ≡ self.old ++ wait ∷ []) }
        ensures err { OnErr result (self.new ≡ self.old) }
    {
        let key = key_of(self.alloc, &wait.who)?;
        let number = self.made;
        let Some(made) = number.checked_add(1) else {
            return Err(NoMemory);
        };
        add(self.alloc, &mut self.groups, key, number, wait)?;
        self.made = made;
        Ok(())
    }

    /// Gives and removes the references to one name or label, in the order in which they were made. Nothing
    /// changes where there is no memory.
    pub(crate) fn take(&mut self, who: &Awaited) -> Result<Waits, NoMemory>
        ensures taken { IfOk result (λ waits. waits ≡ spec.waits_for who.now self.old) }
        ensures left { OnOk result (self.new ≡ spec.waits_for_others who.now self.old) }
        ensures err { OnErr result (self.new ≡ self.old) }
    {
        let key = key_of(self.alloc, who)?;
        match self.groups.remove(key.as_slice()) {
            Some(group) => Ok(group.into_waits()),
            None => Ok(Waits::new(self.alloc)),
        }
    }

    /// The earliest reference.
    pub(crate) fn first(&self) -> Option<&Wait>
        ensures { option_copied result ≡ spec.first_of self.now }
    {
        let mut first = None;
        for (_, group) in &self.groups {
            first = earlier_of_two(first, group.first());
        }
        match first {
            Some((_, wait)) => Some(wait),
            None => None,
        }
    }
}
