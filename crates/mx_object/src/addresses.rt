//! Addresses in ascending order, each once.

ghost use Rattle.std.specs.Prelude.{◌≡◌, ◌∷◌, [], IfOk, OnOk};
ghost use Rattle.mx_object.specs.Addresses as spec;

use mx_word::NoMemory;
use std::alloc::Global;
use std::collections::BTreeSet;
use std::marker::Model;

/// Addresses in ascending order, each once.
#[derive(Drop)]
pub(crate) struct Addresses {
    set: BTreeSet<u64>,
}

impl Model for Addresses {
    ghost use Rattle.std.specs.Prelude.{ℕ, List};

    ghost Value = { List ℕ };

    ghost view = { λ a. a.set.keys };
}

impl Addresses {
    /// No addresses.
    pub(crate) fn new(alloc: Global) -> Addresses
        ensures { result ≡ [] }
    {
        Addresses {
            set: BTreeSet::new(alloc),
        }
    }

    /// Adds an address, unless it is there.
    #[tactic(auto, unfolding(crate::specs::Addresses::with_all))]
    pub(crate) fn add(&mut self, address: u64) -> Result<(), NoMemory>
        ensures { OnOk result (self.new ≡ spec.with_all self.old (address ∷ [])) }
    {
        match self.set.insert(address) {
            Ok(_) => Ok(()),
            Err(_) => Err(NoMemory),
        }
    }

    /// Whether an address is there.
    #[tactic(auto, using(crate::proofs::AddressLists::looking))]
    pub(crate) fn has(&self, address: u64) -> bool
        ensures { result ≡ spec.has self.now address }
    {
        self.set.contains(&address)
    }

    /// The addresses as a list.
    pub(crate) fn list(&self, alloc: Global) -> Result<Vec<u64>, NoMemory>
        ensures { IfOk result (λ list. list.items ≡ self.now) }
    {
        match self.set.iter().copied().collect::<Vec<u64>>(alloc) {
            Ok(list) => Ok(list),
            Err(_) => Err(NoMemory),
        }
    }
}
