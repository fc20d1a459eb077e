//! Pictures that records are applied to.

use mx_core::Machine;
use mx_record::{Change, Record};
use mx_word::{NoMemory, STACK_SEGMENT};
use std::alloc::Global;

/// Addresses of octas that programs load or store.
static ADDRESSES: [u64; 10] = [
    0x100,
    0x108,
    0x118,
    0x2000_0000_0000_0000,
    0x2000_0000_0000_0008,
    0x2000_0000_0000_0010,
    0x4000_0000_0000_0000,
    0x4000_0000_0000_0008,
    0x4000_0000_0000_4000,
    0x4000_0000_0000_6000,
];

/// A picture: places that no record has named are 0.
#[derive(Drop)]
pub struct Picture {
    next: u64,
    special: Vec<Change>,
    global: Vec<Change>,
    stacked: Vec<Change>,
    octas: Vec<Change>,
}

/// Applies changes to octas by their places.
fn apply(octas: &mut Vec<Change>, changes: &[Change]) -> Result<(), NoMemory> {
    for change in changes {
        let mut is_there = false;
        for octa in octas.iter_mut() {
            if octa.at == change.at {
                octa.by ^= change.by;
                is_there = true;
            }
        }
        if !is_there {
            octas.push(*change)?;
        }
    }
    Ok(())
}

/// The octa at a place.
fn octa(octas: &[Change], at: u64) -> u64 {
    for octa in octas {
        if octa.at == at {
            return octa.by;
        }
    }
    0
}

/// Whether all octas are 0.
fn is_zero(octas: &[Change]) -> bool {
    octas.iter().all(|octa| octa.by == 0)
}

impl Picture {
    /// The picture in which everything is 0.
    pub fn new(alloc: Global) -> Picture {
        Picture {
            next: 0,
            special: Vec::new(alloc),
            global: Vec::new(alloc),
            stacked: Vec::new(alloc),
            octas: Vec::new(alloc),
        }
    }

    /// Applies a record.
    pub fn apply(&mut self, record: &Record) -> Result<(), NoMemory> {
        self.next ^= record.next;
        apply(&mut self.special, record.special.as_slice())?;
        apply(&mut self.global, record.global.as_slice())?;
        apply(&mut self.stacked, record.stacked.as_slice())?;
        apply(&mut self.octas, record.octas.as_slice())
    }

    /// Whether everything is 0.
    pub fn is_zero(&self) -> bool {
        self.next == 0
            && is_zero(self.special.as_slice())
            && is_zero(self.global.as_slice())
            && is_zero(self.stacked.as_slice())
            && is_zero(self.octas.as_slice())
    }

    /// Whether it has the special registers of a machine.
    fn has_special(&self, machine: &Machine) -> bool {
        for code in 0..32u8 {
            if code != 8
                && octa(self.special.as_slice(), u64::from(code)) != machine.special(code)
            {
                return false;
            }
        }
        true
    }

    /// Whether it has the registers of a machine: global and local ones.
    fn has_registers(&self, machine: &Machine) -> bool {
        let hidden = machine.special(10).saturating_sub(STACK_SEGMENT) / 8;
        for k in 0..machine.l() {
            let place = hidden.saturating_add(u64::from(k));
            if octa(self.stacked.as_slice(), place) != machine.register(k) {
                return false;
            }
        }
        for k in machine.g()..=255 {
            if octa(self.global.as_slice(), u64::from(k)) != machine.register(k) {
                return false;
            }
        }
        true
    }

    /// Whether it has the hidden registers that are spilled.
    fn has_spilled(&self, machine: &Machine) -> bool {
        let spilled = machine.special(11).saturating_sub(STACK_SEGMENT) / 8;
        for i in 0..spilled.min(1 << 20) {
            if octa(self.stacked.as_slice(), i) != machine.octa(STACK_SEGMENT + 8 * i) {
                return false;
            }
        }
        true
    }

    /// Whether it has the octas of memory that are named, and those at some addresses.
    fn has_octas(&self, machine: &Machine) -> bool {
        for octa in self.octas.as_slice() {
            let n = octa.at.min((1 << 60) - 1);
            if n == octa.at && octa.by != machine.octa(8 * n) {
                return false;
            }
        }
        for at in &ADDRESSES {
            if octa(self.octas.as_slice(), *at / 8) != machine.octa(*at) {
                return false;
            }
        }
        true
    }

    /// Whether it is that of a machine.
    pub fn is_of(&self, machine: &Machine) -> bool {
        self.next == machine.pc()
            && self.has_special(machine)
            && self.has_registers(machine)
            && self.has_spilled(machine)
            && self.has_octas(machine)
    }
}
