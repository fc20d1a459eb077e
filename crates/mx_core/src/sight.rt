//! What an instruction does to its destination and to memory, told before it is carried out.

ghost use Rattle.std.specs.Prelude.{◌≡◌, true, false};
ghost use Rattle.mx_core.specs.Deeds.{deed_at, deed_of};
ghost use Rattle.mx_code.specs.Instructions.{operation_in};
ghost use Rattle.mx_code.specs.declared.instruction.Instruction.{Instruction};
ghost use Rattle.mx_core.specs.Kept.{state_of};
ghost use Rattle.mx_core.specs.Way.Stepping as spec;
ghost use Rattle.mx_core.specs.Way.Stepping.{Foretells, is_exchange, is_swap, sight_of};
ghost use Rattle.mx_core.specs.Deeds as deeds;

use crate::{Machine, Touch};
use mx_alu::{Insert, Kind, inserted};
use mx_code::{Instruction, Operation, destination, part_of_load, part_of_store, touch_of};
use mx_mem::Part;
use mx_ops::codes::{RW, RX, RY, RZ};

/// The destination, and what is read and written of memory.
#[derive(Clone, Copy)]
pub(crate) struct Sight {
    pub dest: Option<u8>,
    pub reads: Option<Touch>,
    pub writes: Option<Touch>,
}

impl Machine {
    /// What an instruction does. A CSWAP is told as one that writes.
    fn sight(&self, i: &Instruction) -> Sight
        ensures { Foretells (state_of self.now) (deed_of (operation_in i.now) (state_of self.now) i.now) result }
    {
        self.know_ring();
        self.sight_by_operation(i)
    }

    /// What an instruction does, told by its operation.
    #[tactic(auto, using(crate::proofs::Results::Sights::load_sight, crate::proofs::Results::Sights::store_sight, crate::proofs::Results::Sights::quiet_sight))]
    #[inline(always)]
    pub(crate) fn sight_by_operation(&self, i: &Instruction) -> Sight
        ensures value { is_swap (operation_in i.now) ≡ false →
            result ≡ sight_of (deed_of (operation_in i.now) (state_of self.now) i.now) }
        ensures apart { is_swap (operation_in i.now) ≡ false → is_exchange result ≡ false }
        ensures exchange { is_swap (operation_in i.now) ≡ true →
            result ≡ spec.exchange_sight (state_of self.now) i.now }
    {
        match i.operation() {
            Operation::Load(how) => Sight {
                dest: Some(i.x()),
                reads: Some(touch_of(self.data_address(i), part_of_load(how))),
                writes: None,
            },
            Operation::Store(how) => Sight {
                dest: None,
                reads: None,
                writes: Some(touch_of(self.data_address(i), part_of_store(how))),
            },
            Operation::CompareAndSwap => self.exchange_sight(i),
            operation => Sight {
                dest: destination(operation, i),
                reads: None,
                writes: None,
            },
        }
    }

    /// A CSWAP that writes.
    fn exchange_sight(&self, i: &Instruction) -> Sight
        ensures { result ≡ spec.exchange_sight (state_of self.now) i.now }
    {
        let place = touch_of(self.data_address(i), Part::Octa);
        Sight {
            dest: Some(i.x()),
            reads: Some(place),
            writes: Some(place),
        }
    }

    /// What RESUME does by the instruction that it inserts.
    fn resume_sight(&self) -> Sight
        ensures { (i : Instruction) → Foretells (state_of self.now) (deeds.resumed (state_of self.now) i) result }
    {
        let (rx, rw) = (self.special(RX), self.special(RW));
        match inserted(rx, rw, self.l(), self.g()) {
            Insert::Perform { kind, at, word } => self.find_inserted_sight(kind, at, word),
            _ => Sight {
                dest: None,
                reads: None,
                writes: None,
            },
        }
    }

    /// What an inserted instruction does.
    #[tactic(auto, using(crate::proofs::Results::Foretold::set_foretold))]
    fn find_inserted_sight(&self, kind: Kind, at: u64, word: u32) -> Sight
        ensures { Foretells (state_of self.now) (deeds.performed kind (state_of self.now) at word) result }
    {
        match kind {
            Kind::Again => self.sight(&Instruction::new(at, word)),
            Kind::Continue => {
                let given = Some((self.special(RY), self.special(RZ)));
                self.sight(&Instruction { at, word, given })
            }
            Kind::Set => Sight {
                dest: Some(Instruction::new(at, word).x()),
                reads: None,
                writes: None,
            },
        }
    }

    /// What an instruction, or one that it inserts, does.
    pub(crate) fn sight_at(&self, i: &Instruction) -> Sight
        ensures { Foretells (state_of self.now) (deed_at (state_of self.now) i.now) result }
    {
        match i.operation() {
            Operation::Resume => self.resume_sight(),
            _ => self.sight(i),
        }
    }

    /// What was written, once the instruction is carried out: $X is 1 after a CSWAP that wrote.
    pub(crate) fn touch_written(&self, sight: &Sight) -> Option<Touch>
        ensures { result ≡ spec.write_told (state_of self.now) sight.now }
    {
        match (sight.dest, sight.reads, sight.writes) {
            (Some(x), Some(_), Some(place)) => {
                if self.register(x) == 1 {
                    Some(place)
                } else {
                    None
                }
            }
            _ => sight.writes,
        }
    }
}
