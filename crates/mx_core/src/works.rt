//! Which work of the register stack an instruction does, told before it is carried out.

ghost use Rattle.std.specs.Prelude.{◌≡◌, IfSome, None, Some};
ghost use Rattle.mx_ring.specs.Notes.{WorkNeeds};
ghost use Rattle.mx_core.specs.Deeds as deeds;
ghost use Rattle.mx_core.specs.Deeds.{deed_at, deed_of};
ghost use Rattle.mx_code.specs.Instructions.{operation_in};
ghost use Rattle.mx_code.specs.declared.instruction.Instruction.{Instruction};
ghost use Rattle.mx_core.specs.Kept.{state_of};
ghost use Rattle.mx_core.specs.Way.Noting as spec;
ghost use Rattle.mx_core.specs.Way.Noting.{TellsWork};

use crate::Machine;
use mx_alu::{Insert, Kind, inserted};
use mx_code::{Instruction, Operation};
use mx_ops::codes::{RG, RL, RW, RX, RY, RZ};
use mx_ring::RingWork;

impl Machine {
    /// The work of an instruction, or of one that it inserts.
    pub(crate) fn work_at(&self, i: &Instruction) -> Option<RingWork>
        ensures tells { TellsWork result (deed_at (state_of self.now) i.now) }
        ensures needs { IfSome result (λ work. WorkNeeds work self.now.ring) }
    {
        match i.operation() {
            Operation::Resume => self.resume_work(),
            _ => self.work(i),
        }
    }

    /// The work of an instruction. What it is given counts for nothing where all registers are noted.
    #[tactic(auto, unfolding(mx_ring::specs::Notes::WorkNeeds))]
    fn work(&self, i: &Instruction) -> Option<RingWork>
        ensures tells { TellsWork result (deed_of (operation_in i.now) (state_of self.now) i.now) }
        ensures needs { IfSome result (λ work. WorkNeeds work self.now.ring) }
    {
        self.know_ring();
        match i.operation() {
            Operation::PushJump | Operation::PushGo => Some(RingWork::Push(i.x())),
            Operation::Pop => Some(RingWork::Pop(i.x())),
            Operation::Save => Some(RingWork::Save(255, self.specials_saved())),
            Operation::Unsave => Some(RingWork::Unsave(0)),
            Operation::Put => put_work(i.x()),
            _ => None,
        }
    }

    /// The work of what RESUME inserts.
    #[tactic(auto, unfolding(crate::specs::Undoing::move_noted))]
    fn resume_work(&self) -> Option<RingWork>
        ensures tells { (i : Instruction) → TellsWork result (deeds.resumed (state_of self.now) i) }
        ensures needs { IfSome result (λ work. WorkNeeds work self.now.ring) }
    {
        let (rx, rw) = (self.special(RX), self.special(RW));
        match inserted(rx, rw, self.l(), self.g()) {
            Insert::Perform { kind, at, word } => self.find_inserted_work(kind, at, word),
            _ => None,
        }
    }

    /// The work of an inserted instruction.
    #[tactic(auto, unfolding(crate::specs::Undoing::move_noted))]
    fn find_inserted_work(&self, kind: Kind, at: u64, word: u32) -> Option<RingWork>
        ensures tells { TellsWork result (deeds.performed kind (state_of self.now) at word) }
        ensures needs { IfSome result (λ work. WorkNeeds work self.now.ring) }
    {
        match kind {
            Kind::Again => self.work(&Instruction::new(at, word)),
            Kind::Continue => {
                let given = Some((self.special(RY), self.special(RZ)));
                self.work(&Instruction { at, word, given })
            }
            Kind::Set => None,
        }
    }
}

/// The work of a PUT to a special register.
#[tactic(auto, unfolding(mx_ring::specs::Notes::WorkNeeds))]
fn put_work(code: u8) -> Option<RingWork>
    ensures value { result ≡ spec.put_work code }
{
    if code == RL || code == RG {
        Some(RingWork::CutLocals(0))
    } else {
        None
    }
}
