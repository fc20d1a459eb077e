//! RESUME.

ghost use Rattle.std.specs.Prelude.{◌≡◌, false};
ghost use Rattle.mx_core.specs.Way.Calls.{KeepsOnErr, LacksMemoryOnlyWhere, Makes, MakesWithMemory, sets_marginal};
ghost use Rattle.mx_core.specs.Deeds as deeds;
ghost use Rattle.mx_core.specs.Deeds.{outcome, resumed};
ghost use Rattle.mx_code.specs.Instructions as spec;
ghost use Rattle.mx_core.specs.Kept.{state_of};
ghost use Rattle.mx_core.specs.Way.Stepping.{needs_page};
ghost use Rattle.mx_alu.specs.declared.insertion.Kind.TheVariants as kinds;

use crate::{Machine, Reason};
use mx_alu::{Insert, Kind, inserted};
use mx_code::{Instruction, Stop};
use mx_ops::codes::{RW, RX, RY, RZ};

impl Machine {
    /// RESUME 0: it goes on after a trip, or performs an inserted instruction.
    ///
    /// Errors: the stops of RESUME and of what it inserts, and out of memory; then nothing changed.
    #[inline(never)]
    pub(crate) fn resume(&mut self, i: &Instruction) -> Result<(), Stop>
        ensures answer { MakesWithMemory (λ s. outcome s (resumed s i.now)) result self.old self.new }
        ensures err { KeepsOnErr result self.old self.new }
        ensures lacks_memory { LacksMemoryOnlyWhere
            (needs_page (state_of self.old) (resumed (state_of self.old) i.now)) result }
    {
        if i.xyz() != 0 {
            return Err(Stop::Stopped(Reason::Illegal));
        }
        match inserted(self.special(RX), self.special(RW), self.l(), self.g()) {
            Insert::Back(address) => {
                self.go_to(address);
                Ok(())
            }
            Insert::Perform { kind, at, word } => self.perform_inserted(kind, at, word),
            Insert::Illegal => Err(Stop::Stopped(Reason::Illegal)),
            Insert::LeftOut => Err(Stop::Stopped(Reason::ResumeInsert)),
        }
    }

    /// An inserted instruction, as if it were at an address. A register that it sets is local or global.
    fn perform_inserted(&mut self, kind: Kind, at: u64, word: u32) -> Result<(), Stop>
        requires { kind ≡ kinds.Set → sets_marginal (state_of self.old) (spec.instruction at word) ≡ false }
        ensures answer { MakesWithMemory (λ s. outcome s (deeds.performed kind s at word)) result self.old self.new }
        ensures err { KeepsOnErr result self.old self.new }
        ensures lacks_memory { LacksMemoryOnlyWhere
            (needs_page (state_of self.old) (deeds.performed kind (state_of self.old) at word)) result }
    {
        match kind {
            Kind::Again => self.perform(&Instruction::new(at, word)),
            Kind::Continue => {
                let given = Some((self.special(RY), self.special(RZ)));
                self.perform(&Instruction { at, word, given })
            }
            Kind::Set => self.set_inserted(at, word),
        }
    }

    /// The register X of an inserted instruction gets rZ.
    #[tactic(auto, using(crate::proofs::Results::Resumes::set_done, crate::proofs::Results::Resumes::shown_fits), unfolding(crate::specs::Way::Calls::settled))]
    fn set_inserted(&mut self, at: u64, word: u32) -> Result<(), Stop>
        requires { sets_marginal (state_of self.old) (spec.instruction at word) ≡ false }
        ensures { Makes (λ s. outcome s (deeds.performed kinds.Set s at word)) result self.old self.new }
    {
        let i = Instruction::new(at, word);
        let value = self.special(RZ);
        self.settle(&i, value, i.next())
    }
}
