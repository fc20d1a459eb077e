//! Stores, and the exchange of an octa.

ghost use Rattle.std.specs.Prelude.{◌≡◌, ◌<◌, ◌^◌, Err, Some};
ghost use Rattle.mx_core.specs.Way.Calls.{KeepsOnErr, LacksMemoryOnlyWhere, MakesWithMemory, PerformsWithMemory, makes_page, store_settled};
ghost use Rattle.mx_core.specs.Way.Calls as spec;
ghost use Rattle.mx_code.specs.LoadsAndStores.{stored_event};
ghost use Rattle.mx_alu.specs.declared.decision.Trip.TheVariants as trips;
ghost use Rattle.mx_alu.specs.declared.answer.Event.TheVariants as event;
ghost use Rattle.mx_core.specs.Deeds.{deed_of};
ghost use Rattle.mx_code.specs.Instructions.{instruction};
ghost use Rattle.mx_core.specs.Kept.{state_of};
ghost use Rattle.mx_core.specs.Way.Stepping.{needs_page};
ghost use Rattle.mx_code.specs.Told.{answer_in};

use crate::{Machine, Reason};
use mx_alu::{Event, Trip, decide, noted_events_stay_in_18_bits};
use mx_code::{
    Instruction, Operation, Stop, Storing, Told, convert_stored, is_store_overflow, part_of_store,
};

impl Machine {
    /// STB to STCO. It takes memory only where it begins a page.
    ///
    /// Errors: the stops of a store, and out of memory; then nothing changed.
    #[tactic(auto, using(crate::proofs::Results::Stores::store_outcome_is, crate::proofs::Results::Plain::store_as_plain))]
    #[inline(always)]
    pub(crate) fn store_register(&mut self, how: Storing, i: &Instruction) -> Result<(), Stop>
        ensures answer { PerformsWithMemory (Operation.Store how) i.now result self.old self.new }
        ensures err { KeepsOnErr result self.old self.new }
        ensures lacks_memory { LacksMemoryOnlyWhere
            (needs_page (state_of self.old) (deed_of (Operation.Store how) (state_of self.old) i.now)) result }
    {
        let a = self.data_address(i);
        let x = self.x_register(i);
        if a >= 1 << 63 {
            return Err(Stop::Stopped(Reason::Negative));
        }
        if is_store_overflow(how, x) {
            return self.store_apart(how, i.at, i.word, a, x).into_result();
        }
        match self.store(a, part_of_store(how), convert_stored(how, x, i.x())) {
            Ok(()) => {
                self.go_to(i.next());
                Ok(())
            }
            Err(stop) => Err(stop),
        }
    }

    /// A store that loses the sign. It is given words and no reference, so that the instruction need not
    /// be in memory.
    #[inline(never)]
    fn store_apart(&mut self, how: Storing, at: u64, word: u32, a: u64, x: u64) -> Told
        requires address { a < 2 ^ 63 }
        requires event { stored_event how x ≡ Some event.Overflow }
        ensures answer { MakesWithMemory (λ s. store_settled s (instruction at word) how a x)
            (answer_in result) self.old self.new }
        ensures err { KeepsOnErr (answer_in result) self.old self.new }
        ensures lacks_memory { LacksMemoryOnlyWhere (makes_page (state_of self.old) a
            (store_settled (state_of self.old) (instruction at word) how a x)) (answer_in result) }
    {
        Told::from_result(self.store_overflowing(how, &Instruction::new(at, word), a, x))
    }

    /// A store that loses the sign.
    fn store_overflowing(
        &mut self,
        how: Storing,
        i: &Instruction,
        a: u64,
        x: u64,
    ) -> Result<(), Stop>
        requires address { a < 2 ^ 63 }
        requires event { stored_event how x ≡ Some event.Overflow }
        ensures answer { MakesWithMemory (λ s. store_settled s i.now how a x) result self.old self.new }
        ensures err { KeepsOnErr result self.old self.new }
        ensures lacks_memory { LacksMemoryOnlyWhere (makes_page (state_of self.old) a
            (store_settled (state_of self.old) i.now how a x)) result }
    {
        noted_events_stay_in_18_bits();
        match decide(self.ra(), Event::Overflow) {
            Trip::Noted(status) => self.store_noted(how, i, a, x, status),
            Trip::Taken(handler) => self.store_tripped(how, i, a, x, handler),
        }
    }

    /// A store that loses the sign, where that is noted in rA.
    #[tactic(auto, unfolding(crate::specs::Way::Calls::store_outcome))]
    fn store_noted(
        &mut self,
        how: Storing,
        i: &Instruction,
        a: u64,
        x: u64,
        status: u64,
    ) -> Result<(), Stop>
        requires address { a < 2 ^ 63 }
        requires bits { status < 2 ^ 18 }
        ensures answer { MakesWithMemory (λ s. spec.overflow_decided s i.now how a x (trips.Noted status)) result
            self.old self.new }
        ensures err { KeepsOnErr result self.old self.new }
        ensures lacks_memory { LacksMemoryOnlyWhere (makes_page (state_of self.old) a
            (spec.overflow_decided (state_of self.old) i.now how a x (trips.Noted status))) result }
    {
        match self.store(a, part_of_store(how), convert_stored(how, x, i.x())) {
            Ok(()) => {
                self.put_status(status);
                self.go_to(i.next());
                Ok(())
            }
            Err(stop) => Err(stop),
        }
    }

    /// A store that loses the sign, where that trips.
    #[tactic(auto, unfolding(crate::specs::Way::Calls::store_outcome))]
    fn store_tripped(
        &mut self,
        how: Storing,
        i: &Instruction,
        a: u64,
        x: u64,
        handler: u64,
    ) -> Result<(), Stop>
        requires address { a < 2 ^ 63 }
        requires handler { handler < 2 ^ 63 }
        ensures answer { MakesWithMemory (λ s. spec.overflow_decided s i.now how a x (trips.Taken handler)) result
            self.old self.new }
        ensures err { KeepsOnErr result self.old self.new }
        ensures lacks_memory { LacksMemoryOnlyWhere (makes_page (state_of self.old) a
            (spec.overflow_decided (state_of self.old) i.now how a x (trips.Taken handler))) result }
    {
        if self.tetra(handler) == 0 {
            return Err(Stop::Stopped(Reason::UnhandledTrip));
        }
        match self.store(a, part_of_store(how), convert_stored(how, x, i.x())) {
            Ok(()) => {
                self.trip(i, handler, a, x);
                Ok(())
            }
            Err(stop) => Err(stop),
        }
    }
}
