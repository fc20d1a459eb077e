//! The exchange of an octa: CSWAP.

ghost use Rattle.std.specs.Prelude.{◌≡◌, ◌<◌, ◌^◌, false, true};
ghost use Rattle.mx_ring.specs.Stack.{in_stack_area};
ghost use Rattle.mx_core.specs.Way.Calls as spec;
ghost use Rattle.mx_core.specs.Way.Calls.{KeepsOnErr, LacksMemoryOnlyWhere, Makes, MakesWithMemory, PerformsWithMemory};
ghost use Rattle.mx_core.specs.Deeds.{deed_of};
ghost use Rattle.mx_core.specs.Effects.{data_address};
ghost use Rattle.mx_core.specs.Kept.{state_of};
ghost use Rattle.mx_core.specs.State.{octa};
ghost use Rattle.mx_core.specs.Way.Stepping.{needs_page};

use crate::machine::is_in_stack_area;
use crate::{Machine, Reason};
use mx_code::{Instruction, Operation, Stop};
use mx_mem::Part;
use mx_ops::codes::RP;
use mx_word::is_in_stack_segment;

impl Machine {
    /// CSWAP. It takes memory only where it writes and begins a page.
    ///
    /// Errors: the stops of CSWAP, and out of memory; then nothing changed.
    #[tactic(auto, using(crate::proofs::Results::Swaps::swap_negative, crate::proofs::Results::Swaps::swap_outside))]
    pub(crate) fn swap(&mut self, i: &Instruction) -> Result<(), Stop>
        ensures answer { PerformsWithMemory Operation.CompareAndSwap i.now result self.old self.new }
        ensures err { KeepsOnErr result self.old self.new }
        ensures lacks_memory { LacksMemoryOnlyWhere
            (needs_page (state_of self.old) (deed_of Operation.CompareAndSwap (state_of self.old) i.now)) result }
    {
        let a = self.data_address(i);
        if a >= 1 << 63 {
            return Err(Stop::Stopped(Reason::Negative));
        }
        if is_in_stack_area(a) {
            return self.swap_spilled(i, a);
        }
        let found = self.octa(a);
        if found == self.special(RP) {
            self.exchange(i, a)
        } else {
            self.leave(i, a, found)
        }
    }

    /// Memory outside the stack area gets $X, and $X becomes 1.
    #[tactic(auto, unfolding(crate::specs::Way::Calls::store_outcome))]
    fn exchange(&mut self, i: &Instruction, a: u64) -> Result<(), Stop>
        requires address { a < 2 ^ 63 }
        requires outside { in_stack_area a ≡ false }
        ensures answer { MakesWithMemory (λ s. spec.exchanged s i.now a) result self.old self.new }
        ensures err { KeepsOnErr result self.old self.new }
        ensures lacks_memory { LacksMemoryOnlyWhere (spec.makes_page (state_of self.old) a
            (spec.exchanged (state_of self.old) i.now a)) result }
    {
        if self.overfills(i.x()) {
            return Err(Stop::Stopped(Reason::StackFull));
        }
        let datum = self.x_register(i);
        match self.store(a, Part::Octa, datum) {
            Ok(()) => self.settle(i, 1, i.next()),
            Err(stop) => Err(stop),
        }
    }

    /// rP gets what memory has, and $X becomes 0.
    #[tactic(auto, unfolding(crate::specs::Way::Calls::set_outcome))]
    fn leave(&mut self, i: &Instruction, a: u64, found: u64) -> Result<(), Stop>
        ensures { Makes (λ s. spec.left_alone s i.now a found) result self.old self.new }
    {
        match self.set(i.x(), 0) {
            Ok(()) => {
                self.put(RP, found);
                self.note_where(is_in_stack_segment(a));
                self.go_to(i.next());
                Ok(())
            }
            Err(stop) => Err(stop),
        }
    }

    /// CSWAP of an octa in the stack area: its destination becomes local first.
    fn swap_spilled(&mut self, i: &Instruction, a: u64) -> Result<(), Stop>
        requires address { a ≡ data_address (state_of self.old) i.now }
        requires inside { in_stack_area a ≡ true }
        requires below { a < 2 ^ 63 }
        ensures answer { PerformsWithMemory Operation.CompareAndSwap i.now result self.old self.new }
        ensures err { KeepsOnErr result self.old self.new }
        ensures lacks_memory { LacksMemoryOnlyWhere false result }
    {
        match self.set(i.x(), self.x_register(i)) {
            Ok(()) => self.swap_local(i, a),
            Err(stop) => Err(stop),
        }
    }

    /// CSWAP of an octa in the stack area, where its destination is local.
    fn swap_local(&mut self, i: &Instruction, a: u64) -> Result<(), Stop>
        requires inside { in_stack_area a ≡ true }
        requires below { a < 2 ^ 63 }
        ensures { Makes (λ s. spec.swap_made s i.now a (octa s a)) result self.old self.new }
    {
        let found = self.octa(a);
        if found == self.special(RP) {
            self.exchange_local(i, a)
        } else {
            self.leave(i, a, found)
        }
    }

    /// Memory in the stack area gets $X, and $X becomes 1.
    #[tactic(auto, unfolding(crate::specs::Way::Calls::set_outcome, crate::specs::Way::Calls::store_outcome))]
    fn exchange_local(&mut self, i: &Instruction, a: u64) -> Result<(), Stop>
        requires inside { in_stack_area a ≡ true }
        requires below { a < 2 ^ 63 }
        ensures { Makes (λ s. spec.exchanged s i.now a) result self.old self.new }
    {
        let datum = self.x_register(i);
        match self.set(i.x(), 1) {
            Ok(()) => {
                let _ = self.store(a, Part::Octa, datum);
                self.go_to(i.next());
                Ok(())
            }
            Err(stop) => Err(stop),
        }
    }
}
