//! Trips, and the events that lead to them.

ghost use Rattle.std.specs.Prelude.{◌≡◌, ◌≢◌, ◌<◌, ◌+◌, ◌^◌, ◌++◌, ◌∷◌, [], Some};
ghost use Rattle.mx_ring.specs.Stack.{set_overfills};
ghost use Rattle.mx_code.specs.SpecialRegisters.{rA};
ghost use Rattle.mx_core.specs.Way.Calls as spec;
ghost use Rattle.mx_core.specs.Way.Calls.{Makes, told_specials};
ghost use Rattle.mx_core.specs.Deeds.{onward, tripped, with_specials};
ghost use Rattle.mx_core.specs.Effects.{tripping, if_told};
ghost use Rattle.mx_code.specs.Instructions.{next_of, x_of};
ghost use Rattle.mx_core.specs.Kept.{state_of};
ghost use Rattle.mx_core.specs.State.{special_register, with_value_in};
ghost use Rattle.mx_core.specs.Way.KeptPage.{KeepsPlace};

use crate::{Machine, Reason};
use mx_alu::{Answer, Event, Trip, decide, noted_events_stay_in_18_bits};
use mx_code::{Instruction, Stop};
use mx_ops::codes::{RB, RH, RJ, RR, RW, RX, RY, RZ};

impl Machine {
    /// rA.
    #[tactic(auto, unfolding(crate::specs::Kept::state_of, crate::specs::State::special_register))]
    #[inline(always)]
    pub(crate) fn ra(&self) -> u64
        ensures value { result ≡ special_register (state_of self.now) rA }
        ensures bits { result < 2 ^ 18 }
    {
        self.special[21]
    }

    /// Whether a value for $k would make it local, and there is no room.
    #[tactic(auto, unfolding(crate::specs::Kept::state_of, mx_ring::specs::Stack::set_overfills))]
    pub(crate) fn overfills(&self, k: u8) -> bool
        ensures { result ≡ set_overfills (state_of self.now).stack k }
    {
        k < self.ring.g() && self.ring.l() <= k && self.ring.hidden() + u32::from(k) + 1 > 1 << 20
    }

    /// $255 gets a value: it is always global.
    #[tactic(auto, unfolding(crate::specs::Kept::state_of, mx_ring::specs::Stack::set_overfills))]
    pub(crate) fn set_last(&mut self, x: u64)
        ensures { state_of self.new ≡ with_value_in (state_of self.old) 255 x }
    {
        let _g = self.ring.g();
        let _ = self.ring.set(255, x);
    }

    /// A special register gets a value, where one is told.
    #[inline(always)]
    pub(crate) fn put_told(&mut self, code: u8, x: Option<u64>)
        requires range { code < 32 }
        requires not_ra { code ≢ rA }
        ensures state { state_of self.new ≡ with_specials (state_of self.old) (if_told code x) }
        ensures code { KeepsPlace self.old self.new }
    {
        if let Some(x) = x {
            self.put(code, x);
        }
    }

    /// A trip to a handler, with two operands.
    #[tactic(auto, unfolding(crate::specs::State::special_register))]
    pub(crate) fn trip(&mut self, i: &Instruction, handler: u64, y: u64, z: u64)
        ensures { state_of self.new ≡ onward (tripped (state_of self.old) i.now (Some (tripping handler y z))) handler }
    {
        let link = self.special(RJ);
        let last = self.register(255);
        self.put(RW, i.next());
        self.put(RX, with_top_bit(i.word));
        self.put(RY, y);
        self.put(RZ, z);
        self.put(RB, last);
        self.set_last(link);
        self.go_to(handler);
    }

    /// $X, rH and rR get what an answer tells, and the machine goes on.
    #[tactic(auto, using(crate::proofs::Results::Outcomes::specials_append), unfolding(crate::specs::Way::Calls::set_outcome))]
    #[inline(always)]
    pub(crate) fn give(&mut self, i: &Instruction, a: &Answer) -> Result<(), Stop>
        ensures { Makes (λ s. spec.settled_with s (x_of i.now) a.now.x (told_specials a.now) (next_of i.now)) result
            self.old self.new }
    {
        match self.set(i.x(), a.x) {
            Ok(()) => {
                self.put_told(RH, a.h);
                self.put_told(RR, a.r);
                self.go_to(i.next());
                Ok(())
            }
            Err(stop) => Err(stop),
        }
    }

    /// $X, rH and rR get what an answer tells, and its event is noted, or trips with two operands.
    #[inline(never)]
    fn raise(
        &mut self,
        i: &Instruction,
        y: u64,
        z: u64,
        a: &Answer,
        event: Event,
    ) -> Result<(), Stop>
        ensures { Makes (λ s. spec.raised s i.now a.now.x (told_specials a.now) y z (Some event)) result
            self.old self.new }
    {
        noted_events_stay_in_18_bits();
        match decide(self.ra(), event) {
            Trip::Noted(status) => self.give_noted(i, a, status),
            Trip::Taken(handler) => self.give_tripped(i, a, handler, y, z),
        }
    }

    /// $X, rH and rR get what an answer tells, its event is noted in rA, and the machine goes on.
    #[tactic(auto, using(crate::proofs::Results::Outcomes::specials_append), unfolding(crate::specs::Way::Calls::set_outcome))]
    fn give_noted(&mut self, i: &Instruction, a: &Answer, status: u64) -> Result<(), Stop>
        requires { status < 2 ^ 18 }
        ensures { Makes (λ s. spec.settled_with s (x_of i.now) a.now.x (told_specials a.now ++ (rA, status) ∷ [])
            (next_of i.now)) result self.old self.new }
    {
        match self.set(i.x(), a.x) {
            Ok(()) => {
                self.put_told(RH, a.h);
                self.put_told(RR, a.r);
                self.put_status(status);
                self.go_to(i.next());
                Ok(())
            }
            Err(stop) => Err(stop),
        }
    }

    /// $X, rH and rR get what an answer tells, and the machine trips.
    #[tactic(auto, using(crate::proofs::Results::Outcomes::specials_append), unfolding(crate::specs::Way::Calls::set_outcome))]
    fn give_tripped(
        &mut self,
        i: &Instruction,
        a: &Answer,
        handler: u64,
        y: u64,
        z: u64,
    ) -> Result<(), Stop>
        requires { handler < 2 ^ 63 }
        ensures { Makes (λ s. spec.trip_taken s i.now (x_of i.now) a.now.x (told_specials a.now)
            (tripping handler y z)) result self.old self.new }
    {
        if self.overfills(i.x()) {
            return Err(Stop::Stopped(Reason::StackFull));
        }
        if self.tetra(handler) == 0 {
            return Err(Stop::Stopped(Reason::UnhandledTrip));
        }
        match self.set(i.x(), a.x) {
            Ok(()) => {
                self.put_told(RH, a.h);
                self.put_told(RR, a.r);
                self.trip(i, handler, y, z);
                Ok(())
            }
            Err(stop) => Err(stop),
        }
    }

    /// What an instruction on whole numbers gives, for its operands.
    #[tactic(auto, unfolding(crate::specs::Way::Calls::answer_outcome))]
    #[inline(always)]
    pub(crate) fn answer(&mut self, i: &Instruction, y: u64, z: u64, a: &Answer) -> Result<(), Stop>
        ensures { Makes (λ s. spec.answer_outcome s i.now y z a.now) result self.old self.new }
    {
        match a.event {
            None => self.give(i, a),
            Some(event) => self.raise(i, y, z, a, event),
        }
    }
}

/// A tetra with the top bit of an octa set, as rX has it after a trip.
pub(crate) fn with_top_bit(word: u32) -> u64
    ensures { result ≡ 2 ^ 63 + word }
{
    (1 << 63) + u64::from(word)
}
