//! GET and PUT, SAVE and UNSAVE, and what only tests its fields.

ghost use Rattle.std.specs.Prelude.{◌≡◌, ◌≤◌, ◌<◌, ◌^◌, ◌==◌, ◌||◌, IfOk, nat_lt, not};
ghost use Rattle.mx_ring.specs.Stack.{stack_index, unsave_refused};
ghost use Rattle.mx_core.specs.Way.Calls as spec;
ghost use Rattle.mx_core.specs.Way.Calls.{Makes, Performs, frame_back, unless};
ghost use Rattle.mx_core.specs.Effects.{specials_back, specials_saved};
ghost use Rattle.mx_core.specs.Deeds.{with_specials};
ghost use Rattle.mx_code.specs.Instructions.{x_of, y_of};
ghost use Rattle.mx_core.specs.Kept.{state_of};
ghost use Rattle.mx_core.specs.State.{global_start};
ghost use Rattle.mx_code.specs.declared.reason.Reason.TheVariants as reasons;

use crate::bounds::know_bounds;
use crate::machine::is_in_stack_area;
use crate::{Machine, Reason};
use mx_code::{Instruction, Operation, Put, Stop, may_put, stored_values_are_in_bounds};
use mx_ops::codes::{RB, RD, RE, RH, RJ, RM, RP, RR, RS, RW, RX, RY, RZ};
use mx_ring::Saved;
use mx_word::STACK_SEGMENT;

impl Machine {
    /// Notes that a program looked at rS or at the memory of the register stack, where it did.
    #[tactic(auto, unfolding(crate::specs::Kept::state_of))]
    #[inline(always)]
    pub(crate) fn note_where(&mut self, looks: bool)
        ensures { state_of self.new ≡ spec.with_touch_where (state_of self.old) looks }
    {
        if looks {
            self.touched = true;
        }
    }

    /// GET.
    #[tactic(auto, using(crate::proofs::Results::Others::get_outcome_is))]
    #[inline(always)]
    pub(crate) fn get_special(&mut self, i: &Instruction) -> Result<(), Stop>
        ensures { Performs Operation.Get i.now result self.old self.new }
    {
        if i.y() != 0 || i.z() > 31 {
            return Err(Stop::Stopped(Reason::Illegal));
        }
        match self.set(i.x(), self.x_register(i)) {
            Ok(()) => {
                let value = self.special(i.z());
                self.note_where(i.z() == RS);
                self.settle(i, value, i.next())
            }
            Err(stop) => Err(stop),
        }
    }

    /// PUT.
    #[tactic(auto, using(crate::proofs::Results::Puts::put_outcome_is))]
    pub(crate) fn put_special(&mut self, i: &Instruction) -> Result<(), Stop>
        ensures { Performs Operation.Put i.now result self.old self.new }
    {
        if has_bad_special(i) {
            return Err(Stop::Stopped(Reason::Illegal));
        }
        stored_values_are_in_bounds();
        match may_put(i.x(), self.z_operand(i), self.g(), self.l()) {
            Put::Illegal => Err(Stop::Stopped(Reason::Illegal)),
            Put::Privileged => Err(Stop::Stopped(Reason::Privileged)),
            Put::Store(value) => {
                self.put_stored(i.x(), value);
                self.go_to(i.next());
                Ok(())
            }
        }
    }

    /// SYNC.
    #[tactic(auto, using(crate::proofs::Results::Others::sync_outcome_is))]
    pub(crate) fn synchronize(&mut self, i: &Instruction) -> Result<(), Stop>
        ensures { Performs Operation.Synchronize i.now result self.old self.new }
    {
        let xyz = i.xyz();
        if xyz > 7 {
            return Err(Stop::Stopped(Reason::Illegal));
        }
        if xyz > 3 {
            return Err(Stop::Stopped(Reason::Privileged));
        }
        self.go_to(i.next());
        Ok(())
    }

    /// PRELD to SYNCID, and SWYM.
    #[tactic(auto, using(crate::proofs::Results::Others::nothing_outcome))]
    #[inline(always)]
    pub(crate) fn do_nothing(&mut self, i: &Instruction) -> Result<(), Stop>
        ensures { Performs Operation.Nothing i.now result self.old self.new }
    {
        self.go_to(i.next());
        Ok(())
    }

    /// TRIP.
    #[tactic(auto, using(crate::proofs::Results::Others::trip_outcome_is))]
    pub(crate) fn trip_at_once(&mut self, i: &Instruction) -> Result<(), Stop>
        ensures { Performs Operation.Trip i.now result self.old self.new }
    {
        if self.tetra(0) == 0 {
            return Err(Stop::Stopped(Reason::UnhandledTrip));
        }
        let (y, z) = (self.y_operand(i), self.z_operand(i));
        self.trip(i, 0, y, z);
        Ok(())
    }

    /// SAVE.
    #[tactic(auto, using(crate::proofs::Results::Others::save_outcome_is))]
    pub(crate) fn save(&mut self, i: &Instruction) -> Result<(), Stop>
        ensures { Performs Operation.Save i.now result self.old self.new }
    {
        if i.yz() != 0 || i.x() < self.g() {
            return Err(Stop::Stopped(Reason::Illegal));
        }
        match self.save_registers(i.x()) {
            Ok(()) => {
                self.go_to(i.next());
                Ok(())
            }
            Err(stop) => Err(stop),
        }
    }

    /// The register stack's part of SAVE.
    #[tactic(auto, using(crate::proofs::Kept::Marks::save_marks), unfolding(crate::specs::Kept::state_of))]
    fn save_registers(&mut self, x: u8) -> Result<(), Stop>
        requires { global_start (state_of self.old) ≤ x }
        ensures { Makes (λ s. spec.registers_saved s x) result self.old self.new }
    {
        let specials = self.specials_saved();
        know_bounds(&self.ring);
        match self.ring.save(x, &specials) {
            Ok(()) => {
                self.mark = self.ring.hidden();
                Ok(())
            }
            Err(_) => Err(Stop::Stopped(Reason::StackFull)),
        }
    }

    /// The special registers that SAVE saves.
    pub(crate) fn specials_saved(&self) -> Saved
        ensures value { result ≡ specials_saved (state_of self.now) }
        ensures bits { result.a < 2 ^ 18 }
    {
        Saved {
            b: self.special(RB),
            d: self.special(RD),
            e: self.special(RE),
            h: self.special(RH),
            j: self.special(RJ),
            m: self.special(RM),
            r: self.special(RR),
            p: self.special(RP),
            w: self.special(RW),
            x: self.special(RX),
            y: self.special(RY),
            z: self.special(RZ),
            a: self.ra(),
        }
    }

    /// UNSAVE.
    #[tactic(auto, using(crate::proofs::Results::Others::unsave_outcome_is))]
    pub(crate) fn unsave(&mut self, i: &Instruction) -> Result<(), Stop>
        ensures { Performs Operation.Unsave i.now result self.old self.new }
    {
        if has_x_or_y(i) {
            return Err(Stop::Stopped(Reason::Illegal));
        }
        let a = self.z_operand(i);
        let looks = self.looks_unsaved(a);
        match self.bring_back(a) {
            Ok(()) => {
                self.note_where(looks);
                self.go_to(i.next());
                Ok(())
            }
            Err(stop) => Err(stop),
        }
    }

    /// Whether UNSAVE at an address looks at octas that were not saved.
    #[tactic(auto, unfolding(crate::specs::Kept::state_of))]
    fn looks_unsaved(&self, a: u64) -> bool
        ensures { result ≡ spec.looks_unsaved (state_of self.now) a }
    {
        is_in_stack_area(a) && u64::from(self.mark) <= (a - STACK_SEGMENT) / 8
    }

    /// The frame whose last octa holds an address is brought back.
    fn bring_back(&mut self, a: u64) -> Result<(), Stop>
        ensures { Makes (λ s. unless (unsave_refused s.stack a) reasons.BadFrame
            (frame_back s (stack_index a))) result self.old self.new }
    {
        match self.bring_registers_back(a) {
            Ok(saved) => {
                self.put_back(&saved);
                Ok(())
            }
            Err(stop) => Err(stop),
        }
    }

    /// The register stack's part of UNSAVE: the special registers of the frame.
    #[tactic(auto, unfolding(crate::specs::Kept::state_of, mx_ring::specs::Stack::unsaved_specials, mx_ring::specs::Frames::frame_specials))]
    fn bring_registers_back(&mut self, a: u64) -> Result<Saved, Stop>
        ensures answer { (result, state_of self.new) ≡ spec.brought_back (state_of self.old) a }
        ensures bits { IfOk result (λ f. f.a < 2 ^ 18) }
    {
        know_bounds(&self.ring);
        match self.ring.unsave(a) {
            Ok(saved) => {
                self.mark = self.ring.hidden();
                Ok(saved)
            }
            Err(_) => Err(Stop::Stopped(Reason::BadFrame)),
        }
    }

    /// The special registers of a frame.
    #[tactic(auto, unfolding(crate::specs::Kept::state_of))]
    fn put_back(&mut self, f: &Saved)
        requires { f.now.a < 2 ^ 18 }
        ensures { state_of self.new ≡ with_specials (state_of self.old) (specials_back f.now) }
    {
        self.put(RB, f.b);
        self.put(RD, f.d);
        self.put(RE, f.e);
        self.put(RH, f.h);
        self.put(RJ, f.j);
        self.put(RM, f.m);
        self.put(RR, f.r);
        self.put(RP, f.p);
        self.put(RW, f.w);
        self.put(RX, f.x);
        self.put(RY, f.y);
        self.put(RZ, f.z);
        self.put_status(f.a);
    }
}

/// Whether an instruction has an X or a Y.
fn has_x_or_y(i: &Instruction) -> bool
    ensures { result ≡ (not (x_of i.now == 0) || not (y_of i.now == 0)) }
{
    i.x() != 0 || i.y() != 0
}

/// Whether PUT has a Y, or an X that is no code of a special register.
fn has_bad_special(i: &Instruction) -> bool
    ensures { result ≡ (not (y_of i.now == 0) || nat_lt 31 (x_of i.now)) }
{
    i.y() != 0 || i.x() > 31
}
