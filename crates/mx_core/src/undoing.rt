//! A step that is taken back.

ghost use Rattle.std.specs.Prelude.{◌≡◌, ◌<◌, ◌^◌, ◌/◌, ℕ, Option, true, false};
ghost use Rattle.mx_mem.specs.Memory.{octa_at, has_page, page_count, stored_at};
ghost use Rattle.mx_registers.specs.Registers.{is_marginal};
ghost use Rattle.mx_ring.specs.Stack.{visible, windowed};
ghost use Rattle.mx_ring.specs.Window.{Window};
ghost use Rattle.mx_core.specs.Kept.{state_of};
ghost use Rattle.mx_core.specs.Machines.{IsOverWindow};
ghost use Rattle.mx_code.specs.SpecialRegisters.{rH, rR};
ghost use Rattle.mx_core.specs.State.{State, with_special, with_value_in};
ghost use Rattle.mx_core.specs.Step.{went, step};
ghost use Rattle.mx_core.specs.Undoing.{FitsCall, FitsState, FitsUsual, FitsWhole, IsPaged, MayStore, OverwrittenFits, TakesBack};
ghost use Rattle.mx_core.specs.Undoing.{call_undone, noted, overwritten_undone, state_undone, usual_undone, whole_undone};
ghost use Rattle.mx_core.specs.Wild.{deed};
ghost use Rattle.mx_code.specs.declared.trace.Trace.{Trace};

use crate::noting::{Was, WholeNote};
use crate::overwritten::{CallWas, Overwritten, UsualWas};
use crate::{Machine, Note};
use mx_mem::Memory;
use mx_ops::codes::{RH, RJ, RR};

impl Machine {
    /// Takes the last step back, by its note, where nothing else changed since: registers and hidden ones, the octas of
    /// the stack area, memory and its pages, special registers and all else are what they were. It takes no memory.
    #[tactic(auto, unfolding(crate::specs::Undoing::state_undone))]
    pub fn undo(&mut self, note: Note)
        requires { FitsState note (state_of self.old) }
        ensures { state_of self.new ≡ state_undone note (state_of self.old) }
    {
        match note.was {
            Was::Whole(whole) => self.undo_whole(Box::into_inner(whole)),
            Was::Usual(was) => self.undo_usual(was),
            Was::Call(was) => self.undo_call(Box::into_inner(was)),
        }
    }

    /// Takes a usual step back.
    #[tactic(auto, unfolding(crate::specs::Kept::state_of))]
    fn undo_usual(&mut self, was: UsualWas)
        requires { FitsUsual was (state_of self.old) }
        ensures { state_of self.new ≡ usual_undone was (state_of self.old) }
    {
        self.undo_overwritten(was.overwritten);
        self.pc = was.pc;
        self.steps = was.steps;
    }

    /// Makes the register, L, rJ or the octa what it was, or the register with rH and rR.
    #[tactic(auto, unfolding(crate::specs::Kept::state_of))]
    fn undo_overwritten(&mut self, was: Overwritten)
        requires { OverwrittenFits was (state_of self.old) }
        ensures { state_of self.new ≡ overwritten_undone was (state_of self.old) }
    {
        match was {
            Overwritten::Nothing => {}
            Overwritten::Register(k, x) => self.put_register_back(narrow(k), x),
            Overwritten::Locals(l) => self.ring.cut_locals(narrow(l)),
            Overwritten::Link(x) => self.put(RJ, x),
            Overwritten::Octa(at, octa) => put_octa_back(&mut self.memory, at, octa),
            Overwritten::Results(k, x, h, r) => self.put_results_back(narrow(k), x, h, r),
        }
    }

    /// Gives a register, which is local or global, rR and rH back what they had.
    fn put_results_back(&mut self, k: u8, x: u64, h: u64, r: u64)
        requires { is_marginal (visible (state_of self.old).stack) k ≡ false }
        ensures { state_of self.new
            ≡ with_special (with_special (with_value_in (state_of self.old) k x) rR r) rH h }
    {
        self.put_register_back(k, x);
        self.put(RR, r);
        self.put(RH, h);
    }

    /// Takes a call or a return back.
    #[tactic(auto, unfolding(crate::specs::Kept::state_of))]
    fn undo_call(&mut self, was: CallWas)
        requires { FitsCall was (state_of self.old) }
        ensures { state_of self.new ≡ call_undone was (state_of self.old) }
    {
        self.ring.undo_call(&was.ring);
        self.pc = was.pc;
        self.steps = was.steps;
        self.mark = was.mark;
        self.put(RJ, was.link);
    }

    /// Gives a register, which is local or global, back what it had.
    fn put_register_back(&mut self, k: u8, x: u64)
        requires { is_marginal (visible (state_of self.old).stack) k ≡ false }
        ensures { state_of self.new ≡ with_value_in (state_of self.old) k x }
    {
        let _ = self.set(k, x);
    }

    /// Takes a step of any kind back.
    #[tactic(auto, unfolding(crate::specs::Kept::state_of))]
    fn undo_whole(&mut self, note: WholeNote)
        requires { FitsWhole note (state_of self.old) }
        ensures { state_of self.new ≡ whole_undone note (state_of self.old) }
    {
        let WholeNote {
            pc,
            special,
            mark,
            touched,
            steps,
            memory,
            ring,
        } = note;
        self.ring.undo(ring);
        self.pc = pc;
        self.special = special;
        self.mark = mark;
        self.touched = touched;
        self.steps = steps;
        match memory {
            Some(was) => {
                if was.began {
                    self.memory.drop_page(was.at);
                } else {
                    put_octa_back(&mut self.memory, was.at, was.octa);
                }
            }
            None => {}
        }
    }
}

/// An octa below 256 as a byte.
fn narrow(k: u64) -> u8
    requires { k < 256 }
    ensures { result ≡ k }
{
    k as u8
}

/// Puts an octa back on a page that is there.
fn put_octa_back(memory: &mut Memory, at: u64, octa: u64)
    requires low { at < 2 ^ 63 }
    requires has_page { has_page memory.old (at / 4096) ≡ true }
    ensures octas { octa_at memory.new ≡ stored_at (octa_at memory.old) at octa }
    ensures pages { has_page memory.new ≡ has_page memory.old }
    ensures count { page_count memory.new ≡ page_count memory.old }
{
    let _ = memory.store(at, octa);
}

/// Each machine's memory is one octa for each eight addresses, and 0 where its page is not there.
#[tactic(auto, using(crate::proofs::Undone::Notes::paged))]
#[inline(always)]
pub fn machines_are_paged(machine: &Machine)
    ensures { IsPaged (state_of machine.now) }
{
    let _ = machine;
}

/// What a deed notes takes the state after its step back to the one before: every register, every hidden one, each octa
/// of the stack area and of memory, its pages, special registers, the next address, the mark, `touched` and steps. It
/// does so wherever the octa is noted that the deed may store.
pub fn steps_are_taken_back()
    ensures { (s t : State) (w : Window) (place : Option ℕ) (trace : Trace) → IsOverWindow s → s.stack ≡ windowed w
        → IsPaged s → MayStore place (deed s).effect.store → step s ≡ went t trace
        → TakesBack (noted w s (deed s) place) t s }
{}
