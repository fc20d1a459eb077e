//! Calls that few registers take part in: they are noted without memory that has to be taken for the note's lists.

ghost use Rattle.std.specs.Prelude.{◌≡◌, ◌≤◌, ◌<◌, ◌+◌, ◌-◌, ℕ, IfSome, length, take, drop};
ghost use Rattle.mx_ring.specs.Bounds.{IsRing};
ghost use Rattle.mx_ring.specs.Notes.{call_noted, called_with, spilled_by, ring_undone, FitsRing};

use super::Ring;
use crate::call_note::{CallNote, eight_of};
use crate::notes::RingWork;
use mx_registers::FEW;

impl Ring {
    /// What PUSHJ and PUSHGO overwrite, where X and L are small and nothing is spilled.
    #[inline(always)]
    pub fn note_push(&self, x: u8) -> Option<CallNote>
        ensures note { IfSome result (λ n. n ≡ call_noted (RingWork.Push x) self.now) }
        ensures unspilled { IfSome result (λ _. spilled_by (RingWork.Push x) self.now ≡ 0) }
        ensures bounds { IsRing self.now }
    {
        if usize::from(x) < FEW && self.visible.local_count() <= FEW && self.hidden.has_room(FEW) {
            return Some(self.note_few(x));
        }
        None
    }

    /// What they overwrite where that holds.
    #[inline(always)]
    fn note_few(&self, x: u8) -> CallNote
        requires few { x < 8 }
        requires locals { length self.now.visible.locals ≤ 8 }
        requires ring { length self.now.hidden.resident + 8 ≤ 255 }
        ensures note { result ≡ call_noted (RingWork.Push x) self.now }
        ensures unspilled { spilled_by (RingWork.Push x) self.now ≡ 0 }
        ensures bounds { IsRing self.now }
    {
        self.note_with(self.hidden.len() - self.hidden.spilled_count())
    }

    /// What POP overwrites, where L is small and few hidden octas leave the ring.
    #[inline(always)]
    pub fn note_pop(&self) -> Option<CallNote>
        ensures note { (x : ℕ) → IfSome result (λ n. n ≡ call_noted (RingWork.Pop x) self.now) }
        ensures bounds { IsRing self.now }
    {
        let stays = self.count_staying_at_pop();
        self.note_if_few(stays)
    }

    /// What a call overwrites that leaves so many of the hidden octas in the ring, where L is small and few others are.
    #[inline(always)]
    fn note_if_few(&self, stays: usize) -> Option<CallNote>
        requires { stays ≤ length self.now.hidden.resident }
        ensures note { IfSome result (λ n. n ≡ called_with stays self.now) }
        ensures bounds { IsRing self.now }
    {
        let resident = self.hidden.len() - self.hidden.spilled_count();
        if self.visible.local_count() <= FEW && resident - stays <= FEW {
            return Some(self.note_with(stays));
        }
        None
    }

    /// The note of such a call.
    #[inline(always)]
    fn note_with(&self, stays: usize) -> CallNote
        requires stays { stays ≤ length self.now.hidden.resident }
        requires locals { length self.now.visible.locals ≤ 8 }
        requires gone { length self.now.hidden.resident ≤ stays + 8 }
        ensures note { result ≡ called_with stays self.now }
        ensures bounds { IsRing self.now }
    {
        let spilled = self.hidden.spilled_count();
        CallNote {
            local_count: self.visible.local_count(),
            locals: self.eight_locals(),
            spilled,
            stays,
            gone_count: self.hidden.len() - spilled - stays,
            gone: self.eight_residents(stays),
        }
    }

    /// Eight registers, the first of which are the local ones.
    #[inline(always)]
    fn eight_locals(&self) -> [u64; 8]
        requires { length self.now.visible.locals ≤ 8 }
        ensures { take (length self.now.visible.locals) result ≡ self.now.visible.locals }
    {
        let _bounds = self.visible.first_global();
        eight_of(self.visible.registers_below(FEW))
    }

    /// Eight octas, the first of which are those in the ring after this many.
    #[inline(always)]
    fn eight_residents(&self, stays: usize) -> [u64; 8]
        requires stays { stays ≤ length self.now.hidden.resident }
        requires gone { length self.now.hidden.resident ≤ stays + 8 }
        ensures { take (length self.now.hidden.resident - stays) result ≡ drop stays self.now.hidden.resident }
    {
        let _all = self.hidden.len();
        let from = self.hidden.spilled_count() + stays;
        eight_of(self.hidden.some_from(from, FEW))
    }

    /// Takes the last call back, by such a note, where nothing else changed since. It takes no memory.
    pub fn undo_call(&mut self, note: &CallNote)
        requires { FitsRing note.now self.old }
        ensures { self.new ≡ ring_undone note.now self.old }
    {
        note.give_registers(&mut self.visible);
        note.give_hidden(&mut self.hidden);
    }
}
