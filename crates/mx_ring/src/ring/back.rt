//! Calls of the register stack that are noted, and taken back.

ghost use Rattle.std.specs.Prelude.{◌≡◌, ◌≢◌, ◌≤◌, ◌<◌, ◌+◌, ◌-◌, ◌*◌, ◌^◌, length, IfOk, OnOk, OnErr, Ok, Err};
ghost use Rattle.mx_ring.specs.Bounds.{IsRing};
ghost use Rattle.mx_ring.specs.Notes.{worked, work_answer, WorkNeeds, ring_noted, ring_noted_stored, ring_undone};
ghost use Rattle.mx_ring.specs.Notes.{octa_noted, octa_after_spill, spilled_by, push_spills, above_room, staying};
ghost use Rattle.mx_ring.specs.Notes.{plain_answer, specials_answer, FitsRing, TakesBack};
ghost use Rattle.mx_registers.specs.HiddenPart.{octas_of};
ghost use Rattle.mx_ring.specs.Stack.{windowed, hole_in};
ghost use Rattle.mx_word.specs.Results.{map_ok};

use super::Ring;
use crate::hiding::hole;
use crate::notes::{RingNote, RingWork, note_registers};
use crate::{RingFault, Saved};

impl Ring {
    /// Does the call that `work` names, and notes what it overwrites. The special registers are those of the frame that
    /// UNSAVE brings back. It may take memory for the note.
    ///
    /// Errors: those of the call, and `OutOfMemory`; then nothing changed.
    pub fn noted(&mut self, work: RingWork) -> Result<(RingNote, Option<Saved>), RingFault>
        requires { WorkNeeds work self.old }
        ensures answer { result ≢ Err RingFault.OutOfMemory
            → map_ok (λ r. r.1) result ≡ work_answer work (windowed self.old) }
        ensures ok { OnOk result (windowed self.new ≡ worked work (windowed self.old)) }
        ensures note { IfOk result (λ r. r.0 ≡ ring_noted work self.old) }
        ensures back { IfOk result (λ r. TakesBack r.0 self.new self.old) }
        ensures err { OnErr result (self.new ≡ self.old) }
    {
        let note = self.note(work)?;
        let specials = self.perform(work)?;
        Ok((note, specials))
    }

    /// Takes the last call back, by its note, where nothing else changed since: every register, every hidden one, and
    /// every octa of the stack area is what it was. It takes no memory.
    pub fn undo(&mut self, note: RingNote)
        requires { FitsRing note self.old }
        ensures { self.new ≡ ring_undone note self.old }
    {
        note.give_registers(&mut self.visible);
        note.give_hidden(&mut self.hidden);
    }

    /// Notes what the call overwrites that `work` names.
    ///
    /// Errors: `OutOfMemory` alone.
    #[tactic(auto, unfolding(crate::specs::Notes::ring_noted))]
    pub fn note(&mut self, work: RingWork) -> Result<RingNote, RingFault>
        requires { WorkNeeds work self.old }
        ensures note { IfOk result (λ note. note ≡ ring_noted work self.old) }
        ensures bounds { IsRing self.old }
        ensures same { self.new ≡ self.old }
        ensures memory { OnErr result (result ≡ Err RingFault.OutOfMemory) }
    {
        let registers = note_registers(self.alloc, work, &self.visible)?;
        let count = self.count_spilled_by(work);
        let stays = self.count_staying(work);
        let octa = self.overwritten_octa(work);
        let over = self.hidden.copy_after_spilled(count)?;
        let gone = self.hidden.copy_residents_from(stays)?;
        Ok(RingNote {
            registers,
            spilled: self.hidden.spilled_count(),
            over,
            stays,
            gone,
            octa,
        })
    }

    /// Notes what a value for $k overwrites, and the octa of the stack area at an index below 2^20 as it is once $k has that
    /// value: for a store, before the value or after it.
    ///
    /// Errors: `OutOfMemory` alone.
    #[tactic(auto, unfolding(crate::specs::Notes::ring_noted_stored, crate::specs::Notes::WorkNeeds))]
    pub fn note_store(&mut self, i: u32, k: u8) -> Result<RingNote, RingFault>
        requires { i < 2 ^ 20 }
        ensures note { IfOk result (λ note. note ≡ ring_noted_stored i k self.old) }
        ensures same { self.new ≡ self.old }
        ensures memory { OnErr result (result ≡ Err RingFault.OutOfMemory) }
    {
        let work = RingWork::Set(k, 0);
        let count = self.count_spilled_by(work);
        let octa = self.octa_after_spill(count, i as usize);
        let mut note = self.note(work)?;
        note.octa = Some((i, octa));
        Ok(note)
    }

    /// What the octa of the stack area at an index is, once this many of the hidden octas in the ring are spilled.
    fn octa_after_spill(&self, count: usize, i: usize) -> u64
        requires few { count ≤ length self.now.hidden.resident }
        requires inside { i < 2 ^ 20 }
        ensures { result ≡ octa_after_spill self.now.hidden count i }
    {
        if i < self.hidden.spilled_count() + count {
            self.hidden.octas()[i]
        } else {
            self.hidden.octa(i)
        }
    }

    /// Does the call that `work` names.
    #[tactic(auto, unfolding(crate::specs::Notes::WorkNeeds, crate::specs::Notes::worked, crate::specs::Notes::work_answer))]
    fn perform(&mut self, work: RingWork) -> Result<Option<Saved>, RingFault>
        requires { WorkNeeds work self.old }
        ensures answer { result ≡ work_answer work (windowed self.old) }
        ensures ok { OnOk result (windowed self.new ≡ worked work (windowed self.old)) }
        ensures err { OnErr result (self.new ≡ self.old) }
    {
        match work {
            RingWork::Set(k, x) => plain(self.set(k, x)),
            RingWork::Push(x) => plain(self.push(x)),
            RingWork::Pop(x) => plain(self.pop(x)),
            RingWork::Save(x, specials) => plain(self.save(x, &specials)),
            RingWork::Unsave(a) => with_specials(self.unsave(a)),
            RingWork::CutLocals(l) => {
                self.cut_locals(l);
                Ok(None)
            }
            RingWork::SetGlobalStart(g) => {
                self.set_global_start(g);
                Ok(None)
            }
            RingWork::SetOcta(i, x) => {
                self.set_stack_octa(i, x);
                Ok(None)
            }
        }
    }

    /// How many octas the call spills.
    #[tactic(auto, unfolding(crate::specs::Notes::spilled_by))]
    fn count_spilled_by(&self, work: RingWork) -> usize
        ensures value { result ≡ spilled_by work self.now }
        ensures bounds { IsRing self.now }
    {
        let resident = self.hidden.len() - self.hidden.spilled_count();
        match work {
            RingWork::Set(k, _) => {
                if self.visible.is_marginal(k) {
                    above_room(resident + (usize::from(k) + 1), self.size)
                } else {
                    0
                }
            }
            RingWork::Push(x) => self.push_spills(self.visible.push_number(x)),
            RingWork::Save(_, _) => resident
                + (self.visible.local_count() + 270 - self.visible.first_global()),
            _ => 0,
        }
    }

    /// How many octas PUSH spills that hides a number.
    fn push_spills(&self, number: usize) -> usize
        requires { number ≤ 255 }
        ensures { result ≡ push_spills self.now number }
    {
        let resident = self.hidden.len() - self.hidden.spilled_count();
        let locals = self.visible.local_count().saturating_sub(number + 1);
        above_room(resident + (number + 1) + locals, self.size)
    }

    /// How many of the hidden octas in the ring are hidden still after the call.
    #[tactic(auto, unfolding(crate::specs::Notes::staying))]
    fn count_staying(&self, work: RingWork) -> usize
        ensures { result ≡ staying work self.now }
    {
        let resident = self.hidden.len() - self.hidden.spilled_count();
        match work {
            RingWork::Pop(_) => self.count_staying_at_pop(),
            RingWork::Unsave(_) => 0,
            _ => resident,
        }
    }

    /// How many of them are hidden still after POP.
    pub(super) fn count_staying_at_pop(&self) -> usize
        ensures count { result ≡ length (octas_of self.now.hidden)
            - (hole_in (octas_of self.now.hidden) + 1) - self.now.hidden.spilled }
        ensures bounds { IsRing self.now }
    {
        match hole(self.hidden.octas()) {
            Some(hole) => (self.hidden.len() - (hole + 1)).saturating_sub(
                self.hidden.spilled_count(),
            ),
            None => 0,
        }
    }

    /// The octa of the stack area that the call overwrites.
    #[tactic(auto, unfolding(crate::specs::Notes::WorkNeeds, crate::specs::Notes::octa_noted))]
    fn overwritten_octa(&self, work: RingWork) -> Option<(u32, u64)>
        requires { WorkNeeds work self.now }
        ensures { result ≡ octa_noted work self.now.hidden.stack }
    {
        match work {
            RingWork::SetOcta(i, _) => Some((i, self.hidden.octa(i as usize))),
            _ => None,
        }
    }
}

/// How many of this many octas and locals must leave a ring of a size.
fn above_room(count: usize, size: usize) -> usize
    requires { count ≤ 2 ^ 22 }
    ensures { result ≡ above_room count size }
{
    if count < size { 0 } else { count + 1 - size }
}

/// The answer of a call that gives nothing.
fn plain(answer: Result<(), RingFault>) -> Result<Option<Saved>, RingFault>
    ensures { result ≡ plain_answer answer }
{
    answer?;
    Ok(None)
}

/// The answer of a call that gives special registers.
fn with_specials(answer: Result<Saved, RingFault>) -> Result<Option<Saved>, RingFault>
    ensures { result ≡ specials_answer answer }
{
    Ok(Some(answer?))
}
