//! What is looked for in a run.

ghost use Rattle.std.specs.Prelude.{◌≡◌, ◌-◌, [], None, Ok, IfOk, IsTrue, OnErr};
ghost use Rattle.mx_core.specs.Kept.{state_of};
ghost use Rattle.mx_replay.specs.Frames.{AreLocals, AreLocalsAt, frames_at};
ghost use Rattle.mx_word.specs.Results.{map_ok};
ghost use Rattle.mx_stops.specs.Places as places;
ghost use Rattle.mx_replay.specs.Marks.{changes, is_shallow, mark_of, stops_at};
ghost use Rattle.mx_replay.specs.Programs.{step_of};
ghost use Rattle.mx_replay.specs.Searches.{FoundAt, IsLast, IsLastBefore, IsLeft, IsNext};

use super::Replay;
use super::visiting::start_again;
use crate::frames::{Frame, find_frames};
use crate::marks::{Sought, has_mark_at_start};
use crate::searches::{find_last, find_next};
use mx_core::Machine;
use mx_stops::{Break, Place, Watch, value_at};
use mx_word::{NoMemory, Sequence};
use std::alloc::Global;

/// How many turns the piece has that is searched first, where one looks back.
const FIRST_TURNS: u64 = 1 << 10;

/// The local registers of a machine, from `$0` on.
#[tactic(auto, using(crate::proofs::Locals::locals))]
fn locals(alloc: Global, machine: &Machine) -> Result<Sequence<u64>, NoMemory>
    ensures { IfOk result (AreLocals (state_of machine.now)) }
{
    let mut locals = Sequence::new(alloc);
    for k in 0..machine.l() {
        locals.push(machine.register(k))?;
    }
    Ok(locals)
}

/// Whether no break, no watch and no depth is looked for.
fn is_nothing(breaks: &[Break], watches: &[Watch], most: Option<u64>) -> bool
    ensures { IsTrue result → stops_at breaks.now watches.now most ≡ stops_at [] [] None }
{
    breaks.is_empty() && watches.is_empty() && most.is_none()
}

/// The next step, from the one that is shown.
impl Replay {
    /// Goes on to the next step whose turn comes to one of these breaks, changes the value at a place that is watched, or leads
    /// to where at most this many registers are hidden, if that is asked; up to step `until`: the least step after this one.
    /// Where there is none, it goes on as far as `until`, or to the last step before it.
    ///
    /// Errors: out of memory; then it is where it was, or at the start.
    #[tactic(auto, using(crate::proofs::Unmarked::unmarking))]
    pub fn next_stop(
        &mut self,
        breaks: &[Break],
        watches: &[Watch],
        most: Option<u64>,
        until: u64,
    ) -> Result<Option<u64>, NoMemory>
        ensures program { self.new.program ≡ self.old.program }
        ensures next { IfOk result (IsNext self.old.program (stops_at breaks.now watches.now most) self.old.at until) }
        ensures place { IfOk result (FoundAt self.old.program until self.old.at self.new.at) }
        ensures err { OnErr result (IsLeft self.old.at self.new.at) }
    {
        if is_nothing(breaks, watches, most) {
            self.go_as_far_as(until)
        } else {
            self.next_marked(Sought::Stops(breaks, watches, most), until)
        }
    }

    /// Goes on as far as step `until`, and finds nothing.
    #[tactic(auto, using(crate::proofs::Unmarked::unmarking))]
    fn go_as_far_as(&mut self, until: u64) -> Result<Option<u64>, NoMemory>
        ensures program { self.new.program ≡ self.old.program }
        ensures next { IfOk result (IsNext self.old.program (stops_at [] [] None) self.old.at until) }
        ensures place { IfOk result (FoundAt self.old.program until self.old.at self.new.at) }
        ensures err { OnErr result (IsLeft self.old.at self.new.at) }
    {
        if self.here.at < until {
            self.go_on(until)?;
        }
        Ok(None)
    }

    /// Goes on to the next step that has a mark, up to step `until`.
    fn next_marked(&mut self, sought: Sought<'_>, until: u64) -> Result<Option<u64>, NoMemory>
        ensures program { self.new.program ≡ self.old.program }
        ensures next { IfOk result (IsNext self.old.program (mark_of sought.entry) self.old.at until) }
        ensures place { IfOk result (FoundAt self.old.program until self.old.at self.new.at) }
        ensures err { OnErr result (IsLeft self.old.at self.new.at) }
    {
        let start = start_again(self.alloc, &self.program, self.spare.take())?;
        match find_next(self.alloc, &mut self.here, &mut self.kept, sought, until) {
            Ok(found) => {
                self.spare = Some(start);
                Ok(found)
            }
            Err(NoMemory) => {
                self.here = start;
                Err(NoMemory)
            }
        }
    }
}

/// The last step before the one that is shown. It stays where it is.
impl Replay {
    /// The last step before this one whose turn comes to one of these breaks, changes the value at a place that is watched, or
    /// leads to where at most this many registers are hidden, if that is asked: the greatest. It stays where it is.
    ///
    /// Errors: out of memory.
    #[tactic(auto, using(crate::proofs::Unmarked::unmarking))]
    pub fn find_last_stop(
        &mut self,
        breaks: &[Break],
        watches: &[Watch],
        most: Option<u64>,
    ) -> Result<Option<u64>, NoMemory>
        ensures same { self.new ≡ self.old }
        ensures last { IfOk result (IsLast self.old.program (stops_at breaks.now watches.now most) (self.old.at - 1)) }
    {
        if is_nothing(breaks, watches, most) {
            return Ok(None);
        }
        self.find_last_marked(
            Sought::Stops(breaks, watches, most),
            self.here.at.saturating_sub(1),
        )
    }

    /// The step whose turn made the value that is at a place now: the greatest up to this one whose turn changed it.
    /// Nothing where it never changed. It stays where it is.
    ///
    /// Errors: out of memory.
    pub fn find_maker(&mut self, place: Place) -> Result<Option<u64>, NoMemory>
        ensures same { self.new ≡ self.old }
        ensures last { IfOk result (IsLast self.old.program (changes place) self.old.at) }
    {
        self.find_last_marked(Sought::Change(place), self.here.at)
    }

    /// The last step before this one at which at most this many registers are hidden: the greatest, and the start too may be
    /// one. With the depth of this step that is the step before in the same call, or in one that called it; with one less,
    /// the step that called. It stays where it is.
    ///
    /// Errors: out of memory.
    pub fn find_last_shallow(&mut self, at_most: u64) -> Result<Option<u64>, NoMemory>
        ensures same { self.new ≡ self.old }
        ensures last { IfOk result (IsLastBefore self.old.program (is_shallow at_most) self.old.at) }
    {
        if self.here.at == 0 {
            return Ok(None);
        }
        self.find_last_marked(Sought::Shallow(at_most), self.here.at - 1)
    }

    /// The calls that have not returned at this step, the outermost first. SAVE and UNSAVE leave none.
    ///
    /// Errors: out of memory.
    pub fn frames(&mut self) -> Result<Sequence<Frame>, NoMemory>
        ensures same { self.new ≡ self.old }
        ensures frames { IfOk result (λ frames. frames ≡ frames_at self.old.program self.old.at) }
    {
        let mut visit = self.visit_start()?;
        find_frames(self.alloc, &mut visit, self.here.at)
    }

    /// The local registers at step k, from `$0` on. It stays where it is.
    ///
    /// Errors: out of memory.
    #[tactic(auto, using(crate::proofs::Locals::showing))]
    pub fn locals_at(&mut self, k: u64) -> Result<Sequence<u64>, NoMemory>
        ensures same { self.new ≡ self.old }
        ensures locals { IfOk result (AreLocalsAt self.old.program k) }
    {
        let visit = self.visit(k)?;
        locals(self.alloc, &visit.machine)
    }

    /// The value at a place at the start. It stays where it is.
    ///
    /// Errors: out of memory.
    #[tactic(auto, using(crate::proofs::Locals::showing))]
    pub fn first_value(&mut self, place: Place) -> Result<u64, NoMemory>
        ensures same { self.new ≡ self.old }
        ensures value { IfOk result (λ x. map_ok (λ e. places.value_at place e.state) (step_of self.old.program 0) ≡ Ok x) }
    {
        let start = self.visit_start()?;
        Ok(value_at(&start.machine, place))
    }

    /// The greatest step up to `until` that has a mark. Looked for backwards in pieces: a short one first, since it is mostly
    /// near, and each after it is four times as long, but from one step that is kept up to the next at most.
    fn find_last_marked(&mut self, sought: Sought<'_>, until: u64) -> Result<Option<u64>, NoMemory>
        ensures same { self.new ≡ self.old }
        ensures last { IfOk result (IsLast self.old.program (mark_of sought.entry) until) }
    {
        let mut end = until;
        let mut turns = FIRST_TURNS;
        while end > 0 {
            let mut visit = self.visit_near(end - 1, turns)?;
            let from = visit.at;
            let found = find_last(self.alloc, &mut visit, sought, end)?;
            if found.is_some() {
                return Ok(found);
            }
            end = from;
            turns = turns.saturating_mul(4);
        }
        let start = self.visit_start()?;
        if has_mark_at_start(&start.machine, sought) {
            Ok(Some(0))
        } else {
            Ok(None)
        }
    }
}
