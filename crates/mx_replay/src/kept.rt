//! Steps that are kept, so that others are reached quickly.

ghost use Rattle.std.specs.Prelude.{◌≡◌, ◌≤◌, ◌<◌, ◌+◌, ◌^◌, [], IfSome, IsTrue, OnOk, length};
ghost use Rattle.mx_replay.specs.Programs.{IsReached};
ghost use Rattle.mx_replay.specs.Visits.{IsStep};
ghost use Rattle.mx_replay.specs.Keeping.{AreSteps, IsPlaceBefore};
ghost use Rattle.mx_replay.specs.declared.program.Program.{Program};

use crate::visit::{Visit, go_on, has_more};
use mx_word::{NoMemory, Sequence};
use std::alloc::Global;
use std::marker::Model;
use std::mem;

/// How many turns lie at first between two steps that are kept.
const STRIDE: u64 = 1 << 20;

/// How many turns before a step one is kept, where the way to it is long.
const FAR: u64 = 1 << 18;

/// How many turns before it another is kept, where the way from that one is long, too.
const NEAR: u64 = 1 << 15;

/// How many steps are kept at most, but for those before a step.
const MOST_KEPT: usize = 16;

/// How many of those there are at most.
const MOST_NEAR: usize = 4;

/// A machine with more pages is not kept.
const MOST_PAGES: u32 = 4096;

/// A host that wrote more bytes is not kept.
const MOST_BYTES: usize = 1 << 24;

/// Some steps of a run, each at a multiple of the stride, but for a few before a step that was gone to.
#[derive(Drop)]
pub(crate) struct Kept {
    alloc: Global,
    visits: Sequence<Visit>,
    stride: u64,
}

impl Model for Kept {
    ghost use Rattle.std.specs.Prelude.{◌<◌, List};
    ghost use Rattle.mx_replay.specs.declared.visit.Visit.{Visit};

    ghost Value = { List Visit };

    ghost view = { λ k. k.visits };

    ghost invariant = { λ k. 0 < k.stride };
}

#[tactic(auto, using(crate::proofs::Keeping::keeping))]
impl Kept {
    /// No step. It takes no memory.
    pub(crate) fn new(alloc: Global) -> Kept
        ensures { result ≡ [] }
    {
        Kept {
            alloc,
            visits: Sequence::new(alloc),
            stride: STRIDE,
        }
    }

    /// The next step after one that is to be kept, or step k where that comes first.
    fn next_due(&self, at: u64, k: u64) -> u64
        requires { at < k }
        ensures later { at < result }
        ensures within { result ≤ k }
    {
        let due = (at - at % self.stride).saturating_add(self.stride);
        if due < k { due } else { k }
    }

    /// The place of the nearest step that is kept, at step k or before it.
    fn nearest_place(&self, k: u64) -> Option<usize>
        ensures { IfSome result (IsPlaceBefore self.now k) }
    {
        let mut best = None;
        for place in 0..self.visits.as_slice().len() {
            if self.is_nearer(best, place, k) {
                best = Some(place);
            }
        }
        best
    }

    /// Whether the step at a place is nearer to step k, or to one before it, than the best one so far.
    fn is_nearer(&self, best: Option<usize>, place: usize, k: u64) -> bool
        requires place { place < length self.now }
        requires best { IfSome best (IsPlaceBefore self.now k) }
        ensures { IsTrue result → IsPlaceBefore self.now k place }
    {
        let visits = self.visits.as_slice();
        let at = visits[place].at;
        match best {
            Some(best) => visits[best].at < at && at <= k,
            None => at <= k,
        }
    }

    /// A copy of the nearest step that is kept, at step k or before it. Nothing where there is none or no memory for it.
    pub(crate) fn nearest(&self, k: u64) -> Option<Visit>
        ensures before { IfSome result (λ v. v.at ≤ k) }
        ensures step { IfSome result (λ v. (p : Program) → AreSteps p self.now → IsStep p v) }
    {
        let place = self.nearest_place(k)?;
        self.visits.as_slice()[place].copy().ok()
    }

    /// Whether a step is kept after one, up to step k.
    pub(crate) fn has_between(&self, after: u64, k: u64) -> bool {
        match self.nearest_place(k) {
            Some(place) => after < self.visits.as_slice()[place].at,
            None => false,
        }
    }

    /// Drops the steps from one on that are not at a multiple of the stride.
    fn thin_out(&mut self, from: u64)
        ensures { (p : Program) → AreSteps p self.old → AreSteps p self.new }
    {
        let visits = mem::replace(&mut self.visits, Sequence::new(self.alloc));
        self.visits = thin_visits(self.alloc, visits, self.stride, from);
    }

    /// Drops the steps that are not at a multiple of the stride, where too many are kept.
    fn drop_near(&mut self)
        ensures { (p : Program) → AreSteps p self.old → AreSteps p self.new }
    {
        if self.visits.as_slice().len() > MOST_KEPT {
            self.thin_out(0);
        }
    }

    /// Drops every second step, where too many are kept.
    fn widen(&mut self)
        ensures { (p : Program) → AreSteps p self.old → AreSteps p self.new }
    {
        if self.visits.as_slice().len() > MOST_KEPT {
            self.stride = self.stride.saturating_mul(2);
            self.thin_out(0);
        }
    }

    /// Keeps a step that is due.
    pub(crate) fn keep(&mut self, visit: &Visit)
        ensures { (p : Program) → IsStep p visit.now → AreSteps p self.old → AreSteps p self.new }
    {
        if visit.at % STRIDE != 0
            || visit.at % self.stride != 0
            || self.has_between(visit.at.saturating_sub(1), visit.at)
            || !is_small(visit)
        {
            return;
        }
        add(&mut self.visits, visit);
        self.drop_near();
        self.widen();
    }

    /// From which step on those are dropped that are not at a multiple of the stride, where one at a step is kept.
    fn first_dropped(&self, at: u64) -> u64 {
        if self.visits.as_slice().len() < MOST_KEPT + MOST_NEAR {
            at
        } else {
            0
        }
    }

    /// Keeps a step before one that is gone to. Others from there on are dropped, if they are not at a multiple of the stride.
    pub(crate) fn keep_near(&mut self, visit: &Visit)
        ensures { (p : Program) → IsStep p visit.now → AreSteps p self.old → AreSteps p self.new }
    {
        if is_small(visit) {
            let from = self.first_dropped(visit.at);
            self.thin_out(from);
            add(&mut self.visits, visit);
        }
    }
}

/// Adds a copy of a step, where there is memory for it.
#[tactic(auto, using(crate::proofs::Keeping::keeping))]
fn add(visits: &mut Sequence<Visit>, visit: &Visit)
    ensures { (p : Program) → IsStep p visit.now → AreSteps p visits.old → AreSteps p visits.new }
{
    if let Ok(copy) = visit.copy() {
        let _kept = visits.push(copy);
    }
}

/// Whether a step is left where those from one on are dropped that are not at a multiple of the stride.
fn is_left(visit: &Visit, stride: u64, from: u64) -> bool
    requires { 0 < stride }
{
    visit.at < from || visit.at % stride == 0
}

/// Those of some steps that are at a multiple of the stride, or before a step.
#[tactic(auto, using(crate::proofs::Keeping::keeping))]
fn thin_visits(alloc: Global, visits: Sequence<Visit>, stride: u64, from: u64) -> Sequence<Visit>
    requires { 0 < stride }
    ensures { (p : Program) → AreSteps p visits → AreSteps p result }
{
    let mut left = Sequence::new(alloc);
    let mut rest = visits.into_vec();
    while let Some(visit) = rest.pop() {
        if is_left(&visit, stride, from) {
            let _kept = left.push(visit);
        }
    }
    left
}

/// Whether a step is kept, by the memory that it takes.
fn is_small(visit: &Visit) -> bool {
    visit.machine.pages() <= MOST_PAGES && visit.host.output().len() <= MOST_BYTES
}

/// Goes on to step k, or to the last one before it, and keeps steps on the way. Out of memory the visit is at no step of the
/// run.
pub(crate) fn go_keeping(
    alloc: Global,
    visit: &mut Visit,
    kept: &mut Kept,
    k: u64,
) -> Result<(), NoMemory>
    requires { visit.old.at ≤ k }
    ensures step { OnOk result ((p : Program) → IsStep p visit.old → IsStep p visit.new × IsReached p k visit.new.at) }
    ensures within { OnOk result (visit.new.at ≤ k) }
    ensures kept { (p : Program) → IsStep p visit.old → AreSteps p kept.old → AreSteps p kept.new }
{
    while has_more(visit, k) {
        let due = kept.next_due(visit.at, k);
        go_on(alloc, visit, due)?;
        kept.keep(visit);
    }
    Ok(())
}

/// Goes on to the step so many turns before step k, where that is far, and keeps it. Out of memory the visit is at no step of
/// the run.
fn come_near(
    alloc: Global,
    visit: &mut Visit,
    kept: &mut Kept,
    k: u64,
    turns: u64,
) -> Result<(), NoMemory>
    requires { visit.old.at ≤ k }
    ensures step { OnOk result ((p : Program) → IsStep p visit.old → IsStep p visit.new) }
    ensures within { OnOk result (visit.new.at ≤ k) }
    ensures kept { (p : Program) → IsStep p visit.old → AreSteps p kept.old → AreSteps p kept.new }
{
    if (k - visit.at) / 2 <= turns {
        return Ok(());
    }
    go_keeping(alloc, visit, kept, k - turns)?;
    kept.keep_near(visit);
    Ok(())
}

/// Goes on to step k, or to the last one before it, and keeps steps before it, too: those before step k are likely to be next.
/// Out of memory the visit is at no step of the run.
pub(crate) fn go_near(
    alloc: Global,
    visit: &mut Visit,
    kept: &mut Kept,
    k: u64,
) -> Result<(), NoMemory>
    requires { visit.old.at ≤ k }
    ensures step { OnOk result ((p : Program) → IsStep p visit.old → IsStep p visit.new × IsReached p k visit.new.at) }
    ensures kept { (p : Program) → IsStep p visit.old → AreSteps p kept.old → AreSteps p kept.new }
{
    come_near(alloc, visit, kept, k, FAR)?;
    come_near(alloc, visit, kept, k, NEAR)?;
    go_keeping(alloc, visit, kept, k)
}
