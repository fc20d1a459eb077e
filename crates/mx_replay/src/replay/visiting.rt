//! Steps that are visited apart from the one that is shown.

ghost use Rattle.std.specs.Prelude.{◌≡◌, ◌≤◌, IfOk};
ghost use Rattle.std.specs.Option.{ForSome};
ghost use Rattle.mx_replay.specs.Programs.{IsReached, NamesFile, step_of};
ghost use Rattle.mx_replay.specs.Visits.{IsStart, IsStep};

use super::Replay;
use crate::kept::go_near;
use crate::program::Program;
use crate::visit::{Visit, start_visit};
use mx_word::NoMemory;
use std::alloc::Global;

/// A start that is kept, or one more where none is.
pub(super) fn start_again(
    alloc: Global,
    program: &Program,
    kept: Option<Visit>,
) -> Result<Visit, NoMemory>
    requires names { NamesFile program.now }
    requires kept { ForSome kept (IsStart program.now) }
    ensures { IfOk result (IsStart program.now) }
{
    match kept {
        Some(visit) => Ok(visit),
        None => match start_visit(alloc, program) {
            Ok(visit) => Ok(visit),
            Err(_) => Err(NoMemory),
        },
    }
}

impl Replay {
    /// The start.
    pub(super) fn visit_start(&mut self) -> Result<Visit, NoMemory>
        ensures same { self.new ≡ self.old }
        ensures start { IfOk result (λ v. IsStart self.old.program v) }
    {
        let start = start_again(self.alloc, &self.program, self.spare.take())?;
        let copy = start.copy();
        self.spare = Some(start);
        copy
    }

    /// The nearest step that is kept, at step k or before it, or the start.
    pub(super) fn visit_before(&mut self, k: u64) -> Result<Visit, NoMemory>
        ensures same { self.new ≡ self.old }
        ensures step { IfOk result (λ v. IsStep self.old.program v) }
        ensures before { IfOk result (λ v. v.at ≤ k) }
    {
        match self.kept.nearest(k) {
            Some(visit) => Ok(visit),
            None => self.visit_start(),
        }
    }

    /// Step k, or the last one before it. One that is a little before it is kept, too.
    #[tactic(auto, using(crate::proofs::Steps::reaching))]
    pub(super) fn visit(&mut self, k: u64) -> Result<Visit, NoMemory>
        ensures same { self.new ≡ self.old }
        ensures step { IfOk result (λ v. IsStep self.old.program v) }
        ensures reached { IfOk result (λ v. IsReached self.old.program k v.at) }
        ensures shows { IfOk result (λ v. step_of self.old.program v.at ≡ step_of self.old.program k) }
    {
        let mut visit = self.visit_before(k)?;
        go_near(self.alloc, &mut visit, &mut self.kept, k)?;
        Ok(visit)
    }
    /// A step before step k, from which there are few turns to it: at most as many as are asked for, or those from the nearest step
    /// that is kept, whatever is less.
    #[tactic(auto, using(crate::proofs::Steps::nearing))]
    pub(super) fn visit_near(&mut self, k: u64, turns: u64) -> Result<Visit, NoMemory>
        ensures same { self.new ≡ self.old }
        ensures step { IfOk result (λ v. IsStep self.old.program v) }
        ensures before { IfOk result (λ v. v.at ≤ k) }
    {
        let from = k.saturating_sub(turns);
        if self.kept.has_between(from, k) {
            return self.visit_before(k);
        }
        let visit = self.visit(from)?;
        Ok(visit)
    }
}
