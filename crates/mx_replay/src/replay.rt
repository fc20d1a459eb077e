//! A run that is visited step by step, back and forth.

ghost use Rattle.std.specs.Prelude.{◌≡◌, ◌≢◌, ◌≤◌, ◌<◌, ◌+◌, ℕ, Ok, Err, IfOk, IfErr, OnOk, OnErr};
ghost use Rattle.mx_core.specs.Kept.{state_of};
ghost use Rattle.mx_word.specs.Results.{map_ok};
ghost use Rattle.mx_stops.specs.Places as places;
ghost use Rattle.mx_replay.specs.Programs.{GoesOn, IsReached, NamesFile, step_of};
ghost use Rattle.mx_replay.specs.Searches.{IsLeft};
ghost use Rattle.mx_replay.specs.Visits.{trace_after};

mod finding;
mod visiting;

use crate::kept::{Kept, go_keeping};
use crate::program::Program;
use crate::turns::make_next;
use crate::visit::{Visit, start_visit};
use mx_core::{Machine, Trace};
use mx_host::MemHost;
use mx_outcome::Outcome;
use mx_run::End;
use mx_stops::{Place, depth, followed};
use mx_word::NoMemory;
use std::alloc::Global;
use std::marker::Model;
use visiting::start_again;

/// The run of a program over a host in memory, at one of its steps: step k is what k turns from the start come to.
/// Whatever way one went, what is shown at step k is step k of the run, also after a call that found no memory.
#[derive(Drop)]
pub struct Replay {
    alloc: Global,
    program: Program,
    here: Visit,
    spare: Option<Visit>,
    kept: Kept,
}

impl Model for Replay {
    ghost use Rattle.std.specs.Option.{ForSome};
    ghost use Rattle.mx_replay.specs.Keeping.{AreSteps};
    ghost use Rattle.mx_replay.specs.Programs.{NamesFile};
    ghost use Rattle.mx_replay.specs.Visits.{IsStart, IsStep};
    ghost use Rattle.mx_replay.specs.Searches.{Replayed};

    ghost Value = { Replayed };

    ghost view = { λ r. record { program = r.program; at = r.here.at } };

    ghost invariant = { λ r. NamesFile r.program × IsStep r.program r.here × ForSome r.spare (IsStart r.program)
        × AreSteps r.program r.kept };
}

impl Replay {
    /// A program's run at its start.
    ///
    /// Errors: the outcome where no machine starts, as that of a source that is refused, and out of memory.
    pub fn begin(alloc: Global, program: Program) -> Result<Replay, Outcome>
        requires { NamesFile program }
        ensures start { IfOk result (λ r. r ≡ record { program = program; at = 0 }) }
        ensures refused { IfErr result (λ outcome. outcome ≢ Outcome.OutOfMemory → step_of program 0 ≡ Err outcome) }
    {
        match start_visit(alloc, &program) {
            Ok(here) => Ok(Replay {
                alloc,
                program,
                here,
                spare: None,
                kept: Kept::new(alloc),
            }),
            Err(outcome) => Err(outcome),
        }
    }

    /// The step that is visited: how many turns were made.
    pub fn step_number(&self) -> u64
        ensures count { result ≡ self.now.at }
        ensures made { (j : ℕ) → j < result → GoesOn self.now.program j }
    {
        self.here.at
    }

    /// The machine at this step.
    pub fn machine(&self) -> &Machine
        ensures { map_ok (λ e. e.state) (step_of self.now.program self.now.at) ≡ Ok (state_of result.now) }
    {
        &self.here.machine
    }

    /// The host at this step: what is left of its input, its files, and what was written so far.
    pub fn host(&self) -> &MemHost
        ensures { map_ok (λ e. e.host) (step_of self.now.program self.now.at) ≡ Ok result.now }
    {
        &self.here.host
    }

    /// How the run has ended at this step, or that it goes on, which is `Spent`.
    pub fn end(&self) -> End
        ensures { map_ok (λ e. e.end) (step_of self.now.program self.now.at) ≡ Ok result }
    {
        self.here.end
    }

    /// How many registers are hidden at this step: those of the calls that have not returned.
    pub fn depth(&self) -> u64
        ensures { map_ok (λ e. places.depth e.state) (step_of self.now.program self.now.at) ≡ Ok result }
    {
        depth(&self.here.machine)
    }

    /// The place by which a register is followed from this step on: one that is not global at its place of the register stack.
    pub fn follow(&self, place: Place) -> Place
        ensures { map_ok (λ e. places.followed e.state place) (step_of self.now.program self.now.at) ≡ Ok result }
    {
        followed(&self.here.machine, place)
    }

    /// Goes to step k, forth or back, or to the last step where the run ends before. It takes the time of the turns from a
    /// step that is kept, which is at most some 10^6 turns away in a run of 10^7.
    ///
    /// Errors: out of memory; then it is where it was, or at the start.
    pub fn go_to(&mut self, k: u64) -> Result<(), NoMemory>
        ensures program { self.new.program ≡ self.old.program }
        ensures reached { OnOk result (IsReached self.old.program k self.new.at) }
        ensures same { OnOk result (step_of self.old.program self.new.at ≡ step_of self.old.program k) }
        ensures err { OnErr result (IsLeft self.old.at self.new.at) }
    {
        if k < self.here.at || self.kept.has_between(self.here.at, k) {
            self.here = self.visit(k)?;
            Ok(())
        } else {
            self.go_on(k)
        }
    }

    /// Makes one turn, and gives its trace. There is none where the turn halts or stops the machine, and no turn where the run
    /// has ended.
    ///
    /// Errors: out of memory, and where no number is left for the next step; then it is where it was, or at the start.
    #[tactic(auto, using(crate::proofs::Found::showing))]
    pub fn step(&mut self) -> Result<Option<Trace>, NoMemory>
        ensures program { self.new.program ≡ self.old.program }
        ensures reached { OnOk result (IsReached self.old.program (self.old.at + 1) self.new.at) }
        ensures trace { IfOk result (λ trace. map_ok trace_after (step_of self.old.program self.old.at) ≡ Ok trace) }
        ensures err { OnErr result (IsLeft self.old.at self.new.at) }
    {
        let start = start_again(self.alloc, &self.program, self.spare.take())?;
        match make_next(self.alloc, &mut self.here) {
            Ok(trace) => {
                self.spare = Some(start);
                Ok(trace)
            }
            Err(NoMemory) => {
                self.here = start;
                Err(NoMemory)
            }
        }
    }

    /// Goes on to step k, or to the last one before it. Out of memory it is where it was, or at the start.
    #[tactic(auto, using(crate::proofs::Steps::reaching))]
    fn go_on(&mut self, k: u64) -> Result<(), NoMemory>
        requires { self.old.at ≤ k }
        ensures program { self.new.program ≡ self.old.program }
        ensures reached { OnOk result (IsReached self.old.program k self.new.at) }
        ensures same { OnOk result (step_of self.old.program self.new.at ≡ step_of self.old.program k) }
        ensures err { OnErr result (IsLeft self.old.at self.new.at) }
    {
        let start = start_again(self.alloc, &self.program, self.spare.take())?;
        match go_keeping(self.alloc, &mut self.here, &mut self.kept, k) {
            Ok(()) => {
                self.spare = Some(start);
                Ok(())
            }
            Err(NoMemory) => {
                self.here = start;
                Err(NoMemory)
            }
        }
    }
}
