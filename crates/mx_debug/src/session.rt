//! A session, and how it goes from step to step.

ghost use Rattle.std.specs.Prelude.{◌≡◌, ◌≢◌, ◌+◌, ◌-◌, [], Err, IfErr, IfOk, OnOk};
ghost use Rattle.mx_replay.specs.Marks.{changes};
ghost use Rattle.mx_replay.specs.Programs.{NamesFile, step_of};
ghost use Rattle.mx_replay.specs.Searches.{IsLast};
ghost use Rattle.mx_debug.specs.Going.{ArrivesBefore, GoesTo, GoesToLast, GoesToNext};
ghost use Rattle.mx_debug.specs.Sessions.{KeepsProgram, KeepsStops};

use crate::arriving::{arrive, arrive_back, arrive_here};
use crate::known::{Known, Stops};
use mx_ask::{Unit, Word};
use mx_book::Book;
use mx_outcome::Outcome;
use mx_pieces::Written;
use mx_replay::{Program, Replay};
use mx_stops::Place;
use mx_word::{Bytes, NoMemory};
use std::alloc::Global;
use std::marker::Model;

/// What an empty line does again.
#[derive(Clone, Copy)]
pub(crate) struct Again {
    pub(crate) word: Option<Word>,
    pub(crate) count: u64,
    pub(crate) unit: Unit,
    pub(crate) examined: u64,
    pub(crate) listed: Option<u64>,
}

/// A run that is gone through step by step, back and forth. Whatever words came before, what is shown at step k is step k of the run of
/// the program.
#[derive(Drop)]
pub struct Session {
    pub replay: Replay,
    pub known: Known,
    pub(crate) again: Again,
}

impl Model for Session {
    ghost use Rattle.mx_debug.specs.Sessions.{Debugged};

    ghost Value = { Debugged };

    ghost view = { λ s. record {
      program = s.replay.program;
      book = s.known.book;
      at = s.replay.at;
      most = s.known.most;
      breaks = s.known.stops.breaks;
      watches = s.known.stops.watches;
    } };
}

impl Session {
    /// A session at the start of a program's run, with what is known of it by name. No step after `last_step` is visited.
    ///
    /// Errors: the outcome where no machine starts, as that of a source that is refused, and out of memory.
    pub fn begin(alloc: Global, program: Program, book: Book, most: u64) -> Result<Session, Outcome>
        requires { NamesFile program }
        ensures start { IfOk result (λ s. s
            ≡ record { program = program; book = book; at = 0; most = most; breaks = []; watches = [] }) }
        ensures refused { IfErr result (λ outcome. outcome ≢ Outcome.OutOfMemory → step_of program 0 ≡ Err outcome) }
    {
        let ring = program.order.ring.registers();
        match Replay::begin(alloc, program) {
            Ok(replay) => Ok(Session {
                replay,
                known: Known {
                    alloc,
                    book,
                    stops: Stops::new(alloc),
                    most,
                    ring,
                },
                again: Again {
                    word: None,
                    count: 1,
                    unit: Unit::Octa,
                    examined: 0,
                    listed: None,
                },
            }),
            Err(outcome) => Err(outcome),
        }
    }

    /// Tells of the step that is shown.
    pub fn tell(&mut self, out: &mut Bytes) -> Result<(), NoMemory>
        ensures program { KeepsProgram self.old self.new }
        ensures stops { KeepsStops self.old self.new }
        ensures same { OnOk result (self.new.at ≡ self.old.at) }
    {
        let since = Written::of(self.replay.host());
        arrive_here(&mut self.replay, &self.known, since, out)
    }

    /// Goes to step k, but not past the last one that can be reached nor past the end, and tells of it.
    pub fn go_to(&mut self, k: u64, out: &mut Bytes) -> Result<(), NoMemory>
        ensures program { KeepsProgram self.old self.new }
        ensures stops { KeepsStops self.old self.new }
        ensures reached { OnOk result (GoesTo self.old k self.new.at) }
    {
        let since = Written::of(self.replay.host());
        let k = k.min(self.known.most);
        arrive(&mut self.replay, &self.known, since, k, out)
    }

    /// The last step that can be reached.
    pub fn last_step(&self) -> u64
        ensures { result ≡ self.now.most }
    {
        self.known.most
    }

    /// Goes n steps on, but not past the last one that can be reached nor past the end, and tells of the step.
    #[tactic(auto, using(crate::proofs::Reaching::reaching))]
    pub fn step_on(&mut self, n: u64, out: &mut Bytes) -> Result<(), NoMemory>
        ensures program { KeepsProgram self.old self.new }
        ensures stops { KeepsStops self.old self.new }
        ensures reached { OnOk result (GoesTo self.old (self.old.at + n) self.new.at) }
    {
        let k = self
            .replay
            .step_number()
            .saturating_add(n)
            .min(self.last_step());
        self.go_to(k, out)
    }

    /// Goes n steps back, but not past the start, and tells of the step.
    #[tactic(auto, using(crate::proofs::Reaching::reaching))]
    pub fn step_back(&mut self, n: u64, out: &mut Bytes) -> Result<(), NoMemory>
        ensures program { KeepsProgram self.old self.new }
        ensures stops { KeepsStops self.old self.new }
        ensures back { OnOk result (self.new.at ≡ self.old.at - n) }
    {
        let since = Written::of(self.replay.host());
        let k = self.replay.step_number().saturating_sub(n);
        arrive_back(&mut self.replay, &self.known, since, k, out)
    }

    /// Goes on to the next step at a break or a change of what is watched, or at which at most this many registers are hidden, if
    /// that is asked: the least after this one. Where there is none, it goes on to the end, or to the last step that may be gone
    /// to. It tells of the step.
    #[tactic(auto, using(crate::proofs::Reaching::leading))]
    pub fn go_on(&mut self, depth: Option<u64>, out: &mut Bytes) -> Result<(), NoMemory>
        ensures program { KeepsProgram self.old self.new }
        ensures stops { KeepsStops self.old self.new }
        ensures next { OnOk result (GoesToNext self.old depth self.new.at) }
    {
        let since = Written::of(self.replay.host());
        let stops = &self.known.stops;
        self.replay.next_stop(
            stops.breaks.as_slice(),
            stops.watches.as_slice(),
            depth,
            self.known.most,
        )?;
        arrive_here(&mut self.replay, &self.known, since, out)?;
        Ok(())
    }

    /// Goes back to the last step at a break or a change of what is watched, or at which at most this many registers are hidden, if
    /// that is asked: the greatest before this one. Where there is none, it goes back to the start. It tells of the step.
    #[tactic(auto, using(crate::proofs::Reaching::leading))]
    pub fn go_back(&mut self, depth: Option<u64>, out: &mut Bytes) -> Result<(), NoMemory>
        ensures program { KeepsProgram self.old self.new }
        ensures stops { KeepsStops self.old self.new }
        ensures last { OnOk result (GoesToLast self.old depth self.new.at) }
    {
        let since = Written::of(self.replay.host());
        let stops = &self.known.stops;
        let found = self
            .replay
            .find_last_stop(stops.breaks.as_slice(), stops.watches.as_slice(), depth)?;
        arrive_back(
            &mut self.replay,
            &self.known,
            since,
            found.unwrap_or(0),
            out,
        )?;
        Ok(())
    }

    /// Goes back to the step from which the turn leads on that made the value at a place: the greatest up to this one that
    /// changed it. Where it never changed, it stays where it is. It tells of the step.
    #[tactic(auto, using(crate::proofs::Reaching::reaching))]
    pub fn go_to_maker(&mut self, place: Place, out: &mut Bytes) -> Result<Option<u64>, NoMemory>
        ensures program { KeepsProgram self.old self.new }
        ensures stops { KeepsStops self.old self.new }
        ensures last { IfOk result (IsLast self.old.program (changes place) self.old.at) }
        ensures place { IfOk result (ArrivesBefore self.old.at self.new.at) }
    {
        let since = Written::of(self.replay.host());
        let found = self.replay.find_maker(place)?;
        if let Some(k) = found {
            arrive_back(
                &mut self.replay,
                &self.known,
                since,
                k.saturating_sub(1),
                out,
            )?;
        }
        Ok(found)
    }
}
