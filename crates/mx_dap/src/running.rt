//! How a run goes on and back.

ghost use Rattle.std.specs.Prelude.{◌≡◌, None};
ghost use Rattle.mx_dap.specs.Leads.{LeadsAndTells, StepsBack};

use crate::driving::{find_met, hidden_at, seek, seek_last_stop, seek_stop};
use crate::loaded::Loaded;
use crate::stops::Reason;
use mx_adapter::{Command, Outbox, text_at};
use mx_word::NoMemory;
use serde_json::Value;

/// How many steps are made before the editor is told of what they wrote.
const PIECE: u64 = 10_000_000;

/// After so many steps without a stop a run pauses.
const MOST: u64 = 100_000_000;

/// What is to be done before the next message is read.
#[derive(Clone, Copy)]
pub(crate) enum Work {
    /// The run begins.
    Begin,
    /// The step that is shown is told.
    Tell(Reason),
    /// The run goes on to a stop, or to where at most this many registers are hidden, if that is asked; but not past this step.
    GoOn(Option<u64>, u64),
    /// It goes back so.
    GoBack(Option<u64>),
    /// It goes to a step.
    GoTo(u64),
    /// It is done.
    Finish,
}

impl Loaded {
    /// The step at which the run pauses at the latest.
    fn pause_step(&self) -> u64 {
        let last = self.debugged.last_step();
        if self.wishes.no_debug {
            last
        } else {
            self.step_number().saturating_add(MOST).min(last)
        }
    }

    /// What is to be done where the run goes on to a stop.
    fn keep_going(&self, depth: Option<u64>) -> Work {
        Work::GoOn(depth, self.pause_step())
    }

    /// What a request that goes forward asks for.
    fn forward(&self, command: Command) -> Work {
        let depth = hidden_at(&self.debugged);
        match command {
            _ if self.has_ended() => Work::Finish,
            Command::Next => self.keep_going(Some(depth)),
            Command::StepOut if depth != 0 => self.keep_going(Some(depth.saturating_sub(1))),
            Command::StepIn => Work::GoTo(self.step_number().saturating_add(1)),
            _ => self.keep_going(None),
        }
    }

    /// What `stepBack` asks for: a step in the same call, or a single one.
    fn step_back(&self, message: &Value) -> Work
        ensures { StepsBack self.now.debugged result }
    {
        if text_at(message, "/arguments/granularity") == Some(b"instruction".as_slice()) {
            return Work::GoTo(self.step_number().saturating_sub(1));
        }
        Work::GoBack(Some(hidden_at(&self.debugged)))
    }

    /// What a request asks for that goes to another step.
    pub(crate) fn work_for(&self, command: Command, message: &Value) -> Work
        ensures back { command ≡ Command.StepBack → StepsBack self.now.debugged result }
        ensures reverse { command ≡ Command.ReverseContinue → result ≡ Work.GoBack None }
    {
        match command {
            Command::StepBack => self.step_back(message),
            Command::ReverseContinue => Work::GoBack(None),
            _ => self.forward(command),
        }
    }

    /// Tells of the step that is shown.
    #[tactic(auto, using(crate::proofs::Told::beginning))]
    fn tell_here(&mut self, out: &mut Outbox, reason: Reason) -> Result<Option<Work>, NoMemory>
        ensures { LeadsAndTells self.old.debugged self.new.debugged (Work.Tell reason) out.new result }
    {
        self.tell_stop(out, reason)?;
        Ok(None)
    }

    /// Tells that the run is done.
    #[tactic(auto, using(crate::proofs::Told::beginning))]
    fn finish(&mut self, out: &mut Outbox) -> Result<Option<Work>, NoMemory>
        ensures { LeadsAndTells self.old.debugged self.new.debugged Work.Finish out.new result }
    {
        self.tell_done(out)?;
        Ok(None)
    }

    /// Begins the run: it stays at the start where that is wished or a break is met, and goes on otherwise.
    #[tactic(auto, using(crate::proofs::Told::beginning))]
    fn begin(&mut self, out: &mut Outbox) -> Result<Option<Work>, NoMemory>
        ensures { LeadsAndTells self.old.debugged self.new.debugged Work.Begin out.new result }
    {
        if self.wishes.on_entry && !self.wishes.no_debug {
            return self.tell_here(out, Reason::Entry);
        }
        let met = find_met(&mut self.debugged)?;
        if met.as_slice().is_empty() {
            return Ok(Some(self.keep_going(None)));
        }
        self.tell_here(out, Reason::Entry)
    }

    /// Goes on by a piece, and tells of a stop.
    #[tactic(auto, using(crate::proofs::Told::leading))]
    fn go_on(
        &mut self,
        out: &mut Outbox,
        depth: Option<u64>,
        until: u64,
    ) -> Result<Option<Work>, NoMemory>
        ensures { LeadsAndTells self.old.debugged self.new.debugged (Work.GoOn depth until) out.new result }
    {
        let here = self.step_number();
        let next = here.saturating_add(PIECE).min(until);
        let is_found = seek_stop(&mut self.debugged, depth, next)?;
        if is_found {
            self.tell_stop(out, Reason::Step)?;
            return Ok(None);
        }
        if self.has_ended() || until <= self.step_number() {
            self.tell_stop(out, Reason::Pause)?;
            return Ok(None);
        }
        self.tell_output(out)?;
        Ok(Some(Work::GoOn(depth, until)))
    }

    /// Goes back to the last stop, and tells of it.
    #[tactic(auto, using(crate::proofs::Told::leading))]
    fn go_back(&mut self, out: &mut Outbox, depth: Option<u64>) -> Result<Option<Work>, NoMemory>
        ensures { LeadsAndTells self.old.debugged self.new.debugged (Work.GoBack depth) out.new result }
    {
        seek_last_stop(&mut self.debugged, depth)?;
        self.tell_stop(out, Reason::Step)?;
        Ok(None)
    }

    /// Goes to a step, and tells of it.
    #[tactic(auto, using(crate::proofs::Told::leading))]
    fn go_to(&mut self, out: &mut Outbox, k: u64) -> Result<Option<Work>, NoMemory>
        ensures { LeadsAndTells self.old.debugged self.new.debugged (Work.GoTo k) out.new result }
    {
        seek(&mut self.debugged, k)?;
        self.tell_stop(out, Reason::Step)?;
        Ok(None)
    }

    /// Does a part of what is to be done, and gives what is left of it.
    pub(crate) fn work(&mut self, out: &mut Outbox, work: Work) -> Result<Option<Work>, NoMemory>
        ensures { LeadsAndTells self.old.debugged self.new.debugged work out.new result }
    {
        match work {
            Work::Begin => self.begin(out),
            Work::Tell(reason) => self.tell_here(out, reason),
            Work::GoOn(depth, until) => self.go_on(out, depth, until),
            Work::GoBack(depth) => self.go_back(out, depth),
            Work::GoTo(k) => self.go_to(out, k),
            Work::Finish => self.finish(out),
        }
    }
}
