//! What is told of a stop.

ghost use Rattle.std.specs.Prelude.{◌≡◌, OnOk};
ghost use Rattle.mx_debug.specs.Sessions.{KeepsProgram, KeepsStops};
ghost use Rattle.mx_dap.specs.Stops.{TellsEnd, TellsWhere};

use crate::breaks::Mark;
use crate::driving::find_met;
use crate::loaded::Loaded;
use mx_adapter::{Answer, Outbox};
use mx_json::{add_number, add_string};
use mx_panes::stop_body;
use mx_run::End;
use mx_word::{Bytes, NoMemory};

/// The status of a machine that stops, and of a run whose steps are spent.
const STOPPED: u64 = 70;

const SPENT: u64 = 75;

/// Why a run is at a stop.
#[derive(Clone, Copy, Debug, PartialEq, Eq)]
pub(crate) enum Reason {
    Entry,
    Step,
    Break,
    Function,
    Instruction,
    Data,
    Pause,
    End,
    Fault,
    GoTo,
}

/// The name of a reason.
fn name_of(reason: Reason) -> &'static str {
    match reason {
        Reason::Entry => "entry",
        Reason::Step => "step",
        Reason::Break => "breakpoint",
        Reason::Function => "function breakpoint",
        Reason::Instruction => "instruction breakpoint",
        Reason::Data => "data breakpoint",
        Reason::Pause => "pause",
        Reason::End => "end",
        Reason::Fault => "exception",
        Reason::GoTo => "goto",
    }
}

/// The reason that a break or watch is, by the request that has set it.
fn reason_of(mark: Option<Mark>) -> Reason {
    match mark {
        None | Some(Mark::Line) => Reason::Break,
        Some(Mark::Function) => Reason::Function,
        Some(Mark::Instruction) => Reason::Instruction,
        Some(Mark::Data) => Reason::Data,
    }
}

impl Loaded {
    /// Why the run is at a stop, where these breaks and watches are met.
    fn reason_here(&self, otherwise: Reason, met: &[u32]) -> Reason {
        match self.end() {
            End::Halted(_) => return Reason::End,
            End::Stopped { .. } => return Reason::Fault,
            _ => {}
        }
        if let [first, ..] = met {
            return reason_of(self.mark_of(*first));
        }
        if self.step_number() == 0 && otherwise != Reason::GoTo {
            Reason::Entry
        } else if self.debugged.last_step() <= self.step_number() {
            Reason::Pause
        } else {
            otherwise
        }
    }

    /// The text of the step that is shown: its line, what its turn changed, and why it is a stop.
    pub(crate) fn step_text(&mut self) -> Result<Bytes, NoMemory>
        ensures program { KeepsProgram self.old.debugged self.new.debugged }
        ensures stops { KeepsStops self.old.debugged self.new.debugged }
        ensures same { OnOk result (self.new.debugged.at ≡ self.old.debugged.at) }
    {
        let mut text = Bytes::new(self.alloc);
        self.debugged.tell(&mut text)?;
        Ok(text)
    }

    /// Tells that the run is done, with its status.
    #[tactic(auto, using(crate::proofs::Told::telling))]
    pub(crate) fn tell_done(&mut self, out: &mut Outbox) -> Result<(), NoMemory>
        ensures same { self.new.debugged ≡ self.old.debugged }
        ensures told { OnOk result (TellsEnd out.new) }
    {
        let status = match self.end() {
            End::Halted(status) => u64::from(status),
            End::Stopped { .. } => STOPPED,
            _ => SPENT,
        };
        let mut body = Bytes::new(self.alloc);
        add_number(&mut body, b"{\"exitCode\":", status)?;
        body.extend(b"}")?;
        out.tell(b"exited", body.as_slice())?;
        out.tell(b"terminated", b"")?;
        self.is_done = true;
        Ok(())
    }

    /// Whether the run is done where it is: at its end, or where its steps are spent, unless it is to stay there.
    fn is_to_end(&self) -> bool {
        (!self.wishes.at_end || self.wishes.no_debug)
            && (self.has_ended() || self.debugged.last_step() <= self.step_number())
    }

    /// Tells of the stop where the run is, after what it wrote on the way.
    #[tactic(auto, using(crate::proofs::Told::telling))]
    pub(crate) fn tell_stop(&mut self, out: &mut Outbox, otherwise: Reason) -> Result<(), NoMemory>
        ensures program { KeepsProgram self.old.debugged self.new.debugged }
        ensures stops { KeepsStops self.old.debugged self.new.debugged }
        ensures same { OnOk result (self.new.debugged.at ≡ self.old.debugged.at) }
        ensures told { OnOk result (TellsWhere self.new.debugged.at out.new) }
    {
        self.tell_output(out)?;
        if self.is_to_end() {
            self.tell_done(out)?;
            return Ok(());
        }
        let met = find_met(&mut self.debugged)?;
        let reason = name_of(self.reason_here(otherwise, met.as_slice())).as_bytes();
        let said = self.step_text()?;
        let at = self.step_number();
        let body = stop_body(self.alloc, at, reason, said.as_slice(), met.as_slice())?;
        out.tell(b"stopped", body.as_slice())?;
        Ok(())
    }

    /// Answers `exceptionInfo`.
    pub(crate) fn exception_info(&mut self) -> Result<Answer, NoMemory> {
        let said = self.step_text()?;
        let mut text = Bytes::new(self.alloc);
        text.extend(b"{\"exceptionId\":\"stop\",\"breakMode\":\"always\"")?;
        add_string(self.alloc, &mut text, b",\"description\":", said.as_slice())?;
        text.extend(b"}")?;
        Ok(Answer::Done(text))
    }
}
