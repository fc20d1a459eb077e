//! A session: the messages that come, and the answers to them.

ghost use Rattle.std.specs.Prelude.{◌≡◌, ◌≢◌, OnOk, is_some};
ghost use Rattle.serde_json.specs.View.{view};
ghost use Rattle.mx_adapter.specs.Early.{early};
ghost use Rattle.mx_dap.specs.Answered.{AnswersEarly, GivesEarly, after_answer};

use crate::breaks::Mark;
use crate::loaded::Loaded;
use crate::outputs::tell_text;
use crate::running::Work;
use crate::stops::Reason;
use mx_adapter::{
    Answer, Bodies, Command, Launch, Outbox, Request, answer_early, make_done, make_refusal,
    read_launch, read_message, read_request, refuse_unknown, refuse_unlaunched, say_unread,
};
use mx_debug::Session as Debugged;
use mx_word::{Bytes, NoMemory};
use serde_json::Value;
use std::alloc::Global;

/// Whether a session goes on to the next message, has work to do before, or ends with a status.
#[derive(Clone, Copy, Debug, PartialEq, Eq)]
pub enum Flow {
    Going,
    Busy,
    Ended(u8),
}

/// A program that is to be launched or is launched, what is to be done before the next message is read, and what is to be sent.
#[derive(Drop)]
pub struct Session {
    alloc: Global,
    out: Outbox,
    launch: Option<Launch>,
    loaded: Option<Loaded>,
    work: Option<Work>,
}

/// Whether a request goes to another step.
fn is_move(command: Command) -> bool {
    matches!(
        command,
        Command::Continue
            | Command::Next
            | Command::StepIn
            | Command::StepOut
            | Command::StepBack
            | Command::ReverseContinue
    )
}

/// The answer to a request about a program, which may leave work to do.
fn answer_about(
    loaded: &mut Loaded,
    work: &mut Option<Work>,
    command: Command,
    message: &Value,
) -> Result<Answer, NoMemory> {
    match command {
        Command::SetBreakpoints => loaded.set_lines(message),
        Command::SetFunctionBreakpoints => loaded.set_marks(Mark::Function, message),
        Command::SetInstructionBreakpoints => loaded.set_marks(Mark::Instruction, message),
        Command::SetDataBreakpoints => loaded.set_marks(Mark::Data, message),
        Command::DataBreakpointInfo => loaded.scene().data_info(message),
        Command::ExceptionInfo => loaded.exception_info(),
        Command::StackTrace => loaded.stack_trace(message),
        Command::Scopes => loaded.scopes(message),
        Command::Variables => loaded.variables(message),
        Command::ReadMemory => loaded.scene().read_memory(message),
        Command::Disassemble => loaded.scene().disassemble(message),
        Command::Source => loaded.scene().source(),
        Command::LoadedSources => loaded.scene().list_loaded_sources(),
        Command::Evaluate => {
            let evaluated = loaded.evaluate(message)?;
            if evaluated.has_moved {
                *work = Some(Work::Tell(Reason::GoTo));
            }
            Ok(evaluated.answer)
        }
        _ => refuse_unknown(loaded.alloc),
    }
}

/// The answer to a request once a program is launched. It may leave work to do.
fn answer_launched(
    loaded: &mut Loaded,
    work: &mut Option<Work>,
    command: Command,
    message: &Value,
) -> Result<Answer, NoMemory> {
    match command {
        Command::ConfigurationDone => {
            *work = Some(Work::Begin);
            make_done(loaded.alloc, b"")
        }
        Command::Pause => make_done(loaded.alloc, b""),
        _ if !is_move(command) => answer_about(loaded, work, command, message),
        _ if loaded.is_done => make_refusal(loaded.alloc, b"the run is done"),
        _ => {
            *work = Some(loaded.work_for(command, message));
            make_done(loaded.alloc, b"{\"allThreadsContinued\":true}")
        }
    }
}

impl Session {
    /// A session before its first message.
    pub fn new(alloc: Global) -> Session {
        Session {
            alloc,
            out: Outbox::new(alloc),
            launch: None,
            loaded: None,
            work: None,
        }
    }

    /// Takes out what is to be sent.
    pub fn take_sent(&mut self) -> Bodies {
        self.out.take()
    }

    /// Takes out the program that is to be launched, if there is one.
    pub fn take_launch(&mut self) -> Option<Launch> {
        self.launch.take()
    }

    /// The answer to a request about the program that is launched.
    fn answer_loaded(&mut self, command: Command, message: &Value) -> Result<Answer, NoMemory>
        ensures { self.new.out ≡ self.old.out }
    {
        match &mut self.loaded {
            None => refuse_unlaunched(self.alloc),
            Some(loaded) => answer_launched(loaded, &mut self.work, command, message),
        }
    }

    /// The answer to a request.
    fn answer_to(&mut self, command: Command, message: &Value) -> Result<Answer, NoMemory>
        ensures given { GivesEarly (early (is_some self.old.loaded) command (view message.now)) result }
        ensures sent { self.new.out ≡ self.old.out }
    {
        match answer_early(self.alloc, self.loaded.is_some(), command, message)? {
            Some(answer) => Ok(answer),
            None => self.answer_loaded(command, message),
        }
    }

    /// What the session does next.
    fn next_flow(&self) -> Flow {
        if self.work.is_some() {
            Flow::Busy
        } else {
            Flow::Going
        }
    }

    /// What is done after the answer to a request.
    fn after(&mut self, command: Command) -> Result<Flow, NoMemory>
        ensures { OnOk result (self.new.out ≡ after_answer command self.old.out) }
    {
        match command {
            Command::Disconnect => Ok(Flow::Ended(0)),
            Command::Terminate => {
                self.out.tell(b"terminated", b"")?;
                Ok(Flow::Going)
            }
            _ => Ok(self.next_flow()),
        }
    }

    /// Takes a request `launch`: it is answered where the files were read.
    fn take_launch_request(&mut self, request: Request, message: &Value) -> Result<Flow, NoMemory> {
        match read_launch(self.alloc, request, message) {
            Ok(launch) => {
                self.launch = Some(launch);
                Ok(Flow::Busy)
            }
            Err((request, unread)) => {
                self.out.refuse(&request, say_unread(unread))?;
                Ok(Flow::Going)
            }
        }
    }

    /// Takes a request that is not `launch`.
    #[tactic(auto, using(crate::proofs::Answering::answering))]
    fn take_usual(&mut self, request: &Request, message: &Value) -> Result<Flow, NoMemory>
        ensures { OnOk result (AnswersEarly request.now
            (early (is_some self.old.loaded) request.now.command (view message.now))
            self.old.out self.new.out) }
    {
        match self.answer_to(request.command, message) {
            Ok(answer) => {
                self.out.answer(request, &answer)?;
                let flow = self.after(request.command)?;
                Ok(flow)
            }
            Err(NoMemory) => {
                self.out.refuse(request, b"out of memory")?;
                Ok(Flow::Going)
            }
        }
    }

    /// Takes a request.
    fn take_request(&mut self, request: Request, message: &Value) -> Result<Flow, NoMemory>
        ensures { request.command ≢ Command.Launch → OnOk result (AnswersEarly request
            (early (is_some self.old.loaded) request.command (view message.now))
            self.old.out self.new.out) }
    {
        match request.command {
            Command::Launch => self.take_launch_request(request, message),
            _ => self.take_usual(&request, message),
        }
    }

    /// Tells that a message is no request: it has no answer.
    fn tell_no_request(&mut self) -> Result<Flow, NoMemory> {
        tell_text(
            self.alloc,
            &mut self.out,
            b"stderr",
            b"this is no request\n",
        )?;
        Ok(Flow::Going)
    }

    /// Refuses what is no message, and ends.
    pub fn refuse(&mut self, why: &[u8]) -> Result<Flow, NoMemory> {
        tell_text(self.alloc, &mut self.out, b"stderr", why)?;
        self.out.tell(b"terminated", b"")?;
        Ok(Flow::Ended(1))
    }

    /// Takes a message, and says what the session does next.
    pub fn take(&mut self, body: &[u8]) -> Result<Flow, NoMemory> {
        let Some(message) = read_message(self.alloc, body)? else {
            return self.refuse(b"this is no JSON\n");
        };
        match read_request(self.alloc, &message)? {
            Some(request) => self.take_request(request, &message),
            None => self.tell_no_request(),
        }
    }

    /// Takes a program that is launched, at its start.
    pub fn take_program(&mut self, launch: Launch, debugged: Debugged) -> Result<(), NoMemory> {
        let Launch {
            words: _,
            path,
            request,
            wishes,
        } = launch;
        self.loaded = Some(Loaded::new(self.alloc, debugged, path, wishes));
        self.out
            .answer(&request, &Answer::Done(Bytes::new(self.alloc)))?;
        self.out.tell(b"initialized", b"")
    }

    /// Tells why a program is not launched: its faults, where it has some, and why in a line.
    pub fn take_refusal(
        &mut self,
        launch: &Launch,
        faults: &[u8],
        why: &[u8],
    ) -> Result<(), NoMemory> {
        if !faults.is_empty() {
            tell_text(self.alloc, &mut self.out, b"stderr", faults)?;
        }
        self.out.refuse(&launch.request, why)?;
        self.out.tell(b"terminated", b"")
    }

    /// Tells that there was no memory for what was to be done, where the run is.
    fn tell_lack(&mut self) -> Result<(), NoMemory> {
        tell_text(self.alloc, &mut self.out, b"stderr", b"out of memory\n")?;
        match &mut self.loaded {
            Some(loaded) => loaded.tell_stop(&mut self.out, Reason::Pause),
            None => Ok(()),
        }
    }

    /// Does a part of what is to be done, and gives what is left of it.
    fn do_work(&mut self, work: Work) -> Result<Option<Work>, NoMemory> {
        match &mut self.loaded {
            Some(loaded) => loaded.work(&mut self.out, work),
            None => Ok(None),
        }
    }

    /// Does a part of what is to be done, and says what the session does next.
    pub fn work(&mut self) -> Result<Flow, NoMemory> {
        let Some(work) = self.work.take() else {
            return Ok(Flow::Going);
        };
        match self.do_work(work) {
            Ok(Some(work)) => {
                self.work = Some(work);
                Ok(Flow::Busy)
            }
            Ok(None) => Ok(Flow::Going),
            Err(NoMemory) => {
                self.tell_lack()?;
                Ok(Flow::Going)
            }
        }
    }
}
