//! A run that is recorded.

ghost use Rattle.std.specs.Prelude.{OnOk, IfErr, IfOk};
ghost use Rattle.mx_face.specs.Pages.{IsOfView};
ghost use Rattle.mx_record.specs.Recording.{IsReady};
ghost use Rattle.mx_replay.specs.Programs.{NamesFile};

use crate::records::{Written, add_start, add_turn};
use mx_host::MemHost;
use mx_outcome::Outcome;
use mx_record::{Record, Recorder};
use mx_replay::Program;
use mx_run::End;
use mx_word::{Bytes, NoMemory};
use std::alloc::Global;

/// The most bytes of records.
const MOST_BYTES: usize = 1 << 26;

/// How the run of a page ends.
#[derive(Clone, Copy)]
pub enum Ending {
    /// The program halted.
    Halted,
    /// A step could not be made.
    Stopped,
    /// The steps that were allowed were made.
    Steps,
    /// The records would be too long.
    Records,
    /// Nothing was run.
    Refused,
}

/// What was made of a run: the texts of its records, what it wrote, how many turns were made, and how it ended.
#[derive(Drop)]
pub struct Made {
    pub start: Bytes,
    pub records: Bytes,
    pub output: Bytes,
    pub steps: u64,
    pub ending: Ending,
    pub outcome: Outcome,
}

/// How many bytes a host was given on both streams.
#[derive(Clone, Copy)]
struct Streams {
    output: usize,
    errors: usize,
}

/// What was written on both streams so far.
fn read_written(host: &MemHost) -> Streams {
    Streams {
        output: host.output().len(),
        errors: host.errors().len(),
    }
}

/// Adds the bytes after a place.
fn add_after(output: &mut Bytes, bytes: &[u8], place: usize) -> Result<u64, NoMemory> {
    match bytes.get(place..) {
        Some(more) => {
            output.extend(more)?;
            Ok(more.len() as u64)
        }
        None => Ok(0),
    }
}

impl Made {
    /// Nothing was made yet.
    fn new(alloc: Global) -> Made {
        Made {
            start: Bytes::new(alloc),
            records: Bytes::new(alloc),
            output: Bytes::new(alloc),
            steps: 0,
            ending: Ending::Steps,
            outcome: Outcome::Done(0),
        }
    }

    /// Adds what was written since.
    fn add_written(&mut self, host: &MemHost, before: Streams) -> Result<Written, NoMemory> {
        let output = add_after(&mut self.output, host.output(), before.output)?;
        let errors = add_after(&mut self.output, host.errors(), before.errors)?;
        Ok(Written { output, errors })
    }

    /// Records the next turn. A turn that stops the machine has no record.
    fn add_next(&mut self, recorder: &mut Recorder) -> Result<(), NoMemory>
        requires ready { IsReady recorder.old }
        ensures { OnOk result (IsReady recorder.new) }
    {
        let End::Spent = recorder.end() else {
            return Ok(());
        };
        let pc = recorder.machine().pc();
        let before = read_written(recorder.host());
        let (record, _trace) = recorder.next()?;
        if let End::Stopped { .. } = recorder.end() {
            return Ok(());
        }
        let written = self.add_written(recorder.host(), before)?;
        add_turn(&mut self.records, pc, &record, written)?;
        self.steps = self.steps.saturating_add(1);
        Ok(())
    }

    /// Records at most this many turns.
    fn add_turns(&mut self, recorder: &mut Recorder, most: u64) -> Result<(), NoMemory>
        requires ready { IsReady recorder.old }
    {
        for _turn in 0..most {
            if self.records.as_slice().len() > MOST_BYTES {
                self.ending = Ending::Records;
                return Ok(());
            }
            self.add_next(recorder)?;
        }
        Ok(())
    }

    /// Notes how the run ended.
    fn note_end(&mut self, end: End) {
        match end {
            End::Halted(status) => {
                self.ending = Ending::Halted;
                self.outcome = Outcome::Done(status);
            }
            End::Stopped { pc, reason } => {
                self.ending = Ending::Stopped;
                self.outcome = Outcome::Stopped { pc, reason };
            }
            End::Spent | End::Broke { .. } | End::Traced(_) | End::OutOfMemory => {
                self.outcome = Outcome::StepsSpent { steps: self.steps };
            }
        }
    }
}

/// Records a run that has begun.
fn record_turns(made: &mut Made, recorder: &mut Recorder, most: u64) -> Result<(), NoMemory>
    requires ready { IsReady recorder.old }
{
    made.add_turns(recorder, most)?;
    made.note_end(recorder.end());
    Ok(())
}

/// Records a run that has begun, after the record that leads there.
fn record_begun(
    alloc: Global,
    recorder: &mut Recorder,
    first: &Record,
    most: u64,
) -> Result<Made, NoMemory>
    requires ready { IsReady recorder.old }
{
    let mut made = Made::new(alloc);
    add_start(&mut made.start, first)?;
    record_turns(&mut made, recorder, most)?;
    Ok(made)
}

/// What was made of a run that has begun, or the outcome where memory runs out.
fn make_rest(
    alloc: Global,
    recorder: &mut Recorder,
    first: &Record,
    most: u64,
) -> Result<Made, Outcome>
    requires ready { IsReady recorder.old }
    ensures { IfErr result IsOfView }
{
    match record_begun(alloc, recorder, first, most) {
        Ok(made) => Ok(made),
        Err(NoMemory) => Err(Outcome::OutOfMemory),
    }
}

/// An outcome of a run over a host in memory, which has the file and does not fail.
pub fn of_memory(outcome: Outcome) -> Outcome
    ensures { IsOfView result }
{
    match outcome {
        Outcome::HostFault | Outcome::NoFile => Outcome::OutOfMemory,
        outcome => outcome,
    }
}

/// A run at its start, with the record that leads there.
fn begin(alloc: Global, program: Program) -> Result<(Recorder, Record), Outcome>
    requires { NamesFile program }
    ensures ready { IfOk result (λ begun. IsReady begun.0) }
    ensures outcome { IfErr result IsOfView }
{
    match Recorder::begin(alloc, program) {
        Ok(begun) => Ok(begun),
        Err(outcome) => Err(of_memory(outcome)),
    }
}

/// Records a run of at most this many steps.
pub fn record_run(alloc: Global, program: Program, most: u64) -> Result<Made, Outcome>
    requires { NamesFile program }
    ensures { IfErr result IsOfView }
{
    match begin(alloc, program) {
        Ok((mut recorder, first)) => make_rest(alloc, &mut recorder, &first, most),
        Err(outcome) => Err(outcome),
    }
}

/// Nothing was run, where a source or an object is refused.
pub fn make_refused(alloc: Global, outcome: Outcome) -> Option<Made> {
    match outcome {
        Outcome::Refused { .. } | Outcome::BadObject { .. } => {
            let mut made = Made::new(alloc);
            made.ending = Ending::Refused;
            made.outcome = outcome;
            Some(made)
        }
        _ => None,
    }
}
