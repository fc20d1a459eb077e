//! What a run of the program comes to.

ghost use Rattle.std.specs.Prelude.{◌≡◌};
ghost use Rattle.mx_outcome.specs.Kinds.{leaves_machine};
ghost use Rattle.mx_outcome.specs.Status.{status_of};

use mx_word::NoMemory;
use mx_words::WordsFault;

/// What a run of the program comes to.
#[derive(Clone, Copy, Debug, PartialEq, Eq)]
pub enum Outcome {
    /// The program halted with this status, or the tool's work is done.
    Done(u8),
    /// The words are no order.
    Usage(WordsFault),
    /// The file that the words name is not there.
    NoFile,
    /// A file or stream of the tool failed.
    HostFault,
    /// The source is refused at this line, and for a reference that waited, from the line of it
    /// (0 otherwise). Lines are counted from 1.
    Refused {
        line: u32,
        fault: u16,
        from_line: u32,
    },
    /// The object is refused at this byte, from 0.
    BadObject {
        place: u64,
        fault: u16,
    },
    /// The schedule is refused at this byte, from 0.
    BadSchedule {
        place: u64,
    },
    /// The instruction at `pc` could not be performed.
    Stopped {
        pc: u64,
        reason: u16,
    },
    /// All steps that were allowed were made.
    StepsSpent {
        steps: u64,
    },
    /// The console was left.
    Quit,
    /// The console took more bytes than it may.
    ConsoleLimit,
    /// There was no memory.
    OutOfMemory,
}

impl Outcome {
    /// The status that the process ends with.
    pub fn status(&self) -> u8
        ensures { result ≡ status_of self.now }
    {
        match self {
            Outcome::Done(status) => *status,
            Outcome::Quit => 0,
            Outcome::Usage(_) => 64,
            Outcome::Refused { .. } | Outcome::BadObject { .. } | Outcome::BadSchedule { .. } => 65,
            Outcome::NoFile => 66,
            Outcome::Stopped { .. } => 70,
            Outcome::OutOfMemory => 71,
            Outcome::HostFault => 74,
            Outcome::StepsSpent { .. } => 75,
            Outcome::ConsoleLimit => 76,
        }
    }

    /// Whether the machine is left with something to show.
    pub fn has_machine(&self) -> bool
        ensures { result ≡ leaves_machine self.now }
    {
        match self {
            Outcome::Done(_)
            | Outcome::Stopped { .. }
            | Outcome::StepsSpent { .. }
            | Outcome::Quit
            | Outcome::ConsoleLimit => true,
            Outcome::Usage(_)
            | Outcome::NoFile
            | Outcome::HostFault
            | Outcome::Refused { .. }
            | Outcome::BadObject { .. }
            | Outcome::BadSchedule { .. }
            | Outcome::OutOfMemory => false,
        }
    }
}

impl From<NoMemory> for Outcome {
    ghost use Rattle.mx_outcome.specs.declared.outcome.Outcome.TheVariants.{OutOfMemory};

    ghost from_gives = { λ _ outcome. outcome ≡ OutOfMemory };

    fn from(_error: NoMemory) -> Outcome {
        Outcome::OutOfMemory
    }
}
