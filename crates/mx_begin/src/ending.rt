//! The outcome of a run, by its end.

ghost use Rattle.std.specs.Prelude.{◌≡◌};
ghost use Rattle.mx_begin.specs.Ends as spec;
ghost use Rattle.mx_begin.specs.Ends.{IsOfMachine};

use mx_outcome::Outcome;
use mx_run::End;

/// The outcome of a run of at most this many steps, by its end. Without flags a run does not break.
pub fn outcome_of(steps: u64, end: End) -> Outcome
    ensures value { result ≡ spec.outcome_of steps end }
    ensures memory { end ≡ End.OutOfMemory → result ≡ Outcome.OutOfMemory }
    ensures machine { IsOfMachine result }
{
    match end {
        End::Halted(status) => Outcome::Done(status),
        End::Stopped { pc, reason } => Outcome::Stopped { pc, reason },
        End::Spent => Outcome::StepsSpent { steps },
        End::Broke { .. } | End::Traced(_) | End::OutOfMemory => Outcome::OutOfMemory,
    }
}
