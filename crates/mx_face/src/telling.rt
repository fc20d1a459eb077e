//! Standard error.

ghost use Rattle.std.specs.Prelude.{◌≡◌, ◌≢◌};
ghost use Rattle.mx_host.specs.Keeping.{Answers, Keeps};
ghost use Rattle.mx_face.specs.Pages as spec;

use mx_host::{Host, HostFault};
use mx_outcome::{Outcome, message};
use std::alloc::Global;

/// The slot of the tool's standard error.
const ERRORS: u16 = 260;

/// Writes a text to the tool's standard error, if there is something in it, and answers the outcome. A write that fails changes
/// nothing; where there is no memory for it, that is the outcome.
pub fn add_remark<H: Host>(host: &mut H, outcome: Outcome, text: &[u8]) -> Outcome
    ensures told { Answers (H.told host.old) (H.told host.new) Outcome.OutOfMemory result
        (λ m. spec.remarked outcome text.now m) }
    ensures same { result ≢ Outcome.OutOfMemory → result ≡ outcome }
    ensures keeps { Keeps (H.told host.old) (H.told host.new) (H.faults host.old) (H.faults host.new) }
{
    match text {
        [] => outcome,
        [_, ..] => match host.write_slot(ERRORS, text) {
            Ok(()) => outcome,
            Err(HostFault::OutOfMemory) => Outcome::OutOfMemory,
            Err(HostFault::Failed) => outcome,
            Err(HostFault::Misused) => outcome,
        },
    }
}

/// Writes the message line of an outcome to the tool's standard error, and answers the outcome. A write that fails changes
/// nothing; where there is no memory, that is the outcome.
pub fn tell<H: Host>(alloc: Global, host: &mut H, outcome: Outcome) -> Outcome
    ensures told { Answers (H.told host.old) (H.told host.new) Outcome.OutOfMemory result
        (λ m. spec.outcome_told outcome m) }
    ensures same { result ≢ Outcome.OutOfMemory → result ≡ outcome }
    ensures keeps { Keeps (H.told host.old) (H.told host.new) (H.faults host.old) (H.faults host.new) }
{
    match message(alloc, outcome) {
        Ok(text) => add_remark(host, outcome, text.as_slice()),
        Err(_) => Outcome::OutOfMemory,
    }
}
