//! Bytes that are written in pieces.

ghost use Rattle.std.specs.Prelude.{◌≡◌, ◌≤◌};
ghost use Rattle.mx_files.specs.Clauses.{DoesPart};
ghost use Rattle.mx_files.specs.FilePlans as spec;
ghost use Rattle.mx_files.specs.ObjectPlans.{outcome_of};

use mx_host::{Host, HostFault};
use mx_outcome::Outcome;
use mx_plan::{close, write};

/// Writes one piece.
#[tactic(auto, using(mx_plan::proofs::Plans::plans), unfolding(crate::specs::FilePlans::write_piece))]
pub fn put_piece<H: Host>(host: &mut H, slot: u16, piece: &[u8]) -> Result<(), Outcome>
    requires { slot ≤ 259 }
    ensures { DoesPart H.told H.faults host.old host.new result (spec.write_piece slot piece.now) }
{
    match write(host, slot, piece) {
        Ok(()) => Ok(()),
        Err(HostFault::OutOfMemory) => Err(Outcome::OutOfMemory),
        Err(HostFault::Failed) => Err(Outcome::HostFault),
        Err(HostFault::Misused) => Err(Outcome::HostFault),
    }
}

/// Writes a text in pieces, up to one that is not written.
pub fn put_text<H: Host>(host: &mut H, slot: u16, text: &[u8]) -> Result<(), Outcome>
    requires { slot ≤ 259 }
    ensures { DoesPart H.told H.faults host.old host.new result (spec.text_plan slot text.now) }
{
    let mut rest = text;
    while rest.len() > 4096 {
        let (piece, others) = rest.split_at(4096);
        put_piece(host, slot, piece)?;
        rest = others;
    }
    put_piece(host, slot, rest)
}

/// Closes a file of the tool.
#[tactic(auto, using(mx_plan::proofs::Plans::plans), unfolding(crate::specs::FilePlans::close_file))]
pub fn close_file<H: Host>(host: &mut H, slot: u16) -> Result<(), Outcome>
    requires { slot ≤ 257 }
    ensures { DoesPart H.told H.faults host.old host.new result (spec.close_file slot) }
{
    match close(host, slot) {
        Ok(()) => Ok(()),
        Err(HostFault::OutOfMemory) => Err(Outcome::OutOfMemory),
        Err(HostFault::Failed) => Err(Outcome::HostFault),
        Err(HostFault::Misused) => Err(Outcome::HostFault),
    }
}

/// The outcome of all of the work.
pub fn whole_outcome(end: Result<(), Outcome>) -> Outcome
    ensures { result ≡ outcome_of end }
{
    match end {
        Ok(()) => Outcome::Done(0),
        Err(outcome) => outcome,
    }
}
