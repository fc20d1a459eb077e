//! The lines of standard input.

ghost use Rattle.mx_face.specs.Pages.{PartFaultsOnlyBy};

use mx_face::tell;
use mx_host::{Host, HostFault};
use mx_outcome::Outcome;
use mx_word::{Bytes, NoMemory};
use std::alloc::Global;

/// The slot of the tool's standard input.
const INPUT: u16 = 258;

/// The most bytes that a line has: of a longer one the rest is a line of its own.
const LONGEST: u32 = 1 << 20;

/// The next byte of standard input; nothing at its end.
fn read_byte<H: Host>(host: &mut H) -> Result<Option<u8>, Outcome>
    ensures { PartFaultsOnlyBy H.told H.faults host.old host.new result }
{
    let mut byte = [0u8; 1];
    match host.read_slot(INPUT, &mut byte) {
        Ok(0) => Ok(None),
        Ok(_) => Ok(Some(byte[0])),
        Err(HostFault::OutOfMemory) => Err(Outcome::OutOfMemory),
        Err(HostFault::Failed) => Err(Outcome::HostFault),
        Err(HostFault::Misused) => Err(Outcome::HostFault),
    }
}

/// Whether more of a line follows.
#[derive(Clone, Copy)]
enum More {
    Follows,
    LineEnds,
    InputEnds,
}

/// Reads one more byte of a line.
fn grow<H: Host>(host: &mut H, line: &mut Bytes) -> Result<More, Outcome>
    ensures { PartFaultsOnlyBy H.told H.faults host.old host.new result }
{
    match read_byte(host) {
        Ok(None) => Ok(More::InputEnds),
        Ok(Some(b'\n')) => Ok(More::LineEnds),
        Ok(Some(b)) => match line.push(b) {
            Ok(()) => Ok(More::Follows),
            Err(NoMemory) => Err(Outcome::OutOfMemory),
        },
        Err(outcome) => Err(outcome),
    }
}

/// A last line, which no newline ends, if there is something in it.
fn last_line(line: Bytes) -> Option<Bytes> {
    if line.as_slice().is_empty() {
        None
    } else {
        Some(line)
    }
}

/// Reads a line without its newline; nothing at the end of the input.
#[tactic(auto, using(mx_face::proofs::Parts::parts))]
fn line<H: Host>(alloc: Global, host: &mut H) -> Result<Option<Bytes>, Outcome>
    ensures { PartFaultsOnlyBy H.told H.faults host.old host.new result }
{
    let mut line = Bytes::new(alloc);
    for _turn in 0..LONGEST {
        match grow(host, &mut line) {
            Ok(More::Follows) => {}
            Ok(More::LineEnds) => return Ok(Some(line)),
            Ok(More::InputEnds) => return Ok(last_line(line)),
            Err(outcome) => return Err(outcome),
        }
    }
    Ok(Some(line))
}

/// Reads a line without its newline; nothing at the end of the input. Where it is not read, that is told on standard error.
pub fn read_line<H: Host>(alloc: Global, host: &mut H) -> Result<Option<Bytes>, Outcome>
    ensures { PartFaultsOnlyBy H.told H.faults host.old host.new result }
{
    match line(alloc, host) {
        Ok(line) => Ok(line),
        Err(outcome) => Err(tell(alloc, host, outcome)),
    }
}
