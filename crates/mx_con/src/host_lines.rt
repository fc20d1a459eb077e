//! Lines over the host: each is written by one call, and read byte by byte.

ghost use Rattle.std.specs.Prelude.{◌≡◌, ◌≢◌, [], ◌<◌, ◌+◌, ◌-◌, ◌==◌, Err, Ok, true, false};
ghost use Rattle.mx_word.specs.Results.{map_ok};
ghost use Rattle.mx_con.specs.Clauses.{DoesOnHost};
ghost use Rattle.mx_con.specs.LinePlans as spec;

use crate::SessionEnd;
use mx_host::{Host, HostFault};
use mx_plan::{read, write};
use mx_word::Bytes;
use std::alloc::Global;

/// The slots of the console's input and output.
const INPUT: u16 = 258;

const OUTPUT: u16 = 259;

/// How the session ends by a fault of the host.
fn end_of(fault: HostFault) -> SessionEnd
    ensures { result ≡ spec.end_of fault }
{
    match fault {
        HostFault::OutOfMemory => SessionEnd::OutOfMemory,
        HostFault::Failed | HostFault::Misused => SessionEnd::HostFault,
    }
}

/// Writes a text by one call.
#[tactic(auto, using(mx_plan::proofs::Plans::plans), unfolding(crate::specs::LinePlans::text_plan))]
pub(crate) fn write_text<H: Host>(host: &mut H, text: &[u8]) -> Result<(), SessionEnd>
    ensures { DoesOnHost H.told H.faults host.old host.new result (spec.text_plan text.now) }
{
    match write(host, OUTPUT, text) {
        Ok(()) => Ok(()),
        Err(fault) => Err(end_of(fault)),
    }
}

/// Writes a line and its newline by one call.
#[tactic(auto, using(mx_plan::proofs::Plans::plans, mx_plan::proofs::Plans::needs), unfolding(crate::specs::LinePlans::line_plan))]
pub(crate) fn write_line<H: Host>(host: &mut H, line: Bytes) -> Result<(), SessionEnd>
    ensures { DoesOnHost H.told H.faults host.old host.new result (spec.line_plan line) }
{
    let mut line = line;
    match line.push(b'\n') {
        Ok(()) => write_text(host, line.as_slice()),
        Err(_) => Err(SessionEnd::OutOfMemory),
    }
}

/// The next byte of the console's input; None at its end.
#[tactic(auto, using(crate::proofs::LineReads::bytes, mx_plan::proofs::Plans::plans), unfolding(crate::specs::LinePlans::byte_plan))]
fn read_byte<H: Host>(host: &mut H) -> Result<Option<u8>, SessionEnd>
    ensures { DoesOnHost H.told H.faults host.old host.new result spec.byte_plan }
{
    let mut byte = [0u8; 1];
    match read(host, INPUT, &mut byte) {
        Ok(0) => Ok(None),
        Ok(_) => Ok(Some(byte[0])),
        Err(fault) => Err(end_of(fault)),
    }
}

/// Reads one more byte of a line: whether more of it follows, or the end of the session.
#[tactic(auto, using(mx_plan::proofs::Plans::plans, mx_plan::proofs::Plans::needs), unfolding(crate::specs::LinePlans::grown_plan))]
fn read_into_line<H: Host>(
    host: &mut H,
    line: &mut Bytes,
    left: &mut u64,
) -> Result<bool, SessionEnd>
    requires { 0 < left.old }
    ensures part { DoesOnHost H.told H.faults host.old host.new (map_ok (λ more. (more, line.new, left.new)) result)
        (spec.grown_plan (left.old - 1) line.old) }
    ensures fewer { result ≡ Ok true → left.new + 1 ≡ left.old }
{
    match read_byte(host) {
        Ok(Some(b)) => {
            *left -= 1;
            add_byte(line, b)
        }
        Ok(None) => last_line(line),
        Err(end) => Err(end),
    }
}

/// Adds a byte to a line, which a newline ends.
fn add_byte(line: &mut Bytes, b: u8) -> Result<bool, SessionEnd>
    ensures told { result ≢ Err SessionEnd.OutOfMemory → spec.Added b line.old line.new result }
    ensures cause { result ≢ Err SessionEnd.HostFault }
    ensures lacking { result ≡ Err SessionEnd.OutOfMemory → (b == 10) ≡ false }
{
    if b == b'\n' {
        return Ok(false);
    }
    match line.push(b) {
        Ok(()) => Ok(true),
        Err(_) => Err(SessionEnd::OutOfMemory),
    }
}

/// A line that the input ends within counts; at its start the session ends.
fn last_line(line: &Bytes) -> Result<bool, SessionEnd>
    ensures { result ≡ spec.last_line line.now }
{
    if line.as_slice().is_empty() {
        Err(SessionEnd::Quit)
    } else {
        Ok(false)
    }
}

/// Reads a line without its newline, of at most this many bytes of input that may still be taken.
#[tactic(auto, using(crate::proofs::LineReads::reading))]
pub(crate) fn read_line<H: Host>(
    alloc: Global,
    host: &mut H,
    left: &mut u64,
) -> Result<Bytes, SessionEnd>
    ensures { DoesOnHost H.told H.faults host.old host.new (map_ok (λ text. (text, left.new)) result)
        (spec.reading_plan left.old []) }
{
    let mut line = Bytes::new(alloc);
    while *left > 0 {
        match read_into_line(host, &mut line, left) {
            Ok(true) => {}
            Ok(false) => return Ok(line),
            Err(end) => return Err(end),
        }
    }
    Err(SessionEnd::Limit)
}

/// A line without a last carriage return.
#[tactic(auto, unfolding(crate::specs::LinePlans::without_return))]
pub(crate) fn without_return(line: &[u8]) -> &[u8]
    ensures { result.now ≡ spec.without_return line.now }
{
    match line {
        [front @ .., last] if *last == b'\r' => front,
        _ => line,
    }
}
