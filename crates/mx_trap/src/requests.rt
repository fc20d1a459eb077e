//! What a file trap asks for, once its arguments, its text and its buffer are known to be good.

ghost use Rattle.std.specs.Prelude.{◌≡◌, ◌≤◌, ◌<◌, ◌+◌, ◌^◌, IfOk};
ghost use Rattle.mx_trap.specs.Requests as spec;

use crate::answer::TrapStop;
use crate::service::{Service, service_of};
use mx_alu::TrapCall;
use mx_mem::Space;
use mx_word::signed;

/// What is asked of the host. A text and a buffer are given by their address and their size in
/// bytes: at most 2^24, and none of the bytes at an address of 2^63 or more.
#[derive(Clone, Copy)]
pub enum Request {
    /// The end of the program.
    Ending,
    /// To open the file of this name, in the mode of this number.
    Opening { at: u64, size: u64, mode: u64 },
    /// To close the slot.
    Closing,
    /// To read into a buffer.
    Reading { at: u64, size: u64 },
    /// To read a line into a buffer.
    ReadingLine { at: u64, size: u64 },
    /// To write the bytes of a buffer.
    Writing { at: u64, size: u64 },
    /// To write a text.
    WritingText { at: u64, size: u64 },
    /// To move the place to this number.
    Seeking { to: i64 },
    /// To tell the place.
    Telling,
}

/// What a call asks for, or the first stop that it meets.
#[tactic(auto, unfolding(crate::specs::Requests::request_of))]
pub fn request_of<M: Space>(memory: &M, call: &TrapCall) -> Result<Request, TrapStop>
    ensures request { result ≡ spec.request_of (M.contents memory.now).bytes call.now }
    ensures bounds { IfOk result spec.IsInBounds }
{
    let service = service_of(call.word)?;
    request_by(memory, service, call.arg)
}

/// What a service asks for with this argument.
fn request_by<M: Space>(memory: &M, service: Service, b: u64) -> Result<Request, TrapStop>
    ensures request { result ≡ spec.request_by (M.contents memory.now).bytes b service }
    ensures bounds { IfOk result spec.IsInBounds }
{
    match service {
        Service::Halt => Ok(Request::Ending),
        Service::Fopen => open_request(memory, b),
        Service::Fclose => Ok(Request::Closing),
        Service::Fread => {
            let (at, size) = buffer(memory, b)?;
            Ok(Request::Reading { at, size })
        }
        Service::Fgets => {
            let (at, size) = buffer(memory, b)?;
            Ok(Request::ReadingLine { at, size })
        }
        Service::Fwrite => {
            let (at, size) = buffer(memory, b)?;
            Ok(Request::Writing { at, size })
        }
        Service::Fputs => {
            let size = text_length(memory, b)?;
            Ok(Request::WritingText { at: b, size })
        }
        Service::Fseek => Ok(Request::Seeking { to: signed(b) }),
        Service::Ftell => Ok(Request::Telling),
    }
}

/// The octas at b and b + 8.
pub fn read_arguments<M: Space>(memory: &M, b: u64) -> Result<(u64, u64), TrapStop>
    ensures { result ≡ spec.arguments (M.contents memory.now).bytes b }
{
    let Ok(p) = memory.octa_at(b) else {
        return Err(TrapStop::Negative);
    };
    let Ok(q) = memory.octa_at(b + 8) else {
        return Err(TrapStop::Negative);
    };
    Ok((p, q))
}

/// The buffer of the arguments at b: its address and its size.
fn buffer<M: Space>(memory: &M, b: u64) -> Result<(u64, u64), TrapStop>
    ensures { result ≡ spec.buffer (M.contents memory.now).bytes b }
{
    let (p, q) = read_arguments(memory, b)?;
    if q > 1 << 24 {
        return Err(TrapStop::TransferTooLarge);
    }
    if q > 0 && (p >= 1 << 63 || p + q > 1 << 63) {
        return Err(TrapStop::Negative);
    }
    Ok((p, q))
}

/// What Fopen asks for.
fn open_request<M: Space>(memory: &M, b: u64) -> Result<Request, TrapStop>
    ensures request { result ≡ spec.opening (M.contents memory.now).bytes b }
    ensures bounds { IfOk result spec.IsInBounds }
{
    let (at, mode) = read_arguments(memory, b)?;
    let size = text_length(memory, at)?;
    Ok(Request::Opening { at, size, mode })
}

/// How many bytes the text at an address has before its zero byte.
#[tactic(auto, using(crate::proofs::Texts::reading))]
pub fn text_length<M: Space>(memory: &M, a: u64) -> Result<u64, TrapStop>
    ensures length { result ≡ spec.text_length (2 ^ 24) (M.contents memory.now).bytes a }
    ensures bounds { IfOk result (λ n. spec.AreInBounds a n) }
{
    for count in 0..1u64 << 24 {
        if byte_at(memory, a + count)? == 0 {
            return Ok(count);
        }
    }
    if byte_at(memory, a + (1 << 24))? == 0 {
        return Ok(1 << 24);
    }
    Err(TrapStop::TransferTooLarge)
}

/// The byte at an address.
fn byte_at<M: Space>(memory: &M, a: u64) -> Result<u8, TrapStop>
    ensures { result ≡ spec.byte_at (M.contents memory.now).bytes a }
{
    match memory.byte_at(a) {
        Ok(b) => Ok(b),
        Err(_) => Err(TrapStop::Negative),
    }
}
