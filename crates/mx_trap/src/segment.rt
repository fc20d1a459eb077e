//! Which calls touch Stack_Segment.

ghost use Rattle.std.specs.Prelude.{◌≡◌};
ghost use Rattle.mx_trap.specs.Touches as spec;

use crate::answer::TrapStop;
use crate::requests::{read_arguments, text_length};
use crate::service::{Service, service_of};
use mx_alu::TrapCall;
use mx_mem::Space;
use mx_word::{STACK_SEGMENT, is_in_stack_segment};

/// Whether the TRAP lies in Stack_Segment, or an argument octa, a byte of the text that the call
/// reads, or one of the bytes of its buffer, whatever its size, lies there. A call that names no
/// service has none of these. It takes no memory.
#[tactic(auto, unfolding(crate::specs::Touches::touches, crate::specs::Touches::is_wild))]
pub fn touches<M: Space>(memory: &M, call: &TrapCall) -> bool
    ensures { result ≡ spec.touches (M.contents memory.now).bytes call.now }
{
    if is_in_stack_segment(call.pc) {
        return true;
    }
    match service_of(call.word) {
        Ok(service) => service_touches(memory, service, call.arg),
        Err(_) => false,
    }
}

/// Whether a service with this argument looks at a byte there.
fn service_touches<M: Space>(memory: &M, service: Service, b: u64) -> bool
    ensures { result ≡ spec.service_touches (M.contents memory.now).bytes b service }
{
    match service {
        Service::Fopen => name_touches(memory, b),
        Service::Fread | Service::Fgets | Service::Fwrite => buffer_touches(memory, b),
        Service::Fputs => text_touches(memory, b),
        Service::Halt | Service::Fclose | Service::Fseek | Service::Ftell => false,
    }
}

/// Whether the arguments at b or a byte of the buffer that they give lies there.
fn buffer_touches<M: Space>(memory: &M, b: u64) -> bool
    ensures { result ≡ spec.arguments_touch spec.meets_segment (M.contents memory.now).bytes b }
{
    if is_in_stack_segment(b) || is_in_stack_segment(b.wrapping_add(8)) {
        return true;
    }
    match read_arguments(memory, b) {
        Ok((p, q)) => is_any_in_segment(p, q),
        Err(_) => false,
    }
}

/// Whether the arguments at b or a byte of the name that they give lies there.
fn name_touches<M: Space>(memory: &M, b: u64) -> bool
    ensures { result ≡ spec.arguments_touch (λ p _. spec.text_touches (M.contents memory.now).bytes p)
        (M.contents memory.now).bytes b }
{
    if is_in_stack_segment(b) || is_in_stack_segment(b.wrapping_add(8)) {
        return true;
    }
    match read_arguments(memory, b) {
        Ok((p, _)) => text_touches(memory, p),
        Err(_) => false,
    }
}

/// Whether a byte that is looked at in the text at an address lies there. Where no text could reach
/// so far, it is not read.
#[tactic(auto, using(crate::proofs::Segments::reaching))]
fn text_touches<M: Space>(memory: &M, a: u64) -> bool
    ensures { result ≡ spec.text_touches (M.contents memory.now).bytes a }
{
    if a < STACK_SEGMENT - (1 << 24) {
        return false;
    }
    match text_length(memory, a) {
        Ok(length) => is_any_in_segment(a, length + 1),
        Err(stop) => is_any_in_segment(a, stop_reach(a, stop)),
    }
}

/// How many bytes of the text at an address are looked at below 2^63, where it meets this stop.
fn stop_reach(a: u64, stop: TrapStop) -> u64
    ensures { result ≡ spec.stop_reach a stop }
{
    match stop {
        TrapStop::Negative => (1u64 << 63).saturating_sub(a),
        TrapStop::TransferTooLarge => (1 << 24) + 1,
        TrapStop::WideTrap | TrapStop::TrapPagesFull | TrapStop::UnknownTrap => 0,
    }
}

/// Whether one of n addresses from a on lies there.
fn is_any_in_segment(a: u64, n: u64) -> bool
    ensures { result ≡ spec.meets_segment a n }
{
    let end = u128::from(a) + u128::from(n);
    if a < 1 << 63 {
        n > 0 && end > u128::from(STACK_SEGMENT)
    } else {
        end > (1 << 64) + u128::from(STACK_SEGMENT)
    }
}
