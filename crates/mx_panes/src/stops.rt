//! What is told of a stop.

ghost use Rattle.std.specs.Prelude.{◌≡◌, ◌++◌, IfOk, OnOk, decimal};
ghost use Rattle.mx_json.specs.Json.{array, further};
ghost use Rattle.mx_panes.specs.Stops as spec;

use mx_json::{add_number, add_quoted, add_string};
use mx_text::add_decimal;
use mx_word::{Bytes, NoMemory};
use std::alloc::Global;

/// Adds further numbers.
fn add_further(text: &mut Bytes, numbers: &[u32]) -> Result<(), NoMemory>
    ensures { OnOk result (text.new ≡ text.old ++ further decimal numbers.now) }
{
    for number in numbers {
        add_number(text, b",", u64::from(*number))?;
    }
    Ok(())
}

/// Adds numbers as a list.
fn add_numbers(text: &mut Bytes, numbers: &[u32]) -> Result<(), NoMemory>
    ensures { OnOk result (text.new ≡ text.old ++ array decimal numbers.now) }
{
    match numbers {
        [] => text.extend(b"[]"),
        [number, more @ ..] => {
            add_number(text, b"[", u64::from(*number))?;
            add_further(text, more)?;
            text.extend(b"]")
        }
    }
}

/// The beginning of the member that tells a step.
#[tactic(auto, unfolding(crate::specs::Stops::step_name))]
fn step_name() -> &'static [u8]
    ensures { result.now ≡ spec.step_name }
{
    b",\"description\":\"step "
}

/// Adds why a run is at a stop, and its step.
#[tactic(auto, unfolding(crate::specs::Stops::stop_front))]
fn add_stop_front(body: &mut Bytes, at: u64, reason: &[u8]) -> Result<(), NoMemory>
    ensures { OnOk result (body.new ≡ body.old ++ spec.stop_front at reason.now) }
{
    add_quoted(body, b"{\"reason\":", reason)?;
    body.extend(step_name())?;
    add_decimal(body, at)
}

/// Adds what is between the step of a stop and what is said of it.
#[tactic(auto, unfolding(crate::specs::Stops::stop_middle))]
fn add_stop_middle(body: &mut Bytes) -> Result<(), NoMemory>
    ensures { OnOk result (body.new ≡ body.old ++ spec.stop_middle) }
{
    body.extend(b"\",\"threadId\":1,\"allThreadsStopped\":true")
}

/// The beginning of the member that tells which breaks and watches are met.
#[tactic(auto, unfolding(crate::specs::Stops::met_name))]
fn met_name() -> &'static [u8]
    ensures { result.now ≡ spec.met_name }
{
    b",\"hitBreakpointIds\":"
}

/// Adds what is said of a stop, and the breaks and watches that are met.
#[tactic(auto, unfolding(crate::specs::Stops::stop_end))]
fn add_stop_end(alloc: Global, body: &mut Bytes, said: &[u8], met: &[u32]) -> Result<(), NoMemory>
    ensures { OnOk result (body.new ≡ body.old ++ spec.stop_end said.now met.now) }
{
    add_string(alloc, body, b",\"text\":", said)?;
    body.extend(met_name())?;
    add_numbers(body, met)?;
    body.extend(b"}")
}

/// The body of what is told of a stop: its step, why it is one, what is said of it, and the numbers of the breaks and watches that
/// are met.
pub fn stop_body(
    alloc: Global,
    at: u64,
    reason: &[u8],
    said: &[u8],
    met: &[u32],
) -> Result<Bytes, NoMemory>
    ensures { IfOk result (λ body. body ≡ spec.stop_body at reason.now said.now met.now) }
{
    let mut body = Bytes::new(alloc);
    add_stop_front(&mut body, at, reason)?;
    add_stop_middle(&mut body)?;
    add_stop_end(alloc, &mut body, said, met)?;
    Ok(body)
}
