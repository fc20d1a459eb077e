//! The word that shows the calls that have not returned.

ghost use Rattle.std.specs.Prelude.{◌≡◌};

use crate::session::Session;
use mx_places::add_overwritten;
use mx_replay::{Frame, Replay};
use mx_tell::{Call, add_backtrace};
use mx_word::{Bytes, NoMemory, Sequence};
use std::alloc::Global;

/// This many calls are told with their arguments: the innermost ones.
const TOLD: usize = 8;

/// What a call was handed: the registers that it has at its start.
type Arguments = Option<Sequence<u64>>;

/// What the call was handed that was made where at most this many registers were hidden.
fn arguments_at(replay: &mut Replay, depth: u64) -> Result<Arguments, NoMemory>
    ensures { replay.new ≡ replay.old }
{
    match replay.find_last_shallow(depth)? {
        Some(k) => Ok(Some(replay.locals_at(k.saturating_add(1))?)),
        None => Ok(None),
    }
}

/// What the innermost calls were handed, the innermost one first.
fn all_arguments(
    alloc: Global,
    replay: &mut Replay,
    frames: &[Frame],
) -> Result<Vec<Arguments>, NoMemory>
    ensures { replay.new ≡ replay.old }
{
    let mut all = Vec::new(alloc);
    let mut depth = replay.depth();
    for frame in frames.iter().rev().take(TOLD) {
        depth = depth.saturating_sub(frame.hides);
        let arguments = arguments_at(replay, depth)?;
        all.push(arguments)?;
    }
    Ok(all)
}

/// Calls as they are told, the innermost ones with what they were handed.
fn calls_of(
    alloc: Global,
    frames: &[Frame],
    arguments: Vec<Arguments>,
) -> Result<Sequence<Call>, NoMemory> {
    let mut arguments = arguments;
    let mut calls = Sequence::new(alloc);
    for (place, frame) in frames.iter().enumerate() {
        let known = if frames.len().saturating_sub(place) <= TOLD {
            arguments.pop()
        } else {
            None
        };
        calls.push(Call {
            call: frame.call,
            target: frame.target,
            arguments: known.unwrap_or(None),
        })?;
    }
    Ok(calls)
}

impl Session {
    /// Obeys `backtrace`.
    pub(crate) fn obey_backtrace(&mut self, out: &mut Bytes) -> Result<(), NoMemory>
        ensures { self.new ≡ self.old }
    {
        let alloc = self.known.alloc;
        let frames = self.replay.frames()?;
        let arguments = all_arguments(alloc, &mut self.replay, frames.as_slice())?;
        let calls = calls_of(alloc, frames.as_slice(), arguments)?;
        let pc = self.replay.machine().pc();
        add_backtrace(out, &self.known.book, calls.as_slice(), pc)?;
        add_overwritten(out, &mut self.replay)
    }
}
