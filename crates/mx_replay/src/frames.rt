//! The calls that have not returned.

ghost use Rattle.std.specs.Prelude.{◌≡◌, ◌+◌, ◌<◌, ◌^◌, IfOk, OnOk};
ghost use Rattle.mx_core.specs.Kept.{state_of};
ghost use Rattle.mx_replay.specs.Frames as spec;
ghost use Rattle.mx_replay.specs.Frames.{frames_at};
ghost use Rattle.mx_replay.specs.Visits.{IsStart, MakesTurn, turn_from};
ghost use Rattle.mx_replay.specs.declared.program.Program.{Program};

use crate::turns::make_turn;
use crate::visit::{Visit, has_more};
use mx_code::Trace;
use mx_stops::depth;
use mx_word::{NoMemory, Sequence};
use std::alloc::Global;

/// A call that has not returned: one by PUSHJ or PUSHGO.
#[derive(Clone, Copy, Debug, PartialEq, Eq)]
pub struct Frame {
    /// The address of the instruction that called.
    pub call: u64,
    /// The address that it went to.
    pub target: u64,
    /// How many octas it hid: registers, and their number.
    pub hides: u64,
}

/// Whether a tetra is SAVE or UNSAVE.
fn is_save(word: u32) -> bool
    ensures { result ≡ spec.is_save word }
{
    word >> 24 == 0xfa || word >> 24 == 0xfb
}

/// The calls after a step that was made with this many registers hidden before and after it.
fn follow(frames: &mut Vec<Frame>, before: u64, after: u64, trace: &Trace) -> Result<(), NoMemory>
    ensures { OnOk result (frames.new.items ≡ spec.traced before after trace.now frames.old.items) }
{
    if is_save(trace.word) {
        frames.clear();
    } else if before < after {
        frames.push(Frame {
            call: trace.pc,
            target: trace.next,
            hides: after - before,
        })?;
    } else if after < before {
        frames.pop();
    }
    Ok(())
}

/// Makes a turn, and follows the calls.
#[tactic(auto, using(crate::proofs::Framed::turning))]
fn follow_turn(alloc: Global, visit: &mut Visit, frames: &mut Vec<Frame>) -> Result<(), NoMemory>
    requires { visit.old.at + 1 < 2 ^ 64 }
    ensures turn { OnOk result (MakesTurn visit.old visit.new) }
    ensures frames { OnOk result (frames.new.items
        ≡ spec.turned (state_of visit.old.machine) (turn_from visit.old) frames.old.items) }
{
    let before = depth(&visit.machine);
    match make_turn(alloc, visit) {
        Ok(Some(trace)) => follow(frames, before, depth(&visit.machine), &trace),
        Ok(None) => Ok(()),
        Err(NoMemory) => Err(NoMemory),
    }
}

/// The calls that have not returned at step `until`, from the start of the run. Out of memory the visit is at no step of
/// the run.
pub(crate) fn find_frames(
    alloc: Global,
    visit: &mut Visit,
    until: u64,
) -> Result<Sequence<Frame>, NoMemory>
    ensures { IfOk result (λ frames. (p : Program) → IsStart p visit.old → frames ≡ frames_at p until) }
{
    let mut frames = Vec::new(alloc);
    while has_more(visit, until) {
        follow_turn(alloc, visit, &mut frames)?;
    }
    Ok(Sequence::from_vec(frames))
}
