//! What a turn means for a run, by the flags of tetras.

ghost use Rattle.std.specs.Prelude.{◌≡◌, ◌≢◌, ◌<◌, ◌/◌, ◌^◌, Err, IfSome};
ghost use Rattle.mx_run.specs.FlagMaps.{break_flag, flags_at};
ghost use Rattle.mx_run.specs.RunPlans.{end_of_trace, end_of_turn};
ghost use Rattle.mx_run.specs.Ends as ends;

use crate::{BreakKind, End, FlagMap, Flags, TurnAnswer};
use mx_core::{Touch, Trace};

/// Whether a run ends with a turn from an address.
pub fn check_turn_end(flags: &FlagMap, pc: u64, answer: TurnAnswer) -> Result<(), End>
    ensures value { result ≡ end_of_turn (flags_at flags.now) pc answer }
    ensures memory { result ≡ Err End.OutOfMemory → answer ≡ TurnAnswer.OutOfMemory }
{
    match answer {
        TurnAnswer::Went(trace) => end_of_trace(flags, pc, trace),
        TurnAnswer::Halted(status) => Err(End::Halted(status)),
        TurnAnswer::Stopped(reason) => Err(End::Stopped { pc, reason }),
        TurnAnswer::OutOfMemory => Err(End::OutOfMemory),
    }
}

/// Whether a run ends with a step from an address, by its trace.
fn end_of_trace(flags: &FlagMap, pc: u64, trace: Trace) -> Result<(), End>
    ensures value { result ≡ end_of_trace (flags_at flags.now (pc / 4)).t trace
        (ends.break_of (flags_at flags.now) trace) }
    ensures memory { result ≢ Err End.OutOfMemory }
{
    let traced = flags.flags(pc).t;
    match break_of(flags, &trace) {
        Some((kind, n)) => Err(End::Broke {
            kind,
            at: 4 * n,
            traced: trace_if(traced, trace),
        }),
        None => {
            if traced {
                Err(End::Traced(trace))
            } else {
                Ok(())
            }
        }
    }
}

/// The trace of a step, where the step is to be traced.
fn trace_if(traced: bool, trace: Trace) -> Option<Trace>
    ensures { result ≡ ends.trace_if traced trace }
{
    if traced { Some(trace) } else { None }
}

/// The kind and the tetra of the break that a step comes to.
fn break_of(flags: &FlagMap, trace: &Trace) -> Option<(BreakKind, u64)>
    ensures value { result ≡ ends.break_of (flags_at flags.now) trace.now }
    ensures below { IfSome result (λ b. b.1 < 2 ^ 62) }
{
    match find_flagged(flags, BreakKind::Read, trace.reads) {
        Some(n) => Some((BreakKind::Read, n)),
        None => match find_flagged(flags, BreakKind::Write, trace.writes) {
            Some(n) => Some((BreakKind::Write, n)),
            None => None,
        },
    }
}

/// The lowest tetra of what is touched that has the flag of a kind.
fn find_flagged(flags: &FlagMap, kind: BreakKind, touch: Option<Touch>) -> Option<u64>
    ensures value { result ≡ ends.flagged_in (λ n. break_flag kind (flags_at flags.now n)) touch }
    ensures below { IfSome result (λ n. n < 2 ^ 62) }
{
    match touch {
        Some(touch) => find_first_flagged(flags, kind, touch),
        None => None,
    }
}

/// The lowest tetra of a touch that has the flag of a kind.
#[tactic(auto, using(crate::proofs::FlaggedTetras::breaking))]
fn find_first_flagged(flags: &FlagMap, kind: BreakKind, touch: Touch) -> Option<u64>
    ensures value { result ≡ ends.first_flagged (λ n. break_flag kind (flags_at flags.now n)) touch }
    ensures below { IfSome result (λ n. n < 2 ^ 62) }
{
    let n = touch.at / 4;
    if has_flag(kind, flags.flags_of(n)) {
        return Some(n);
    }
    if touch.size > 4 && has_flag(kind, flags.flags_of(n + 1)) {
        return Some(n + 1);
    }
    None
}

/// Whether flags have the one of a kind.
fn has_flag(kind: BreakKind, flags: Flags) -> bool
    ensures { result ≡ break_flag kind flags }
{
    match kind {
        BreakKind::Read => flags.r,
        BreakKind::Write => flags.w,
        BreakKind::Execute => flags.x,
    }
}
