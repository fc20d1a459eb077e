//! Which octas of memory a turn may change.

ghost use Rattle.std.specs.Prelude.{◌≡◌, if◌then◌else◌};
ghost use Rattle.mx_record.specs.Following as spec;

use mx_code::{Instruction, Operation};
use mx_core::{Touch, Trace, is_in_stack_area};

/// The octas of memory that a turn may change.
#[derive(Clone, Copy)]
pub(crate) enum Reach {
    /// None of them.
    Nothing,
    /// The one of this number.
    Octa(u64),
    /// Any of them.
    All,
}

/// What a step that writes there may change.
fn reach_of_write(writes: Option<Touch>) -> Reach
    ensures { result ≡ spec.written_reach writes }
{
    match writes {
        Some(touch) => Reach::Octa(touch.at / 8),
        None => Reach::Nothing,
    }
}

/// Whether the tetra is a TRAP.
fn is_trap(word: u32) -> bool
    ensures { result ≡ spec.is_trap (spec.operation_of_word word) }
{
    match Instruction::new(0, word).operation() {
        Operation::Trap => true,
        _ => false,
    }
}

/// What a file trap may change: Fread and Fgets read into memory.
fn trap_reach(word: u32) -> Reach
    ensures { result ≡ (if spec.reads_file word then Reach.All else Reach.Nothing) }
{
    match (word >> 8) % 256 {
        3 | 4 => Reach::All,
        _ => Reach::Nothing,
    }
}

/// Whether an operation may change registers that are hidden before and after it.
fn is_deep(word: u32) -> bool
    ensures { result ≡ spec.is_deep (spec.operation_of_word word) }
{
    match Instruction::new(0, word).operation() {
        Operation::Unsave | Operation::Resume | Operation::Trap => true,
        _ => false,
    }
}

/// Whether a step writes into the stack area.
fn is_area_write(writes: Option<Touch>) -> bool
    ensures { result ≡ spec.writes_area writes }
{
    match writes {
        Some(touch) => is_in_stack_area(touch.at),
        None => false,
    }
}

/// Whether a turn may change registers that are hidden before and after it.
fn may_change_hidden(trace: Option<Trace>) -> bool
    ensures { result ≡ spec.reaches_hidden trace }
{
    match trace {
        Some(trace) => is_deep(trace.word) || is_area_write(trace.writes),
        None => true,
    }
}

/// How many registers of the stack stay in front of those that a turn may change, where this many are hidden before and after
/// it.
pub(crate) fn kept_count(trace: Option<Trace>, before: u64, after: u64) -> u64
    ensures { result ≡ spec.kept_count trace before after }
{
    if may_change_hidden(trace) {
        0
    } else {
        before.min(after)
    }
}

/// What a turn may change, by its trace; the last turn has none.
pub(crate) fn reach_of(trace: Option<Trace>) -> Reach
    ensures { result ≡ spec.reach_of trace }
{
    match trace {
        Some(trace) => {
            if is_trap(trace.word) {
                trap_reach(trace.word)
            } else {
                reach_of_write(trace.writes)
            }
        }
        None => Reach::All,
    }
}
