//! The turns of a schedule that are steps: those of processors that have not halted.

ghost use Rattle.std.specs.Prelude.{◌≡◌, ◌≤◌, ◌<◌, ◌++◌, ℕ, List, IfErr, IfOk, IfSome, None, [], drop, false, length, take, true};
ghost use Rattle.mx_multi.specs.Joint.{has_halted};
ghost use Rattle.mx_multi.specs.Stretches.{IsPlaceFrom, running};
ghost use Rattle.mx_multi.specs.Schedules.{AllHaveHalted, AreNames};

use mx_word::NoMemory;
use std::alloc::Global;

/// The names of a schedule that are those of processors which have not halted, and the place of the next turn.
#[derive(Drop)]
pub(crate) struct Queue {
    pub(crate) names: Vec<u8>,
    pub(crate) at: usize,
}

/// The place of the next turn, which is the first one again after the last; none where there are no names.
pub(crate) fn next_place(names: &[u8], at: usize) -> Option<usize>
    ensures some { IfSome result (λ place. IsPlaceFrom names.now at place) }
    ensures none { result ≡ None → names.now ≡ [] }
{
    if at < names.len() {
        Some(at)
    } else if names.is_empty() {
        None
    } else {
        Some(0)
    }
}

/// The names of a schedule, from its first turn on. It takes no memory where all their processors have halted.
pub(crate) fn queue_of(alloc: Global, halted: &[bool], schedule: &[u8]) -> Result<Queue, NoMemory>
    requires { AreNames (length halted.now) schedule.now }
    ensures names { IfOk result (λ q. q.names.items ≡ running halted.now schedule.now) }
    ensures place { IfOk result (λ q. drop q.at q.names.items ≡ running halted.now schedule.now) }
    ensures none { IfErr result (λ _. AllHaveHalted halted.now schedule.now → ⊥) }
{
    if !has_any_running(halted, schedule) {
        return Ok(Queue {
            names: Vec::new(alloc),
            at: 0,
        });
    }
    let names = Vec::from_slice(alloc, schedule)?;
    let mut queue = Queue { names, at: 0 };
    if has_any_halted(halted) {
        leave_out_halted(halted, &mut queue);
    }
    Ok(queue)
}

/// Whether one of all processors has halted. Where none has, each name is that of one which has not.
#[tactic(auto, using(crate::proofs::Packed::flags))]
fn has_any_halted(halted: &[bool]) -> bool
    ensures { result ≡ false → (names : List ℕ) → AreNames (length halted.now) names → running halted.now names ≡ names }
{
    for flag in halted {
        if *flag {
            return true;
        }
    }
    false
}

/// Whether a name is that of a processor which has not halted.
fn has_any_running(halted: &[bool], names: &[u8]) -> bool
    requires { AreNames (length halted.now) names.now }
    ensures some { result ≡ true → AllHaveHalted halted.now names.now → ⊥ }
    ensures none { result ≡ false → running halted.now names.now ≡ [] }
{
    for who in names {
        if !is_halted(halted, *who) {
            return true;
        }
    }
    false
}

/// Leaves out the names of processors that have halted, and finds the place again. It takes no memory.
pub(crate) fn leave_out_halted(halted: &[bool], queue: &mut Queue)
    requires names { AreNames (length halted.now) queue.now.names.items }
    requires inside { queue.now.at ≤ length queue.now.names.items }
    ensures names { queue.new.names.items ≡ running halted.now queue.old.names.items }
    ensures place { drop queue.new.at queue.new.names.items ≡ running halted.now (drop queue.old.at queue.old.names.items) }
{
    let length = queue.names.len();
    let names = queue.names.as_mut_slice();
    let place = pack(halted, names, 0, queue.at, 0);
    let packed = pack(halted, names, queue.at, length, place);
    queue.names.truncate(packed);
    queue.at = place;
}

/// Moves the names of a part that are those of processors which have not halted down to a place: where the next one goes.
/// No step of it depends on a test, so names in any order take the same time; and the flags are handed over as a slice,
/// whose place need not be read again after a name was written.
fn pack(halted: &[bool], names: &mut [u8], from: usize, to: usize, place: usize) -> usize
    requires names { AreNames (length halted.now) (drop from names.now) }
    requires order { place ≤ from }
    requires part { from ≤ to }
    requires inside { to ≤ length names.now }
    ensures packed { take result names.new ≡ take place names.old ++ running halted.now (drop from (take to names.old)) }
    ensures rest { drop to names.new ≡ drop to names.old }
    ensures few { result ≤ to }
    ensures count { length names.new ≡ length names.old }
{
    let mut place = place;
    for at in from..to {
        let who = names[at];
        names[place] = who;
        place += usize::from(!is_halted(halted, who));
    }
    place
}

/// Whether a processor has halted, by the flags of all.
fn is_halted(halted: &[bool], who: u8) -> bool
    requires { who < length halted.now }
    ensures { result ≡ has_halted halted.now who }
{
    halted[usize::from(who)]
}
