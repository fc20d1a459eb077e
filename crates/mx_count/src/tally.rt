//! What is counted of steps.

ghost use Rattle.std.specs.Prelude.{◌≡◌, ◌+◌, IfOk};
ghost use Rattle.mx_count.specs.Tallies as spec;

use mx_core::Trace;
use mx_costs::{mems, oops};
use mx_word::NoMemory;

/// What is counted of steps: how many there are, how many of them went to another address than the next, and what they
/// cost in υ (oops) and μ (mems).
#[derive(Clone, Copy, Debug, PartialEq, Eq)]
pub struct Tally {
    pub times: u64,
    pub away: u64,
    pub oops: u64,
    pub mems: u64,
}

/// The tally of no steps.
#[tactic(auto, unfolding(crate::specs::Tallies::nothing))]
pub(crate) fn empty_tally() -> Tally
    ensures { result ≡ spec.nothing }
{
    Tally {
        times: 0,
        away: 0,
        oops: 0,
        mems: 0,
    }
}

/// The sum of two numbers. For one that fits no octa there is no memory.
fn sum(a: u64, b: u64) -> Result<u64, NoMemory>
    ensures { IfOk result (λ n. n ≡ a + b) }
{
    match a.checked_add(b) {
        Some(n) => Ok(n),
        None => Err(NoMemory),
    }
}

/// The tally of these steps and those.
#[tactic(auto, unfolding(crate::specs::Tallies::added))]
pub(crate) fn add_tallies(x: Tally, y: Tally) -> Result<Tally, NoMemory>
    ensures { IfOk result (λ z. z ≡ spec.added x y) }
{
    let times = sum(x.times, y.times)?;
    let away = sum(x.away, y.away)?;
    let oops = sum(x.oops, y.oops)?;
    let mems = sum(x.mems, y.mems)?;
    Ok(Tally {
        times,
        away,
        oops,
        mems,
    })
}

/// Whether the address that follows a step is another one than the next.
fn is_transfer(pc: u64, next: u64) -> bool
    ensures { result ≡ spec.is_away pc next }
{
    match pc.checked_add(4) {
        Some(following) => next != following,
        None => true,
    }
}

/// The tally of a step.
pub(crate) fn step_tally(t: &Trace) -> Tally
    ensures { result ≡ spec.step_tally t.now }
{
    let away = is_transfer(t.pc, t.next);
    let code = (t.word >> 24) as u8;
    Tally {
        times: 1,
        away: u64::from(away),
        oops: oops(code, away),
        mems: mems(code),
    }
}
