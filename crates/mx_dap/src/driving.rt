//! How a session of the debugger is driven by requests in place of lines: it goes to steps without telling of them, and its breaks and
//! watches are set one by one.

ghost use Rattle.std.specs.Prelude.{◌≡◌, min, OnOk};
ghost use Rattle.mx_debug.specs.Going.{GoesTo, GoesToLast, GoesToNext, depth_at};
ghost use Rattle.mx_debug.specs.Sessions.{KeepsProgram, KeepsStops};

use mx_debug::Session;
use mx_stops::{Break, Condition, Place, Seen, Watch, see};
use mx_word::{NoMemory, Sequence};

/// The step that is shown.
pub(crate) fn step_at(session: &Session) -> u64
    ensures { result ≡ session.now.at }
{
    session.replay.step_number()
}

/// How many registers are hidden at the step that is shown.
#[tactic(auto, using(mx_debug::proofs::Reaching::depths))]
pub(crate) fn hidden_at(session: &Session) -> u64
    ensures { result ≡ depth_at session.now }
{
    session.replay.depth()
}

/// Goes to step k, but not past the last one that can be reached nor past the end.
pub(crate) fn seek(session: &mut Session, k: u64) -> Result<(), NoMemory>
    ensures program { KeepsProgram session.old session.new }
    ensures stops { KeepsStops session.old session.new }
    ensures reached { OnOk result (GoesTo session.old k session.new.at) }
{
    session.replay.go_to(k.min(session.known.most))
}

/// Goes back to step k, but not past the one that is shown.
#[tactic(auto, using(mx_debug::proofs::Reaching::reaching))]
fn seek_back(session: &mut Session, k: u64) -> Result<(), NoMemory>
    ensures program { KeepsProgram session.old session.new }
    ensures stops { KeepsStops session.old session.new }
    ensures back { OnOk result (session.new.at ≡ min k session.old.at) }
{
    let k = k.min(session.replay.step_number());
    session.replay.go_to(k)
}

/// Goes on to the next step at a break or a change of what is watched, or at which at most this many registers are hidden, if that is
/// asked, and says whether there is one up to step `until`. Where there is none, it goes on to that step, or to the end.
#[tactic(auto, using(mx_debug::proofs::Reaching::leading))]
pub(crate) fn seek_stop(
    session: &mut Session,
    depth: Option<u64>,
    until: u64,
) -> Result<bool, NoMemory>
    ensures program { KeepsProgram session.old session.new }
    ensures stops { KeepsStops session.old session.new }
    ensures next { OnOk result (GoesToNext (record session.old { most = until }) depth session.new.at) }
{
    let stops = &session.known.stops;
    let found = session.replay.next_stop(
        stops.breaks.as_slice(),
        stops.watches.as_slice(),
        depth,
        until,
    )?;
    Ok(found.is_some())
}

/// Goes back to the last step at a break or a change of what is watched, or at which at most this many registers are hidden, if that is
/// asked. Where there is none, it goes back to the start.
#[tactic(auto, using(mx_debug::proofs::Reaching::leading))]
pub(crate) fn seek_last_stop(session: &mut Session, depth: Option<u64>) -> Result<(), NoMemory>
    ensures program { KeepsProgram session.old session.new }
    ensures stops { KeepsStops session.old session.new }
    ensures last { OnOk result (GoesToLast session.old depth session.new.at) }
{
    let stops = &session.known.stops;
    let found = session
        .replay
        .find_last_stop(stops.breaks.as_slice(), stops.watches.as_slice(), depth)?;
    seek_back(session, found.unwrap_or(0))
}

/// The local registers at the last step before this one at which at most this many registers are hidden, if there is one.
pub(crate) fn find_outer_locals(
    session: &mut Session,
    depth: u64,
) -> Result<Option<Sequence<u64>>, NoMemory>
    ensures { session.new ≡ session.old }
{
    match session.replay.find_last_shallow(depth)? {
        Some(k) => Ok(Some(session.replay.locals_at(k)?)),
        None => Ok(None),
    }
}

/// Sets a break, and gives its number.
pub(crate) fn add_break(
    session: &mut Session,
    address: u64,
    condition: Option<Condition>,
) -> Result<u32, NoMemory>
    ensures program { KeepsProgram session.old session.new }
    ensures place { session.new.at ≡ session.old.at }
    ensures watches { session.new.watches ≡ session.old.watches }
{
    let number = session.known.stops.next();
    session.known.stops.breaks.push(Break {
        number,
        address,
        condition,
    })?;
    Ok(number)
}

/// Watches a place, and gives the number of the watch.
pub(crate) fn add_watch(session: &mut Session, place: Place) -> Result<u32, NoMemory>
    ensures program { KeepsProgram session.old session.new }
    ensures place { session.new.at ≡ session.old.at }
    ensures breaks { session.new.breaks ≡ session.old.breaks }
{
    let number = session.known.stops.next();
    session.known.stops.watches.push(Watch { number, place })?;
    Ok(number)
}

/// The breaks but that of a number.
fn breaks_but(session: &Session, number: u32) -> Result<Sequence<Break>, NoMemory> {
    let mut left = Sequence::new(session.known.alloc);
    for b in session.known.stops.breaks.as_slice() {
        if b.number != number {
            left.push(*b)?;
        }
    }
    Ok(left)
}

/// What is watched but that of a number.
fn watches_but(session: &Session, number: u32) -> Result<Sequence<Watch>, NoMemory> {
    let mut left = Sequence::new(session.known.alloc);
    for watch in session.known.stops.watches.as_slice() {
        if watch.number != number {
            left.push(*watch)?;
        }
    }
    Ok(left)
}

/// Drops the break or the watch of a number.
pub(crate) fn drop_stop(session: &mut Session, number: u32) -> Result<(), NoMemory>
    ensures program { KeepsProgram session.old session.new }
    ensures place { session.new.at ≡ session.old.at }
{
    let breaks = breaks_but(session, number)?;
    let watches = watches_but(session, number)?;
    session.known.stops.breaks = breaks;
    session.known.stops.watches = watches;
    Ok(())
}

/// What is seen of the places that are watched.
fn see_watched_values(session: &Session) -> Result<Sequence<Seen>, NoMemory> {
    let mut values = Sequence::new(session.known.alloc);
    for watch in session.known.stops.watches.as_slice() {
        values.push(see(session.replay.machine(), watch.place))?;
    }
    Ok(values)
}

/// What is seen of the places that are watched one step before.
#[tactic(auto, using(crate::proofs::Told::returning))]
fn values_before(session: &mut Session) -> Result<Sequence<Seen>, NoMemory>
    ensures program { KeepsProgram session.old session.new }
    ensures stops { KeepsStops session.old session.new }
    ensures place { OnOk result (session.new.at ≡ session.old.at) }
{
    let here = session.replay.step_number();
    session.replay.go_to(here.saturating_sub(1))?;
    let values = see_watched_values(session)?;
    session.replay.go_to(here)?;
    Ok(values)
}

/// Adds the numbers of the breaks that the step that is shown is at.
fn add_breaks_met(session: &Session, numbers: &mut Sequence<u32>) -> Result<(), NoMemory> {
    for b in session.known.stops.breaks.as_slice() {
        if b.is_met(session.replay.machine()) {
            numbers.push(b.number)?;
        }
    }
    Ok(())
}

/// Adds the numbers of the watches whose values the last turn changed.
fn add_watches_met(
    session: &Session,
    numbers: &mut Sequence<u32>,
    values: &[Seen],
) -> Result<(), NoMemory> {
    let watches = session.known.stops.watches.as_slice();
    for (watch, old) in watches.iter().zip(values) {
        if old.is_change(&see(session.replay.machine(), watch.place), watch.place) {
            numbers.push(watch.number)?;
        }
    }
    Ok(())
}

/// The numbers of the breaks and watches at which the step that is shown is a stop.
pub(crate) fn find_met(session: &mut Session) -> Result<Sequence<u32>, NoMemory>
    ensures program { KeepsProgram session.old session.new }
    ensures stops { KeepsStops session.old session.new }
    ensures place { OnOk result (session.new.at ≡ session.old.at) }
{
    let mut numbers = Sequence::new(session.known.alloc);
    add_breaks_met(session, &mut numbers)?;
    if !session.known.stops.watches.as_slice().is_empty() {
        let values = values_before(session)?;
        add_watches_met(session, &mut numbers, values.as_slice())?;
    }
    Ok(numbers)
}
