//! Watchers that are told a trace.

ghost use Rattle.std.specs.Prelude.{◌≡◌, ◌<◌, ◌+◌, ◌++◌, [], ◌∷◌, IfOk, OnOk, OnErr, drop, length, map, slice_index, slice_index_or, slice_set, take};
ghost use Rattle.std.specs.List.{remove, zip};
ghost use Rattle.mx_watch.specs.Watching.{Watching, later, wish_if};
ghost use Rattle.mx_watch.specs.Lacking.{LacksAt, ToldSome};
ghost use Rattle.mx_watch.specs.Listening.{listening, reports_at, still_listening, told, told_at};

use crate::{Watcher, Wish};
use mx_core::Trace;
use mx_word::{Bytes, NoMemory, Sequence};

/// The report of a watcher that was full: its place in the list of watchers at the start, and its text.
#[derive(Drop)]
pub struct Report {
    pub place: usize,
    pub text: Bytes,
}

/// Reports in the order in which the watchers were full, and at one trace in the order of their places.
pub type Reports = Sequence<Report>;

/// Tells a watcher a trace.
fn tell_one(watcher: &mut Box<dyn Watcher>, t: &Trace) -> Result<Wish, NoMemory>
    ensures wish { IfOk result (λ w. w ≡ wish_if ((meaning watcher.old).full (t.now ∷ []))) }
    ensures ok { OnOk result (meaning watcher.new ≡ later t.now (meaning watcher.old)) }
    ensures err { OnErr result (meaning watcher.new ≡ meaning watcher.old) }
{
    watcher.tell(t)
}

/// The report of a watcher.
fn report_of(watcher: &Box<dyn Watcher>) -> Result<Bytes, NoMemory>
    ensures { IfOk result (λ b. b ≡ (meaning watcher.now).text []) }
{
    watcher.summary()
}

/// Tells the watcher at an index a trace.
#[tactic(auto, using(crate::proofs::OneTold::one_told))]
fn tell_at(watchers: &mut Vec<Box<dyn Watcher>>, at: usize, t: &Trace) -> Result<Wish, NoMemory>
    requires { at < length watchers.now.items }
    ensures wish { (d : Watching) → IfOk result (λ w.
        w ≡ wish_if ((slice_index_or (map meaning watchers.old.items) at d).full (t.now ∷ []))) }
    ensures ok { (d : Watching) → OnOk result (map meaning watchers.new.items ≡
        slice_set (map meaning watchers.old.items) at (later t.now (slice_index_or (map meaning watchers.old.items) at d))) }
    ensures err { OnErr result (map meaning watchers.new.items ≡ map meaning watchers.old.items) }
    ensures count { length watchers.new.items ≡ length watchers.old.items }
{
    tell_one(&mut watchers[at], t)
}

/// The report of the watcher at an index.
pub(crate) fn report_at(watchers: &Vec<Box<dyn Watcher>>, at: usize) -> Result<Bytes, NoMemory>
    requires { at < length watchers.now.items }
    ensures { (d : Watching) → IfOk result (λ b. b ≡ (slice_index_or (map meaning watchers.now.items) at d).text []) }
{
    report_of(&watchers[at])
}

/// The watcher at an index leaves the list.
#[tactic(auto, using(crate::proofs::OneTold::one_told))]
fn leave(watchers: &mut Vec<Box<dyn Watcher>>, at: usize)
    requires { at < length watchers.now.items }
    ensures left { map meaning watchers.new.items ≡ remove (map meaning watchers.old.items) at }
    ensures count { length watchers.new.items + 1 ≡ length watchers.old.items }
{
    watchers.remove(at);
}

/// Keeps the report of the watcher at an index.
fn keep_report(
    watchers: &Vec<Box<dyn Watcher>>,
    places: &Vec<usize>,
    kept: &mut Reports,
    at: usize,
) -> Result<(), NoMemory>
    requires inside { at < length watchers.now.items }
    requires same { length places.now.items ≡ length watchers.now.items }
    ensures ok { (d : Watching) → OnOk result (kept.new ≡ kept.old ++ record {
      place = slice_index places.now.items at;
      text = (slice_index_or (map meaning watchers.now.items) at d).text [];
    } ∷ []) }
    ensures lacks { OnErr result (kept.new ≡ kept.old) }
{
    let text = report_at(watchers, at)?;
    kept.push(Report {
        place: places[at],
        text,
    })
}

/// Keeps the report of the watcher at an index, which then leaves the list with its place.
///
/// Errors: out of memory; then nothing changed.
fn dismiss(
    watchers: &mut Vec<Box<dyn Watcher>>,
    places: &mut Vec<usize>,
    kept: &mut Reports,
    at: usize,
) -> Result<(), NoMemory>
    requires inside { at < length watchers.now.items }
    requires same { length places.now.items ≡ length watchers.now.items }
    ensures left { OnOk result (map meaning watchers.new.items ≡ remove (map meaning watchers.old.items) at) }
    ensures places { OnOk result (places.new.items ≡ remove places.old.items at) }
    ensures kept { (d : Watching) → OnOk result (kept.new ≡ kept.old ++ record {
      place = slice_index places.old.items at;
      text = (slice_index_or (map meaning watchers.old.items) at d).text [];
    } ∷ []) }
    ensures lacks { OnErr result (map meaning watchers.new.items ≡ map meaning watchers.old.items) }
    ensures placed { OnErr result (places.new.items ≡ places.old.items) }
    ensures unkept { OnErr result (kept.new ≡ kept.old) }
    ensures same { length places.new.items ≡ length watchers.new.items }
{
    keep_report(watchers, places, kept, at)?;
    leave(watchers, at);
    places.remove(at);
    Ok(())
}

/// Tells the watcher at an index a trace. Where it is full, its report is kept and it leaves the list with its
/// place. Answers the index of the one after it.
///
/// Errors: out of memory. Then it was not told the trace; or it was, its report lacked memory, and it is left.
fn pass(
    watchers: &mut Vec<Box<dyn Watcher>>,
    places: &mut Vec<usize>,
    kept: &mut Reports,
    at: usize,
    t: &Trace,
) -> Result<usize, NoMemory>
    requires inside { at < length watchers.now.items }
    requires same { length places.now.items ≡ length watchers.now.items }
    ensures left { OnOk result (zip places.new.items (map meaning watchers.new.items) ≡
        told_at t.now at (zip places.old.items (map meaning watchers.old.items))) }
    ensures kept { OnOk result (kept.new ≡
        kept.old ++ reports_at t.now (take 1 (drop at (zip places.old.items (map meaning watchers.old.items))))) }
    ensures next { IfOk result (λ next. next ≡ at +
        length (still_listening t.now (take 1 (drop at (zip places.old.items (map meaning watchers.old.items)))))) }
    ensures lacks { OnErr result (LacksAt t.now at (listening places.old.items (map meaning watchers.old.items) kept.old)
        (listening places.new.items (map meaning watchers.new.items) kept.new)) }
    ensures same { length places.new.items ≡ length watchers.new.items }
{
    match tell_at(watchers, at, t) {
        Ok(Wish::More) => Ok(at + 1),
        Ok(Wish::Full) => {
            dismiss(watchers, places, kept, at)?;
            Ok(at)
        }
        Err(_) => Err(NoMemory),
    }
}

/// Tells each watcher a trace, in order. The report of one that is full is kept, and it leaves the list with its
/// place.
///
/// Errors: out of memory. Then the first ones were told the trace, and one more whose report lacked memory, which is left.
#[tactic(auto, using(crate::proofs::Front::turns))]
pub(crate) fn tell_all(
    watchers: &mut Vec<Box<dyn Watcher>>,
    places: &mut Vec<usize>,
    kept: &mut Reports,
    t: &Trace,
) -> Result<(), NoMemory>
    requires { length places.now.items ≡ length watchers.now.items }
    ensures told { OnOk result (listening places.new.items (map meaning watchers.new.items) kept.new ≡
        told t.now (listening places.old.items (map meaning watchers.old.items) kept.old)) }
    ensures lacks { OnErr result (ToldSome t.now (listening places.old.items (map meaning watchers.old.items) kept.old)
        (listening places.new.items (map meaning watchers.new.items) kept.new)) }
    ensures same { length places.new.items ≡ length watchers.new.items }
{
    let mut at = 0;
    for _turn in 0..watchers.len() {
        at = pass(watchers, places, kept, at, t)?;
    }
    Ok(())
}
