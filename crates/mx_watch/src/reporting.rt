//! The reports of all watchers, once a run is over.

ghost use Rattle.std.specs.Prelude.{◌≡◌, ◌++◌, IfOk, OnOk, drop, map};
ghost use Rattle.std.specs.List.{range_with_len};
ghost use Rattle.mx_watch.specs.Reporting.{in_places, kept_at, kept_or_next, next_following, texts_now};

use crate::Watcher;
use crate::telling::{Report, Reports, report_at};
use mx_word::{Bytes, NoMemory, Sequence};
use std::alloc::Global;

/// Texts, one for each of several watchers.
pub type Texts = Sequence<Bytes>;

/// The reports of all watchers of a run, in the order of a list of this many at its start: that which is kept, or that
/// of the next one that is left.
///
/// Errors: out of memory.
#[tactic(auto, using(crate::proofs::AllReported::in_turn))]
pub fn collect_reports(
    alloc: Global,
    count: usize,
    watchers: &Vec<Box<dyn Watcher>>,
    kept: &Reports,
) -> Result<Texts, NoMemory>
    ensures { IfOk result (λ texts. texts ≡
        in_places (range_with_len 0 count) kept.now (texts_now (map meaning watchers.now.items))) }
{
    let left = summaries(alloc, watchers)?;
    join(alloc, count, left.as_slice(), kept.as_slice())
}

/// The reports of watchers, in order.
#[tactic(auto, using(crate::proofs::AllReported::in_turn))]
fn summaries(alloc: Global, watchers: &Vec<Box<dyn Watcher>>) -> Result<Texts, NoMemory>
    ensures { IfOk result (λ texts. texts ≡ texts_now (map meaning watchers.now.items)) }
{
    let mut texts = Texts::new(alloc);
    for at in 0..watchers.len() {
        texts.push(report_at(watchers, at)?)?;
    }
    Ok(texts)
}

/// For each place the report that is kept, or the next one of those that are left.
#[tactic(auto, using(crate::proofs::AllReported::in_turn))]
fn join(alloc: Global, count: usize, left: &[Bytes], kept: &[Report]) -> Result<Texts, NoMemory>
    ensures { IfOk result (λ texts. texts ≡ in_places (range_with_len 0 count) kept.now left.now) }
{
    let mut texts = Texts::new(alloc);
    let mut next = 0;
    for place in 0..count {
        next = add_report(alloc, &mut texts, left, next, kept, place)?;
    }
    Ok(texts)
}

/// Adds the report for a place. Answers the index of the next one of those that are left.
#[tactic(auto, using(crate::proofs::AllReported::in_turn))]
fn add_report(
    alloc: Global,
    texts: &mut Texts,
    left: &[Bytes],
    next: usize,
    kept: &[Report],
    place: usize,
) -> Result<usize, NoMemory>
    ensures texts { OnOk result (texts.new ≡
        texts.old ++ kept_or_next (kept_at place kept.now) (drop next left.now)) }
    ensures next { IfOk result (λ n. drop n left.now ≡ next_following (kept_at place kept.now) (drop next left.now)) }
{
    match find_kept_text(alloc, kept, place)? {
        Some(text) => {
            texts.push(text)?;
            Ok(next)
        }
        None => {
            if next >= left.len() {
                return Ok(next);
            }
            texts.push(Bytes::copy(alloc, left[next].as_slice())?)?;
            Ok(next + 1)
        }
    }
}

/// The report that is kept for a place, if there is one.
#[tactic(auto, using(crate::proofs::AllReported::in_turn))]
fn find_kept_text(alloc: Global, kept: &[Report], place: usize) -> Result<Option<Bytes>, NoMemory>
    ensures { IfOk result (λ text. text ≡ kept_at place kept.now) }
{
    for report in kept {
        if report.place == place {
            let text = Bytes::copy(alloc, report.text.as_slice())?;
            return Ok(Some(text));
        }
    }
    Ok(None)
}
