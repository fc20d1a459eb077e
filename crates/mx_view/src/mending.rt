//! A search for faults that walks over the lines of a source, and takes what is left of a faulty line in its place.

ghost use Rattle.std.specs.Prelude.{◌≡◌, ◌<◌, ◌∷◌, ℕ, List, Some, IfOk, OnOk, true};
ghost use Rattle.mx_line.specs.Lines.{lines_of};
ghost use Rattle.mx_view.specs.Mending as spec;
ghost use Rattle.mx_view.specs.Search.{assembly_refusal, found_with, kind_of};
ghost use Rattle.mx_view.specs.declared.search.Looked.TheVariants.{Next};
ghost use Rattle.mx_walk.specs.Walks.{IsAt, IsPlain, IsRefused, IsText};

use crate::search::{
    Finding, Looked, add_refused, insert_refusal, kind_of, line_at_fault, run_refusal,
};
use mx_asm::Refused;
use mx_line::cut_line;
use mx_walk::{Stop, Walk, strip_to_label};
use mx_word::{Bytes, NoMemory};
use std::alloc::Global;

/// A search: the lines that were taken so far, the refusals that were found, and how many sources may still be looked at.
#[derive(Drop)]
pub(crate) struct Search {
    pub walk: Walk,
    pub lines: Vec<Refused>,
    pub left: u32,
}

/// Adds a refusal, and gives what is left of its line: its label, or nothing where it was refused before; no text where a search ends.
fn add_found(alloc: Global, lines: &mut Vec<Refused>, s: &Stop) -> Result<Option<Bytes>, NoMemory>
    requires plain { IsPlain s.now.text }
    ensures lines { OnOk result (lines.new.items ≡ found_with lines.old.items (Some s.now.refused)) }
    ensures left { IfOk result (λ left. left ≡ spec.left_as (kind_of lines.old.items s.now.refused) s.now.text) }
{
    match kind_of(lines.as_slice(), s.refused) {
        Finding::New => {
            insert_refusal(lines, s.refused)?;
            Ok(Some(strip_to_label(alloc, s.text.as_slice())?))
        }
        Finding::Again => Ok(Some(Bytes::copy(alloc, b" ")?)),
        Finding::Beyond | Finding::Whole => Ok(None),
    }
}

/// Takes what is left of a line in its place; nothing where the search goes on from the first line, or ends.
#[tactic(auto, using(crate::proofs::MendedLines::mending))]
fn replace(alloc: Global, s: &mut Search, stop: &Stop) -> Result<Option<Option<Stop>>, NoMemory>
    requires at { IsAt s.old.walk }
    requires plain { IsPlain stop.now.text }
    requires refused { IsRefused s.old.walk.front stop.now.text stop.now.refused }
    ensures { IfOk result (λ mended. spec.HasReplaced s.old s.new stop.now mended) }
{
    if s.left == 0 || line_at_fault(stop.refused) != s.walk.number() {
        return Ok(None);
    }
    match add_found(alloc, &mut s.lines, stop)? {
        None => Ok(None),
        Some(text) => {
            s.left -= 1;
            Ok(Some(s.walk.take(alloc, text.as_slice())?))
        }
    }
}

/// Takes what is left of a line that is refused so in its place, or gives what is refused there.
#[tactic(auto, using(crate::proofs::MendedLines::mending))]
fn mend(alloc: Global, s: &mut Search, first: Stop) -> Result<Option<Stop>, NoMemory>
    requires { spec.IsStopped s.old s.old first.text first }
    ensures { IfOk result (λ stop. spec.HasGone s.old s.new first.text stop) }
{
    let mut stop = first;
    while stop.is_kept {
        match replace(alloc, s, &stop)? {
            None => return Ok(Some(stop)),
            Some(None) => return Ok(None),
            Some(Some(next)) => stop = next,
        }
    }
    Ok(Some(stop))
}

/// Takes a line, or what is left of it in its place, or gives what is refused there.
#[tactic(auto, using(crate::proofs::MendedLines::mending))]
fn take_or_mend(alloc: Global, s: &mut Search, line: &[u8]) -> Result<Option<Stop>, NoMemory>
    requires at { IsAt s.old.walk }
    requires plain { IsPlain line.now }
    ensures { IfOk result (λ stop. spec.HasGone s.old s.new line.now stop) }
{
    match s.walk.take(alloc, line)? {
        None => Ok(None),
        Some(stop) => mend(alloc, s, stop),
    }
}

/// What follows where a source is refused so; it is not looked at where no more sources are.
#[tactic(auto, using(crate::proofs::MendedLines::looking))]
fn look(alloc: Global, s: &mut Search, source: &[u8], refused: Refused) -> Result<Looked, NoMemory>
    requires { assembly_refusal source.now ≡ Some refused }
    ensures looked { IfOk result (λ looked. spec.is_found s.old source.now ≡ spec.is_found_by s.new looked) }
    ensures fewer { IfOk result (λ looked. (next : List ℕ) → looked ≡ Next next → s.new.left < s.old.left) }
{
    if s.left == 0 {
        return Ok(Looked::Ended(None, true));
    }
    let looked = add_refused(alloc, &mut s.lines, source, refused)?;
    s.left -= 1;
    Ok(looked)
}

/// What follows once all lines were taken.
#[tactic(auto, using(crate::proofs::MendedLines::looking))]
fn finish(alloc: Global, s: &mut Search) -> Result<Looked, NoMemory>
    requires at { IsAt s.old.walk }
    ensures looked { IfOk result (λ looked. spec.is_found s.old s.old.walk.front ≡ spec.is_found_by s.new looked) }
    ensures fewer { IfOk result (λ looked. (next : List ℕ) → looked ≡ Next next → s.new.left < s.old.left) }
{
    let source = Bytes::copy(alloc, s.walk.read_taken_lines())?;
    match s.walk.finish(alloc)? {
        Some(refused) => look(alloc, s, source.as_slice(), refused),
        None if s.left == 0 => Ok(Looked::Ended(None, true)),
        None => Ok(Looked::Ended(run_refusal(alloc, source.as_slice())?, false)),
    }
}

/// Goes on with the lines of a source. Where a line is refused, and what is left of it is taken in its place, it goes on after it; else
/// it gives what is looked at next.
#[tactic(auto, using(crate::proofs::MendedLines::walks))]
pub(crate) fn walk_on(alloc: Global, s: &mut Search, source: &[u8]) -> Result<Looked, NoMemory>
    requires at { IsAt s.old.walk }
    ensures looked { IfOk result (λ looked.
        spec.to_come s.old (lines_of source.now) ≡ spec.is_found_by s.new looked) }
    ensures fewer { IfOk result (λ looked. (next : List ℕ) → looked ≡ Next next → s.new.left < s.old.left) }
{
    let mut rest = source;
    while !rest.is_empty() {
        let (line, others) = cut_line(rest);
        if let Some(stop) = take_or_mend(alloc, s, line)? {
            let source = s
                .walk
                .source_with_line(alloc, stop.text.as_slice(), others)?;
            return look(alloc, s, source.as_slice(), stop.refused);
        }
        rest = others;
    }
    finish(alloc, s)
}
