//! How the faults of a source are found.

ghost use Rattle.std.specs.Prelude.{◌≡◌, ◌≤◌, Some, IfOk, OnOk, take_while, length};
ghost use Rattle.mx_files.specs.Loading as loading;
ghost use Rattle.mx_view.specs.Listing.{refusal_in};
ghost use Rattle.mx_view.specs.Search as spec;

use crate::mending::{Search, walk_on};
use crate::view::{meaning_of, refusal_of};
use mx_asm::{AsmFault, Refused};
use mx_files::Refusal;
use mx_marks::{with_blank, with_label};
use mx_walk::Walk;
use mx_word::{Bytes, NoMemory, Sequence};
use std::alloc::Global;

/// The most lines that are told.
const MOST_LINES: usize = 100;

/// The most sources that are looked at: two for each line that is told, and one that shows whether there are more.
const MOST_SOURCES: u32 = 201;

/// Why a source is refused when it is run, if it is.
pub(crate) fn run_refusal(alloc: Global, source: &[u8]) -> Result<Option<Refusal>, NoMemory>
    ensures { IfOk result (λ refusal. refusal ≡ refusal_in source.now) }
{
    Ok(refusal_of(&meaning_of(alloc, source)?))
}

/// What the assembler refuses a source with.
pub(crate) fn refusal_with(refused: Refused) -> Refusal
    ensures { result ≡ loading.refusal_of refused }
{
    Refusal {
        line: refused.line,
        fault: refused.fault.number(),
        from_line: refused.from_line,
    }
}

/// Whether a fault is one of the source as a whole.
fn is_of_whole(fault: AsmFault) -> bool
    ensures { result ≡ spec.is_of_whole fault }
{
    matches!(
        fault,
        AsmFault::MainUndefined
            | AsmFault::MainRegister
            | AsmFault::SymbolsTooMany
            | AsmFault::LocalAboveGlobals
            | AsmFault::SourceTooLong
    )
}

/// The line at fault: that of a reference, where a label in another line does not suit it.
pub(crate) fn line_at_fault(refused: Refused) -> u32
    ensures { result ≡ spec.line_at_fault refused }
{
    if refused.from_line == 0 {
        refused.line
    } else {
        refused.from_line
    }
}

/// Whether one of these refusals is at a line.
fn is_at(lines: &[Refused], line: u32) -> bool
    ensures { result ≡ spec.is_at lines.now line }
{
    lines.iter().any(|refused| line_at_fault(*refused) == line)
}

/// How many of these refusals are at lines before this one.
#[tactic(auto, using(crate::proofs::SearchTurns::insertions))]
fn count_before(lines: &[Refused], line: u32) -> usize
    ensures count { result ≡ length (take_while (spec.is_before line) lines.now) }
    ensures few { result ≤ length lines.now }
{
    lines
        .iter()
        .take_while(|refused| line_at_fault(**refused) < line)
        .count()
}

/// Puts a refusal between those at earlier lines and those at later lines.
#[tactic(auto, using(crate::proofs::SearchTurns::insertions))]
pub(crate) fn insert_refusal(lines: &mut Vec<Refused>, refused: Refused) -> Result<(), NoMemory>
    ensures { OnOk result (lines.new.items ≡ spec.inserted refused lines.old.items) }
{
    let place = count_before(lines.as_slice(), line_at_fault(refused));
    lines.insert(place, refused)?;
    Ok(())
}

/// What a refusal is for the search.
#[derive(Clone, Copy)]
pub(crate) enum Finding {
    /// Its line was not refused before.
    New,
    /// Its line was refused before.
    Again,
    /// It is at one more line than are told.
    Beyond,
    /// It is one of the source as a whole.
    Whole,
}

/// What a refusal is, where these were found before.
pub(crate) fn kind_of(lines: &[Refused], refused: Refused) -> Finding
    ensures { result ≡ spec.kind_of lines.now refused }
{
    if is_of_whole(refused.fault) {
        Finding::Whole
    } else if is_at(lines, line_at_fault(refused)) {
        Finding::Again
    } else if lines.len() == MOST_LINES {
        Finding::Beyond
    } else {
        Finding::New
    }
}

/// What follows once a source was looked at: the source that is looked at next; or the end, with the fault of the source as a whole,
/// if it has one, and whether there are more faulty lines than are told.
#[derive(Drop)]
pub(crate) enum Looked {
    Next(Bytes),
    Ended(Option<Refusal>, bool),
}

/// Adds why a source is refused.
pub(crate) fn add_refused(
    alloc: Global,
    lines: &mut Vec<Refused>,
    source: &[u8],
    refused: Refused,
) -> Result<Looked, NoMemory>
    ensures lines { OnOk result (
        lines.new.items ≡ spec.found_with lines.old.items (Some refused)) }
    ensures next { IfOk result (λ looked. looked ≡ spec.looked_with lines.old.items source.now (Some refused)) }
{
    let line = line_at_fault(refused);
    match kind_of(lines.as_slice(), refused) {
        Finding::Whole => Ok(Looked::Ended(Some(refusal_with(refused)), false)),
        Finding::Beyond => Ok(Looked::Ended(None, true)),
        Finding::Again => Ok(Looked::Next(with_blank(alloc, line, source)?)),
        Finding::New => {
            insert_refusal(lines, refused)?;
            Ok(Looked::Next(with_label(alloc, line, source)?))
        }
    }
}

/// What is found: the refusals of lines, in the order of the lines at fault, the fault of the source as a whole, if it has one, and
/// whether there are more faulty lines.
#[derive(Drop)]
pub(crate) struct Found {
    pub lines: Sequence<Refused>,
    pub whole: Option<Refusal>,
    pub is_cut: bool,
}

/// Finds the faults of a source.
#[tactic(auto, using(crate::proofs::MendedLines::walks))]
pub(crate) fn find_faults(alloc: Global, source: &[u8]) -> Result<Found, NoMemory>
    ensures { IfOk result (λ found. found ≡ spec.found_in source.now) }
{
    let walk = Walk::begin(alloc)?;
    let lines = Vec::new(alloc);
    let left = MOST_SOURCES;
    let mut search = Search { walk, lines, left };
    let mut current = Bytes::copy(alloc, source)?;
    while search.left > 0 {
        match walk_on(alloc, &mut search, current.as_slice())? {
            Looked::Next(next) => current = next,
            Looked::Ended(whole, is_cut) => {
                return Ok(Found {
                    lines: Sequence::from_vec(search.lines),
                    whole,
                    is_cut,
                });
            }
        }
        search.walk = Walk::begin(alloc)?;
    }
    Ok(Found {
        lines: Sequence::from_vec(search.lines),
        whole: None,
        is_cut: true,
    })
}
