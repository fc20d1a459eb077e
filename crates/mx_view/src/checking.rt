//! All faults of a source.

ghost use Rattle.std.specs.Prelude.{◌≡◌, ◌++◌, false, IfOk, OnOk, Some};
ghost use Rattle.mx_files.specs.Loading as loading;
ghost use Rattle.mx_view.specs.Listing.{refusal_in};
ghost use Rattle.mx_view.specs.Refusals as spec;
ghost use Rattle.mx_view.specs.Search.{found_in};

use crate::search::{find_faults, line_at_fault, refusal_with, run_refusal};
use mx_asm::Refused;
use mx_files::Refusal;
use mx_marks::{Mark, line_text};
use mx_sentences::{Remark, remark_on, remark_on_whole};
use mx_word::{Bytes, NoMemory, Sequence};
use std::alloc::Global;

/// The fault of a source that has too many pages.
const PAGES_FULL: u16 = 90;

/// A fault of a source as it is told: the refusal, the number of the line at fault, and its text without the newline; how many bytes of it
/// are in front of the marked text, and how many bytes this has; what is wrong, a name that is meant perhaps, or no text, and how to fix
/// the fault. The line at fault is the one that the refusal names; but where a label in one line does not suit a reference in another, it is
/// the reference's. A fault of the source as a whole has the refusal's number and no text of a line.
#[derive(Drop)]
pub struct ToldFault {
    pub refused: Refusal,
    pub at_line: u32,
    pub line: Option<Bytes>,
    pub caret: Option<usize>,
    pub length: usize,
    pub what: Bytes,
    pub meant: Bytes,
    pub help: Bytes,
}

/// The faults of a source: why it is refused when it is run, if it is; all faults, up to 100 lines, in the order of the lines at fault,
/// and then the one of the source as a whole, if there is one; and whether there are more faulty lines.
#[derive(Drop)]
pub struct ToldFaults {
    pub refused: Option<Refusal>,
    pub faults: Sequence<ToldFault>,
    pub is_cut: bool,
}

/// How many bytes a marked text has.
fn length_of(mark: Option<Mark>) -> usize
    ensures { result ≡ spec.length_of mark }
{
    match mark {
        None => 0,
        Some(mark) => mark.length,
    }
}

/// A refusal with what is said of it, and the line at fault, if there is one.
fn make_fault(refused: Refusal, at_line: u32, line: Option<Bytes>, remark: Remark) -> ToldFault
    ensures { result ≡ spec.told_with refused at_line line remark }
{
    ToldFault {
        refused,
        at_line,
        line,
        caret: remark.mark.map(|mark| mark.from),
        length: length_of(remark.mark),
        what: remark.what,
        meant: remark.meant,
        help: remark.help,
    }
}

/// A refusal at a line with this text.
fn fault_of_line(
    alloc: Global,
    source: &[u8],
    refused: Refused,
    line: &[u8],
) -> Result<ToldFault, NoMemory>
    ensures { IfOk result (λ fault. fault ≡ spec.told_at source.now refused line.now) }
{
    let at_line = line_at_fault(refused);
    let remark = remark_on(alloc, refused.fault, at_line, source, line)?;
    let copy = Bytes::copy(alloc, line)?;
    Ok(make_fault(refusal_with(refused), at_line, Some(copy), remark))
}

/// A refusal of the source as a whole.
fn fault_of_source(alloc: Global, source: &[u8], refused: Refusal) -> Result<ToldFault, NoMemory>
    ensures { IfOk result (λ fault. fault ≡ spec.told_whole source.now refused) }
{
    let remark = remark_on_whole(alloc, refused.fault, source)?;
    Ok(make_fault(refused, refused.line, None, remark))
}

/// Adds the fault of the source as a whole, if there is one.
fn add_whole(
    alloc: Global,
    faults: &mut Sequence<ToldFault>,
    source: &[u8],
    refused: Option<Refusal>,
) -> Result<(), NoMemory>
    ensures { OnOk result (faults.new ≡ faults.old ++ spec.told_if source.now refused) }
{
    match refused {
        None => Ok(()),
        Some(refused) => faults.push(fault_of_source(alloc, source, refused)?),
    }
}

/// The refusals of lines of a source, as faults that are told.
fn faults_of_lines(
    alloc: Global,
    source: &[u8],
    lines: &[Refused],
) -> Result<Sequence<ToldFault>, NoMemory>
    ensures { IfOk result (λ faults. faults ≡ spec.told_lines source.now lines.now) }
{
    let mut faults = Sequence::new(alloc);
    for refused in lines {
        let line = line_text(line_at_fault(*refused), source);
        faults.push(fault_of_line(alloc, source, *refused, line)?)?;
    }
    Ok(faults)
}

/// What is found in a source that is refused so when it is run.
fn faults_of_refusal(alloc: Global, source: &[u8], refused: Refusal) -> Result<ToldFaults, NoMemory>
    ensures { IfOk result (λ told. told ≡ spec.told_found source.now (Some refused) (found_in source.now)) }
{
    let found = find_faults(alloc, source)?;
    let mut faults = faults_of_lines(alloc, source, found.lines.as_slice())?;
    add_whole(alloc, &mut faults, source, found.whole)?;
    Ok(ToldFaults {
        refused: Some(refused),
        faults,
        is_cut: found.is_cut,
    })
}

/// The faults of a source whose lines have none.
fn faults_of_pages(
    alloc: Global,
    source: &[u8],
    refused: Option<Refusal>,
) -> Result<ToldFaults, NoMemory>
    ensures { IfOk result (λ told. told ≡ spec.with_refusal refused (spec.told_if source.now refused) false) }
{
    let mut faults = Sequence::new(alloc);
    add_whole(alloc, &mut faults, source, refused)?;
    Ok(ToldFaults {
        refused,
        faults,
        is_cut: false,
    })
}

/// All faults of a source, up to 100 lines, as data. They are found one after another: the first is the refusal of a run, and each further
/// one that of the source in which the lines that were refused so far do nothing but define their labels. They are told in the order of the
/// lines at fault. A fault of the source as a whole, as where Main is not defined, is the last.
///
/// Errors: out of memory.
pub fn tell_faults(alloc: Global, source: &[u8]) -> Result<ToldFaults, NoMemory>
    ensures told { IfOk result (λ told. told ≡ spec.faults_in source.now) }
    ensures refused { IfOk result (λ told. told.refused ≡ refusal_in source.now) }
{
    match run_refusal(alloc, source)? {
        Some(refused) if refused.fault != PAGES_FULL => faults_of_refusal(alloc, source, refused),
        refused => faults_of_pages(alloc, source, refused),
    }
}
