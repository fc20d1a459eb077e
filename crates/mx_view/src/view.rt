//! What is shown of a source.

ghost use Rattle.std.specs.Prelude.{◌≡◌, ◌++◌, IfOk, OnOk};
ghost use Rattle.std.specs.List.{flat_map};
ghost use Rattle.std.specs.Result.{result_err};
ghost use Rattle.mx_asm.specs.Whole.{assembled_source};
ghost use Rattle.mx_files.specs.Sources.{source_meaning};
ghost use Rattle.mx_line.specs.Lines.{lines_of};
ghost use Rattle.mx_stab.specs.Reading.{trie_answer};
ghost use Rattle.mx_type.specs.Lines as lines;
ghost use Rattle.mx_view.specs.InTurn as turns;
ghost use Rattle.mx_view.specs.Listing as spec;
ghost use Rattle.mx_view.specs.Rows.{meaning_in};

use crate::cells::Wanted;
use crate::lines::{ListedLines, Meaning};
use crate::rows::add_all_rows;
use crate::turns::add_lines;
use mx_asm::{Assembler, Refused};
use mx_files::{Refusal, SourceFault, load_source};
use mx_stab::StabFault;
use mx_type::Lister;
use mx_walk::finish_source;
use mx_word::{Bytes, NoMemory, Symbol, Symbols};
use std::alloc::Global;

/// The image of a source, or its refusal.
pub(crate) fn meaning_of(alloc: Global, source: &[u8]) -> Result<Meaning, NoMemory>
    ensures { IfOk result (λ meaning. meaning_in meaning ≡ source_meaning source.now) }
{
    match load_source(alloc, source) {
        Err(SourceFault::OutOfMemory) => Err(NoMemory),
        Err(SourceFault::Refused(refusal)) => Ok(Err(refusal)),
        Ok(image) => Ok(Ok(image)),
    }
}

/// Why a source that means this is refused, if it is.
pub(crate) fn refusal_of(meaning: &Meaning) -> Option<Refusal>
    ensures { result ≡ result_err (meaning_in meaning.now) }
{
    match meaning {
        Ok(_) => None,
        Err(refusal) => Some(*refusal),
    }
}

/// The lines of a source that are listed, and its trie or its refusal.
#[derive(Drop)]
struct Walked {
    lines: ListedLines,
    ended: Result<Bytes, Refused>,
}

/// Takes the lines of a source that means this.
#[tactic(auto, using(crate::proofs::Shown::shown))]
fn walk(alloc: Global, meaning: &Meaning, wanted: Wanted, source: &[u8]) -> Result<Walked, NoMemory>
    ensures lines { IfOk result (λ walk. walk.lines
        ≡ turns.all_listed (meaning_in meaning.now) wanted (lines_of source.now)) }
    ensures ended { IfOk result (λ walk. walk.ended ≡ (assembled_source source.now).1) }
{
    let mut assembler = Assembler::new(alloc)?;
    let mut lines = ListedLines::new(alloc);
    add_lines(alloc, &mut assembler, &mut lines, meaning, wanted, source)?;
    let ended = finish_source(alloc, &mut assembler)?;
    Ok(Walked { lines, ended })
}

/// The symbols of a trie.
fn symbols_of(alloc: Global, trie: &[u8]) -> Result<Symbols, NoMemory>
    ensures { IfOk result (λ symbols. symbols ≡ spec.symbols_told (trie_answer trie.now)) }
{
    match mx_stab::read(alloc, trie) {
        Ok(symbols) => Ok(symbols),
        Err(StabFault::OutOfMemory) => Err(NoMemory),
        Err(_) => Ok(Symbols::new(alloc)),
    }
}

/// The symbols of a source that means this, by its trie.
fn symbols_at_end(
    alloc: Global,
    meaning: &Meaning,
    ended: &Result<Bytes, Refused>,
) -> Result<Symbols, NoMemory>
    ensures { IfOk result (λ symbols. symbols ≡ spec.symbols_at_end (meaning_in meaning.now) ended.now) }
{
    match (meaning, ended) {
        (Ok(_), Ok(trie)) => symbols_of(alloc, trie.as_slice()),
        _ => Ok(Symbols::new(alloc)),
    }
}

/// What is listed of a source, as data: its lines, its symbols in the order of their names, and the refusal of a run. A
/// source that is refused has no symbols, and no lines after one that its assembly refuses.
#[derive(Drop)]
pub struct Listed {
    pub lines: ListedLines,
    pub symbols: Symbols,
    pub refused: Option<Refusal>,
}

/// What is listed of a source, or of the tetra that holds an address. The text of the listing and of the lines of an
/// address has the rows of these lines.
///
/// Errors: out of memory.
#[tactic(auto, using(crate::proofs::Shown::shown))]
pub fn list_source(alloc: Global, wanted: Wanted, source: &[u8]) -> Result<Listed, NoMemory>
    ensures lines { IfOk result (λ told. told.lines ≡ spec.lines_listed wanted source.now) }
    ensures symbols { IfOk result (λ told. told.symbols ≡ spec.symbols_listed source.now) }
    ensures refused { IfOk result (λ told. told.refused ≡ spec.refusal_in source.now) }
{
    let meaning = meaning_of(alloc, source)?;
    let walked = walk(alloc, &meaning, wanted, source)?;
    let symbols = symbols_at_end(alloc, &meaning, &walked.ended)?;
    Ok(Listed {
        lines: walked.lines,
        symbols,
        refused: refusal_of(&meaning),
    })
}

/// Adds the lines of symbols.
fn add_symbols(text: &mut Bytes, lister: &Lister, symbols: &[Symbol]) -> Result<(), NoMemory>
    ensures { OnOk result (
        text.new ≡ text.old ++ flat_map (λ s. lines.ended (lines.symbol_line s)) symbols.now) }
{
    for symbol in symbols {
        let line = lister.symbol_line(symbol)?;
        text.extend(line.as_slice())?;
    }
    Ok(())
}

/// Adds the symbols of a source after an empty line, if all of it is shown and it is not refused.
fn add_end(alloc: Global, text: &mut Bytes, wanted: Wanted, listed: &Listed) -> Result<(), NoMemory>
    ensures { OnOk result (
        text.new ≡ text.old ++ spec.symbols_text wanted listed.now.refused listed.now.symbols) }
{
    match (wanted, listed.refused) {
        (Wanted::All, None) => {
            text.extend(b"\n")?;
            add_symbols(text, &Lister::new(alloc), listed.symbols.as_slice())
        }
        _ => Ok(()),
    }
}

/// What is shown of a source as a text, and why a run of it is refused, if it is.
#[derive(Drop)]
pub struct Sheet {
    pub text: Bytes,
    pub refused: Option<Refusal>,
}

/// What is shown of a source.
fn make_sheet(alloc: Global, wanted: Wanted, source: &[u8]) -> Result<Sheet, NoMemory>
    ensures text { IfOk result (λ shown. shown.text ≡ spec.shown_source wanted source.now) }
    ensures refused { IfOk result (λ shown. shown.refused ≡ spec.refusal_in source.now) }
{
    let listed = list_source(alloc, wanted, source)?;
    let mut text = Bytes::new(alloc);
    add_all_rows(alloc, &mut text, listed.lines.as_slice())?;
    add_end(alloc, &mut text, wanted, &listed)?;
    Ok(Sheet {
        text,
        refused: listed.refused,
    })
}

/// The listing of a source: each line with the tetras that it loads, each at its address; then the symbols in the
/// order of their names, unless the source is refused.
pub fn listing(alloc: Global, source: &[u8]) -> Result<Sheet, NoMemory>
    ensures text { IfOk result (λ shown. shown.text ≡ spec.listing_of source.now) }
    ensures refused { IfOk result (λ shown. shown.refused ≡ spec.refusal_in source.now) }
{
    make_sheet(alloc, Wanted::All, source)
}

/// The lines of a source that load the tetra that holds an address, as they are listed, each with this tetra alone;
/// no line where nothing is loaded there.
pub fn list_lines_at(alloc: Global, address: u64, source: &[u8]) -> Result<Sheet, NoMemory>
    ensures text { IfOk result (λ shown. shown.text ≡ spec.lines_holding address source.now) }
    ensures refused { IfOk result (λ shown. shown.refused ≡ spec.refusal_in source.now) }
{
    make_sheet(alloc, Wanted::Holding(address), source)
}
